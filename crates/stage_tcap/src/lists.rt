//! Lists of qualities, read word by word.
//!
//! A list has eight words, each with a pair or none; words with none are passed over. The pairs must stand in the order
//! of their schedulers: a list that another core is storing may be read out of order, and is then taken as the empty one.

ghost use Rattle.std.specs.Prelude.{◌≡◌, ◌≤◌, ◌-◌, nat_le, length};
ghost use Rattle.word_map.specs.spk_nums.specs.Merging.{merged};
ghost use Rattle.stage_tcap.specs.Lists.{read_word, in_order, same_list, merged_if, merge_of};
ghost use Rattle.stage_tcap.specs.Pairs.{EntryFits, word_of_list};

use quality_lists::{agrees, merge};
use tcap_words::QualityWord;
use word_map::spk_nums::{EntryNo, Qualities};

// A list gets the pair of the next word, where that has one; it is None once a pair is out of order.
#[inline]
pub(crate) fn add_word(list: &mut Option<Qualities>, word: Option<QualityWord>)
    ensures { list.new ≡ read_word list.old word }
{
    if let Some(QualityWord(Some(pair))) = word {
        let kept = match list {
            None => true,
            Some(list) => list.add(pair),
        };
        if !kept {
            *list = None;
        }
    }
}

// A list that is out of order is taken as the empty one.
#[inline]
pub(crate) fn in_order(list: &Option<Qualities>) -> Qualities
    ensures { result ≡ in_order list.now }
{
    match list {
        None => Qualities::empty(),
        Some(list) => *list,
    }
}

// Whether two lists are equal.
#[inline]
pub(crate) fn same_list(a: &Qualities, b: &Qualities) -> bool
    ensures { result ≡ same_list a.now b.now }
{
    agrees(a, b)
}

// The merged list, where it has room for each scheduler.
#[inline]
#[tactic(auto, using(crate::proofs::ListLemmas::merge_by))]
pub(crate) fn merge_of(a: &Qualities, b: &Qualities) -> Option<Qualities>
    ensures { result ≡ merge_of a.now b.now }
{
    merge(a, b)
}

// The word of a list at this entry, 1 to 8.
#[inline]
pub(crate) fn word_at(list: &Qualities, entry: EntryNo) -> u64
    requires { EntryFits entry }
    ensures { result ≡ word_of_list list.now entry }
{
    let at = usize::from(entry.number()) - 1;
    // A list of qualities keeps each pair within its range.
    prove!(list.len() <= 8);
    QualityWord(list.get(at)).pack()
}
