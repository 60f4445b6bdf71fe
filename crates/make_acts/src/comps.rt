//! The act that makes a component in a blank kernel frame: it takes a liveness number, and puts the component's capability at the target.
//!
//! **Marking.** The frame's word is loaded and marked, as for any other object, and the counts are acquired: that of the frame by two, for
//! the capability and for the number that lives, and those of the table and of the pages.
//!
//! **Taking the number.** The number's word is loaded. A number that is live is `occupied`. One that died is waited for: the other cores
//! are scanned since its stamp, so that no call is in progress that may still find it live for the component that died. A number whose
//! epochs are spent is not taken. Then its word is marked by a compare with the word found.
//!
//! **Filling in.** The component's three words are stored. Its epoch is one more than the last of the number.
//!
//! **Publishing.** The target is compared with the word found there, which decides the call. After it the number's word is stored, live in
//! the component's epoch, and then the frame's word. A refused call stores those of the two as they were found that it has marked.

ghost use Rattle.act_counts.specs.act_states.specs.Acts.{comp_marks, took_comp};
ghost use Rattle.act_counts.specs.act_states.specs.Comps.{CompMakingFits, closes_number, comp_filling, comp_goes, comp_meets};
ghost use Rattle.act_counts.specs.act_states.specs.Comps.{comp_meets_blank, comp_move, comp_published, comp_refuses, comp_stored};
ghost use Rattle.act_counts.specs.act_states.specs.Comps.{comp_word_at, component, number_met, number_scanned, number_shown};
ghost use Rattle.act_counts.specs.act_states.specs.Comps.{scans_number, takes_number};
ghost use Rattle.act_counts.specs.frame_words.specs.Frame.{word_of_frame};
ghost use Rattle.act_counts.specs.frame_words.specs.Live.{word_of_live};
ghost use Rattle.act_counts.specs.frame_words.specs.declared.live_word.LiveWord.TheVariants.{Live};
ghost use Rattle.act_counts.specs.word_map.specs.Moves.{op_of};
ghost use Rattle.act_counts.specs.word_map.specs.Places.{size_of};
ghost use Rattle.act_counts.specs.spk_nums.specs.WordSteps.{place_in};
ghost use Rattle.std.specs.Prelude.{◌+◌, ◌<◌, ◌^◌, ◌≡◌, ◌≤◌};

use crate::fills::fill_op;
use crate::kills::closing_word;
use crate::makings::marked_word;
use act_counts::act_states::frame_words::{CompWord, FrameWord, LiveWord};
use act_counts::act_states::stage_quiet::Quiet;
use act_counts::act_states::word_map::Layout;
use act_counts::act_states::{Act, CompAt, CompMaking, LastEpoch, Refusal, Work, WorkStep};
use act_counts::{gives_back, next_work, refuse, unmark};
use spk_nums::{EntryNo, FrameKind, FrameNo, Obj, StageEnd, Value, WordOp};

/// The next step of the making of a component. What it names is of the layout's machine.
#[inline]
pub fn comp_op(making: &CompMaking, layout: &Layout) -> WordOp
    requires { CompMakingFits layout.now making.now }
    ensures step { result ≡ op_of layout.now (comp_move making.now) }
    ensures below { place_in result < size_of layout.now }
{
    match making.at {
        CompAt::Load => WordOp::Load {
            at: layout.frame_at(making.frame),
        },
        CompAt::Mark { word } => WordOp::Compare {
            at: layout.frame_at(making.frame),
            expected: word,
            word: marked_word(making.core),
        },
        CompAt::LoadLive { word: _ } => WordOp::Load {
            at: layout.live_at(making.number),
        },
        CompAt::Scan {
            word: _,
            last: _,
            quiet,
        } => quiet.next(layout),
        CompAt::Close { word: _, last } => WordOp::Compare {
            at: layout.live_at(making.number),
            expected: last.word,
            word: closing_word(last.epoch, making.core),
        },
        CompAt::Store {
            word: _,
            last,
            entry,
        } => WordOp::Store {
            at: layout.entry_at(making.frame, entry),
            word: comp_word(making, last.epoch + 1, entry),
        },
        CompAt::Fill { word: _, last: _ } => fill_op(&making.fill, layout),
    }
}

/// What the making of a component takes from the word that its step found: a frame that another core has marked is `busy`, one that is no
/// blank kernel frame `frame-kind`. A number that another core is closing is `busy`, one that is live `occupied`, one that a core in a call
/// that it entered before its death may still use `quiescing`, and one that was live in each epoch `epochs-spent`. A lost compare is
/// `raced`. After the mark the counts are acquired. The layout is that of the machine.
#[inline(never)]
pub fn comp_took(making: &CompMaking, layout: &Layout, found: u64) -> WorkStep
    requires { CompMakingFits layout.now making.now }
    ensures { result ≡ took_comp making.now found }
{
    match making.at {
        CompAt::Load => meets(making, found, FrameWord::unpack(found)),
        CompAt::Mark { word } => marks(making, word, found == word),
        CompAt::LoadLive { word } => meets_live(making, word, found, LiveWord::unpack(found)),
        CompAt::Scan { word, last, quiet } => {
            let mut quiet = quiet;
            let end = quiet.take(layout, found);
            scanned(making, word, last, quiet, &end)
        }
        CompAt::Close { word, last } => closes(making, word, last, found == last.word),
        CompAt::Store { word, last, entry } => goes(making, stored(word, last, entry)),
        CompAt::Fill { word, last } => published(making, word, last, found == making.fill.word),
    }
}

/// Whether the next step of the making of a component is the compare of the target.
#[inline]
pub fn comp_ready(making: &CompMaking) -> bool
    ensures { result ≡ comp_filling making.now.at }
{
    matches!(making.at, CompAt::Fill { .. })
}

// The making goes on here.
#[inline]
fn goes(making: &CompMaking, at: CompAt) -> WorkStep
    ensures { result ≡ comp_goes making.now at }
{
    WorkStep::Goes {
        work: Work::Act {
            act: comp_at(making, at),
        },
    }
}

// The making that stands here.
#[inline]
fn comp_at(making: &CompMaking, at: CompAt) -> Act
    ensures { result ≡ Act.MakeComp (record making.now { at = at }) }
{
    Act::MakeComp {
        making: CompMaking { at, ..*making },
    }
}

// The call is refused where the frame is marked and the number is not.
#[inline]
fn refuses(making: &CompMaking, word: u64, refusal: Refusal) -> WorkStep
    ensures { result ≡ comp_refuses making.now word refusal }
{
    WorkStep::Refuses {
        refusal,
        tail: unmark(making, word),
    }
}

// What the load of the frame's word leads to, where it shows this.
#[inline]
fn meets(making: &CompMaking, word: u64, shown: Option<FrameWord>) -> WorkStep
    ensures { result ≡ comp_meets making.now word shown }
{
    match shown {
        None => refuse(Refusal::Raced),
        Some(shown) => meets_frame(making, word, &shown),
    }
}

// What that load leads to, where the word shows a frame.
#[inline]
fn meets_frame(making: &CompMaking, word: u64, shown: &FrameWord) -> WorkStep
    ensures { result ≡ comp_meets_blank making.now word shown.now.kind shown.now.object shown.now.mark }
{
    match (shown.mark, shown.kind, shown.object) {
        (Some(by), _, _) => refuse(Refusal::Busy(by)),
        (None, FrameKind::Kernel, Obj::Blank) => goes(making, CompAt::Mark { word }),
        _ => refuse(Refusal::FrameKind),
    }
}

// What the compare leads to that marks the frame.
#[inline]
fn marks(making: &CompMaking, word: u64, equal: bool) -> WorkStep
    ensures { result ≡ comp_marks making.now word equal }
{
    if equal {
        let act = comp_at(making, CompAt::LoadLive { word });
        WorkStep::Goes {
            work: next_work(making.core, 0, &act),
        }
    } else {
        refuse(Refusal::Raced)
    }
}

// What the load of the number's word leads to, where it shows this.
#[inline]
fn meets_live(making: &CompMaking, word: u64, live: u64, shown: Option<LiveWord>) -> WorkStep
    requires core { making.now.core < making.now.cores }
    requires cores { making.now.cores ≤ 8 }
    ensures { result ≡ number_met making.now word live shown }
{
    match shown {
        None => refuses(making, word, Refusal::Raced),
        Some(shown) => meets_number(making, word, live, &shown),
    }
}

// What that load leads to, where the word shows a number.
#[inline]
fn meets_number(making: &CompMaking, word: u64, live: u64, shown: &LiveWord) -> WorkStep
    requires core { making.now.core < making.now.cores }
    requires cores { making.now.cores ≤ 8 }
    ensures { result ≡ number_shown making.now word live shown.now }
{
    match *shown {
        LiveWord::Free => {
            let epoch = 0;
            takes(making, word, LastEpoch { word: live, epoch })
        }
        LiveWord::Live { epoch: _, frame: _ } => refuses(making, word, Refusal::Occupied),
        LiveWord::Closing { epoch: _, by } => refuses(making, word, Refusal::Busy(by)),
        LiveWord::Dead { epoch, stamp } => {
            let quiet = Quiet::entry(stamp, making.core, making.cores);
            scans(making, word, LastEpoch { word: live, epoch }, quiet)
        }
    }
}

// The number is taken, unless its epochs are spent.
#[inline]
fn takes(making: &CompMaking, word: u64, last: LastEpoch) -> WorkStep
    ensures { result ≡ takes_number making.now word last }
{
    if last.epoch < making.epochs {
        goes(making, CompAt::Close { word, last })
    } else {
        refuses(making, word, Refusal::EpochsSpent)
    }
}

// The number is taken after a scan, if there is one.
#[inline]
fn scans(making: &CompMaking, word: u64, last: LastEpoch, quiet: Option<Quiet>) -> WorkStep
    ensures { result ≡ scans_number making.now word last quiet }
{
    match quiet {
        None => takes(making, word, last),
        Some(quiet) => goes(making, CompAt::Scan { word, last, quiet }),
    }
}

// What a step of the scan leads to, which stands here after it.
#[inline]
fn scanned(
    making: &CompMaking,
    word: u64,
    last: LastEpoch,
    quiet: Quiet,
    end: &StageEnd<()>,
) -> WorkStep
    ensures { result ≡ number_scanned making.now word last quiet end.now }
{
    match end {
        StageEnd::Going => goes(making, CompAt::Scan { word, last, quiet }),
        StageEnd::Decided(reply) => refuses(making, word, Refusal::of(reply)),
        StageEnd::Done(_) => takes(making, word, last),
        StageEnd::Refuse(reply) => refuses(making, word, Refusal::of(reply)),
    }
}

// What the compare leads to that marks the number's word.
#[inline]
fn closes(making: &CompMaking, word: u64, last: LastEpoch, equal: bool) -> WorkStep
    ensures { result ≡ closes_number making.now word last equal }
{
    if equal {
        let entry = EntryNo::new(0);
        goes(making, CompAt::Store { word, last, entry })
    } else {
        refuses(making, word, Refusal::Raced)
    }
}

// The word of this number of the component.
#[inline]
fn comp_word(making: &CompMaking, epoch: u16, entry: EntryNo) -> u64
    requires number { making.now.number < 64 }
    requires epoch { 1 ≤ epoch }
    ensures { result ≡ comp_word_at making.now epoch entry }
{
    let at = entry.number();
    if at == 0 {
        u64::from(making.table.number())
    } else if at == 1 {
        u64::from(making.pages.number())
    } else {
        let word = CompWord {
            number: making.number,
            epoch,
        };
        word.pack()
    }
}

// What the compare of the target leads to.
#[inline]
fn published(making: &CompMaking, word: u64, last: LastEpoch, equal: bool) -> WorkStep
    requires { last.epoch + 1 < 2 ^ 16 }
    ensures { result ≡ comp_published making.now word last equal }
{
    if equal {
        WorkStep::Answers {
            value: Value::Nothing,
            drawn: None,
            tail: gives_back(
                making,
                component_word(),
                live_word(last.epoch + 1, making.frame),
            ),
        }
    } else {
        WorkStep::Refuses {
            refusal: Refusal::Raced,
            tail: gives_back(making, word, last.word),
        }
    }
}

// Where the making stands after the store of a word.
#[inline]
fn stored(word: u64, last: LastEpoch, entry: EntryNo) -> CompAt
    ensures { result ≡ comp_stored word last entry }
{
    let at = entry.number();
    if at < 2 {
        CompAt::Store {
            word,
            last,
            entry: EntryNo::new(at + 1),
        }
    } else {
        CompAt::Fill { word, last }
    }
}

// The word of a number that is live for a frame.
#[inline]
fn live_word(epoch: u16, frame: FrameNo) -> u64
    requires { 1 ≤ epoch }
    ensures { result ≡ word_of_live (Live epoch frame) }
{
    let _number = frame.number();
    let word = LiveWord::Live { epoch, frame };
    word.pack()
}

// The word of a frame that holds a component.
#[inline]
fn component_word() -> u64
    ensures { result ≡ word_of_frame component }
{
    let word = FrameWord {
        kind: FrameKind::Kernel,
        object: Obj::Comp,
        mark: None,
    };
    word.pack()
}
