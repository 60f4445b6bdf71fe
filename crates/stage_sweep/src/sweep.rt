//! Sweeping a frame that is to be retyped to untyped.
//!
//! **Freezing.** The references to a frame are counted in its count words, one for each core. One after the other, core
//! 0's first, is loaded and frozen by a compare. A frozen word is changed by no other core, and a word that another core has
//! acquired is busy. So at the last compare no count of the frame is acquired, and the sum of the words found is the number
//! of references at that moment. Until then the words still to be frozen may change, so that a sum of the first alone says
//! nothing.
//!
//! **Judging.** Where references stand the retype is refused at that compare. Else what released the last of them may
//! still be used: the latest stamp of the words found is scanned for, with the flushes of a frame that may stand in cached
//! translations. Then the object is looked at, one word after another, and must be empty.
//!
//! **Giving back.** A refused sweep leaves the counters that it has frozen; they are kept as they were found, to be
//! released again.

ghost use Rattle.std.specs.Prelude.{◌≡◌, ◌+◌, ◌<◌, ◌≤◌, ◌==◌, nat_lt, if◌then◌else◌, length, [], None, Some, IfSome};
ghost use Rattle.stage_look.specs.spk_nums.specs.declared.steps.StageEnd.TheVariants.{Going};
ghost use Rattle.stage_look.specs.spk_nums.specs.WordSteps.{place_in};
ghost use Rattle.stage_pins.specs.frame_words.specs.Count.{NumberFits, word_of_count, count_of_word};
ghost use Rattle.stage_look.specs.word_map.specs.Places.{place_of, size_of};
ghost use Rattle.stage_look.specs.word_map.specs.Word.{CountAt};
ghost use Rattle.stage_look.specs.word_map.specs.Moves.{op_of};
ghost use Rattle.stage_pins.specs.Counts.{unheld};
ghost use Rattle.stage_quiet.specs.Scan.{quiet_scan, QuietFits, quiet_end, quiet_after};
ghost use Rattle.stage_sweep.specs.Counters.{counters_of, sum_of_counts, latest_stamp};
ghost use Rattle.stage_sweep.specs.Emptiness.{loads_of, may_be_cached};
ghost use Rattle.stage_sweep.specs.Freeze.{frozen, AtFits, StepFits, KeepFits, TookFits, kept_by, SweepFits, sweep_move, frozen_at};
ghost use Rattle.stage_sweep.specs.Freeze.{hold_refuses, load_refuses, sum_refuses, compare_refuses, refusal_of, refuses_at};
ghost use Rattle.stage_sweep.specs.Freeze.{load_next, empty_next, scan_next, compare_next, scan_goes, next_at, owned_at, sweep_kept};
ghost use Rattle.stage_sweep.specs.Freeze.{sweep_refuses, sweep_next, at_after, sweep_after, swept_of, end_by, sweep_end};

use crate::count_words::CountWords;
use crate::empty::{Owned, empty_refuses, loads_of, may_be_cached, owned_after};
use frame_words::{CountWord, FrameWord, Hold, residue};
use spk_nums::{CoreNo, EntryNo, FrameNo, Obj, Reply, StageEnd, Stamp, WordOp};
use stage_quiet::Quiet;
use word_map::Layout;

/// Where a sweep stands, between two of its steps.
#[derive(Clone, Copy, PartialEq, Eq, Debug)]
pub enum SweepAt {
    /// Before the load of the first counter that is not frozen.
    Load,
    /// Before its compare; it was found held by no core, with this count and this stamp.
    Compare { count: i32, stamp: Stamp },
    /// In the scan for the latest stamp of the counters.
    Scan(Quiet),
    /// Before the load of this word of the object.
    Empty { entry: EntryNo },
}

/// The sweep of a frame by a core that has marked it, between two of its steps.
#[derive(Clone, Copy, PartialEq, Eq, Debug)]
pub struct Sweep {
    /// The frame.
    pub frame: FrameNo,
    /// What it is, as its word was found.
    pub word: FrameWord,
    /// The core that sweeps it.
    pub core: CoreNo,
    /// The counters that are frozen, as they were found.
    pub kept: CountWords,
    /// What is known of the frames that the object names.
    pub owned: Owned,
    /// Where the sweep stands.
    pub at: SweepAt,
}

/// What a sweep has found.
#[derive(Clone, Copy, PartialEq, Eq, Debug)]
pub struct Swept {
    /// The frame.
    pub frame: FrameNo,
    /// The sum of the frozen counters.
    pub sum: i64,
    /// The latest of their stamps.
    pub stamp: Stamp,
    /// The frozen counters, as they were found.
    pub words: CountWords,
    /// The frames that the object itself names.
    pub owned: Owned,
}

impl Sweep {
    /// The sweep by a core of a frame that it has marked, whose word was found to be this.
    pub fn new(frame: FrameNo, word: FrameWord, core: CoreNo) -> Sweep
        ensures { result ≡ record {
          frame = frame;
          word = word;
          core = core;
          kept = [];
          owned = record { first = None; second = None };
          at = SweepAt.Load;
        } }
    {
        Sweep {
            frame,
            word,
            core,
            kept: CountWords::empty(),
            owned: Owned {
                first: None,
                second: None,
            },
            at: SweepAt::Load,
        }
    }

    /// The next step. The frame and the core are below the layout's.
    pub fn next(&self, layout: &Layout) -> WordOp
        requires { SweepFits layout.now self.now }
        ensures step { result ≡ op_of layout.now (sweep_move self.now) }
        ensures below { place_in result < size_of layout.now }
    {
        match self.at {
            SweepAt::Load => WordOp::Load {
                at: self.counter_at(layout),
            },
            SweepAt::Compare { count, stamp } => WordOp::Compare {
                at: self.counter_at(layout),
                expected: unheld_word(count, stamp),
                word: frozen_word(self.core, count, stamp),
            },
            SweepAt::Scan(quiet) => quiet.next(layout),
            SweepAt::Empty { entry } => WordOp::Load {
                at: layout.entry_at(self.frame, entry),
            },
        }
    }

    /// Takes the word that the step found. A counter that a core holds is refused with `busy`, and a lost compare with
    /// `raced`; with `referenced` where the counters, all frozen, do not sum to 0, modulo 2^16; with `quiescing` or `unflushed`
    /// where the latest stamp is still waited for; with `not-empty` where the object holds something, and `busy` where
    /// a core has marked what it holds; a word that is none of its place with `raced`. The last step is else done with
    /// what was found. The frame and the core are below the layout's, and stay so while the sweep goes on.
    #[tactic(auto, using(crate::proofs::SweepLemmas::took_fits))]
    pub fn take(&mut self, layout: &Layout, found: u64) -> StageEnd<Swept>
        requires { SweepFits layout.now self.old }
        ensures end { result ≡ sweep_end layout.now self.old found }
        ensures after { self.new ≡ sweep_after layout.now self.old found }
        ensures fits { result ≡ Going → SweepFits layout.now self.new }
    {
        // A machine has at most 8 cores, so that each counter finds room.
        prove!(layout.cores() <= 8);
        let at = self.at;
        self.keep(found);
        let took = self.took(layout, found);
        self.owned = owned_at(self.word.object, &at, layout, found, &self.owned);
        self.at = at_after(&at, &took.0, &took.1);
        self.end(&took.0, &took.1)
    }

    /// What it has found so far: after a refusal, the counters that are to be released again.
    pub fn kept(&self) -> Swept
        ensures { result ≡ swept_of self.now }
    {
        Swept {
            frame: self.frame,
            sum: self.kept.sum(),
            stamp: self.kept.stamp(),
            words: self.kept,
            owned: self.owned,
        }
    }
}

impl Sweep {
    // The place of the first counter that is not frozen.
    #[inline]
    #[tactic(auto, unfolding(crate::specs::Counters::counters_of))]
    fn counter_at(&self, layout: &Layout) -> u32
        requires frame { self.now.frame < layout.now.frames }
        requires counter { length self.now.kept < counters_of layout.now }
        ensures place { result ≡ place_of layout.now (CountAt self.now.frame (length self.now.kept)) }
        ensures below { result < size_of layout.now }
    {
        // A frame has no more counters than the machine has cores.
        prove!(self.kept.len() < usize::from(layout.cores()));
        layout.count_at(self.frame, CoreNo::new(self.kept.len() as u8))
    }

    // Keeps the counter that a compare has frozen.
    #[tactic(auto, using(crate::proofs::SweepLemmas::step_fits))]
    fn keep(&mut self, found: u64)
        requires { KeepFits self.old.kept self.old.at }
        ensures { self.new ≡ kept_by self.old found }
    {
        if let Some(word) = frozen_at(&self.at, found) {
            self.kept.add(word);
        }
    }

    // The refusal to which a step leads that finds this word, and where the sweep goes on; what it froze is kept.
    #[tactic(auto, unfolding(crate::specs::Counters::counters_of))]
    fn took(&self, layout: &Layout, found: u64) -> (Option<Reply>, Option<SweepAt>)
        requires frame { self.now.frame < layout.now.frames }
        requires core { self.now.core < layout.now.cores }
        requires step { TookFits layout.now self.now.at }
        ensures refused { result.0 ≡ refuses_at layout.now self.now.word.object self.now.kept self.now.at found }
        ensures next { result.1 ≡ next_at layout.now self.now.word self.now.core self.now.kept self.now.at found }
    {
        match self.at {
            SweepAt::Load => {
                let shown = CountWord::unpack(found);
                (load_refuses(&shown), load_next(&shown))
            }
            SweepAt::Compare { count, stamp } => {
                let more = self.kept.len() < usize::from(layout.cores());
                let same = found == unheld_word(count, stamp);
                (
                    compare_refuses(same, more, self.kept.sum()),
                    self.compare_next(layout, more),
                )
            }
            SweepAt::Scan(quiet) => {
                let mut quiet = quiet;
                let end = quiet.take(layout, found);
                (refusal_of(&end), scan_goes(self.word.object, &end, quiet))
            }
            SweepAt::Empty { entry } => {
                let object = self.word.object;
                (
                    empty_refuses(layout, self.frame, object, entry, found),
                    entry_next(object, entry),
                )
            }
        }
    }

    // After a counter the next one is loaded, and after the last the scan begins.
    fn compare_next(&self, layout: &Layout, more: bool) -> Option<SweepAt>
        requires { self.now.core < layout.now.cores }
        ensures { result ≡ compare_next more self.now.word.object (quiet_scan (latest_stamp self.now.kept)
            self.now.core layout.now.cores (may_be_cached self.now.word.kind self.now.word.object)) }
    {
        if more {
            return Some(SweepAt::Load);
        }
        let stamp = self.kept.stamp();
        let scan = if may_be_cached(self.word.kind, self.word.object) {
            Quiet::page(stamp, self.core, layout.cores())
        } else {
            Quiet::entry(stamp, self.core, layout.cores())
        };
        match scan {
            None => empty_next(self.word.object),
            Some(quiet) => Some(SweepAt::Scan(quiet)),
        }
    }

    // What the step leads to: without a refusal the sweep goes on where there is one more step.
    fn end(&self, refused: &Option<Reply>, next: &Option<SweepAt>) -> StageEnd<Swept>
        ensures { result ≡ end_by refused.now next.now (swept_of self.now) }
    {
        match (refused, next) {
            (Some(reply), _) => StageEnd::Refuse(*reply),
            (None, Some(_)) => StageEnd::Going,
            (None, None) => StageEnd::Done(self.kept()),
        }
    }
}

// The count word that no core holds.
#[inline]
fn unheld(count: i32, stamp: Stamp) -> CountWord
    ensures { result ≡ unheld count stamp }
{
    CountWord {
        hold: Hold::Unheld,
        count,
        stamp,
    }
}

// The counter that a step which finds this word has frozen, if it has one, as it was found.
#[inline]
fn frozen_at(at: &SweepAt, found: u64) -> Option<CountWord>
    requires { StepFits at.now }
    ensures word { result ≡ frozen_at at.now found }
    ensures range { IfSome result (λ v. NumberFits v.count) }
{
    match at {
        SweepAt::Compare { count, stamp } => {
            if found == unheld_word(*count, *stamp) {
                Some(unheld(*count, *stamp))
            } else {
                None
            }
        }
        _ => None,
    }
}

// The word of a count that no core holds.
#[inline]
fn unheld_word(count: i32, stamp: Stamp) -> u64
    requires { NumberFits count }
    ensures { result ≡ word_of_count (unheld count stamp) }
{
    unheld(count, stamp).pack()
}

// The word of a count that a core has frozen.
#[inline]
fn frozen_word(core: CoreNo, count: i32, stamp: Stamp) -> u64
    requires { NumberFits count }
    ensures { result ≡ word_of_count (frozen core count stamp) }
{
    let word = CountWord {
        hold: Hold::Closed { by: core },
        count,
        stamp,
    };
    word.pack()
}

// What is known of the frames that an object names, after a step that finds this word.
#[inline]
fn owned_at(object: Obj, at: &SweepAt, layout: &Layout, found: u64, owned: &Owned) -> Owned
    ensures { result ≡ owned_at layout.now object at.now found owned.now }
{
    match at {
        SweepAt::Empty { entry } => {
            owned_after(layout.frames(), object, entry.number(), found, *owned)
        }
        _ => *owned,
    }
}

// A counter that a core holds is busy.
#[inline]
fn load_refuses(shown: &Option<CountWord>) -> Option<Reply>
    ensures { result ≡ load_refuses shown.now }
{
    match shown {
        None => Some(Reply::Raced),
        Some(word) => hold_refuses(word.hold),
    }
}

#[inline]
fn hold_refuses(hold: Hold) -> Option<Reply>
    ensures { result ≡ hold_refuses hold }
{
    match hold {
        Hold::Unheld => None,
        Hold::Pinned { by } => Some(Reply::Busy(by)),
        Hold::Closed { by } => Some(Reply::Busy(by)),
    }
}

// After a load the counter is compared.
#[inline]
fn load_next(shown: &Option<CountWord>) -> Option<SweepAt>
    ensures { result ≡ load_next shown.now }
{
    match shown {
        None => None,
        Some(word) => Some(SweepAt::Compare {
            count: word.count,
            stamp: word.stamp,
        }),
    }
}

// A compare is lost, or the last counter is frozen and references stand.
#[inline]
fn compare_refuses(same: bool, more: bool, sum: i64) -> Option<Reply>
    ensures { result ≡ compare_refuses same more sum }
{
    if same {
        if more { None } else { sum_refuses(sum) }
    } else {
        Some(Reply::Raced)
    }
}

// A sum that is not 0, modulo 2^16, is the number of references that stand.
#[inline]
fn sum_refuses(sum: i64) -> Option<Reply>
    ensures { result ≡ sum_refuses sum }
{
    let references = residue(sum);
    if references == 0 {
        None
    } else {
        Some(Reply::Referenced(u32::from(references)))
    }
}

// After the scans the object is looked at, where it has words to look at.
#[inline]
fn empty_next(object: Obj) -> Option<SweepAt>
    ensures { result ≡ empty_next object }
{
    if loads_of(object) == 0 {
        None
    } else {
        Some(SweepAt::Empty {
            entry: EntryNo::new(0),
        })
    }
}

// After a word of the object the next one is looked at, where there is one more.
#[inline]
fn entry_next(object: Obj, entry: EntryNo) -> Option<SweepAt>
    requires { entry < 64 }
    ensures { result ≡ (if nat_lt (entry + 1) (loads_of object) then Some (SweepAt.Empty (entry + 1)) else None) }
{
    let next = entry.number() + 1;
    if next < loads_of(object) {
        Some(SweepAt::Empty {
            entry: EntryNo::new(next),
        })
    } else {
        None
    }
}

// The refusal of a scan.
#[inline]
fn refusal_of(end: &StageEnd<()>) -> Option<Reply>
    ensures { result ≡ refusal_of end.now }
{
    match end {
        StageEnd::Refuse(reply) => Some(*reply),
        _ => None,
    }
}

// Where the sweep goes on after a step of a scan.
#[inline]
fn scan_goes(object: Obj, end: &StageEnd<()>, quiet: Quiet) -> Option<SweepAt>
    ensures { result ≡ scan_goes object end.now quiet }
{
    match end {
        StageEnd::Going => Some(SweepAt::Scan(quiet)),
        StageEnd::Decided(_) => None,
        StageEnd::Done(_) => empty_next(object),
        StageEnd::Refuse(_) => None,
    }
}

// Where the sweep stands then: it stays where it is at its end.
#[inline]
fn at_after(at: &SweepAt, refused: &Option<Reply>, next: &Option<SweepAt>) -> SweepAt
    ensures { result ≡ at_after at.now refused.now next.now }
{
    match (refused, next) {
        (None, Some(next)) => *next,
        _ => *at,
    }
}
