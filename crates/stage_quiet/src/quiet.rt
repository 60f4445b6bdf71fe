//! The scans that a reuse waits for.
//!
//! **Quiescence.** What was removed at a stamp may still be used by each call that was in progress then. A core word
//! says whether its core is inside a call, and what the clock showed when it last left one. So a core that is out, or
//! whose last exit is later than the stamp, has entered no call before the removal that is still in progress; any other
//! core is waited for. The core that scans does not wait for itself.
//!
//! **Flushes.** A page that was removed may also stand among a core's cached translations until it flushes. A flush word
//! has the clock of the core's last flush, which must be later than the stamp. These words are scanned after those of
//! the cores, the own one too.

ghost use Rattle.std.specs.Prelude.{◌≡◌, ◌<◌, ◌≤◌, nat_lt, false, true, IfSome};
ghost use Rattle.word_map.specs.Places.{Shape, size_of};
ghost use Rattle.word_map.specs.spk_nums.specs.WordSteps.{place_in};
ghost use Rattle.word_map.specs.Moves.{op_of};
ghost use Rattle.stage_quiet.specs.Scan.{QuietFits, quiet_move, first_other, next_other, flush_scan, core_scan, quiet_scan, quiet_next};
ghost use Rattle.stage_quiet.specs.Scan.{core_refuses, flush_refuses, quiet_refuses, scan_end, quiet_end, scan_after, quiet_after};

use frame_words::{CoreWord, FlushWord};
use word_map::Layout;
use word_map::spk_nums::{CoreNo, Reply, StageEnd, Stamp, WordOp};

/// A scan for a stamp, between two of its steps.
#[derive(Clone, Copy, PartialEq, Eq, Debug)]
pub enum Quiet {
    /// Before the load of the word of core `at`, another than `core`, which scans; for a page, flush words follow.
    AtCore {
        stamp: Stamp,
        core: CoreNo,
        at: CoreNo,
        page: bool,
    },
    /// Before the load of the flush word of core `at`.
    AtFlush {
        stamp: Stamp,
        at: CoreNo,
    },
}

impl Quiet {
    /// The scan of a core for the stamp of a removed entry, on a machine of so many cores. None exactly where there is
    /// nothing to load: the stamp is 0, or the machine has one core. The core is below the number of cores,
    /// which is at most 8.
    #[inline]
    pub fn entry(stamp: Stamp, core: CoreNo, cores: u8) -> Option<Quiet>
        requires core { core < cores }
        requires cores { cores ≤ 8 }
        ensures scan { result ≡ quiet_scan stamp core cores false }
        ensures fits { (s : Shape) → s.cores ≡ cores → IfSome result (QuietFits s) }
    {
        scan(stamp, core, cores, false)
    }

    /// The scan of a core for the stamp of a removed page, on a machine of so many cores. None exactly where the stamp
    /// is 0. The core is below the number of cores, which is at most 8.
    #[inline]
    pub fn page(stamp: Stamp, core: CoreNo, cores: u8) -> Option<Quiet>
        requires core { core < cores }
        requires cores { cores ≤ 8 }
        ensures scan { result ≡ quiet_scan stamp core cores true }
        ensures fits { (s : Shape) → s.cores ≡ cores → IfSome result (QuietFits s) }
    {
        scan(stamp, core, cores, true)
    }

    /// The next step, a load. The core that is scanned is below the layout's.
    #[inline]
    pub fn next(&self, layout: &Layout) -> WordOp
        requires { QuietFits layout.now self.now }
        ensures step { result ≡ op_of layout.now (quiet_move self.now) }
        ensures below { place_in result < size_of layout.now }
    {
        let at = match *self {
            Quiet::AtCore {
                stamp: _,
                core: _,
                at,
                page: _,
            } => layout.core_at(at),
            Quiet::AtFlush { stamp: _, at } => layout.flush_at(at),
        };
        WordOp::Load { at }
    }

    /// Takes the word that the step found. It is refused with `quiescing` at the first core that is inside a call with
    /// an exit no later than the stamp, with `unflushed` at the first whose flush is no later, and with `raced` where
    /// the word is none of a core; the last step is else done. The core that is scanned is below the layout's, and stays
    /// so.
    #[inline]
    pub fn take(&mut self, layout: &Layout, found: u64) -> StageEnd<()>
        requires { QuietFits layout.now self.old }
        ensures end { result ≡ quiet_end layout.now.cores self.old found }
        ensures after { self.new ≡ quiet_after layout.now.cores self.old found }
        ensures fits { QuietFits layout.now self.new }
    {
        let refused = self.refuses(found);
        let next = self.following(layout.cores());
        *self = scan_after(*self, &refused, &next);
        scan_end(&refused, &next)
    }

    // The refusal to which a word leads, if it does to one.
    #[inline]
    fn refuses(&self, found: u64) -> Option<Reply>
        ensures { result ≡ quiet_refuses self.now found }
    {
        match *self {
            Quiet::AtCore {
                stamp,
                core: _,
                at,
                page: _,
            } => core_refuses(stamp, at, CoreWord::unpack(found)),
            Quiet::AtFlush { stamp, at } => flush_refuses(stamp, at, FlushWord::unpack(found)),
        }
    }

    // The scan after the word at which it stands, where there is one more. The cores are at most 8.
    #[inline]
    fn following(&self, cores: u8) -> Option<Quiet>
        requires { cores ≤ 8 }
        ensures { result ≡ quiet_next cores self.now }
    {
        match *self {
            Quiet::AtCore {
                stamp,
                core,
                at,
                page,
            } => core_scan(stamp, core, next_other(core, at), cores, page),
            Quiet::AtFlush { stamp, at } => {
                let next = at.number() + 1;
                if next < cores {
                    Some(Quiet::AtFlush {
                        stamp,
                        at: CoreNo::new(next),
                    })
                } else {
                    None
                }
            }
        }
    }
}

// The scan for a stamp, where one was drawn and there is a word to load.
#[inline]
fn scan(stamp: Stamp, core: CoreNo, cores: u8, page: bool) -> Option<Quiet>
    requires { cores ≤ 8 }
    ensures { result ≡ quiet_scan stamp core cores page }
{
    if stamp.number() == 0 {
        None
    } else {
        core_scan(stamp, core, first_other(core), cores, page)
    }
}

// The scan from the core numbered `at` on, where there is one.
#[inline]
fn core_scan(stamp: Stamp, core: CoreNo, at: u8, cores: u8, page: bool) -> Option<Quiet>
    requires { cores ≤ 8 }
    ensures { result ≡ core_scan (nat_lt at cores) stamp core at page }
{
    if at < cores {
        Some(Quiet::AtCore {
            stamp,
            core,
            at: CoreNo::new(at),
            page,
        })
    } else if page {
        Some(Quiet::AtFlush {
            stamp,
            at: CoreNo::new(0),
        })
    } else {
        None
    }
}

// The number of the first core but this one.
#[inline]
fn first_other(core: CoreNo) -> u8
    ensures { result ≡ first_other core }
{
    if core.number() == 0 { 1 } else { 0 }
}

// The number of the next core but this one.
#[inline]
fn next_other(core: CoreNo, at: CoreNo) -> u8
    ensures { result ≡ next_other core at }
{
    if at.number() + 1 == core.number() {
        at.number() + 2
    } else {
        at.number() + 1
    }
}

// A core that is inside a call which it entered no later than the stamp is still waited for.
#[inline]
fn core_refuses(stamp: Stamp, at: CoreNo, shown: Option<CoreWord>) -> Option<Reply>
    ensures { result ≡ core_refuses stamp at shown }
{
    match shown {
        None => Some(Reply::Raced),
        Some(word) => {
            if word.inside && word.stamp.number() <= stamp.number() {
                Some(Reply::Quiescing(at))
            } else {
                None
            }
        }
    }
}

// A core that has flushed no later than the stamp is still waited for.
#[inline]
fn flush_refuses(stamp: Stamp, at: CoreNo, shown: Option<FlushWord>) -> Option<Reply>
    ensures { result ≡ flush_refuses stamp at shown }
{
    match shown {
        None => Some(Reply::Raced),
        Some(word) => {
            if word.stamp.number() <= stamp.number() {
                Some(Reply::Unflushed(at))
            } else {
                None
            }
        }
    }
}

// Without a refusal the scan goes on where there is one more word.
#[inline]
fn scan_end(refused: &Option<Reply>, next: &Option<Quiet>) -> StageEnd<()>
    ensures { result ≡ scan_end refused.now next.now }
{
    match (refused, next) {
        (Some(reply), _) => StageEnd::Refuse(*reply),
        (None, Some(_)) => StageEnd::Going,
        (None, None) => StageEnd::Done(()),
    }
}

// Where the scan stands then: it stays where it is at its end.
#[inline]
fn scan_after(from: Quiet, refused: &Option<Reply>, next: &Option<Quiet>) -> Quiet
    ensures { result ≡ scan_after from refused.now next.now }
{
    match (refused, next) {
        (None, Some(next)) => *next,
        _ => from,
    }
}
