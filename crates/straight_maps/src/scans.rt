//! The scan that a place waits for which is quiescing.

ghost use Rattle.std.specs.Prelude.{◌≡◌, ◌<◌, true};
ghost use Rattle.straight_looks.specs.step_starts.specs.act_states.specs.Acts.{phases_of};
ghost use Rattle.straight_looks.specs.step_starts.specs.call_stages.specs.Fits.{IsCore};
ghost use Rattle.straight_maps.specs.Mapping.{scanning, starting};
ghost use Rattle.straight_maps.specs.Outcomes.{scanned_so, scanning_so};

use crate::ends::{Scanned, Scanning};
use crate::rests::rest_scanning;
use act_counts::act_states::call_plans::Caps;
use act_counts::act_states::stage_quiet::Quiet;
use act_counts::act_states::{Act, Own};
use call_stages::ActiveCall;
use spk_nums::{Call, StageEnd};
use straight_looks::Words;

/// A call scans before its act, where it waits for a scan.
#[inline(always)]
#[tactic(auto, using(crate::proofs::Sets::scanning))]
pub(crate) fn scan<W: Words>(
    own: &Own,
    active: &mut Option<ActiveCall>,
    call: &Call,
    steps: u32,
    quiet: &Option<Quiet>,
    act: &Act,
    caps: &Caps,
    words: &mut W,
) -> Scanned
    requires few { steps < 800 }
    requires within { (phases_of act.now).within ≡ true }
    requires fits { IsCore (W.core words.old) }
    requires begins { W.core words.old ≡ starting own.now call.now steps quiet.now act.now caps.now }
    ensures { scanned_so own.now call.now caps.now act.now active.old active.new (W.core words.new) (W.last words.new) result }
{
    match quiet {
        None => Scanned::Quiet { steps },
        Some(quiet) => scan_all(own, active, call, steps, quiet, act, caps, words),
    }
}

// A call scans, word after word.
#[inline(always)]
#[tactic(auto, using(crate::proofs::Sets::scanning_all))]
fn scan_all<W: Words>(
    own: &Own,
    active: &mut Option<ActiveCall>,
    call: &Call,
    steps: u32,
    quiet: &Quiet,
    act: &Act,
    caps: &Caps,
    words: &mut W,
) -> Scanned
    requires few { steps < 800 }
    requires within { (phases_of act.now).within ≡ true }
    requires fits { IsCore (W.core words.old) }
    requires stands { W.core words.old ≡ scanning own.now call.now steps quiet.now act.now caps.now }
    ensures { scanned_so own.now call.now caps.now act.now active.old active.new (W.core words.new) (W.last words.new) result }
{
    let mut at = *quiet;
    let mut made = steps;
    let mut left: u8 = 16;
    'scanning: while 0 < left {
        left -= 1;
        match scan_next(own, active, call, made, &at, act, caps, words) {
            Scanning::Goes { quiet: next } => {
                at = next;
                made += 1;
            }
            Scanning::Ends => return Scanned::Quiet { steps: made + 1 },
            Scanning::Falls { found } => return Scanned::Falls { found },
        }
    }
    rest_scanning(active, call, made, &at, act, caps);
    Scanned::Stands
}

// The next word of a scan is loaded.
#[inline(always)]
#[tactic(auto, using(crate::proofs::Sets::scanning_next))]
fn scan_next<W: Words>(
    own: &Own,
    active: &mut Option<ActiveCall>,
    call: &Call,
    steps: u32,
    quiet: &Quiet,
    act: &Act,
    caps: &Caps,
    words: &mut W,
) -> Scanning
    requires few { steps < 900 }
    requires within { (phases_of act.now).within ≡ true }
    requires fits { IsCore (W.core words.old) }
    requires stands { W.core words.old ≡ scanning own.now call.now steps quiet.now act.now caps.now }
    ensures { scanning_so own.now call.now steps caps.now act.now active.old active.new (W.core words.new) (W.last words.new) result }
{
    let mut next = *quiet;
    let found = words.make(next.next(&own.layout));
    match next.take(&own.layout, found) {
        StageEnd::Going => Scanning::Goes { quiet: next },
        StageEnd::Done(()) => Scanning::Ends,
        _ => {
            rest_scanning(active, call, steps, quiet, act, caps);
            Scanning::Falls { found }
        }
    }
}
