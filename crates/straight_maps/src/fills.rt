//! The filling of a place that was found free.

ghost use Rattle.std.specs.Prelude.{◌≡◌, ◌<◌};
ghost use Rattle.straight_looks.specs.Outcomes.{ended_so};
ghost use Rattle.straight_looks.specs.step_starts.specs.act_states.specs.Acts.{filling, stamp_in};
ghost use Rattle.straight_looks.specs.step_starts.specs.call_stages.specs.Fits.{IsCore, IsOwn};
ghost use Rattle.straight_looks.specs.step_starts.specs.stage_quiet.specs.Scan.{quiet_scan};
ghost use Rattle.straight_maps.specs.Mapping.{starting};

use crate::ends::Scanned;
use crate::scans::scan;
use act_counts::act_states::call_plans::Caps;
use act_counts::act_states::stage_look::Found;
use act_counts::act_states::stage_quiet::Quiet;
use act_counts::act_states::{Act, Fill, Own};
use act_counts::stamp_in;
use call_stages::ActiveCall;
use spk_nums::{Call, Cap};
use straight_acts::fill_free;
use straight_looks::{Went, Words};

/// A place that holds nothing is filled, after the scan that it waits for: in a page table also of all flushes.
#[inline(always)]
#[tactic(auto, using(crate::proofs::Sets::filling))]
pub(crate) fn fill_place<W: Words>(
    own: &mut Own,
    active: &mut Option<ActiveCall>,
    call: &Call,
    steps: u32,
    place: &Found,
    cap: &Cap,
    page: bool,
    caps: &Caps,
    words: &mut W,
) -> Went
    requires own { IsOwn own.old }
    requires room { own.old.made < own.old.limit }
    requires few { steps < 800 }
    requires fits { IsCore (W.core words.old) }
    requires begins { W.core words.old ≡ starting own.old call.now steps
        (quiet_scan (stamp_in place.now.value) own.old.core own.old.layout.cores page) (filling cap.now place.now) caps.now }
    ensures { ended_so own.new active.old active.new (W.core words.new) (W.last words.new) result }
{
    let act = Act::Fill {
        fill: Fill {
            node: place.node,
            entry: place.entry,
            word: place.word,
            cap: *cap,
        },
    };
    let quiet = waits_for(own, place, page);
    match scan(own, active, call, steps, &quiet, &act, caps, words) {
        Scanned::Falls { found } => Went::Falls { found },
        Scanned::Stands => Went::Stands,
        Scanned::Quiet { steps } => { fill_free(own, active, call, steps, place, cap, caps, words) }
    }
}

// The scan that a place waits for.
#[inline(always)]
fn waits_for(own: &Own, place: &Found, page: bool) -> Option<Quiet>
    requires { IsOwn own.now }
    ensures { result ≡ quiet_scan (stamp_in place.now.value) own.now.core own.now.layout.cores page }
{
    let stamp = stamp_in(&place.value);
    if page {
        Quiet::page(stamp, own.core, own.layout.cores())
    } else {
        Quiet::entry(stamp, own.core, own.layout.cores())
    }
}
