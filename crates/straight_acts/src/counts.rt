//! The acquiring of a count.

ghost use Rattle.std.specs.Prelude.{◌≡◌, ◌<◌, IfSome};
ghost use Rattle.straight_acts.specs.Acting.{IsUnheld, pins};
ghost use Rattle.straight_acts.specs.Counting.{acquired_so};
ghost use Rattle.straight_looks.specs.step_starts.specs.call_stages.specs.Fits.{IsCore};
ghost use Rattle.straight_looks.specs.step_starts.specs.stage_pins.specs.declared.pin.Pin.TheVariants.{AtLoad};

use crate::rests::rest_acquiring;
use act_counts::act_states::call_plans::Caps;
use act_counts::act_states::frame_words::{CountWord, Hold};
use act_counts::act_states::stage_pins::{Acquired, Pin, Pinned};
use act_counts::act_states::{Act, Own};
use call_stages::ActiveCall;
use spk_nums::{Call, FrameNo};
use straight_looks::Words;

/// How the acquiring of a count ended.
#[derive(Clone, Copy)]
pub enum Acquiring {
    /// The count is acquired.
    Holds { count: Acquired },
    /// The call stands where it was left, and the step made there has told this word.
    Falls { found: u64 },
}

/// Acquires the count of a frame for an act, the first that the act changes, by so many.
#[inline(always)]
#[tactic(auto, using(crate::proofs::Sets::acquiring))]
pub fn acquire<W: Words>(
    own: &Own,
    active: &mut Option<ActiveCall>,
    call: &Call,
    steps: u32,
    frame: FrameNo,
    change: i32,
    act: &Act,
    caps: &Caps,
    words: &mut W,
) -> Acquiring
    requires few { steps < 1000 }
    requires fits { IsCore (W.core words.old) }
    requires stands { W.core words.old ≡ pins own.now call.now steps (AtLoad frame own.now.core) change act.now caps.now }
    ensures { acquired_so own.now call.now steps caps.now act.now active.old active.new (W.core words.new) (W.last words.new) result }
{
    let core = own.core;
    let pin = Pin::new(frame, core);
    let found = words.make(pin.next(&own.layout));
    match unheld(found) {
        None => {
            rest_acquiring(active, call, steps, pin, change, act, caps);
            Acquiring::Falls { found }
        }
        Some(word) => {
            let pin = Pin::AtCompare {
                frame,
                core,
                count: word.count,
                stamp: word.stamp,
            };
            let again = words.make(pin.next(&own.layout));
            if again == found {
                let pin = Pinned { frame, core, word };
                Acquiring::Holds {
                    count: Acquired { pin, change },
                }
            } else {
                rest_acquiring(active, call, steps + 1, pin, change, act, caps);
                Acquiring::Falls { found: again }
            }
        }
    }
}

// The count word that no core holds, where the word is that of one.
#[inline(always)]
fn unheld(found: u64) -> Option<CountWord>
    ensures { IfSome result (λ v. IsUnheld found v) }
{
    match CountWord::unpack(found) {
        Some(word) => match word.hold {
            Hold::Unheld => Some(word),
            _ => None,
        },
        None => None,
    }
}
