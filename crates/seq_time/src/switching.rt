//! Going on as another thread, with another temporal capability.

ghost use Rattle.std.specs.Prelude.{◌≡◌, ◌<◌, None, [], ◌∷◌};
ghost use Rattle.seq_lookups.specs.seq_state.specs.kernel_rules.specs.State.{thread_in};
ghost use Rattle.seq_lookups.specs.seq_state.specs.kernel_rules.specs.Edits.{Switch};
ghost use Rattle.seq_lookups.specs.seq_state.specs.kernel_rules.specs.Rules.{Found, does};
ghost use Rattle.seq_lookups.specs.spk_nums.specs.declared.replies.Value.TheVariants.{Nothing};
ghost use Rattle.seq_lookups.specs.seq_state.specs.kernel_rules.specs.CallRelation.{changed};
ghost use Rattle.seq_lookups.specs.seq_state.specs.Maps.{state_of};
ghost use Rattle.seq_lookups.specs.seq_state.specs.Representation.{Represents};

use crate::invocation::with_thread;
use seq_lookups::seq_state::{Core, Frame, SeqKernel, Thing, ThreadFields};
use seq_lookups::spk_nums::{CoreNo, FrameNo};
use seq_lookups::{begin, thread_at};

/// The frame of a thread that runs on a core, or is idle; a frame without a thread stays.
fn running(k: &SeqKernel, frame: FrameNo, core: Option<CoreNo>) -> Frame
    ensures { frame_of result ≡ run_by ((state_of k.now).frame frame) core }
{
    let thread = ThreadFields {
        runs_on: core,
        ..thread_at(k, frame)
    };
    with_thread(k.frame(frame), thread)
}

/// The core leaves its thread, which is idle, and its temporal capability, if it takes another: the grace periods of what it
/// leaves begin.
fn leave(k: &mut SeqKernel, thread: FrameNo, tcap: FrameNo, next: FrameNo)
    ensures { Represents k.new (begun (state_of k.old) (left_by thread tcap next) (state_of k.old)) }
{
    begin(k, Thing::FrameOf(thread));
    if next != tcap {
        begin(k, Thing::FrameOf(tcap));
    }
}

/// The core goes on as the idle thread `h` with the temporal capability `q`; its old thread is idle.
pub(crate) fn go_on(k: &mut SeqKernel, core: CoreNo, h: FrameNo, q: FrameNo)
    requires core { core < (state_of k.old).limits.cores }
    requires idle { (thread_in ((state_of k.old).frame h)).runs_on ≡ None }
    ensures { Represents k.new (changed (state_of k.old) (Found (does core (state_of k.old) Nothing (Switch h q ∷ [])))) }
{
    let old = *k.core(core);
    let idle = running(k, old.thread, None);
    let taken = running(k, h, Some(core));
    leave(k, old.thread, old.tcap, q);
    k.set_frame(old.thread, idle);
    k.set_frame(h, taken);
    k.set_core(
        core,
        Core {
            thread: h,
            tcap: q,
            ..old
        },
    );
}

ghost use Rattle.seq_lookups.specs.seq_state.specs.kernel_rules.specs.GracePeriods.{begun};
ghost use Rattle.seq_lookups.specs.seq_state.specs.Parts.{frame_of};
ghost use Rattle.seq_time.specs.Left.{run_by, left_by};
