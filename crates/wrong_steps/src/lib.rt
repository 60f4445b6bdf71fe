//! Step functions with a bug each, and the trace that each makes: it is no history of the kernel. What refuses it is a definition of a
//! legal history, and not that the code is the step function.
//!
//! Each scene is worked step by step. A step of the wrong function makes its operation, finds what its word has, and takes from that what
//! the function says; the steps about it are those of right calls.
//!
//! See docs/PROOF.md, and `kernel_history`, whose definitions refuse.
#![tactic(auto)]

ghost use Rattle.wrong_steps.specs.Copies.{CopiesOverwrite, RetriesGoOn};
ghost use Rattle.wrong_steps.specs.Removals.{RemovalsDrawFirst};
ghost use Rattle.wrong_steps.specs.Invocations.{CallsLookBefore};
ghost use Rattle.wrong_steps.specs.Refusals.{RefusalsHold};
ghost use Rattle.wrong_steps.specs.Touches.{TouchesFindNoSlot};
ghost use Rattle.wrong_steps.specs.Untypings.{RetypesSkip};
ghost use Rattle.wrong_steps.specs.Returns.{ReturnsKeep};
ghost use Rattle.wrong_steps.specs.Charges.{ChargesLose};
ghost use Rattle.wrong_steps.specs.Clearings.{RetypesLeaveCounts};
ghost use Rattle.wrong_steps.specs.Switches.{SwitchesMixDepths};
ghost use Rattle.wrong_steps.specs.Freeings.{RemovalsFree};
ghost use Rattle.wrong_steps.specs.Credits.{TransfersKeep};
ghost use Rattle.wrong_steps.specs.Sums.{SweepsSum};
ghost use Rattle.wrong_steps.specs.Overwrites.{AcquisitionsOverwrite};
ghost use Rattle.wrong_steps.specs.Deaths.{KillsShow};
ghost use Rattle.wrong_steps.specs.Flushes.{FlushesForget};

/// A copy that stores in place of its compare: of two copies to one place both are carried out, and the second is not permitted.
#[tactic(auto, using(crate::proofs::Copies::copies_overwrite))]
pub fn copies_overwrite()
    ensures { CopiesOverwrite }
{}

/// A copy that tries a lost compare again: it goes on past its bound.
#[tactic(auto, using(crate::proofs::Copies::retries_go_on))]
pub fn retries_go_on()
    ensures { RetriesGoOn }
{}

/// A removal that draws before it closes: a look that is entered after it is carried out still finds the capability.
#[tactic(auto, using(crate::proofs::Removals::removals_draw_first))]
pub fn removals_draw_first()
    ensures { RemovalsDrawFirst }
{}

/// A call through a gate that looks at liveness only before it acquires its count: it enters a component that is dead.
#[tactic(auto, using(crate::proofs::Invocations::calls_look_before))]
pub fn calls_look_before()
    ensures { CallsLookBefore }
{}

/// A refusal that leaves a count held: both cores are out of their calls, and a count word is not given back.
#[tactic(auto, using(crate::proofs::Refusals::refusals_hold))]
pub fn refusals_hold()
    ensures { RefusalsHold }
{}

/// A touch that answers `no-slot` where no leaf is linked, in place of `fault`.
#[tactic(auto, using(crate::proofs::Touches::touches_find_no_slot))]
pub fn touches_find_no_slot()
    ensures { TouchesFindNoSlot }
{}

/// A charge whose remainder is lost: what the core has at the end is not what the state owes.
#[tactic(auto, using(crate::proofs::Charges::charges_lose))]
pub fn charges_lose()
    ensures { ChargesLose }
{}

/// A return that keeps the reference to the component that it leaves: the count words sum to one more than the references.
#[tactic(auto, using(crate::proofs::Returns::returns_keep))]
pub fn returns_keep()
    ensures { ReturnsKeep }
{}

/// A retype to untyped that skips the flush word of one core: it is carried out on a frame that this core has not flushed.
#[tactic(auto, using(crate::proofs::Untypings::retypes_skip))]
pub fn retypes_skip()
    ensures { RetypesSkip }
{}

/// A retype to untyped that leaves the counters of its frame: both cores are out of their calls, and the frame's count words are still
/// frozen.
#[tactic(auto, using(crate::proofs::Clearings::retypes_leave_counts))]
pub fn retypes_leave_counts()
    ensures { RetypesLeaveCounts }
{}

/// A switch that stores the thread that it leaves with the depth of the one with which it goes on: the thread's word says another depth
/// than its stack has.
#[tactic(auto, using(crate::proofs::Switches::switches_mix_depths))]
pub fn switches_mix_depths()
    ensures { SwitchesMixDepths }
{}

/// A removal that leaves its place free at once: the place is filled while a core may still use what stood there.
#[tactic(auto, using(crate::proofs::Freeings::removals_free))]
pub fn removals_free()
    ensures { RemovalsFree }
{}

/// A transfer that gives its ticks before it takes them, and keeps the credit where the compare that would take them is lost: the words
/// have more ticks than the state.
#[tactic(auto, using(crate::proofs::Credits::transfers_keep))]
pub fn transfers_keep()
    ensures { TransfersKeep }
{}

/// A sweep that adds up count words without freezing them: while it goes through them, one core copies a capability and another removes the
/// one that was copied, and the sum that is found is 0.
#[tactic(auto, using(crate::proofs::Sums::sweeps_sum))]
pub fn sweeps_sum()
    ensures { SweepsSum }
{}

/// An acquisition that stores in place of its compare: the count that a sweep has frozen is changed, and the change is lost.
#[tactic(auto, using(crate::proofs::Overwrites::acquisitions_overwrite))]
pub fn acquisitions_overwrite()
    ensures { AcquisitionsOverwrite }
{}

/// A kill that puts the dead number in place of its mark, before its stamp is drawn: a call is refused with `dead` while the component
/// lives.
#[tactic(auto, using(crate::proofs::Deaths::kills_show))]
pub fn kills_show()
    ensures { KillsShow }
{}

/// A flush that stores no stamp: a call still waits for the core, which has flushed.
#[tactic(auto, using(crate::proofs::Flushes::flushes_forget))]
pub fn flushes_forget()
    ensures { FlushesForget }
{}
