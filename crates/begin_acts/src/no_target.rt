//! Acts of calls that look no place up: where each begins, or is refused by what the core knows itself.

ghost use Rattle.act_counts.specs.act_states.specs.Acts.{invokes_at, invokes_if, invokes_in, kills_at, kills_in, returns_at, returns_if};
ghost use Rattle.act_counts.specs.act_states.specs.Acts.{switches_at, types_at, types_if, typing_to};
ghost use Rattle.act_counts.specs.act_states.specs.Flushes.{flushes};
ghost use Rattle.act_counts.specs.act_states.specs.Refills.{left_back, refills_at};
ghost use Rattle.act_counts.specs.act_states.specs.Shares.{shares_at, shares_if};
ghost use Rattle.act_counts.specs.act_states.specs.Ticks.{charges};
ghost use Rattle.act_counts.specs.kernel_rules.specs.Access.{found as named_by_cap};
ghost use Rattle.act_counts.specs.kernel_rules.specs.CapabilityCalls.{has_frame};
ghost use Rattle.std.specs.Prelude.{nat_lt, ◌&&◌, ◌==◌, ◌≡◌};

use crate::targets::has_frame;
use act_counts::act_states::stage_tcap::{Charge, Pair, PairWork, Refill};
use act_counts::act_states::stage_thread::Claim;
use act_counts::act_states::{
    Act, Invoking, InvokingAt, Killing, KillingAt, Own, Refusal, Returning, ReturningAt, SwitchAt,
    Switching, Typing, TypingAt, Untyping, UntypingAt, Work, WorkStep,
};
use act_counts::refuse;
use spk_nums::{Cap, CoreNo, FrameArg, FrameKind, FrameNo, Kind};

/// A frame of this range is typed.
#[inline]
pub(crate) fn types_at(own: &Own, range: &Option<Cap>, frame: FrameArg, kind: FrameKind) -> WorkStep
    ensures { result ≡ types_at own.now range.now frame kind }
{
    match range {
        None => refuse(Refusal::Raced),
        Some(range) => types_in(own, range, frame, kind),
    }
}

// A frame is typed where it is in the range, which has none past the machine's.
#[inline]
fn types_in(own: &Own, range: &Cap, frame: FrameArg, kind: FrameKind) -> WorkStep
    ensures { result ≡ types_if (has_frame (named_by_cap range.now) frame && nat_lt frame own.now.layout.frames) own.now.core frame kind }
{
    if has_frame(range, frame) && frame.number() < own.layout.frames() {
        WorkStep::Goes {
            work: Work::Act {
                act: typing_to(own.core, FrameNo::new(frame.number()), kind),
            },
        }
    } else {
        refuse(Refusal::OutOfRange)
    }
}

// The act that makes a frame one of this kind.
#[inline]
fn typing_to(core: CoreNo, frame: FrameNo, kind: FrameKind) -> Act
    ensures { result ≡ typing_to core frame kind }
{
    match kind {
        FrameKind::Untyped => Act::Untype {
            untyping: Untyping {
                frame,
                core,
                at: UntypingAt::Load,
            },
        },
        _ => Act::Retype {
            typing: Typing {
                frame,
                kind,
                at: TypingAt::Load,
            },
        },
    }
}

/// The component to which a name has led is killed.
#[inline]
pub(crate) fn kills_at(own: &Own, comp: &Option<Cap>) -> WorkStep
    ensures { result ≡ kills_at own.now comp.now }
{
    match comp {
        None => refuse(Refusal::Raced),
        Some(comp) => kills_in(own.core, comp.kind(), comp.frame()),
    }
}

// The component in a frame is killed; a capability of another kind names none.
#[inline]
fn kills_in(core: CoreNo, kind: Kind, comp: FrameNo) -> WorkStep
    ensures { result ≡ kills_in core kind comp }
{
    match kind {
        Kind::Comp => WorkStep::Goes {
            work: Work::Act {
                act: Act::Kill {
                    killing: Killing {
                        comp,
                        core,
                        at: KillingAt::LoadComp,
                    },
                },
            },
        },
        _ => refuse(Refusal::Raced),
    }
}

/// The translations of a core are dropped.
#[inline]
pub(crate) fn flushes(core: CoreNo) -> WorkStep
    ensures { result ≡ flushes core }
{
    WorkStep::Goes {
        work: Work::Act {
            act: Act::Flush { core },
        },
    }
}

/// So many ticks, and those that the core owes, are charged to the core's temporal capability.
#[inline]
pub(crate) fn charges(own: &Own, ticks: u32) -> WorkStep
    ensures { result ≡ charges own.now ticks }
{
    let due = own.owed.saturating_add(u64::from(ticks));
    WorkStep::Goes {
        work: Work::Act {
            act: Act::Tick {
                charge: Charge::new(own.tcap, due),
            },
        },
    }
}

/// So many ticks are given back to the temporal capability to which a name has led.
#[inline]
pub(crate) fn refills_at(own: &Own, ticks: u32, tcap: &Option<Cap>) -> WorkStep
    ensures { result ≡ refills_at own.now ticks tcap.now }
{
    match tcap {
        None => refuse(Refusal::Raced),
        Some(tcap) => WorkStep::Goes {
            work: Work::Act {
                act: Act::Refill {
                    refill: Refill::new(tcap.frame(), ticks, left_back(own), own.grant),
                },
            },
        },
    }
}

// The ticks that the core has spent and has not had back.
#[inline]
fn left_back(own: &Own) -> u32
    ensures { result ≡ left_back own.now }
{
    let left = own.spent.saturating_sub(own.back);
    if left < 4_294_967_295 {
        left as u32
    } else {
        4_294_967_295
    }
}

/// A component is entered, to which a gate leads that a name has led to. The stack is full at depth 16.
#[inline]
pub(crate) fn invokes_at(own: &Own, gate: &Option<Cap>) -> WorkStep
    ensures { result ≡ invokes_at own.now gate.now }
{
    match gate {
        None => refuse(Refusal::Raced),
        Some(gate) => invokes_in(own, gate.kind(), gate.frame(), gate.arg()),
    }
}

// The component in a frame is entered by a gate that was made in this epoch; a capability of another kind is no gate.
#[inline]
fn invokes_in(own: &Own, kind: Kind, comp: FrameNo, epoch: u32) -> WorkStep
    ensures { result ≡ invokes_in own.now kind comp epoch }
{
    match kind {
        Kind::Gate => invokes_if(16 <= own.depth, own, comp, epoch),
        _ => refuse(Refusal::Raced),
    }
}

// The component is entered, unless the stack is full.
#[inline]
fn invokes_if(deep: bool, own: &Own, comp: FrameNo, epoch: u32) -> WorkStep
    ensures { result ≡ invokes_if deep own.now comp epoch }
{
    if deep {
        refuse(Refusal::Deep)
    } else {
        WorkStep::Goes {
            work: Work::Act {
                act: Act::Invoke {
                    invoking: Invoking {
                        comp,
                        epoch,
                        thread: own.thread,
                        depth: own.depth,
                        core: own.core,
                        frames: own.layout.frames(),
                        at: InvokingAt::LoadTable,
                    },
                },
            },
        }
    }
}

/// The core's component is left, where it is not the bottom of the stack.
#[inline]
pub(crate) fn returns_at(own: &Own) -> WorkStep
    ensures { result ≡ returns_at own.now }
{
    returns_if(own.depth <= 1, own)
}

// The component is left, unless it is at the bottom.
#[inline]
fn returns_if(bottom: bool, own: &Own) -> WorkStep
    ensures { result ≡ returns_if bottom own.now }
{
    if bottom {
        refuse(Refusal::Bottom)
    } else {
        WorkStep::Goes {
            work: Work::Act {
                act: Act::Return {
                    returning: Returning {
                        top: own.comp,
                        thread: own.thread,
                        depth: own.depth,
                        core: own.core,
                        frames: own.layout.frames(),
                        at: ReturningAt::LoadBelow,
                    },
                },
            },
        }
    }
}

/// A core switches to the thread and the temporal capability to which its names have led.
#[inline]
pub(crate) fn switches_at(own: &Own, thread: &Option<Cap>, tcap: &Option<Cap>) -> WorkStep
    ensures { result ≡ switches_at own.now thread.now tcap.now }
{
    match (thread, tcap) {
        (Some(thread), Some(tcap)) => WorkStep::Goes {
            work: Work::Act {
                act: Act::Switch {
                    switching: Switching {
                        core: own.core,
                        frames: own.layout.frames(),
                        tcap: tcap.frame(),
                        old: own.thread,
                        old_depth: own.depth,
                        old_tcap: own.tcap,
                        at: SwitchAt::Claim {
                            claim: Claim::new(thread.frame(), own.core),
                        },
                    },
                },
            },
        },
        _ => refuse(Refusal::Raced),
    }
}

/// A core's call on the two temporal capabilities to which its names have led begins, where they differ.
#[inline]
pub(crate) fn shares_at(core: CoreNo, what: PairWork, a: &Option<Cap>, b: &Option<Cap>) -> WorkStep
    ensures { result ≡ shares_at core what a.now b.now }
{
    match (a, b) {
        (Some(a), Some(b)) => shares_in(core, what, a.frame(), b.frame()),
        _ => refuse(Refusal::Raced),
    }
}

// The call begins, unless both are one.
#[inline]
fn shares_in(core: CoreNo, what: PairWork, a: FrameNo, b: FrameNo) -> WorkStep
    ensures { result ≡ shares_if (a == b) core what a b }
{
    if a == b {
        refuse(Refusal::Same)
    } else {
        WorkStep::Goes {
            work: Work::Act {
                act: Act::Share {
                    pair: Pair::new(a, b, what, core),
                },
            },
        }
    }
}
