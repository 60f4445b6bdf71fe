//! The counts that an act changes, in the order in which a call acquires them.

ghost use Rattle.act_states.specs.Acts.{cap_dues, dues, invoking_dues, killing_dues, made_dues, next_work, returning_dues, starts};
ghost use Rattle.act_states.specs.Comps.{comp_due_list, comp_dues};
ghost use Rattle.act_states.specs.Switches.{switch_due_list, switching_dues, tcap_dues};
ghost use Rattle.act_states.specs.Untypings.{owned_dues, untyping_dues};
ghost use Rattle.std.specs.Prelude.{[], slice_get, ◌∷◌, ◌≡◌};

use crate::refusing::refuse;
use act_states::stage_pins::Pin;
use act_states::stage_sweep::Owned;
use act_states::stage_thread::Claimed;
use act_states::{
    Act, CompAt, CompMaking, Due, Invoking, InvokingAt, Killing, KillingAt, Making, MakingAt,
    Refusal, Returning, ReturningAt, SwitchAt, Switching, Untyping, UntypingAt, Work, WorkStep,
};
use spk_nums::{Cap, CoreNo, FrameNo, Kind};

/// What a core does for an act of whose counts it has acquired so many: it acquires the next, or goes on to the act.
#[inline]
pub fn next_work(core: CoreNo, n: u8, act: &Act) -> Work
    ensures { result ≡ next_work core n act.now }
{
    match due(act, n) {
        None => Work::Act { act: *act },
        Some(due) => Work::Acquire {
            pin: Pin::new(due.frame, core),
            change: due.change,
            act: *act,
        },
    }
}

// The count of this number that an act changes, if it changes so many.
#[inline]
fn due(act: &Act, n: u8) -> Option<Due>
    ensures { result ≡ slice_get (dues act.now) n }
{
    match act {
        Act::Fill { fill } => cap_due(&fill.cap, 1, n),
        Act::Remove { close: _, cap } => cap_due(cap, -1, n),
        Act::Make { making } => made_due(making, n),
        Act::Map { fill } => cap_due(&fill.cap, 1, n),
        Act::Kill { killing } => killing_due(killing, n),
        Act::Untype { untyping } => untyping_due(untyping, n),
        Act::MakeComp { making } => comp_due(making, n),
        Act::Invoke { invoking } => invoking_due(invoking, n),
        Act::Return { returning } => returning_due(returning, n),
        Act::Switch { switching } => switching_due(switching, n),
        _ => None,
    }
}

/// The count of this number that changes by so many where a capability is put: that of the frame that it names. A range names none.
#[inline]
pub fn cap_due(cap: &Cap, change: i32, n: u8) -> Option<Due>
    ensures { result ≡ slice_get (cap_dues cap.now change) n }
{
    if cap.kind() == Kind::Range {
        return None;
    }
    if n == 0 {
        Some(Due {
            frame: cap.frame(),
            change,
        })
    } else {
        None
    }
}

// The count of this number that a making changes.
#[inline]
fn made_due(making: &Making, n: u8) -> Option<Due>
    ensures { result ≡ slice_get (made_dues making.now.object making.now.frame making.now.at) n }
{
    match making.at {
        MakingAt::Load => None,
        MakingAt::Mark { word: _ } => None,
        MakingAt::Store { word: _, entry: _ } => making.object.due(making.frame, n),
        MakingAt::Fill { word: _ } => making.object.due(making.frame, n),
    }
}

// The count of this number that the making of a component changes.
#[inline]
fn comp_due(making: &CompMaking, n: u8) -> Option<Due>
    ensures { result ≡ slice_get (comp_dues making.now making.now.at) n }
{
    match making.at {
        CompAt::Load => None,
        CompAt::Mark { word: _ } => None,
        _ => comp_due_at(making, n),
    }
}

// The count of this number that changes where a component is made in a frame that is marked.
#[inline]
fn comp_due_at(making: &CompMaking, n: u8) -> Option<Due>
    ensures { result ≡ slice_get (comp_due_list making.now) n }
{
    if n == 0 {
        Some(Due {
            frame: making.frame,
            change: 2,
        })
    } else if n == 1 {
        Some(Due {
            frame: making.table,
            change: 1,
        })
    } else if n == 2 {
        Some(Due {
            frame: making.pages,
            change: 1,
        })
    } else {
        None
    }
}

// The count of this number that a killing changes: that of the component's frame.
#[inline]
fn killing_due(killing: &Killing, n: u8) -> Option<Due>
    ensures { result ≡ slice_get (killing_dues killing.now.comp killing.now.at) n }
{
    match killing.at {
        KillingAt::LoadComp => None,
        KillingAt::LoadLive { life: _ } => None,
        KillingAt::Close { life: _, word: _ } => one_due(killing.comp, -1, n),
        KillingAt::Draw { life: _, word: _ } => one_due(killing.comp, -1, n),
    }
}

// The count of this number that an entering changes: that of the component's frame.
#[inline]
fn invoking_due(invoking: &Invoking, n: u8) -> Option<Due>
    ensures { result ≡ slice_get (invoking_dues invoking.now.comp invoking.now.at) n }
{
    match invoking.at {
        InvokingAt::LoadTable => None,
        InvokingAt::LoadPages { table: _ } => None,
        InvokingAt::LoadComp { table: _, pages: _ } => None,
        InvokingAt::LoadLive {
            table: _,
            pages: _,
            life: _,
        } => one_due(invoking.comp, 1, n),
    }
}

// The count of this number that a leaving changes: that of the top's frame.
#[inline]
fn returning_due(returning: &Returning, n: u8) -> Option<Due>
    ensures { result ≡ slice_get (returning_dues returning.now.top returning.now.at) n }
{
    match returning.at {
        ReturningAt::LoadBelow => None,
        ReturningAt::LoadTable { comp: _ } => None,
        ReturningAt::LoadPages { comp: _, table: _ } => None,
        ReturningAt::Draw {
            comp: _,
            table: _,
            pages: _,
        } => one_due(returning.top, -1, n),
    }
}

// The count of this number where only that of one frame changes, by so many.
#[inline]
fn one_due(frame: FrameNo, change: i32, n: u8) -> Option<Due>
    ensures { result ≡ slice_get (record { frame = frame; change = change } ∷ []) n }
{
    if n == 0 {
        Some(Due { frame, change })
    } else {
        None
    }
}

// The count of this number that an untyping changes.
#[inline]
fn untyping_due(untyping: &Untyping, n: u8) -> Option<Due>
    ensures { result ≡ slice_get (untyping_dues untyping.now.at) n }
{
    match &untyping.at {
        UntypingAt::Draw { word: _, swept } => owned_due(&swept.owned, n),
        _ => None,
    }
}

// The count of this number that changes where the references are released that an object has itself.
#[inline]
fn owned_due(owned: &Owned, n: u8) -> Option<Due>
    ensures { result ≡ slice_get (owned_dues owned.now) n }
{
    match (owned.first, owned.second) {
        (None, None) => None,
        (None, Some(second)) => one_due(second, -1, n),
        (Some(first), None) => one_due(first, -1, n),
        (Some(first), Some(second)) => {
            if n == 0 {
                one_due(first, -1, 0)
            } else {
                one_due(second, -1, n - 1)
            }
        }
    }
}

// The count of this number that a switch changes.
#[inline]
fn switching_due(switching: &Switching, n: u8) -> Option<Due>
    ensures { result ≡ slice_get (switching_dues switching.now switching.now.at) n }
{
    match switching.at {
        SwitchAt::Claim { claim: _ } => None,
        SwitchAt::LoadTable { to: _ } => None,
        SwitchAt::LoadPages { to: _, table: _ } => None,
        SwitchAt::Leave {
            to,
            table: _,
            pages: _,
        } => due_to(switching, &to, n),
        SwitchAt::Draw {
            to,
            table: _,
            pages: _,
        } => due_to(switching, &to, n),
    }
}

// The count of this number that a switch to a claimed thread changes.
#[inline]
fn due_to(switching: &Switching, to: &Claimed, n: u8) -> Option<Due>
    ensures { result ≡ slice_get (switch_due_list switching.now to.now) n }
{
    if n == 0 {
        Some(Due {
            frame: to.thread,
            change: 1,
        })
    } else if n == 1 {
        Some(Due {
            frame: switching.old,
            change: -1,
        })
    } else {
        tcap_due(
            switching.tcap == switching.old_tcap,
            switching.tcap,
            switching.old_tcap,
            n - 2,
        )
    }
}

// The count of this number of two temporal capabilities, one of which is left for the other, that changes; none where they are the same.
#[inline]
fn tcap_due(same: bool, tcap: FrameNo, old: FrameNo, n: u8) -> Option<Due>
    ensures { result ≡ slice_get (tcap_dues same tcap old) n }
{
    if same {
        None
    } else if n == 0 {
        Some(Due {
            frame: tcap,
            change: 1,
        })
    } else if n == 1 {
        Some(Due {
            frame: old,
            change: -1,
        })
    } else {
        None
    }
}

/// An act starts with its first count, where it is not out of range.
#[inline]
pub fn starts(core: CoreNo, act: &Act) -> WorkStep
    ensures { result ≡ starts core act.now }
{
    match act {
        Act::Outside { .. } => refuse(Refusal::OutOfRange),
        _ => WorkStep::Goes {
            work: next_work(core, 0, act),
        },
    }
}
