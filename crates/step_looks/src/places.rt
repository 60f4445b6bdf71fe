//! What comes next of a call: the place that it looks up, or its act.

ghost use Rattle.std.specs.Prelude.{Some, [], nat_le, ◌<◌, ◌≡◌, ◌≤◌};
ghost use Rattle.step_starts.specs.act_states.specs.Acts.{looked as answered, reads_of};
ghost use Rattle.step_starts.specs.act_states.specs.Lookups.{looks_at, looks_entry, looks_under, read_first};
ghost use Rattle.step_starts.specs.act_states.specs.Touches.{touches};
ghost use Rattle.step_starts.specs.act_states.specs.declared.work.Work.TheVariants.{Lookup, Read};
ghost use Rattle.step_starts.specs.act_states.specs.declared.work.WorkStep.TheVariants.{Goes};
ghost use Rattle.step_starts.specs.call_plans.specs.After.{with_found};
ghost use Rattle.step_starts.specs.call_plans.specs.GoesBy.{place_of_spot};
ghost use Rattle.step_starts.specs.call_plans.specs.Plans.{at_place};
ghost use Rattle.step_starts.specs.call_plans.specs.declared.plans.Nth.TheVariants.{First};
ghost use Rattle.step_starts.specs.call_stages.specs.Steps.{call_after, landed, next_by, told};

use crate::next::next_of;
use begin_acts::{begin_touch, frame_of, reads_of};
use spk_nums::{Call, CapId, EntryNo, FrameNo, PageNo, Reply, Value};
use step_lands::act_states::call_plans::{Next, Nth, Spot};
use step_lands::act_states::stage_look::Look;
use step_lands::act_states::{Own, Refusal, Tail, Work};
use step_lands::call_stages::{ActiveCall, Stage, Told};
use step_lands::{decide, go_on, land, refused};
use step_starts::act_begins;

/// What comes next of the call: a look-up, or its act.
#[inline]
pub fn look_next(active: &mut ActiveCall, own: &Own, tells: &mut Told)
    requires core { own.now.core < own.now.layout.cores }
    requires cores { own.now.layout.cores ≤ 8 }
    requires few { active.old.steps < 1000 }
    requires going { tells.old ≡ Told.Going }
    ensures told { tells.new ≡ told (landed active.old (next_by own.now active.old)) }
    ensures after { active.new ≡ call_after active.old (landed active.old (next_by own.now active.old)) }
{
    match next_of(&active.call, &active.found) {
        Next::Name { name } => look_under(active, own.table, name.number.number(), tells),
        Next::Free { spot } => look_free(active, spot, tells),
        Next::Held { spot } => look_at(active, spot, tells),
        Next::Own { page } => touch(active, own, page, tells),
        Next::Nothing => match &active.call {
            Call::Look { a: _ } => look_answers(active, tells),
            _ => act_begins(active, own, tells),
        },
    }
}

// The place of a target that is to be free is looked up, after the load of a component's word where the call reads one.
#[inline]
fn look_free(active: &mut ActiveCall, spot: Spot, tells: &mut Told)
    requires few { active.old.steps < 1000 }
    requires going { tells.old ≡ Told.Going }
    ensures told { tells.new ≡ told (landed active.old
        (read_first (reads_of active.old.call active.old.found) (looks_at (place_of_spot (with_found [] active.old.found) spot)))) }
    ensures after { active.new ≡ call_after active.old (landed active.old
        (read_first (reads_of active.old.call active.old.found) (looks_at (place_of_spot (with_found [] active.old.found) spot)))) }
{
    match reads_of(&active.call, &active.found) {
        None => look_at(active, spot, tells),
        Some(comp) => read_at(active, comp, spot, tells),
    }
}

// A component's word is loaded before the place of a target is looked up.
#[inline(never)]
fn read_at(active: &mut ActiveCall, comp: FrameNo, spot: Spot, tells: &mut Told)
    requires few { active.old.steps < 1000 }
    requires going { tells.old ≡ Told.Going }
    ensures told { tells.new
        ≡ told (landed active.old (read_first (Some comp) (looks_at (place_of_spot (with_found [] active.old.found) spot)))) }
    ensures after { active.new
        ≡ call_after active.old (landed active.old (read_first (Some comp) (looks_at (place_of_spot (with_found [] active.old.found) spot)))) }
{
    match spot {
        Spot::Under { root, number } => {
            let root = frame_of(&active.found, root);
            if number <= 4095 {
                reads_first(active, comp, Look::place(root, CapId::new(number)))
            } else {
                refused(active, Refusal::NoSlot, tells)
            }
        }
        Spot::InRoot { root, entry } => {
            let root = frame_of(&active.found, root);
            if entry.number() <= 63 {
                reads_first(active, comp, Look::root(root, entry))
            } else {
                refused(active, Refusal::NoSlot, tells)
            }
        }
    }
}

// The word of this component is loaded before this look-up.
#[inline]
fn reads_first(active: &mut ActiveCall, comp: FrameNo, look: Look)
    requires { active.old.steps < 1000 }
    ensures { active.new ≡ call_after active.old (landed active.old (Goes (Read comp look))) }
{
    go_on(
        active,
        Stage::Undecided {
            work: Work::Read { comp, look },
        },
    );
}

// A look answers what its name has led to.
#[inline]
fn look_answers(active: &mut ActiveCall, tells: &mut Told)
    requires few { active.old.steps < 1000 }
    requires going { tells.old ≡ Told.Going }
    ensures told { tells.new ≡ told (landed active.old (answered (at_place active.old.found First))) }
    ensures after { active.new ≡ call_after active.old (landed active.old (answered (at_place active.old.found First))) }
{
    match active.found.get(Nth::First) {
        Some(cap) => decide(
            active,
            &Reply::Ok(Value::Cap(cap)),
            None,
            &Tail::Nothing,
            tells,
        ),
        None => refused(active, Refusal::Raced, tells),
    }
}

// A page of the core's own pages is touched.
#[inline(never)]
fn touch(active: &mut ActiveCall, own: &Own, page: PageNo, tells: &mut Told)
    requires few { active.old.steps < 1000 }
    requires going { tells.old ≡ Told.Going }
    ensures told { tells.new ≡ told (landed active.old (touches own.now page)) }
    ensures after { active.new ≡ call_after active.old (landed active.old (touches own.now page)) }
{
    let step = begin_touch(own, page);
    land(active, &step, tells)
}

// A number of the table with this root is looked up.
#[inline]
fn look_under(active: &mut ActiveCall, root: FrameNo, number: u16, tells: &mut Told)
    requires few { active.old.steps < 1000 }
    requires going { tells.old ≡ Told.Going }
    ensures told { tells.new ≡ told (landed active.old (looks_under (nat_le number 4095) root number)) }
    ensures after { active.new ≡ call_after active.old (landed active.old (looks_under (nat_le number 4095) root number)) }
{
    if number <= 4095 {
        looks_up(active, Look::place(root, CapId::new(number)))
    } else {
        refused(active, Refusal::NoSlot, tells)
    }
}

// An entry of this root is looked up.
#[inline]
fn look_entry(active: &mut ActiveCall, root: FrameNo, entry: EntryNo, tells: &mut Told)
    requires few { active.old.steps < 1000 }
    requires going { tells.old ≡ Told.Going }
    ensures told { tells.new ≡ told (landed active.old (looks_entry (nat_le entry 63) root entry)) }
    ensures after { active.new ≡ call_after active.old (landed active.old (looks_entry (nat_le entry 63) root entry)) }
{
    if entry.number() <= 63 {
        looks_up(active, Look::root(root, entry))
    } else {
        refused(active, Refusal::NoSlot, tells)
    }
}

// The place of a target is looked up.
#[inline]
fn look_at(active: &mut ActiveCall, spot: Spot, tells: &mut Told)
    requires few { active.old.steps < 1000 }
    requires going { tells.old ≡ Told.Going }
    ensures told { tells.new ≡ told (landed active.old (looks_at (place_of_spot (with_found [] active.old.found) spot))) }
    ensures after { active.new
        ≡ call_after active.old (landed active.old (looks_at (place_of_spot (with_found [] active.old.found) spot))) }
{
    match spot {
        Spot::Under { root, number } => {
            let root = frame_of(&active.found, root);
            look_under(active, root, number, tells)
        }
        Spot::InRoot { root, entry } => {
            let root = frame_of(&active.found, root);
            look_entry(active, root, entry, tells)
        }
    }
}

/// A look-up stands here.
#[inline]
pub(crate) fn looks_up(active: &mut ActiveCall, look: Look)
    requires { active.old.steps < 1000 }
    ensures { active.new ≡ call_after active.old (landed active.old (Goes (Lookup look))) }
{
    go_on(
        active,
        Stage::Undecided {
            work: Work::Lookup { look },
        },
    );
}
