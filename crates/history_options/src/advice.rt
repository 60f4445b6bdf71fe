//! What may stand in the place of a line.

ghost use Rattle.std.specs.Prelude.{◌≡◌, ◌<◌, ◌+◌, ◌^◌, ◌++◌, length, reverse, IfOk, OnOk, string_bytes};
ghost use Rattle.marked_history.specs.Verdicts.{AreHistory, LinesFit, SaidFits, marks_of};
ghost use Rattle.history_options.specs.Forms.{core_of, DecidesAt};
ghost use Rattle.history_options.specs.Advice.{out_text, done_text, place_after, AddsAdvice};

use crate::calls::push_call_advice;
use crate::forms::{Place, core_of, place_of};
use check_run::history_check::{Seen, come_to};
use marked_history::{Line, Mark, Said};
use spk_nums::{Call, CoreNo, Make, Memory, Reply, Setup, Value};
use std::alloc::{AllocError, Global};

// Appends what may stand where the core is in no call: this is the number of its next one.
fn push_out(text: &mut String, core: CoreNo, next: u64) -> Result<(), AllocError>
    ensures { OnOk result (string_bytes text.new ≡ string_bytes text.old ++ out_text core next) }
{
    write!(
        text,
        "core {core} is in no call\nhere may stand:\n  enter {core} CALL\n  {core}.{next} CALL = REPLY\n"
    )
}

// Appends what may stand where the core's call is decided.
fn push_done(text: &mut String, core: CoreNo) -> Result<(), AllocError>
    ensures { OnOk result (string_bytes text.new ≡ string_bytes text.old ++ done_text core) }
{
    write!(
        text,
        "core {core} is in a call that is decided\nhere may stand:\n  return {core}\n"
    )
}

// Where a line stands after these, which are a history.
fn place_here(alloc: Global, setup: &Setup, before: &[Line], line: &Line) -> Result<Place, Memory>
    requires few { length before.now + 1 < 2 ^ 32 }
    requires fit { LinesFit setup.now.cores before.now }
    requires said { SaidFits setup.now.cores line.now.said }
    requires history { AreHistory setup.now (reverse before.now) }
    ensures place { IfOk result (λ p. p ≡ place_after before.now line.now) }
    ensures decides { IfOk result (DecidesAt setup.now.cores (marks_of (reverse before.now)) (core_of line.now.said)) }
{
    let _made: Option<Make> = None;
    let _value: Option<Value> = None;
    // The check asks for the limits of the setup where they are read.
    let _limits = setup.cores();
    let core = core_of(&line.said);
    let judge = come_to(alloc, setup, before)?;
    let Seen { at, entered } = judge.seen[usize::from(core.number())];
    let next = entered.saturating_add(1);
    Ok(place_of(&line.said, &at, next))
}

/// Appends what may stand in the place of a line after these, which are a history.
#[tactic(auto, using(crate::proofs::Places::decides_now, crate::proofs::Places::out_so, crate::proofs::Places::done_so, crate::proofs::Places::during_so))]
pub fn push_advice(
    alloc: Global,
    text: &mut String,
    setup: &Setup,
    before: &[Line],
    line: &Line,
) -> Result<(), Memory>
    requires few { length before.now + 1 < 2 ^ 32 }
    requires fit { LinesFit setup.now.cores before.now }
    requires said { SaidFits setup.now.cores line.now.said }
    requires history { AreHistory setup.now (reverse before.now) }
    ensures { OnOk result (AddsAdvice setup.now before.now line.now (string_bytes text.old) (string_bytes text.new)) }
{
    let _made: Option<Make> = None;
    let _value: Option<Value> = None;
    let core = core_of(&line.said);
    let place = place_here(alloc, setup, before, line)?;
    match place {
        Place::Without { next } => {
            push_out(text, core, next)?;
            Ok(())
        }
        Place::Done => {
            push_done(text, core)?;
            Ok(())
        }
        Place::During { call, form } => {
            push_call_advice(alloc, text, setup, before, line.number, core, &call, &form)?;
            Ok(())
        }
    }
}
