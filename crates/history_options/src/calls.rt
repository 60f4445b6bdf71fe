//! What is told of the call that a line would decide.

ghost use Rattle.std.specs.Prelude.{◌≡◌, ◌<◌, ◌+◌, ◌^◌, ◌++◌, length, reverse, IfOk, OnOk, string_bytes};
ghost use Rattle.marked_history.specs.Verdicts.{AreHistory, LinesFit, marks_of};
ghost use Rattle.check_run.specs.history_check.specs.Judging.{HasCome};
ghost use Rattle.history_options.specs.Forms.{lines_at, marks_at, CanDecide};
ghost use Rattle.history_options.specs.Advice.{in_text, is_ok, first_words, first_text, found_text, AddsCallAdvice};

use crate::forms::Form;
use crate::options::push_options;
use crate::replies::replies_of;
use check_run::history_check::{Judge, come_to};
use marked_history::{Line, Mark, Said};
use open_calls::{Outlook, outlook_at};
use spk_nums::{Call, CoreNo, Make, Memory, Reply, Setup, Value};
use std::alloc::{AllocError, Global};

// The lines after which the core is in its call: these, and its entry too where the line makes the call whole.
fn lines_at(
    alloc: Global,
    before: &[Line],
    core: CoreNo,
    call: &Call,
    form: &Form,
) -> Result<Vec<Line>, AllocError>
    ensures { IfOk result (λ v. v.items ≡ lines_at before.now core call.now form.now) }
{
    let _made: Option<Make> = None;
    let _value: Option<Value> = None;
    let mut lines = Vec::new(alloc);
    lines.extend_from_slice(before)?;
    match *form {
        Form::Decided => {}
        Form::Whole { index: _ } => lines.push(Line {
            number: 0,
            said: Said::One(Mark::Enter { core, call: *call }),
        })?,
    }
    Ok(lines)
}

// The judge there.
#[tactic(auto, using(crate::proofs::Places::fit_at, crate::proofs::Places::few_at))]
fn judge_at(
    alloc: Global,
    setup: &Setup,
    before: &[Line],
    core: CoreNo,
    call: &Call,
    form: &Form,
) -> Result<Judge, Memory>
    requires few { length before.now + 1 < 2 ^ 32 }
    requires fit { LinesFit setup.now.cores before.now }
    requires history { AreHistory setup.now (reverse before.now) }
    requires decides { CanDecide setup.now.cores (marks_of (reverse before.now)) core call.now form.now }
    ensures { IfOk result (HasCome setup.now (marks_at (marks_of (reverse before.now)) core call.now form.now)) }
{
    let lines = lines_at(alloc, before, core, call, form)?;
    let judge = come_to(alloc, setup, &lines)?;
    Ok(judge)
}

// Appends which call it is.
fn push_call(text: &mut String, core: CoreNo, call: &Call) -> Result<(), AllocError>
    ensures { OnOk result (string_bytes text.new ≡ string_bytes text.old ++ in_text core call.now) }
{
    write!(text, "core {core} is in {call}\n")
}

// Whether a reply is no refusal.
fn is_ok(reply: &Reply) -> bool
    ensures { result ≡ is_ok reply.now }
{
    matches!(*reply, Reply::Ok(_))
}

// What is said before the first reply in order.
fn first_words(ok: bool) -> &'static str
    ensures { result.now ≡ first_words ok }
{
    if ok {
        "no cause of refusal stands: "
    } else {
        "the first cause of refusal: "
    }
}

// Appends the first cause of refusal that stands, or that none does.
fn push_first(text: &mut String, alone: &Reply) -> Result<(), AllocError>
    ensures { OnOk result (string_bytes text.new ≡ string_bytes text.old ++ first_text alone.now) }
{
    text.push_str(first_words(is_ok(alone)))?;
    write!(text, "{alone}\n")
}

// Appends what is found of the call, before the lines that may stand there.
fn push_outlook(
    text: &mut String,
    core: CoreNo,
    call: &Call,
    found: &Outlook,
) -> Result<(), AllocError>
    ensures { OnOk result (string_bytes text.new ≡ string_bytes text.old ++ found_text core call.now found.now) }
{
    push_call(text, core, call)?;
    text.push_str(found.names.as_str())?;
    push_first(text, &found.alone)?;
    text.push_str("here may stand:\n")?;
    Ok(())
}

/// Appends what is told of the call that a reply in the place of a line would decide, the line of this number after these.
#[tactic(auto, using(crate::proofs::Places::core_there, crate::proofs::Places::most_cores))]
pub fn push_call_advice(
    alloc: Global,
    text: &mut String,
    setup: &Setup,
    before: &[Line],
    number: u32,
    core: CoreNo,
    call: &Call,
    form: &Form,
) -> Result<(), Memory>
    requires few { length before.now + 1 < 2 ^ 32 }
    requires fit { LinesFit setup.now.cores before.now }
    requires history { AreHistory setup.now (reverse before.now) }
    requires decides { CanDecide setup.now.cores (marks_of (reverse before.now)) core call.now form.now }
    ensures { OnOk result (AddsCallAdvice setup.now before.now number core call.now form.now (string_bytes text.old) (string_bytes text.new)) }
{
    let cores = setup.cores();
    let mut judge = judge_at(alloc, setup, before, core, call, form)?;
    let found = outlook_at(alloc, &mut judge.kernel, core, call)?;
    push_outlook(text, core, call, &found)?;
    let replies = replies_of(alloc, cores, &found.alone, &found.told)?;
    push_options(
        alloc, text, setup, before, number, core, call, form, &replies,
    )?;
    Ok(())
}
