//! The lines that may stand in the place of one.

ghost use Rattle.std.specs.Prelude.{◌≡◌, ◌<◌, ◌+◌, ◌^◌, ◌++◌, ◌∷◌, [], length, IfOk, OnOk, string_bytes};
ghost use Rattle.marked_history.specs.Verdicts.{LinesFit, SaidFits};
ghost use Rattle.spk_nums.specs.CallLimits.{InLimits};
ghost use Rattle.history_options.specs.Options.{is_legal, GoesOn, option_of, AreOptions, AddsOptions};

use crate::forms::{Form, with_form};
use crate::texts::push_said;
use check_run::history_check::verdict;
use marked_history::{Line, Mark, Said, Verdict};
use spk_nums::{Call, CoreNo, Make, Memory, Reply, Setup, Value};
use std::alloc::{AllocError, Global};

fn is_legal(verdict: Verdict) -> bool
    ensures { result ≡ is_legal verdict }
{
    match verdict {
        Verdict::Legal { decided: _ } => true,
        Verdict::Illegal { line: _, why: _ } => false,
    }
}

// These lines with one more.
fn lines_with(alloc: Global, before: &[Line], line: &Line) -> Result<Vec<Line>, AllocError>
    ensures { IfOk result (λ v. v.items ≡ before.now ++ line.now ∷ []) }
{
    let mut lines = Vec::new(alloc);
    lines.extend_from_slice(before)?;
    lines.push(*line)?;
    Ok(lines)
}

// Whether a history goes on after these lines with a line of this number that says this.
#[tactic(auto, using(crate::proofs::Places::fit_more, crate::proofs::Places::few_more))]
fn goes_on(
    alloc: Global,
    setup: &Setup,
    before: &[Line],
    number: u32,
    said: &Said,
) -> Result<bool, Memory>
    requires few { length before.now + 1 < 2 ^ 32 }
    requires fit { LinesFit setup.now.cores before.now }
    requires said { SaidFits setup.now.cores said.now }
    ensures { IfOk result (GoesOn setup.now before.now number said.now) }
{
    let _made: Option<Make> = None;
    let _value: Option<Value> = None;
    let lines = lines_with(
        alloc,
        before,
        &Line {
            number,
            said: *said,
        },
    )?;
    let found = verdict(alloc, setup, &lines)?;
    Ok(is_legal(found))
}

// Appends a line that may stand there.
fn push_option(text: &mut String, goes: bool, said: &Said) -> Result<(), AllocError>
    ensures { OnOk result (string_bytes text.new ≡ string_bytes text.old ++ option_of goes said.now) }
{
    if goes { push_said(text, said) } else { Ok(()) }
}

/// Appends, of the lines with these replies, each with which a history goes on after these lines.
pub fn push_options(
    alloc: Global,
    text: &mut String,
    setup: &Setup,
    before: &[Line],
    number: u32,
    core: CoreNo,
    call: &Call,
    form: &Form,
    replies: &[Reply],
) -> Result<(), Memory>
    requires few { length before.now + 1 < 2 ^ 32 }
    requires fit { LinesFit setup.now.cores before.now }
    requires core { core < setup.now.cores }
    requires call { InLimits call.now }
    ensures { OnOk result (AddsOptions setup.now before.now number core call.now form.now replies.now
        (string_bytes text.old) (string_bytes text.new)) }
{
    'replies: for reply in replies {
        let said = with_form(core, call, form, reply);
        let goes = goes_on(alloc, setup, before, number, &said)?;
        push_option(text, goes, &said)?;
    }
    Ok(())
}
