//! What names lead to.

ghost use Rattle.std.specs.Prelude.{◌≡◌, ◌++◌, ◌<◌, OnOk, string_bytes, Option, Some, None};
ghost use Rattle.plain_kernel.specs.seq_state.specs.Maps.{state_of};
ghost use Rattle.plain_kernel.specs.seq_lookups.specs.Judged.{judged};
ghost use Rattle.open_calls.specs.Leads.{lead, lead_line, some_name, names_text};

use call_plans::{Name, Nth, plan_of};
use seq_lookups::{Wanted, named_for};
use seq_state::SeqKernel;
use spk_nums::{Call, Cap, CapId, CoreNo, Reply, Rights};
use std::alloc::AllocError;

// The capability to which a number leads a core, of whichever kind and with whichever rights.
fn lead(k: &SeqKernel, core: CoreNo, name: CapId) -> Result<Cap, Reply>
    requires { core < (state_of k.now).limits.cores }
    ensures { judged result ≡ lead (state_of k.now) core name }
{
    named_for(k, core, name, Wanted::Any, Rights::none())
}

// Appends the line that tells what a number leads to.
fn push_lead(text: &mut String, name: CapId, found: &Result<Cap, Reply>) -> Result<(), AllocError>
    ensures { OnOk result (string_bytes text.new ≡ string_bytes text.old ++ lead_line name (judged found.now)) }
{
    match found {
        Ok(cap) => write!(text, "{name} leads to {cap}\n"),
        Err(refusal) => write!(text, "{name} leads to nothing: {refusal}\n"),
    }
}

// Appends that of a name, if there is one.
fn push_name(
    text: &mut String,
    k: &SeqKernel,
    core: CoreNo,
    name: &Option<Name>,
) -> Result<(), AllocError>
    requires { core < (state_of k.now).limits.cores }
    ensures { OnOk result (string_bytes text.new ≡ string_bytes text.old ++ some_name (state_of k.now) core name.now) }
{
    match name {
        None => Ok(()),
        Some(name) => push_lead(text, name.number, &lead(k, core, name.number)),
    }
}

/// Appends a line for each name of a call, in their order.
pub fn push_names(
    text: &mut String,
    k: &SeqKernel,
    core: CoreNo,
    call: &Call,
) -> Result<(), AllocError>
    requires { core < (state_of k.now).limits.cores }
    ensures { OnOk result (string_bytes text.new ≡ string_bytes text.old ++ names_text (state_of k.now) core call.now) }
{
    let names = plan_of(call).names;
    push_name(text, k, core, &names.get(Nth::First))?;
    push_name(text, k, core, &names.get(Nth::Second))?;
    push_name(text, k, core, &names.get(Nth::Third))?;
    push_name(text, k, core, &names.get(Nth::Fourth))
}
