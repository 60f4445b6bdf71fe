//! Values told apart.

ghost use Rattle.std.specs.Prelude.{◌≡◌};
ghost use Rattle.plain_kernel.specs.kernel_rules.specs.Access.{kind_number};
ghost use Rattle.plain_kernel.specs.seq_plans.specs.Refusals.{Decides};

use spk_nums::{Cap, FrameNo, Kind, PageFlags, Value};

/// The number of a kind, in their order.
fn kind_number(kind: Kind) -> u8
    ensures { result ≡ kind_number kind }
{
    match kind {
        Kind::Range => 0,
        Kind::Table => 1,
        Kind::Leaf => 2,
        Kind::Pages => 3,
        Kind::Pleaf => 4,
        Kind::Comp => 5,
        Kind::Gate => 6,
        Kind::Thread => 7,
        Kind::Tcap => 8,
        Kind::Link => 9,
        Kind::Page => 10,
    }
}

/// Whether two capabilities are one.
fn is_cap(a: Cap, b: Cap) -> bool
    ensures { Decides result (a ≡ b) }
{
    let kinds = kind_number(a.kind()) == kind_number(b.kind());
    let frames = a.frame().number() == b.frame().number();
    let args = a.arg() == b.arg();
    let rights = a.rights().number() == b.rights().number();
    kinds & (frames & (args & rights))
}

/// Whether two pages are one.
fn is_page(frame: FrameNo, flags: PageFlags, other: FrameNo, others: PageFlags) -> bool
    ensures { result ≡ (frame == other && flags.0 == others.0) }
{
    let frames = frame.number() == other.number();
    let same = flags.number() == others.number();
    frames & same
}

/// Whether two values are one.
pub(crate) fn is_value(found: &Value, value: &Value) -> bool
    ensures { Decides result (found.now ≡ value.now) }
{
    match *found {
        Value::Nothing => matches!(*value, Value::Nothing),
        Value::Cap(cap) => match *value {
            Value::Cap(other) => is_cap(cap, other),
            _ => false,
        },
        Value::Page { frame, flags } => match *value {
            Value::Page {
                frame: other,
                flags: others,
            } => is_page(frame, flags, other, others),
            _ => false,
        },
        Value::Amount(amount) => match *value {
            Value::Amount(other) => amount == other,
            _ => false,
        },
        Value::Preempts => matches!(*value, Value::Preempts),
        Value::Stays => matches!(*value, Value::Stays),
    }
}

ghost use Rattle.std.specs.Prelude.{◌==◌, ◌&&◌};
