//! Where a line stands, and how a reply is written in its place.

ghost use Rattle.std.specs.Prelude.{◌≡◌};
ghost use Rattle.check_run.specs.history_check.specs.declared.seen.At.TheVariants.{Out};
ghost use Rattle.history_options.specs.Forms.{core_of, place_of, with_form};

use check_run::history_check::At;
use marked_history::{Mark, Said};
use spk_nums::{Call, CoreNo, Make, Reply, Value};

/// How a reply is written in the place of a line.
#[derive(Clone, Copy, Debug)]
pub enum Form {
    /// As the decision of the core's open call.
    Decided,
    /// In the line of a call made whole, with the number of the core's next call.
    Whole { index: u64 },
}

/// What a reply in the place of a line would decide.
#[derive(Clone, Copy, Debug)]
pub enum Place {
    /// Nothing: the core is in no call, and the line makes none. Its next call has this number.
    Without { next: u64 },
    /// Nothing: the core's call is decided.
    Done,
    /// This call, so written.
    During { call: Call, form: Form },
}

/// The core of a line.
pub fn core_of(said: &Said) -> CoreNo
    ensures { result ≡ core_of said.now }
{
    match *said {
        Said::One(Mark::Enter { core, call: _ }) => core,
        Said::One(Mark::Decide { core, reply: _ }) => core,
        Said::One(Mark::Return { core }) => core,
        Said::Whole {
            core,
            index: _,
            call: _,
            reply: _,
        } => core,
    }
}

// Where a line stands whose core is in no call, and whose next call has this number.
fn place_out(said: &Said, next: u64) -> Place
    ensures { result ≡ place_of said.now Out next }
{
    match *said {
        Said::One(_) => Place::Without { next },
        Said::Whole {
            core: _,
            index: _,
            call,
            reply: _,
        } => Place::During {
            call,
            form: Form::Whole { index: next },
        },
    }
}

/// Where a line stands, by where its core is, and the number of that core's next call.
pub fn place_of(said: &Said, at: &At, next: u64) -> Place
    ensures { result ≡ place_of said.now at.now next }
{
    match *at {
        At::Out => place_out(said, next),
        At::Open(call) => Place::During {
            call,
            form: Form::Decided,
        },
        At::Decided => Place::Done,
    }
}

/// The line with a reply to a call of a core.
pub fn with_form(core: CoreNo, call: &Call, form: &Form, reply: &Reply) -> Said
    ensures { result ≡ with_form core call.now form.now reply.now }
{
    let _made: Option<Make> = None;
    let _value: Option<Value> = None;
    match *form {
        Form::Decided => Said::One(Mark::Decide {
            core,
            reply: *reply,
        }),
        Form::Whole { index } => Said::Whole {
            core,
            index,
            call: *call,
            reply: *reply,
        },
    }
}
