//! Printed texts.

ghost use Rattle.std.specs.Prelude.{Some, decimal};
ghost use Rattle.spk_nums.specs.Texts.{cap_text, decision_text, reply_line_text};
ghost use Rattle.spk_nums.specs.Names.{kind_word, frame_kind_word};
ghost use Rattle.spk_nums.specs.Texts.{reply_text, cap_text_by, ok_text};

use crate::calls::Call;
use crate::cap::Cap;
use crate::kinds::{FrameKind, Kind};
use crate::names::{frame_kind_name, kind_name};
use crate::numbers::{CapId, CoreNo, EntryNo, FrameArg, FrameNo, PageNo, Stamp};
use crate::replies::{Decision, Reply, Value};
use std::fmt;

impl fmt::Display for CoreNo {
    ghost output = { λ n. Some (decimal n) };

    fn fmt<W: fmt::Write>(&self, f: &mut fmt::Formatter<W>) -> fmt::Result {
        let number = self.number();
        write!(f, "{number}")
    }
}

impl fmt::Display for FrameNo {
    ghost output = { λ n. Some (decimal n) };

    fn fmt<W: fmt::Write>(&self, f: &mut fmt::Formatter<W>) -> fmt::Result {
        let number = self.number();
        write!(f, "{number}")
    }
}

impl fmt::Display for CapId {
    ghost output = { λ n. Some (decimal n) };

    fn fmt<W: fmt::Write>(&self, f: &mut fmt::Formatter<W>) -> fmt::Result {
        let number = self.number();
        write!(f, "{number}")
    }
}

impl fmt::Display for PageNo {
    ghost output = { λ n. Some (decimal n) };

    fn fmt<W: fmt::Write>(&self, f: &mut fmt::Formatter<W>) -> fmt::Result {
        let number = self.number();
        write!(f, "{number}")
    }
}

impl fmt::Display for EntryNo {
    ghost output = { λ n. Some (decimal n) };

    fn fmt<W: fmt::Write>(&self, f: &mut fmt::Formatter<W>) -> fmt::Result {
        let number = self.number();
        write!(f, "{number}")
    }
}

impl fmt::Display for FrameArg {
    ghost output = { λ n. Some (decimal n) };

    fn fmt<W: fmt::Write>(&self, f: &mut fmt::Formatter<W>) -> fmt::Result {
        let number = self.number();
        write!(f, "{number}")
    }
}

impl fmt::Display for Stamp {
    ghost output = { λ n. Some (decimal n) };

    fn fmt<W: fmt::Write>(&self, f: &mut fmt::Formatter<W>) -> fmt::Result {
        let number = self.number();
        write!(f, "{number}")
    }
}

impl fmt::Display for Kind {
    ghost output = { λ k. Some (kind_word k) };

    fn fmt<W: fmt::Write>(&self, f: &mut fmt::Formatter<W>) -> fmt::Result {
        f.write_str(kind_name(*self))
    }
}

impl fmt::Display for FrameKind {
    ghost output = { λ k. Some (frame_kind_word k) };

    fn fmt<W: fmt::Write>(&self, f: &mut fmt::Formatter<W>) -> fmt::Result {
        f.write_str(frame_kind_name(*self))
    }
}

impl fmt::Display for Cap {
    ghost output = { λ c. Some (cap_text c) };

    fn fmt<W: fmt::Write>(&self, f: &mut fmt::Formatter<W>) -> fmt::Result {
        let rights = self.rights().number();
        let named = Named {
            kind: self.kind(),
            frame: self.frame(),
            arg: self.arg(),
        };
        if rights == 3 {
            write!(f, "{named}")
        } else {
            write!(f, "{named} rights {rights}")
        }
    }
}

/// What a capability names, to be printed before its rights.
#[derive(Clone, Copy)]
struct Named {
    kind: Kind,
    frame: FrameNo,
    arg: u32,
}

impl fmt::Display for Named {
    ghost output = { λ n. Some (cap_text_by n.kind n.frame n.arg) };

    fn fmt<W: fmt::Write>(&self, f: &mut fmt::Formatter<W>) -> fmt::Result {
        let frame = self.frame;
        let arg = self.arg;
        match self.kind {
            Kind::Range => write!(f, "range {frame} {arg}"),
            Kind::Gate => write!(f, "gate {frame} {arg}"),
            Kind::Page => write!(f, "page {frame} {arg}"),
            kind => {
                let name = kind_name(kind);
                write!(f, "{name} {frame}")
            }
        }
    }
}

impl fmt::Display for Reply {
    ghost output = { λ r. Some (reply_text r) };

    fn fmt<W: fmt::Write>(&self, f: &mut fmt::Formatter<W>) -> fmt::Result {
        match self {
            Reply::Ok(value) => {
                let carried = Carried { value };
                write!(f, "{carried}")
            }
            Reply::Quiescing(core) => write!(f, "quiescing {core}"),
            Reply::Unflushed(core) => write!(f, "unflushed {core}"),
            Reply::Referenced(count) => write!(f, "referenced {count}"),
            Reply::Running(core) => write!(f, "running {core}"),
            Reply::Short(budget) => write!(f, "short {budget}"),
            Reply::Busy(core) => write!(f, "busy {core}"),
            Reply::NoSlot => write!(f, "no-slot"),
            Reply::Empty => write!(f, "empty"),
            Reply::WrongCap => write!(f, "wrong-cap"),
            Reply::Occupied => write!(f, "occupied"),
            Reply::FrameKind => write!(f, "frame-kind"),
            Reply::OutOfRange => write!(f, "out-of-range"),
            Reply::NotEmpty => write!(f, "not-empty"),
            Reply::Dead => write!(f, "dead"),
            Reply::Deep => write!(f, "deep"),
            Reply::Bottom => write!(f, "bottom"),
            Reply::Unlike => write!(f, "unlike"),
            Reply::TooMany => write!(f, "too-many"),
            Reply::Same => write!(f, "same"),
            Reply::EpochsSpent => write!(f, "epochs-spent"),
            Reply::Raced => write!(f, "raced"),
            Reply::Fault => write!(f, "fault"),
            Reply::CallsSpent => write!(f, "calls-spent"),
            Reply::NoRight => write!(f, "no-right"),
        }
    }
}

/// The value of a call that was carried out, to be printed after its `ok`.
#[derive(Clone, Copy)]
struct Carried<'a> {
    value: &'a Value,
}

impl<'a> fmt::Display for Carried<'a> {
    ghost output = { λ c. Some (ok_text c.value.now) };

    fn fmt<W: fmt::Write>(&self, f: &mut fmt::Formatter<W>) -> fmt::Result {
        match self.value {
            Value::Nothing => write!(f, "ok"),
            Value::Cap(cap) => write!(f, "ok {cap}"),
            Value::Page { frame, flags } => {
                let bits = flags.number();
                write!(f, "ok {frame} {bits}")
            }
            Value::Amount(amount) => write!(f, "ok {amount}"),
            Value::Preempts => write!(f, "ok preempts"),
            Value::Stays => write!(f, "ok stays"),
        }
    }
}

impl fmt::Display for Decision {
    ghost output = { λ d. Some (decision_text d) };

    fn fmt<W: fmt::Write>(&self, f: &mut fmt::Formatter<W>) -> fmt::Result {
        let core = self.core;
        let index = self.index;
        let reply = &self.reply;
        write!(f, "{core}.{index} = {reply}")
    }
}

/// A reply line, to be printed: the core, `.`, the call's index from 1, the call, ` = `, the reply, and a line feed.
#[derive(Clone, Copy, Debug)]
pub struct ReplyLine<'a> {
    /// The core that made the call.
    pub core: CoreNo,
    /// The call's index among those of the core, from 1.
    pub index: u32,
    /// The call.
    pub call: &'a Call,
    /// Its reply.
    pub reply: &'a Reply,
}

impl<'a> fmt::Display for ReplyLine<'a> {
    ghost output = { λ l. Some (reply_line_text l.core l.index l.call.now l.reply.now) };

    fn fmt<W: fmt::Write>(&self, f: &mut fmt::Formatter<W>) -> fmt::Result {
        let core = self.core;
        let index = self.index;
        let call = self.call;
        let reply = self.reply;
        write!(f, "{core}.{index} {call} = {reply}\n")
    }
}
