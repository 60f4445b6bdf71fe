//! Marks, lines that say them, and what is found of lines.

use kernel_rules::spk_nums::{Call, CoreNo, Reply};

/// A mark of a call.
#[derive(Clone, Copy, PartialEq, Eq, Debug)]
pub enum Mark {
    /// The core enters a call.
    Enter { core: CoreNo, call: Call },
    /// The core's call is decided with this reply.
    Decide { core: CoreNo, reply: Reply },
    /// The core returns from its call.
    Return { core: CoreNo },
}

/// What a line says: one mark, or the three of a call made whole, with the call's number among those of its core, from 1.
#[derive(Clone, Copy, PartialEq, Eq, Debug)]
pub enum Said {
    One(Mark),
    Whole {
        core: CoreNo,
        index: u64,
        call: Call,
        reply: Reply,
    },
}

/// A line of a history: its number in the text, from 1, and what it says.
#[derive(Clone, Copy, PartialEq, Eq, Debug)]
pub struct Line {
    pub number: u32,
    pub said: Said,
}

/// Why no history goes on with a line.
#[derive(Clone, Copy, PartialEq, Eq, Debug)]
pub enum Why {
    /// The core's marks do not go enter, decide, return, or the call's number is not the core's next.
    Marks,
    /// `raced` or `busy` without another core in a call.
    Race,
    /// The call relation does not permit the reply.
    Reply,
}

/// What is found of lines.
#[derive(Clone, Copy, PartialEq, Eq, Debug)]
pub enum Verdict {
    /// They are a history, and decide so many calls.
    Legal { decided: u32 },
    /// This is the first line that no history goes on with, and why.
    Illegal { line: u32, why: Why },
}
