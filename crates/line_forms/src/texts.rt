//! What may stand at a place, as it is told.

ghost use Rattle.std.specs.Prelude.{◌≡◌, Some};
ghost use Rattle.line_forms.specs.Texts.{script_words, history_words, sched_words, end_word, more_words, begin_words, third_words};
ghost use Rattle.line_forms.specs.Texts.{late_words, due_text};

use crate::context::{Context, Reading, Stage};
use crate::slots::Slot;
use std::fmt;

// The words with which a line of a script may begin, and those of a given history after its head.
fn script_words(stage: Stage) -> &'static str
    ensures { result.now ≡ script_words stage }
{
    match stage {
        Stage::Version => "speck",
        Stage::Cores => "cores",
        Stage::Frames => "frames",
        Stage::Grants => "grant",
        Stage::Calls => "calls epochs core order",
        Stage::Epochs => "epochs core order",
        Stage::Lists => "core order",
        Stage::List => {
            "core order look copy remove grow shrink retype make map unmap touch flush gate kill call ret switch tick transfer delegate test"
        }
        Stage::Order => "",
        Stage::Asks => "core",
        Stage::AskList => "core send recv",
        Stage::Tasks => "task",
        Stage::Marks => "enter decide return C.I",
    }
}

// The words with which a line of a given history may begin.
fn history_words(stage: Stage) -> &'static str
    ensures { result.now ≡ history_words stage }
{
    match stage {
        Stage::Calls => "calls epochs enter decide return C.I",
        Stage::Epochs => "epochs enter decide return C.I",
        Stage::Lists => "enter decide return C.I",
        stage => script_words(stage),
    }
}

// The words with which a line may begin of what `sched` reads, where no call charges ticks.
fn sched_words(stage: Stage) -> &'static str
    ensures { result.now ≡ sched_words stage }
{
    match stage {
        Stage::List => {
            "core order look copy remove grow shrink retype make map unmap touch flush gate kill call ret switch transfer delegate test"
        }
        stage => script_words(stage),
    }
}

// The words with which a line may begin.
fn begin_words(reading: Reading, stage: Stage) -> &'static str
    ensures { result.now ≡ begin_words reading stage }
{
    match reading {
        Reading::History => history_words(stage),
        Reading::Sched => sched_words(stage),
        _ => script_words(stage),
    }
}

// The word that ends the script before it.
fn end_word(reading: Reading) -> &'static str
    ensures { result.now ≡ end_word reading }
{
    match reading {
        Reading::Ends => " ends",
        Reading::Sched => " sched",
        _ => "",
    }
}

// Where the script may end, also that word.
fn more_words(reading: Reading, stage: Stage) -> &'static str
    ensures { result.now ≡ more_words reading stage }
{
    match stage {
        Stage::Calls | Stage::Epochs | Stage::Lists | Stage::List | Stage::Order => {
            end_word(reading)
        }
        _ => "",
    }
}

// After the words of calls, those that there are from version 3 on.
fn third_words(version: u8) -> &'static str
    ensures { result.now ≡ third_words version }
{
    if 3 <= version { " part replenish" } else { "" }
}

// They stand after the words with which a line of a list may begin.
fn late_words(version: u8, stage: Stage) -> &'static str
    ensures { result.now ≡ late_words version stage }
{
    match stage {
        Stage::List => third_words(version),
        _ => "",
    }
}

/// What may stand at a place of a text of this version, to be told.
#[derive(Clone, Copy, Debug)]
pub struct Due {
    pub version: u8,
    pub reading: Reading,
    pub stage: Stage,
    pub slot: Slot,
}

impl fmt::Display for Due {
    ghost output = { λ d. Some (due_text d.version d.reading d.stage d.slot) };

    fn fmt<W: fmt::Write>(&self, f: &mut fmt::Formatter<W>) -> fmt::Result {
        match self.slot {
            Slot::First => {
                let words = begin_words(self.reading, self.stage);
                let late = late_words(self.version, self.stage);
                let more = more_words(self.reading, self.stage);
                write!(f, "{words}{late}{more}")
            }
            Slot::Number { least, most } => write!(f, "a number from {least} to {most}"),
            Slot::MayNumber { least, most } => {
                write!(f, "nothing more, or a number from {least} to {most}")
            }
            Slot::Core { cores } => write!(f, "a core, a number below {cores}"),
            Slot::FrameKind => write!(f, "untyped user kernel"),
            Slot::Object => write!(f, "table leaf pages pleaf thread tcap comp"),
            Slot::Verb => {
                let third = third_words(self.version);
                write!(
                    f,
                    "look copy remove grow shrink retype make map unmap touch flush gate kill call ret switch tick transfer delegate test{third}"
                )
            }
            Slot::Item { cores } => write!(
                f,
                "a number below {cores}, alone or with < ! or . right after it"
            ),
            Slot::ReplyName => write!(
                f,
                "ok no-slot empty wrong-cap occupied quiescing unflushed frame-kind out-of-range referenced not-empty dead deep bottom running short unlike too-many same epochs-spent raced busy fault calls-spent no-right"
            ),
            Slot::Value => write!(
                f,
                "nothing more, a number, range table leaf pages pleaf comp gate thread tcap link page preempts stays"
            ),
            Slot::Rights => write!(f, "nothing more, or rights and a number from 0 to 2"),
            Slot::Equals => write!(f, "= and a reply"),
            Slot::End => write!(f, "nothing more"),
        }
    }
}
