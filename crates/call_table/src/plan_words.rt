//! What a plan says, in words.

use call_plans::{Decides, Names, Nth, Spot, Target, Wanted};
use spk_nums::kind_name;
use std::fmt;

/// What the names of a call are to lead to, in the order in which they are looked up.
#[derive(Clone, Copy)]
pub struct NameWords {
    pub names: Names,
}

fn wanted_word(wanted: Wanted) -> &'static str {
    match wanted {
        Wanted::Any => "any",
        Wanted::Only { kind } => kind_name(kind),
        Wanted::Root => "table or pages",
        Wanted::LeafOf { root: _ } => "its leaf",
    }
}

impl fmt::Display for NameWords {
    fn fmt<W: fmt::Write>(&self, f: &mut fmt::Formatter<W>) -> fmt::Result {
        let mut before = "";
        for at in [Nth::First, Nth::Second, Nth::Third, Nth::Fourth] {
            if let Some(name) = self.names.get(at) {
                let word = wanted_word(name.wanted);
                write!(f, "{before}{word}")?;
                before = ", ";
            }
        }
        Ok(())
    }
}

/// Where the target of a call is, and what is to be there.
pub fn target_words(target: Target) -> &'static str {
    match target {
        Target::Nowhere => "",
        Target::Free {
            spot: Spot::Under { root: _, number: _ },
        } => "a free place",
        Target::Free {
            spot: Spot::InRoot { root: _, entry: _ },
        } => "a free root entry",
        Target::Held {
            spot: Spot::Under { root: _, number: _ },
        } => "a held place",
        Target::Held {
            spot: Spot::InRoot { root: _, entry: _ },
        } => "a held root entry",
        Target::Own { page: _ } => "a page of its own",
    }
}

/// The step at which a call is decided, where it is carried out.
pub fn step_words(decides: Decides) -> &'static str {
    match decides {
        Decides::LeafEntry => "load of the leaf entry",
        Decides::Target => "compare of the target",
        Decides::Draw => "draw of the stamp",
        Decides::FrameWord => "compare of the frame's word",
        Decides::Translation =>
            "load of the root entry where the translation is cached, else of the leaf entry",
        Decides::Clock => "load of the clock",
        Decides::LiveWord => "load of the liveness number's word",
        Decides::Head => "compare of the head",
        Decides::HeadB => "compare of the second head",
        Decides::HeadBAgain => "second load of the second head",
    }
}
