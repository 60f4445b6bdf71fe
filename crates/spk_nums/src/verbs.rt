//! The words of calls.

ghost use Rattle.std.specs.Prelude.{◌≡◌};
ghost use Rattle.spk_nums.specs.Verbs.{verb_word};

/// The word that a call begins with.
#[derive(Clone, Copy, Debug, PartialEq, Eq)]
pub enum Verb {
    Look,
    Copy,
    Remove,
    Grow,
    Shrink,
    Retype,
    Make,
    Map,
    Unmap,
    Touch,
    Flush,
    Gate,
    Kill,
    Call,
    Ret,
    Switch,
    Tick,
    Transfer,
    Delegate,
    Test,
    Part,
    Replenish,
}

/// What a `make` makes, as its line says it.
#[derive(Clone, Copy, Debug, PartialEq, Eq)]
pub enum Object {
    Table,
    Leaf,
    Pages,
    Pleaf,
    Thread,
    Tcap,
    Comp,
}

/// The word of a call as it is spelled.
pub fn verb_name(verb: Verb) -> &'static str
    ensures { result.now ≡ verb_word verb }
{
    match verb {
        Verb::Look => "look",
        Verb::Copy => "copy",
        Verb::Remove => "remove",
        Verb::Grow => "grow",
        Verb::Shrink => "shrink",
        Verb::Retype => "retype",
        Verb::Make => "make",
        Verb::Map => "map",
        Verb::Unmap => "unmap",
        Verb::Touch => "touch",
        Verb::Flush => "flush",
        Verb::Gate => "gate",
        Verb::Kill => "kill",
        Verb::Call => "call",
        Verb::Ret => "ret",
        Verb::Switch => "switch",
        Verb::Tick => "tick",
        Verb::Transfer => "transfer",
        Verb::Delegate => "delegate",
        Verb::Test => "test",
        Verb::Part => "part",
        Verb::Replenish => "replenish",
    }
}
