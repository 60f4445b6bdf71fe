//! What a seat knows, and the rule of the shared words. No value of these types is made but a `Boot`.

use crate::program::CoreProgram;
use crate::spread::Spread;
use atomic_table::TableRule;
use std::collections::LinkedList;
use std::marker::PhantomData;
use std::snapshot::Snapshot;

/// One atomic step of a core: the word at the place `at` was `found` and `left`. The first step of a call has the call.
pub struct Entry<C> {
    pub core: usize,
    pub at: u32,
    pub found: u64,
    pub left: u64,
    pub call: Option<C>,
}

/// The words and the cores' programs as they were at the start.
pub struct Start<P> {
    pub words: LinkedList<u64>,
    pub programs: LinkedList<P>,
}

/// The cores from `from` below `to`, and a beginning of the trace that has all their steps.
pub(crate) struct Part<P, C> {
    /// False once the part was joined into another view.
    pub(crate) live: bool,
    pub(crate) start: Start<P>,
    pub(crate) from: usize,
    pub(crate) to: usize,
    pub(crate) seen: LinkedList<Entry<C>>,
}

/// What a seat knows.
pub(crate) struct View<P, C> {
    pub(crate) own: Part<P, C>,
    /// What was joined in, until the next load.
    pub(crate) told: Part<P, C>,
}

/// The words and the programs with which a table is made, and how the words lie.
#[derive(Drop)]
pub(crate) struct Boot<P> {
    pub(crate) words: Snapshot<Vec<u64>>,
    pub(crate) programs: Snapshot<Vec<P>>,
    pub(crate) spread: Spread,
}

pub(crate) struct OneTrace<P> {
    program: PhantomData<P>,
}

impl<P: CoreProgram> TableRule<(), View<P, P::Call>, Boot<P>> for OneTrace<P> {
    ghost use Rattle.std.specs.Prelude.{[], length};
    ghost use Rattle.turn_rule.specs.Rule.{Kept, start_of, part, view};

    ghost holds = { λ key. Kept P.steps key.spread (start_of key.words.value.items key.programs.value.items) };

    ghost first = { λ key. let start = start_of key.words.value.items key.programs.value.items in
        view (part start 0 (length start.programs) []) };
}
