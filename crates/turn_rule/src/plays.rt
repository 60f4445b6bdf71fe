//! What each atomic step tells the seat that makes it.

use crate::program::CoreProgram;
use crate::view::View;
use atomic_table::{Join, Play, Split};
use std::marker::{Brand, PhantomData};

/// The step that is due, and the call that begins with it. A step can be told nothing at run time, so its type has them,
/// for the proof alone.
pub(crate) trait Said<C> {
    ghost use Rattle.std.specs.Prelude.{Option};
    ghost use Rattle.spk_nums.specs.declared.steps.WordOp.{WordOp};

    ghost call: { Option C };

    ghost op: { WordOp };
}

impl<C> Said<C> for Brand {
    ghost use Rattle.std.specs.Prelude.{None};
    ghost use Rattle.spk_nums.specs.declared.steps.WordOp.TheVariants.{Load};

    ghost call = { None };

    ghost op = { Load 0 };
}

/// Makes the step that is due, at the place where its word lies.
pub(crate) struct Makes<P, W> {
    marker: PhantomData<(P, W)>,
}

impl<P: CoreProgram, W: Said<P::Call>> Play<(), View<P, P::Call>> for Makes<P, W> {
    ghost use Rattle.turn_rule.specs.Rule.{made};

    ghost then = { made P.steps W.call W.op };
}

/// Gives a note of what was seen.
pub(crate) struct Notes;

impl<P, C> Split<View<P, C>> for Notes {
    ghost use Rattle.turn_rule.specs.Rule.{note_of};

    ghost left = { λ v. v };

    ghost right = { note_of };
}

/// Gives the first core away.
pub(crate) struct Deals;

impl<P, C> Split<View<P, C>> for Deals {
    ghost use Rattle.turn_rule.specs.Rule.{first_core, other_cores};

    ghost left = { other_cores };

    ghost right = { first_core };
}

/// Takes in what another seat has seen.
pub(crate) struct Takes;

impl<P, C> Join<View<P, C>> for Takes {
    ghost use Rattle.turn_rule.specs.Rule.{joined, view, nothing};

    ghost both = { joined };

    ghost spent = { view nothing };
}

/// The load after a join, with which the seat has seen both traces and all so far.
pub(crate) struct CatchesUp<P> {
    marker: PhantomData<P>,
}

impl<P: CoreProgram> Play<(), View<P, P::Call>> for CatchesUp<P> {
    ghost use Rattle.turn_rule.specs.Rule.{met};

    ghost then = { met P.steps };
}

/// The load after a join, with which the seat stands for the cores of the other seat too.
pub(crate) struct Gathers<P> {
    marker: PhantomData<P>,
}

impl<P: CoreProgram> Play<(), View<P, P::Call>> for Gathers<P> {
    ghost use Rattle.turn_rule.specs.Rule.{gathered};

    ghost then = { gathered P.steps };
}

/// The load with which a seat of no core comes.
pub(crate) struct Starts<P> {
    marker: PhantomData<P>,
}

impl<P: CoreProgram> Play<(), View<P, P::Call>> for Starts<P> {
    ghost use Rattle.turn_rule.specs.Rule.{starts};

    ghost then = { starts P.steps };
}
