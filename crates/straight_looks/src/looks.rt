//! A look.

ghost use Rattle.std.specs.Prelude.{◌<◌, ◌≡◌, []};
ghost use Rattle.step_starts.specs.call_stages.specs.Fits.{IsOwn};
ghost use Rattle.step_starts.specs.call_stages.specs.declared.stages.Stage.TheVariants.{Enter};
ghost use Rattle.straight_looks.specs.Outcomes.{went_so};
ghost use Rattle.straight_looks.specs.Standing.{stands};

use crate::asks::ask;
use crate::ends::{Asked, Named, Went};
use crate::exits::exit;
use crate::names::name;
use core_words::Words;
use spk_nums::{Call, Rights, Value};
use step_lands::act_states::Own;
use step_lands::act_states::call_plans::{Caps, Name, Wanted};
use step_lands::call_stages::ActiveCall;

/// Makes a look straight through.
#[inline(always)]
#[tactic(auto, using(crate::proofs::Sets::looking))]
pub fn look<W: Words>(
    own: &mut Own,
    active: &mut Option<ActiveCall>,
    call: &Call,
    words: &mut W,
) -> Went
    requires own { IsOwn own.old }
    requires room { own.old.made < own.old.limit }
    requires begins { W.core words.old ≡ stands own.old call.now 0 Enter [] }
    ensures { went_so own.old own.new active.old active.new (W.core words.old) (W.core words.new) (W.last words.new) result }
{
    let Call::Look { a } = *call else {
        return Went::Plainly;
    };
    if 4095 < a.number() {
        return Went::Plainly;
    }
    match ask(own, active, call, words) {
        Asked::Falls { found } => Went::Falls { found },
        Asked::Lives => {
            let any = Name {
                number: a,
                wanted: Wanted::Any,
                needs: Rights::none(),
            };
            match name(own, active, call, 3, &any, &Caps::none(), words) {
                Named::Falls { found } => Went::Falls { found },
                Named::Finds { cap } => Went::Returned {
                    reply: exit(own, Value::Cap(cap), words),
                },
            }
        }
    }
}
