//! The act that drops the translations which its core has cached: a load of the clock, which decides the call.
//!
//! **The stamp.** The core has no translation from the load on, and its flush has the stamp that the load found. It is still to be
//! stored in the core's flush word. Until then another core reads there an earlier flush, and takes this core for one that has not
//! flushed.

ghost use Rattle.act_counts.specs.act_states.specs.Flushes.{flushed_to, took_flush};
ghost use Rattle.act_counts.specs.stage_quiet.specs.Flushing.{flush_move};
ghost use Rattle.act_counts.specs.stage_quiet.specs.declared.flush_mark.FlushMark.TheVariants.{AtLoad};
ghost use Rattle.act_counts.specs.word_map.specs.Moves.{op_of};
ghost use Rattle.act_counts.specs.word_map.specs.Places.{size_of};
ghost use Rattle.act_counts.specs.spk_nums.specs.WordSteps.{place_in};
ghost use Rattle.std.specs.Prelude.{◌<◌, ◌≡◌};

use act_counts::act_states::stage_quiet::FlushMark;
use act_counts::act_states::word_map::Layout;
use act_counts::act_states::{OwnChange, Refusal, Tail, WorkStep};
use act_counts::refuse;
use spk_nums::{CoreNo, Reply, Value, WordOp};

/// The load of the clock. The core is below the layout's.
#[inline]
pub fn flush_op(core: CoreNo, layout: &Layout) -> WordOp
    requires { core < layout.now.cores }
    ensures step { result ≡ op_of layout.now (flush_move (AtLoad core)) }
    ensures below { place_in result < size_of layout.now }
{
    let mark = FlushMark::new(core);
    mark.next(layout)
}

/// What a flush takes from the clock that it found: it is carried out, and has the stamp still to store. The core is below the
/// layout's.
#[inline]
pub fn flush_took(core: CoreNo, layout: &Layout, found: u64) -> WorkStep
    requires { core < layout.now.cores }
    ensures { result ≡ took_flush core found }
{
    let mut mark = FlushMark::new(core);
    let _ = mark.take(layout, found);
    flushed_to(&mark)
}

// What a flush takes from its load, after which the noting of it stands here.
#[inline]
fn flushed_to(mark: &FlushMark) -> WorkStep
    ensures { result ≡ flushed_to mark.now }
{
    match mark {
        FlushMark::AtLoad { core: _ } => refuse(Refusal::Raced),
        FlushMark::AtStore { core, stamp } => WorkStep::Changes {
            reply: Reply::Ok(Value::Nothing),
            change: OwnChange::Empties,
            drawn: None,
            tail: Tail::StoreFlush {
                core: *core,
                stamp: *stamp,
            },
        },
    }
}
