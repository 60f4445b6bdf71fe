//! Noting that a core has flushed.
//!
//! The core loads the clock and drops its cached translations; the load decides the flush. Then it stores its flush word
//! with the clock that was loaded. So no translation that it still has was cached before the stamp of its flush word.

ghost use Rattle.std.specs.Prelude.{◌≡◌, ◌<◌};
ghost use Rattle.frame_words.specs.Flush.{word_of_flush};
ghost use Rattle.word_map.specs.Places.{size_of};
ghost use Rattle.word_map.specs.spk_nums.specs.WordSteps.{place_in};
ghost use Rattle.word_map.specs.Moves.{op_of};
ghost use Rattle.stage_quiet.specs.Clocks.{stamp_of_clock};
ghost use Rattle.stage_quiet.specs.Flushing.{FlushMarkFits, flush_move, flush_end, flush_after};

use frame_words::FlushWord;
use word_map::Layout;
use word_map::spk_nums::{CoreNo, Reply, StageEnd, Stamp, Value, WordOp};

/// The noting of a flush, between two of its steps.
#[derive(Clone, Copy, PartialEq, Eq, Debug)]
pub enum FlushMark {
    /// Before the load of the clock.
    AtLoad { core: CoreNo },
    /// Before the store of the flush word with this stamp.
    AtStore { core: CoreNo, stamp: Stamp },
}

impl FlushMark {
    /// The noting that a core has flushed.
    #[inline]
    pub fn new(core: CoreNo) -> FlushMark
        ensures { result ≡ FlushMark.AtLoad core }
    {
        FlushMark::AtLoad { core }
    }

    /// The next step: the load of the clock, then the store of the flush word. The core is below the layout's.
    #[inline]
    pub fn next(&self, layout: &Layout) -> WordOp
        requires { FlushMarkFits layout.now self.now }
        ensures step { result ≡ op_of layout.now (flush_move self.now) }
        ensures below { place_in result < size_of layout.now }
    {
        match *self {
            FlushMark::AtLoad { core: _ } => WordOp::Load {
                at: layout.clock_at(),
            },
            FlushMark::AtStore { core, stamp } => WordOp::Store {
                at: layout.flush_at(core),
                word: FlushWord { stamp }.pack(),
            },
        }
    }

    /// Takes the word that the step found: the load decides the flush, and the store is done. The core is below the
    /// layout's, and stays so.
    #[inline]
    pub fn take(&mut self, layout: &Layout, found: u64) -> StageEnd<()>
        requires { FlushMarkFits layout.now self.old }
        ensures end { result ≡ flush_end self.old }
        ensures after { self.new ≡ flush_after self.old found }
        ensures fits { FlushMarkFits layout.now self.new }
    {
        let end = self.end();
        *self = self.after(found);
        end
    }

    // What the step leads to.
    #[inline]
    fn end(&self) -> StageEnd<()>
        ensures { result ≡ flush_end self.now }
    {
        match *self {
            FlushMark::AtLoad { core: _ } => StageEnd::Decided(Reply::Ok(Value::Nothing)),
            FlushMark::AtStore { core: _, stamp: _ } => StageEnd::Done(()),
        }
    }

    // Where it stands after a step that finds this word.
    #[inline]
    fn after(&self, found: u64) -> FlushMark
        ensures { result ≡ flush_after self.now found }
    {
        match *self {
            FlushMark::AtLoad { core } => FlushMark::AtStore {
                core,
                stamp: stamp_of(found),
            },
            FlushMark::AtStore { core: _, stamp: _ } => *self,
        }
    }
}

// The stamp of a clock.
#[inline]
fn stamp_of(clock: u64) -> Stamp
    ensures { result ≡ stamp_of_clock clock }
{
    if clock < 1 << 43 {
        Stamp::new(clock)
    } else {
        Stamp::new((1 << 43) - 1)
    }
}
