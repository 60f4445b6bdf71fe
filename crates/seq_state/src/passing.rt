//! The clock, and what a core does by it: it enters a call, returns from it, and flushes.

ghost use Rattle.std.specs.Prelude.{◌≡◌, ◌<◌, ◌≤◌, ◌-◌, ◌^◌, ℕ};
ghost use Rattle.kernel_invariant.specs.kernel_rules.specs.GracePeriods.{entered, returned, flushed};
ghost use Rattle.seq_state.specs.Times.{times_at};
ghost use Rattle.seq_state.specs.Maps.{state_of, LimitsFit};
ghost use Rattle.seq_state.specs.Representation.{Represents};
ghost use Rattle.seq_state.specs.Passing.{AreBefore};

use crate::kernel::SeqKernel;
use crate::maps::write_at;
use crate::parts::Core;
use crate::times::{all_ranked, enters, flushes, rank_below, returns};
use kernel_invariant::spk_nums::{CoreNo, Translations};

impl SeqKernel {
    /// The clock goes on, to a time after all that the cores have done.
    pub(crate) fn tick(&mut self) -> u32
        ensures same { Represents self.new (state_of self.old) }
        ensures later { (core : ℕ) → core < 8 → AreBefore result (times_at self.new.times core) }
        ensures now { result ≡ self.new.clock }
        ensures limits { LimitsFit (state_of self.old).limits }
    {
        self.make_room();
        self.clock += 1;
        self.clock
    }

    /// The clock can go on: at its end all times are counted anew.
    fn make_room(&mut self)
        ensures same { Represents self.new (state_of self.old) }
        ensures room { self.new.clock < 2 ^ 32 - 1 }
        ensures limits { LimitsFit (state_of self.old).limits }
    {
        if self.clock == u32::MAX {
            self.count_anew();
        }
    }

    /// Each time becomes its rank among what the cores did last: what lay before another still does, and the clock stands at
    /// the number of their times.
    fn count_anew(&mut self)
        ensures same { Represents self.new (state_of self.old) }
        ensures room { self.new.clock ≤ 32 }
    {
        let old = self.times;
        rank_below(&mut self.place_graces, 64 * self.frame_count, &old);
        rank_below(&mut self.frame_graces, self.frame_count, &old);
        rank_below(&mut self.number_graces, 64, &old);
        self.times = all_ranked(&old);
        self.clock = 32;
    }

    /// The core enters a call. No grace period changes.
    pub fn enter(&mut self, core: CoreNo)
        requires { core < (state_of self.old).limits.cores }
        ensures { Represents self.new (entered (state_of self.old) core) }
    {
        let value = *self.core(core);
        let at = usize::from(core.number());
        self.times[at] = enters(self.times[at], value.inside, self.clock);
        write_at(
            &mut self.cores,
            u16::from(core.number()),
            Core {
                inside: true,
                ..value
            },
        );
    }

    /// The core returns from its call, and passes the grace periods that began before it entered that.
    pub fn leave(&mut self, core: CoreNo)
        requires { core < (state_of self.old).limits.cores }
        ensures { Represents self.new (returned (state_of self.old) core) }
    {
        let value = *self.core(core);
        let at = usize::from(core.number());
        self.times[at] = returns(self.times[at], value.inside, self.clock);
        write_at(
            &mut self.cores,
            u16::from(core.number()),
            Core {
                inside: false,
                ..value
            },
        );
    }

    /// The core flushes: it has no translation, and no grace period waits for its flush.
    pub fn flush(&mut self, core: CoreNo)
        requires { core < (state_of self.old).limits.cores }
        ensures { Represents self.new (flushed (state_of self.old) core) }
    {
        let value = *self.core(core);
        let at = usize::from(core.number());
        self.times[at] = flushes(self.times[at], self.clock);
        write_at(
            &mut self.cores,
            u16::from(core.number()),
            Core {
                cached: Translations::empty(),
                ..value
            },
        );
    }
}
