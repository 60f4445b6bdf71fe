//! What a core has of its own, beside its call, and what a decision changes of it.

ghost use Rattle.std.specs.Prelude.{◌≡◌};
ghost use Rattle.call_plans.specs.kernel_invariant.specs.kernel_rules.specs.Edits.{caching};
ghost use Rattle.act_states.specs.OwnChanges.{own_changed};

use spk_nums::{CoreNo, FrameNo, Stamp, Translation, Translations};
use word_map::Layout;

/// What a core has of its own: where it works, and what it has counted. The step machine of a call reads it; a decision and a
/// return change it.
#[derive(Clone, Copy, PartialEq, Eq, Debug)]
pub struct Own {
    /// The core's number.
    pub core: CoreNo,
    /// The machine's layout.
    pub layout: Layout,
    /// The root of the table of its component.
    pub table: FrameNo,
    /// The most calls that it may make.
    pub limit: u64,
    /// The most epochs that a liveness number has.
    pub epochs: u16,
    /// The calls that it has made, those answered `calls-spent` excepted.
    pub made: u64,
    /// The clock that its last exit loaded.
    pub exit: Stamp,
    /// Its current thread.
    pub thread: FrameNo,
    /// The depth of that thread's stack.
    pub depth: u8,
    /// The component on top of that stack.
    pub comp: FrameNo,
    /// The root of the pages of its component.
    pub pages: FrameNo,
    /// Its current temporal capability.
    pub tcap: FrameNo,
    /// The ticks that it owes.
    pub owed: u64,
    /// The ticks that it has spent.
    pub spent: u64,
    /// The ticks of these that it has had back.
    pub back: u64,
    /// The scheduler and the number with which time was granted to it at boot.
    pub grant: (u8, u32),
    /// The translations that it has cached. They stand last, so that what every step reads lies together.
    pub cached: Translations,
}

/// What a decision changes of what its core has of its own, beside the calls that it has made.
#[derive(Clone, Copy, PartialEq, Eq, Debug)]
pub enum OwnChange {
    /// So many ticks were charged, which are spent, and so many are owed.
    Ticks {
        charged: u32,
        owed: u64,
    },
    /// So many of the ticks that were spent were given back.
    GivesBack {
        ticks: u32,
    },
    /// It works in this component, with this table and these pages, at this depth of its thread's stack.
    Works {
        comp: FrameNo,
        table: FrameNo,
        pages: FrameNo,
        depth: u8,
    },
    /// Its cached translations were dropped.
    Empties,
    /// It runs this thread at this depth of its stack, in this component with this table and these pages, with this temporal capability.
    Switches {
        thread: FrameNo,
        depth: u8,
        comp: FrameNo,
        table: FrameNo,
        pages: FrameNo,
        tcap: FrameNo,
    },
    /// This translation was found, and is cached where there is room.
    Caches {
        item: Translation,
    },
}

impl Own {
    /// Makes the change of a decision.
    #[inline]
    pub fn change(&mut self, change: &OwnChange)
        ensures { self.new ≡ own_changed self.old change.now }
    {
        match change {
            OwnChange::Ticks { charged, owed } => {
                self.spent = self.spent.saturating_add(u64::from(*charged));
                self.owed = *owed;
            }
            OwnChange::GivesBack { ticks } => {
                self.back = self.back.saturating_add(u64::from(*ticks));
            }
            OwnChange::Empties => self.cached = Translations::empty(),
            OwnChange::Works {
                comp,
                table,
                pages,
                depth,
            } => {
                self.comp = *comp;
                self.table = *table;
                self.pages = *pages;
                self.depth = *depth;
            }
            OwnChange::Switches {
                thread,
                depth,
                comp,
                table,
                pages,
                tcap,
            } => {
                self.thread = *thread;
                self.depth = *depth;
                self.comp = *comp;
                self.table = *table;
                self.pages = *pages;
                self.tcap = *tcap;
            }
            OwnChange::Caches { item } => cache(&mut self.cached, *item),
        }
    }
}

// The translations with one more, where there is room: they are 64 at most.
#[inline]
fn cache(cached: &mut Translations, item: Translation)
    ensures { cached.new ≡ caching cached.old item }
{
    let _added = cached.add(item);
}
