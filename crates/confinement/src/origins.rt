//! The origins of capabilities while a run goes on.

ghost use Rattle.std.specs.Prelude.{◌≡◌, ◌≤◌, nat_lt, IfOk, OnOk, OnErr};
ghost use Rattle.spk_nums.specs.CallLimits.{InLimits};
ghost use Rattle.spk_nums.specs.declared.calls.Call.{Call};
ghost use Rattle.call_judge.specs.seq_state.specs.kernel_rules.specs.Runs.{Enters, Decides, Returns};
ghost use Rattle.call_judge.specs.seq_state.specs.Maps.{state_of};
ghost use Rattle.origin_rules.specs.Chains.{own_cap, held_at};
ghost use Rattle.confinement.specs.Known.{StandsFor, Takes, chain_known, IsChainOf};

use crate::chain::Chain;
use crate::puts::puts_by;
use crate::table::OriginTable;
use call_judge::decide_by;
use seq_lookups::Slot;
use seq_state::{Place, SeqKernel};
use spk_nums::{Call, Cap, CoreNo, EntryNo, FrameNo, Kind, Memory, Reply, Setup};
use std::alloc::Global;
use std::marker::Model;

/// Where each capability of a machine came from, as far as a run has gone.
#[derive(Drop)]
pub struct Origins {
    kernel: SeqKernel,
    table: OriginTable,
    decided: u32,
    alloc: Global,
}

impl Model for Origins {
    ghost use Rattle.confinement.specs.Known.{Known};

    ghost Value = { Known };

    ghost view = { λ o. record { kernel = o.kernel; table = o.table; decided = o.decided } };
}

/// Whether a kind is that of a capability that cores can name: links and pages are none.
fn is_own(kind: Kind) -> bool
    ensures { result ≡ is_own kind }
{
    match kind {
        Kind::Link => false,
        Kind::Page => false,
        _ => true,
    }
}

/// The capability, where it is one that cores can name.
fn if_own(cap: Cap) -> Option<Cap>
    ensures { result ≡ own_cap (Holds cap) }
{
    if is_own(cap.kind()) { Some(cap) } else { None }
}

/// The capability that a place holds, if it holds one.
fn own_cap(place: Place) -> Option<Cap>
    ensures { result ≡ own_cap (place_held place) }
{
    match place {
        Place::Free => None,
        Place::Holds(cap) => if_own(cap),
        Place::Quiescing(_) => None,
    }
}

impl Origins {
    /// Before the first event of a run: each capability of the start has come from nowhere else. It fails only where memory runs out.
    pub fn start(alloc: Global, setup: &Setup) -> Result<Origins, Memory>
        ensures { IfOk result (λ o. StandsFor setup.now [] o) }
    {
        let kernel = SeqKernel::start(alloc, setup)?;
        let table = OriginTable::start(alloc, setup.frames())?;
        Ok(Origins {
            kernel,
            table,
            decided: 0,
            alloc,
        })
    }

    /// The number of frames, at most 512.
    pub fn frames(&self) -> u16
        ensures value { result ≡ (state_of self.now.kernel).limits.frames }
        ensures most { result ≤ 512 }
    {
        self.kernel.frames()
    }

    /// Whether the machine has a core.
    fn has(&self, core: CoreNo) -> bool
        ensures { result ≡ nat_lt core (state_of self.now.kernel).limits.cores }
    {
        core.number() < self.kernel.cores()
    }

    /// Takes the next event of a run: that a core enters a call.
    pub fn enter(&mut self, core: CoreNo)
        ensures { (call : Call) → Takes self.old (Enters core call) self.new }
    {
        if !self.has(core) {
            return;
        }
        self.kernel.enter(core);
    }

    /// Takes the next event of a run, which has made fewer than 2^32 - 1 decisions: that the call of a core is decided with this reply.
    /// Want of memory leaves all as before.
    pub fn take(&mut self, core: CoreNo, call: &Call, reply: &Reply) -> Result<(), Memory>
        requires { InLimits call.now }
        ensures kept { OnErr result (self.new ≡ self.old) }
        ensures exact { OnOk result (Takes self.old (Decides core call.now reply.now) self.new) }
    {
        if !self.has(core) {
            return Ok(());
        }
        let decision = self.decided.saturating_add(1);
        let put = puts_by(&self.kernel, core, call, reply);
        self.table.put_by(decision, &put)?;
        decide_by(self.alloc, &mut self.kernel, core, call, reply)?;
        self.decided = decision;
        Ok(())
    }

    /// Takes the next event of a run: that a core returns from its call.
    pub fn leave(&mut self, core: CoreNo)
        ensures { Takes self.old (Returns core) self.new }
    {
        if !self.has(core) {
            return;
        }
        self.kernel.leave(core);
    }

    /// The capability that a place holds.
    fn held_at(&self, node: FrameNo, entry: EntryNo) -> Option<Cap>
        ensures { result ≡ held_at (state_of self.now.kernel) node entry }
    {
        if node.number() < self.kernel.frames() && entry.number() < 64 {
            own_cap(self.kernel.place(node, entry))
        } else {
            None
        }
    }

    /// What is known of the chain of the capability that a place holds.
    fn known(&self, alloc: Global, node: FrameNo, entry: EntryNo) -> Result<Option<Chain>, Memory>
        ensures { IfOk result (λ found. found ≡ chain_known self.now node entry) }
    {
        if 64 <= entry.number() {
            return Ok(None);
        }
        let Some(cap) = self.held_at(node, entry) else {
            return Ok(None);
        };
        let found = self.table.chain(alloc, cap, Slot::new(node, entry))?;
        Ok(found)
    }

    /// The chain of the capability that a place holds. It is None exactly where the place holds no capability that cores can name:
    /// where it is no place of the machine, is free or quiescing, or holds a link or a page. It fails only where memory runs out.
    pub fn chain(
        &self,
        alloc: Global,
        node: FrameNo,
        entry: EntryNo,
    ) -> Result<Option<Chain>, Memory>
        ensures known { IfOk result (λ found. found ≡ chain_known self.now node entry) }
        ensures exact { IfOk result (λ found. IsChainOf self.now node entry found) }
    {
        let found = self.known(alloc, node, entry)?;
        Ok(found)
    }
}

ghost use Rattle.std.specs.Prelude.{[]};
ghost use Rattle.call_judge.specs.seq_state.specs.kernel_rules.specs.State.{Holds};
ghost use Rattle.call_judge.specs.seq_state.specs.Parts.{place_held};
ghost use Rattle.origin_rules.specs.Chains.{is_own};
