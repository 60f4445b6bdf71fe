//! The origin of each place, in links that chains share.

ghost use Rattle.std.specs.Prelude.{◌≡◌, ◌<◌, ◌≤◌, ◌+◌, ◌*◌, ℕ, Some, IfOk, OnOk, OnErr, length};
ghost use Rattle.std.specs.Option.{option_map};
ghost use Rattle.call_judge.specs.seq_state.specs.Maps.{at_place};
ghost use Rattle.origin_rules.specs.Chains.{with_origin};
ghost use Rattle.confinement.specs.Links.{chain_from, origin_at, GoOn, IsBelow, StartsAll, IsHeadSet, origin_at_start, PutsIn, PutsBy, put_of};

use crate::chain::Chain;
use crate::puts::Put;
use origin_rules::ChainLink;
use seq_lookups::Slot;
use spk_nums::{Cap, EntryNo, FrameNo};
use std::alloc::{AllocError, Global};
use std::marker::Model;

/// A link, and the place of the link at which its chain goes on; None where that was the last.
#[derive(Clone, Copy)]
pub struct Kept {
    link: ChainLink,
    rest: Option<usize>,
}

/// Where the chain of a place begins: the place of its first link, if it has one, and the index of the capability of the start.
#[derive(Clone, Copy)]
pub struct Head {
    first: Option<usize>,
    start: u8,
}

/// The origin of what was put last at each place of a machine.
#[derive(Drop)]
pub struct OriginTable {
    kept: Vec<Kept>,
    heads: Vec<Head>,
}

impl Model for OriginTable {
    ghost use Rattle.confinement.specs.Links.{Table, IsTable};

    ghost Value = { Table };

    ghost view = { λ t. record { kept = t.kept.items; heads = t.heads.items } };

    ghost invariant = { λ t. IsTable (record { kept = t.kept.items; heads = t.heads.items }) };
}

/// The origin of each place at the start is the capability itself. The frames are at most 512.
fn all_heads(alloc: Global, frames: u16) -> Result<Vec<Head>, AllocError>
    requires { frames ≤ 512 }
    ensures heads { IfOk result (λ v. StartsAll (64 * frames) v.items) }
    ensures length { IfOk result (λ v. length v.items ≡ 64 * frames) }
{
    let mut heads = Vec::new(alloc);
    'each: for key in 0..64 * frames {
        heads.push(Head {
            first: None,
            start: (key % 64) as u8,
        })?;
    }
    Ok(heads)
}

/// The place of a slot in a list of places.
fn key_of(at: Slot) -> usize
    ensures { result ≡ 64 * at.node + at.index }
{
    usize::from(at.node().number()) * 64 + usize::from(at.index().number())
}

/// Where the chain of a slot begins.
fn head_at(heads: &Vec<Head>, at: Slot) -> Option<Head>
    ensures { result ≡ at_place heads.now.items at.node at.index }
{
    heads.get(key_of(at)).copied()
}

/// Sets where the chain of a slot begins; changes nothing past the machine's places.
fn set_head(heads: &mut Vec<Head>, at: Slot, head: Head)
    ensures { IsHeadSet heads.old.items (64 * at.node + at.index) head heads.new.items }
{
    let key = key_of(at);
    if key < heads.len() {
        heads[key] = head;
    }
}

/// The chain that begins at a link.
fn links_from(
    alloc: Global,
    kept: &Vec<Kept>,
    first: Option<usize>,
) -> Result<Vec<ChainLink>, AllocError>
    requires goes_on { GoOn kept.now.items }
    requires begins { IsBelow first (length kept.now.items) }
    ensures { IfOk result (λ v. v.items ≡ chain_from kept.now.items (length kept.now.items) first) }
{
    let mut links = Vec::new(alloc);
    let mut next = first;
    'walk: while let Some(at) = next {
        let here = kept[at];
        links.push(here.link)?;
        next = here.rest;
    }
    Ok(links)
}

impl OriginTable {
    /// The origins at the start of a machine of so many frames, at most 512: each place's is the capability itself.
    pub fn start(alloc: Global, frames: u16) -> Result<OriginTable, AllocError>
        requires { frames ≤ 512 }
        ensures { IfOk result (λ t. (f i : ℕ) → f < frames → i < 64 → origin_at t f i ≡ Some (origin_at_start i)) }
    {
        let heads = all_heads(alloc, frames)?;
        Ok(OriginTable {
            kept: Vec::new(alloc),
            heads,
        })
    }

    /// A decision puts a capability: its origin is the decision, and after it that of its parent as it is now. Want of memory leaves
    /// all as before.
    fn put(&mut self, decision: u32, put: &Put) -> Result<(), AllocError>
        ensures kept { OnErr result (self.new ≡ self.old) }
        ensures exact { OnOk result (PutsIn self.old decision (put_of put.now) self.new) }
    {
        let Some(parent) = head_at(&self.heads, put.parent) else {
            return Ok(());
        };
        let link = ChainLink {
            decision,
            what: put.what,
        };
        let first = self.kept.len();
        self.kept.push(Kept {
            link,
            rest: parent.first,
        })?;
        let head = Head {
            first: Some(first),
            start: parent.start,
        };
        set_head(&mut self.heads, put.at, head);
        Ok(())
    }

    /// A decision puts a capability, or none. Want of memory leaves all as before.
    pub fn put_by(&mut self, decision: u32, put: &Option<Put>) -> Result<(), AllocError>
        ensures kept { OnErr result (self.new ≡ self.old) }
        ensures exact { OnOk result (PutsBy self.old decision (option_map put_of put.now) self.new) }
    {
        match put {
            None => Ok(()),
            Some(put) => self.put(decision, put),
        }
    }

    /// The capability with the origin of the place at a slot; None where the machine does not have the place.
    pub fn chain(&self, alloc: Global, cap: Cap, at: Slot) -> Result<Option<Chain>, AllocError>
        ensures { IfOk result (λ found. found ≡ option_map (λ o. with_origin o cap) (origin_at self.now at.node at.index)) }
    {
        let Some(head) = head_at(&self.heads, at) else {
            return Ok(None);
        };
        let links = links_from(alloc, &self.kept, head.first)?;
        Ok(Some(Chain {
            cap,
            links,
            start: head.start,
        }))
    }
}
