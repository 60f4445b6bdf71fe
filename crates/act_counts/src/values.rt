//! Small values that a step takes from an act, or from the word that it found.

ghost use Rattle.act_states.specs.Acts.{drawn_by, stamp_in};
ghost use Rattle.act_states.specs.Invocations.{frame_in};
ghost use Rattle.act_states.specs.Ticks.{charged_in, ticks_of};
ghost use Rattle.std.specs.Prelude.{◌≡◌, ◌≤◌};

use act_states::entry_words::Entry;
use act_states::stage_quiet::Close;
use act_states::stage_tcap::Charge;
use spk_nums::{FrameNo, Stamp, Value};

/// The stamp with which a removal goes on to its store.
#[inline]
pub fn drawn_by(close: &Close) -> Option<Stamp>
    ensures { result ≡ drawn_by close.now }
{
    match close {
        Close::AtStore {
            node: _,
            entry: _,
            stamp,
        } => Some(*stamp),
        _ => None,
    }
}

/// The stamp since which an entry is quiescing, 0 for one that is not.
#[inline]
pub fn stamp_in(entry: &Entry) -> Stamp
    ensures { result ≡ stamp_in entry.now }
{
    match *entry {
        Entry::Quiescing { stamp } => stamp,
        _ => Stamp::new(0),
    }
}

/// The ticks that a value says were charged.
#[inline]
pub fn charged_in(value: &Value) -> u32
    ensures { result ≡ charged_in value.now }
{
    match value {
        Value::Amount(charged) => *charged,
        _ => 0,
    }
}

/// The ticks that a charge is for.
#[inline]
pub fn ticks_of(charge: &Charge) -> u64
    ensures { result ≡ ticks_of charge.now }
{
    match charge {
        Charge::AtLoad { tcap: _, ticks } => *ticks,
        Charge::AtCompare {
            tcap: _,
            ticks,
            budget: _,
            version: _,
        } => *ticks,
    }
}

/// The frame of the machine that a word names by its number, if it names one.
#[inline]
pub fn frame_in(frames: u16, found: u64) -> Option<FrameNo>
    requires { frames ≤ 512 }
    ensures { result ≡ frame_in frames found }
{
    if found < u64::from(frames) {
        Some(FrameNo::new(found as u16))
    } else {
        None
    }
}
