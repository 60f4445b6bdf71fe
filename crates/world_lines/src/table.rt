//! The worlds that have lines, and their numbers.

ghost use Rattle.std.specs.Prelude.{◌≡◌, ◌≤◌, ◌<◌, ◌+◌, ℕ, Some, slice_get, IfOk, if◌then◌else◌};
ghost use Rattle.world_parts.specs.Seen.{seen};
ghost use Rattle.world_parts.specs.Partitions.{world_in};
ghost use Rattle.world_parts.specs.Finest.{TellsFinest};
ghost use Rattle.world_lines.specs.Lines.{is_told, number_at};
ghost use Rattle.world_lines.specs.Table.{IsTable};

use crate::ranges::{WorldRange, either, has_range, ranges_of};
use spk_nums::FrameNo;
use std::alloc::{AllocError, Global};
use world_parts::machine_image::Image;
use world_parts::{Parts, is_untyped, parts_of};

/// The worlds of a machine.
#[derive(Drop)]
pub struct WorldTable {
    /// The worlds.
    pub parts: Parts,
    /// The ranges that their nodes hold.
    pub ranges: Vec<WorldRange>,
    /// Of each frame below 512, how many worlds before the one that begins there have lines.
    pub numbers: [u16; 512],
    /// How many have lines.
    pub told: u16,
}

/// Whether the world that begins at a frame has a line: all of the machine have but an untyped frame that is in no range.
pub fn is_told(image: &Image<'_>, parts: &Parts, ranges: &Vec<WorldRange>, frame: FrameNo) -> bool
    ensures { result ≡ is_told (seen image.now) (world_in parts.now) ranges.now.items frame }
{
    let begins = parts.world(frame).number() == frame.number();
    let of_use = either(!is_untyped(image, frame), has_range(ranges, frame));
    frame.number() < image.frames() && (begins && of_use)
}

/// One more, where there is one.
fn more(told: u16, is: bool) -> u16
    requires { told < 65535 }
    ensures { result ≡ (if is then told + 1 else told) }
{
    if is { told + 1 } else { told }
}

/// Fills the numbers of the worlds, and answers how many have lines.
#[tactic(auto, using(crate::proofs::Numbers::zero_number))]
fn number_all(
    numbers: &mut [u16; 512],
    image: &Image<'_>,
    parts: &Parts,
    ranges: &Vec<WorldRange>,
) -> u16
    ensures numbers { (r : ℕ) → r < 512
        → slice_get numbers.new r ≡ Some (number_at (seen image.now) (world_in parts.now) ranges.now.items r) }
    ensures told { (r : ℕ) → 512 ≤ r → result ≡ number_at (seen image.now) (world_in parts.now) ranges.now.items r }
{
    let _frames = image.frames();
    let mut told: u16 = 0;
    'frames: for frame in 0..512u16 {
        numbers[usize::from(frame)] = told;
        told = more(told, is_told(image, parts, ranges, FrameNo::new(frame)));
    }
    told
}

impl WorldTable {
    /// The worlds of this machine. It fails only where memory runs out.
    pub fn of(alloc: Global, image: &Image<'_>) -> Result<WorldTable, AllocError>
        ensures finest { IfOk result (λ table. TellsFinest image.now table.parts) }
        ensures table { IfOk result (λ table. IsTable (seen image.now) table) }
    {
        let parts = parts_of(image);
        let ranges = ranges_of(alloc, image, &parts)?;
        let mut numbers = [0; 512];
        let told = number_all(&mut numbers, image, &parts, &ranges);
        Ok(WorldTable {
            parts,
            ranges,
            numbers,
            told,
        })
    }

    /// How many worlds with a line begin before that of a frame.
    pub fn number(&self, frame: FrameNo) -> u16
        ensures { (x : _) → IsTable x self.now
            → result ≡ number_at x (world_in self.now.parts) self.now.ranges.items (world_in self.now.parts frame) }
    {
        match self
            .numbers
            .get(usize::from(self.parts.world(frame).number()))
        {
            Some(number) => *number,
            None => self.told,
        }
    }
}
