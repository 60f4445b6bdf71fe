//! Partitions of a machine's frames: each frame has the least frame of its world.

ghost use Rattle.std.specs.Prelude.{◌≡◌, ◌<◌, ℕ, Some, length, slice_get};
ghost use Rattle.std.specs.Option.{option_map};
ghost use Rattle.world_parts.specs.Partitions.{world_in, moved, JoinsBy, IsParts};

use spk_nums::FrameNo;
use std::marker::Model;

/// A partition of the frames below 512 into worlds. Every frame past these is a world alone.
#[derive(Drop)]
pub struct Parts {
    least: [u16; 512],
}

impl Model for Parts {
    ghost use Rattle.std.specs.Prelude.{ℕ, List};
    ghost use Rattle.world_parts.specs.Partitions.{IsParts};

    ghost Value = { List ℕ };

    ghost view = { λ p. p.least };

    ghost invariant = { λ p. IsParts p.least };
}

/// The numbers from 0 to 511.
fn numbers() -> [u16; 512]
    ensures { (f : ℕ) → f < 512 → slice_get result f ≡ Some f }
{
    let mut numbers = [0; 512];
    'numbers: for number in 0..512u16 {
        numbers[usize::from(number)] = number;
    }
    numbers
}

/// One number for another, and all others as they are.
fn moved(number: u16, from: u16, to: u16) -> u16
    ensures { result ≡ moved from to number }
{
    if number == from { to } else { number }
}

/// Puts one number in place of another wherever that stands.
fn move_all(least: &mut [u16; 512], from: u16, to: u16)
    ensures size { length least.new ≡ 512 }
    ensures moves { (f : ℕ) → slice_get least.new f ≡ option_map (moved from to) (slice_get least.old f) }
{
    'frames: for frame in 0..512usize {
        least[frame] = moved(least[frame], from, to);
    }
}

impl Parts {
    /// Each frame alone.
    pub fn alone() -> Parts
        ensures { (f : ℕ) → world_in result f ≡ f }
    {
        Parts { least: numbers() }
    }

    /// The least frame of a frame's world.
    pub fn world(&self, frame: FrameNo) -> FrameNo
        ensures { result ≡ world_in self.now frame }
    {
        match self.least.get(usize::from(frame.number())) {
            Some(first) => FrameNo::new(*first),
            None => frame,
        }
    }

    /// The least frame of frame 0's world, which is 0; and that the worlds are a partition.
    pub(crate) fn first(&self) -> u16
        ensures { IsParts self.now }
    {
        self.least[0]
    }

    /// The worlds of two frames below 512 become one. Where one is past these, nothing is done.
    pub fn join(&mut self, one: FrameNo, other: FrameNo)
        ensures { JoinsBy (λ f g. (f ≡ one) × (g ≡ other)) self.old self.new }
    {
        if 512 <= one.number() || 512 <= other.number() {
            return;
        }
        let first = self.world(one).number();
        let second = self.world(other).number();
        if first < second {
            move_all(&mut self.least, second, first);
            return;
        }
        if second < first {
            move_all(&mut self.least, first, second);
        }
    }
}
