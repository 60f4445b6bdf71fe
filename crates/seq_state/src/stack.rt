//! The stack of a thread.

ghost use Rattle.std.specs.Prelude.{◌≡◌, ◌<◌, ◌≤◌, [], ◌∷◌, length, slice_get, drop, reverse};
ghost use Rattle.kernel_invariant.specs.kernel_rules.specs.References.{times};

use kernel_invariant::spk_nums::FrameNo;
use std::marker::Model;

/// Up to 16 frames of components, of which a thread is in the last pushed; contracts see their list, the newest first.
/// It takes no memory.
#[derive(Clone, Copy, PartialEq, Eq, Debug)]
pub struct Stack {
    cells: [FrameNo; 16],
    len: u8,
}

impl Model for Stack {
    ghost use Rattle.std.specs.Prelude.{List, ℕ};

    ghost Value = { List ℕ };

    ghost use Rattle.seq_state.specs.Stacks.{stacked, IsStack, stack_cells, stack_cells-back};

    ghost view = { stacked };

    ghost invariant = { IsStack };

    ghost inverse = { stack_cells };

    ghost inverse_ok = { stack_cells-back };
}

impl Stack {
    /// The stack of no component.
    pub fn empty() -> Stack
        ensures { result ≡ [] }
    {
        Stack {
            cells: [FrameNo::new(0); 16],
            len: 0,
        }
    }

    /// The stack of one component.
    pub fn one(frame: FrameNo) -> Stack
        ensures { result ≡ frame ∷ [] }
    {
        let mut cells = [FrameNo::new(0); 16];
        cells[0] = frame;
        Stack { cells, len: 1 }
    }

    /// The number of frames, at most 16.
    pub fn len(&self) -> usize
        ensures length { result ≡ length self.now }
        ensures most { length self.now ≤ 16 }
    {
        usize::from(self.len)
    }

    /// The newest frame; None exactly where there is none.
    pub fn top(&self) -> Option<FrameNo>
        ensures { result ≡ slice_get self.now 0 }
    {
        if self.len == 0 {
            None
        } else {
            Some(self.cells[usize::from(self.len) - 1])
        }
    }

    /// The frame at a height from the oldest, 0; None exactly past the newest.
    pub fn at_height(&self, height: usize) -> Option<FrameNo>
        ensures { result ≡ slice_get (reverse self.now) height }
    {
        if height < usize::from(self.len) {
            Some(self.cells[height])
        } else {
            None
        }
    }

    /// Pushes a frame, where there are fewer than 16.
    pub fn push(&mut self, frame: FrameNo)
        requires { length self.old < 16 }
        ensures { self.new ≡ frame ∷ self.old }
    {
        self.cells[usize::from(self.len)] = frame;
        self.len += 1;
    }

    /// Takes the newest frame off, where there is one.
    pub fn pop(&mut self)
        requires { 0 < length self.old }
        ensures { self.new ≡ drop 1 self.old }
    {
        self.len -= 1;
        self.cells[usize::from(self.len)] = FrameNo::new(0);
    }

    /// How often the stack has a frame, at most 16 times.
    pub fn times(&self, frame: FrameNo) -> u32
        ensures count { result ≡ times frame self.now }
        ensures most { result ≤ 16 }
    {
        let mut count = 0;
        'each: for at in 0..usize::from(self.len) {
            if self.cells[at] == frame {
                count += 1;
            }
        }
        count
    }
}
