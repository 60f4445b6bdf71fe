//! The bound of a call, as a formula in the number of cores.

ghost use Rattle.std.specs.Prelude.{◌≡◌, ℕ, ◌+◌, ◌*◌};
ghost use Rattle.spk_nums.specs.Bounds.{bound_of};

use call_plans::bound;
use spk_nums::Call;
use std::fmt;

/// A number of steps, and so many more for each core of the machine.
#[derive(Clone, Copy, Debug, PartialEq, Eq)]
pub struct Formula {
    pub fixed: u32,
    pub each: u32,
}

/// The most own steps of a call, on a machine of any number of cores.
pub fn formula_of(call: &Call) -> Formula
    ensures { (cores : ℕ) → bound_of call.now cores ≡ result.fixed + result.each * cores }
{
    let one = bound(call, 1);
    let two = bound(call, 2);
    let each = two.saturating_sub(one);
    Formula {
        fixed: one.saturating_sub(each),
        each,
    }
}

impl fmt::Display for Formula {
    fn fmt<W: fmt::Write>(&self, f: &mut fmt::Formatter<W>) -> fmt::Result {
        let fixed = self.fixed;
        let each = self.each;
        match each {
            0 => write!(f, "{fixed}"),
            1 => write!(f, "{fixed} + n"),
            _ => write!(f, "{fixed} + {each}n"),
        }
    }
}
