//! What is asked at run of the machine for given orders: whether it can be booted with given lists of calls, and whether it can be closed.
//! The programs of tests that move it stand on these, since they take their calls from files or draw them.
#![tactic(auto)]

ghost use Rattle.std.specs.Prelude.{◌↔◌, IsTrue, All, map};
ghost use Rattle.spk_nums.specs.CallLimits.{InLimits};
ghost use Rattle.lone_kernel.specs.Machine.{AreLists};
ghost use Rattle.lone_checks.specs.Lists.{IsRunnable};
ghost use Rattle.lone_checks.specs.Out.{AreOut};

pub use lone_kernel;
use lone_kernel::LoneKernel;
use spk_nums::{Call, CoreNo, in_limits};

// Whether these calls are in their limits.
fn are_in_limits(calls: &[Call]) -> bool
    ensures { IsTrue result ↔ All InLimits calls.now }
{
    'each: for call in calls {
        if !in_limits(call) {
            return false;
        }
    }
    true
}

// Whether a list can be run: its calls are in their limits, and few.
fn is_list(calls: &[Call]) -> bool
    ensures { IsTrue result ↔ IsRunnable calls.now }
{
    are_in_limits(calls) && calls.len() < 4_294_967_296
}

/// Whether each list can be run.
pub fn are_lists(lists: &[Vec<Call>]) -> bool
    ensures { IsTrue result ↔ AreLists (map (λ v. v.items) lists.now) }
{
    'lists: for list in lists {
        if !is_list(list.as_slice()) {
            return false;
        }
    }
    true
}

/// Whether no core is in a call.
pub fn are_out(kernel: &LoneKernel) -> bool
    ensures { IsTrue result ↔ AreOut kernel.now }
{
    'cores: for number in 0..kernel.setup().cores() {
        if kernel.inside(CoreNo::new(number)).is_some() {
            return false;
        }
    }
    true
}
