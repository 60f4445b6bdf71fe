//! The number of a scheduler in a list.

ghost use Rattle.std.specs.Prelude.{◌≡◌};
ghost use Rattle.spk_nums.specs.Merging.{number_of};

use spk_nums::Qualities;

/// The number that a list of qualities gives a scheduler, which says how good it is there: the least is the best. None exactly where the
/// list does not name the scheduler.
pub fn number_in(list: &Qualities, sched: u8) -> Option<u32>
    ensures { result ≡ number_of list.now sched }
{
    'pairs: for i in 0..list.len() {
        if let Some((named, number)) = list.get(i) {
            if named == sched {
                return Some(number);
            }
        }
    }
    None
}
