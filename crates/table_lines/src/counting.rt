//! How often each frame is among those that are named.

ghost use Rattle.std.specs.Prelude.{◌≡◌, IfOk, length};
ghost use Rattle.kernel_history.specs.kernel_rules.specs.References.{times};
ghost use Rattle.table_lines.specs.Counting.{AreCounts};

use std::alloc::{AllocError, Global};

/// How often each frame below `frames` is among the names.
pub fn tally(alloc: Global, names: &[u64], frames: u16) -> Result<Vec<u64>, AllocError>
    ensures length { IfOk result (λ counts. length counts.items ≡ frames) }
    ensures counts { IfOk result (λ counts. AreCounts counts.items (λ f. times f names.now) frames) }
{
    let mut counts = vec![in alloc; 0; usize::from(frames)]?;
    'names: for at in 0..names.len() {
        let name = names[at];
        if name < u64::from(frames) {
            counts[name as usize] += 1;
        }
    }
    Ok(counts)
}
