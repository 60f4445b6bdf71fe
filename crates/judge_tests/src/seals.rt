//! Whether a world is sealed, in a state that a script makes.

use crate::judging::{Scene, set};
use seal_check::is_sealed;
use spk_nums::CoreNo;
use std::test::Fail;

// Core 0 removes its capability to thread 4, and every use of the range. Nothing else leads to frame 4.
const REMOVED: &str =
    "speck 1\ncores 2\nframes 14\ngrant 100 0 1\ngrant 100 0 1\ncore 0\nremove 1 4\nremove 1 0\n";

// The frames of worlds: the thread alone; all that the start has; its component's frame alone; and what lies past the slice.
const THREAD: [bool; 5] = [false, false, false, false, true];

const ALL: [bool; 14] = [true; 14];

const COMP: [bool; 4] = [false, false, false, true];

#[test]
fn what_was_removed_holds_a_world_open_until_the_call_in_progress_returns(
    rt: HostRuntime,
) -> Result<(), Fail> {
    let mut kernel = set(
        rt.alloc(),
        &Scene {
            script: REMOVED,
            inside: Some(1),
        },
    )?;
    assert!(rt; !is_sealed(&kernel, &THREAD), "core 1 may still use it");
    if 1 < kernel.cores() {
        kernel.leave(CoreNo::new(1));
    }
    assert!(rt; is_sealed(&kernel, &THREAD), "no core may use it");
    Ok(())
}

#[test]
fn a_world_of_all_frames_and_one_of_none_are_sealed_and_one_that_a_place_leads_into_is_not(
    rt: HostRuntime,
) -> Result<(), Fail> {
    let kernel = set(
        rt.alloc(),
        &Scene {
            script: REMOVED,
            inside: None,
        },
    )?;
    assert!(rt; is_sealed(&kernel, &ALL), "all frames");
    assert!(rt; is_sealed(&kernel, &[]), "none");
    assert!(rt;
        !is_sealed(&kernel, &COMP),
        "the component, which capability 3 leads to"
    );
    Ok(())
}
