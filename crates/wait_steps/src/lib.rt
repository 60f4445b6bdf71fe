//! A step of a call that says that it waits for a core is the load of that core's word.
#![tactic(auto)]

ghost use Rattle.wait_steps.specs.Waits.{WaitsAtCores};

/// A step that decides `quiescing d` is on the word of core d.
pub fn waits_at_cores()
    ensures { WaitsAtCores }
{}
