//! The top call over ends that never fail.

ghost use Rattle.std.specs.Prelude.{◌≡◌};

use crate::shared::{MACHINE, list_of};
use byte_ends::{SureSink, SureSource};
use speck_run::{FreeGate, Status, speck};
use std::alloc::Global;
use std::test::Fail;
use std::thread::Threads;

// Sure ends never fail, so neither fault is answered.
fn sure_status<R: Threads + Sync>(
    rt: &R,
    alloc: Global,
    words: &Vec<String>,
    source: &mut SureSource,
    sink: &mut SureSink,
) -> Status
    ensures read { result ≡ Status.ReadFault → ⊥ }
    ensures write { result ≡ Status.WriteFault → ⊥ }
{
    speck(rt, alloc, &FreeGate, words, source, sink)
}

#[test]
fn sure_ends_have_no_faults(rt: HostRuntime) -> Result<(), Fail> {
    let words = list_of(rt.alloc(), &["replay"])?;
    let input = format!(in rt.alloc(); "{MACHINE}core 0\ncopy 0 1 20\ncore 1\ncopy 0 1 20\n")?;
    let bytes = Vec::from_slice(rt.alloc(), input.as_bytes())?;
    let mut source = SureSource::new(bytes, 7);
    let mut sink = SureSink::new();
    let status = sure_status(&rt, rt.alloc(), &words, &mut source, &mut sink);
    assert_eq!(rt; status.number(), 0);
    Ok(())
}
