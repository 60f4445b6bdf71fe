//! The lines of a setup.

ghost use Rattle.std.specs.Prelude.{◌≡◌, ◌++◌, OnOk, string_bytes};
ghost use Rattle.script_printer.specs.Printing.{size_lines, grant_line, limit_lines, setup_lines};

use spk_nums::{Grant, Setup};
use std::alloc::AllocError;

fn push_sizes(text: &mut String, setup: &Setup) -> Result<(), AllocError>
    ensures { OnOk result (string_bytes text.new ≡ string_bytes text.old ++ size_lines setup.now) }
{
    let cores = setup.cores();
    let frames = setup.frames();
    write!(text, "cores {cores}\nframes {frames}\n")
}

fn push_grant(text: &mut String, grant: &Grant) -> Result<(), AllocError>
    ensures { OnOk result (string_bytes text.new ≡ string_bytes text.old ++ grant_line grant.now) }
{
    let budget = grant.budget;
    let sched = grant.sched;
    let quality = grant.quality;
    write!(text, "grant {budget} {sched} {quality}\n")
}

fn push_grants(text: &mut String, grants: &[Grant]) -> Result<(), AllocError>
    ensures { OnOk result (string_bytes text.new ≡ string_bytes text.old ++ flat_map grant_line grants.now) }
{
    for grant in grants {
        push_grant(text, grant)?;
    }
    Ok(())
}

fn push_limits(text: &mut String, setup: &Setup) -> Result<(), AllocError>
    ensures { OnOk result (string_bytes text.new ≡ string_bytes text.old ++ limit_lines setup.now) }
{
    let calls = setup.calls();
    let epochs = setup.epochs();
    write!(text, "calls {calls}\nepochs {epochs}\n")
}

/// Appends the lines of a script of this version before its calls: the version, the cores, the frames, the grants, core 0's first, and both
/// limits.
pub fn push_setup(text: &mut String, version: u8, setup: &Setup) -> Result<(), AllocError>
    ensures { OnOk result (string_bytes text.new ≡ string_bytes text.old ++ setup_lines version setup.now) }
{
    write!(text, "speck {version}\n")?;
    push_sizes(text, setup)?;
    push_grants(text, setup.grants().as_slice())?;
    push_limits(text, setup)
}

ghost use Rattle.std.specs.List.{flat_map};
