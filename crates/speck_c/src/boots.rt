//! How a machine boots.

ghost use Rattle.std.specs.Prelude.{◌≡◌, ◌≢◌, ◌+◌, ◌*◌, ◌<◌, ◌≤◌, ◌⊎◌, None, length, map};
ghost use Rattle.spk_nums.specs.Setting.{Setting};
ghost use Rattle.spk_nums.specs.SetupFaults.{TellsSetup, equal_setting};
ghost use Rattle.speck_c.specs.Grants.{granted, setting_of};
ghost use Rattle.speck_c.specs.Machines.{Boots, BootsWith, setup_code};
ghost use Rattle.speck_c.specs.Slots.{held_in};

use crate::held::What;
use crate::machines::put_new;
use crate::slot::Slot;
use end_ports::EndSeats;
use spk_nums::{Grant, Grants, Setup, SetupFault};
use std::alloc::Global;

/// What a core is granted: ticks, through a scheduler, at a quality.
#[repr(C)]
#[derive(Clone, Copy, PartialEq, Eq, Debug)]
pub struct SpeckGrant {
    pub budget: u32,
    pub quality: u32,
    pub sched: u8,
}

fn boot_setup(alloc: Global, machine: &mut Slot, setup: &Setup) -> u8
    ensures { Boots setup.now (held_in machine.old) result (held_in machine.new) }
{
    let Ok(seats) = EndSeats::boot(alloc, setup) else {
        return 247;
    };
    if put_new(alloc, machine, What::Machine(seats)) {
        0
    } else {
        247
    }
}

fn boot_into(alloc: Global, machine: &mut Slot, cores: u8, frames: u16, budget: u32) -> u8
    ensures { Boots (equal_setting cores frames budget) (held_in machine.old) result (held_in machine.new) }
{
    let Ok(setup) = Setup::equal(cores, frames, budget) else {
        return 247;
    };
    boot_setup(alloc, machine, &setup)
}

/// Boots a machine of so many cores and frames, whose cores are each granted `budget` ticks, into an empty slot, and answers 0.
/// The first that holds of these is answered instead, and the slot stays as it is: 240 where the slot is not empty; 241 where there
/// are not 1 to 8 cores; 242 where there are not `4 + 2 * cores` to 512 frames; 243 where the budget is past 500,000,000; 247 where
/// memory has run out.
#[unsafe(no_mangle)]
pub extern "C" fn speck_inner_boot(
    alloc: Global,
    machine: &mut Slot,
    cores: u8,
    frames: u16,
    budget: u32,
) -> u8
    ensures full { held_in machine.old ≢ None → (result ≡ 240) × (held_in machine.new ≡ held_in machine.old) }
    ensures cores { held_in machine.old ≡ None → (cores < 1) ⊎ (8 < cores) → (result ≡ 241) × (held_in machine.new ≡ None) }
    ensures frames { held_in machine.old ≡ None → 1 ≤ cores → cores ≤ 8 → (frames < 4 + 2 * cores) ⊎ (512 < frames)
        → (result ≡ 242) × (held_in machine.new ≡ None) }
    ensures budget { held_in machine.old ≡ None → 1 ≤ cores → cores ≤ 8 → 4 + 2 * cores ≤ frames → frames ≤ 512 → 500000000 < budget
        → (result ≡ 243) × (held_in machine.new ≡ None) }
    ensures boots { held_in machine.old ≡ None → 1 ≤ cores → cores ≤ 8 → 4 + 2 * cores ≤ frames → frames ≤ 512 → budget ≤ 500000000
        → Boots (equal_setting cores frames budget) None result (held_in machine.new) }
{
    if !machine.is_empty() {
        return 240;
    }
    if cores < 1 || 8 < cores {
        return 241;
    }
    if frames < 4 + 2 * u16::from(cores) || 512 < frames {
        return 242;
    }
    if 500_000_000 < budget {
        return 243;
    }
    boot_into(alloc, machine, cores, frames, budget)
}

// What a core is granted.
fn granted_of(grant: &SpeckGrant) -> Grant
    ensures { result ≡ granted grant.now }
{
    Grant {
        budget: grant.budget,
        sched: grant.sched,
        quality: grant.quality,
    }
}

// What each core is granted, core 0 first. There are at most 8.
fn grants_of(given: &[SpeckGrant]) -> Grants
    requires { length given.now ≤ 8 }
    ensures { result ≡ map granted given.now }
{
    let mut grants = Grants::empty();
    'each: for grant in given {
        let _added = grants.add(granted_of(grant));
    }
    grants
}

fn setup_fault_code(fault: SetupFault) -> u8
    ensures { result ≡ setup_code fault }
{
    match fault {
        SetupFault::Cores => 241,
        SetupFault::Frames => 242,
        SetupFault::GrantCount => 241,
        SetupFault::Grant => 243,
        SetupFault::Calls => 249,
        SetupFault::Epochs => 250,
    }
}

// The setup of as many cores as there are grants, or its first fault.
fn setup_of(frames: u16, calls: u64, epochs: u16, given: &[SpeckGrant]) -> Result<Setup, SetupFault>
    ensures { TellsSetup (setting_of frames calls epochs given.now) result }
{
    if 8 < given.len() {
        return Err(SetupFault::Cores);
    }
    Setup::checked(given.len() as u8, frames, grants_of(given), calls, epochs)
}

/// Boots a machine of a core for each grant, core 0's first, of so many frames, whose cores may each make so many calls, and whose liveness
/// numbers have so many epochs, into an empty slot, and answers 0. Else 240 where the slot is not empty; or the first that holds of these,
/// with the slot as it was: 241 where there are not 1 to 8 grants; 242 where there are not `4 + 2 * cores` to 512 frames; 243 where a budget
/// is past 500,000,000, a scheduler past 63, or a quality 0 or past 16,777,215; 249 where there are more than 2^40 - 1 calls; 250 where
/// there is no epoch; 247 where memory has run out.
#[unsafe(no_mangle)]
pub extern "C" fn speck_inner_boot_with(
    alloc: Global,
    machine: &mut Slot,
    frames: u16,
    calls: u64,
    epochs: u16,
    grants: &[SpeckGrant],
) -> u8
    ensures full { held_in machine.old ≢ None → (result ≡ 240) × (held_in machine.new ≡ held_in machine.old) }
    ensures boots { held_in machine.old ≡ None → BootsWith (setting_of frames calls epochs grants.now) result (held_in machine.new) }
{
    if !machine.is_empty() {
        return 240;
    }
    match setup_of(frames, calls, epochs, grants) {
        Ok(setup) => boot_setup(alloc, machine, &setup),
        Err(fault) => setup_fault_code(fault),
    }
}
