//! The script of a number.

ghost use Rattle.std.specs.Prelude.{◌≡◌, ◌<◌, [], ◌∷◌, ◌++◌, length, IfOk, OnOk, string_bytes};
ghost use Rattle.script_reader.specs.Readings.{lists_of, script_of, script_view, IsScript};
ghost use Rattle.load_maker.specs.Loads.{the_grant, the_setup, first_calls, whole_call, first_items, drawn_calls};
ghost use Rattle.load_maker.specs.Loads.{drawn_lists, an_item, drawn_items, how_numbered, script_made, load_text};

use crate::calls::draw_call;
use crate::draws::Draws;
use script_printer::print;
use script_reader::Script;
use spk_nums::{
    Call, CapId, CoreNo, EntryNo, FrameArg, FrameKind, Grant, Grants, How, Item, Make, Memory,
    Setup,
};
use std::alloc::{AllocError, Global};

// How many calls are drawn for each core, and how many items of the order.
const CALLS: usize = 500;

const ITEMS: usize = 6_000;

const GRANT: Grant = Grant {
    budget: 1_000_000,
    sched: 0,
    quality: 1,
};

// The grants, and one more that is the same for each core.
fn with_grant(mut grants: Grants) -> Grants
    requires { length grants < 8 }
    ensures { result ≡ grants ++ the_grant ∷ [] }
{
    let _added = grants.add(GRANT);
    grants
}

fn setup() -> Setup
    ensures { result ≡ the_setup }
{
    let grants = with_grant(with_grant(with_grant(with_grant(Grants::empty()))));
    Setup::new(4, 128, grants, 4_194_304, 65_535).unwrap()
}

// The calls with which core 0 begins: a leaf for pages.
fn first_calls(alloc: Global) -> Result<Vec<Call>, AllocError>
    ensures { IfOk result (λ calls. calls.items ≡ first_calls) }
{
    let calls = vec![in alloc;
        Call::Retype {
            r: CapId::new(0),
            f: FrameArg::new(12),
            k: FrameKind::Kernel,
        },
        Call::Make {
            what: Make::Pleaf,
            range: CapId::new(0),
            frame: FrameArg::new(12),
            table: CapId::new(1),
            slot: CapId::new(20),
        },
        Call::Grow {
            t: CapId::new(2),
            i: EntryNo::new(0),
            l: CapId::new(20),
        },
    ]?;
    Ok(calls)
}

// Draws the calls of a core, after those with which it begins.
fn push_calls(draws: &mut Draws, calls: &mut Vec<Call>) -> Result<(), AllocError>
    ensures value { OnOk result (calls.new.items ≡ calls.old.items ++ (drawn_calls draws.old.at).0) }
    ensures goes_on { OnOk result (draws.new.at ≡ (drawn_calls draws.old.at).1) }
{
    // The check of a function that moves calls asks for the types that they hold.
    let _made: Option<Make> = None;
    'calls: for _ in 0..CALLS {
        calls.push(draw_call(draws))?;
    }
    Ok(())
}

// Draws the list of a core that begins with these calls.
fn draw_list(draws: &mut Draws, mut calls: Vec<Call>) -> Result<Vec<Call>, AllocError>
    ensures value { IfOk result (λ list. list.items ≡ calls.items ++ (drawn_calls draws.old.at).0) }
    ensures goes_on { OnOk result (draws.new.at ≡ (drawn_calls draws.old.at).1) }
{
    push_calls(draws, &mut calls)?;
    Ok(calls)
}

fn draw_lists(alloc: Global, draws: &mut Draws) -> Result<Vec<Vec<Call>>, AllocError>
    ensures value { IfOk result (λ lists. lists_of lists.items ≡ (drawn_lists draws.old.at).0) }
    ensures goes_on { OnOk result (draws.new.at ≡ (drawn_lists draws.old.at).1) }
{
    let core_0 = draw_list(draws, first_calls(alloc)?)?;
    let core_1 = draw_list(draws, Vec::new(alloc))?;
    let core_2 = draw_list(draws, Vec::new(alloc))?;
    let core_3 = draw_list(draws, Vec::new(alloc))?;
    let lists = vec![in alloc; core_0, core_1, core_2, core_3]?;
    Ok(lists)
}

fn how_numbered(number: u16) -> How
    ensures { result ≡ how_numbered number }
{
    match number {
        0 => How::One,
        1 => How::Ready,
        2 => How::Decide,
        _ => How::Return,
    }
}

#[tactic(auto, unfolding(crate::specs::Loads::an_item))]
fn draw_item(draws: &mut Draws) -> Item
    ensures value { result ≡ (an_item draws.old.at).0 }
    ensures goes_on { draws.new.at ≡ (an_item draws.old.at).1 }
{
    let core = CoreNo::new(draws.below(4) as u8);
    let how = how_numbered(draws.below(4));
    Item { core, how }
}

// Core 0 makes a whole call.
fn whole_call() -> Item
    ensures { result ≡ whole_call }
{
    Item {
        core: CoreNo::new(0),
        how: How::Return,
    }
}

// The items with which the order begins: core 0's first calls.
fn first_items(alloc: Global) -> Result<Vec<Item>, AllocError>
    ensures { IfOk result (λ items. items.items ≡ first_items) }
{
    let items = vec![in alloc; whole_call(), whole_call(), whole_call()]?;
    Ok(items)
}

fn draw_order(alloc: Global, draws: &mut Draws) -> Result<Vec<Item>, AllocError>
    ensures value { IfOk result (λ items. items.items ≡ first_items ++ (drawn_items draws.old.at).0) }
    ensures goes_on { OnOk result (draws.new.at ≡ (drawn_items draws.old.at).1) }
{
    let mut items = first_items(alloc)?;
    'items: for _ in 0..ITEMS {
        items.push(draw_item(draws))?;
    }
    Ok(items)
}

/// The script of a number: four cores, 500 drawn calls of each, and an order of 6,000 drawn items, all drawn from the
/// number. Core 0 begins with three calls that make a leaf for pages.
///
/// # Errors
///
/// `Memory` where memory has run out.
#[tactic(auto, unfolding(crate::specs::Loads::script_made))]
pub fn made_script(alloc: Global, number: u32) -> Result<Script, Memory>
    ensures value { IfOk result (λ script. script_view script ≡ script_made number) }
{
    let mut draws = Draws::from(number);
    let lists = draw_lists(alloc, &mut draws)?;
    let order = draw_order(alloc, &mut draws)?;
    Ok(Script {
        version: 1,
        setup: setup(),
        lists,
        order,
    })
}

/// The text of the script of a number, in its printed form. What it says is that script.
///
/// # Errors
///
/// `Memory` where memory has run out.
#[tactic(auto, unfolding(crate::specs::Loads::load_text))]
pub fn load_script(alloc: Global, number: u32) -> Result<String, Memory>
    ensures text { IfOk result (λ text. string_bytes text ≡ load_text number) }
    ensures reads { IfOk result (λ text. script_of (string_bytes text) ≡ Ok (script_made number)) }
{
    let script = made_script(alloc, number)?;
    print(alloc, &script)
}
