//! The line of each call.

ghost use Rattle.std.specs.Prelude.{◌≡◌, ◌<◌, IfOk};
ghost use Rattle.spk_nums.specs.CallLimits.{InLimits, MakeInLimits};
ghost use Rattle.line_reader.specs.Arguments.{texts};
ghost use Rattle.call_reader.specs.CallLines.{Says, object_form, object_of, object_at, read_form, call_line};
ghost use Rattle.call_reader.specs.Sites.{made};

use crate::arguments::{
    amount_at, byte_at, capability_at, count_at, entry_at, frame_at, frame_kind_at, page_at,
    whole_at,
};
use line_reader::{Cause, end_at, is_word, word_at};
use script_tokens::Token;
use spk_nums::{Call, CapId, FrameArg, Make, Object, PageFlags, Rights, Verb};

#[tactic(auto, unfolding(crate::specs::CallLines::call_line))]
fn look_line(words: &[Token]) -> Result<Call, Cause>
    ensures value { result ≡ call_line 3 (texts words.now) Verb.Look }
    ensures range { IfOk result InLimits }
{
    let a = capability_at(words, 1)?;
    end_at(words, 2)?;
    Ok(Call::Look { a })
}

#[tactic(auto, unfolding(crate::specs::CallLines::call_line))]
fn copy_line(words: &[Token], version: u8) -> Result<Call, Cause>
    ensures value { result ≡ call_line version (texts words.now) Verb.Copy }
    ensures range { IfOk result InLimits }
{
    let a = capability_at(words, 1)?;
    let t = capability_at(words, 2)?;
    let b = capability_at(words, 3)?;
    let rights = if 2 <= version && 4 < words.len() {
        let bits = byte_at(words, 4, 0, 3)?;
        end_at(words, 5)?;
        Rights::of_bits(bits)
    } else {
        end_at(words, 4)?;
        Rights::both()
    };
    Ok(Call::Copy { a, t, b, rights })
}

#[tactic(auto, unfolding(crate::specs::CallLines::call_line))]
fn remove_line(words: &[Token]) -> Result<Call, Cause>
    ensures value { result ≡ call_line 3 (texts words.now) Verb.Remove }
    ensures range { IfOk result InLimits }
{
    let t = capability_at(words, 1)?;
    let b = capability_at(words, 2)?;
    end_at(words, 3)?;
    Ok(Call::Remove { t, b })
}

#[tactic(auto, unfolding(crate::specs::CallLines::call_line))]
fn grow_line(words: &[Token]) -> Result<Call, Cause>
    ensures value { result ≡ call_line 3 (texts words.now) Verb.Grow }
    ensures range { IfOk result InLimits }
{
    let t = capability_at(words, 1)?;
    let i = entry_at(words, 2)?;
    let l = capability_at(words, 3)?;
    end_at(words, 4)?;
    Ok(Call::Grow { t, i, l })
}

#[tactic(auto, unfolding(crate::specs::CallLines::call_line))]
fn shrink_line(words: &[Token]) -> Result<Call, Cause>
    ensures value { result ≡ call_line 3 (texts words.now) Verb.Shrink }
    ensures range { IfOk result InLimits }
{
    let t = capability_at(words, 1)?;
    let i = entry_at(words, 2)?;
    end_at(words, 3)?;
    Ok(Call::Shrink { t, i })
}

#[tactic(auto, unfolding(crate::specs::CallLines::call_line))]
fn retype_line(words: &[Token]) -> Result<Call, Cause>
    ensures value { result ≡ call_line 3 (texts words.now) Verb.Retype }
    ensures range { IfOk result InLimits }
{
    let r = capability_at(words, 1)?;
    let f = frame_at(words, 2)?;
    let k = frame_kind_at(words, 3)?;
    end_at(words, 4)?;
    Ok(Call::Retype { r, f, k })
}

#[tactic(auto, unfolding(crate::specs::CallLines::call_line))]
fn map_line(words: &[Token]) -> Result<Call, Cause>
    ensures value { result ≡ call_line 3 (texts words.now) Verb.Map }
    ensures range { IfOk result InLimits }
{
    let p = capability_at(words, 1)?;
    let v = page_at(words, 2)?;
    let r = capability_at(words, 3)?;
    let f = frame_at(words, 4)?;
    let w = byte_at(words, 5, 0, 3)?;
    end_at(words, 6)?;
    Ok(Call::Map {
        p,
        v,
        r,
        f,
        w: PageFlags::of_bits(w),
    })
}

#[tactic(auto, unfolding(crate::specs::CallLines::call_line))]
fn unmap_line(words: &[Token]) -> Result<Call, Cause>
    ensures value { result ≡ call_line 3 (texts words.now) Verb.Unmap }
    ensures range { IfOk result InLimits }
{
    let p = capability_at(words, 1)?;
    let v = page_at(words, 2)?;
    end_at(words, 3)?;
    Ok(Call::Unmap { p, v })
}

#[tactic(auto, unfolding(crate::specs::CallLines::call_line))]
fn touch_line(words: &[Token]) -> Result<Call, Cause>
    ensures value { result ≡ call_line 3 (texts words.now) Verb.Touch }
    ensures range { IfOk result InLimits }
{
    let v = page_at(words, 1)?;
    end_at(words, 2)?;
    Ok(Call::Touch { v })
}

#[tactic(auto, unfolding(crate::specs::CallLines::call_line))]
fn flush_line(words: &[Token]) -> Result<Call, Cause>
    ensures value { result ≡ call_line 3 (texts words.now) Verb.Flush }
    ensures range { IfOk result InLimits }
{
    end_at(words, 1)?;
    Ok(Call::Flush)
}

#[tactic(auto, unfolding(crate::specs::CallLines::call_line))]
fn gate_line(words: &[Token]) -> Result<Call, Cause>
    ensures value { result ≡ call_line 3 (texts words.now) Verb.Gate }
    ensures range { IfOk result InLimits }
{
    let c = capability_at(words, 1)?;
    let t = capability_at(words, 2)?;
    let b = capability_at(words, 3)?;
    end_at(words, 4)?;
    Ok(Call::Gate { c, t, b })
}

#[tactic(auto, unfolding(crate::specs::CallLines::call_line))]
fn kill_line(words: &[Token]) -> Result<Call, Cause>
    ensures value { result ≡ call_line 3 (texts words.now) Verb.Kill }
    ensures range { IfOk result InLimits }
{
    let c = capability_at(words, 1)?;
    end_at(words, 2)?;
    Ok(Call::Kill { c })
}

#[tactic(auto, unfolding(crate::specs::CallLines::call_line))]
fn enter_line(words: &[Token]) -> Result<Call, Cause>
    ensures value { result ≡ call_line 3 (texts words.now) Verb.Call }
    ensures range { IfOk result InLimits }
{
    let g = capability_at(words, 1)?;
    end_at(words, 2)?;
    Ok(Call::Call { g })
}

#[tactic(auto, unfolding(crate::specs::CallLines::call_line))]
fn ret_line(words: &[Token]) -> Result<Call, Cause>
    ensures value { result ≡ call_line 3 (texts words.now) Verb.Ret }
    ensures range { IfOk result InLimits }
{
    end_at(words, 1)?;
    Ok(Call::Ret)
}

#[tactic(auto, unfolding(crate::specs::CallLines::call_line))]
fn switch_line(words: &[Token]) -> Result<Call, Cause>
    ensures value { result ≡ call_line 3 (texts words.now) Verb.Switch }
    ensures range { IfOk result InLimits }
{
    let h = capability_at(words, 1)?;
    let q = capability_at(words, 2)?;
    end_at(words, 3)?;
    Ok(Call::Switch { h, q })
}

#[tactic(auto, unfolding(crate::specs::CallLines::call_line))]
fn tick_line(words: &[Token]) -> Result<Call, Cause>
    ensures value { result ≡ call_line 3 (texts words.now) Verb.Tick }
    ensures range { IfOk result InLimits }
{
    let n = whole_at(words, 1, 0, 1_000_000)?;
    end_at(words, 2)?;
    Ok(Call::Tick { n })
}

#[tactic(auto, unfolding(crate::specs::CallLines::call_line))]
fn transfer_line(words: &[Token]) -> Result<Call, Cause>
    ensures value { result ≡ call_line 3 (texts words.now) Verb.Transfer }
    ensures range { IfOk result InLimits }
{
    let a = capability_at(words, 1)?;
    let b = capability_at(words, 2)?;
    let m = amount_at(words, 3)?;
    end_at(words, 4)?;
    Ok(Call::Transfer { a, b, m })
}

#[tactic(auto, unfolding(crate::specs::CallLines::call_line))]
fn delegate_line(words: &[Token]) -> Result<Call, Cause>
    ensures value { result ≡ call_line 3 (texts words.now) Verb.Delegate }
    ensures range { IfOk result InLimits }
{
    let a = capability_at(words, 1)?;
    let b = capability_at(words, 2)?;
    let m = amount_at(words, 3)?;
    end_at(words, 4)?;
    Ok(Call::Delegate { a, b, m })
}

#[tactic(auto, unfolding(crate::specs::CallLines::call_line))]
fn test_line(words: &[Token]) -> Result<Call, Cause>
    ensures value { result ≡ call_line 3 (texts words.now) Verb.Test }
    ensures range { IfOk result InLimits }
{
    let a = capability_at(words, 1)?;
    let b = capability_at(words, 2)?;
    end_at(words, 3)?;
    Ok(Call::Test { a, b })
}

#[tactic(auto, unfolding(crate::specs::CallLines::call_line))]
fn part_line(words: &[Token]) -> Result<Call, Cause>
    ensures value { result ≡ call_line 3 (texts words.now) Verb.Part }
    ensures range { IfOk result InLimits }
{
    let r = capability_at(words, 1)?;
    let f = frame_at(words, 2)?;
    let n = count_at(words, 3)?;
    let t = capability_at(words, 4)?;
    let b = capability_at(words, 5)?;
    end_at(words, 6)?;
    Ok(Call::Part { r, f, n, t, b })
}

#[tactic(auto, unfolding(crate::specs::CallLines::call_line))]
fn replenish_line(words: &[Token]) -> Result<Call, Cause>
    ensures value { result ≡ call_line 3 (texts words.now) Verb.Replenish }
    ensures range { IfOk result InLimits }
{
    let a = capability_at(words, 1)?;
    let m = amount_at(words, 2)?;
    end_at(words, 3)?;
    Ok(Call::Replenish { a, m })
}

#[tactic(auto, unfolding(crate::specs::CallLines::object_of))]
fn object_of(word: &[u8]) -> Option<Object>
    ensures { result ≡ object_of word.now }
{
    if is_word(word, "table") {
        Some(Object::Table)
    } else if is_word(word, "leaf") {
        Some(Object::Leaf)
    } else if is_word(word, "pages") {
        Some(Object::Pages)
    } else if is_word(word, "pleaf") {
        Some(Object::Pleaf)
    } else if is_word(word, "thread") {
        Some(Object::Thread)
    } else if is_word(word, "tcap") {
        Some(Object::Tcap)
    } else if is_word(word, "comp") {
        Some(Object::Comp)
    } else {
        None
    }
}

#[tactic(auto, unfolding(crate::specs::CallLines::object_at))]
fn object_at(words: &[Token], place: usize) -> Result<Object, Cause>
    ensures { result ≡ object_at (texts words.now) place }
{
    let word = word_at(words, place)?;
    object_of(word).ok_or(Cause::S2)
}

// Where a `make` puts its object: a range, a frame, a table and a slot.
#[derive(Clone, Copy)]
struct Site {
    range: CapId,
    frame: FrameArg,
    table: CapId,
    slot: CapId,
}

fn make(site: Site, what: Make) -> Call
    ensures { result ≡ made site what }
{
    Call::Make {
        what,
        range: site.range,
        frame: site.frame,
        table: site.table,
        slot: site.slot,
    }
}

fn thread_at(words: &[Token], site: Site) -> Result<Call, Cause>
    ensures value { result ≡ read_form 3 (texts words.now) 6 (object_form Object.Thread (λ what. Says (made site what))) }
    ensures range { IfOk result InLimits }
{
    let comp = capability_at(words, 6)?;
    end_at(words, 7)?;
    Ok(make(site, Make::Thread { comp }))
}

fn tcap_at(words: &[Token], site: Site) -> Result<Call, Cause>
    ensures value { result ≡ read_form 3 (texts words.now) 6 (object_form Object.Tcap (λ what. Says (made site what))) }
    ensures range { IfOk result InLimits }
{
    let sched = byte_at(words, 6, 0, 63)?;
    let quality = whole_at(words, 7, 1, 16_777_215)?;
    end_at(words, 8)?;
    Ok(make(site, Make::Tcap { sched, quality }))
}

fn comp_at(words: &[Token], site: Site) -> Result<Call, Cause>
    ensures value { result ≡ read_form 3 (texts words.now) 6 (object_form Object.Comp (λ what. Says (made site what))) }
    ensures range { IfOk result InLimits }
{
    let table = capability_at(words, 6)?;
    let pages = capability_at(words, 7)?;
    let live = byte_at(words, 8, 0, 63)?;
    end_at(words, 9)?;
    Ok(make(site, Make::Comp { table, pages, live }))
}

fn plain_at(words: &[Token], site: Site, what: Make) -> Result<Call, Cause>
    requires { MakeInLimits what }
    ensures value { result ≡ read_form 3 (texts words.now) 6 (Says (made site what)) }
    ensures range { IfOk result InLimits }
{
    end_at(words, 6)?;
    Ok(make(site, what))
}

fn made_at(words: &[Token], object: Object, site: Site) -> Result<Call, Cause>
    ensures value { result ≡ read_form 3 (texts words.now) 6 (object_form object (λ what. Says (made site what))) }
    ensures range { IfOk result InLimits }
{
    match object {
        Object::Table => plain_at(words, site, Make::Table),
        Object::Leaf => plain_at(words, site, Make::Leaf),
        Object::Pages => plain_at(words, site, Make::Pages),
        Object::Pleaf => plain_at(words, site, Make::Pleaf),
        Object::Thread => thread_at(words, site),
        Object::Tcap => tcap_at(words, site),
        Object::Comp => comp_at(words, site),
    }
}

#[tactic(auto, unfolding(crate::specs::CallLines::call_line))]
fn make_line(words: &[Token]) -> Result<Call, Cause>
    ensures value { result ≡ call_line 3 (texts words.now) Verb.Make }
    ensures range { IfOk result InLimits }
{
    let object = object_at(words, 1)?;
    let range = capability_at(words, 2)?;
    let frame = frame_at(words, 3)?;
    let table = capability_at(words, 4)?;
    let slot = capability_at(words, 5)?;
    let site = Site {
        range,
        frame,
        table,
        slot,
    };
    made_at(words, object, site)
}

/// The call of a line whose first word is that of a call, in a script of this version.
#[tactic(auto, unfolding(crate::specs::CallLines::call_line))]
pub fn call_line(words: &[Token], verb: Verb, version: u8) -> Result<Call, Cause>
    ensures value { result ≡ call_line version (texts words.now) verb }
    ensures range { IfOk result InLimits }
{
    match verb {
        Verb::Look => look_line(words),
        Verb::Copy => copy_line(words, version),
        Verb::Remove => remove_line(words),
        Verb::Grow => grow_line(words),
        Verb::Shrink => shrink_line(words),
        Verb::Retype => retype_line(words),
        Verb::Make => make_line(words),
        Verb::Map => map_line(words),
        Verb::Unmap => unmap_line(words),
        Verb::Touch => touch_line(words),
        Verb::Flush => flush_line(words),
        Verb::Gate => gate_line(words),
        Verb::Kill => kill_line(words),
        Verb::Call => enter_line(words),
        Verb::Ret => ret_line(words),
        Verb::Switch => switch_line(words),
        Verb::Tick => tick_line(words),
        Verb::Transfer => transfer_line(words),
        Verb::Delegate => delegate_line(words),
        Verb::Test => test_line(words),
        Verb::Part => part_line(words),
        Verb::Replenish => replenish_line(words),
    }
}
