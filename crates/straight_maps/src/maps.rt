//! A mapping.

ghost use Rattle.std.specs.Prelude.{◌≡◌, ◌<◌, ◌&&◌, nat_lt, [], IsTrue, true};
ghost use Rattle.spk_nums.specs.declared.kinds.Kind.TheVariants as kind;
ghost use Rattle.straight_acts.specs.Acting.{counts};
ghost use Rattle.straight_looks.specs.Outcomes.{ended_so, went_so};
ghost use Rattle.straight_looks.specs.Standing.{looks, stands};
ghost use Rattle.straight_looks.specs.step_starts.specs.act_states.specs.Acts.{next_work, page_cap, stamp_in};
ghost use Rattle.straight_looks.specs.step_starts.specs.act_states.specs.declared.work.Act.TheVariants as act_of;
ghost use Rattle.straight_looks.specs.step_starts.specs.act_states.specs.declared.work.Work.TheVariants as work;
ghost use Rattle.straight_looks.specs.step_starts.specs.call_stages.specs.Fits.{IsCore, IsOwn};
ghost use Rattle.straight_looks.specs.step_starts.specs.call_stages.specs.declared.stages.Stage.TheVariants.{Enter, Undecided};
ghost use Rattle.straight_looks.specs.step_starts.specs.kernel_rules.specs.Access.{found as named_by_cap};
ghost use Rattle.straight_looks.specs.step_starts.specs.kernel_rules.specs.CapabilityCalls.{has_frame};
ghost use Rattle.straight_looks.specs.step_starts.specs.stage_quiet.specs.Scan.{quiet_scan};
ghost use Rattle.straight_maps.specs.Mapping.{IsUserWord, Maps, mapping, starting};

use crate::ends::{Placed, Scanned};
use crate::places::place;
use crate::scans::scan;
use act_counts::act_states::call_plans::{Caps, Name, Wanted};
use act_counts::act_states::frame_words::FrameWord;
use act_counts::act_states::stage_look::{Found, Look};
use act_counts::act_states::stage_pins::Acquired;
use act_counts::act_states::stage_quiet::Quiet;
use act_counts::act_states::{Act, Fill, Own};
use act_counts::stamp_in;
use call_stages::ActiveCall;
use spk_nums::{Call, Cap, CapId, FrameArg, FrameKind, FrameNo, Kind, PageFlags, Rights, WordOp};
use straight_acts::{Acquiring, acquire, fill_counted, rest_acting_counted};
use straight_looks::{Asked, Named, Went, Words, ask, name, rest_looking};

/// Makes a mapping straight through.
#[inline(never)]
#[tactic(auto, using(crate::proofs::Sets::mapping))]
pub fn map<W: Words>(
    own: &mut Own,
    active: &mut Option<ActiveCall>,
    call: &Call,
    words: &mut W,
) -> Went
    requires own { IsOwn own.old }
    requires room { own.old.made < own.old.limit }
    requires begins { W.core words.old ≡ stands own.old call.now 0 Enter [] }
    ensures { went_so own.old own.new active.old active.new (W.core words.old) (W.core words.new) (W.last words.new) result }
{
    let Call::Map { p, v, r, f, w } = *call else {
        return Went::Plainly;
    };
    if 4095 < p.number() || 4095 < v.number() || 4095 < r.number() || 4 <= w.number() {
        return Went::Plainly;
    }
    match ask(own, active, call, words) {
        Asked::Falls { found } => return Went::Falls { found },
        Asked::Lives => {}
    }
    let mut caps = Caps::none();
    let pages = Name {
        number: p,
        wanted: Wanted::Only { kind: Kind::Pages },
        needs: Rights::USE,
    };
    let root = match name(own, active, call, 3, &pages, &caps, words) {
        Named::Falls { found } => return Went::Falls { found },
        Named::Finds { cap } => cap,
    };
    caps.push(root);
    let whole = Name {
        number: r,
        wanted: Wanted::Only { kind: Kind::Range },
        needs: Rights::USE,
    };
    let range = match name(own, active, call, 5, &whole, &caps, words) {
        Named::Falls { found } => return Went::Falls { found },
        Named::Finds { cap } => cap,
    };
    caps.push(range);
    let look = Look::place(root.frame(), CapId::new(v.number()));
    if is_within(own, &range, f) {
        map_at(own, active, call, look, &page_cap(f, w), &caps, words)
    } else {
        rest_looking(active, call, 7, look, &caps);
        Went::Stands
    }
}

// Whether a range has a frame, which is one of the machine.
#[inline(always)]
fn is_within(own: &Own, range: &Cap, frame: FrameArg) -> bool
    ensures has { result ≡ has_frame (named_by_cap range.now) frame && nat_lt frame own.now.layout.frames }
    ensures below { IsTrue result → frame < own.now.layout.frames }
{
    let first = u32::from(range.frame().number());
    let number = u32::from(frame.number());
    first <= number && number < first + range.arg() && frame.number() < own.layout.frames()
}

// The mapping of a frame, with these flags.
#[inline(always)]
fn page_cap(frame: FrameArg, flags: PageFlags) -> Cap
    requires frame { frame < 512 }
    requires flags { flags.0 < 4 }
    ensures { result ≡ page_cap frame flags }
{
    let frame = FrameNo::new(frame.number());
    Cap::new(Kind::Page, frame, u32::from(flags.number()))
}

// The place of the page is looked up, and filled with this mapping.
#[inline(always)]
#[tactic(auto, using(crate::proofs::Sets::mapping_at))]
fn map_at<W: Words>(
    own: &mut Own,
    active: &mut Option<ActiveCall>,
    call: &Call,
    look: Look,
    page: &Cap,
    caps: &Caps,
    words: &mut W,
) -> Went
    requires own { IsOwn own.old }
    requires room { own.old.made < own.old.limit }
    requires maps { Maps own.old call.now caps.now page.now }
    requires fits { IsCore (W.core words.old) }
    requires stands { W.core words.old ≡ looks own.old call.now 7 look caps.now }
    ensures { ended_so own.new active.old active.new (W.core words.new) (W.last words.new) result }
{
    match place(own, active, call, 7, look, caps, words) {
        Placed::Falls { found } => Went::Falls { found },
        Placed::At { place } => map_place(own, active, call, &place, page, caps, words),
    }
}

// The place that was found is filled with this mapping, after the scan that it waits for.
#[inline(always)]
#[tactic(auto, using(crate::proofs::Sets::mapping_place))]
fn map_place<W: Words>(
    own: &mut Own,
    active: &mut Option<ActiveCall>,
    call: &Call,
    place: &Found,
    page: &Cap,
    caps: &Caps,
    words: &mut W,
) -> Went
    requires own { IsOwn own.old }
    requires room { own.old.made < own.old.limit }
    requires page { page.now.kind ≡ kind.Page }
    requires fits { IsCore (W.core words.old) }
    requires begins { W.core words.old ≡ starting own.old call.now 9
        (quiet_scan (stamp_in place.now.value) own.old.core own.old.layout.cores true) (mapping page.now place.now) caps.now }
    ensures { ended_so own.new active.old active.new (W.core words.new) (W.last words.new) result }
{
    let fill = Fill {
        node: place.node,
        entry: place.entry,
        word: place.word,
        cap: *page,
    };
    let act = Act::Map { fill };
    let quiet = Quiet::page(stamp_in(&place.value), own.core, own.layout.cores());
    match scan(own, active, call, 9, &quiet, &act, caps, words) {
        Scanned::Falls { found } => Went::Falls { found },
        Scanned::Stands => Went::Stands,
        Scanned::Quiet { steps } => map_counted(own, active, call, steps, &fill, &act, caps, words),
    }
}

// The count of the frame is acquired, and the place filled.
#[inline(always)]
#[tactic(auto, using(crate::proofs::Sets::mapping_counted))]
fn map_counted<W: Words>(
    own: &mut Own,
    active: &mut Option<ActiveCall>,
    call: &Call,
    steps: u32,
    fill: &Fill,
    act: &Act,
    caps: &Caps,
    words: &mut W,
) -> Went
    requires own { IsOwn own.old }
    requires room { own.old.made < own.old.limit }
    requires few { steps < 900 }
    requires page { fill.now.cap.kind ≡ kind.Page }
    requires act { act.now ≡ act_of.Map fill.now }
    requires fits { IsCore (W.core words.old) }
    requires begins { W.core words.old
        ≡ stands own.old call.now steps (Undecided (next_work own.old.core 0 (act_of.Map fill.now))) caps.now }
    ensures { ended_so own.new active.old active.new (W.core words.new) (W.last words.new) result }
{
    let frame = fill.cap.frame();
    match acquire(own, active, call, steps, frame, 1, act, caps, words) {
        Acquiring::Falls { found } => Went::Falls { found },
        Acquiring::Holds { count } => map_user(
            own,
            active,
            call,
            steps + 2,
            fill,
            act,
            &count,
            caps,
            words,
        ),
    }
}

// The frame's word is loaded, and the place filled where it is that of a user frame.
#[inline(always)]
#[tactic(auto, using(crate::proofs::Sets::mapping_user))]
fn map_user<W: Words>(
    own: &mut Own,
    active: &mut Option<ActiveCall>,
    call: &Call,
    steps: u32,
    fill: &Fill,
    act: &Act,
    count: &Acquired,
    caps: &Caps,
    words: &mut W,
) -> Went
    requires own { IsOwn own.old }
    requires room { own.old.made < own.old.limit }
    requires few { steps < 950 }
    requires act { act.now ≡ act_of.Map fill.now }
    requires fits { IsCore (W.core words.old) }
    requires stands { W.core words.old
        ≡ counts own.old call.now steps (Undecided (work.Act (act_of.Map fill.now))) caps.now count.now }
    ensures { ended_so own.new active.old active.new (W.core words.new) (W.last words.new) result }
{
    let found = words.make(WordOp::Load {
        at: own.layout.frame_at(fill.cap.frame()),
    });
    if is_user(found) {
        let act = Act::Fill { fill: *fill };
        fill_counted(own, active, call, steps + 1, fill, &act, count, caps, words)
    } else {
        rest_acting_counted(active, call, steps, act, caps, count);
        Went::Falls { found }
    }
}

// Whether a word is that of a user frame that no core has marked.
#[inline(always)]
#[tactic(auto, using(crate::proofs::Sets::reading))]
fn is_user(word: u64) -> bool
    ensures { IsTrue result → IsUserWord word }
{
    match FrameWord::unpack(word) {
        Some(
            FrameWord {
                kind: FrameKind::User,
                object: _,
                mark: None,
            },
        ) => true,
        _ => false,
    }
}
