//! A copy.

ghost use Rattle.std.specs.Prelude.{◌≡◌, ◌<◌, ◌≤◌, [], IfSome, IsTrue};
ghost use Rattle.straight_acts.specs.Acting.{Fills, IsVacant, IsVacantFor, ShowsVacant};
ghost use Rattle.straight_looks.specs.Outcomes.{ended_so, went_so};
ghost use Rattle.straight_looks.specs.Standing.{looks, stands};
ghost use Rattle.straight_looks.specs.step_starts.specs.call_stages.specs.Fits.{IsCore, IsOwn};
ghost use Rattle.straight_looks.specs.step_starts.specs.call_stages.specs.declared.stages.Stage.TheVariants.{Enter};
ghost use Rattle.straight_looks.specs.step_starts.specs.stage_look.specs.declared.look.Look.TheVariants.{AtRoot};

use crate::fills::fill_free;
use act_counts::act_states::Own;
use act_counts::act_states::call_plans::{Caps, Name, Wanted};
use act_counts::act_states::entry_words::Entry;
use act_counts::act_states::stage_look::{Found, Look};
use act_counts::act_states::stage_quiet::Quiet;
use call_stages::ActiveCall;
use spk_nums::{Call, Cap, CapId, EntryNo, FrameNo, Kind, Rights};
use straight_looks::{Asked, Followed, Named, Went, Words, ask, follow, name, rest_looking};

/// Makes a copy straight through.
#[inline(never)]
#[tactic(auto, using(crate::proofs::Sets::copying))]
pub fn copy<W: Words>(
    own: &mut Own,
    active: &mut Option<ActiveCall>,
    call: &Call,
    words: &mut W,
) -> Went
    requires own { IsOwn own.old }
    requires room { own.old.made < own.old.limit }
    requires begins { W.core words.old ≡ stands own.old call.now 0 Enter [] }
    ensures { went_so own.old own.new active.old active.new (W.core words.old) (W.core words.new) (W.last words.new) result }
{
    let Call::Copy { a, t, b, rights } = *call else {
        return Went::Plainly;
    };
    if 4095 < a.number() || 4095 < t.number() || 4095 < b.number() {
        return Went::Plainly;
    }
    match ask(own, active, call, words) {
        Asked::Falls { found } => return Went::Falls { found },
        Asked::Lives => {}
    }
    let mut caps = Caps::none();
    let any = Name {
        number: a,
        wanted: Wanted::Any,
        needs: Rights::COPY,
    };
    let cap = match name(own, active, call, 3, &any, &caps, words) {
        Named::Falls { found } => return Went::Falls { found },
        Named::Finds { cap } => cap,
    };
    caps.push(cap);
    let table = Name {
        number: t,
        wanted: Wanted::Only { kind: Kind::Table },
        needs: Rights::USE,
    };
    let root = match name(own, active, call, 5, &table, &caps, words) {
        Named::Falls { found } => return Went::Falls { found },
        Named::Finds { cap } => cap,
    };
    caps.push(root);
    copy_into(
        own,
        active,
        call,
        root.frame(),
        b,
        &cap.keep(rights),
        &caps,
        words,
    )
}

// The capability is put into this place of the table.
#[inline(always)]
#[tactic(auto, using(crate::proofs::Sets::copying_into))]
fn copy_into<W: Words>(
    own: &mut Own,
    active: &mut Option<ActiveCall>,
    call: &Call,
    root: FrameNo,
    number: CapId,
    cap: &Cap,
    caps: &Caps,
    words: &mut W,
) -> Went
    requires own { IsOwn own.old }
    requires room { own.old.made < own.old.limit }
    requires number { number ≤ 4095 }
    requires fills { Fills own.old call.now caps.now cap.now }
    requires fits { IsCore (W.core words.old) }
    requires stands { W.core words.old ≡ looks own.old call.now 7 (AtRoot root number) caps.now }
    ensures { ended_so own.new active.old active.new (W.core words.new) (W.last words.new) result }
{
    let place = Look::place(root, number);
    match follow(own, active, call, 7, place, caps, words) {
        Followed::Falls { found } => Went::Falls { found },
        Followed::Leads { look } => {
            let found = words.make(look.next(&own.layout));
            match free_at(own, &look, found) {
                None => {
                    rest_looking(active, call, 8, look, caps);
                    Went::Falls { found }
                }
                Some(place) => fill_free(own, active, call, 9, &place, cap, caps, words),
            }
        }
    }
}

// The place of a look-up that stands at a leaf, where the word found there shows that it is free and waits for no core.
#[inline(always)]
#[tactic(auto, using(crate::proofs::Sets::vacancies))]
fn free_at(own: &Own, look: &Look, word: u64) -> Option<Found>
    requires { IsOwn own.now }
    ensures { IfSome result (λ place. IsVacant own.now look.now word place) }
{
    match *look {
        Look::AtLeaf { leaf, number } => match vacant(own, word) {
            None => None,
            Some(value) => Some(Found {
                node: leaf,
                entry: EntryNo::new(number.number() % 64),
                word,
                value,
            }),
        },
        _ => None,
    }
}

// What a word shows that is one of a place that is free and waits for no core.
#[inline(always)]
#[tactic(auto, using(crate::proofs::Sets::vacancies))]
fn vacant(own: &Own, word: u64) -> Option<Entry>
    requires { IsOwn own.now }
    ensures { IfSome result (λ value. ShowsVacant own.now word value) }
{
    match Entry::unpack(word) {
        None => None,
        Some(entry) => {
            if is_vacant(own, &entry) {
                Some(entry)
            } else {
                None
            }
        }
    }
}

// Whether a place is free and waits for no core.
#[inline(always)]
fn is_vacant(own: &Own, entry: &Entry) -> bool
    requires { IsOwn own.now }
    ensures { IsTrue result → IsVacantFor own.now entry.now }
{
    match *entry {
        Entry::Free => true,
        Entry::Quiescing { stamp } => match Quiet::entry(stamp, own.core, own.layout.cores()) {
            None => true,
            Some(_) => false,
        },
        _ => false,
    }
}
