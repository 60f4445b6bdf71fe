//! The steps of any act, as code: its next step, what it takes from the word found, whether that step decides.
//!
//! Each function computes one of `act_states`, where the types and the definitions stand.
//!
//! **Work.** An undecided call looks up what its plan names, each name in order and then the target: one program for all calls.
//! Then its act begins, which is a call's own (`begin_acts`). A step of the work goes on, refuses or answers. A refusal is
//! a type without `ok`, so that a step which may only refuse carries nothing out, by its type. The steps of each act stand with its
//! family: `make_acts`, `thread_acts`, `frame_acts`; here they are chosen among.
//!
//! **Counts.** An act that changes the references to a frame says which counts it changes, and by how much. Each is acquired
//! before the act's first step, by a load and a compare (`act_counts`).
//!
//! **Copy.** The count of what is copied is acquired; a range names frames without a reference, and no count is. Then the target's
//! entry is compared with the word that this call has loaded there; the compare decides. A target that is quiescing is scanned for
//! before: each other core is out of a call, or has entered its call after the removal.
//!
//! **Grow.** A link to the leaf is put at a root entry as a copy puts its capability, and the leaf's count is acquired. An entry of a page
//! table that is quiescing waits for flushes too: after the other cores all flush words are scanned, the own one among them, since a
//! core may go on by a translation until it flushes.
//!
//! **Map.** The count of the frame is acquired, and the frame's word is loaded, which says that it is a user frame and that no core has
//! marked it; then the place is filled with the mapping as a copy fills its target. A place that is quiescing waits for flushes too.
//!
//! **Remove, shrink, unmap.** The count of what is removed is acquired, the entry is closed, and a stamp is drawn, which decides.
//! Then the entry that quiesces since the stamp is still to be stored.
//!
//! **Retype to user or kernel.** The frame's word is loaded, and compared with the word found, which says that the frame is untyped and
//! that no core has marked it; the compare decides.
//!
//! **Retype to untyped.** The frame's word is loaded, and marked by a compare with the word found, which says that the frame is no untyped
//! one and that no core has marked it. Then its counters are frozen and summed, the cores are scanned that may still use it, and its object
//! is looked at. The counts are acquired of what the object itself refers to, and a stamp is drawn, which decides. After these counts
//! are committed the frozen counters are stored, and then the frame's word: cleared and untyped, or, where the call is refused after the
//! mark, all as they were found.
//!
//! **Make an object.** The frame's word is loaded, and compared with the word found, which says that the frame is a blank kernel frame
//! and that no core has marked it; the compare marks it. Then the counts are acquired that the object changes: that of the frame, and
//! of a thread that of its component. Its words are stored, and the target's entry is compared with the word that this call has loaded
//! there; this compare decides. The frame's word is still to be stored: that of the object, or the word found, where the call is
//! refused after the mark. A target that is quiescing is scanned for before the frame's word is loaded.
//!
//! **Make a component.** So is a component made, with these steps between the counts and its words: the word of its liveness number is
//! loaded, a number that is dead is scanned for since its stamp, and its word is marked by a compare with the word found. After the
//! decision the number's word is stored, live in its next epoch, and then the frame's; a refused call stores as it was found each of the
//! two that it has marked.
//!
//! **Tick.** The head of the core's temporal capability is loaded, and compared with the head found, which no core has marked: with the
//! ticks asked for and those owed less, or with no budget where it has fewer; the compare decides. What is not charged stays owed,
//! also where the call is refused.
//!
//! **Transfer, delegate, test.** The head of the first temporal capability is loaded and marked by a compare, and its list is read; then
//! the head of the second is loaded and its list is read. The step that finds the second head as it was decides: a compare that puts
//! the ticks in it or marks it, or a load. The heads and the list that are to change are still to be stored, or the first head as it was
//! found.
//!
//! **Replenish.** The head is loaded and its list is read. A compare with the head found puts the ticks in, which decides; a list that is
//! better than the core's grant is refused by a second load that finds the head the same. No head is marked, and nothing is to be stored.
//!
//! **Gate.** The component's word is loaded before the target is looked up, and names the epoch that the gate carries. Then the target
//! is filled, as by a copy; the count is that of the component's frame.
//!
//! **Flush.** The clock is loaded, which decides: the core drops its cached translations. The core's flush word is still to be stored,
//! with the clock that was loaded.
//!
//! **Kill.** The component's word is loaded, which names its liveness number and its epoch, and the number's word, which says that the
//! component lives. Then the count of the component's frame is acquired, the number's word is marked by a compare with the word found, and
//! a stamp is drawn, which decides. The number's word is still to be stored: dead since the stamp.
//!
//! **Call.** The words of the gate's component are loaded: its table, its pages and its liveness number. The count of its frame is
//! acquired, and the number's word is loaded, which decides: the component lives in the gate's epoch. The component is still to be pushed
//! onto the stack of the core's thread. A stack of depth 16 is full, which is known where the gate is found.
//!
//! **Ret.** The component below the top of the stack is loaded, and its table and its pages. The count of the top's frame is acquired, and
//! a stamp is drawn, which decides. The top is still to be popped. A stack of depth 1 has nothing below, which is known at the first step.
//!
//! **Switch.** The thread's word is loaded, and claimed by a compare with the idle word found; then the component at the top of its stack
//! is loaded, with its table and its pages. The counts are acquired of both threads, and of both temporal capabilities where they differ.
//! The word of the core's own thread is stored as claimed, and a stamp is drawn, which decides. Both threads' words are still to be stored:
//! running, and idle. A call that is refused after the claim has the thread's word still to store, idle as it was.
//!
//! **Refusals.** A refusal decides at the first step by which it is known and every earlier cause is judged: of each name in
//! written order `no-slot`, `empty` and `wrong-cap`, then of the target `no-slot` and `occupied`, then what the act asks:
//! `out-of-range` of a frame that is not in the range, and `frame-kind` of one that is not untyped, or for an object not blank; `dead` of a
//! component that does not live, and of the number of one that is made `occupied`, `quiescing` and `epochs-spent`; `running` of a thread
//! that runs. A lost compare is `raced`.
//!
//! **A call more** adds a line to each function of `acts`: the act's next step, what it takes, whether that step decides; and below, to
//! `begin_act` where its act begins, and to `due` which counts it changes.
//!
//! See docs/FORMATS.md, 'Steps of calls', and docs/CLAIMS.md, 'Steps of calls'.
#![tactic(auto)]

mod acts;
mod moves;

pub use acts::{act_op, act_ready, act_took};
pub use moves::act_moves;
