//! The steps by which a call reads two temporal capabilities, or gives ticks back to one, keep the invariant of the step machine.
//!
//! **One moment.** The head of the first, A, is marked, by which no other core changes A or its list. The head of the second, B, is read,
//! and then its list; each change of B's list by another core raises B's version, or stands under a mark in B's head. So where the head is
//! found again as it was read, B's list is the one that was read, and what the lists and the budgets lead to is true of that moment.
//!
//! **What a move changes.** The budgets and the list of the state after it, and that references, places and sums stay.
//!
//! **Ticks given back.** The head and the list of one are read in the same way, but without a mark; the compare that finds the head again
//! puts the ticks in, and a second load that finds it again refuses the list.
//!
//! The lemmas stand in this crate's proofs.
//!
//! See docs/PROOF.md, 'Two temporal capabilities' and 'Time: a replenishment'.
#![tactic(auto)]
