//! What a picture says: laws of its arrows, of every legal trace, and of its rows, so that what a reader sees is a theorem.
//!
//! Each is the contract of a function without a body. Those of arrows speak of a page that has taken all steps of the trace before the
//! one that is drawn: as long as a page grows it has, and once it is cut nothing more is drawn.
//!
//! See docs/FORMATS.md, 'Pictures'.
#![tactic(auto)]

ghost use Rattle.arrow_laws.specs.Arrows.{HeadsFindTails, LinesOverlap, RacesAreLines};
ghost use Rattle.arrow_laws.specs.Rows.{RowsAreApart};

/// The head of an arrow finds what its tail left: the tail is the newest change of the word, and another core's.
#[tactic(auto, using(crate::proofs::Heads::heads_find_tails))]
pub fn heads_find_tails()
    ensures { HeadsFindTails }
{}

/// An arrow is a line exactly where its two calls overlap: where the call of the tail had not returned when that of the head was entered.
#[tactic(auto, using(crate::proofs::Lines::lines_overlap))]
pub fn lines_overlap()
    ensures { LinesOverlap }
{}

/// Each call that is answered `raced` has a line, from a step that is later than the call's own entry.
#[tactic(auto, using(crate::proofs::Races::races_are_lines))]
pub fn races_are_lines()
    ensures { RacesAreLines }
{}

/// Of two steps of a page the later one is not above the earlier one; texts are 17 pixels apart, and of a core's events each is as far
/// below the one before as its mark and its text ask.
#[tactic(auto, using(crate::proofs::Apart::rows_are_apart))]
pub fn rows_are_apart()
    ensures { RowsAreApart }
{}
