//! Reads files of rows: each row is a script, a command, and the status and the text that are due.
//!
//! **A file** has lines. One that begins with `# ` is a comment, and an empty one is passed over. `== SENTENCE` begins a group of rows
//! and says what they show. `-- WORD ..` begins a section, which goes on to the next line of either kind. What stands before the first
//! group holds for all groups of the file.
//!
//! **Most sections set something** for the rows after them in their group, until it is set again:
//!
//! - `-- by COMMAND, COMMAND ..`: each row is run by each of these (at first `replay`); `""` is an empty word;
//! - `-- machine`: the lines with which each script begins;
//! - `-- calls`: the script's lines after these;
//! - `-- script`: the whole script;
//! - `-- first`: the reply lines with which each text begins;
//! - `-- start`: the tables that the next section speaks of, and that each text ends with;
//! - `-- tables`: what is other in the tables (see `tables`);
//! - `-- status N`: the exit status that is due (at first 0);
//! - `-- ends NAME=N ..`: the most bytes of a read and of a write (`read`, `write`), the first read and the first write that fail
//!   (`read_fails`, `write_fails`), and the room of the sink (`room`);
//! - `-- front N`: of each text the first N bytes alone are due;
//! - `-- times N`: how often each row is run.
//!
//! **Three make rows**; their lines are what is due:
//!
//! - `-- case`: the replies after the first ones, where the script ends with the calls. The tables follow;
//! - `-- order ITEMS`: the same, where the script ends with an order; one row for each order that the items stand for (see `orders`);
//! - `-- whole`: the whole text.
//!
//! **A column**: `-- each NAME | NAME ..`, the first section of a group, has a line of values, parted by ` | `, for each time that the
//! rest of the group is read; there `{NAME}` stands for the value.
//!
//! **Lines** of scripts and texts are read by `texts`: a line that stands for many, and bytes that a file of text cannot hold.
#![tactic(auto)]

mod fault;
mod orders;
mod rows;
mod sections;
mod tables;
mod texts;

pub use fault::Fault;
pub use rows::{Ends, Row, rows_of};
