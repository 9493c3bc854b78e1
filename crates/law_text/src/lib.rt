//! The text of a run: the history of a list of events, its verdict lines and its totals; and what it tells: a history
//! that is read from its lines has the verdicts that are due (this profile).
#![tactic(auto)]

mod laws;

pub use laws::{due_fits, lines_tell};
