//! The rules that are told of the events of a run, counted by name, and the arrivals at which a tag verified on a unit
//! that its partner had not sealed (this profile).
#![tactic(auto)]

mod counting;
mod coverage;
mod lanes;
mod laws;
mod lines;
mod names;
mod seals;
mod units;
mod unsealed;

pub use coverage::{Before, Coverage, draws};
pub use laws::{forgeries_are_counted, rules_are_listed};
pub use lines::{counts_text, rules_line};
pub use seals::{Base, Seals};
