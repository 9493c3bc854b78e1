//! Laws of what changes and what does not: a reset leaves nothing behind, most verdicts leave everything, bytes of
//! another stream go through a switch, and an event on a stream leaves all others.
#![tactic(auto)]

mod laws;

pub use laws::{exact_through_law, inert_law, reset_law, streams_apart};
