//! The law of the hops of links through switches, over whole histories.
#![tactic(auto)]

mod laws;

pub use laws::{forward_sends, hop_law};
