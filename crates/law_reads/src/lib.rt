//! Trusted reads over whole histories: they are answered in the order in which they were queued; and what waits at the
//! switches of links.
#![tactic(auto)]

mod laws;

pub use laws::{reads_in_order, waiting_follows};
