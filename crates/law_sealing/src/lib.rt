//! What holds of all that is sealed: its places, its posted counts, its totals and fronts.
#![tactic(auto)]

mod laws;

pub use laws::{numbers_fresh, totals_fit};
