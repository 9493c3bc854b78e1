//! Operations on streams, exchange by exchange at both ends, give what the machine of ports says at once.
#![tactic(auto)]

mod laws;

pub use laws::{calls_are_told, operations_join, pair_operations_join};
