//! The keys of lines over whole histories: all that the machine of ports and the laws use of them.
#![tactic(auto)]

mod facts;

pub use facts::{draws_hold, facts_hold, keys_have_causes};
