//! Laws of what goes out of a port.
#![tactic(auto)]

mod laws;

pub use laws::{choice_law, cover_law, exact_trust_law, sealed_comes_from, send_law};
