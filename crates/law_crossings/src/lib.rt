//! Laws of what crosses hops: nothing is trusted there, and what comes through keeps its order and its content.
#![tactic(auto)]

mod laws;

pub use laws::{hop_order_law, hop_posted_law, hop_trust_law};
