//! Laws of honest links: what arrives unchanged, and in the order in which it was sealed, is taken.
#![tactic(auto)]

mod laws;

pub use laws::{fresh_law, honest_delivery, honest_law, pass_law, whole_law_by_order};
