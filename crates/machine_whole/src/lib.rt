//! Device interfaces and the manager's views of them as a machine; the ports of all links and these as one machine; and
//! that each stands for the whole history.
#![tactic(auto)]

mod interfaces;
mod stands;

pub use interfaces::faces_stand;
pub use stands::{whole_begins, whole_steps};
