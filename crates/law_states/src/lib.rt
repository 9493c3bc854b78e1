//! Laws of the states of interfaces and of the manager's views of them.
#![tactic(auto)]

mod laws;

pub use laws::{error_law, leaving_law, nonce_law, shown_state_law, state_law, view_law};
