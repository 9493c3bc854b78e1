//! Device interfaces, the manager's views of them and the verdicts of their events, over whole histories; and their
//! laws.
#![tactic(auto)]

mod laws;

pub use laws::{bind_law, interface_run_law, views_hold};
