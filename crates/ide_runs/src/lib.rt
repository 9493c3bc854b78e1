//! Scripts that are run on a topology with what their verdicts came from: one event that is told, each event with its
//! reasons, and how often each rule answered.
#![tactic(auto)]

mod covering;
mod explaining;
mod telling;

pub use covering::cover;
pub use explaining::{Explained, explain_script_event};
pub use telling::why;
