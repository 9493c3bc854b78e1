//! The whole program over a shelf of files and a sink of text.
#![tactic(auto)]

mod codes;
mod laws;
mod packets;
mod texts;
mod top;

pub use codes::exit_code;
pub use file_runs::{End, Fault};
pub use laws::laws_hold;
pub use top::run;
