//! What happened on the links, said of a whole history of events with their verdicts: what was sealed, what arrived,
//! which keys were Live, and the one verdict that each event gets.
#![tactic(auto)]

mod cause;
mod memory;

pub use cause::one_history;
pub use memory::contents_follow;
