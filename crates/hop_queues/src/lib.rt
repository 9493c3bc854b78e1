//! TLPs that wait at the switch of a link's hop to be forwarded: for each direction a queue, the first first (this
//! profile).
//!
//! Memory is taken by `HopQueues::room` alone: room for the next TLP is taken ahead of the step that may bring it.
#![tactic(auto)]

mod blank;
mod queue;
mod queues;

pub use queue::{HopQueue, HopTlp, MOST_BYTES};
pub use queues::HopQueues;
