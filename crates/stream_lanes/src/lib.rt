//! The senders and the receivers of one IDE stream at a port, by sub-streams: posted counts, sync packets, and the sums
//! by which order is checked (PCI Express Base 6.0 section 6.33, in this profile). Only `make` takes memory.
#![tactic(auto)]

mod fixed;
mod list;
mod receive_lanes;
mod refusal;
mod send_lanes;

pub use fixed::Fixed;
pub use list::MeasuredPackets;
pub use receive_lanes::{ReceiveLanes, failed};
pub use refusal::SendRefusal;
pub use send_lanes::SendLanes;
