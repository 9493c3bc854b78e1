//! A port at an end of a line, over all its streams: which stream a TLP takes, what is sealed, what becomes of the
//! bytes that arrive, and the calls of key management (PCI Express Base 6.0 section 6.33, in this profile). Only `make`
//! takes memory.
//!
//! Each of its streams has three sub-streams in both directions, with posted counts, sync packets, the sums by which
//! order is checked, and a status.
#![tactic(auto)]

mod answer;
mod directions;
mod plans;
mod port;
mod send_buffer;
mod stream;
mod trusting;

pub use answer::{Arrival, Sent};
pub use port::{Port, stream_id};
pub use send_buffer::SendBuffer;
pub use stream::{SEND_ROOM, Stream};
pub use stream_lanes::{MeasuredPackets, SendRefusal};
pub use trusting::{FixedTrust, Trusting};
