//! All links of a topology, event by event: both ends of each line, the devices' interfaces, the host's managers of
//! keys and of interfaces, the packets that were sealed, and trusted memory (PCI Express Base 6.0 section 6.33 and
//! chapter 11, in this profile).
#![tactic(auto)]

mod interfaces;
mod links;
mod packets;
mod streams;

pub use line_arrivals::{Arriving, Packets, land};
pub use links::Links;
