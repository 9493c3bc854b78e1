//! Bytes that arrive at an end of any line, and operations on streams: what they make of the ends, of trusted memory
//! and of what stands at each link, as the machine of ports and the histories have it. Also at which ends of a topology
//! bytes arrive, and what a unit has that is accepted at the switch of a hop (PCI Express Base 6.0 section 6.33 and
//! chapter 11, in this profile).
#![tactic(auto)]

mod arriving;

pub use arriving::bytes_arrive;
pub use join_ends::AllEnds;
