//! What is sent, operated and reset at the ends of lines is as the machine of ports has it, and the ends of all lines
//! before the first event are those of its first state: proofs (PCI Express Base 6.0 section 6.33 and chapter 11, in
//! this profile).
//!
//! What stands at each link beside its ports and its device's interfaces, by what becomes of it at an event: the reads
//! that wait, the floors, the memory of the device, and the TLPs that wait at the switch of the link's hop (this
//! profile).
#![tactic(auto)]

mod hops;

pub use all_ends::AllEnds;
pub use hops::clear_hops;
