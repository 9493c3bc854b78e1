//! What stands at each link beside its ports and its device's interfaces: the reads that wait at each port for their
//! answer, the memory behind the base address registers of the device's interfaces, the interfaces' floors, and the TLPs
//! that wait at the switch of its hop (PCI Express Base 6.0 section 6.33 and chapter 11, in this profile).
//!
//! Memory is taken by `make`, `spare` and `room` alone.
#![tactic(auto)]

mod accesses;
mod floors;
mod link;

pub use accesses::Accesses;
pub use floors::Floors;
pub use link::LinkAccesses;
