//! What stands at each link for reads and for the memory of its device is a state of the whole machine, and so it is
//! after each event: proofs (PCI Express Base 6.0 chapter 11, in this profile).
#![tactic(auto)]

pub use join_world::WholeLinks;
