//! The world of a run: all links, hops and streams between devices of a topology with the devices' interfaces, both
//! managers and trusted memory, one event after another. Each verdict is the one that is due after the events before it
//! (PCI Express Base 6.0 section 6.33 and chapter 11, in this profile).
#![tactic(auto)]

mod world;

pub use join_accesses::WholeLinks;
pub use world::World;
