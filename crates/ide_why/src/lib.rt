//! What the verdict of an event comes from: facts of the state of a world before it (PCI Express Base 6.0 section 6.33
//! and chapter 11, in this profile).
#![tactic(auto)]

mod arrivals;
mod events;
mod exchanges;
mod interfaces;
mod operations;
mod peers;
mod places;
mod reader;
mod reads;
mod requests;
mod resets;
mod sends;

pub use events::facts;
pub use told_facts::Fact;
pub use why_facts::why_text;
pub use world::World;
