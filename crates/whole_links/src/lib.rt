//! All links of a topology as they run, with the reads that wait for their answer, the memory of their devices and the
//! TLPs that wait at switches, event by event (PCI Express Base 6.0 section 6.33 and chapter 11, in this profile).
#![tactic(auto)]

mod interfaces;
mod packets;
mod reads;
mod reply;
mod switches;
mod verdicts;
mod whole;

pub use packets::Passage;
pub use whole::WholeLinks;
