//! What a world keeps of links, interfaces and memory, and that it is a state of the whole machine: definitions and
//! lemmas (PCI Express Base 6.0 section 6.33 and chapter 11, in this profile).
#![tactic(auto)]

pub use whole_links::WholeLinks;
