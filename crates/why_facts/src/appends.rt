//! What of values is appended to the facts that a verdict comes from: of streams, interfaces, ranges of memory,
//! operations and packets as they are seen (PCI Express Base 6.0 section 6.33 and chapter 11, in this profile).

pub mod faces;
pub mod memory;
pub mod operations;
pub mod packets;
pub mod places;
pub mod sends;
pub mod streams;
