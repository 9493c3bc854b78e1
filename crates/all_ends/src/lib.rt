//! The ends of all lines of a topology: those of its links with their devices' interfaces, those of the segments of
//! their hops, and those of the streams between devices; and the packets that they sealed, by their numbers (PCI
//! Express Base 6.0 section 6.33 and chapter 11, in this profile).
//!
//! Memory is taken by `AllEnds::make` and `Packets::reserve` alone.
#![tactic(auto)]

mod all_ends;
mod making;
mod packets;
mod peers;
mod places;
mod sending;

pub use all_ends::AllEnds;
pub use arrival_verdicts::send_verdict;
pub use link_ends::{HostKeeper, lost_at};
pub use packets::Packets;
pub use places::{LinePlace, line_place};
