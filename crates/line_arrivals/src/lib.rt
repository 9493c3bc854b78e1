//! Bytes that arrive at the port of an end of any line: which end they meet, and what becomes of them there, also at
//! the switch of a hop. Also the verdicts of the manager's operations, on streams and on interfaces, and of events on
//! interfaces (PCI Express Base 6.0 section 6.33 and chapter 11, in this profile).
#![tactic(auto)]

mod arriving;
mod interface_verdicts;
mod stream_verdicts;

pub use all_ends::{AllEnds, HostKeeper, Packets, send_verdict};
pub use arriving::{Arriving, land};
pub use interface_verdicts::asked_verdict;
pub use stream_verdicts::{named_op, operated_verdict};
