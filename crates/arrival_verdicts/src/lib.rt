//! Verdicts of sends and of arrivals, and what an accepted unit makes of what stands beside the ports: trusted memory,
//! reads that wait, the memory of devices' interfaces, and TLPs that wait at a switch (PCI Express Base 6.0 section
//! 6.33 and chapter 11, in this profile).
//!
//! A stream is named at an end of its line; faults of bytes, plain TLPs and effects go by the port that the end is at.
#![tactic(auto)]

mod switches;
mod verdicts;

pub use switches::switch_verdict;
pub use verdicts::{ReceivingPort, send_verdict, taken_verdict};
