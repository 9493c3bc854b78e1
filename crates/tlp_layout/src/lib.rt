//! The layout of transaction layer packets (TLPs): headers of 3 or 4 double words and their payload (PCI Express Base
//! 6.0 section 2.2), read with the place of the first fault; headers written; and which stream of its link a TLP takes
//! at a port (section 6.33, in this profile's order).
//!
//! These rules are not the standard's. A reserved bit that is set is refused, and so are TH, TD and
//! EP. Of a configuration request only Length is checked, which is 1. AT is kept at every value. No rule is kept on
//! byte enables, on 4 KiB boundaries or on the payload's size. Routings 6 and 7 are refused. Left out are I/O requests,
//! locked reads, AtomicOps, deferrable memory writes, prefixes, the digest, processing hints, poisoned TLPs, and the
//! headers of flit mode.
#![tactic(auto)]

mod choice;
mod choosing;
mod fault;
mod head;
mod laws;
mod layout;
mod outgoing_tlp;
mod reading;
mod tlp;
mod writing;

pub use choice::{ChosenStream, Way};
pub use choosing::{Table, choose, owner};
pub use fault::TlpFault;
pub use head::{
    CompletionFields, CompletionStatus, ConfigFields, Fields, HeadView, Lead, MemoryFields,
    MessageFields, Routing, TlpKind,
};
pub use ide_types::{OutOfMemory, SubKind};
pub use laws::{head_reading_is_grammar, one_spelling, parts_of_spelling, reading_is_grammar};
pub use layout::{head_size, kind_at};
pub use outgoing_tlp::OutgoingTlp;
pub use reading::{read, read_head};
pub use tlp::{Tlp, TlpView};
pub use writing::write_head;
