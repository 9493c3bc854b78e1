//! The events of scripts, and the line that spells each (this profile).
#![tactic(auto)]

mod accesses;
mod ends;
mod event;
mod fault;
mod interfaces;
mod paired;
mod parse;
mod parts;
mod script;
mod words;

pub use ends::Ends;
pub use event::{AccessEvent, Event, InterfaceEvent, Loss, Lost};
pub use fault::{LINE_LIMIT, LineError, LineFault, fault_line};
pub use ide_types::OutOfMemory;
pub use parse::{faults_are_first, lines_spell, parse_line};
pub use script::{HopEvent, PeerEvent, ScriptEvent};
pub use words::{Words, bytes_at, is_printed, split_at_byte, words_of};
