//! A confidential guest's memory at the host: regions that admit only trusted writes of running interfaces; and the
//! trusted reads of it that wait for their answer, with the completions that answer them (PCI Express Base 6.0 chapter
//! 11 and sections 2.2.7 and 2.2.9, in this profile).
//!
//! Memory is taken by `Trusted::make`, `Reads::make`, `spare` and `fill` alone.
#![tactic(auto)]

mod blanks;
mod causes;
mod completion;
mod grant;
mod laws;
mod page;
mod queue;
mod read;
mod read_laws;
mod regions;
mod showing;
mod span;
mod trusted;
mod write;

pub use blanks::fill;
pub use causes::{block_cause, grant_cause, place_cause};
pub use completion::{COMPLETION_BYTES, complete};
pub use grant::Grant;
pub use laws::{admitted_are_applied, packets_in_turn, writes_in_turn};
pub use page::{PAGE_BYTES, Page};
pub use queue::{MOST_WAITING, ReadArrival, ReadTarget, Reads, WaitingRead};
pub use read::MemReadView;
pub use read_laws::{answer_cases, completions_are_read, completions_show_enabled_bytes};
pub use showing::ShownMemory;
pub use span::Span;
pub use trusted::Trusted;
pub use write::MemWriteView;
