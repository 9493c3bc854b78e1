//! The verdicts of events, and their lines: each verdict has one line, and two verdicts with one line are equal; why
//! the binding of an interface blocks a packet (this profile).
#![tactic(auto)]

mod access;
mod access_lines;
mod causes;
mod interface_lines;
mod lines;
mod lists;
mod names;
mod showing;
mod verdict;

pub use access::AccessVerdict;
pub use causes::{binding_cause, stale_cause};
pub use ide_types::OutOfMemory;
pub use lines::{line, lines_apart, totals_line};
pub use lists::{Effects, SealedPackets};
pub use showing::shown;
pub use verdict::{BlockCause, Effect, Operation, SealedPacket, Totals, UnitName, Verdict};
