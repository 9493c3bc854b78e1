//! A device interface: its registers, its four states, what a lock keeps, and the report of that lock (TDISP, PCI
//! Express Base 6.0 with the ECN's chapter 11, in this profile). Only `Interface::make` takes memory.
#![tactic(auto)]

mod bars;
mod bindings;
mod device_interface;
mod error_codes;
mod laws;
mod register_set;
mod report_buffer;
mod states;

pub use bindings::Bindings;
pub use device_interface::Interface;
pub use error_codes::ErrorCode;
pub use ide_types::{Binding, Register};
pub use laws::{
    bindings_end, listed_changes, listed_is_kept, overlaps_are_shared, reports_are_spelled,
    states_are_entered, widths_are_kept,
};
pub use register_set::Registers;
pub use report_buffer::REPORT_BYTES;
pub use states::{Lock, TdiState};
