//! Key management between the two ends of a line: its seven objects, the calls of a port that it moves, and
//! the device's responder (PCI Express Base 6.0 section 6.33, in this profile).
#![tactic(auto)]

mod laws;
mod object;
mod place;
mod port;
mod reading;
mod responder;
mod status;
mod writing;

pub use laws::{acknowledged_key_stands, reading_is_grammar, written_is_read};
pub use object::{KmFault, KmView};
pub use place::Place;
pub use port::{ProgramFault, SlotPort};
pub use reading::km_read;
pub use responder::Responder;
pub use status::KeyStatus;
pub use writing::km_write;
