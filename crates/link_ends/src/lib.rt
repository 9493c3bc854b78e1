//! The two ends of a link: the host's port, and the device with its port, the responder of key management that moves
//! its slots, and its interfaces. The two ends of a line that is keyed by messages at both: a stream between two
//! devices, or the segment of a hop between its switch and the device. And the host's managers, with the exchanges that
//! they carry between the ends (PCI Express Base 6.0 section 6.33 and chapter 11, in this profile). Only `make` takes
//! memory.
#![tactic(auto)]

mod device;
mod end;
mod ends;
mod host;
mod interface_keeper;
mod keeper;
mod pair;
mod wiring;

pub use device::Device;
pub use end::LineEnd;
pub use ends::LinkEnds;
pub use host::HostKeeper;
pub use interface_keeper::InterfaceKeeper;
pub use keeper::{KeyKeeper, lost_at};
pub use pair::PairEnds;
pub use wiring::{BoundOwners, NoPeers, PeerStreams};
