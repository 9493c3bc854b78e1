//! The interfaces of a link's device, and what they answer to the host; and that each operation of the manager on them,
//! whose exchanges are carried one by one or lost, makes one stated step of both (TDISP, PCI Express Base 6.0 with the
//! ECN's chapter 11, in this profile). Only `DeviceInterfaces::make` takes memory.
#![tactic(auto)]

mod answer;
mod device_interfaces;
mod device_laws;
mod front;
mod laws;
mod replies;
mod said;
mod walk_laws;

pub use device_interfaces::{DeviceInterfaces, StreamStates, TDISP_REPLY_ROOM};
pub use device_laws::errors_change_nothing;
pub use front::stream_named;
pub use laws::keepers_walk;
pub use said::StreamSaid;
pub use walk_laws::{
    exchanges_are_due, operations_are_stated, replies_are_never_bad, reports_are_read, reports_fit,
};
