//! The memory behind the base address registers of a device's interfaces, which a lock guards: while an interface is in
//! CONFIG_LOCKED or RUN, a range that is not open admits only trusted writes on the interface's bound stream
//! (PCI Express Base 6.0 chapter 11, in this profile). A device that answers reads of it shows it to the same requests.
//!
//! Memory is taken by `Guarded::make` and `spare` alone.
#![tactic(auto)]

mod causes;
mod claimed_memory;
mod claims;
mod device_reads;
mod guarded;
mod laws;
mod names;
mod sizes;
mod status;
mod statuses;

pub use causes::mmio_cause;
pub use claimed_memory::ClaimedMemory;
pub use claims::{Claim, claim_of};
pub use device_reads::{judge_read, least_draw, offer_read};
pub use guarded::Guarded;
pub use laws::{guarded_bytes_stay, happenings_in_turn, mmio_cases};
pub use status::{InterfaceState, InterfaceStatus};
pub use statuses::Statuses;
