//! The law of guarded memory: what is shown of the memory of a device's interfaces, and what changes it.
#![tactic(auto)]

mod laws;

pub use laws::mmio_law;
