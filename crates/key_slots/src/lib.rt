//! Keys, the pool that draws take them from, and the two key slots of one sub-stream in one direction (PCI
//! Express Base 6.0 section 6.33, in this profile).
//!
//! A key is moved from place to place, and never copied: in a slot it stands beside its prepared cipher, and
//! leaves with it. Only `KeyPool::make` and `Slots::make` take memory. No key is erased from memory.
#![tactic(auto)]

mod key;
mod pool;
mod slot;
mod slots;
mod wires;

pub use key::Key;
pub use pool::{HostSix, KeyPool, KeySix, MAX_KEYS, PoolEmpty, WireSix};
pub use slot::SlotState;
pub use slots::{OnlyLive, SlotEmpty, Slots};
pub use wires::Wires;
