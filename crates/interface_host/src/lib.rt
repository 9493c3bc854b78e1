//! The host's manager of device interfaces: lock, report, start, halt, state, bind and unbind, exchange by exchange
//! (TDISP, PCI Express Base 6.0 with the ECN's chapter 11, in this profile).
//!
//! One manager serves the interfaces of all links. An operation begins with `begin`; then each exchange is asked with
//! `ask`, carried to the device or lost, and taken with `take`. Operations begin anew each time. Only
//! `Interfaces::make` takes memory.
#![tactic(auto)]

mod facts;
mod interface;
mod interfaces;
mod judge;
mod managed;
mod operation;
mod portions;
mod step;
mod tdi;

pub use facts::InterfaceFacts;
pub use interfaces::Interfaces;
pub use operation::{
    InterfaceOperation, InterfaceOutcome, InterfaceRefusal, InterfaceResult, PeerStream,
};
pub use step::Step;
pub use tdi::{Broken, Doubt, Left, Locked, Running, Tdi, Unlocked};
