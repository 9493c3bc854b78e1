//! The host's manager of key management: its operations on streams, exchange by exchange, resumed after any loss
//! (PCI Express Base 6.0 section 6.33, in this profile).
//!
//! One manager serves all lines. An operation begins with `begin`; then each exchange is asked with `ask`, carried to
//! the end that it is for or lost, and taken with `take`. Only `Manager::make` takes memory.
#![tactic(auto)]

mod exchange;
mod facts;
mod judge;
mod laws;
mod local;
mod manager;
mod operation;
mod port;
mod stage;
mod stream;

pub use event_verdicts::Operation;
pub use facts::StageFacts;
pub use laws::{pairs_fit, walks_are_due};
pub use manager::Manager;
pub use operation::{ExchangeReply, NamedOperation, StreamOutcome, StreamRefusal, StreamResult};
pub use port::HostPort;
