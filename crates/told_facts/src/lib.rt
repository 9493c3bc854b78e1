//! What is told of an event beside its verdict: facts of the state before it, and the words of each; and the exchanges
//! that are left to an operation, with their bytes, and what a verdict tells of them.
#![tactic(auto)]

mod fact;
mod interfaces;
mod keys;
mod names;
mod told;

pub use fact::{
    Answer, Fact, InterfaceFact, ManagerState, OperationFact, SetState, StreamFact, push,
};
pub use ide_types::OutOfMemory;
pub use interfaces::{interface_planned, push_interface_exchanges};
pub use keys::{ExchangesLeft, key_draw, push_key_exchanges};
pub use told::push_exchange;
