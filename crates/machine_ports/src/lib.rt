//! The ports of all links as a machine: what is kept between two events, one step, and that it stays what the whole
//! history says at sends and arrivals.
#![tactic(auto)]

mod stands;

pub use stands::{packets_stand, through_stays};
