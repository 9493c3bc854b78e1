//! Where packets go in a topology: at which port the end of a line is, at which end a TLP that is sent there is sealed,
//! and which end the bytes that arrive there meet (PCI Express Base 6.0 section 6.33, in this profile).
#![tactic(auto)]

mod arrivals;
mod hops;
mod ports;
mod sends;

pub use arrivals::{goes_through, reached};
pub use hops::{clears_hop, has_hop, leaving_end};
pub use ports::{at_switch, has_port, may_send, partner, port_of};
pub use sends::sealing_end;
