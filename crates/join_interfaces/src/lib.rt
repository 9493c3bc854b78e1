//! An operation of the manager on an interface, carried exchange by exchange to the device that has it, gives the
//! verdict that is due, and leaves manager and device as the machine of interfaces does. Also to which streams the
//! interfaces of a device are bound, and what the device says of them (TDISP, PCI Express Base 6.0 chapter 11, in this
//! profile). Definitions, lemmas and one theorem.
#![tactic(auto)]

mod joined;

pub use joined::interface_operations_join;
