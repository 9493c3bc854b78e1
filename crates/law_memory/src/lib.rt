//! Laws of interfaces, of trusted memory, and of the origin of what stands in it.
#![tactic(auto)]

mod laws;

pub use laws::{
    interfaces_have_causes, memory_law, origin_law, read_law, read_origin_law, run_law,
};
