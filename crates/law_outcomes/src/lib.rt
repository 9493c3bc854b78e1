//! Laws of outcomes: what verdicts show, why arrivals fail and accesses are blocked, which operations succeed, and that
//! every interface can be brought to RUN again.
#![tactic(auto)]

mod laws;

pub use laws::{block_law, fail_law, operation_law, recovery_law, shown_law};
