//! The plan that a topology's text means, or its first fault.
#![tactic(auto)]

mod draft;
mod interfaces;
mod line;
mod links;
mod migration;
mod pairs;
mod reading;
mod rules;
mod streams;

pub use line::fault_line;
pub use migration::{migrate, migrated_plan};
pub use reading::read;
pub use toml_walk::{PlanError, PlanFault};
