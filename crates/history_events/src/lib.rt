//! The event of a history that an event of a script is, in a topology: lines and ends in place of links, of hops and of
//! streams between devices. Also events that are made by a recurrence from a seed, the topology that they are for, and
//! both as texts with what these read as (this profile).
#![tactic(auto)]

mod event;
mod generated_laws;
mod generated_plan;
mod generator;
mod keys;
mod numbers;
mod reading_laws;
mod resets;
mod round;
mod script_lines;
mod step;
mod streams;
mod topology_lines;

pub use event::{event_of, events_are_allowed};
pub use generated_laws::generated_are_allowed;
pub use generated_plan::topology;
pub use generator::Generator;
pub use ide_types::OutOfMemory;
pub use keys::numbered_keys;
pub use reading_laws::texts_are_read;
pub use script_lines::script_text;
pub use topology_lines::topology_text;
