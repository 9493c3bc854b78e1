//! Scripts and generated events that are run on a topology, with or without the packets that are sealed; texts that are
//! judged by scripts; and topologies that are read, checked and migrated.
#![tactic(auto)]

mod generated;
mod judging;
mod packets;
mod script;
mod topologies;

pub use generated::generate;
pub use judging::judge;
pub use packets::run_packets;
pub use script::{Running, ScriptWork, asked, run_files};
pub use topologies::{Loaded, check_topology, load, load_bytes, migrate_topology, refusal, refuse};
pub use world::World;
