//! Worked cases of scripts, of device interfaces, of memory at hosts and at devices, and of hops, computed from the
//! definition of the verdict that is due (this profile).
#![tactic(auto)]

mod on_hops;
mod on_interfaces;
mod on_memory;
mod on_scripts;

pub use on_hops::hop_cases;
pub use on_interfaces::interface_cases;
pub use on_memory::{device_read_cases, memory_cases, mmio_cases, read_cases};
pub use on_scripts::{
    closed_stream, forged_write_is_of_one_sub_stream, good_history_forges_nothing,
    late_packet_of_the_older_key, lost_reply_and_refresh_again, older_draw_stays_gone,
    read_waits_for_its_write, sync_packets_go_first, two_packets_are_one_unit,
    write_is_accepted_once, write_is_altered, write_is_missing,
};
