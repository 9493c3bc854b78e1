//! What each state of a stream says of its keys, and how operations end.
#![tactic(auto)]

mod laws;

pub use laws::{
    ended_keys_stay_out, keys_follow_operations, operations_settle, set_go_finds_key,
    stream_stays_secure,
};
