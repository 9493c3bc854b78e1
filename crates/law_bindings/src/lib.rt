//! Laws of bindings of device interfaces to streams between devices: who asked for them, what verdicts tell of them,
//! under which key they stand, and which lock trusted packets on such streams belong to. Also all that stands of one
//! stream of which no tag was forged (TDISP, PCI Express Base 6.0 chapter 11, in this profile).
#![tactic(auto)]

mod laws;

pub use laws::{
    bindings_are_asked, bindings_hold_keys, bindings_last, one_lock_per_peer_key,
    one_lock_per_stored_key, peer_origin_law, peer_store_law, peers_are_never_stale,
    stops_break_views, streams_stand_alone, trusted_on_all_streams, verdicts_tell_bindings,
};
