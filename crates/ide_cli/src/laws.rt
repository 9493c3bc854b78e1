//! The laws, each from the crate that has it.

ghost use Rattle.ide_cli.specs.Laws.{LawsHold};

use law_bindings::{
    bindings_are_asked, bindings_hold_keys, bindings_last, one_lock_per_peer_key,
    one_lock_per_stored_key, peer_origin_law, peer_store_law, peers_are_never_stale,
    stops_break_views, streams_stand_alone, trusted_on_all_streams, verdicts_tell_bindings,
};
use law_bytes::{
    answer_law, answers_law, byte_origin, effect_law, failed_law, keystream_fresh, lock_law,
    mmio_origin_law, named_law, one_lock_per_key, reports_are_shown, unlocked_is_scrubbed,
    views_are_true,
};
use law_changes::{exact_through_law, inert_law, reset_law, streams_apart};
use law_crossings::{hop_order_law, hop_posted_law, hop_trust_law};
use law_delivery::{
    count_law, delivery_law, draws_never_fall, order_is_no_forgery, order_law, prefix_law,
    whole_law,
};
use law_device_reads::{
    device_effect_law, device_read_law, device_read_origin_law, exposure_law, respond_law,
    response_origin_law,
};
use law_honest::{fresh_law, honest_delivery, honest_law, pass_law, whole_law_by_order};
use law_hops::hop_law;
use law_key_facts::keys_have_causes;
use law_key_use::{
    forgeries_are_of_cipher, key_limits, keys_in_use, refresh_takes, stop_takes_keys,
};
use law_keys::{
    ended_keys_stay_out, keys_follow_operations, operations_settle, set_go_finds_key,
    stream_stays_secure,
};
use law_memory::{
    interfaces_have_causes, memory_law, origin_law, read_law, read_origin_law, run_law,
};
use law_mmio::mmio_law;
use law_outcomes::{block_law, fail_law, operation_law, recovery_law, shown_law};
use law_sealing::{numbers_fresh, totals_fit};
use law_sending::{choice_law, cover_law, exact_trust_law, sealed_comes_from, send_law};
use law_states::{error_law, leaving_law, nonce_law, shown_state_law, state_law, view_law};
use spec_interfaces::{bind_law, views_hold};

/// All laws hold of every history in which each verdict is the one that is due.
pub fn laws_hold()
    ensures { LawsHold }
{
    totals_fit();
    keys_have_causes();
    interfaces_have_causes();
    numbers_fresh();
    keystream_fresh();
    choice_law();
    cover_law();
    exact_trust_law();
    send_law();
    sealed_comes_from();
    operations_settle();
    stream_stays_secure();
    keys_follow_operations();
    set_go_finds_key();
    ended_keys_stay_out();
    keys_in_use();
    stop_takes_keys();
    refresh_takes();
    key_limits();
    forgeries_are_of_cipher();
    draws_never_fall();
    whole_law();
    whole_law_by_order();
    honest_law();
    honest_delivery();
    fresh_law();
    pass_law();
    order_is_no_forgery();
    count_law();
    prefix_law();
    delivery_law();
    order_law();
    streams_stand_alone();
    run_law();
    reports_are_shown();
    lock_law();
    unlocked_is_scrubbed();
    state_law();
    shown_state_law();
    leaving_law();
    nonce_law();
    error_law();
    views_hold();
    views_are_true();
    view_law();
    trusted_on_all_streams();
    memory_law();
    effect_law();
    read_law();
    answer_law();
    answers_law();
    one_lock_per_key();
    origin_law();
    read_origin_law();
    byte_origin();
    mmio_law();
    one_lock_per_stored_key();
    mmio_origin_law();
    device_read_law();
    device_effect_law();
    respond_law();
    exposure_law();
    device_read_origin_law();
    response_origin_law();
    bind_law();
    bindings_are_asked();
    bindings_last();
    verdicts_tell_bindings();
    stops_break_views();
    bindings_hold_keys();
    peers_are_never_stale();
    one_lock_per_peer_key();
    peer_origin_law();
    peer_store_law();
    hop_law();
    exact_through_law();
    hop_trust_law();
    hop_order_law();
    hop_posted_law();
    inert_law();
    reset_law();
    streams_apart();
    named_law();
    failed_law();
    fail_law();
    block_law();
    shown_law();
    operation_law();
    recovery_law();
}
