//! Laws of single bytes: which byte of key stream masks each, and where each comes from. Also which draws a stream, an
//! interface's floor and a binding's floor can have, and that an interface was in no other RUN since a packet for it
//! was sealed (PCI Express Base 6.0 section 6.33 and chapter 11, in this profile). The laws of single verdicts and of
//! locks are passed on.
#![tactic(auto)]

mod laws;

pub use law_verdicts::{
    answer_law, answers_law, effect_law, failed_law, lock_law, named_law, one_lock_per_key,
    reports_are_shown, unlocked_is_scrubbed, views_are_true,
};
pub use laws::{byte_origin, keystream_fresh, mmio_origin_law};
