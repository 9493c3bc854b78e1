//! Laws of single verdicts: of failed streams, of what is named, of effects and of answers. The laws of locks are
//! passed on.
#![tactic(auto)]

mod laws;

pub use law_locks::{
    answers_law, lock_law, one_lock_per_key, reports_are_shown, unlocked_is_scrubbed,
    views_are_true,
};
pub use laws::{answer_law, effect_law, failed_law, named_law};
