//! Laws of locks: what a lock of a device interface says of its streams, of its report, of the manager's view, of its
//! memory, and of the keys that serve it.
#![tactic(auto)]

mod laws;

pub use laws::{
    answers_law, lock_law, one_lock_per_key, reports_are_shown, unlocked_is_scrubbed,
    views_are_true,
};
