//! The laws of what is delivered: by sub-streams, between them, and of posted counts.
#![tactic(auto)]

mod laws;

pub use laws::{
    count_law, delivery_law, draws_never_fall, no_forgery_is_of_each, order_is_no_forgery,
    order_law, prefix_law, whole_law,
};
