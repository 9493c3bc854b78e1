//! What a verdict came from, as lines of text: the rule that answers, and facts of the state before the event, one a
//! line (this profile). The facts are defined by the events before it and by what is kept of them, and the two are the
//! same.
#![tactic(auto)]

mod appends;
mod lines;
mod rules;
mod stands;

pub use appends::faces::{
    FaceSeen, number_in, push_draw, push_face, push_live, push_of_interface, push_reported,
};
pub use appends::memory::{
    push_bar, push_bytes, push_memory, push_region, push_shown, push_span, push_takes, requester_at,
};
pub use appends::operations::{
    clears_fact, first_exchange, key_set, last_exchange, manager_state, may_go, push_draws,
    push_manager, push_of_operation, push_opens,
};
pub use appends::packets::{altered, arrives_fact, packet_fact, push_adds};
pub use appends::places::{Place, place_at, program_at, refuses, refuses_fact};
pub use appends::sends::{owners_link, push_port, sends_fact, sets_own_t};
pub use appends::streams::{is_live, push_completion, push_receiver, push_senders, push_status};
pub use ide_types::OutOfMemory;
pub use lines::why_text;
pub use rules::{effect_rule, rule};
pub use stands::facts_stand;
