//! Operations on streams, resets and the first state: the machine of ports stands for the whole history.
#![tactic(auto)]

mod stands;

pub use stands::{
    first_stands, operation_stands, operation_steps, points_stand, step_stands, worked_cases,
};
