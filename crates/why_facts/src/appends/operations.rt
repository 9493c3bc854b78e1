//! Facts of operations on streams.

ghost use Rattle.std.specs.Prelude.{◌≡◌, ◌∷◌, ◌++◌, [], IfOk, Some};
ghost use Rattle.ide_types.specs.{is_hosted};
ghost use Rattle.spec_keys.specs.Operations.{last_exchange_of, work_of};
ghost use Rattle.key_host.specs.Facts.{op_seen};
ghost use Rattle.why_facts.specs.Forms.{clears_fact, draws_fact, manager_fact, manager_state, may_go, pool_of};
ghost use Rattle.why_facts.specs.Streams.{open_seen, opens_seen};

use crate::appends::streams::is_live;
use event_verdicts::Operation;
use ide_types::{OutOfMemory, PortName, StreamStatus, SubKind, ValidPlan};
use key_host::StageFacts;
use line_routes::port_of;
use sub_stream::StreamFacts;
use told_facts::{Fact, ManagerState, OperationFact, push};

/// What the manager knows of a stream.
pub fn manager_state(stage: StageFacts) -> ManagerState
    ensures { result ≡ manager_state (op_seen stage) }
{
    match stage {
        StageFacts::Idle => ManagerState::Idle,
        StageFacts::Establishing { draw, next } => ManagerState::Establishing {
            draw,
            next: u64::from(next),
        },
        StageFacts::Up { set, draw } => ManagerState::Up {
            set: set.is_one(),
            draw,
        },
        StageFacts::Refreshing { set, draw, next } => ManagerState::Refreshing {
            set: set.is_one(),
            draw,
            next: u64::from(next),
        },
        StageFacts::Stopping { next } => ManagerState::Stopping {
            next: u64::from(next),
        },
    }
}

/// Appends a fact of operations.
pub fn push_of_operation(facts: &mut Vec<Fact>, fact: OperationFact) -> Result<(), OutOfMemory>
    ensures { IfOk result (λ _. facts.new.items ≡ facts.old.items ++ Fact.Operation fact ∷ []) }
{
    push(facts, Fact::Operation { fact })
}

/// Appends what the manager knows of a stream.
pub fn push_manager(facts: &mut Vec<Fact>, stage: StageFacts) -> Result<(), OutOfMemory>
    ensures { IfOk result (λ _. facts.new.items ≡ facts.old.items ++ manager_fact (op_seen stage) ∷ []) }
{
    push_of_operation(
        facts,
        OperationFact::Manager {
            state: manager_state(stage),
        },
    )
}

/// Whether the manager's state lets an operation begin or go on.
pub fn may_go(operation: Operation, stage: StageFacts) -> bool
    ensures { result ≡ may_go operation (op_seen stage) }
{
    match (operation, stage) {
        (Operation::Establish, StageFacts::Idle | StageFacts::Establishing { .. }) => true,
        (Operation::Refresh, StageFacts::Up { .. } | StageFacts::Refreshing { .. }) => true,
        (Operation::Stop, _) => true,
        _ => false,
    }
}

/// The first exchange that is left to an operation.
pub fn first_exchange(operation: Operation, stage: StageFacts) -> u8
    ensures { result ≡ (work_of operation (op_seen stage) 0).first }
{
    match (operation, stage) {
        (Operation::Establish, StageFacts::Establishing { next, .. }) => next,
        (Operation::Refresh, StageFacts::Refreshing { next, .. }) => next,
        (Operation::Stop, StageFacts::Stopping { next }) => next,
        _ => 1,
    }
}

/// The key set that an operation gives keys in.
pub fn key_set(operation: Operation, stage: StageFacts) -> bool
    ensures { result ≡ (work_of operation (op_seen stage) 0).set }
{
    match (operation, stage) {
        (Operation::Refresh, StageFacts::Refreshing { set, .. }) => set.is_one(),
        (Operation::Refresh, StageFacts::Up { set, .. }) => !set.is_one(),
        (Operation::Refresh, _) => true,
        (Operation::Establish | Operation::Stop, _) => false,
    }
}

/// The last exchange of an operation on a line.
pub fn last_exchange(operation: Operation, line: u8) -> u64
    ensures { result ≡ last_exchange_of (is_hosted line) operation }
{
    match operation {
        _ if line >= 16 => 24,
        Operation::Establish => 13,
        Operation::Refresh | Operation::Stop => 12,
    }
}

// Appends the sender of a sub-stream, if it is in use in a key set.
fn push_open(
    facts: &mut Vec<Fact>,
    seen: &StreamFacts,
    set: bool,
    sub: SubKind,
) -> Result<(), OutOfMemory>
    ensures { IfOk result (λ _. facts.new.items ≡ facts.old.items ++ open_seen (Some seen.now) set sub) }
{
    if is_live(seen.at(sub).sender.sets, set) {
        push_of_operation(facts, OperationFact::Open { sub })
    } else {
        Ok(())
    }
}

/// Appends the senders that are in use in a key set.
pub fn push_opens(facts: &mut Vec<Fact>, seen: &StreamFacts, set: bool) -> Result<(), OutOfMemory>
    ensures { IfOk result (λ _. facts.new.items ≡ facts.old.items ++ opens_seen (Some seen.now) set) }
{
    push_open(facts, seen, set, SubKind::Pr)?;
    push_open(facts, seen, set, SubKind::Npr)?;
    push_open(facts, seen, set, SubKind::Cpl)
}

/// Appends how many of the pool's draws were made.
pub fn push_draws(facts: &mut Vec<Fact>, plan: &ValidPlan, made: u32) -> Result<(), OutOfMemory>
    ensures { IfOk result (λ _. facts.new.items ≡ facts.old.items ++ draws_fact made (pool_of plan.now) ∷ []) }
{
    let pool = plan.plan().pool.as_slice().len() as u64 / 6;
    let made = u64::from(made);
    push_of_operation(facts, OperationFact::Draws { made, pool })
}

/// The fact of a stream at an end that a reset clears.
pub fn clears_fact(plan: &ValidPlan, end: PortName, stream: u8, status: StreamStatus) -> Fact
    ensures { result ≡ clears_fact plan.now end stream status }
{
    Fact::Operation {
        fact: OperationFact::Clears {
            port: port_of(plan, end),
            stream,
            status,
        },
    }
}
