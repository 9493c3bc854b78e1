//! Facts of operations on streams.

ghost use Rattle.std.specs.Prelude.{◌≡◌, ◌∷◌, ◌++◌, ◌<◌, [], IfOk};
ghost use Rattle.ide_types.specs.Ports.{host_port};
ghost use Rattle.machine_operations.specs.{machine_status};
ghost use Rattle.key_host.specs.Facts.{op_seen};
ghost use Rattle.why_facts.specs.{opens_seen};
ghost use Rattle.why_facts.specs.Forms.{state_fact};
ghost use Rattle.world.specs.{IsWorld};
ghost use Rattle.ide_why.specs.Facts.{establish_read, exchanges_read, opens_read, refresh_read};
ghost use Rattle.ide_why.specs.Facts.{state_of_whole, status_read, stop_read};
ghost use Rattle.ide_why.specs.Reading.{stream_read};

use crate::reader::{Reader, StageSeen};
use event_verdicts::Operation;
use ide_types::{OutOfMemory, PortName, Side, StreamStatus, SubKind};
use key_host::StageFacts;
use std::alloc::Global;
use told_facts::{ExchangesLeft, Fact, OperationFact, key_draw, push_key_exchanges};
use why_facts::{
    first_exchange, key_set, last_exchange, may_go, push_draws, push_manager, push_of_operation,
    push_opens, push_status,
};

impl Reader<'_> {
    // Appends the senders at the host's port that are in use in a key set.
    fn push_opens_in_set(
        &self,
        facts: &mut Vec<Fact>,
        line: u8,
        stream: u8,
        set: bool,
    ) -> Result<(), OutOfMemory>
        requires { IsWorld self.now.plan.now self.now.links.now }
        ensures { IfOk result (λ _. facts.new.items ≡ facts.old.items ++ opens_seen
            (stream_read self.now.plan.now self.now.links.now (host_port line) stream) set) }
    {
        let side = Side::Host;
        match self.stream(PortName { side, line }, stream) {
            None => Ok(()),
            Some(seen) => push_opens(facts, &seen, set),
        }
    }

    // Appends those in the set that a refresh would program that begins.
    fn push_opens(&self, facts: &mut Vec<Fact>, seen: StageSeen) -> Result<(), OutOfMemory>
        requires { IsWorld self.now.plan.now self.now.links.now }
        ensures { IfOk result (λ _. facts.new.items ≡ facts.old.items ++ opens_read self.now.plan.now
            self.now.links.now seen.line seen.stream (op_seen seen.stage)) }
    {
        match seen.stage {
            StageFacts::Up { set, .. } => {
                self.push_opens_in_set(facts, seen.line, seen.stream, !set.is_one())
            }
            _ => Ok(()),
        }
    }

    // Appends the exchanges that are left to an operation, the first that an end refuses, and each with its messages.
    fn push_exchanges(
        &self,
        alloc: Global,
        facts: &mut Vec<Fact>,
        operation: Operation,
        seen: StageSeen,
    ) -> Result<(), OutOfMemory>
        requires { IsWorld self.now.plan.now self.now.links.now }
        ensures { IfOk result (λ _. facts.new.items ≡ facts.old.items ++ exchanges_read self.now.plan.now
            self.now.links.now
            operation seen.line seen.stream (op_seen seen.stage)) }
    {
        if !may_go(operation, seen.stage) {
            return Ok(());
        }
        let first = u64::from(first_exchange(operation, seen.stage));
        let last = last_exchange(operation, seen.line);
        push_of_operation(facts, OperationFact::Exchanges { first, last })?;
        self.push_refusing(facts, operation, seen)?;
        let left = ExchangesLeft {
            line: seen.line,
            stream: seen.stream,
            operation,
            set: key_set(operation, seen.stage),
            draw: key_draw(operation, seen.stage, self.draws()),
            first: first_exchange(operation, seen.stage),
        };
        push_key_exchanges(alloc, facts, self.plan, left)
    }

    /// The status of a stream at an end, Idle if there is none.
    pub fn status(&self, end: PortName, stream: u8) -> StreamStatus
        requires { IsWorld self.now.plan.now self.now.links.now }
        ensures { result ≡ machine_status self.now.plan.now
            (state_of_whole self.now.plan.now self.now.links.now) end.side end.line stream }
    {
        match self.stream(end, stream) {
            None => StreamStatus::Idle,
            Some(seen) => seen.status,
        }
    }

    /// Appends the status of a stream at the host's port, Idle if there is none.
    pub fn push_host_status(
        &self,
        facts: &mut Vec<Fact>,
        line: u8,
        stream: u8,
    ) -> Result<(), OutOfMemory>
        requires { IsWorld self.now.plan.now self.now.links.now }
        ensures { IfOk result (λ _. facts.new.items ≡ facts.old.items ++ state_fact (machine_status self.now.plan.now
            (state_of_whole self.now.plan.now self.now.links.now) Side.Host line stream) ∷ []) }
    {
        let side = Side::Host;
        push_status(facts, self.status(PortName { side, line }, stream))
    }

    /// Appends the facts of an establish.
    pub fn push_establish(
        &self,
        alloc: Global,
        facts: &mut Vec<Fact>,
        line: u64,
        stream: u64,
    ) -> Result<(), OutOfMemory>
        requires { IsWorld self.now.plan.now self.now.links.now }
        ensures { IfOk result (λ _. facts.new.items ≡ facts.old.items ++ establish_read self.now.plan.now
            self.now.links.now line stream) }
    {
        match self.stage(line, stream) {
            None => Ok(()),
            Some(seen) => {
                push_manager(facts, seen.stage)?;
                push_draws(facts, self.plan, self.draws())?;
                self.push_exchanges(alloc, facts, Operation::Establish, seen)
            }
        }
    }

    /// Appends the facts of a refresh of a link's stream.
    pub fn push_refresh(
        &self,
        alloc: Global,
        facts: &mut Vec<Fact>,
        line: u64,
        stream: u64,
    ) -> Result<(), OutOfMemory>
        requires world { IsWorld self.now.plan.now self.now.links.now }
        requires low { line < 8 }
        ensures { IfOk result (λ _. facts.new.items ≡ facts.old.items ++ refresh_read self.now.plan.now
            self.now.links.now line stream) }
    {
        match self.stage(line, stream) {
            None => Ok(()),
            Some(seen) => {
                push_manager(facts, seen.stage)?;
                self.push_host_status(facts, seen.line, seen.stream)?;
                push_draws(facts, self.plan, self.draws())?;
                self.push_opens(facts, seen)?;
                self.push_exchanges(alloc, facts, Operation::Refresh, seen)
            }
        }
    }

    /// Appends the facts of a stop.
    pub fn push_stop(
        &self,
        alloc: Global,
        facts: &mut Vec<Fact>,
        line: u64,
        stream: u64,
    ) -> Result<(), OutOfMemory>
        requires { IsWorld self.now.plan.now self.now.links.now }
        ensures { IfOk result (λ _. facts.new.items ≡ facts.old.items ++ stop_read self.now.plan.now
            self.now.links.now line stream) }
    {
        match self.stage(line, stream) {
            None => Ok(()),
            Some(seen) => {
                push_manager(facts, seen.stage)?;
                self.push_exchanges(alloc, facts, Operation::Stop, seen)
            }
        }
    }

    /// Appends the facts of a status.
    pub fn push_stage(
        &self,
        facts: &mut Vec<Fact>,
        line: u64,
        stream: u64,
    ) -> Result<(), OutOfMemory>
        requires { IsWorld self.now.plan.now self.now.links.now }
        ensures { IfOk result (λ _. facts.new.items ≡ facts.old.items ++ status_read self.now.plan.now
            self.now.links.now line stream) }
    {
        match self.stage(line, stream) {
            None => Ok(()),
            Some(seen) => push_manager(facts, seen.stage),
        }
    }
}
