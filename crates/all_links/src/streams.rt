//! Operations on the streams of all lines, and the states of streams.

ghost use Rattle.std.specs.Prelude.{◌≡◌, ◌==◌, ◌<◌, ◌^◌, true, not, IsSome, IfSome};
ghost use Rattle.spec_keys.specs.Operations.{work_of};
ghost use Rattle.key_host.specs.Managers.{named_stream};
ghost use Rattle.key_host.specs.Operations.{op_name};
ghost use Rattle.key_host.specs.Walk.{NoBadReply as NoBadStreamReply, verdict_of};
ghost use Rattle.line_arrivals.specs.{port_on, stream_named};
ghost use Rattle.ide_types.specs.Ports.{host_port};
ghost use Rattle.all_links.specs.Events.{operation_event};
ghost use Rattle.all_links.specs.BesideAfter.{works_on};

use crate::links::Links;
use event_verdicts::{Operation, Verdict};
use ide_types::{PortName, Side};
use key_host::{NamedOperation, StreamOutcome};
use line_arrivals::{named_op, operated_verdict};
use script_events::{Event, Loss};

// Whether there is such an operation on a line: a refresh is of a link's stream alone.
fn works_on(operation: Operation, line: u8) -> bool
    ensures { result ≡ works_on operation line }
{
    match operation {
        Operation::Refresh => line < 8,
        _ => true,
    }
}

impl Links {
    ghost use Rattle.ide_types.specs.declared.plan.Plan.{Plan as PlanView};
    ghost use Rattle.line_arrivals.specs.{IsBounded, OperatesAt, told_by_line, drawn_on_line};
    ghost use Rattle.all_links.specs.Links.{StandsForSome, EndsIfAnswered, EndsOrHasNone};
    ghost use Rattle.all_links.specs.BesideAfter.{BesideStays, BesideOperation};

    // The line and the stream by their numbers, if there is such a stream.
    fn named(&self, line: u64, stream: u64) -> Option<(u8, u8)>
        ensures { result ≡ stream_named self.now.keeper.keys.manager self.now.ends line stream }
    {
        if line > 31 || stream > 255 {
            return None;
        }
        let side = Side::Host;
        let (line, stream) = (line as u8, stream as u8);
        if !self.ends.has_end(PortName { side, line }) {
            return None;
        }
        if !self.keeper.keys.has_stream(line, stream) {
            return None;
        }
        Some((line, stream))
    }

    /// An operation on a stream of a line. It has no verdict if a reply is bad, or if an exchange is lost none of whose
    /// messages is lost; that does not come while the links stand for some history.
    pub fn operate(
        &mut self,
        operation: Operation,
        line: u64,
        stream: u64,
        loss: Option<Loss>,
    ) -> Option<Verdict>
        requires steps { self.old.steps < 2 ^ 28 }
        requires bounded { IsBounded self.old.ends self.old.packets.packets self.old.steps }
        ensures ends { (plan : PlanView) → EndsOrHasNone plan result self.old self.new
            (operation_event operation line stream loss) }
        ensures sides { IfSome result (λ v. BesideOperation operation line stream v self.old self.new) }
    {
        join_keys::operations_join();
        join_keys::pair_operations_join();
        match self.named(line, stream) {
            None => Some(self.only(Verdict::Nothing)),
            Some((line, stream)) => {
                if !works_on(operation, line) {
                    return Some(self.only(Verdict::Nothing));
                }
                let op = named_op(operation, line, stream);
                let outcome = self.carry_stream(op, loss);
                self.steps += 1;
                operated_verdict(operation, line, stream, loss, outcome)
            }
        }
    }

    // Carries an operation on a stream that exists. If there is such a one on its line, and the links stand for some
    // history, no reply is bad.
    fn carry_stream(&mut self, op: NamedOperation, loss: Option<Loss>) -> StreamOutcome
        requires here { IsSome (port_on self.old.ends (host_port (op_name op).line)) }
        requires stream { IsSome (named_stream self.old.keeper.keys.manager (op_name op).line (op_name op).stream) }
        ensures links { self.new ≡ record self.old { ends = self.new.ends; keeper = self.new.keeper } }
        ensures operates { OperatesAt self.old.ends (op_name op).line self.old.keeper.keys op loss result
            self.new.ends self.new.keeper.keys }
        ensures interfaces { IfSome (named_stream self.old.keeper.keys.manager (op_name op).line (op_name op).stream)
            (λ n.
            let begins = (work_of (op_name op).operation n.stream.op 0).begins in
            let draw = self.old.keeper.keys.pool.draws in
            let drew = not (self.new.keeper.keys.pool.draws == draw) in
            self.new.keeper.interfaces
            ≡ told_by_line (op_name op).line op begins drew draw result self.old.keeper.interfaces) }
        ensures peer_draws { let draw = self.old.keeper.keys.pool.draws in
            let drew = not (self.new.keeper.keys.pool.draws == draw) in
            self.new.keeper.peer_draws ≡ drawn_on_line (op_name op).line op drew draw self.old.keeper.peer_draws }
        ensures answered { let name = op_name op in works_on name.operation name.line ≡ true → (plan : PlanView)
            → StandsForSome plan self.old → IsSome (verdict_of name.operation name.line name.stream loss result) }
        ensures no_bad_reply { works_on (op_name op).operation (op_name op).line ≡ true → (plan : PlanView)
            → StandsForSome plan self.old → NoBadStreamReply loss result }
    {
        join_keys::operations_join();
        join_keys::pair_operations_join();
        self.ends.operate(op.line(), &mut self.keeper, op, loss)
    }

    /// The states of a stream at both ends of a line.
    pub fn status(&mut self, line: u64, stream: u64) -> Verdict
        requires steps { self.old.steps < 2 ^ 28 }
        requires bounded { IsBounded self.old.ends self.old.packets.packets self.old.steps }
        ensures ends { (plan : PlanView) → EndsIfAnswered plan result self.old self.new (Event.Status line stream) }
        ensures sides { BesideStays self.old self.new }
    {
        match self.named(line, stream) {
            None => self.only(Verdict::Nothing),
            Some((line, stream)) => match self.ends.status(line, stream) {
                None => self.only(Verdict::Nothing),
                Some((host, device)) => self.only(Verdict::Status {
                    line,
                    stream,
                    host,
                    device,
                }),
            },
        }
    }
}
