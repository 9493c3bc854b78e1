//! Which place of keys refuses a KEY_PROG.

ghost use Rattle.std.specs.Prelude.{◌≡◌, ◌++◌, IfOk};
ghost use Rattle.spec_keys.specs.Operations.{work_of};
ghost use Rattle.key_host.specs.Facts.{op_seen};
ghost use Rattle.world.specs.{IsWorld};
ghost use Rattle.ide_why.specs.Facts.{refusing_read};
ghost use Rattle.ide_why.specs.Places.{first_refusing, is_refusing, refusing_on_line, sets_at};

use crate::reader::{Reader, StageSeen};
use event_verdicts::Operation;
use ide_types::{OutOfMemory, PortName, Side, SubKind};
use sub_stream::SetFacts;
use told_facts::{Fact, push};
use why_facts::{Place, first_exchange, key_set, place_at, program_at, refuses, refuses_fact};

impl Reader<'_> {
    // What both key sets hold at a place; `None` if there is no such stream.
    fn sets(&self, place: Place) -> Option<SetFacts>
        requires { IsWorld self.now.plan.now self.now.links.now }
        ensures { result ≡ sets_at self.now.plan.now self.now.links.now place }
    {
        let end = PortName {
            side: place.side,
            line: place.line,
        };
        match self.stream(end, place.stream) {
            None => None,
            Some(seen) => {
                let lane = seen.at(place.sub);
                if place.sends {
                    Some(lane.sender.sets)
                } else {
                    Some(lane.receiver.sets)
                }
            }
        }
    }

    // Whether it has a KEY_PROG of this set from an exchange on, which it refuses.
    fn is_refusing(&self, operation: Operation, set: bool, first: u8, place: Place) -> bool
        requires { IsWorld self.now.plan.now self.now.links.now }
        ensures { result ≡ is_refusing self.now.plan.now self.now.links.now operation set first place }
    {
        match self.sets(place) {
            None => false,
            Some(sets) => { u64::from(first) <= program_at(operation, place) && refuses(set, sets) }
        }
    }

    // The first of the six places of a stream at an end that refuses.
    fn first_refusing(
        &self,
        operation: Operation,
        set: bool,
        first: u8,
        side: Side,
        line: u8,
        stream: u8,
    ) -> Option<Place>
        requires { IsWorld self.now.plan.now self.now.links.now }
        ensures { result ≡ first_refusing self.now.plan.now self.now.links.now operation set first side line stream }
    {
        let place = place_at(side, line, stream, false, SubKind::Pr);
        if self.is_refusing(operation, set, first, place) {
            return Some(place);
        }
        let place = place_at(side, line, stream, false, SubKind::Npr);
        if self.is_refusing(operation, set, first, place) {
            return Some(place);
        }
        let place = place_at(side, line, stream, false, SubKind::Cpl);
        if self.is_refusing(operation, set, first, place) {
            return Some(place);
        }
        let place = place_at(side, line, stream, true, SubKind::Pr);
        if self.is_refusing(operation, set, first, place) {
            return Some(place);
        }
        let place = place_at(side, line, stream, true, SubKind::Npr);
        if self.is_refusing(operation, set, first, place) {
            return Some(place);
        }
        let place = place_at(side, line, stream, true, SubKind::Cpl);
        if self.is_refusing(operation, set, first, place) {
            return Some(place);
        }
        None
    }

    // The first of those of a stream whose keys are given by messages.
    fn refusing_on_line(
        &self,
        operation: Operation,
        set: bool,
        first: u8,
        line: u8,
        stream: u8,
    ) -> Option<Place>
        requires { IsWorld self.now.plan.now self.now.links.now }
        ensures { result ≡ refusing_on_line self.now.plan.now self.now.links.now operation set first line stream }
    {
        if line < 16 {
            return self.first_refusing(operation, set, first, Side::Device, line, stream);
        }
        match self.first_refusing(operation, set, first, Side::Host, line, stream) {
            Some(place) => Some(place),
            None => self.first_refusing(operation, set, first, Side::Device, line, stream),
        }
    }

    /// Appends the first place that refuses a KEY_PROG of an operation.
    pub fn push_refusing(
        &self,
        facts: &mut Vec<Fact>,
        operation: Operation,
        seen: StageSeen,
    ) -> Result<(), OutOfMemory>
        requires { IsWorld self.now.plan.now self.now.links.now }
        ensures { let w = work_of operation (op_seen seen.stage) 0 in
            IfOk result (λ _. facts.new.items ≡ facts.old.items ++ refusing_read self.now.plan.now self.now.links.now
            operation
            w.set w.first seen.line seen.stream) }
    {
        if operation == Operation::Stop {
            return Ok(());
        }
        let set = key_set(operation, seen.stage);
        let first = first_exchange(operation, seen.stage);
        match self.refusing_on_line(operation, set, first, seen.line, seen.stream) {
            None => Ok(()),
            Some(place) => push(facts, refuses_fact(self.plan, operation, place)),
        }
    }
}
