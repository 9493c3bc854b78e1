//! Facts of answers to reads that wait.

ghost use Rattle.std.specs.Prelude.{◌≡◌, ◌++◌, IfOk};
ghost use Rattle.ide_types.specs.declared.port.Side.TheVariants.{Device, Host};
ghost use Rattle.why_facts.specs.Forms.{target_facts};
ghost use Rattle.world.specs.{IsWorld};
ghost use Rattle.ide_why.specs.Facts.{completion_read, queue_read, readings_read, waiting_read};
ghost use Rattle.ide_why.specs.Reading.{stream_read};

use crate::reader::Reader;
use ide_types::{OutOfMemory, PortName, Side, SubKind};
use told_facts::{Fact, InterfaceFact, push};
use trusted_memory::{ReadTarget, WaitingRead};
use why_facts::{push_completion, push_face, push_of_interface, requester_at, sends_fact};

impl Reader<'_> {
    // Appends what a completion looks at on a stream of an end.
    fn push_sender(
        &self,
        facts: &mut Vec<Fact>,
        end: PortName,
        stream: u8,
    ) -> Result<(), OutOfMemory>
        requires { IsWorld self.now.plan.now self.now.links.now }
        ensures { IfOk result (λ _. facts.new.items ≡ facts.old.items ++ completion_read
            (stream_read self.now.plan.now self.now.links.now end stream)) }
    {
        match self.stream(end, stream) {
            None => Ok(()),
            Some(seen) => push_completion(facts, &seen),
        }
    }

    // Appends what the host's answer to a read of a link looks at.
    fn push_answered(
        &self,
        facts: &mut Vec<Fact>,
        link: u8,
        read: &WaitingRead,
    ) -> Result<(), OutOfMemory>
        requires { IsWorld self.now.plan.now self.now.links.now }
        ensures { IfOk result (λ _. facts.new.items ≡ facts.old.items ++ waiting_read self.now.plan.now
            self.now.links.now Host link read.now) }
    {
        let draw = read.came.draw;
        push_of_interface(facts, InterfaceFact::Read { draw })?;
        match self.of_requester(link, read.read.requester) {
            None => Ok(()),
            Some(seen) => {
                push_face(facts, &seen)?;
                let (side, line) = (Side::Host, seen.manager.link);
                self.push_sender(facts, PortName { side, line }, seen.manager.stream)
            }
        }
    }

    // Appends the interface and the BAR that claimed a read at the device of a link, and its T.
    fn push_target(
        &self,
        facts: &mut Vec<Fact>,
        link: u8,
        t: bool,
        target: Option<ReadTarget>,
    ) -> Result<(), OutOfMemory>
        requires { IsWorld self.now.plan.now self.now.links.now }
        ensures { IfOk result (λ _. facts.new.items ≡ facts.old.items ++ target_facts self.now.plan.now
            (readings_read self.now.links.now) link t target) }
    {
        let Some(target) = target else {
            return Ok(());
        };
        let Some(requester) = requester_at(self.plan, link, target.interface) else {
            return Ok(());
        };
        match self.of_requester(link, requester) {
            None => Ok(()),
            Some(seen) => {
                let (interface, bar) = (seen.number, target.bar as u64);
                push_of_interface(facts, InterfaceFact::Asks { interface, bar, t })
            }
        }
    }

    // Appends what the device's answer to a read of a link looks at.
    fn push_responded(
        &self,
        facts: &mut Vec<Fact>,
        link: u8,
        read: &WaitingRead,
    ) -> Result<(), OutOfMemory>
        requires { IsWorld self.now.plan.now self.now.links.now }
        ensures { IfOk result (λ _. facts.new.items ≡ facts.old.items ++ waiting_read self.now.plan.now
            self.now.links.now Device link read.now) }
    {
        let came = read.came;
        push_of_interface(facts, InterfaceFact::Read { draw: came.draw })?;
        self.push_target(facts, link, came.trusted, read.target)?;
        self.push_claimed(
            facts,
            link,
            read.read.span,
            self.claim(link, read.read.span),
        )?;
        push(
            facts,
            sends_fact(self.plan, came.end, came.stream, SubKind::Cpl),
        )?;
        self.push_sender(facts, came.end, came.stream)
    }

    /// Appends the facts of an answer to the oldest read that waits at one side of a link.
    pub fn push_queue(
        &self,
        facts: &mut Vec<Fact>,
        side: Side,
        link: u64,
    ) -> Result<(), OutOfMemory>
        requires { IsWorld self.now.plan.now self.now.links.now }
        ensures { IfOk result (λ _. facts.new.items ≡ facts.old.items ++ queue_read self.now.plan.now
            self.now.links.now side link) }
    {
        if !self.links.links.has_link(link) {
            return Ok(());
        }
        let link = link as u8;
        let reads = self.links.accesses.at(link).reads(side);
        let waiting = reads.waiting() as u64;
        push_of_interface(facts, InterfaceFact::Waiting { waiting })?;
        match reads.first() {
            None => Ok(()),
            Some(read) => match side {
                Side::Host => self.push_answered(facts, link, &read),
                Side::Device => self.push_responded(facts, link, &read),
            },
        }
    }
}
