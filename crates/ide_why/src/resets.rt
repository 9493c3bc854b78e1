//! Facts of resets.

ghost use Rattle.std.specs.Prelude.{◌≡◌, ◌∷◌, ◌++◌, [], IfOk, if◌then◌else◌};
ghost use Rattle.spec_links.specs.Plan.{has_link, streams_of};
ghost use Rattle.machine_operations.specs.{machine_status};
ghost use Rattle.why_facts.specs.Forms.{clears_fact};
ghost use Rattle.world.specs.{IsWorld};
ghost use Rattle.ide_why.specs.Facts.{cleared_read, reset_read, state_of_whole, status_read};

use crate::reader::Reader;
use ide_types::{OutOfMemory, PortName, StreamPlan};
use told_facts::{Fact, push};
use why_facts::clears_fact;

impl Reader<'_> {
    // Appends the state of a stream at an end that is cleared, and what the manager knows of it.
    fn push_clears(
        &self,
        facts: &mut Vec<Fact>,
        end: PortName,
        stream: u8,
    ) -> Result<(), OutOfMemory>
        requires { IsWorld self.now.plan.now self.now.links.now }
        ensures { IfOk result (λ _. facts.new.items ≡ facts.old.items ++ clears_fact self.now.plan.now end stream
            (machine_status self.now.plan.now (state_of_whole self.now.plan.now self.now.links.now) end.side end.line
            stream)
            ∷ status_read self.now.plan.now self.now.links.now end.line stream) }
    {
        let status = self.status(end, stream);
        push(facts, clears_fact(self.plan, end, stream, status))?;
        self.push_stage(facts, u64::from(end.line), u64::from(stream))
    }

    // The same of streams.
    fn push_cleared(
        &self,
        facts: &mut Vec<Fact>,
        end: PortName,
        streams: &[StreamPlan],
    ) -> Result<(), OutOfMemory>
        requires { IsWorld self.now.plan.now self.now.links.now }
        ensures { IfOk result (λ _. facts.new.items ≡ facts.old.items ++ cleared_read self.now.plan.now
            self.now.links.now end streams.now) }
    {
        for stream in streams {
            self.push_clears(facts, end, stream.id)?;
        }
        Ok(())
    }

    // The same of all streams of an end.
    fn push_end(&self, facts: &mut Vec<Fact>, end: PortName) -> Result<(), OutOfMemory>
        requires { IsWorld self.now.plan.now self.now.links.now }
        ensures { IfOk result (λ _. facts.new.items ≡ facts.old.items ++ cleared_read self.now.plan.now
            self.now.links.now end (streams_of self.now.plan.now end.line)) }
    {
        match self.links.links.ends.port(end) {
            None => Ok(()),
            Some(port) => self.push_cleared(facts, end, port.plans()),
        }
    }

    // The same of ends.
    fn push_ends(&self, facts: &mut Vec<Fact>, ends: &[PortName]) -> Result<(), OutOfMemory>
        requires { IsWorld self.now.plan.now self.now.links.now }
        ensures { IfOk result (λ _. facts.new.items ≡ facts.old.items ++ reset_read self.now.plan.now
            self.now.links.now ends.now) }
    {
        for end in ends {
            self.push_end(facts, *end)?;
        }
        Ok(())
    }

    /// Appends the facts of a reset of a link that clears these ends.
    pub fn push_reset(
        &self,
        facts: &mut Vec<Fact>,
        link: u64,
        ends: &[PortName],
    ) -> Result<(), OutOfMemory>
        requires { IsWorld self.now.plan.now self.now.links.now }
        ensures { IfOk result (λ _. facts.new.items ≡ facts.old.items ++ (if has_link self.now.plan.now link
            then reset_read self.now.plan.now self.now.links.now ends.now else [])) }
    {
        if self.links.links.has_link(link) {
            self.push_ends(facts, ends)
        } else {
            Ok(())
        }
    }
}
