//! Facts of what is sent.

ghost use Rattle.std.specs.Prelude.{◌≡◌, ◌++◌, IfOk, true};
ghost use Rattle.tlp_layout.specs.Outgoing.{stream_taken};
ghost use Rattle.spec_links.specs.Plan.{has_port};
ghost use Rattle.spec_links.specs.Ports.{outgoing_at};
ghost use Rattle.world.specs.{IsWorld};
ghost use Rattle.ide_why.specs.Facts.{owner_facts, sending_facts, stream_sends};
ghost use Rattle.ide_why.specs.Reading.{stream_read};

use crate::reader::Reader;
use ide_types::{OutOfMemory, PortName};
use tlp_layout::{HeadView, OutgoingTlp};
use told_facts::{Fact, push};
use why_facts::{owners_link, push_face, push_port, push_senders, sends_fact, sets_own_t};

impl Reader<'_> {
    // Appends the interface that owns a TLP with this header, where it sets T.
    fn push_owner(
        &self,
        facts: &mut Vec<Fact>,
        end: PortName,
        head: &HeadView,
    ) -> Result<(), OutOfMemory>
        requires { IsWorld self.now.plan.now self.now.links.now }
        ensures { IfOk result (λ _. facts.new.items ≡ facts.old.items ++ owner_facts self.now.plan.now
            self.now.links.now end head.now) }
    {
        if !sets_own_t(self.plan, end) {
            return Ok(());
        }
        match self.owner(owners_link(self.plan, end), head) {
            None => Ok(()),
            Some(face) => push_face(facts, &face),
        }
    }

    // Appends the facts of a TLP with this header that is sent on a stream of an end.
    fn push_on_stream(
        &self,
        facts: &mut Vec<Fact>,
        end: PortName,
        stream: u8,
        head: &HeadView,
    ) -> Result<(), OutOfMemory>
        requires { IsWorld self.now.plan.now self.now.links.now }
        ensures { IfOk result (λ _. facts.new.items ≡ facts.old.items ++ stream_sends self.now.plan.now
            self.now.links.now end stream head.now
            (stream_read self.now.plan.now self.now.links.now end stream)) }
    {
        match self.stream(end, stream) {
            None => Ok(()),
            Some(seen) => {
                let class = head.class();
                push(facts, sends_fact(self.plan, end, stream, class))?;
                push_senders(facts, &seen, class)?;
                self.push_owner(facts, end, head)
            }
        }
    }

    // The stream that a TLP takes which is sent at an end.
    fn taken(&self, end: PortName, tlp: &OutgoingTlp) -> Option<u8>
        requires world { IsWorld self.now.plan.now self.now.links.now }
        requires has { has_port self.now.plan.now end ≡ true }
        ensures { result ≡ stream_taken (outgoing_at self.now.plan.now end tlp.now) }
    {
        match self.links.links.ends.port(end) {
            None => None,
            Some(port) => port.outgoing_stream(tlp),
        }
    }

    /// Appends the facts of a TLP that is sent at an end, on its line.
    pub fn push_sending(
        &self,
        facts: &mut Vec<Fact>,
        end: PortName,
        tlp: &OutgoingTlp,
    ) -> Result<(), OutOfMemory>
        requires world { IsWorld self.now.plan.now self.now.links.now }
        requires has { has_port self.now.plan.now end ≡ true }
        ensures { IfOk result (λ _. facts.new.items ≡ facts.old.items ++ sending_facts self.now.plan.now
            self.now.links.now end
            (outgoing_at self.now.plan.now end tlp.now)) }
    {
        match self.taken(end, tlp) {
            None => push_port(facts, self.plan, end),
            Some(stream) => match tlp.tlp() {
                Err(_) => push_port(facts, self.plan, end),
                Ok(view) => self.push_on_stream(facts, end, stream, &view.head()),
            },
        }
    }
}
