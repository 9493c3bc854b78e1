//! Facts of what packets ask of memory.

ghost use Rattle.std.specs.Prelude.{◌≡◌, ◌++◌, IfOk, Ok, length};
ghost use Rattle.ide_prefix.specs.Cut.{packet_of_view, IsView};
ghost use Rattle.ide_prefix.specs.Packet.{HasTlp};
ghost use Rattle.ide_types.specs.declared.port.Side.TheVariants.{Device, Host};
ghost use Rattle.guarded_memory.specs.{claim_of};
ghost use Rattle.spec_links.specs.Ports.{port_of as port_of_end};
ghost use Rattle.why_facts.specs.Forms.{claim_facts, claimed_facts, claimed_read_facts, device_facts, host_facts};
ghost use Rattle.why_facts.specs.Forms.{known_to, request_facts, requests_facts, unit_facts};
ghost use Rattle.world.specs.{IsWorld, reads_at};
ghost use Rattle.ide_why.specs.Facts.{readings_read};
ghost use Rattle.ide_why.specs.Reading.{statuses_read};

use crate::reader::Reader;
use guarded_memory::Claim;
use ide_prefix::PacketView;
use ide_types::{OutOfMemory, PortName, Side};
use line_routes::{at_switch, port_of};
use sub_stream::Delivered;
use tlp_layout::{HeadView, owner};
use told_facts::{Fact, InterfaceFact, push};
use trusted_memory::{MemReadView, Span};
use why_facts::{
    packet_fact, push_adds, push_bar, push_bytes, push_face, push_of_interface, push_span,
    push_takes, requester_at,
};

impl Reader<'_> {
    // How many reads wait at a port.
    fn waiting(&self, port: PortName) -> u64
        requires { IsWorld self.now.plan.now self.now.links.now }
        ensures { result ≡ length (reads_at self.now.links.now.accesses port) }
    {
        if (port.line as usize) < self.links.links.ends.count() {
            let accesses = self.links.accesses.at(port.line);
            accesses.reads(port.side).waiting() as u64
        } else {
            0
        }
    }

    // Appends what is known of the interface of a link that has this requester ID.
    fn push_known(
        &self,
        facts: &mut Vec<Fact>,
        link: u8,
        requester: Option<u16>,
    ) -> Result<(), OutOfMemory>
        requires { IsWorld self.now.plan.now self.now.links.now }
        ensures { IfOk result (λ _. facts.new.items ≡ facts.old.items ++ known_to (readings_read self.now.links.now)
            link requester) }
    {
        match requester {
            None => Ok(()),
            Some(requester) => match self.of_requester(link, requester) {
                None => Ok(()),
                Some(face) => push_face(facts, &face),
            },
        }
    }

    // ---- at a host's port

    // Appends what a request with this header looks at that is in a packet at a place of its unit.
    fn push_asked_of_host(
        &self,
        facts: &mut Vec<Fact>,
        link: u8,
        place: u64,
        t: bool,
        head: &HeadView,
    ) -> Result<(), OutOfMemory>
        requires { IsWorld self.now.plan.now self.now.links.now }
        ensures { IfOk result (λ _. facts.new.items ≡ facts.old.items ++ host_facts self.now.plan.now
            (readings_read self.now.links.now) link place t (Ok head.now)) }
    {
        let reads = MemReadView::of(head).is_some();
        if !(Span::of_write(head).is_some() || t && reads) {
            return Ok(());
        }
        push(facts, packet_fact(place, t))?;
        push_span(facts, self.plan, Span::of(head))?;
        self.push_known(facts, link, owner(head))?;
        if reads {
            let (side, line) = (Side::Host, link);
            let waiting = self.waiting(PortName { side, line });
            push_of_interface(facts, InterfaceFact::Waiting { waiting })?;
        }
        Ok(())
    }

    // ---- at a device's port

    /// The claim of the interfaces of a link's device on these bytes.
    pub fn claim(&self, link: u8, span: Span) -> Option<Claim>
        requires { IsWorld self.now.plan.now self.now.links.now }
        ensures { result ≡ claim_of (statuses_read self.now.links.now link) span }
    {
        if (link as usize) < self.links.links.ends.count() {
            let interfaces = &self.links.links.ends.link(link).device.interfaces;
            self.links.accesses.at(link).claim(interfaces, span)
        } else {
            None
        }
    }

    // Appends what claims a request.
    fn push_claim(
        &self,
        facts: &mut Vec<Fact>,
        link: u8,
        claim: Option<Claim>,
    ) -> Result<(), OutOfMemory>
        requires { IsWorld self.now.plan.now self.now.links.now }
        ensures { IfOk result (λ _. facts.new.items ≡ facts.old.items ++ claim_facts self.now.plan.now
            (readings_read self.now.links.now) link claim) }
    {
        match claim {
            None => Ok(()),
            Some(claim) => {
                let requester = requester_at(self.plan, link, claim.interface);
                self.push_known(facts, link, requester)?;
                push_bar(facts, claim.bar as u64, &claim.range)?;
                push_takes(facts, claim.status.bound.as_slice())
            }
        }
    }

    /// Appends these bytes, and what claims them.
    pub fn push_claimed(
        &self,
        facts: &mut Vec<Fact>,
        link: u8,
        span: Span,
        claim: Option<Claim>,
    ) -> Result<(), OutOfMemory>
        requires { IsWorld self.now.plan.now self.now.links.now }
        ensures { IfOk result (λ _. facts.new.items ≡ facts.old.items ++ claimed_facts self.now.plan.now
            (readings_read self.now.links.now) link span claim) }
    {
        push_bytes(facts, span)?;
        self.push_claim(facts, link, claim)
    }

    // Appends what a read of these bytes looks at, if the device answers reads of what claims it.
    fn push_device_read(
        &self,
        facts: &mut Vec<Fact>,
        link: u8,
        place: u64,
        t: bool,
        span: Span,
    ) -> Result<(), OutOfMemory>
        requires { IsWorld self.now.plan.now self.now.links.now }
        ensures { IfOk result (λ _. facts.new.items ≡ facts.old.items ++ claimed_read_facts self.now.plan.now
            (readings_read self.now.links.now) link place t span
            (claim_of (statuses_read self.now.links.now link) span)) }
    {
        let Some(claim) = self.claim(link, span) else {
            return Ok(());
        };
        if !claim.status.reads {
            return Ok(());
        }
        push(facts, packet_fact(place, t))?;
        self.push_claimed(facts, link, span, Some(claim))?;
        let (side, line) = (Side::Device, link);
        let waiting = self.waiting(PortName { side, line });
        push_of_interface(facts, InterfaceFact::Waiting { waiting })
    }

    // Appends what a request with this header looks at that is in a packet at a place of its unit.
    fn push_asked_of_device(
        &self,
        facts: &mut Vec<Fact>,
        link: u8,
        place: u64,
        t: bool,
        head: &HeadView,
    ) -> Result<(), OutOfMemory>
        requires { IsWorld self.now.plan.now self.now.links.now }
        ensures { IfOk result (λ _. facts.new.items ≡ facts.old.items ++ device_facts self.now.plan.now
            (readings_read self.now.links.now) link place t (Ok head.now)) }
    {
        match MemReadView::of(head) {
            Some(read) => self.push_device_read(facts, link, place, t, read.span),
            None => match Span::of_write(head) {
                None => Ok(()),
                Some(span) => {
                    push(facts, packet_fact(place, t))?;
                    self.push_claimed(facts, link, span, self.claim(link, span))
                }
            },
        }
    }

    // ---- at any port

    // Appends what a packet at a place of its unit asks of memory at a port.
    fn push_request(
        &self,
        facts: &mut Vec<Fact>,
        port: PortName,
        place: u64,
        packet: &PacketView,
    ) -> Result<(), OutOfMemory>
        requires world { IsWorld self.now.plan.now self.now.links.now }
        requires tlp { HasTlp (packet_of_view packet.now) packet.now.tlp }
        ensures { IfOk result (λ _. facts.new.items ≡ facts.old.items ++ request_facts self.now.plan.now
            (readings_read self.now.links.now) port place (packet_of_view packet.now)) }
    {
        let Some(head) = packet.tlp else {
            return Ok(());
        };
        if at_switch(self.plan, port) {
            return Ok(());
        }
        let t = packet.prefix.t;
        match port.side {
            Side::Host => self.push_asked_of_host(facts, port.line, place, t, &head),
            Side::Device => self.push_asked_of_device(facts, port.line, place, t, &head),
        }
    }

    // Appends what each packet asks that is held for a unit at a port.
    fn push_held(
        &self,
        facts: &mut Vec<Fact>,
        port: PortName,
        held: &Delivered<'_>,
    ) -> Result<(), OutOfMemory>
        requires { IsWorld self.now.plan.now self.now.links.now }
        ensures { IfOk result (λ _. facts.new.items ≡ facts.old.items ++ requests_facts self.now.plan.now
            (readings_read self.now.links.now) port 1 held.now) }
    {
        for i in 0..held.count() {
            let packet = held.packet(i);
            self.push_request(facts, port, i as u64 + 1, &packet)?;
        }
        Ok(())
    }

    /// Appends what a unit's packets ask of memory: those that are held, and the one that arrives at an end.
    pub fn push_unit(
        &self,
        facts: &mut Vec<Fact>,
        end: PortName,
        held: &Delivered<'_>,
        packet: &PacketView,
    ) -> Result<(), OutOfMemory>
        requires world { IsWorld self.now.plan.now self.now.links.now }
        requires view { IsView packet.now }
        ensures { IfOk result (λ _. facts.new.items ≡ facts.old.items ++ unit_facts self.now.plan.now
            (readings_read self.now.links.now) (port_of_end self.now.plan.now end) packet.now.prefix.sub held.now
            (packet_of_view packet.now)) }
    {
        let port = port_of(self.plan, end);
        let posted = held.posted() + u64::from(packet.prefix.posted);
        push_adds(facts, packet.prefix.sub, posted)?;
        self.push_held(facts, port, held)?;
        self.push_request(facts, port, held.count() as u64 + 1, packet)
    }
}
