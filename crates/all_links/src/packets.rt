//! What is sent on all lines, and the packets that this sealed.

ghost use Rattle.std.specs.Prelude.{◌≡◌, ◌+◌, ◌<◌, ◌≤◌, ◌^◌, ◌++◌, ℕ, true, IfOk, OnOk, IsOk, IsSome, List};
ghost use Rattle.std.specs.Prelude.{length, sum_by};
ghost use Rattle.ide_port.specs.Sends.{lengths_sent};
ghost use Rattle.ide_port.specs.declared.answer.Sent.TheVariants.{Sealed};
ghost use Rattle.sub_stream.specs.declared.answer.MeasuredPacket.{MeasuredPacket};
ghost use Rattle.spec_links.specs.Ports.{port_of};
ghost use Rattle.tlp_layout.specs.Reading.{read_of};
ghost use Rattle.line_arrivals.specs.{cut_packets, end_sent_verdict, has_stream_at, port_on};

use crate::links::Links;
use event_verdicts::Verdict;
use ide_port::Sent;
use ide_types::{Bytes, OutOfMemory, PortName, ValidPlan};
use line_arrivals::send_verdict;
use line_routes::{may_send, port_of, sealing_end};
use script_events::Event;
use std::alloc::Global;
use tlp_layout::OutgoingTlp;

impl Links {
    ghost use Rattle.ide_types.specs.declared.plan.Plan.{Plan as PlanView};
    ghost use Rattle.line_arrivals.specs.{IsBounded};
    ghost use Rattle.all_links.specs.Links.{EndsOrStays, EndsSealing, EndsSealingOrStays, EndsSending};
    ghost use Rattle.all_links.specs.Links.{EndsSendingOrStays};
    ghost use Rattle.all_links.specs.Accesses.{is_sending};
    ghost use Rattle.all_links.specs.BesideAfter.{BesideStays};

    // Takes room for what one send seals.
    fn reserve_packets(&mut self) -> Result<(), OutOfMemory>
        ensures links { self.new ≡ record self.old { packets = self.new.packets } }
        ensures packets { self.new.packets.packets ≡ self.old.packets.packets }
        ensures marks { OnOk result (3 ≤ self.new.packets.mark_room) }
        ensures bytes { OnOk result (4184 ≤ self.new.packets.byte_room) }
    {
        self.packets.reserve()
    }

    /// Sends a TLP's bytes at a port: they are sealed at the end of the line that association gives them. At a switch
    /// nothing is sent so. For want of memory nothing changes.
    pub fn send(
        &mut self,
        plan: &ValidPlan,
        port: PortName,
        bytes: &[u8],
        more: bool,
        trusted: bool,
    ) -> Result<Verdict, OutOfMemory>
        requires steps { self.old.steps < 2 ^ 28 }
        requires bounded { IsBounded self.old.ends self.old.packets.packets self.old.steps }
        ensures ends { EndsOrStays plan.now result self.old self.new (Event.Send port bytes.now more trusted) }
        ensures sides { IfOk result (λ v. BesideStays self.old self.new) }
        ensures sending { IfOk result (λ v. is_sending v ≡ true) }
    {
        if !may_send(plan, port) {
            return Ok(self.only(Verdict::Nothing));
        }
        let tlp = OutgoingTlp::of(bytes);
        let end = sealing_end(plan, port, &tlp);
        self.send_at_end(plan, end, &tlp, more, trusted)
    }

    /// Sends a TLP's bytes at an end of a line of the topology, on that line. For want of memory nothing changes.
    pub fn send_at_end(
        &mut self,
        plan: &ValidPlan,
        end: PortName,
        tlp: &OutgoingTlp,
        more: bool,
        trusted: bool,
    ) -> Result<Verdict, OutOfMemory>
        requires steps { self.old.steps < 2 ^ 28 }
        requires bounded { IsBounded self.old.ends self.old.packets.packets self.old.steps }
        ensures ends { EndsSendingOrStays plan.now result self.old self.new end tlp.now more trusted }
        ensures sides { IfOk result (λ v. BesideStays self.old self.new) }
        ensures sending { IfOk result (λ v. is_sending v ≡ true) }
    {
        if !self.ends.has_end(end) {
            return Ok(self.only(Verdict::Nothing));
        }
        self.reserve_packets()?;
        Ok(self.seal(plan, end, tlp, more, trusted))
    }

    /// Sends a completion, which is a TLP, at an end, on the stream of this ID, with this T, whatever stream association
    /// gives it. If there is no such end, or it has no such stream, nothing is sent. For want of memory nothing changes.
    pub fn complete(
        &mut self,
        plan: &ValidPlan,
        end: PortName,
        stream: u8,
        trusted: bool,
        tlp: &OutgoingTlp,
    ) -> Result<Verdict, OutOfMemory>
        requires steps { self.old.steps < 2 ^ 28 }
        requires bounded { IsBounded self.old.ends self.old.packets.packets self.old.steps }
        requires tlp { IsOk (read_of tlp.now) }
        // Whatever the least draw is that it may be sealed under.
        ensures ends { (floor : ℕ) → EndsSealingOrStays plan.now result self.old self.new
            (record { end = end; stream = stream; trusted = trusted; floor = floor; bytes = tlp.now }) }
        ensures sides { IfOk result (λ v. BesideStays self.old self.new) }
        ensures sending { IfOk result (λ v. is_sending v ≡ true) }
    {
        if !self.ends.has_stream(end, stream) {
            return Ok(self.only(Verdict::Nothing));
        }
        self.reserve_packets()?;
        Ok(self.seal_completion(plan, end, stream, trusted, tlp))
    }

    // A send at an end that exists; there is room for what it seals.
    fn seal(
        &mut self,
        plan: &ValidPlan,
        end: PortName,
        tlp: &OutgoingTlp,
        more: bool,
        trusted: bool,
    ) -> Verdict
        requires steps { self.old.steps < 2 ^ 28 }
        requires bounded { IsBounded self.old.ends self.old.packets.packets self.old.steps }
        requires here { IsSome (port_on self.old.ends end) }
        requires marks { 3 ≤ self.old.packets.mark_room }
        requires bytes_room { 4184 ≤ self.old.packets.byte_room }
        ensures ends { EndsSending plan.now result self.old self.new end tlp.now more trusted }
        ensures sides { BesideStays self.old self.new }
        ensures sending { is_sending result ≡ true }
    {
        let sent = self.ends.send(end, tlp, more, trusted, &mut self.sealed);
        self.keep_sent(plan, end, &sent)
    }

    // A completion's send at an end that exists, on a stream that it has; there is room for what it seals.
    fn seal_completion(
        &mut self,
        plan: &ValidPlan,
        end: PortName,
        stream: u8,
        trusted: bool,
        tlp: &OutgoingTlp,
    ) -> Verdict
        requires steps { self.old.steps < 2 ^ 28 }
        requires bounded { IsBounded self.old.ends self.old.packets.packets self.old.steps }
        requires here { has_stream_at self.old.ends end stream ≡ true }
        requires marks { 3 ≤ self.old.packets.mark_room }
        requires bytes_room { 4184 ≤ self.old.packets.byte_room }
        ensures ends { (floor : ℕ) → EndsSealing plan.now result self.old self.new
            (record { end = end; stream = stream; trusted = trusted; floor = floor; bytes = tlp.now }) }
        ensures sides { BesideStays self.old self.new }
        ensures sending { is_sending result ≡ true }
    {
        let sent = self
            .ends
            .complete(end, stream, trusted, tlp, &mut self.sealed);
        self.keep_sent(plan, end, &sent)
    }

    // What a send at an end came to: the packets that it sealed are kept, and its verdict counts as a step.
    fn keep_sent(&mut self, plan: &ValidPlan, end: PortName, sent: &Sent) -> Verdict
        requires steps { self.old.steps < 2 ^ 28 }
        requires lengths { (ps : List MeasuredPacket) → sent.now ≡ Sealed ps
            → sum_by (λ (p : MeasuredPacket). p.length) ps ≡ length self.old.sealed }
        requires marks { 3 ≤ self.old.packets.mark_room }
        requires bytes_room { 4184 ≤ self.old.packets.byte_room }
        ensures verdict { result ≡ end_sent_verdict end (port_of plan.now end) (length self.old.packets.packets + 1)
            sent.now }
        ensures links { self.new ≡ record self.old { packets = self.new.packets; steps = self.old.steps + 1 } }
        ensures packets { self.new.packets.packets ≡ self.old.packets.packets
            ++ cut_packets end (lengths_sent sent.now) self.old.sealed }
        ensures sending { is_sending result ≡ true }
    {
        let number = self.packets.count() as u64 + 1;
        if let Sent::Sealed(sealed) = sent {
            self.packets
                .keep(end, sealed.as_slice(), self.sealed.as_slice());
        }
        self.steps += 1;
        send_verdict(end, port_of(plan, end), number, sent)
    }

    /// The bytes of a packet by its number.
    pub fn dump(&mut self, alloc: Global, packet: u64) -> Result<Verdict, OutOfMemory>
        requires steps { self.old.steps < 2 ^ 28 }
        requires bounded { IsBounded self.old.ends self.old.packets.packets self.old.steps }
        ensures ends { (plan : PlanView) → EndsOrStays plan result self.old self.new (Event.Dump packet) }
        ensures sides { IfOk result (λ v. BesideStays self.old self.new) }
    {
        match self.packets.get(packet) {
            None => Ok(self.only(Verdict::Nothing)),
            Some((_, bytes)) => {
                let bytes = Bytes::copied(alloc, bytes)?;
                Ok(self.only(Verdict::Packet { packet, bytes }))
            }
        }
    }
}
