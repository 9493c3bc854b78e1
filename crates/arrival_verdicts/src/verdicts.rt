//! The verdicts of sends and of arrivals at ports (this profile).

ghost use Rattle.std.specs.Option.{option_and_then};
ghost use Rattle.std.specs.Prelude.{◌≡◌, ◌∷◌, [], ◌+◌, ◌++◌, ◌<◌, ◌≤◌, ◌^◌, None, Ok, length, map, if◌then◌else◌};
ghost use Rattle.tlp_layout.specs.Head.{FitsHead};
ghost use Rattle.ide_prefix.specs.Cut.{packet_of_view};
ghost use Rattle.ide_prefix.specs.Packet.{HasTlp};
ghost use Rattle.spec_links.specs.{owner_id};
ghost use Rattle.interface_host.specs.Managers.{running_grant};
ghost use Rattle.trusted_memory.specs.{Leads};
ghost use Rattle.guarded_memory.specs.{MmioLeads};
ghost use Rattle.link_stores.specs.{device_statuses, other_reads, reads_on};
ghost use Rattle.spec_links.specs.Sent.{reads_by, targets_at};
ghost use Rattle.sub_stream.specs.{numbered_packet};
ghost use Rattle.ide_port.specs.{refusal_verdict as verdict_refused, numbered_from};
ghost use Rattle.arrival_verdicts.specs.Verdicts.{grants_in, end_sent_verdict, head_effect, head_write};
ghost use Rattle.arrival_verdicts.specs.Verdicts.{queued_by, effects_from, packet_write, packet_stored, unit_writes};
ghost use Rattle.arrival_verdicts.specs.Verdicts.{of_unit, arrival_verdict, PacketCame, UnitCame};

use event_verdicts::{Effect, Effects, SealedPacket, SealedPackets, UnitName, Verdict};
use ide_port::{Arrival, SendRefusal, Sent};
use ide_prefix::{PacketView, packet_word, tlp_word};
use ide_types::{Binding, PortName, Side};
use interface_ends::DeviceInterfaces;
use interface_host::Interfaces;
use link_stores::LinkAccesses;
use sub_stream::Delivered;
use tlp_layout::{HeadView, TlpView, owner};
use trusted_memory::{Grant, ReadArrival, Trusted};

// ---- sends

// A sealed packet with its number and the end that sealed it.
fn described(end: PortName, number: u64, packet: &sub_stream::MeasuredPacket) -> SealedPacket
    ensures { result ≡ numbered_packet end number packet.now }
{
    SealedPacket {
        number,
        port: end,
        stream: packet.stream,
        sub: packet.sub,
        draw: packet.draw,
        unit: packet.unit,
        m: packet.m,
        k: packet.k,
        t: packet.t,
        posted: packet.posted,
        sync: packet.sync,
    }
}

// The packets of one send, numbered from `number` on.
fn descriptions(end: PortName, number: u64, packets: &[sub_stream::MeasuredPacket]) -> SealedPackets
    requires few { length packets.now ≤ 3 }
    requires fits { number ≤ 2 ^ 63 }
    ensures { result ≡ numbered_from end number packets.now }
{
    let mut list = SealedPackets::new();
    let mut number = number;
    for packet in packets {
        list.push(described(end, number, packet));
        number += 1;
    }
    list
}

fn refused(refusal: SendRefusal) -> Verdict
    ensures { result ≡ verdict_refused refusal }
{
    match refusal {
        SendRefusal::NoKey(sub) => Verdict::RefusedNoKey { sub },
        SendRefusal::Worn(sub, units) => Verdict::RefusedWorn { sub, units },
        SendRefusal::Unfinished => Verdict::RefusedUnfinished,
        SendRefusal::Insecure => Verdict::RefusedInsecure,
    }
}

/// The verdict of a send at an end of a line, which is at this port; the first packet that it sealed has this number
/// over the run.
pub fn send_verdict(end: PortName, port: PortName, number: u64, sent: &Sent) -> Verdict
    requires { number ≤ 2 ^ 63 }
    ensures { result ≡ end_sent_verdict end port number sent.now }
{
    match sent {
        Sent::Malformed(fault) => Verdict::Malformed {
            port,
            fault: tlp_word(*fault),
            place: fault.place(),
        },
        Sent::Plain => Verdict::Plain { port },
        Sent::Refused(refusal) => refused(*refusal),
        Sent::Sealed(sealed) => Verdict::Sealed {
            packets: descriptions(end, number, sealed.as_slice()),
        },
    }
}

// ---- arrivals

/// An end of a line, the port that it is at, and what effects there depend on beside memory and reads that wait: the
/// manager of interfaces at a host's port, the device's interfaces at a device's.
#[derive(Clone, Copy)]
pub struct ReceivingPort<'a> {
    pub end: PortName,
    pub port: PortName,
    pub manager: &'a Interfaces,
    pub interfaces: &'a DeviceInterfaces,
}

// What the manager says of the requester of a TLP with this header.
fn bound(link: u8, manager: &Interfaces, head: &HeadView) -> Option<Binding>
    ensures { result ≡ option_and_then (λ requester. running_grant manager.now link requester) (owner_id head.now) }
{
    match owner(head) {
        None => None,
        Some(requester) => manager.grant(link, requester),
    }
}

// The effect of a TLP at a host's port, whose packet came so in this unit.
fn requested(
    at: &ReceivingPort,
    unit: UnitName,
    came: ReadArrival,
    tlp: &TlpView,
    memory: &mut Trusted,
    access: &mut LinkAccesses,
) -> Effect
    requires spare { 1 ≤ memory.old.spare }
    requires fits { FitsHead tlp.now.head }
    ensures effect { result ≡ head_effect memory.old.contents.regions (grants_in at.now.manager.now) at.now.port.line
        (length access.old.host_reads) unit came.trusted (Ok tlp.now.head) }
    ensures reads { access.new.host_reads ≡ access.old.host_reads
        ++ queued_by (λ s. None) came result (Ok tlp.now.head) }
    ensures kept { access.new ≡ record access.old { host_reads = access.new.host_reads } }
    ensures regions { memory.new.contents.regions ≡ memory.old.contents.regions }
    ensures spare { memory.old.spare ≤ memory.new.spare + 1 }
    ensures leads { Leads memory.old.contents (head_write memory.old.contents.regions (grants_in at.now.manager.now)
        at.now.port.line unit came.trusted tlp.now.payload.now (Ok tlp.now.head) ∷ []) memory.new.contents }
{
    let grant = Grant {
        bound: bound(at.port.line, at.manager, &tlp.head),
        stream: unit.stream,
        draw: unit.draw,
    };
    access.request(memory, tlp, came, grant)
}

// The effect of a packet at a port that accepted it.
fn effect(
    at: &ReceivingPort,
    unit: UnitName,
    packet: &PacketView,
    memory: &mut Trusted,
    access: &mut LinkAccesses,
) -> Effect
    requires spare { 1 ≤ memory.old.spare }
    requires pages { 2 ≤ access.old.guarded.spare }
    requires tlp { HasTlp (packet_of_view packet.now) packet.now.tlp }
    ensures came { PacketCame memory.old.contents.regions (grants_in at.now.manager.now)
        (device_statuses access.old.floors at.now.interfaces.now) at.now.end at.now.port unit
        (packet_of_view packet.now)
        (reads_on at.now.port.side access.old) memory.old.contents access.old.guarded
        result (reads_on at.now.port.side access.new) memory.new.contents access.new.guarded }
    ensures others { other_reads at.now.port.side access.new ≡ other_reads at.now.port.side access.old }
    ensures regions { memory.new.contents.regions ≡ memory.old.contents.regions }
    ensures floors { access.new.floors ≡ access.old.floors }
    ensures sizes { access.new.guarded.sizes ≡ access.old.guarded.sizes }
    ensures carried { access.new.carried ≡ access.old.carried }
    ensures spare { memory.old.spare ≤ memory.new.spare + 1 }
    ensures pages { access.old.guarded.spare ≤ access.new.guarded.spare + 2 }
{
    let Some(head) = packet.tlp else {
        return Effect::Sync;
    };
    let came = ReadArrival {
        end: at.end,
        stream: unit.stream,
        draw: unit.draw,
        trusted: packet.prefix.t,
    };
    let payload = packet.body;
    let tlp = TlpView { head, payload };
    match at.port.side {
        Side::Device => access.deliver(at.interfaces, &tlp, came),
        Side::Host => requested(at, unit, came, &tlp, memory, access),
    }
}

// The effect of each packet of the unit that was accepted at a port.
fn effects(
    at: &ReceivingPort,
    unit: UnitName,
    packets: &Delivered,
    memory: &mut Trusted,
    access: &mut LinkAccesses,
) -> Effects
    requires spare { 8 ≤ memory.old.spare }
    requires pages { 16 ≤ access.old.guarded.spare }
    ensures came { UnitCame memory.old.contents.regions (grants_in at.now.manager.now)
        (device_statuses access.old.floors at.now.interfaces.now) at.now.end at.now.port unit packets.now
        (reads_on at.now.port.side access.old) memory.old.contents access.old.guarded
        result (reads_on at.now.port.side access.new) memory.new.contents access.new.guarded }
    ensures others { other_reads at.now.port.side access.new ≡ other_reads at.now.port.side access.old }
    ensures regions { memory.new.contents.regions ≡ memory.old.contents.regions }
    ensures floors { access.new.floors ≡ access.old.floors }
    ensures sizes { access.new.guarded.sizes ≡ access.old.guarded.sizes }
    ensures carried { access.new.carried ≡ access.old.carried }
{
    let mut list = Effects::new();
    for i in 0..packets.count() {
        let packet = packets.packet(i);
        list.push(effect(at, unit, &packet, memory, access));
    }
    list
}

// The effects of the unit that an arrival ended, if it ended one; `packets` are its packets.
fn unit_effects(
    at: &ReceivingPort,
    arrival: Arrival,
    packets: &Delivered,
    memory: &mut Trusted,
    access: &mut LinkAccesses,
) -> Effects
    requires spare { 8 ≤ memory.old.spare }
    requires pages { 16 ≤ access.old.guarded.spare }
    ensures effects { let xs = device_statuses access.old.floors at.now.interfaces.now in
        result ≡ of_unit arrival (λ unit. effects_from memory.old.contents.regions (grants_in at.now.manager.now) xs
        (length (reads_on at.now.port.side access.old)) at.now.port unit packets.now) }
    ensures reads { let xs = device_statuses access.old.floors at.now.interfaces.now in
        let ws = reads_on at.now.port.side access.old in
        reads_on at.now.port.side access.new ≡ ws
        ++ of_unit arrival (λ unit. reads_by (targets_at at.now.port.side xs) at.now.end unit
        (effects_from memory.old.contents.regions (grants_in at.now.manager.now) xs (length ws)
        at.now.port unit packets.now) packets.now) }
    ensures others { other_reads at.now.port.side access.new ≡ other_reads at.now.port.side access.old }
    ensures leads { let regions = memory.old.contents.regions in
        Leads memory.old.contents (unit_writes arrival (λ unit. map (packet_write regions (grants_in at.now.manager.now)
        at.now.port unit) packets.now)) memory.new.contents }
    ensures stored { let xs = device_statuses access.old.floors at.now.interfaces.now in
        MmioLeads access.old.guarded (of_unit arrival (λ unit. map (packet_stored xs at.now.port unit) packets.now))
        access.new.guarded }
    ensures regions { memory.new.contents.regions ≡ memory.old.contents.regions }
    ensures floors { access.new.floors ≡ access.old.floors }
    ensures sizes { access.new.guarded.sizes ≡ access.old.guarded.sizes }
    ensures carried { access.new.carried ≡ access.old.carried }
{
    match arrival {
        Arrival::Accepted(unit, _) => effects(at, unit, packets, memory, access),
        _ => Effects::new(),
    }
}

/// The verdict of an arrival at an end of a line, which is at this port; `effects` are those of the unit, if one was
/// accepted.
pub(crate) fn verdict_with(
    end: PortName,
    port: PortName,
    arrival: Arrival,
    effects: Effects,
) -> Verdict
    ensures { result ≡ arrival_verdict end port arrival (λ unit. effects) }
{
    match arrival {
        Arrival::Malformed(fault) => Verdict::Malformed {
            port,
            fault: packet_word(fault),
            place: fault.place(),
        },
        Arrival::Plain => Verdict::Plain { port },
        Arrival::Unknown(stream) => Verdict::Unknown { port, stream },
        Arrival::Insecure(stream) => Verdict::Insecure { port: end, stream },
        Arrival::NotKeyed(stream, sub) => Verdict::NotKeyed {
            port: end,
            stream,
            sub,
        },
        Arrival::Fail(stream, sub, cause) => Verdict::Fail {
            port: end,
            stream,
            sub,
            cause,
        },
        Arrival::Held(unit) => Verdict::Held { port: end, unit },
        Arrival::Accepted(unit, _) => Verdict::Accepted {
            port: end,
            unit,
            effects,
        },
    }
}

/// The verdict of an arrival at an end that is at a host's or a device's port; `packets` are those of the unit, if one
/// was accepted.
pub fn taken_verdict(
    at: &ReceivingPort,
    arrival: Arrival,
    packets: &Delivered,
    memory: &mut Trusted,
    access: &mut LinkAccesses,
) -> Verdict
    requires spare { 8 ≤ memory.old.spare }
    requires pages { 16 ≤ access.old.guarded.spare }
    ensures verdict { let xs = device_statuses access.old.floors at.now.interfaces.now in
        result ≡ arrival_verdict at.now.end at.now.port arrival (λ unit. effects_from memory.old.contents.regions
        (grants_in at.now.manager.now) xs (length (reads_on at.now.port.side access.old)) at.now.port unit packets.now) }
    ensures reads { let xs = device_statuses access.old.floors at.now.interfaces.now in
        let ws = reads_on at.now.port.side access.old in
        reads_on at.now.port.side access.new ≡ ws
        ++ of_unit arrival (λ unit. reads_by (targets_at at.now.port.side xs) at.now.end unit
        (effects_from memory.old.contents.regions (grants_in at.now.manager.now) xs (length ws)
        at.now.port unit packets.now) packets.now) }
    ensures others { other_reads at.now.port.side access.new ≡ other_reads at.now.port.side access.old }
    ensures leads { let regions = memory.old.contents.regions in
        Leads memory.old.contents (unit_writes arrival (λ unit. map (packet_write regions (grants_in at.now.manager.now)
        at.now.port unit) packets.now)) memory.new.contents }
    ensures stored { let xs = device_statuses access.old.floors at.now.interfaces.now in
        MmioLeads access.old.guarded (of_unit arrival (λ unit. map (packet_stored xs at.now.port unit) packets.now))
        access.new.guarded }
    ensures regions { memory.new.contents.regions ≡ memory.old.contents.regions }
    ensures floors { access.new.floors ≡ access.old.floors }
    ensures sizes { access.new.guarded.sizes ≡ access.old.guarded.sizes }
    ensures carried { access.new.carried ≡ access.old.carried }
{
    let effects = unit_effects(at, arrival, packets, memory, access);
    verdict_with(at.end, at.port, arrival, effects)
}
