//! A port.

ghost use Rattle.std.specs.Prelude.{◌≡◌, ◌<◌, ◌≤◌, ◌^◌, ℕ, [], Ok, Some, IfOk, All, length, map};
ghost use Rattle.tlp_layout.specs.Head.{head_bytes};
ghost use Rattle.tlp_layout.specs.Tlp.{header, body, viewed_tlp};
ghost use Rattle.tlp_layout.specs.Reading.{read_of};
ghost use Rattle.tlp_layout.specs.Choice.{chosen_stream, choice_of_stream, plan_place};
ghost use Rattle.ide_types.specs.Fits.{FitsStream};
ghost use Rattle.ide_prefix.specs.Cut.{packet_of_view, IsView};
ghost use Rattle.ide_port.specs.StreamEnds.{reset_end};
ghost use Rattle.ide_port.specs.Kept.{arrival_said};

use crate::answer::{Arrival, Sent};
use crate::plans::{copied, lane, place, planned};
use crate::trusting::Trusting;
use crate::{SendBuffer, Stream};
use event_verdicts::UnitName;
use ide_prefix::{Cut, PacketView, cut};
use ide_types::{Items, KeySet, OutOfMemory, PortName, StreamPlan, StreamStatus, SubKind};
use key_host::HostPort;
use key_messages::{Place, ProgramFault, SlotPort};
use key_slots::{Key, OnlyLive};
use std::alloc::Global;
use std::marker::Model;
use sub_stream::{Delivered, StreamFacts, Taken};
use tlp_layout::{ChosenStream, OutgoingTlp, TlpView, choose};

/// A port at an end of a line with the line's streams (PCI Express Base 6.0 section 6.33, in this profile).
#[derive(Drop)]
pub struct Port {
    name: PortName,
    limit: u64,
    plans: Items<StreamPlan>,
    // those of the plans, in order
    streams: Vec<Stream>,
    // the place of the stream that lends what it accepted
    lent: Option<usize>,
}

impl Model for Port {
    ghost use Rattle.std.specs.Prelude.{map};
    ghost use Rattle.ide_port.specs.StreamEnds.{StreamEnd};
    ghost use Rattle.ide_port.specs.Ends.{PortEnd};
    ghost use Rattle.ide_port.specs.Kept.{IsKept, delivered_at};

    ghost Value = { PortEnd };

    ghost view = { λ p. record {
      name = p.name;
      plans = p.plans;
      limit = p.limit;
      states = map (λ (x : StreamEnd). x.state) p.streams.items;
      delivered = delivered_at p.streams.items p.lent;
    } };

    ghost invariant = { λ p. IsKept p.name.side p.limit p.plans p.streams.items p.lent };
}

// The header and the payload of a TLP's bytes.
#[tactic(auto, using(crate::proofs::Parts::parts_of))]
fn parts<'a>(bytes: &'a [u8], tlp: &TlpView) -> (&'a [u8], &'a [u8])
    requires { read_of bytes.now ≡ Ok (viewed_tlp tlp.now) }
    ensures head { result.0.now ≡ head_bytes (header (viewed_tlp tlp.now)) }
    ensures payload { result.1.now ≡ body (viewed_tlp tlp.now) }
    ensures head_short { length result.0.now ≤ 16 }
    ensures payload_short { length result.1.now ≤ 4096 }
{
    bytes.split_at(tlp.head().size())
}

/// The ID of a stream that was chosen.
pub fn stream_id(stream: Option<ChosenStream>) -> Option<u8>
    ensures { result ≡ chosen_stream (choice_of_stream stream) }
{
    match stream {
        None => None,
        Some(stream) => Some(stream.id),
    }
}

// What a stream said of a packet of a sub-stream.
fn arrival(stream: u8, sub: SubKind, taken: Option<Taken>) -> Arrival
    ensures { result ≡ arrival_said stream sub taken }
{
    match taken {
        None => Arrival::Insecure(stream),
        Some(Taken::NotKeyed) => Arrival::NotKeyed(stream, sub),
        Some(Taken::Fail(cause)) => Arrival::Fail(stream, sub, cause),
        Some(Taken::Held { draw, unit }) => Arrival::Held(UnitName {
            stream,
            sub,
            draw,
            unit,
        }),
        Some(Taken::Accepted { draw, unit, count }) => Arrival::Accepted(
            UnitName {
                stream,
                sub,
                draw,
                unit,
            },
            count,
        ),
    }
}

fn reset_streams(streams: &mut Vec<Stream>)
    ensures { streams.new.items ≡ map reset_end streams.old.items }
{
    for stream in streams.iter_mut() {
        stream.reset();
    }
}

// A stream of a port: its ID, and its place among the port's.
#[derive(Clone, Copy)]
struct StreamAt {
    id: u8,
    place: usize,
}

impl Port {
    ghost use Rattle.ide_port.specs.Ends.{new_port, found_stream, reset_port};
    ghost use Rattle.ide_prefix.specs.Reading.{cut_of};
    ghost use Rattle.tlp_layout.specs.Outgoing.{outgoing_of, stream_taken};
    ghost use Rattle.ide_port.specs.Sends.{IsSealedAtPort, IsSendStep, IsSentAtPort, IsStreamTaken, stream_step};
    ghost use Rattle.ide_port.specs.Arrivals.{take_step, packet_step};
    ghost use Rattle.ide_port.specs.Units.{PortUnitsAtMost};
    ghost use Rattle.ide_port.specs.Calls.{port_stream_status, live_in_port, sealing_draw_in, receiving_draw_in};

    /// The port of this name with these streams of its line, without keys; a key seals at most `limit` units.
    pub fn make(
        alloc: Global,
        name: PortName,
        plans: &[StreamPlan],
        limit: u64,
    ) -> Result<Port, OutOfMemory>
        requires { All FitsStream plans.now }
        ensures { IfOk result (λ p. p ≡ new_port name plans.now limit) }
    {
        let streams = planned(alloc, name.side, plans, limit)?;
        let plans = copied(alloc, plans)?;
        Ok(Port {
            name,
            limit,
            plans,
            streams,
            lent: None,
        })
    }

    /// The stream that a TLP takes here, if the bytes are one and it takes one (PCI Express Base 6.0 section 6.33).
    #[tactic(auto, unfolding(tlp_layout::specs::Outgoing::outgoing_of))]
    pub fn choose(&self, tlp: &OutgoingTlp) -> Option<ChosenStream>
        ensures { IsStreamTaken self.now tlp.now result }
    {
        match tlp.tlp() {
            Err(_) => None,
            Ok(view) => choose(&self.plans, self.name.side, &view.head()),
        }
    }

    /// Sends a TLP's bytes: the TLP takes a stream, which seals it after the sync packets that must go first, or it
    /// goes plain. `more` says that the unit goes on if it has room, `trusting` whether T is set. `out` is left with
    /// what was sealed, in place of what it had.
    pub fn send<T: Trusting>(
        &mut self,
        tlp: &OutgoingTlp,
        more: bool,
        trusting: &T,
        out: &mut SendBuffer,
    ) -> Sent
        requires { PortUnitsAtMost (2 ^ 40) self.old }
        // Whatever the number of the next sealed packet is over the run.
        ensures { (number : ℕ)
            → IsSentAtPort self.old tlp.now more (T.trusting trusting.now) number result self.new out.new }
    {
        let stream = self.choose(tlp);
        self.send_chosen(stream, tlp, more, trusting, out)
    }

    // Sends them on the stream that `choose` gave.
    #[tactic(auto, unfolding(tlp_layout::specs::Outgoing::outgoing_of))]
    fn send_chosen<T: Trusting>(
        &mut self,
        stream: Option<ChosenStream>,
        tlp: &OutgoingTlp,
        more: bool,
        trusting: &T,
        out: &mut SendBuffer,
    ) -> Sent
        requires few { PortUnitsAtMost (2 ^ 40) self.old }
        requires taken { IsStreamTaken self.old tlp.now stream }
        ensures { (number : ℕ)
            → IsSentAtPort self.old tlp.now more (T.trusting trusting.now) number result self.new out.new }
    {
        match (tlp.tlp(), stream) {
            (Err(fault), _) => {
                out.clear();
                Sent::Malformed(fault)
            }
            (Ok(_), None) => {
                out.clear();
                Sent::Plain
            }
            (Ok(view), Some(stream)) => {
                let trusted = trusting.is_trusted(&view.head(), stream.id);
                let chosen = StreamAt {
                    id: stream.id,
                    place: stream.place,
                };
                self.send_on_stream(chosen, tlp.bytes(), &view, more, trusted, out)
            }
        }
    }

    /// Sends a TLP's bytes on the stream of this ID, with this T, whatever stream association gives the TLP; its unit
    /// ends with it. `out` is left with what was sealed, in place of what it had.
    pub fn send_on(
        &mut self,
        stream: u8,
        tlp: &OutgoingTlp,
        trusted: bool,
        out: &mut SendBuffer,
    ) -> Sent
        requires { PortUnitsAtMost (2 ^ 40) self.old }
        ensures { (number : ℕ) → IsSealedAtPort self.old tlp.now stream trusted number result self.new out.new }
    {
        match (tlp.tlp(), place(self.plans.as_slice(), stream)) {
            (Err(fault), _) => {
                out.clear();
                Sent::Malformed(fault)
            }
            (Ok(_), None) => {
                out.clear();
                Sent::Plain
            }
            (Ok(view), Some(place)) => {
                let chosen = StreamAt { id: stream, place };
                self.send_on_stream(chosen, tlp.bytes(), &view, false, trusted, out)
            }
        }
    }

    // Sends a TLP on a stream.
    fn send_on_stream(
        &mut self,
        chosen: StreamAt,
        bytes: &[u8],
        tlp: &TlpView,
        more: bool,
        trusted: bool,
        out: &mut SendBuffer,
    ) -> Sent
        requires few { PortUnitsAtMost (2 ^ 40) self.old }
        requires read { read_of bytes.now ≡ Ok (viewed_tlp tlp.now) }
        requires place { plan_place self.old.plans chosen.id ≡ Some chosen.place }
        ensures { (number : ℕ) → let f = found_stream self.old.plans self.old.states chosen.id in
            IsSendStep self.old.name number result self.new out.new
            (stream_step self.old (viewed_tlp tlp.now) more trusted number f) }
    {
        let (head, payload) = parts(bytes, tlp);
        let sealed = &mut out.bytes;
        sealed.clear();
        let stream = &mut self.streams[chosen.place];
        match stream.send(tlp.class(), head, payload, more, trusted, sealed) {
            Ok(sealed) => Sent::Sealed(sealed),
            Err(refusal) => Sent::Refused(refusal),
        }
    }

    // Nothing of a stream changes, and nothing is lent any more.
    fn untaken(&mut self)
        ensures { self.new ≡ record self.old { delivered = [] } }
    {
        self.lent = None;
    }

    /// Takes bytes that arrive. What an accepted unit carries is lent until the next arrival or call of key management.
    pub fn take(&mut self, bytes: &[u8]) -> Arrival
        requires { PortUnitsAtMost (2 ^ 40) self.old }
        ensures answer { result ≡ (take_step self.old (cut_of bytes.now)).answer }
        ensures port { self.new ≡ (take_step self.old (cut_of bytes.now)).port }
    {
        match cut(bytes) {
            Err(fault) => {
                self.untaken();
                Arrival::Malformed(fault)
            }
            Ok(Cut::Plain) => {
                self.untaken();
                Arrival::Plain
            }
            Ok(Cut::Ide(packet)) => self.take_packet(&packet),
        }
    }

    // Takes a packet of a stream.
    fn take_packet(&mut self, packet: &PacketView) -> Arrival
        requires few { PortUnitsAtMost (2 ^ 40) self.old }
        requires view { IsView packet.now }
        ensures answer { let f = found_stream self.old.plans self.old.states packet.now.prefix.stream in
            result ≡ (packet_step self.old (packet_of_view packet.now) f).answer }
        ensures port { let f = found_stream self.old.plans self.old.states packet.now.prefix.stream in
            self.new ≡ (packet_step self.old (packet_of_view packet.now) f).port }
    {
        let id = packet.prefix.stream;
        let Some(place) = place(self.plans.as_slice(), id) else {
            self.untaken();
            return Arrival::Unknown(id);
        };
        self.lent = Some(place);
        let stream = &mut self.streams[place];
        arrival(id, packet.prefix.sub, stream.take(packet))
    }

    /// The packets of an accepted unit that are lent.
    pub fn delivered(&self) -> Delivered<'_>
        ensures { result ≡ self.now.delivered }
    {
        match self.lent {
            None => Delivered::none(),
            Some(place) => self.streams[place].delivered(),
        }
    }

    /// The status of a stream; `None` if the port has no such stream.
    pub fn status(&self, stream: u8) -> Option<StreamStatus>
        ensures { result ≡ port_stream_status self.now stream }
    {
        match place(self.plans.as_slice(), stream) {
            None => None,
            Some(place) => Some(self.streams[place].status()),
        }
    }

    /// The key set of the Live slot of a stream's sender in a sub-stream; `None` if none is Live.
    pub fn live_set(&self, stream: u8, sub: SubKind) -> Option<KeySet>
        ensures { result ≡ live_in_port self.now stream sub }
    {
        match place(self.plans.as_slice(), stream) {
            None => None,
            Some(place) => self.streams[place].live_set(sub),
        }
    }

    /// The draw of the Live key of a stream's sender in a sub-stream; `None` if none is Live.
    pub fn sealing_draw(&self, stream: u8, sub: SubKind) -> Option<u32>
        ensures { result ≡ sealing_draw_in self.now stream sub }
    {
        match place(self.plans.as_slice(), stream) {
            None => None,
            Some(place) => self.streams[place].sealing_draw(sub),
        }
    }

    /// The greatest draw of a Live key of a stream's receiver in a sub-stream; `None` if none is Live.
    pub fn receiving_draw(&self, stream: u8, sub: SubKind) -> Option<u32>
        ensures { result ≡ receiving_draw_in self.now stream sub }
    {
        match place(self.plans.as_slice(), stream) {
            None => None,
            Some(place) => self.streams[place].receiving_draw(sub),
        }
    }

    /// The ID of the stream that a TLP takes here, if the bytes are one and it takes one.
    pub fn outgoing_stream(&self, tlp: &OutgoingTlp) -> Option<u8>
        ensures { result ≡ stream_taken (outgoing_of self.now.plans self.now.name.side tlp.now) }
    {
        stream_id(self.choose(tlp))
    }

    /// Drops all keys, open units, held packets, counts and failures.
    pub fn reset(&mut self)
        ensures { self.new ≡ reset_port self.old }
    {
        reset_streams(&mut self.streams);
        self.lent = None;
    }
}

impl SlotPort for Port {
    ghost use Rattle.std.specs.Prelude.{◌≡◌};
    ghost use Rattle.ide_port.specs.Calls.{slot_pair_at, unfinished_at, called_port};

    ghost slots = { λ port place. slot_pair_at port place };

    ghost unfinished = { λ port place. unfinished_at port place };

    ghost moves = { λ before call after. after ≡ called_port call before };

    fn program(
        &mut self,
        place: Place,
        set: KeySet,
        key: Key,
        draw: u32,
    ) -> Result<(), ProgramFault> {
        self.lent = None;
        match lane(self.plans.as_slice(), place.stream, place.sub) {
            None => Err(ProgramFault::NoPlace(key)),
            Some((index, sub)) => {
                let stream = &mut self.streams[index];
                match stream.program(set, place.direction, sub, key, draw) {
                    Ok(()) => Ok(()),
                    Err(OnlyLive { key }) => Err(ProgramFault::OnlyLive(key)),
                }
            }
        }
    }

    fn go(&mut self, place: Place, set: KeySet) -> bool {
        self.lent = None;
        match lane(self.plans.as_slice(), place.stream, place.sub) {
            None => false,
            Some((index, sub)) => {
                let stream = &mut self.streams[index];
                stream.go(set, place.direction, sub).is_ok()
            }
        }
    }

    fn stop(&mut self, place: Place, set: KeySet) -> bool {
        self.lent = None;
        match lane(self.plans.as_slice(), place.stream, place.sub) {
            None => false,
            Some((index, sub)) => {
                let stream = &mut self.streams[index];
                stream.stop(set, place.direction, sub);
                true
            }
        }
    }
}

impl HostPort for Port {
    ghost use Rattle.ide_port.specs.Calls.{port_stream_status, live_in_port};

    ghost status_of = { λ port stream. port_stream_status port stream };

    ghost live_of = { λ port stream sub. live_in_port port stream sub };

    fn status(&self, stream: u8) -> Option<StreamStatus> {
        Port::status(self, stream)
    }

    fn live_set(&self, stream: u8, sub: SubKind) -> Option<KeySet> {
        Port::live_set(self, stream, sub)
    }
}

// ---- what is seen of it

impl Port {
    ghost use Rattle.ide_port.specs.Facts.{held_in_port, stream_facts_in};

    /// What is seen of a stream; `None` if the port has no such stream.
    pub fn facts(&self, stream: u8) -> Option<StreamFacts>
        ensures { result ≡ stream_facts_in self.now stream }
    {
        match place(self.plans.as_slice(), stream) {
            None => None,
            Some(place) => Some(self.streams[place].facts()),
        }
    }

    /// Its streams, as the topology has them.
    pub fn plans(&self) -> &[StreamPlan]
        ensures { result.now ≡ self.now.plans }
    {
        self.plans.as_slice()
    }

    /// The packets of the next unit of a stream's sub-stream that its receiver holds in this key set, as they came;
    /// none if the port has no such stream.
    pub fn held(&self, stream: u8, sub: SubKind, k: bool) -> Delivered<'_>
        ensures { result ≡ held_in_port self.now stream sub k }
    {
        match place(self.plans.as_slice(), stream) {
            None => Delivered::none(),
            Some(place) => self.streams[place].held(sub, k),
        }
    }
}
