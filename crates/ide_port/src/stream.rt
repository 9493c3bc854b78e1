//! A stream at a port.

ghost use Rattle.std.specs.Prelude.{◌≡◌, ◌==◌, ◌&&◌, ◌||◌, ◌+◌, ◌<◌, ◌≤◌, ◌^◌, ℕ, Bool, Some, IfOk, true, false, not};
ghost use Rattle.std.specs.Prelude.{length, is_ok, vec_len, vec_capacity};
ghost use Rattle.ide_types.specs.Fits.{is_aggregation};
ghost use Rattle.ide_types.specs.declared.port.PortName.{PortName};
ghost use Rattle.ide_prefix.specs.Cut.{packet_of_view, IsView};
ghost use Rattle.key_slots.specs.{slot_in, is_one, is_empty, program_answer, live_set, Program, Go, Stop};
ghost use Rattle.spec_stream.specs.Sending.{sets_trusted};
ghost use Rattle.spec_stream.specs.Slots.{sealing_draw, receiving_draw};
ghost use Rattle.spec_stream.specs.Stream.{at_sub, slot_in_set};
ghost use Rattle.sub_stream.specs.Calls.{pair_at, sends_in, keyed_status, stream_status};
ghost use Rattle.sub_stream.specs.{answer_taken};
ghost use Rattle.stream_lanes.specs.{SealedAtMost, AcceptedAtMost};
ghost use Rattle.sub_stream.specs.Facts.{held_packets, lane_facts, stream_facts};

use crate::directions::Directions;
use ide_prefix::PacketView;
use ide_types::{Direction, KeySet, OutOfMemory, Side, StreamStatus, SubKind};
use key_slots::{Key, OnlyLive, SlotEmpty};
use std::alloc::Global;
use std::marker::Model;
use stream_lanes::{Fixed, MeasuredPackets, ReceiveLanes, SendLanes, SendRefusal, failed};
use sub_stream::{Delivered, LaneFacts, PACKET_ROOM, SYNC_ROOM, StreamFacts, Taken};

/// The most bytes that one send seals: a sync packet in each of two sub-streams, and the TLP's packet.
pub const SEND_ROOM: usize = PACKET_ROOM + 2 * SYNC_ROOM;

/// A stream at a port: its senders in the direction that the port sends, its receivers in the other (PCI Express Base
/// 6.0 section 6.33, in this profile).
#[derive(Drop)]
pub struct Stream {
    side: Side,
    directions: Directions,
}

impl Model for Stream {
    ghost use Rattle.ide_port.specs.StreamEnds.{StreamEnd};
    ghost use Rattle.ide_port.specs.Both.{end_of_directions, IsStream};

    ghost Value = { StreamEnd };

    ghost view = { λ s. end_of_directions s.side s.directions };

    ghost invariant = { λ s. IsStream s.directions };
}

// Whether a port of this side sends in the direction.
fn sends(side: Side, direction: Direction) -> bool
    ensures { result ≡ sends_in side direction }
{
    match side {
        Side::Host => direction == Direction::Downstream,
        Side::Device => direction == Direction::Upstream,
    }
}

// The status of a stream, by whether it failed, and whether some or all of its sub-streams have a Live key.
fn status_by_keys(failed: bool, some: bool, all: bool) -> StreamStatus
    ensures { result ≡ keyed_status failed some all }
{
    match (failed, some, all) {
        (true, _, _) => StreamStatus::Insecure,
        (false, _, true) => StreamStatus::Secure,
        (false, true, false) => StreamStatus::Partial,
        (false, false, false) => StreamStatus::Idle,
    }
}

impl Stream {
    ghost use Rattle.ide_port.specs.StreamEnds.{new_end, pair_in, end_outcome, end_taken, called_end, reset_end};
    ghost use Rattle.ide_port.specs.StreamSends.{IsSent, new_sending};

    /// The stream `id` of a port of this side, without keys: its units have at most `aggregation` packets, 1, 2, 4 or
    /// 8, and a key seals at most `limit` units. If it is closed, the total of units finished before is authenticated
    /// before the packets of a key's first unit.
    pub fn make(
        alloc: Global,
        side: Side,
        id: u8,
        aggregation: u8,
        closed: bool,
        limit: u64,
    ) -> Result<Stream, OutOfMemory>
        requires { is_aggregation aggregation ≡ true }
        ensures { IfOk result (λ s. s ≡ new_end side id aggregation closed limit) }
    {
        let fixed = Fixed {
            stream: id,
            aggregation,
            limit,
            closed,
        };
        let tx = SendLanes::make(alloc, fixed)?;
        let rx = ReceiveLanes::make(alloc, fixed)?;
        Ok(Stream {
            side,
            directions: Directions {
                tx,
                rx,
                failed: false,
            },
        })
    }

    /// Seals a TLP's header and payload, of at most 16 and 4,096 bytes, after the sync packets that must go first, and
    /// appends the packets to `out`, which has room for `SEND_ROOM` bytes more. `more` says that its unit goes
    /// on if it has room, `t` that the TLP is trusted. Refused, in this order: Insecure, NoKey of the sub-stream,
    /// Unfinished, NoKey of a sub-stream that needs a sync packet first, Worn of the sub-stream, Worn of one that needs
    /// a sync packet first. A refusal changes nothing.
    pub fn send(
        &mut self,
        sub: SubKind,
        head: &[u8],
        payload: &[u8],
        more: bool,
        t: bool,
        out: &mut Vec<u8>,
    ) -> Result<MeasuredPackets, SendRefusal>
        requires head_short { length head.now ≤ 16 }
        requires payload_short { length payload.now ≤ 4096 }
        requires room { vec_len out.old + SEND_ROOM ≤ vec_capacity out.old }
        requires few { SealedAtMost (2 ^ 40) self.old.state.tx }
        // At each port of its side, whatever the number of the next sealed packet is over the run.
        ensures sent { (port : PortName) (number : ℕ) (trusted : Bool) → port.side ≡ self.old.side
            → sets_trusted port trusted ≡ t
            → IsSent self.old head.now payload.now (new_sending port self.old.id sub more trusted) number result
            out.old.items out.new.items self.new }
        ensures capacity { vec_capacity out.old ≤ vec_capacity out.new }
    {
        if self.directions.failed {
            return Err(SendRefusal::Insecure);
        }
        self.directions.tx.send(sub, head, payload, more, t, out)
    }

    /// Takes a packet of the stream that `cut` gave, and answers what became of it; `None` if the stream is insecure.
    /// Only an accepted unit moves a counter or empties a slot; what it carries is lent until the next packet or call
    /// of key management. A failed check makes the stream insecure, and drops what its receivers hold.
    pub fn take(&mut self, packet: &PacketView) -> Option<Taken>
        requires view { IsView packet.now }
        requires few { AcceptedAtMost (2 ^ 40) self.old.state.rx }
        ensures answer { result ≡ answer_taken (end_outcome self.old (packet_of_view packet.now)) }
        ensures stream { self.new ≡ end_taken self.old (packet_of_view packet.now) }
    {
        if self.directions.failed {
            self.directions.rx.unlend();
            return None;
        }
        let taken = self.directions.rx.take(packet);
        self.directions.failed = failed(&taken);
        Some(taken)
    }

    /// The packets of an accepted unit that are lent.
    pub fn delivered(&self) -> Delivered<'_>
        ensures { result ≡ self.now.delivered }
    {
        self.directions.rx.delivered()
    }

    /// Puts a key of this draw into a slot. Returns `OnlyLive` exactly if this slot is Live and the other holds no
    /// newer Live key: then the key comes back, and no slot changes.
    pub fn program(
        &mut self,
        set: KeySet,
        direction: Direction,
        sub: SubKind,
        key: Key,
        draw: u32,
    ) -> Result<(), OnlyLive>
        ensures answer { result ≡ program_answer (pair_in self.old direction sub) (is_one set) key }
        ensures stream { self.new ≡ called_end self.old direction sub (Program (is_one set) key draw) }
    {
        let answer = self
            .directions
            .program(sends(self.side, direction), sub, set, key, draw);
        self.directions.settle();
        answer
    }

    /// GO: a Programmed key is Live, at a sender from the next unit on. Returns `SlotEmpty` exactly if the slot is
    /// Empty.
    pub fn go(&mut self, set: KeySet, direction: Direction, sub: SubKind) -> Result<(), SlotEmpty>
        ensures answer { is_ok result ≡ not (is_empty (slot_in (pair_in self.old direction sub) (is_one set))) }
        ensures stream { self.new ≡ called_end self.old direction sub (Go (is_one set)) }
    {
        let answer = self.directions.go(sends(self.side, direction), sub, set);
        self.directions.settle();
        answer
    }

    /// STOP: empties a slot, with the open unit or the held packets under its key.
    pub fn stop(&mut self, set: KeySet, direction: Direction, sub: SubKind)
        ensures { self.new ≡ called_end self.old direction sub (Stop (is_one set)) }
    {
        self.directions.stop(sends(self.side, direction), sub, set);
        self.directions.settle();
    }

    /// The stream's status: Insecure if a check failed, else Secure if all six sub-streams have a Live key, Idle if
    /// none has, and Partial between.
    pub fn status(&self) -> StreamStatus
        ensures { result ≡ stream_status self.now.state }
    {
        let some = self.directions.tx.any_live() || self.directions.rx.any_live();
        let all = self.directions.tx.all_live() && self.directions.rx.all_live();
        status_by_keys(self.directions.failed, some, all)
    }

    /// The key set of the Live slot of a sender; `None` if none is Live.
    pub fn live_set(&self, sub: SubKind) -> Option<KeySet>
        ensures { result ≡ live_set (pair_at true sub self.now.state) }
    {
        self.directions.tx.live_set(sub)
    }

    /// The draw of the Live key of a sender; `None` if none is Live.
    pub fn sealing_draw(&self, sub: SubKind) -> Option<u32>
        ensures { result ≡ sealing_draw (at_sub self.now.state.tx sub).slots }
    {
        self.directions.tx.sealing_draw(sub)
    }

    /// The greatest draw of a Live key of a receiver; `None` if none is Live.
    pub fn receiving_draw(&self, sub: SubKind) -> Option<u32>
        ensures { result ≡ receiving_draw (at_sub self.now.state.rx sub).slots }
    {
        self.directions.rx.receiving_draw(sub)
    }

    /// Drops all keys, open units, held packets, counts, and a failure.
    pub fn reset(&mut self)
        ensures { self.new ≡ reset_end self.old }
    {
        self.directions.tx.clear();
        self.directions.rx.clear();
        self.directions.failed = false;
    }
}

// ---- what is seen of it

impl Stream {
    // Of a sub-stream.
    fn lane_facts(&self, sub: SubKind) -> LaneFacts
        ensures { result ≡ lane_facts self.now.state sub }
    {
        LaneFacts {
            sender: self.directions.tx.facts(sub),
            receiver: self.directions.rx.facts(sub),
        }
    }

    /// What is seen of it.
    pub fn facts(&self) -> StreamFacts
        ensures { result ≡ stream_facts self.now.closed self.now.state }
    {
        StreamFacts {
            closed: self.directions.tx.fixed().closed,
            failed: self.directions.failed,
            status: self.status(),
            pr: self.lane_facts(SubKind::Pr),
            npr: self.lane_facts(SubKind::Npr),
            cpl: self.lane_facts(SubKind::Cpl),
        }
    }

    /// The packets of a sub-stream's next unit that its receiver holds in this key set, as they came.
    pub fn held(&self, sub: SubKind, k: bool) -> Delivered<'_>
        ensures { result ≡ held_packets (slot_in_set (at_sub self.now.state.rx sub).slots k) }
    {
        self.directions.rx.held(sub, k)
    }
}
