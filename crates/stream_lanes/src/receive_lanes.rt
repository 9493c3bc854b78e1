//! The receivers of a stream, and of each of its sub-streams.

ghost use Rattle.std.specs.Prelude.{◌≡◌, ◌+◌, ◌<◌, ◌≤◌, ◌^◌, [], Some, IfOk, true, false, not, is_ok, if◌then◌else◌};
ghost use Rattle.std.specs.Prelude.{◌-◌, ◌*◌, ◌==◌};
ghost use Rattle.ide_types.specs.Sub.{is_same_sub, sub_bits};
ghost use Rattle.ide_types.specs.declared.sub.SubKind.TheVariants.{Pr, Npr, Cpl};
ghost use Rattle.ide_prefix.specs.Cut.{packet_of_view, IsView};
ghost use Rattle.key_slots.specs.{is_one, is_empty, program_answer, slot_in as key_slot_in, Program, Go, Stop};
ghost use Rattle.spec_stream.specs.Stream.{at_sub, dropped_held, slot_in_set};
ghost use Rattle.spec_stream.specs.Slots.{receiving_draw, any_live};
ghost use Rattle.sub_stream.specs.{answer_taken, slot_pair};
ghost use Rattle.stream_lanes.specs.Arrivals.{new_receive_ends, value_of_kind, lane_outcome, end_after, lanes_outcome};
ghost use Rattle.stream_lanes.specs.Arrivals.{receive_ends_after, is_fail, lent_lane, any_into, all_into, rested_into};
ghost use Rattle.stream_lanes.specs.Arrivals.{called_receivers, no_receivers, new_receive_end, no_rx, called_into};
ghost use Rattle.stream_lanes.specs.Arrivals.{count_in, AcceptedAtMost};
ghost use Rattle.spec_stream.specs.Sending.{is_posted};
ghost use Rattle.sub_stream.specs.Facts.{held_packets, receiver_facts};
ghost use Rattle.sub_stream.specs.Receivers.{is_accepted};

use crate::fixed::{Fixed, lent_total};
use ide_prefix::{PacketView, UnitBuf};
use ide_types::{KeySet, OutOfMemory, SubKind};
use key_slots::{Key, OnlyLive, SlotEmpty};
use std::alloc::Global;
use std::marker::Model;
use sub_stream::{Delivered, ReceiverFacts, Rx, Taken};

/// A receiver of one sub-stream with its counts.
#[derive(Drop)]
pub struct ReceiveLane {
    rx: Rx,
    sub: SubKind,
    closed: bool,
    // of the units accepted while the direction had a Live key: the sum of the posted counts of their packets, how many
    // packets, and how many units
    sum: u64,
    got: u64,
    total: u64,
}

impl Model for ReceiveLane {
    ghost use Rattle.stream_lanes.specs.Arrivals.{ReceiveEnd, IsReceiveLane};

    ghost Value = { ReceiveEnd };

    ghost view = { λ r. record {
      sub = r.sub;
      aggregation = r.rx.aggregation;
      closed = r.closed;
      kept = record {
        slots = r.rx.slots;
        sum = r.sum;
        got = r.got;
        total = r.total;
      };
      delivered = r.rx.delivered;
    } };

    ghost invariant = { λ r. IsReceiveLane r.rx r.closed r.sum r.got r.total };
}

// The most that the posted counts of a unit may sum to after so many accepted posted packets; any sum in the posted
// sub-stream.
fn allowed_sum(sub: SubKind, sum: u64, got: u64) -> u64
    requires { is_posted sub ≡ false → sum ≤ got }
    ensures { result ≡ (if sub_bits sub == 0 then u64.MAX else got - sum) }
{
    if sub == SubKind::Pr {
        u64::MAX
    } else {
        got - sum
    }
}

// Counts an accepted unit, whose posted counts sum to `posted`.
fn count(taken: &Taken, posted: u64, sum: &mut u64, got: &mut u64, total: &mut u64)
    requires posted { posted ≤ 2040 }
    requires sum { sum.old < 2 ^ 60 }
    requires got { got.old < 2 ^ 60 }
    requires total { total.old < 2 ^ 60 }
    ensures sum { sum.new ≡ (if is_accepted taken.now then sum.old + posted else sum.old) }
    ensures got { got.new ≡ (if is_accepted taken.now then got.old + count_in taken.now else got.old) }
    ensures total { total.new ≡ (if is_accepted taken.now then total.old + 1 else total.old) }
    ensures few { got.new ≤ (if is_accepted taken.now then got.old + 255 else got.old) }
{
    if let Taken::Accepted { count, .. } = taken {
        *sum += posted;
        *got += u64::from(*count);
        *total += 1;
    }
}

impl ReceiveLane {
    /// A receiver with no key, for whose units `buf` was reserved.
    pub fn make(
        alloc: Global,
        fixed: Fixed,
        sub: SubKind,
        buf: UnitBuf,
    ) -> Result<ReceiveLane, OutOfMemory>
        requires some { 1 ≤ fixed.aggregation }
        requires few { fixed.aggregation ≤ 8 }
        requires same { buf.aggregation ≡ fixed.aggregation }
        ensures { IfOk result (λ s. s ≡ new_receive_end sub fixed.aggregation fixed.closed) }
    {
        Ok(ReceiveLane {
            rx: Rx::make(alloc, fixed.stream, sub, fixed.aggregation, buf)?,
            sub,
            closed: fixed.closed,
            sum: 0,
            got: 0,
            total: 0,
        })
    }

    /// Whether a slot is Live.
    pub fn is_live(&self) -> bool
        ensures { result ≡ any_live self.now.kept.slots }
    {
        self.rx.slots().live().is_some()
    }

    /// The greatest draw of a Live key; `None` if no slot is Live.
    pub fn receiving_draw(&self) -> Option<u32>
        ensures { result ≡ receiving_draw self.now.kept.slots }
    {
        self.rx.receiving_draw()
    }

    /// How many packets of accepted units came.
    pub fn got(&self) -> u64
        ensures { result ≡ self.now.kept.got }
    {
        self.got
    }

    /// Takes a packet of this sub-stream after `got` accepted posted packets, and answers what became of it.
    pub fn take(&mut self, packet: &PacketView, got: u64) -> Taken
        requires view { IsView packet.now }
        requires sub { packet.now.prefix.sub ≡ self.old.sub }
        requires few { self.old.kept.total ≤ 2 ^ 40 }
        requires order { is_posted self.old.sub ≡ false → self.old.kept.sum ≤ got }
        ensures answer { Some result ≡ answer_taken (lane_outcome self.old got (packet_of_view packet.now)) }
        ensures lane { self.new ≡ end_after self.old (packet_of_view packet.now)
            (lane_outcome self.old got (packet_of_view packet.now)) }
    {
        let total = self.total.to_be_bytes();
        let lent = lent_total(self.closed, &total);
        let allowed = allowed_sum(self.sub, self.sum, got);
        let taken = self.rx.take(packet, allowed, lent);
        let posted = self.rx.posted();
        count(
            &taken,
            posted,
            &mut self.sum,
            &mut self.got,
            &mut self.total,
        );
        taken
    }

    /// Drops what is held.
    pub fn drop_held(&mut self)
        ensures kept { self.new.kept ≡ dropped_held self.old.kept }
        ensures rest { self.new ≡ record self.old { kept = self.new.kept; delivered = self.new.delivered } }
    {
        self.rx.drop_held();
    }

    /// The packets of the unit that the last call accepted, none if it was another call.
    pub fn delivered(&self) -> Delivered<'_>
        ensures { result ≡ self.now.delivered }
    {
        self.rx.delivered()
    }

    /// Counts from 0 again.
    pub fn forget(&mut self)
        requires { any_live self.old.kept.slots ≡ false }
        ensures { self.new ≡ record self.old {
          kept = record {
            slots = self.old.kept.slots;
            sum = 0;
            got = 0;
            total = 0;
          };
        } }
    {
        self.sum = 0;
        self.got = 0;
        self.total = 0;
    }

    /// Puts a key of this draw into the slot. Returns `OnlyLive` exactly if this slot is Live and the other holds no
    /// newer Live key: then the key comes back.
    pub fn program(&mut self, set: KeySet, key: Key, draw: u32) -> Result<(), OnlyLive>
        ensures answer { result ≡ program_answer (slot_pair false self.old.kept.slots) (is_one set) key }
        ensures kept { self.new.kept ≡ called_into self.old (Program (is_one set) key draw) }
        ensures rest { self.new ≡ record self.old { kept = self.new.kept; delivered = self.new.delivered } }
    {
        self.rx.program(set, key, draw)
    }

    /// GO: a Programmed key is Live. Returns `SlotEmpty` exactly if the slot is Empty.
    pub fn go(&mut self, set: KeySet) -> Result<(), SlotEmpty>
        ensures answer { is_ok result ≡ not (is_empty (key_slot_in (slot_pair false self.old.kept.slots)
            (is_one set))) }
        ensures kept { self.new.kept ≡ called_into self.old (Go (is_one set)) }
        ensures rest { self.new ≡ record self.old { kept = self.new.kept; delivered = self.new.delivered } }
    {
        self.rx.go(set)
    }

    /// STOP: empties the slot, whose held packets go.
    pub fn stop(&mut self, set: KeySet)
        ensures kept { self.new.kept ≡ called_into self.old (Stop (is_one set)) }
        ensures rest { self.new ≡ record self.old { kept = self.new.kept; delivered = self.new.delivered } }
    {
        self.rx.stop(set);
    }

    /// Empties both slots, drops what is held, and counts from 0 again.
    pub fn clear(&mut self)
        ensures kept { self.new.kept ≡ no_rx }
        ensures rest { self.new ≡ record self.old { kept = self.new.kept; delivered = self.new.delivered } }
    {
        self.rx.clear();
        self.sum = 0;
        self.got = 0;
        self.total = 0;
    }
}

/// The receivers of a stream.
#[derive(Drop)]
pub struct ReceiveLanes {
    pr: ReceiveLane,
    npr: ReceiveLane,
    cpl: ReceiveLane,
    // the sub-stream whose last unit is lent
    lent: Option<SubKind>,
}

impl Model for ReceiveLanes {
    ghost use Rattle.stream_lanes.specs.Arrivals.{ReceiveEnds, IsReceiveLanes, lent_lane_packets};

    ghost Value = { ReceiveEnds };

    ghost view = { λ r. record {
      aggregation = r.pr.aggregation;
      closed = r.pr.closed;
      rx = record {
        pr = r.pr.kept;
        npr = r.npr.kept;
        cpl = r.cpl.kept;
      };
      delivered = lent_lane_packets r.lent r.pr r.npr r.cpl;
    } };

    ghost invariant = { λ r. IsReceiveLanes r.pr r.npr r.cpl };
}

// The one of a sub-stream.
fn pick<'a>(
    sub: SubKind,
    pr: &'a ReceiveLane,
    npr: &'a ReceiveLane,
    cpl: &'a ReceiveLane,
) -> &'a ReceiveLane
    ensures { result.now ≡ value_of_kind sub pr.now npr.now cpl.now }
{
    match sub {
        SubKind::Pr => pr,
        SubKind::Npr => npr,
        SubKind::Cpl => cpl,
    }
}

// Takes a packet in its sub-stream.
fn take_in_lane(
    packet: &PacketView,
    pr: &mut ReceiveLane,
    npr: &mut ReceiveLane,
    cpl: &mut ReceiveLane,
) -> Taken
    requires view { IsView packet.now }
    requires pr { pr.old.sub ≡ Pr }
    requires npr { npr.old.sub ≡ Npr }
    requires cpl { cpl.old.sub ≡ Cpl }
    requires few_pr { pr.old.kept.total ≤ 2 ^ 40 }
    requires few_npr { npr.old.kept.total ≤ 2 ^ 40 }
    requires few_cpl { cpl.old.kept.total ≤ 2 ^ 40 }
    requires npr_order { npr.old.kept.sum ≤ pr.old.kept.got }
    requires cpl_order { cpl.old.kept.sum ≤ pr.old.kept.got }
    ensures answer { let p = packet_of_view packet.now in
        let lane = value_of_kind p.prefix.sub pr.old npr.old cpl.old in
        Some result ≡ answer_taken (lane_outcome lane pr.old.kept.got p) }
    ensures pr { let p = packet_of_view packet.now in
        pr.new ≡ (if is_same_sub p.prefix.sub Pr then end_after pr.old p (lane_outcome pr.old pr.old.kept.got p)
        else pr.old) }
    ensures npr { let p = packet_of_view packet.now in npr.new ≡ (if is_same_sub p.prefix.sub Npr then end_after npr.old
        p (lane_outcome npr.old pr.old.kept.got p) else npr.old) }
    ensures cpl { let p = packet_of_view packet.now in cpl.new ≡ (if is_same_sub p.prefix.sub Cpl then end_after cpl.old
        p (lane_outcome cpl.old pr.old.kept.got p) else cpl.old) }
{
    let got = pr.got();
    match packet.prefix.sub {
        SubKind::Pr => pr.take(packet, got),
        SubKind::Npr => npr.take(packet, got),
        SubKind::Cpl => cpl.take(packet, got),
    }
}

/// Whether a check failed.
pub fn failed(taken: &Taken) -> bool
    ensures { result ≡ is_fail taken.now }
{
    matches!(taken, Taken::Fail(_))
}

// Drops what is held, if a check failed.
fn drop_failed(taken: &Taken, lane: &mut ReceiveLane)
    ensures kept { lane.new.kept ≡ (if is_fail taken.now then dropped_held lane.old.kept else lane.old.kept) }
    ensures delivered { is_fail taken.now ≡ false → lane.new.delivered ≡ lane.old.delivered }
    ensures rest { lane.new ≡ record lane.old { kept = lane.new.kept; delivered = lane.new.delivered } }
{
    if failed(taken) {
        lane.drop_held();
    }
}

// The sub-stream whose unit was accepted.
fn lends(sub: SubKind, taken: &Taken) -> Option<SubKind>
    ensures { result ≡ lent_lane sub taken.now }
{
    match taken {
        Taken::Accepted { .. } => Some(sub),
        _ => None,
    }
}

impl ReceiveLanes {
    /// Receivers with no keys.
    pub fn make(alloc: Global, fixed: Fixed) -> Result<ReceiveLanes, OutOfMemory>
        requires some { 1 ≤ fixed.aggregation }
        requires few { fixed.aggregation ≤ 8 }
        ensures { IfOk result (λ r. r ≡ new_receive_ends fixed.aggregation fixed.closed) }
    {
        let pr = UnitBuf::reserve(alloc, fixed.aggregation)?;
        let npr = UnitBuf::reserve(alloc, fixed.aggregation)?;
        let cpl = UnitBuf::reserve(alloc, fixed.aggregation)?;
        Ok(ReceiveLanes {
            pr: ReceiveLane::make(alloc, fixed, SubKind::Pr, pr)?,
            npr: ReceiveLane::make(alloc, fixed, SubKind::Npr, npr)?,
            cpl: ReceiveLane::make(alloc, fixed, SubKind::Cpl, cpl)?,
            lent: None,
        })
    }

    /// Whether a slot is Live.
    pub fn any_live(&self) -> bool
        ensures { result ≡ any_into self.now.rx }
    {
        self.pr.is_live() || self.npr.is_live() || self.cpl.is_live()
    }

    /// Whether each sub-stream has a Live slot.
    pub fn all_live(&self) -> bool
        ensures { result ≡ all_into self.now.rx }
    {
        self.pr.is_live() && self.npr.is_live() && self.cpl.is_live()
    }

    /// The greatest draw of a Live key of a sub-stream; `None` if none is Live.
    pub fn receiving_draw(&self, sub: SubKind) -> Option<u32>
        ensures { result ≡ receiving_draw (at_sub self.now.rx sub).slots }
    {
        pick(sub, &self.pr, &self.npr, &self.cpl).receiving_draw()
    }

    /// Takes a packet, while the stream has not failed, and answers what became of it.
    pub fn take(&mut self, packet: &PacketView) -> Taken
        requires view { IsView packet.now }
        requires few { AcceptedAtMost (2 ^ 40) self.old.rx }
        ensures answer { Some result ≡ answer_taken (lanes_outcome self.old (packet_of_view packet.now)) }
        ensures lanes { self.new ≡ receive_ends_after self.old (packet_of_view packet.now)
            (lanes_outcome self.old (packet_of_view packet.now)) }
    {
        let sub = packet.prefix.sub;
        let taken = take_in_lane(packet, &mut self.pr, &mut self.npr, &mut self.cpl);
        drop_failed(&taken, &mut self.pr);
        drop_failed(&taken, &mut self.npr);
        drop_failed(&taken, &mut self.cpl);
        self.lent = lends(sub, &taken);
        taken
    }

    /// Ends the loan of what an accepted unit carried.
    pub fn unlend(&mut self)
        ensures { self.new ≡ record self.old { delivered = [] } }
    {
        self.lent = None;
    }

    /// The packets that are lent.
    pub fn delivered(&self) -> Delivered<'_>
        ensures { result ≡ self.now.delivered }
    {
        match self.lent {
            Some(sub) => pick(sub, &self.pr, &self.npr, &self.cpl).delivered(),
            None => Delivered::none(),
        }
    }

    /// Lets them count from 0 again if none has a Live slot.
    pub fn settle(&mut self)
        ensures { self.new ≡ record self.old { rx = rested_into self.old.rx } }
    {
        if !self.any_live() {
            self.pr.forget();
            self.npr.forget();
            self.cpl.forget();
        }
    }

    /// Puts a key of this draw into a slot of a sub-stream's receiver. Returns `OnlyLive` exactly if this slot is Live
    /// and the other holds no newer Live key: then the key comes back.
    pub fn program(
        &mut self,
        sub: SubKind,
        set: KeySet,
        key: Key,
        draw: u32,
    ) -> Result<(), OnlyLive>
        ensures answer { result ≡ program_answer (slot_pair false (at_sub self.old.rx sub).slots) (is_one set) key }
        ensures lanes { self.new ≡ called_receivers self.old sub (Program (is_one set) key draw) }
    {
        self.lent = None;
        match sub {
            SubKind::Pr => self.pr.program(set, key, draw),
            SubKind::Npr => self.npr.program(set, key, draw),
            SubKind::Cpl => self.cpl.program(set, key, draw),
        }
    }

    /// GO to a slot of a sub-stream's receiver. Returns `SlotEmpty` exactly if the slot is Empty.
    pub fn go(&mut self, sub: SubKind, set: KeySet) -> Result<(), SlotEmpty>
        ensures answer { is_ok result ≡ not (is_empty (key_slot_in (slot_pair false (at_sub self.old.rx sub).slots)
            (is_one set))) }
        ensures lanes { self.new ≡ called_receivers self.old sub (Go (is_one set)) }
    {
        self.lent = None;
        match sub {
            SubKind::Pr => self.pr.go(set),
            SubKind::Npr => self.npr.go(set),
            SubKind::Cpl => self.cpl.go(set),
        }
    }

    /// STOP: empties a slot of a sub-stream's receiver, whose held packets go.
    pub fn stop(&mut self, sub: SubKind, set: KeySet)
        ensures { self.new ≡ called_receivers self.old sub (Stop (is_one set)) }
    {
        self.lent = None;
        match sub {
            SubKind::Pr => self.pr.stop(set),
            SubKind::Npr => self.npr.stop(set),
            SubKind::Cpl => self.cpl.stop(set),
        }
    }

    /// Empties all slots, drops what is held or lent, and counts from 0 again.
    pub fn clear(&mut self)
        ensures { self.new ≡ record self.old { rx = no_receivers; delivered = [] } }
    {
        self.lent = None;
        self.pr.clear();
        self.npr.clear();
        self.cpl.clear();
    }
}

// ---- what is seen of them

impl ReceiveLane {
    /// What is seen of it.
    pub fn facts(&self) -> ReceiverFacts
        ensures { result ≡ receiver_facts self.now.kept }
    {
        ReceiverFacts {
            sets: self.rx.facts(),
            sum: self.sum,
            got: self.got,
            total: self.total,
        }
    }

    /// The packets of the next unit that are held in this key set, as they came.
    pub fn held(&self, k: bool) -> Delivered<'_>
        ensures { result ≡ held_packets (slot_in_set self.now.kept.slots k) }
    {
        self.rx.held(k)
    }
}

impl ReceiveLanes {
    /// What is seen of the receiver of a sub-stream.
    pub fn facts(&self, sub: SubKind) -> ReceiverFacts
        ensures { result ≡ receiver_facts (at_sub self.now.rx sub) }
    {
        pick(sub, &self.pr, &self.npr, &self.cpl).facts()
    }

    /// The packets of a sub-stream's next unit that are held in this key set, as they came.
    pub fn held(&self, sub: SubKind, k: bool) -> Delivered<'_>
        ensures { result ≡ held_packets (slot_in_set (at_sub self.now.rx sub).slots k) }
    {
        pick(sub, &self.pr, &self.npr, &self.cpl).held(k)
    }
}
