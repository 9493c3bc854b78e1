//! The receiver of one sub-stream, what it holds, and the checks of a packet under a Live key.

ghost use Rattle.std.specs.Prelude.{◌≡◌, ◌+◌, ◌<◌, ◌≤◌, ◌^◌, ◌*◌, ◌&&◌, Some, None, is_ok, is_some, not, true, false};
ghost use Rattle.std.specs.Prelude.{[], length, nat_lt, if◌then◌else◌, IfOk};
ghost use Rattle.gcm_seal.specs.Gcm.{verifies};
ghost use Rattle.ide_prefix.specs.Cut.{packet_of_view, lent_tag, IsView};
ghost use Rattle.ide_prefix.specs.Units.{encrypted_bytes};
ghost use Rattle.key_slots.specs.{slot_in as key_slot_in, is_one, is_empty, is_live, live_held, program_answer};
ghost use Rattle.spec_stream.specs.Slots.{receiving_draw};
ghost use Rattle.spec_stream.specs.Stream.{slot_in_set, posted_sum};
ghost use Rattle.sub_stream.specs.Answers.{answer_taken};
ghost use Rattle.sub_stream.specs.Facts.{held_packets, set_facts};
ghost use Rattle.sub_stream.specs.Gathered.{lent_totals, clear_of, no_packets};
ghost use Rattle.sub_stream.specs.Seen.{slot_pair, key_slot, is_programmed, live_key_seen};
ghost use Rattle.sub_stream.specs.Senders.{begun_where_empty};
ghost use Rattle.sub_stream.specs.Receivers.{fits_held, judged_packet, BufferAfter, holds_some, holds_apart};
ghost use Rattle.sub_stream.specs.Receivers.{key_or_answer, shown_keyed};
ghost use Rattle.sub_stream.specs.Receivers.{holds_after_answer, held_alone, held_unless_failed, holds_without};
ghost use Rattle.sub_stream.specs.Receivers.{is_accepted, without_older, slots_after, held_zero, held_one};

use crate::answer::Taken;
use crate::facts::{SetFacts, slot_facts};
use crate::lent::Delivered;
use crate::received::ReceivedPackets;
use gcm_seal::Gcm;
use ide_prefix::{PacketView, UnitBuf, carried_head, unit_iv};
use ide_types::{FailCause, KeySet, OutOfMemory, SubKind};
use key_slots::{Key, OnlyLive, SlotEmpty, SlotState, Slots};
use std::alloc::Global;
use std::marker::Model;

/// What a receiver's buffer holds: nothing that counts, packets without M in key set 0 or in key set 1, or an accepted
/// unit, decrypted.
#[derive(Clone, Copy, PartialEq, Eq)]
pub enum Holds {
    Nothing,
    HeldZero,
    HeldOne,
    Delivered,
}

impl Holds {
    /// Whether packets are held.
    pub fn some(self) -> bool
        ensures { result ≡ holds_some self }
    {
        match self {
            Holds::HeldZero | Holds::HeldOne => true,
            Holds::Nothing | Holds::Delivered => false,
        }
    }

    /// Whether packets are held in another key set than this.
    pub fn apart(self, k: bool) -> bool
        ensures { result ≡ holds_apart k self }
    {
        match self {
            Holds::HeldZero => k,
            Holds::HeldOne => !k,
            Holds::Nothing | Holds::Delivered => false,
        }
    }

    /// The held packets alone.
    pub fn held(self) -> Holds
        ensures { result ≡ held_alone self }
    {
        match self {
            Holds::Delivered => Holds::Nothing,
            holds => holds,
        }
    }

    /// What is held after an answer that came before a look at the tag.
    pub fn unless_failed(self, taken: &Taken) -> Holds
        ensures { result ≡ held_unless_failed self taken.now }
    {
        match taken {
            Taken::NotKeyed => self,
            _ => Holds::Nothing,
        }
    }

    /// What is held once this key set's slot is emptied.
    pub fn without(self, k: bool) -> Holds
        ensures { result ≡ holds_without k self }
    {
        match self {
            Holds::HeldZero if k => Holds::HeldZero,
            Holds::HeldOne if !k => Holds::HeldOne,
            _ => Holds::Nothing,
        }
    }

    /// What is held after an answer under a Live key.
    pub fn after(k: bool, taken: &Taken) -> Holds
        ensures { result ≡ holds_after_answer k taken.now }
    {
        match taken {
            Taken::Held { .. } if k => Holds::HeldOne,
            Taken::Held { .. } => Holds::HeldZero,
            Taken::Accepted { .. } => Holds::Delivered,
            _ => Holds::Nothing,
        }
    }
}

/// A receiver of one sub-stream: it holds packets until the last of their unit, and accepts whole units under a Live
/// key. Of two Live keys the older one goes with the first unit under the newer (PCI Express Base 6.0 section 6.33, in
/// this profile).
#[derive(Drop)]
pub struct Rx {
    stream: u8,
    sub: SubKind,
    aggregation: u8,
    // the units accepted under the Live key of set 0, and of set 1
    zero: u64,
    one: u64,
    slots: Slots,
    holds: Holds,
    unit: ReceivedPackets,
}

impl Model for Rx {
    ghost use Rattle.sub_stream.specs.Receivers.{Receiver, IsReceiver, receiver_slots_seen, packets_if_delivered};
    ghost use Rattle.sub_stream.specs.Receivers.{ahead_if_held};

    ghost Value = { Receiver };

    ghost view = { λ r. record {
      stream = r.stream;
      sub = r.sub;
      aggregation = r.aggregation;
      ahead = ahead_if_held r.holds r.unit.ahead;
      slots = receiver_slots_seen r.slots r.zero r.one r.holds r.unit.packets;
      delivered = packets_if_delivered r.holds r.unit.packets;
    } };

    ghost invariant = { λ r. IsReceiver r.aggregation r.slots r.holds r.unit };
}

// No unit is counted yet under a Programmed key of this set.
fn restart(slots: &Slots, set: KeySet, zero: &mut u64, one: &mut u64)
    ensures zero { zero.new ≡ (if is_programmed (key_slot_in slots.now (is_one set)) && not (is_one set) then 0
        else zero.old) }
    ensures one { one.new ≡ (if is_programmed (key_slot_in slots.now (is_one set)) && is_one set then 0 else one.old) }
{
    if slots.slot(set).0 == SlotState::Programmed {
        match set {
            KeySet::Zero => *zero = 0,
            KeySet::One => *one = 0,
        }
    }
}

// The units of a key set.
fn units_in(k: bool, zero: u64, one: u64) -> u64
    ensures { result ≡ (if k then one else zero) }
{
    if k { one } else { zero }
}

fn greater(zero: u32, one: u32) -> u32
    ensures { result ≡ (if nat_lt zero one then one else zero) }
{
    if zero < one { one } else { zero }
}

// Whether the packet joins what is held, and leaves room for the last of its unit.
fn fits(holds: Holds, unit: &ReceivedPackets, aggregation: u8, packet: &PacketView) -> bool
    ensures { result ≡ fits_held holds (length unit.now.packets) aggregation packet.now.prefix.k packet.now.prefix.m }
{
    let held = if holds.some() {
        unit.packets().count()
    } else {
        0
    };
    let full = aggregation as usize <= held + 1;
    !(holds.apart(packet.prefix.k) || !packet.prefix.m && full)
}

// The Live key of a packet's key set, if the packet fits what is held; else the answer that needs no look at the tag.
fn key_if_fits(slots: &Slots, k: bool, fits: bool) -> Result<(&Gcm, u32), Taken>
    ensures { shown_keyed result ≡ key_or_answer (live_held (key_slot_in slots.now k))
        (live_held (key_slot_in slots.now (not k))) fits }
{
    let set = KeySet::of_bit(k);
    match (slots.live_key(set), slots.live_key(set.other())) {
        (None, None) => Err(Taken::NotKeyed),
        (None, Some(_)) => Err(Taken::Fail(FailCause::Key)),
        (Some(key), _) if fits => Ok(key),
        (Some(_), _) => Err(Taken::Fail(FailCause::Unit)),
    }
}

impl Rx {
    ghost use Rattle.sub_stream.specs.Receivers.{new_receiver, receiver_outcome, receiver_after};
    ghost use Rattle.sub_stream.specs.Receivers.{dropped_receiver, programmed_receiver, gone_receiver};
    ghost use Rattle.sub_stream.specs.Receivers.{stopped_receiver, LaneUnitsAtMost};

    /// A receiver with no key. `aggregation` is 1, 2, 4 or 8, with which `buf` was reserved.
    pub fn make(
        alloc: Global,
        stream: u8,
        sub: SubKind,
        aggregation: u8,
        buf: UnitBuf,
    ) -> Result<Rx, OutOfMemory>
        requires some { 1 ≤ aggregation }
        requires few { aggregation ≤ 8 }
        requires same { buf.aggregation ≡ aggregation }
        ensures { IfOk result (λ s. s ≡ new_receiver stream sub aggregation) }
    {
        Ok(Rx {
            stream,
            sub,
            aggregation,
            zero: 0,
            one: 0,
            slots: Slots::make(alloc, false)?,
            holds: Holds::Nothing,
            unit: ReceivedPackets::new(buf),
        })
    }

    /// Takes a packet of this sub-stream that `cut` gave, and answers what became of it. `allowed` is the most that the
    /// posted counts of its unit may sum to; `total` is that of a closed stream (8 bytes), which is authenticated
    /// before the packets of unit 1 under a key. Only an accepted unit moves a counter or empties a slot; what it
    /// carries is lent until the next change. A failed check drops the held packets.
    pub fn take(&mut self, packet: &PacketView, allowed: u64, total: Option<&[u8; 8]>) -> Taken
        requires view { IsView packet.now }
        requires few { LaneUnitsAtMost (2 ^ 40) self.old.slots }
        ensures answer { Some result ≡ answer_taken (receiver_outcome self.old allowed (lent_totals total.entry)
            (packet_of_view packet.now)) }
        ensures receiver { self.new ≡ receiver_after self.old allowed (lent_totals total.entry)
            (packet_of_view packet.now) }
    {
        let k = packet.prefix.k;
        let fits = fits(self.holds, &self.unit, self.aggregation, packet);
        match key_if_fits(&self.slots, k, fits) {
            Err(taken) => {
                self.holds = self.holds.unless_failed(&taken);
                taken
            }
            Ok((cipher, draw)) => {
                let units = units_in(k, self.zero, self.one);
                keep_held(&mut self.unit, self.holds);
                let taken = take_under_key(
                    cipher,
                    draw,
                    units,
                    packet,
                    allowed,
                    total,
                    &mut self.unit,
                );
                count_accepted(&taken, k, &mut self.slots, &mut self.zero, &mut self.one);
                self.holds = Holds::after(k, &taken);
                taken
            }
        }
    }

    /// Drops what is held, and lends no packet any more.
    pub fn drop_held(&mut self)
        ensures { self.new ≡ dropped_receiver self.old }
    {
        self.holds = Holds::Nothing;
    }

    /// The packets of the unit that the last change accepted, none if it was another change.
    pub fn delivered(&self) -> Delivered<'_>
        ensures { result ≡ self.now.delivered }
    {
        match self.holds {
            Holds::Delivered => Delivered::of(&self.unit),
            _ => Delivered::none(),
        }
    }

    /// The sum of the posted counts of the unit that the last change accepted, 0 if it was another change.
    pub fn posted(&self) -> u64
        ensures value { result ≡ posted_sum self.now.delivered }
        ensures few { result ≤ 2040 }
    {
        match self.holds {
            Holds::Delivered => self.unit.packets().posted(),
            _ => 0,
        }
    }

    /// Puts a key of this draw into the slot, whose held packets go. Returns `OnlyLive` exactly if this slot is Live
    /// and the other holds no newer Live key: then the key comes back, and nothing changes.
    pub fn program(&mut self, set: KeySet, key: Key, draw: u32) -> Result<(), OnlyLive>
        ensures answer { result ≡ program_answer (slot_pair false self.old.slots) (is_one set) key }
        ensures receiver { self.new ≡ programmed_receiver self.old (is_one set) key draw }
    {
        match self.slots.program(set, key, draw) {
            Ok(()) => {
                self.holds = self.holds.without(set.is_one());
                Ok(())
            }
            Err(refusal) => Err(refusal),
        }
    }

    /// GO: a Programmed key is Live. Returns `SlotEmpty` exactly if the slot is Empty.
    pub fn go(&mut self, set: KeySet) -> Result<(), SlotEmpty>
        ensures answer { is_ok result ≡ not (is_empty (key_slot (slot_in_set self.old.slots (is_one set)))) }
        ensures receiver { self.new ≡ gone_receiver self.old (is_one set) }
    {
        self.holds = self.holds.held();
        restart(&self.slots, set, &mut self.zero, &mut self.one);
        self.slots.arm(set, false)
    }

    /// STOP: empties the slot, whose held packets go.
    pub fn stop(&mut self, set: KeySet)
        ensures { self.new ≡ stopped_receiver self.old (is_one set) }
    {
        self.holds = self.holds.without(set.is_one());
        self.slots.stop(set);
    }

    /// Empties both slots, and drops what is held.
    pub fn clear(&mut self)
        ensures { self.new ≡ new_receiver self.old.stream self.old.sub self.old.aggregation }
    {
        self.holds = Holds::Nothing;
        self.slots.clear();
    }

    /// The greatest draw of a Live key; `None` if no slot is Live.
    pub fn receiving_draw(&self) -> Option<u32>
        ensures { result ≡ receiving_draw self.now.slots }
    {
        match (
            self.slots.live_key(KeySet::Zero),
            self.slots.live_key(KeySet::One),
        ) {
            (None, None) => None,
            (Some((_, zero)), None) => Some(zero),
            (None, Some((_, one))) => Some(one),
            (Some((_, zero)), Some((_, one))) => Some(greater(zero, one)),
        }
    }

    /// The slots, lent.
    pub fn slots(&self) -> &Slots
        ensures { result.now ≡ slot_pair false self.now.slots }
    {
        &self.slots
    }
}

// ---- the checks of a packet under a Live key

// Leaves the held packets alone.
fn keep_held(unit: &mut ReceivedPackets, holds: Holds)
    ensures { unit.new ≡ (if holds_some holds then unit.old else no_packets unit.old.aggregation) }
{
    if !holds.some() {
        unit.clear();
    }
}

// Whether there is a tag, and it is that of the unit.
fn is_tagged(cipher: &Gcm, iv: &[u8; 12], unit: &ReceivedPackets, tag: Option<&[u8; 12]>) -> bool
    ensures { result ≡ verifies cipher.now iv.now (clear_of unit.now) (encrypted_bytes unit.now.packets)
        (lent_tag tag.entry) }
{
    match tag {
        Some(tag) => cipher.verify(iv, unit.packets().clear_bytes(), unit.packets().body(), tag),
        None => false,
    }
}

// Answers a packet under the key, for which the unit has room. Then the packet is with the held ones, or the unit is
// decrypted.
fn take_under_key(
    cipher: &Gcm,
    draw: u32,
    units: u64,
    packet: &PacketView,
    allowed: u64,
    total: Option<&[u8; 8]>,
    unit: &mut ReceivedPackets,
) -> Taken
    requires view { IsView packet.now }
    requires few { units ≤ 2 ^ 40 }
    requires room { length unit.old.packets < unit.old.aggregation }
    ensures answer { let x = live_key_seen units unit.old.packets (record { key = cipher.now; draw = draw }) in
        let begun = begun_where_empty unit.old (lent_totals total.entry) (units + 1) in
        Some result ≡ answer_taken (judged_packet begun.ahead allowed x (packet_of_view packet.now)) }
    ensures buffer { let x = live_key_seen units unit.old.packets (record { key = cipher.now; draw = draw }) in
        let begun = begun_where_empty unit.old (lent_totals total.entry) (units + 1) in
        BufferAfter begun x (packet_of_view packet.now)
        (judged_packet begun.ahead allowed x (packet_of_view packet.now)) unit.new }
    ensures aggregation { unit.new.aggregation ≡ unit.old.aggregation }
{
    carried_head();
    let n = units + 1;
    unit.begin_where_empty(total, n);
    unit.push(packet);
    if !packet.prefix.m {
        return Taken::Held { draw, unit: n };
    }
    let iv = unit_iv(packet.prefix.sub, n);
    if !is_tagged(cipher, &iv, unit, packet.tag) {
        return Taken::Fail(FailCause::Tag);
    }
    if unit.packets().posted() > allowed {
        return Taken::Fail(FailCause::Order);
    }
    unit.open(cipher, &iv);
    Taken::Accepted {
        draw,
        unit: n,
        count: unit.packets().count() as u8,
    }
}

// Empties the other slot if it is Live under an older draw.
fn retire_older(slots: &mut Slots, set: KeySet, draw: u32)
    requires { is_live (key_slot_in slots.old (is_one set)) ≡ true }
    ensures { slots.new ≡ without_older slots.old (is_one set) draw }
{
    if let Some((_, other)) = slots.live_key(set.other()) {
        if other < draw {
            slots.stop(set.other());
        }
    }
}

// Counts an accepted unit under this Live key, whose other slot is emptied if it is Live under an older draw.
fn count_accepted(taken: &Taken, k: bool, slots: &mut Slots, zero: &mut u64, one: &mut u64)
    requires live { is_live (key_slot_in slots.old k) ≡ true }
    requires few { (if k then one.old else zero.old) ≤ 2 ^ 40 }
    ensures slots { slots.new ≡ slots_after taken.now k slots.old }
    ensures zero { zero.new ≡ (if is_accepted taken.now && not k then zero.old + 1 else zero.old) }
    ensures one { one.new ≡ (if is_accepted taken.now && k then one.old + 1 else one.old) }
{
    if let Taken::Accepted { draw, .. } = taken {
        if k {
            *one += 1;
        } else {
            *zero += 1;
        }
        retire_older(slots, KeySet::of_bit(k), *draw);
    }
}

// ---- what is seen of it

// How many of these packets are held in a key set.
fn held_count(holds: Holds, k: bool, unit: &ReceivedPackets) -> u8
    ensures { result ≡ length (if k then held_one holds unit.now.packets else held_zero holds unit.now.packets) }
{
    match holds {
        Holds::HeldZero if !k => unit.packets().count() as u8,
        Holds::HeldOne if k => unit.packets().count() as u8,
        _ => 0,
    }
}

impl Rx {
    /// What is seen of both key sets.
    pub fn facts(&self) -> SetFacts
        ensures { result ≡ set_facts self.now.slots }
    {
        let zero = held_count(self.holds, false, &self.unit);
        let one = held_count(self.holds, true, &self.unit);
        SetFacts {
            zero: slot_facts(&self.slots, KeySet::Zero, self.zero, zero),
            one: slot_facts(&self.slots, KeySet::One, self.one, one),
        }
    }

    /// The packets of the next unit that are held in this key set, as they came.
    pub fn held(&self, k: bool) -> Delivered<'_>
        ensures { result ≡ held_packets (slot_in_set self.now.slots k) }
    {
        match self.holds {
            Holds::HeldZero if !k => Delivered::of(&self.unit),
            Holds::HeldOne if k => Delivered::of(&self.unit),
            _ => Delivered::none(),
        }
    }
}
