//! The sender of one sub-stream, and the bytes of the packets that it seals (this profile).

ghost use Rattle.std.specs.Prelude.{◌≡◌, ◌==◌, ◌&&◌, ◌||◌, ◌^◌, false, ℕ, ◌+◌, ◌<◌, ◌≤◌, List, ◌++◌, [], length};
ghost use Rattle.std.specs.Prelude.{vec_len, vec_capacity, is_ok, not, true, if◌then◌else◌, IfOk, Some, Ok};
ghost use Rattle.std.specs.Option.{option_map};
ghost use Rattle.gcm_seal.specs.Gcm.{masked_bytes, tag_of};
ghost use Rattle.ide_prefix.specs.Packet.{packet_bytes, prefix_bytes, sync_head};
ghost use Rattle.ide_prefix.specs.Units.{encrypted_bytes};
ghost use Rattle.key_slots.specs.{slot_in as key_slot_in, is_one, is_empty, is_live, is_armed as is_armed_key};
ghost use Rattle.key_slots.specs.{program_answer, DrawnKey, live_held};
ghost use Rattle.spec_stream.specs.Slots.{sealing_draw};
ghost use Rattle.spec_stream.specs.Stream.{ended_slots, slot_in_set};
ghost use Rattle.sub_stream.specs.Facts.{set_facts};
ghost use Rattle.sub_stream.specs.Gathered.{clear_of, lent_totals, with_packet};
ghost use Rattle.sub_stream.specs.Masked.{masked_packet, packet_with_tag};
ghost use Rattle.sub_stream.specs.Gathered as gathered;
ghost use Rattle.sub_stream.specs.Seen.{in_use, sender_slots_seen, has_live, both_live};
ghost use Rattle.sub_stream.specs.Seen.{has_armed, is_programmed, slot_pair, key_slot};
ghost use Rattle.sub_stream.specs.Senders.{begun_where_empty, carried_content, tlp_content, sync_content};

use crate::answer::{MeasuredPacket, TxRefusal};
use crate::facts::{SetFacts, slot_facts};
use crate::unit_packets::UnitPackets;
use gcm_seal::{Gcm, MAX_BYTES};
use ide_prefix::{Prefix, SYNC_FIRST, UnitBuf, unit_iv, write_prefix};
use ide_types::{KeySet, OutOfMemory, SubKind};
use key_slots::{Key, OnlyLive, SlotEmpty, SlotState, Slots};
use std::alloc::Global;
use std::marker::Model;

/// The most bytes that a TLP's header has: four double words (PCI Express Base 6.0 section 2.2).
pub const TLP_HEAD_BYTES: usize = 16;

/// The most bytes that a TLP's payload has: 1,024 double words (PCI Express Base 6.0 section 2.2).
pub const PAYLOAD_BYTES: usize = 4_096;

/// The most bytes of a packet: 4 of its prefix, a header, a payload, and 12 of the tag.
pub const PACKET_ROOM: usize = 4_128;

/// The bytes of a sync packet: 4 of its prefix, 12 of its header, and 12 of the tag.
pub const SYNC_ROOM: usize = 28;

// The bytes of a packet's prefix.
const PREFIX_BYTES: usize = 4;

// The bytes of a unit's tag.
const TAG_BYTES: usize = 12;

// The header of a sync packet.
const SYNC_HEAD: [u8; 12] = [SYNC_FIRST, 0, 0, 0, 0, 0, 0, 0, 0, 0, 0, 0];

/// A sender of one sub-stream: it seals units of at most `aggregation` packets under the Live key, and at most as many
/// as its limit under one key. A newer key waits for the end of an open unit (PCI Express Base 6.0 section 6.33).
#[derive(Drop)]
pub struct Tx {
    stream: u8,
    sub: SubKind,
    aggregation: u8,
    limit: u64,
    // the units finished under the Live key
    units: u64,
    slots: Slots,
    unit: UnitPackets,
}

impl Model for Tx {
    ghost use Rattle.sub_stream.specs.Seen.{sender_slots_seen};
    ghost use Rattle.sub_stream.specs.Senders.{Sender, IsSender};

    ghost Value = { Sender };

    ghost view = { λ s. record {
      stream = s.stream;
      sub = s.sub;
      aggregation = s.aggregation;
      limit = s.limit;
      ahead = s.unit.ahead;
      slots = sender_slots_seen s.slots s.units s.unit.packets;
    } };

    ghost invariant = { λ s. IsSender s.aggregation s.limit s.units s.slots s.unit };
}

/// The key that seals a sender's next packet, by its key set (1 if true) and its draw: `Tx::ready` gives it.
#[derive(Clone, Copy)]
pub struct ReadyKey {
    k: bool,
    draw: u32,
}

// The Live key of a sender.
fn live_of(slots: &Slots) -> Option<ReadyKey>
    ensures { result ≡ option_map (λ x. record { k = x.0; draw = x.1.draw }) (in_use slots.now) }
{
    match (slots.live_key(KeySet::Zero), slots.live_key(KeySet::One)) {
        (Some((_, draw)), _) => Some(ReadyKey { k: false, draw }),
        (None, Some((_, draw))) => Some(ReadyKey { k: true, draw }),
        (None, None) => None,
    }
}

// The prepared form of the Live key of this set, lent.
fn cipher_of(slots: &Slots, k: bool) -> &Gcm
    requires { is_live (key_slot_in slots.now k) ≡ true }
    ensures { (x : DrawnKey) → live_held (key_slot_in slots.now k) ≡ Some x → result.now ≡ x.key }
{
    match slots.live_key(KeySet::of_bit(k)) {
        Some((cipher, _)) => cipher,
        None => unreachable!(),
    }
}

fn is_armed(slots: &Slots) -> bool
    ensures { result ≡ has_armed slots.now }
{
    slots.slot(KeySet::Zero).0 == SlotState::Armed || slots.slot(KeySet::One).0 == SlotState::Armed
}

/// Begins unit `n` if no packet is there; the total comes before the first unit.
pub fn begin_where_empty(unit: &mut UnitPackets, total: Option<&[u8; 8]>, n: u64)
    ensures { unit.new ≡ begun_where_empty unit.old (lent_totals total.entry) n }
{
    if unit.count() == 0 {
        unit.begin(if n == 1 { total } else { None });
    }
}

// Whether the next packet is the last of its unit.
fn is_last(unit: &UnitPackets, aggregation: u8, more: bool) -> bool
    ensures { result ≡ (not more || (length unit.now.packets + 1 == aggregation)) }
{
    let full = unit.count() + 1 == aggregation as usize;
    !more || full
}

// Ends the open unit: it counts, and a key that waited for that is Live.
fn end_unit(slots: &mut Slots, units: &mut u64, unit: &mut UnitPackets, last: bool)
    requires live { has_live slots.old ≡ true }
    requires few { units.old + 1 < 2 ^ 64 }
    ensures slots { sender_slots_seen slots.new units.new unit.new.packets
        ≡ (if last then ended_slots (sender_slots_seen slots.old units.old unit.old.packets) else sender_slots_seen
        slots.old units.old
        unit.old.packets) }
    ensures unit { unit.new ≡ (if last then gathered.no_packets unit.old.aggregation else unit.old) }
    ensures sender { slots.new.sender ≡ slots.old.sender }
    ensures live { has_live slots.new ≡ true }
    ensures one_live { both_live slots.old ≡ false → both_live slots.new ≡ false }
    ensures units { units.new ≤ (if last then units.old + 1 else units.old) }
{
    if last {
        *units = if is_armed(slots) { 0 } else { *units + 1 };
        slots.ended();
        unit.clear();
    }
}

// The units under the Live key after a GO, which takes a Programmed key into use if no unit is open.
fn units_after_go(slots: &Slots, set: KeySet, unfinished: bool, units: u64) -> u64
    ensures { result ≡ (if is_programmed (key_slot_in slots.now (is_one set)) && not unfinished then 0 else units) }
{
    let programmed = slots.slot(set).0 == SlotState::Programmed;
    if programmed && !unfinished { 0 } else { units }
}

// The units under the Live key after a STOP, which takes an Armed key of the other set into use.
fn units_after_stop(slots: &Slots, set: KeySet, units: u64) -> u64
    ensures { result ≡ (if is_armed_key (key_slot_in slots.now (not (is_one set))) then 0 else units) }
{
    if slots.slot(set.other()).0 == SlotState::Armed {
        0
    } else {
        units
    }
}

// Drops an open unit under the key of this slot.
fn drop_unit(slots: &Slots, set: KeySet, unit: &mut UnitPackets)
    ensures { unit.new ≡ (if is_live (key_slot_in slots.now (is_one set)) then gathered.no_packets unit.old.aggregation
        else unit.old) }
{
    if slots.slot(set).0 == SlotState::Live {
        unit.clear();
    }
}

impl Tx {
    ghost use Rattle.sub_stream.specs.Senders.{Content, new_sender, ready_of, is_unfinished, sealing_of};
    ghost use Rattle.sub_stream.specs.Senders.{programmed_sender, gone_sender, stopped_sender};

    /// A sender with no key. `aggregation` is 1, 2, 4 or 8, with which `buf` was reserved; `limit` is how many units
    /// one key may seal.
    pub fn make(
        alloc: Global,
        stream: u8,
        sub: SubKind,
        aggregation: u8,
        limit: u64,
        buf: UnitBuf,
    ) -> Result<Tx, OutOfMemory>
        requires some { 1 ≤ aggregation }
        requires few { aggregation ≤ 8 }
        requires same { buf.aggregation ≡ aggregation }
        ensures { IfOk result (λ s. s ≡ new_sender stream sub aggregation limit) }
    {
        Ok(Tx {
            stream,
            sub,
            aggregation,
            limit,
            units: 0,
            slots: Slots::make(alloc, true)?,
            unit: UnitPackets::new(buf),
        })
    }

    /// The key that seals the next packet. Returns `NoKey` if no slot is Live, and `Worn` if a unit would begin and the
    /// Live key has sealed as many as it may.
    pub fn ready(&self) -> Result<ReadyKey, TxRefusal>
        ensures { result ≡ ready_of self.now }
    {
        let worn = self.unit.count() == 0 && self.units == self.limit;
        match live_of(&self.slots) {
            None => Err(TxRefusal::NoKey),
            Some(_) if worn => Err(TxRefusal::Worn(self.limit)),
            Some(key) => Ok(key),
        }
    }

    /// Whether a unit was begun and not ended.
    pub fn unfinished(&self) -> bool
        ensures { result ≡ is_unfinished self.now }
    {
        self.unit.count() != 0
    }

    // Seals what is carried, and appends its packet.
    fn seal_carried(
        &mut self,
        key: ReadyKey,
        carried: &PacketParts,
        more: bool,
        total: Option<&[u8; 8]>,
        out: &mut Vec<u8>,
    ) -> MeasuredPacket
        requires ready { ready_of self.old ≡ Ok key }
        requires head { (if carried.now.sync then sync_head else carried.now.head.now) ≡ carried.now.head.now }
        requires payload { (if carried.now.sync then [] else carried.now.payload.now) ≡ carried.now.payload.now }
        requires head_short { length carried.now.head.now ≤ TLP_HEAD_BYTES }
        requires payload_short { length carried.now.payload.now ≤ PAYLOAD_BYTES }
        requires room { vec_len out.old + PREFIX_BYTES + length carried.now.head.now + length carried.now.payload.now
            + TAG_BYTES ≤ vec_capacity out.old }
        ensures answer { result ≡ (sealing_of self.old (lent_totals total.entry)
            (carried_content carried.now) more).description }
        ensures sender { self.new ≡ (sealing_of self.old (lent_totals total.entry)
            (carried_content carried.now) more).sender }
        ensures bytes { out.new.items ≡ out.old.items ++ packet_bytes (sealing_of self.old (lent_totals total.entry)
            (carried_content carried.now) more).packet }
        ensures capacity { vec_capacity out.old ≤ vec_capacity out.new }
    {
        let cipher = cipher_of(&self.slots, key.k);
        let m = is_last(&self.unit, self.aggregation, more);
        let unit = self.units + 1;
        let prefix = Prefix {
            m,
            k: key.k,
            t: carried.t,
            sub: self.sub,
            stream: self.stream,
            posted: carried.posted,
        };
        let iv = unit_iv(self.sub, unit);
        let start = out.len();
        begin_where_empty(&mut self.unit, total, unit);
        append_packet(
            out,
            cipher,
            &iv,
            &prefix,
            carried.head,
            carried.payload,
            &mut self.unit,
        );
        end_unit(&mut self.slots, &mut self.units, &mut self.unit, m);
        MeasuredPacket {
            stream: self.stream,
            sub: self.sub,
            draw: key.draw,
            unit,
            m,
            k: key.k,
            t: carried.t,
            posted: carried.posted,
            sync: carried.sync,
            length: out.len() - start,
        }
    }

    /// Seals a TLP's header and payload, and appends its packet to `out`, which has room for `PACKET_ROOM` bytes more.
    /// `key` is what `ready` answers of this sender. `posted` is the posted count, 0 in the posted sub-stream; `more`
    /// says that the unit goes on if it has room, and `t` that the TLP is trusted. `total` is that of a closed stream
    /// (8 bytes): it is authenticated before the packets of unit 1 under a key, and is the same for all packets of one
    /// unit.
    pub fn seal(
        &mut self,
        key: ReadyKey,
        head: &[u8],
        payload: &[u8],
        posted: u8,
        more: bool,
        t: bool,
        total: Option<&[u8; 8]>,
        out: &mut Vec<u8>,
    ) -> MeasuredPacket
        requires ready { ready_of self.old ≡ Ok key }
        requires head_short { length head.now ≤ TLP_HEAD_BYTES }
        requires payload_short { length payload.now ≤ PAYLOAD_BYTES }
        requires room { vec_len out.old + PACKET_ROOM ≤ vec_capacity out.old }
        ensures answer { result ≡ (sealing_of self.old (lent_totals total.entry)
            (tlp_content head.now payload.now posted t) more).description }
        ensures sender { self.new ≡ (sealing_of self.old (lent_totals total.entry)
            (tlp_content head.now payload.now posted t) more).sender }
        ensures bytes { out.new.items ≡ out.old.items ++ packet_bytes (sealing_of self.old (lent_totals total.entry)
            (tlp_content head.now payload.now posted t) more).packet }
        ensures capacity { vec_capacity out.old ≤ vec_capacity out.new }
    {
        let carried = PacketParts {
            head,
            payload,
            posted,
            t,
            sync: false,
        };
        self.seal_carried(key, &carried, more, total, out)
    }

    /// Seals a sync packet, which ends its unit, and appends it to `out`, which has room for `SYNC_ROOM` bytes more.
    /// `key`, `posted` and `total` are as for `seal`.
    pub fn sync(
        &mut self,
        key: ReadyKey,
        posted: u8,
        total: Option<&[u8; 8]>,
        out: &mut Vec<u8>,
    ) -> MeasuredPacket
        requires ready { ready_of self.old ≡ Ok key }
        requires room { vec_len out.old + SYNC_ROOM ≤ vec_capacity out.old }
        ensures answer { result ≡ (sealing_of self.old (lent_totals total.entry)
            (sync_content posted) false).description }
        ensures sender { self.new ≡ (sealing_of self.old (lent_totals total.entry)
            (sync_content posted) false).sender }
        ensures bytes { out.new.items ≡ out.old.items ++ packet_bytes (sealing_of self.old (lent_totals total.entry)
            (sync_content posted) false).packet }
        ensures capacity { vec_capacity out.old ≤ vec_capacity out.new }
    {
        let carried = PacketParts {
            head: &SYNC_HEAD,
            payload: &[],
            posted,
            t: false,
            sync: true,
        };
        self.seal_carried(key, &carried, false, total, out)
    }

    /// Puts a key of this draw into the slot. Returns `OnlyLive` exactly if this slot is Live and the other holds no
    /// newer Live key: then the key comes back, and nothing changes.
    pub fn program(&mut self, set: KeySet, key: Key, draw: u32) -> Result<(), OnlyLive>
        ensures answer { result ≡ program_answer (slot_pair true self.old.slots) (is_one set) key }
        ensures sender { self.new ≡ programmed_sender self.old (is_one set) key draw }
    {
        self.slots.program(set, key, draw)
    }

    /// GO: a Programmed key is Live at once if no unit is open, and the other slot is emptied; else it waits, Armed,
    /// for the unit's end. Returns `SlotEmpty` exactly if the slot is Empty.
    pub fn go(&mut self, set: KeySet) -> Result<(), SlotEmpty>
        ensures answer { is_ok result ≡ not (is_empty (key_slot (slot_in_set self.old.slots (is_one set)))) }
        ensures sender { self.new ≡ gone_sender self.old (is_one set) }
    {
        let unfinished = self.unit.count() != 0;
        self.units = units_after_go(&self.slots, set, unfinished, self.units);
        self.slots.arm(set, unfinished)
    }

    /// STOP: empties the slot, and drops an open unit under its key; a key that waited for that unit's end is Live.
    pub fn stop(&mut self, set: KeySet)
        ensures { self.new ≡ stopped_sender self.old (is_one set) }
    {
        drop_unit(&self.slots, set, &mut self.unit);
        self.units = units_after_stop(&self.slots, set, self.units);
        self.slots.stop(set);
    }

    /// Empties both slots, and drops an open unit.
    pub fn clear(&mut self)
        ensures { self.new ≡ new_sender self.old.stream self.old.sub self.old.aggregation self.old.limit }
    {
        self.units = 0;
        self.unit.clear();
        self.slots.clear();
    }

    /// The draw of the Live key; `None` if no slot is Live.
    pub fn sealing_draw(&self) -> Option<u32>
        ensures { result ≡ sealing_draw self.now.slots }
    {
        live_of(&self.slots).map(|key| key.draw)
    }

    /// The slots, lent.
    pub fn slots(&self) -> &Slots
        ensures { result.now ≡ slot_pair true self.now.slots }
    {
        &self.slots
    }
}

// ---- the bytes of a packet

/// What a packet carries: a TLP's header and payload, or a sync packet's header alone, with the posted count and T.
#[derive(Clone, Copy)]
pub struct PacketParts<'a> {
    pub head: &'a [u8],
    pub payload: &'a [u8],
    pub posted: u8,
    pub t: bool,
    pub sync: bool,
}

// Appends the bytes, for which there is room.
fn append(out: &mut Vec<u8>, bytes: &[u8])
    requires { vec_len out.old + length bytes.now ≤ vec_capacity out.old }
    ensures items { out.new.items ≡ out.old.items ++ bytes.now }
    ensures len { vec_len out.new ≡ vec_len out.old + length bytes.now }
    ensures capacity { vec_capacity out.old ≤ vec_capacity out.new }
{
    let _ = out.extend_from_slice(bytes);
}

// Appends a prefix and a header.
fn append_clear(out: &mut Vec<u8>, prefix: &Prefix, head: &[u8])
    requires { vec_len out.old + 4 + length head.now ≤ vec_capacity out.old }
    ensures items { out.new.items ≡ out.old.items ++ (prefix_bytes prefix.now ++ head.now) }
    ensures len { vec_len out.new ≡ vec_len out.old + 4 + length head.now }
    ensures capacity { vec_capacity out.old ≤ vec_capacity out.new }
{
    append(out, &write_prefix(prefix));
    append(out, head);
}

// Appends a payload as the ciphertext from byte `from` of a unit's plaintext on.
fn append_masked(out: &mut Vec<u8>, cipher: &Gcm, iv: &[u8; 12], from: u32, payload: &[u8])
    requires room { vec_len out.old + length payload.now ≤ vec_capacity out.old }
    requires short { from + length payload.now ≤ MAX_BYTES }
    ensures items { out.new.items ≡ out.old.items ++ masked_bytes cipher.now iv.now from payload.now }
    ensures len { vec_len out.new ≡ vec_len out.old + length payload.now }
    ensures capacity { vec_capacity out.old ≤ vec_capacity out.new }
{
    let start = out.len();
    append(out, payload);
    cipher.mask(iv, from, out.slice_mut(start..));
}

// Appends a packet without its tag, whose payload begins at byte `from` of its unit's plaintext.
fn append_untagged(
    out: &mut Vec<u8>,
    cipher: &Gcm,
    iv: &[u8; 12],
    from: u32,
    prefix: &Prefix,
    head: &[u8],
    payload: &[u8],
)
    requires room { vec_len out.old + 4 + length head.now + length payload.now ≤ vec_capacity out.old }
    requires short { from + length payload.now ≤ MAX_BYTES }
    ensures items { out.new.items ≡ out.old.items
        ++ (prefix_bytes prefix.now ++ (head.now ++ masked_bytes cipher.now iv.now from payload.now)) }
    ensures len { vec_len out.new ≡ vec_len out.old + 4 + length head.now + length payload.now }
    ensures capacity { vec_capacity out.old ≤ vec_capacity out.new }
{
    append_clear(out, prefix, head);
    append_masked(out, cipher, iv, from, payload);
}

// The bytes from `start` on: the first `clear` of them, and the rest.
fn parts_from(bytes: &[u8], start: usize, clear: usize) -> (&[u8], &[u8])
    requires { start + clear ≤ length bytes.now }
    ensures parts { (before front rest : List ℕ) → bytes.now ≡ before ++ (front ++ rest) → length before ≡ start
        → length front ≡ clear → (result.0.now ≡ front) × (result.1.now ≡ rest) }
    ensures front { length result.0.now ≡ clear }
    ensures rest { start + clear + length result.1.now ≡ length bytes.now }
{
    bytes[start..].split_at(clear)
}

// Appends a packet, with the tag of its unit if it is the last. The tag of a unit of one packet is taken from the bytes
// that were appended; the packets of any other are gathered.
fn append_packet(
    out: &mut Vec<u8>,
    cipher: &Gcm,
    iv: &[u8; 12],
    prefix: &Prefix,
    head: &[u8],
    payload: &[u8],
    unit: &mut UnitPackets,
)
    requires unit_room { length unit.old.packets < unit.old.aggregation }
    requires head_short { length head.now ≤ TLP_HEAD_BYTES }
    requires payload_short { length payload.now ≤ PAYLOAD_BYTES }
    requires room { vec_len out.old + PREFIX_BYTES + length head.now + length payload.now + TAG_BYTES
        ≤ vec_capacity out.old }
    ensures items { out.new.items ≡ out.old.items ++ packet_bytes (packet_with_tag prefix.now.m cipher.now iv.now
        unit.old (masked_packet cipher.now iv.now unit.old.packets prefix.now head.now payload.now)) }
    ensures unit { prefix.now.m ≡ false → unit.new ≡ with_packet unit.old
        (masked_packet cipher.now iv.now unit.old.packets prefix.now head.now payload.now) }
    ensures aggregation { unit.new.aggregation ≡ unit.old.aggregation }
    ensures capacity { vec_capacity out.old ≤ vec_capacity out.new }
{
    let start = out.len();
    let from = unit.body().len() as u32;
    append_untagged(out, cipher, iv, from, prefix, head, payload);
    let (clear, body) = parts_from(out.as_slice(), start, PREFIX_BYTES + head.len());
    if prefix.m && unit.clear_bytes().is_empty() {
        let tag = cipher.tag(iv, clear, body);
        append(out, &tag);
    } else {
        unit.push(prefix, head, body);
        append_tag(out, cipher, iv, unit, prefix.m);
    }
}

// Appends the tag of a unit after its last packet.
fn append_tag(out: &mut Vec<u8>, cipher: &Gcm, iv: &[u8; 12], unit: &UnitPackets, last: bool)
    requires { vec_len out.old + TAG_BYTES ≤ vec_capacity out.old }
    ensures items { out.new.items ≡ out.old.items ++ (if last then tag_of cipher.now iv.now (clear_of unit.now)
        (encrypted_bytes unit.now.packets) else []) }
    ensures capacity { vec_capacity out.old ≤ vec_capacity out.new }
{
    if last {
        let tag = cipher.tag(iv, unit.clear_bytes(), unit.body());
        append(out, &tag);
    }
}

// ---- what is seen of it

impl Tx {
    /// What is seen of both key sets.
    pub fn facts(&self) -> SetFacts
        ensures { result ≡ set_facts self.now.slots }
    {
        let packets = self.unit.count() as u8;
        SetFacts {
            zero: slot_facts(&self.slots, KeySet::Zero, self.units, packets),
            one: slot_facts(&self.slots, KeySet::One, self.units, packets),
        }
    }
}
