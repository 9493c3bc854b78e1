//! The senders of a stream, and of each of its sub-streams.

ghost use Rattle.std.specs.Prelude.{◌≡◌, ◌==◌, ◌&&◌, ◌||◌, ◌+◌, ◌*◌, ◌<◌, ◌≤◌, ◌^◌, ◌++◌, [], ℕ, nat_lt, Ok, IfOk};
ghost use Rattle.std.specs.Prelude.{true, false, not, length, is_ok, vec_len, vec_capacity, if◌then◌else◌, is_some};
ghost use Rattle.std.specs.Prelude.{IfSome};
ghost use Rattle.ide_types.specs.declared.sub.SubKind.{SubKind};
ghost use Rattle.ide_types.specs.declared.sub.SubKind.TheVariants.{Pr, Npr, Cpl};
ghost use Rattle.ide_prefix.specs.Packet.{packet_bytes};
ghost use Rattle.key_slots.specs.{is_one, is_empty, program_answer, live_set, slot_in as key_slot_in, Program, Go};
ghost use Rattle.key_slots.specs.{Stop};
ghost use Rattle.spec_stream.specs.Sending.{Sending, is_posted, is_keyless, is_worn, begins_unit, needs_sync};
ghost use Rattle.spec_stream.specs.Sending.{sets_trusted};
ghost use Rattle.spec_stream.specs.Stream.{at_sub};
ghost use Rattle.spec_stream.specs.Slots.{any_live, sealing_draw};
ghost use Rattle.sub_stream.specs.{slot_pair};
ghost use Rattle.sub_stream.specs.Facts.{sender_facts};
ghost use Rattle.stream_lanes.specs.Sends.{IsSealed, IsSealedOrRefused, IsKeyOrRefused, AreSendKeysOrRefused};
ghost use Rattle.stream_lanes.specs.Lanes.{new_send_ends, send_end_at, sealing_lanes, sealing_lane, ready_end};
ghost use Rattle.stream_lanes.specs.Lanes.{tlp_said, packet_said_at_ends, sealed_ends, measured_packet, open_in};
ghost use Rattle.stream_lanes.specs.Lanes.{any_out};
ghost use Rattle.stream_lanes.specs.Lanes.{all_out, settled_senders, called_ends, ends_after_sync, sync_packets};
ghost use Rattle.stream_lanes.specs.Lanes.{sync_bytes, new_send_end, sync_said, packet_said, sealed_end, posted_end};
ghost use Rattle.stream_lanes.specs.Lanes.{forgotten_end, called_send_end, KeepsUnit, SealedAtMost, IsSyncKey};
ghost use Rattle.stream_lanes.specs.Lanes.{AreSendKeys};

use crate::fixed::{Fixed, lent_total};
use crate::list::MeasuredPackets;
use crate::refusal::SendRefusal;
use ide_prefix::UnitBuf;
use ide_types::{KeySet, OutOfMemory, SubKind};
use key_slots::{Key, OnlyLive, SlotEmpty};
use std::alloc::Global;
use std::marker::Model;
use sub_stream::{MeasuredPacket, PACKET_ROOM, ReadyKey, SYNC_ROOM, SenderFacts, Tx, TxRefusal};

/// A sender of one sub-stream with its posted count and its total.
#[derive(Drop)]
pub struct SendLane {
    tx: Tx,
    closed: bool,
    // the posted packets that were sealed since this sub-stream's last packet; 0 in the posted one
    posted: u8,
    // the units finished while the direction had a Live key
    total: u64,
}

impl Model for SendLane {
    ghost use Rattle.stream_lanes.specs.Lanes.{SendEnd, IsSendLane};

    ghost Value = { SendEnd };

    ghost view = { λ s. record {
      fixed = record {
        stream = s.tx.stream;
        aggregation = s.tx.aggregation;
        limit = s.tx.limit;
        closed = s.closed;
      };
      sub = s.tx.sub;
      kept = record {
        slots = s.tx.slots;
        posted = s.posted;
        total =
            s.total;
      };
    } };

    ghost invariant = { λ s. IsSendLane s.tx s.closed s.posted s.total };
}

// A packet was sealed: the posted count begins again, and a finished unit counts.
fn count(m: bool, posted: &mut u8, total: &mut u64)
    requires { total.old ≤ 2 ^ 40 }
    ensures posted { posted.new ≡ 0 }
    ensures total { total.new ≡ (if m then total.old + 1 else total.old) }
{
    *posted = 0;
    if m {
        *total += 1;
    }
}

impl SendLane {
    /// A sender with no key, for whose units `buf` was reserved.
    pub fn make(
        alloc: Global,
        fixed: Fixed,
        sub: SubKind,
        buf: UnitBuf,
    ) -> Result<SendLane, OutOfMemory>
        requires some { 1 ≤ fixed.aggregation }
        requires few { fixed.aggregation ≤ 8 }
        requires same { buf.aggregation ≡ fixed.aggregation }
        ensures { IfOk result (λ s. s ≡ new_send_end fixed sub) }
    {
        Ok(SendLane {
            tx: Tx::make(
                alloc,
                fixed.stream,
                sub,
                fixed.aggregation,
                fixed.limit,
                buf,
            )?,
            closed: fixed.closed,
            posted: 0,
            total: 0,
        })
    }

    /// Whether a slot is Live.
    pub fn is_live(&self) -> bool
        ensures { result ≡ any_live self.now.kept.slots }
    {
        self.tx.slots().live().is_some()
    }

    /// The key set of the Live slot.
    pub fn live_set(&self) -> Option<KeySet>
        ensures { result ≡ live_set (slot_pair true self.now.kept.slots) }
    {
        self.tx.slots().live()
    }

    /// The draw of the Live key; `None` if no slot is Live.
    pub fn sealing_draw(&self) -> Option<u32>
        ensures { result ≡ sealing_draw self.now.kept.slots }
    {
        self.tx.sealing_draw()
    }

    /// Whether the next packet begins a unit.
    pub fn begins(&self) -> bool
        ensures { result ≡ begins_unit (sealing_lane self.now) }
    {
        !self.tx.unfinished()
    }

    /// The key that seals the next packet. Returns `NoKey` if no slot is Live, and `Worn` if a unit would begin and the
    /// Live key has sealed as many as it may.
    pub fn ready(&self) -> Result<ReadyKey, TxRefusal>
        ensures { result ≡ ready_end self.now }
    {
        self.tx.ready()
    }

    /// The posted count of the next packet.
    pub fn posted(&self) -> u8
        ensures { result ≡ self.now.kept.posted }
    {
        self.posted
    }

    /// Seals a TLP's header and payload under the key that is ready, and appends its packet to `out`. `more` says that
    /// the unit goes on if it has room, `t` that the TLP is trusted.
    pub fn seal(
        &mut self,
        key: ReadyKey,
        head: &[u8],
        payload: &[u8],
        more: bool,
        t: bool,
        out: &mut Vec<u8>,
    ) -> MeasuredPacket
        requires ready { ready_end self.old ≡ Ok key }
        requires few { self.old.kept.total ≤ 2 ^ 40 }
        requires head_short { length head.now ≤ 16 }
        requires payload_short { length payload.now ≤ 4096 }
        requires room { vec_len out.old + PACKET_ROOM ≤ vec_capacity out.old }
        ensures answer { result ≡ measured_packet (tlp_said self.old more t) (packet_said self.old head.now payload.now
            (tlp_said self.old more t)) }
        ensures lane { self.new ≡ sealed_end self.old head.now payload.now (tlp_said self.old more t) }
        ensures bytes { out.new.items ≡ out.old.items ++ packet_bytes (packet_said self.old head.now payload.now
            (tlp_said self.old more t)) }
        ensures capacity { vec_capacity out.old ≤ vec_capacity out.new }
        ensures fits { length (sealing_lane self.old).unfinished < self.old.fixed.aggregation }
    {
        let total = self.total.to_be_bytes();
        let lent = lent_total(self.closed, &total);
        let packet = self
            .tx
            .seal(key, head, payload, self.posted, more, t, lent, out);
        count(packet.m, &mut self.posted, &mut self.total);
        packet
    }

    /// Seals a sync packet under the key that is ready, which ends its unit, and appends it to `out`.
    pub fn sync(&mut self, key: ReadyKey, out: &mut Vec<u8>) -> MeasuredPacket
        requires ready { ready_end self.old ≡ Ok key }
        requires few { self.old.kept.total ≤ 2 ^ 40 }
        requires room { vec_len out.old + SYNC_ROOM ≤ vec_capacity out.old }
        ensures answer { let d = sync_said self.old in result ≡ measured_packet d (packet_said self.old [] [] d) }
        ensures lane { self.new ≡ sealed_end self.old [] [] (sync_said self.old) }
        ensures bytes { out.new.items ≡ out.old.items ++ packet_bytes
            (packet_said self.old [] [] (sync_said self.old)) }
        ensures len { vec_len out.new ≤ vec_len out.old + SYNC_ROOM }
        ensures capacity { vec_capacity out.old ≤ vec_capacity out.new }
    {
        let total = self.total.to_be_bytes();
        let lent = lent_total(self.closed, &total);
        let packet = self.tx.sync(key, self.posted, lent, out);
        count(packet.m, &mut self.posted, &mut self.total);
        packet
    }

    /// Counts a posted packet that was sealed.
    pub fn count_posted(&mut self)
        requires sub { is_posted self.old.sub ≡ false }
        requires few { self.old.kept.posted < 255 }
        ensures { self.new ≡ posted_end self.old }
    {
        self.posted += 1;
    }

    /// Counts from 0 again.
    pub fn forget(&mut self)
        requires { any_live self.old.kept.slots ≡ false }
        ensures { self.new ≡ forgotten_end self.old }
    {
        self.posted = 0;
        self.total = 0;
    }

    /// Puts a key of this draw into the slot. Returns `OnlyLive` exactly if this slot is Live and the other holds no
    /// newer Live key: then the key comes back.
    pub fn program(&mut self, set: KeySet, key: Key, draw: u32) -> Result<(), OnlyLive>
        ensures answer { result ≡ program_answer (slot_pair true self.old.kept.slots) (is_one set) key }
        ensures lane { self.new ≡ called_send_end self.old (Program (is_one set) key draw) }
        ensures unit { KeepsUnit self.old.kept self.new.kept }
    {
        self.tx.program(set, key, draw)
    }

    /// GO: a Programmed key is Live at once if no unit is open, else it waits, Armed, for the unit's end. Returns
    /// `SlotEmpty` exactly if the slot is Empty.
    pub fn go(&mut self, set: KeySet) -> Result<(), SlotEmpty>
        ensures answer { is_ok result ≡ not (is_empty (key_slot_in (slot_pair true self.old.kept.slots) (is_one set))) }
        ensures lane { self.new ≡ called_send_end self.old (Go (is_one set)) }
        ensures unit { KeepsUnit self.old.kept self.new.kept }
    {
        self.tx.go(set)
    }

    /// STOP: empties the slot, and drops an open unit under its key; a key that waited for that unit's end is Live.
    pub fn stop(&mut self, set: KeySet)
        ensures lane { self.new ≡ called_send_end self.old (Stop (is_one set)) }
        ensures unit { KeepsUnit self.old.kept self.new.kept }
    {
        self.tx.stop(set);
    }

    /// Empties both slots, drops an open unit, and counts from 0 again.
    pub fn clear(&mut self)
        ensures { self.new ≡ new_send_end self.old.fixed self.old.sub }
    {
        self.tx.clear();
        self.forget();
    }
}

/// The senders of a stream.
#[derive(Drop)]
pub struct SendLanes {
    fixed: Fixed,
    pr: SendLane,
    npr: SendLane,
    cpl: SendLane,
}

impl Model for SendLanes {
    ghost use Rattle.stream_lanes.specs.Lanes.{SendEnds, IsSendLanes};

    ghost Value = { SendEnds };

    ghost view = { λ s. record {
      fixed = s.fixed;
      tx = record {
        pr = s.pr.kept;
        npr = s.npr.kept;
        cpl = s.cpl.kept;
      };
    } };

    ghost invariant = { λ s. IsSendLanes s.fixed s.pr s.npr s.cpl };
}

// The keys of a send: of the TLP, and of the sync packets that go first.
#[derive(Clone, Copy)]
struct SendKeys {
    own: ReadyKey,
    npr: Option<ReadyKey>,
    cpl: Option<ReadyKey>,
}

// A key that is asked for. A missing key is refused at once, and a worn one after all that are missing.
type KeyOrRefused<K> = Result<Result<K, SendRefusal>, SendRefusal>;

// Whether a posted count passes what a byte holds within one unit.
fn may_overflow(posted: u8, aggregation: u8) -> bool
    ensures { result ≡ nat_lt 255 (posted + aggregation) }
{
    u16::from(posted) + u16::from(aggregation) > 255
}

impl SendLanes {
    /// Senders with no keys.
    pub fn make(alloc: Global, fixed: Fixed) -> Result<SendLanes, OutOfMemory>
        requires some { 1 ≤ fixed.aggregation }
        requires few { fixed.aggregation ≤ 8 }
        ensures { IfOk result (λ s. s ≡ new_send_ends fixed) }
    {
        let pr = UnitBuf::reserve(alloc, fixed.aggregation)?;
        let npr = UnitBuf::reserve(alloc, fixed.aggregation)?;
        let cpl = UnitBuf::reserve(alloc, fixed.aggregation)?;
        Ok(SendLanes {
            fixed,
            pr: SendLane::make(alloc, fixed, SubKind::Pr, pr)?,
            npr: SendLane::make(alloc, fixed, SubKind::Npr, npr)?,
            cpl: SendLane::make(alloc, fixed, SubKind::Cpl, cpl)?,
        })
    }

    /// What never changes.
    pub fn fixed(&self) -> Fixed
        ensures { result ≡ self.now.fixed }
    {
        self.fixed
    }

    // The sender of a sub-stream.
    fn lane(&self, sub: SubKind) -> &SendLane
        ensures { result.now ≡ send_end_at self.now sub }
    {
        match sub {
            SubKind::Pr => &self.pr,
            SubKind::Npr => &self.npr,
            SubKind::Cpl => &self.cpl,
        }
    }

    /// Whether a slot is Live.
    pub fn any_live(&self) -> bool
        ensures { result ≡ any_out self.now.tx }
    {
        self.pr.is_live() || self.npr.is_live() || self.cpl.is_live()
    }

    /// Whether each sub-stream has a Live slot.
    pub fn all_live(&self) -> bool
        ensures { result ≡ all_out self.now.tx }
    {
        self.pr.is_live() && self.npr.is_live() && self.cpl.is_live()
    }

    /// The key set of the Live slot of a sub-stream.
    pub fn live_set(&self, sub: SubKind) -> Option<KeySet>
        ensures { result ≡ live_set (slot_pair true (at_sub self.now.tx sub).slots) }
    {
        self.lane(sub).live_set()
    }

    /// The draw of the Live key of a sub-stream; `None` if none is Live.
    pub fn sealing_draw(&self, sub: SubKind) -> Option<u32>
        ensures { result ≡ sealing_draw (at_sub self.now.tx sub).slots }
    {
        self.lane(sub).sealing_draw()
    }

    // Whether a sync packet goes first in sub-stream `sub`, NPR or CPL, if a TLP of this class is sent.
    fn needs_sync(&self, class: SubKind, sub: SubKind) -> bool
        requires { is_posted sub ≡ false }
        ensures value { result ≡ needs_sync (sealing_lanes self.now) class sub }
        // The posted packets of the unit that goes on, or begins, leave the count within a byte.
        ensures room { is_posted class ≡ true → (if result then 0 else (at_sub self.now.tx sub).posted)
            + self.now.fixed.aggregation ≤ 255 + length (open_in self.now.tx.pr.slots) }
    {
        let begins = self.lane(class).begins();
        let many = may_overflow(self.lane(sub).posted(), self.fixed.aggregation);
        class == SubKind::Pr && begins && many
    }

    // The key of a sub-stream.
    fn key(&self, sub: SubKind) -> KeyOrRefused<ReadyKey>
        ensures { IsKeyOrRefused sub self.now.fixed.limit (is_keyless (sealing_lanes self.now) sub)
            (is_worn (sealing_lanes self.now) sub) (λ key. ready_end (send_end_at self.now sub) ≡ Ok key) result }
    {
        match self.lane(sub).ready() {
            Err(TxRefusal::NoKey) => Err(SendRefusal::NoKey(sub)),
            Err(TxRefusal::Worn(limit)) => Ok(Err(SendRefusal::Worn(sub, limit))),
            Ok(key) => Ok(Ok(key)),
        }
    }

    // The key of the sync packet that goes first in sub-stream `sub`, NPR or CPL, before a TLP of this class; `None` if
    // none does.
    fn sync_key(&self, class: SubKind, sub: SubKind) -> KeyOrRefused<Option<ReadyKey>>
        requires { is_posted sub ≡ false }
        ensures { let needed = needs_sync (sealing_lanes self.now) class sub in
            IsKeyOrRefused sub self.now.fixed.limit (needed && is_keyless (sealing_lanes self.now) sub)
            (needed && is_worn (sealing_lanes self.now) sub) (λ key. IsSyncKey self.now class sub key) result }
    {
        if !self.needs_sync(class, sub) {
            return Ok(Ok(None));
        }
        Ok(self.key(sub)?.map(Some))
    }

    // Whether a TLP of this class waits for the end of the posted unit.
    fn waits(&self, class: SubKind) -> bool
        ensures { result ≡ (not (is_posted class) && not (begins_unit ((sealing_lanes self.now).lane Pr))) }
    {
        class != SubKind::Pr && !self.pr.begins()
    }

    // The keys of a send in this sub-stream, or why the TLP is refused.
    fn keys(&self, sub: SubKind) -> Result<SendKeys, SendRefusal>
        ensures { AreSendKeysOrRefused self.now sub result }
    {
        let own = self.key(sub)?;
        if self.waits(sub) {
            return Err(SendRefusal::Unfinished);
        }
        let npr = self.sync_key(sub, SubKind::Npr)?;
        let cpl = self.sync_key(sub, SubKind::Cpl)?;
        Ok(SendKeys {
            own: own?,
            npr: npr?,
            cpl: cpl?,
        })
    }

    // Seals a sync packet in the non-posted sub-stream, if there is a key for one.
    fn sync_npr(&mut self, key: Option<ReadyKey>, sealed: &mut MeasuredPackets, out: &mut Vec<u8>)
        requires ready { IfSome key (λ k. ready_end (send_end_at self.old Npr) ≡ Ok k) }
        requires few { self.old.tx.npr.total ≤ 2 ^ 40 }
        requires count { length sealed.old < 3 }
        requires room { vec_len out.old + SYNC_ROOM ≤ vec_capacity out.old }
        ensures lanes { self.new ≡ ends_after_sync (is_some key) Npr self.old }
        ensures sealed { sealed.new ≡ sealed.old ++ sync_packets (is_some key) Npr self.old }
        ensures bytes { out.new.items ≡ out.old.items ++ sync_bytes (is_some key) Npr self.old }
        ensures count { length sealed.new ≤ length sealed.old + 1 }
        ensures len { vec_len out.new ≤ vec_len out.old + SYNC_ROOM }
        ensures capacity { vec_capacity out.old ≤ vec_capacity out.new }
    {
        if let Some(key) = key {
            let packet = self.npr.sync(key, out);
            sealed.push(packet);
        }
    }

    // Seals a sync packet in the completion sub-stream, if there is a key for one.
    fn sync_cpl(&mut self, key: Option<ReadyKey>, sealed: &mut MeasuredPackets, out: &mut Vec<u8>)
        requires ready { IfSome key (λ k. ready_end (send_end_at self.old Cpl) ≡ Ok k) }
        requires few { self.old.tx.cpl.total ≤ 2 ^ 40 }
        requires count { length sealed.old < 3 }
        requires room { vec_len out.old + SYNC_ROOM ≤ vec_capacity out.old }
        ensures lanes { self.new ≡ ends_after_sync (is_some key) Cpl self.old }
        ensures sealed { sealed.new ≡ sealed.old ++ sync_packets (is_some key) Cpl self.old }
        ensures bytes { out.new.items ≡ out.old.items ++ sync_bytes (is_some key) Cpl self.old }
        ensures count { length sealed.new ≤ length sealed.old + 1 }
        ensures len { vec_len out.new ≤ vec_len out.old + SYNC_ROOM }
        ensures capacity { vec_capacity out.old ≤ vec_capacity out.new }
    {
        if let Some(key) = key {
            let packet = self.cpl.sync(key, out);
            sealed.push(packet);
        }
    }

    // Seals a posted TLP, which counts in the other two sub-streams.
    fn seal_posted(
        &mut self,
        key: ReadyKey,
        head: &[u8],
        payload: &[u8],
        more: bool,
        t: bool,
        out: &mut Vec<u8>,
    ) -> MeasuredPacket
        requires ready { ready_end (send_end_at self.old Pr) ≡ Ok key }
        requires few { self.old.tx.pr.total ≤ 2 ^ 40 }
        requires npr_room { self.old.tx.npr.posted + self.old.fixed.aggregation ≤ 255 + length
            (open_in self.old.tx.pr.slots) }
        requires cpl_room { self.old.tx.cpl.posted + self.old.fixed.aggregation ≤ 255 + length
            (open_in self.old.tx.pr.slots) }
        requires head_short { length head.now ≤ 16 }
        requires payload_short { length payload.now ≤ 4096 }
        requires room { vec_len out.old + PACKET_ROOM ≤ vec_capacity out.old }
        ensures answer { let d = tlp_said (send_end_at self.old Pr) more t in
            result ≡ measured_packet d (packet_said_at_ends self.old head.now payload.now d) }
        ensures lanes { let d = tlp_said (send_end_at self.old Pr) more t in
            self.new ≡ sealed_ends self.old head.now payload.now d }
        ensures bytes { out.new.items ≡ out.old.items ++ packet_bytes (packet_said_at_ends self.old head.now payload.now
            (tlp_said (send_end_at self.old Pr) more t)) }
        ensures capacity { vec_capacity out.old ≤ vec_capacity out.new }
    {
        let packet = self.pr.seal(key, head, payload, more, t, out);
        self.npr.count_posted();
        self.cpl.count_posted();
        packet
    }

    // Seals a TLP.
    fn seal(
        &mut self,
        sub: SubKind,
        key: ReadyKey,
        head: &[u8],
        payload: &[u8],
        more: bool,
        t: bool,
        out: &mut Vec<u8>,
    ) -> MeasuredPacket
        requires ready { ready_end (send_end_at self.old sub) ≡ Ok key }
        requires few { (at_sub self.old.tx sub).total ≤ 2 ^ 40 }
        requires npr_room { is_posted sub ≡ true → self.old.tx.npr.posted + self.old.fixed.aggregation ≤ 255 + length
            (open_in self.old.tx.pr.slots) }
        requires cpl_room { is_posted sub ≡ true → self.old.tx.cpl.posted + self.old.fixed.aggregation ≤ 255 + length
            (open_in self.old.tx.pr.slots) }
        requires head_short { length head.now ≤ 16 }
        requires payload_short { length payload.now ≤ 4096 }
        requires room { vec_len out.old + PACKET_ROOM ≤ vec_capacity out.old }
        ensures answer { let d = tlp_said (send_end_at self.old sub) more t in
            result ≡ measured_packet d (packet_said_at_ends self.old head.now payload.now d) }
        ensures lanes { self.new ≡ sealed_ends self.old head.now payload.now
            (tlp_said (send_end_at self.old sub) more t) }
        ensures bytes { out.new.items ≡ out.old.items ++ packet_bytes (packet_said_at_ends self.old head.now payload.now
            (tlp_said (send_end_at self.old sub) more t)) }
        ensures capacity { vec_capacity out.old ≤ vec_capacity out.new }
    {
        match sub {
            SubKind::Pr => self.seal_posted(key, head, payload, more, t, out),
            SubKind::Npr => self.npr.seal(key, head, payload, more, t, out),
            SubKind::Cpl => self.cpl.seal(key, head, payload, more, t, out),
        }
    }

    // Seals a TLP after the sync packets that go first, under these keys.
    fn seal_with_syncs(
        &mut self,
        sub: SubKind,
        keys: SendKeys,
        head: &[u8],
        payload: &[u8],
        more: bool,
        t: bool,
        out: &mut Vec<u8>,
    ) -> MeasuredPackets
        requires keys { AreSendKeys self.old sub keys }
        requires few { SealedAtMost (2 ^ 40) self.old.tx }
        requires head_short { length head.now ≤ 16 }
        requires payload_short { length payload.now ≤ 4096 }
        requires room { vec_len out.old + PACKET_ROOM + 2 * SYNC_ROOM ≤ vec_capacity out.old }
        ensures sent { (s : Sending) (number : ℕ) → s.stream ≡ self.old.fixed.stream → s.class ≡ sub → s.more ≡ more
            → sets_trusted s.port s.trusted ≡ t
            → IsSealed self.old head.now payload.now s number result out.old.items out.new.items self.new }
        ensures capacity { vec_capacity out.old ≤ vec_capacity out.new }
    {
        let mut sealed = MeasuredPackets::new();
        self.sync_npr(keys.npr, &mut sealed, out);
        self.sync_cpl(keys.cpl, &mut sealed, out);
        let packet = self.seal(sub, keys.own, head, payload, more, t, out);
        sealed.push(packet);
        sealed
    }

    /// Seals a TLP after the sync packets that must go first, and appends the packets to `out`. `more` says that its
    /// unit goes on if it has room, `t` that the TLP is trusted. Refused, in this order: NoKey of the sub-stream,
    /// Unfinished, NoKey of a sub-stream that needs a sync packet first, Worn of the sub-stream, Worn of one that needs
    /// a sync packet first. A refusal changes nothing.
    pub fn send(
        &mut self,
        sub: SubKind,
        head: &[u8],
        payload: &[u8],
        more: bool,
        t: bool,
        out: &mut Vec<u8>,
    ) -> Result<MeasuredPackets, SendRefusal>
        requires few { SealedAtMost (2 ^ 40) self.old.tx }
        requires head_short { length head.now ≤ 16 }
        requires payload_short { length payload.now ≤ 4096 }
        requires room { vec_len out.old + PACKET_ROOM + 2 * SYNC_ROOM ≤ vec_capacity out.old }
        ensures sent { (s : Sending) (number : ℕ) → s.stream ≡ self.old.fixed.stream → s.class ≡ sub → s.more ≡ more
            → sets_trusted s.port s.trusted ≡ t
            → IsSealedOrRefused self.old head.now payload.now s number result out.old.items out.new.items self.new }
        ensures capacity { vec_capacity out.old ≤ vec_capacity out.new }
    {
        let keys = self.keys(sub)?;
        Ok(self.seal_with_syncs(sub, keys, head, payload, more, t, out))
    }

    /// Lets them count from 0 again if none has a Live slot.
    pub fn settle(&mut self)
        ensures { self.new ≡ record self.old { tx = settled_senders self.old.tx } }
    {
        if !self.any_live() {
            self.pr.forget();
            self.npr.forget();
            self.cpl.forget();
        }
    }

    /// Puts a key of this draw into a slot of a sub-stream's sender. Returns `OnlyLive` exactly if this slot is Live
    /// and the other holds no newer Live key: then the key comes back.
    pub fn program(
        &mut self,
        sub: SubKind,
        set: KeySet,
        key: Key,
        draw: u32,
    ) -> Result<(), OnlyLive>
        ensures answer { result ≡ program_answer (slot_pair true (at_sub self.old.tx sub).slots) (is_one set) key }
        ensures lanes { self.new ≡ called_ends self.old sub (Program (is_one set) key draw) }
    {
        match sub {
            SubKind::Pr => self.pr.program(set, key, draw),
            SubKind::Npr => self.npr.program(set, key, draw),
            SubKind::Cpl => self.cpl.program(set, key, draw),
        }
    }

    /// GO to a slot of a sub-stream's sender. Returns `SlotEmpty` exactly if the slot is Empty.
    pub fn go(&mut self, sub: SubKind, set: KeySet) -> Result<(), SlotEmpty>
        ensures answer { is_ok result ≡ not (is_empty (key_slot_in (slot_pair true (at_sub self.old.tx sub).slots)
            (is_one set))) }
        ensures lanes { self.new ≡ called_ends self.old sub (Go (is_one set)) }
    {
        match sub {
            SubKind::Pr => self.pr.go(set),
            SubKind::Npr => self.npr.go(set),
            SubKind::Cpl => self.cpl.go(set),
        }
    }

    /// STOP: empties a slot of a sub-stream's sender, and drops an open unit under its key; a key that waited for that
    /// unit's end is Live.
    pub fn stop(&mut self, sub: SubKind, set: KeySet)
        ensures { self.new ≡ called_ends self.old sub (Stop (is_one set)) }
    {
        match sub {
            SubKind::Pr => self.pr.stop(set),
            SubKind::Npr => self.npr.stop(set),
            SubKind::Cpl => self.cpl.stop(set),
        }
    }

    /// Empties all slots, drops open units, and counts from 0 again.
    pub fn clear(&mut self)
        ensures { self.new ≡ new_send_ends self.old.fixed }
    {
        self.pr.clear();
        self.npr.clear();
        self.cpl.clear();
    }
}

// ---- what is seen of them

impl SendLane {
    /// What is seen of it.
    pub fn facts(&self) -> SenderFacts
        ensures { result ≡ sender_facts self.now.kept }
    {
        SenderFacts {
            sets: self.tx.facts(),
            posted: self.posted,
            total: self.total,
        }
    }
}

impl SendLanes {
    /// What is seen of the sender of a sub-stream.
    pub fn facts(&self, sub: SubKind) -> SenderFacts
        ensures { result ≡ sender_facts (at_sub self.now.tx sub) }
    {
        self.lane(sub).facts()
    }
}
