//! The packets of one unit (this profile).

ghost use Rattle.std.specs.Prelude.{◌≡◌, ◌+◌, ◌*◌, ◌<◌, ◌≤◌, ◌++◌, [], ◌∷◌, IfOk, is_ok, Some, length, slice_get};
ghost use Rattle.std.specs.Prelude.{slice_index_or, slice_range, vec_len, vec_capacity};
ghost use Rattle.ide_prefix.specs.Layout.{LieWithin};

use crate::ends::PacketEnds;
use arrayvec::ArrayVec;
use ide_types::OutOfMemory;
use std::alloc::Global;
use std::marker::Model;

/// The most packets of a unit.
pub const MAX_PACKETS: usize = 8;

/// The bytes that may come before the first packet's head, once a unit.
pub const AHEAD_BYTES: usize = 8;

/// The most bytes of a packet's head: 4 of its prefix and 16 of its TLP's header (PCI Express Base 6.0 section 2.2).
pub const HEAD_BYTES: usize = 20;

// The most bytes of a TLP's header.
const HEADER_BYTES: usize = 16;

/// The most bytes of a packet's body: 1,024 double words (PCI Express Base 6.0 section 2.2).
pub const BODY_BYTES: usize = 4_096;

/// The unit has as many packets as its aggregation allows.
#[derive(Clone, Copy, PartialEq, Eq)]
pub struct UnitFull;

/// The packets of one unit (PCI Express Base 6.0 section 6.33). A packet is its head, which is sent
/// in clear (prefix and header), and its body. Contracts see the aggregation, what comes ahead and the packets.
#[derive(Drop)]
pub struct UnitBuf {
    aggregation: usize,
    ahead: usize,
    heads: Vec<u8>,
    bodies: Vec<u8>,
    ends: ArrayVec<PacketEnds, 8>,
}

impl Model for UnitBuf {
    ghost use Rattle.std.specs.Prelude.{take, vec_capacity};
    ghost use Rattle.ide_prefix.specs.CollectedUnits.{Collected};
    ghost use Rattle.ide_prefix.specs.Layout.{parts, IsLaidOut};

    ghost Value = { Collected };

    ghost view = { λ u.
        record {
          aggregation = u.aggregation;
          ahead = take u.ahead u.heads.items;
          packets = parts u.heads.items u.bodies.items u.ahead 0 u.ends.items;
        } };

    ghost invariant = { λ u. IsLaidOut u.aggregation u.ahead u.ends.items u.heads.items u.bodies.items
        (vec_capacity u.heads) (vec_capacity u.bodies) };
}

// Appends the bytes, for which there is room.
fn append(out: &mut Vec<u8>, bytes: &[u8])
    requires { vec_len out.old + length bytes.now ≤ vec_capacity out.old }
    ensures items { out.new.items ≡ out.old.items ++ bytes.now }
    ensures len { vec_len out.new ≡ vec_len out.old + length bytes.now }
    ensures capacity { vec_capacity out.old ≤ vec_capacity out.new }
{
    let _ = out.extend_from_slice(bytes);
}

// The place at which packet `i` starts: the end of the one before it; of the first, the end of what comes ahead.
fn start_of(ahead: usize, ends: &[PacketEnds], i: usize) -> PacketEnds
    requires { i ≤ length ends.now }
    ensures { result ≡ slice_index_or (record { head = ahead; body = 0 } ∷ ends.now) i result }
{
    if i == 0 {
        PacketEnds {
            head: ahead,
            body: 0,
        }
    } else {
        ends[i - 1]
    }
}

// Where packet `i` ends.
fn end_of(ends: &[PacketEnds], i: usize) -> PacketEnds
    requires { i < length ends.now }
    ensures { result ≡ slice_index_or ends.now i result }
{
    ends[i]
}

// The packet that starts and ends at these places.
fn packet_between<'a>(
    heads: &'a [u8],
    bodies: &'a [u8],
    start: PacketEnds,
    ends: PacketEnds,
) -> (&'a [u8], &'a [u8])
    requires { LieWithin start ends (length heads.now) (length bodies.now) }
    ensures head { result.0.now ≡ slice_range heads.now start.head ends.head }
    ensures body { result.1.now ≡ slice_range bodies.now start.body ends.body }
{
    (
        &heads[start.head..ends.head],
        &bodies[start.body..ends.body],
    )
}

impl UnitBuf {
    ghost use Rattle.std.specs.Borrow.{sem};
    ghost use Rattle.ide_prefix.specs.CollectedUnits.{empty_unit, aad_of, body_of, has_room, unit_with_packet};
    ghost use Rattle.ide_prefix.specs.Lending.{LendsBody};

    /// A buffer for units of at most `aggregation` packets, which is 1, 2, 4 or 8; it has none yet.
    pub fn reserve(alloc: Global, aggregation: u8) -> Result<UnitBuf, OutOfMemory>
        requires { aggregation ≤ MAX_PACKETS }
        ensures { IfOk result (λ unit. unit ≡ empty_unit aggregation) }
    {
        let aggregation = aggregation as usize;
        let heads = Vec::with_capacity(alloc, AHEAD_BYTES + HEAD_BYTES * aggregation)?;
        let bodies = Vec::with_capacity(alloc, BODY_BYTES * aggregation)?;
        Ok(UnitBuf {
            aggregation,
            ahead: 0,
            heads,
            bodies,
            ends: ArrayVec::new(),
        })
    }

    /// Adds a packet: its head is a prefix and a header of at most 16 bytes, its body has at most 4,096. Returns
    /// `UnitFull` exactly if the unit has `aggregation` packets, and then changes nothing.
    pub fn add(&mut self, prefix: &[u8; 4], header: &[u8], body: &[u8]) -> Result<(), UnitFull>
        requires header_short { length header.now ≤ HEADER_BYTES }
        requires body_short { length body.now ≤ BODY_BYTES }
        ensures answer { is_ok result ≡ has_room self.old }
        ensures unit { self.new ≡ unit_with_packet self.old (prefix.now ++ header.now) body.now }
    {
        if self.ends.len() >= self.aggregation {
            return Err(UnitFull);
        }
        append(&mut self.heads, prefix);
        append(&mut self.heads, header);
        append(&mut self.bodies, body);
        self.ends.push(PacketEnds {
            head: self.heads.len(),
            body: self.bodies.len(),
        });
        Ok(())
    }

    /// How many packets it has.
    pub fn count(&self) -> usize
        ensures count { result ≡ length self.now.packets }
        ensures fits { result ≤ self.now.aggregation }
    {
        self.ends.len()
    }

    /// What is authenticated in clear: what comes ahead, if it was set, and the heads, joined.
    pub fn aad(&self) -> &[u8]
        ensures value { result.now ≡ aad_of self.now }
        ensures short { length result.now ≤ AHEAD_BYTES + HEAD_BYTES * MAX_PACKETS }
    {
        &self.heads
    }

    /// The bodies, joined.
    pub fn body(&self) -> &[u8]
        ensures value { result.now ≡ body_of self.now }
        ensures short { length result.now ≤ BODY_BYTES * MAX_PACKETS }
    {
        &self.bodies
    }

    /// The head and the body of packet `i`, counted from 0.
    pub fn packet(&self, i: usize) -> (&[u8], &[u8])
        requires { i < length self.now.packets }
        ensures { slice_get self.now.packets i ≡ Some (result.0.now, result.1.now) }
    {
        let start = start_of(self.ahead, self.ends.as_slice(), i);
        let ends = end_of(self.ends.as_slice(), i);
        packet_between(&self.heads, &self.bodies, start, ends)
    }

    /// The bodies, joined, for writing. What is written stands in the packets, and every length stays.
    pub fn body_mut(&mut self) -> &mut [u8]
        ensures* writes_back { sem 𝓛 (LendsBody self.entry result) }
        ensures value { result.now ≡ body_of self.old }
        ensures short { length result.now ≤ BODY_BYTES * MAX_PACKETS }
    {
        self.bodies.as_mut_slice()
    }

    /// Drops the packets and what comes ahead.
    pub fn clear(&mut self)
        ensures { self.new ≡ empty_unit self.old.aggregation }
    {
        self.ahead = 0;
        self.heads.clear();
        self.bodies.clear();
        self.ends.clear();
    }

    /// Sets the 8 bytes that are authenticated before the heads, in place of those set before. The unit has no packet
    /// yet.
    pub fn ahead(&mut self, bytes: &[u8; 8])
        requires { self.old.packets ≡ [] }
        ensures { self.new ≡ record self.old { ahead = bytes.now } }
    {
        self.clear();
        append(&mut self.heads, bytes);
        self.ahead = AHEAD_BYTES;
    }
}
