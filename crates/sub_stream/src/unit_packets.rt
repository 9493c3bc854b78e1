//! The packets of one unit, each with its prefix.

ghost use Rattle.std.specs.Prelude.{◌≡◌, [], ◌+◌, ◌<◌, ◌≤◌, ◌++◌, Some, length, slice_get};
ghost use Rattle.gcm_seal.specs.Gcm.{masked_bytes};
ghost use Rattle.ide_prefix.specs.Packet.{prefix_bytes};
ghost use Rattle.ide_prefix.specs.Units.{encrypted_bytes};
ghost use Rattle.spec_stream.specs.Stream.{posted_sum};
ghost use Rattle.ide_prefix.specs.{with_bodies, body_of};

use crate::sender::{PAYLOAD_BYTES, TLP_HEAD_BYTES};
use gcm_seal::{Gcm, MAX_BYTES};
use ide_prefix::{Prefix, UnitBuf, write_prefix};
use ide_types::SubKind;
use std::marker::Model;

// What stands in the places of no packet.
const BLANK: Prefix = Prefix {
    m: false,
    k: false,
    t: false,
    sub: SubKind::Pr,
    stream: 0,
    posted: 0,
};

/// The packets of one unit in a buffer: those of an open unit as they are sent, those of an accepted one decrypted.
/// Contracts see the aggregation, what comes ahead and the packets, without a tag.
#[derive(Drop)]
pub struct UnitPackets {
    prefixes: [Prefix; 8],
    // the sum of the posted counts
    posted: u64,
    buf: UnitBuf,
}

impl Model for UnitPackets {
    ghost use Rattle.sub_stream.specs.Gathered.{Gathered, packets_of_prefixes, IsGathered};

    ghost Value = { Gathered };

    ghost view = { λ u. record {
      aggregation = u.buf.aggregation;
      ahead = u.buf.ahead;
      packets = packets_of_prefixes u.buf.packets u.prefixes;
    } };

    ghost invariant = { λ u. IsGathered u.prefixes u.posted u.buf };
}

// Decrypts the bodies, joined.
fn mask_bodies(buf: &mut UnitBuf, cipher: &Gcm, iv: &[u8; 12])
    ensures { buf.new ≡ with_bodies buf.old (masked_bytes cipher.now iv.now 0 (body_of buf.old)) }
{
    cipher.mask(iv, 0, buf.body_mut());
}

fn posted_in_prefix(prefix: Prefix) -> u64
    ensures value { result ≡ prefix.posted }
    ensures small { result ≤ 255 }
{
    u64::from(prefix.posted)
}

impl UnitPackets {
    ghost use Rattle.sub_stream.specs.Gathered.{no_packets, begun_unit, with_packet, clear_of, lent_totals};
    ghost use Rattle.sub_stream.specs.Gathered.{opened_packets};

    /// No packets, in a buffer for at most 8; what it holds is not used.
    pub fn new(mut buf: UnitBuf) -> UnitPackets
        requires { buf.aggregation ≤ 8 }
        ensures { result ≡ no_packets buf.aggregation }
    {
        buf.clear();
        UnitPackets {
            prefixes: [BLANK; 8],
            posted: 0,
            buf,
        }
    }

    /// How many packets there are.
    pub fn count(&self) -> usize
        ensures count { result ≡ length self.now.packets }
        ensures fits { result ≤ self.now.aggregation }
        ensures few { result ≤ 8 }
    {
        self.buf.count()
    }

    /// The sum of their posted counts.
    pub fn posted(&self) -> u64
        ensures value { result ≡ posted_sum self.now.packets }
        ensures few { result ≤ 2040 }
    {
        self.posted
    }

    /// What is authenticated in clear: what comes ahead, and prefixes and headers, joined.
    pub fn clear_bytes(&self) -> &[u8]
        ensures value { result.now ≡ clear_of self.now }
        ensures short { length result.now ≤ MAX_BYTES }
    {
        self.buf.aad()
    }

    /// The bodies, joined.
    pub fn body(&self) -> &[u8]
        ensures value { result.now ≡ encrypted_bytes self.now.packets }
        ensures short { length result.now ≤ 0x8000 }
    {
        self.buf.body()
    }

    /// Drops the packets and what comes ahead.
    pub fn clear(&mut self)
        ensures { self.new ≡ no_packets self.old.aggregation }
    {
        self.posted = 0;
        self.buf.clear();
    }

    /// Begins a unit with these bytes ahead.
    pub fn begin(&mut self, ahead: Option<&[u8; 8]>)
        ensures { self.new ≡ begun_unit self.old.aggregation (lent_totals ahead.entry) }
    {
        self.clear();
        if let Some(ahead) = ahead {
            self.buf.ahead(ahead);
        }
    }

    /// Adds a packet: a header of at most 16 bytes, and a body of at most 4,096.
    pub fn push(&mut self, prefix: &Prefix, head: &[u8], body: &[u8])
        requires room { length self.old.packets < self.old.aggregation }
        requires head_short { length head.now ≤ TLP_HEAD_BYTES }
        requires body_short { length body.now ≤ PAYLOAD_BYTES }
        ensures { self.new ≡ with_packet self.old (record {
          prefix = prefix.now;
          head = head.now;
          body = body.now;
          tag = [];
        }) }
    {
        let i = self.buf.count();
        self.prefixes[i] = *prefix;
        self.posted += posted_in_prefix(*prefix);
        let _ = self.buf.add(&write_prefix(prefix), head, body);
    }

    /// Decrypts the bodies of a whole unit.
    pub fn open(&mut self, cipher: &Gcm, iv: &[u8; 12])
        ensures { self.new ≡ record self.old { packets = opened_packets cipher.now iv.now self.old.packets } }
    {
        mask_bodies(&mut self.buf, cipher, iv);
    }

    /// The prefix, the header and the body of packet `i`, counted from 0.
    pub fn packet(&self, i: usize) -> (Prefix, &[u8], &[u8])
        requires { i < length self.now.packets }
        ensures { slice_get self.now.packets i ≡ Some (record {
          prefix = result.0;
          head = result.1.now;
          body = result.2.now;
          tag = [];
        }) }
    {
        let (clear, body) = self.buf.packet(i);
        (self.prefixes[i], &clear[4..], body)
    }
}
