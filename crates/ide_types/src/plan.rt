//! A topology, and its links (this profile).

ghost use Rattle.std.specs.Prelude.{◌≡◌, option_map, slice_get};
ghost use Rattle.ide_types.specs.Plans.{has_stream_id};
ghost use Rattle.ide_types.specs.Ends.{link_hop, own_has_id};

use crate::{InterfacePlan, Items, StreamPlan};

/// What there is before the first event of a run.
#[derive(Drop)]
pub struct Plan {
    /// The version of the topology, 1 or 2.
    pub version: u8,
    /// How many bytes of an interface report one request asks for, 16 to 65,535.
    pub portion: u16,
    /// How many units a key seals at the most, 1 to 2^32.
    pub units_per_key: u64,
    /// The keys, six for each draw: key `6j + 3d + u` is that of draw j, direction d (0 sealed by the host's
    /// port, 1 by the device's) and sub-stream number u. Pairwise different; 6 to 6,144 of them.
    pub pool: Items<[u8; 32]>,
    /// The links, by their number; 1 to 8 of them.
    pub links: Items<LinkPlan>,
    /// The regions of trusted memory, which do not overlap; up to 16 of them.
    pub memory: Items<Region>,
    /// The streams between two devices, by their number; up to 8 of them.
    pub peers: Items<PeerPlan>,
}

fn has_stream(streams: &[StreamPlan], id: u64) -> bool
    ensures { result ≡ has_stream_id streams.now id }
{
    streams.iter().any(|stream| u64::from(stream.id) == id)
}

impl Plan {
    /// Whether a link has the stream of its own; false if there is no such link.
    pub fn own_has(&self, link: u64, id: u64) -> bool
        ensures { result ≡ own_has_id (slice_get self.now.links link) id }
    {
        match self.links.as_slice().get(link as usize) {
            None => false,
            Some(link) => has_stream(link.streams.as_slice(), id),
        }
    }

    /// The hop of a link, if there is one.
    pub fn hop(&self, link: u64) -> Option<&HopPlan>
        ensures { option_map (λ o. o.now) result ≡ link_hop (slice_get self.now.links link) }
    {
        match self.links.as_slice().get(link as usize) {
            None => None,
            Some(link) => link.hop.as_ref(),
        }
    }
}

/// A link: a host's port and a device's (PCI Express Base 6.0 section 6.33 and chapter 11).
#[derive(Drop)]
pub struct LinkPlan {
    /// What the device gives in answer to lock requests, in order; up to 1,024 of them.
    pub nonces: Items<[u8; 32]>,
    /// The streams of the link, 1 to 16; no two have the same ID.
    pub streams: Items<StreamPlan>,
    /// The device's interfaces; no two have the same requester ID.
    pub interfaces: Items<InterfacePlan>,
    /// The stream that ends at a switch on the way, if there is one.
    pub hop: Option<HopPlan>,
}

/// A stream that protects a link hop by hop: one between the host's port and a switch, and one between the switch and
/// the device's port, both with aggregation 1 (PCI Express Base 6.0 section 6.33).
#[derive(Drop)]
pub struct HopPlan {
    /// Its stream ID at all four ends.
    pub id: u8,
    /// The traffic classes that it takes, 0 to 7.
    pub classes: Items<u8>,
}

/// A stream between the devices of two links (PCI Express Base 6.0 section 6.33).
#[derive(Clone, Copy, PartialEq, Eq)]
pub struct PeerPlan {
    /// Its stream ID at both ends.
    pub id: u8,
    /// The link whose device seals direction 0.
    pub near: u8,
    /// The link whose device seals direction 1, another one.
    pub far: u8,
    /// How many packets a unit may have: 1, 2, 4 or 8.
    pub aggregation: u8,
}

/// A region of trusted memory, in bytes; both are multiples of 4,096.
#[derive(Clone, Copy, PartialEq, Eq)]
pub struct Region {
    /// The address of its first byte.
    pub base: u64,
    /// How many bytes it has, at least 4,096.
    pub size: u64,
}
