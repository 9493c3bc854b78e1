//! Streams of a link, and which TLPs each takes.

use crate::Items;

/// An IDE stream of a link (PCI Express Base 6.0 section 6.33).
#[derive(Drop)]
pub struct StreamPlan {
    /// The stream's ID, which its packets name.
    pub id: u8,
    /// How many packets a unit has at the most: 1, 2, 4 or 8.
    pub aggregation: u8,
    /// Whether nothing of a newer key is accepted before all of the older ones (this profile).
    pub closed: bool,
    /// Which TLPs it takes.
    pub selector: Selector,
}

/// Which TLPs a stream takes: those of some requesters and addresses, or those of some traffic classes
/// (PCI Express Base 6.0 section 6.33).
#[derive(Drop)]
pub enum Selector {
    /// Of a selective stream.
    Selective {
        /// The IDs that it takes.
        ids: Option<IdRange>,
        /// The addresses of memory requests that it takes; up to 8 ranges.
        addresses: Items<AddressRange>,
        /// Whether it takes what no selective stream takes by ID or address.
        default: bool,
    },
    /// Of a link stream: the traffic classes that it takes, each 0 to 7.
    Link {
        classes: Items<u8>,
    },
}

/// IDs from `base` to `limit`, both among them (PCI Express Base 6.0 section 6.33).
#[derive(Clone, Copy, PartialEq, Eq)]
pub struct IdRange {
    pub base: u16,
    /// At least `base`.
    pub limit: u16,
}

/// Byte addresses from `base` to `limit`, both among them (PCI Express Base 6.0 section 6.33).
#[derive(Clone, Copy, PartialEq, Eq)]
pub struct AddressRange {
    /// A multiple of 2^20.
    pub base: u64,
    /// Above `base`, and one less than a multiple of 2^20.
    pub limit: u64,
}
