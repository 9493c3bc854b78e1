//! What the keys of a topology say, before the rules over several values.

use ide_types::{InterfacePlan, Items, PeerPlan, Region, StreamPlan};

/// What a stream is chosen by.
#[derive(Clone, Copy, PartialEq, Eq)]
pub enum StreamKind {
    Selective,
    Link,
}

/// The registers of an interface.
#[derive(Clone, Copy)]
pub struct RegisterDraft {
    pub command: u16,
    pub msix: u16,
    pub lnr: u16,
    pub cache_line: u8,
    pub tph: u32,
    pub pasid: u16,
    pub ats: u16,
}

/// An interface, and the number that names its stream.
#[derive(Drop)]
pub struct InterfaceDraft {
    pub stream: i64,
    /// Its stream is that number, or 0 if the number is no stream ID.
    pub interface: InterfacePlan,
}

/// A link.
#[derive(Drop)]
pub struct LinkDraft {
    pub nonces: Items<[u8; 32]>,
    pub streams: Items<StreamPlan>,
    pub interfaces: Items<InterfaceDraft>,
    /// The stream ID of its hop, if it is there.
    pub hop: Option<u8>,
    /// The traffic classes that the hop takes, if they are there.
    pub hop_classes: Option<Items<u8>>,
}

/// A topology.
#[derive(Drop)]
pub struct PlanDraft {
    pub version: u8,
    pub portion: u16,
    pub units_per_key: u64,
    pub pool: Items<[u8; 32]>,
    pub links: Items<LinkDraft>,
    pub memory: Items<Region>,
    pub peers: Items<PeerPlan>,
}
