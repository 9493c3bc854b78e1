//! TLPs as values (PCI Express Base 6.0 section 2.2).

use crate::head::HeadView;
use ide_types::{Bytes, SubKind};

/// A TLP (PCI Express Base 6.0 section 2.2): its header and the bytes of its payload, none if the header wants none.
#[derive(Drop)]
pub struct Tlp {
    /// The header.
    pub head: HeadView,
    /// The payload, up to 4,096 bytes.
    pub payload: Bytes,
}

/// A TLP whose payload is lent (PCI Express Base 6.0 section 2.2).
#[derive(Clone, Copy)]
pub struct TlpView<'a> {
    /// The header.
    pub head: HeadView,
    /// The payload, up to 4,096 bytes.
    pub payload: &'a [u8],
}

impl TlpView<'_> {
    ghost use Rattle.std.specs.Prelude.{◌≡◌};
    ghost use Rattle.tlp_layout.specs.Class.{class_of};
    ghost use Rattle.tlp_layout.specs.Tlp.{header, viewed_tlp};

    /// The header.
    pub fn head(&self) -> HeadView
        ensures { result ≡ header (viewed_tlp self.now) }
    {
        self.head
    }

    /// The sub-stream that the TLP belongs to (PCI Express Base 6.0 section 6.33).
    pub fn class(&self) -> SubKind
        ensures { result ≡ class_of (header (viewed_tlp self.now)) }
    {
        self.head.class()
    }
}
