//! Device interfaces (this profile).

use crate::{Bytes, Items};

/// A device interface and the registers that it begins with (PCI Express Base 6.0 chapter 11).
#[derive(Drop)]
pub struct InterfacePlan {
    /// Its requester ID.
    pub requester: u16,
    /// The ID of the selective stream of its link that it is bound to by a lock request.
    pub stream: u8,
    /// The flags of its lock requests, bits 0 to 4.
    pub flags: u16,
    /// The MMIO reporting offset of its lock requests in bytes, a multiple of 4,096.
    pub offset: u64,
    /// The command register.
    pub command: u16,
    /// The cache line size register.
    pub cache_line: u8,
    /// The MSI-X control register.
    pub msix: u16,
    /// The LNR control register.
    pub lnr: u16,
    /// The TPH control register.
    pub tph: u32,
    /// The PASID control register, 0 in version 1.
    pub pasid: u16,
    /// The ATS control register, 0 in version 1.
    pub ats: u16,
    /// Whether its device answers memory reads of its base address registers, false in version 1.
    pub reads: bool,
    /// Device information, which its report ends with; up to 1,024 bytes.
    pub info: Bytes,
    /// Its base address registers, by their number; up to 6.
    pub bars: Items<BarPlan>,
}

/// A base address register and its range of addresses (PCI Express Base 6.0 chapter 11).
#[derive(Clone, Copy, PartialEq, Eq)]
pub struct BarPlan {
    /// The byte address that it begins with.
    pub base: u64,
    /// The length of the range in pages of 4,096 bytes, up to 1,048,576.
    pub pages: u32,
    /// The range's attributes: bit 0 MSI-X table, 1 MSI-X pending bits, 2 memory outside the TEE, 3 updatable.
    pub attributes: u8,
}
