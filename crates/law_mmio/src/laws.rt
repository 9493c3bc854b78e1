//! The law of guarded memory.

ghost use Rattle.law_mmio.specs.Statements.{MmioLawHolds};

/// In every history in which each verdict is the one that is due: each byte that is shown of the range of a BAR is
/// that of the last stored write that enables it since the range was last set to 0, else 0. While an interface is in
/// CONFIG_LOCKED or RUN, a byte of a range without attribute bit 2 changes only by a stored write of a trusted
/// packet, in RUN, on the stream that the lock named, under a draw from the device's floor on. In RUN that floor is
/// the greatest draw that was On where the device receives posted requests on that stream when the interface was
/// started under the lock that stands (PCI Express Base 6.0 chapter 11, in this profile).
pub fn mmio_law()
    ensures { MmioLawHolds }
{}
