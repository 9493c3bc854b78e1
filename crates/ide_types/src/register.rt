//! The registers of a device interface.

ghost use Rattle.std.specs.Prelude.{◌≡◌};
ghost use Rattle.ide_types.specs.RegisterNames.{has_register};

use crate::InterfacePlan;

/// A register of a device interface (PCI Express Base 6.0 sections 7.5.1 and 7.7 to 7.9, and this profile).
#[derive(Clone, Copy, PartialEq, Eq)]
pub enum Register {
    /// Command, 16 bits: bit 1 memory space, bit 2 bus master.
    Command,
    /// Cache line size, 8 bits.
    CacheLine,
    /// MSI-X control, 16 bits.
    Msix,
    /// LNR control, 16 bits.
    Lnr,
    /// TPH control, 32 bits.
    Tph,
    /// PASID control, 16 bits.
    Pasid,
    /// ATS control, 16 bits.
    Ats,
    /// A base address register by its number, from 0; 64 bits.
    Bar(u8),
}

impl Register {
    /// Whether an interface of this layout has it.
    pub fn is_of(self, plan: &InterfacePlan) -> bool
        ensures { result ≡ has_register plan.now self }
    {
        match self {
            Register::Bar(n) => (n as usize) < plan.bars.as_slice().len(),
            _ => true,
        }
    }
}
