//! The registers of a device interface.

ghost use Rattle.std.specs.Prelude.{◌≡◌, ◌<◌, ◌^◌, ◌==◌, ◌&&◌, [], ◌∷◌};
ghost use Rattle.ide_types.specs.RegisterNames.{width_of};
ghost use Rattle.interface_state.specs.RegisterValues.{bit_at, has_bit, changes_listed, planned_registers};
ghost use Rattle.interface_state.specs.RegisterValues.{planned_base, IsAmongSix, value_in, with_value};

use ide_types::{BarPlan, InterfacePlan, Register};

/// What the registers of a device interface hold (PCI Express Base 6.0 sections 7.5.1 and 7.7 to 7.9, and this
/// profile).
#[derive(Clone, Copy, PartialEq, Eq)]
pub struct Registers {
    pub command: u16,
    pub cache_line: u8,
    pub msix: u16,
    pub lnr: u16,
    pub tph: u32,
    pub pasid: u16,
    pub ats: u16,
    /// The base addresses of the BARs by their number, 0 if the interface has none.
    pub bars: [u64; 6],
}

// What the topology gives this BAR, 0 if the interface has none.
fn planned_base(bars: &[BarPlan], n: usize) -> u64
    ensures { result ≡ planned_base bars.now n }
{
    match bars.get(n) {
        Some(bar) => bar.base,
        None => 0,
    }
}

fn planned_bases(bars: &[BarPlan]) -> [u64; 6]
    ensures { result ≡ planned_base bars.now 0 ∷ planned_base bars.now 1 ∷ planned_base bars.now 2
        ∷ planned_base bars.now 3 ∷ planned_base bars.now 4 ∷ planned_base bars.now 5 ∷ [] }
{
    [
        planned_base(bars, 0),
        planned_base(bars, 1),
        planned_base(bars, 2),
        planned_base(bars, 3),
        planned_base(bars, 4),
        planned_base(bars, 5),
    ]
}

/// Whether bit `n` of a number is set; `n` is below 16.
pub(crate) fn has_bit(n: u8, value: u16) -> bool
    requires { n < 16 }
    ensures { result ≡ has_bit n value }
{
    (value >> n) & 1 == 1
}

fn same_enables(command: u16, other: u16) -> bool
    ensures { result ≡ ((bit_at 1 command == bit_at 1 other) && (bit_at 2 command == bit_at 2 other)) }
{
    (command >> 1) & 1 == (other >> 1) & 1 && (command >> 2) & 1 == (other >> 2) & 1
}

impl Registers {
    /// The values that the topology gives.
    pub(crate) fn planned(plan: &InterfacePlan) -> Registers
        ensures { result ≡ planned_registers plan.now }
    {
        Registers {
            command: plan.command,
            cache_line: plan.cache_line,
            msix: plan.msix,
            lnr: plan.lnr,
            tph: plan.tph,
            pasid: plan.pasid,
            ats: plan.ats,
            bars: planned_bases(plan.bars.as_slice()),
        }
    }

    /// The value of a register; of the BARs there are six.
    pub(crate) fn value(&self, register: Register) -> u64
        requires { IsAmongSix register }
        ensures { result ≡ value_in self.now register }
    {
        match register {
            Register::Command => self.command as u64,
            Register::CacheLine => self.cache_line as u64,
            Register::Msix => self.msix as u64,
            Register::Lnr => self.lnr as u64,
            Register::Tph => self.tph as u64,
            Register::Pasid => self.pasid as u64,
            Register::Ats => self.ats as u64,
            Register::Bar(n) => self.bars[n as usize],
        }
    }

    /// Writes a register; of the BARs there are six, and the value has the register's width.
    pub(crate) fn write(&mut self, register: Register, value: u64)
        requires six { IsAmongSix register }
        requires width { value < 2 ^ width_of register }
        ensures { self.new ≡ with_value self.old register value }
    {
        match register {
            Register::Command => self.command = value as u16,
            Register::CacheLine => self.cache_line = value as u8,
            Register::Msix => self.msix = value as u16,
            Register::Lnr => self.lnr = value as u16,
            Register::Tph => self.tph = value as u32,
            Register::Pasid => self.pasid = value as u16,
            Register::Ats => self.ats = value as u16,
            Register::Bar(n) => self.bars[n as usize] = value,
        }
    }

    /// Whether the value, written into the register, is a listed change under these flags of a lock.
    pub(crate) fn changes_listed(&self, flags: u16, register: Register, value: u64) -> bool
        requires six { IsAmongSix register }
        requires width { value < 2 ^ width_of register }
        ensures { result ≡ changes_listed flags self.now register value }
    {
        let changes = value != self.value(register);
        match register {
            Register::Command => !same_enables(value as u16, self.command),
            Register::Msix => has_bit(2, flags) && changes,
            Register::CacheLine => has_bit(1, flags) && changes,
            _ => changes,
        }
    }
}
