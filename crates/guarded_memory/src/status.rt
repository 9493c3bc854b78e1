//! How an interface stands when a request arrives.

ghost use Rattle.std.specs.Prelude.{◌≡◌};
ghost use Rattle.interface_state.specs.RegisterValues.{has_bit};
ghost use Rattle.guarded_memory.specs.Statuses.{is_open_range, has_open_range};
ghost use Rattle.guarded_memory.specs.Statuses.{is_config_unlocked, is_in_run, state_of_interface, interface_status};

use ide_types::BarPlan;
use interface_state::{Bindings, Interface, Register, TdiState};

/// The state of a device interface (PCI Express Base 6.0 chapter 11).
#[derive(Clone, Copy, PartialEq, Eq)]
pub enum InterfaceState {
    ConfigUnlocked,
    ConfigLocked,
    Run,
    Error,
}

/// What is asked of an interface when a request arrives (PCI Express Base 6.0 chapter 11, in this profile).
#[derive(Drop)]
pub struct InterfaceStatus {
    /// Its state.
    pub state: InterfaceState,
    /// Whether memory space is on: bit 1 of its command register.
    pub memory_space: bool,
    /// Its base address registers by their number, each with its base as it stands; one that the interface has not has
    /// no pages. Bit 2 of the attributes says that the range is open to writes that are not trusted.
    pub bars: [BarPlan; 6],
    /// Whether its device answers memory reads of these.
    pub reads: bool,
    /// The streams that it is bound to: that of its link first, and those between its device and others.
    pub bound: Bindings,
}

/// Whether a range is open to writes that are not trusted.
pub fn is_open_range(range: &BarPlan) -> bool
    ensures { result ≡ is_open_range range.now }
{
    (range.attributes >> 2) & 1 == 1
}

/// Whether the range of this BAR is open; one that is not there is not.
pub fn has_open_range(bars: &[BarPlan], bar: usize) -> bool
    ensures { result ≡ has_open_range bars.now bar }
{
    match bars.get(bar) {
        Some(range) => is_open_range(range),
        None => false,
    }
}

impl InterfaceState {
    /// The state, without what the lock that stands kept.
    pub fn of(state: &TdiState) -> InterfaceState
        ensures { result ≡ state_of_interface state.now }
    {
        match state {
            TdiState::ConfigUnlocked => InterfaceState::ConfigUnlocked,
            TdiState::ConfigLocked { .. } => InterfaceState::ConfigLocked,
            TdiState::Run { .. } => InterfaceState::Run,
            TdiState::Error => InterfaceState::Error,
        }
    }

    /// Whether it is CONFIG_UNLOCKED.
    pub fn is_config_unlocked(self) -> bool
        ensures { result ≡ is_config_unlocked self }
    {
        matches!(self, InterfaceState::ConfigUnlocked)
    }

    /// Whether it is RUN.
    pub fn is_in_run(self) -> bool
        ensures { result ≡ is_in_run self }
    {
        matches!(self, InterfaceState::Run)
    }
}

// Whether memory space is on.
fn has_memory_space(interface: &Interface) -> bool
    ensures { result ≡ has_bit 1 interface.now.registers.command }
{
    (interface.register(Register::Command) >> 1) & 1 == 1
}

impl InterfaceStatus {
    /// How a device interface with this floor stands, the least draw under which writes on the stream of its link are
    /// admitted.
    pub fn of(interface: &Interface, floor: u32) -> InterfaceStatus
        ensures { result ≡ interface_status interface.now floor }
    {
        InterfaceStatus {
            state: InterfaceState::of(interface.state_with_lock()),
            memory_space: has_memory_space(interface),
            bars: interface.bars(),
            reads: interface.answers_reads(),
            bound: interface.bindings(floor),
        }
    }
}
