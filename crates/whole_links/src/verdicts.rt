//! What the verdicts of answers to reads and of events on interfaces say.

ghost use Rattle.std.specs.Prelude.{◌≡◌};
ghost use Rattle.spec_interfaces.specs.Exchanges.{carries, changes_device, is_interface_done};
ghost use Rattle.whole_links.specs.Accesses.{is_sealed, takes_read};

use event_verdicts::{AccessVerdict, BlockCause, Verdict};
use ide_types::InterfaceVerdict;

/// Whether an answer to a read with this verdict takes the read: its completion was sealed, or it was dropped.
pub fn takes_read(verdict: &Verdict) -> bool
    ensures { result ≡ takes_read verdict.now }
{
    match verdict {
        Verdict::Sealed { .. } => true,
        Verdict::Access {
            verdict: AccessVerdict::Dropped { .. },
        } => true,
        _ => false,
    }
}

/// Whether a verdict says that a TLP was sealed.
pub fn is_sealed(verdict: &Verdict) -> bool
    ensures { result ≡ is_sealed verdict.now }
{
    match verdict {
        Verdict::Sealed { .. } => true,
        _ => false,
    }
}

/// The verdict of an event on a link that takes what waits there, where nothing waits.
pub fn empty(link: u8) -> Verdict
    ensures { result ≡ Verdict.Access (AccessVerdict.Empty link) }
{
    Verdict::Access {
        verdict: AccessVerdict::Empty { link },
    }
}

/// The verdict of an answer that drops the read of an interface, for this cause.
pub fn dropped(interface: u8, cause: BlockCause) -> Verdict
    ensures { result ≡ Verdict.Access (AccessVerdict.Dropped interface cause) }
{
    Verdict::Access {
        verdict: AccessVerdict::Dropped { interface, cause },
    }
}

// Whether an operation on an interface ended.
fn is_done(verdict: &InterfaceVerdict) -> bool
    ensures { result ≡ is_interface_done verdict.now }
{
    match verdict {
        InterfaceVerdict::Locked { .. } => true,
        InterfaceVerdict::Reported { .. } => true,
        InterfaceVerdict::Started { .. } => true,
        InterfaceVerdict::Halted { .. } => true,
        InterfaceVerdict::State { .. } => true,
        InterfaceVerdict::Bound { .. } => true,
        InterfaceVerdict::Unbound { .. } => true,
        _ => false,
    }
}

/// Whether the request of the first exchange of an operation on an interface with this verdict reached the device.
pub fn reaches(verdict: &Verdict) -> bool
    ensures { result ≡ carries verdict.now 1 }
{
    match verdict {
        Verdict::LostRequest { exchange } => *exchange > 1,
        Verdict::LostReply { exchange } => *exchange >= 1,
        Verdict::RefusedDevice { exchange, .. } => *exchange >= 1,
        Verdict::Interface { verdict } => is_done(verdict),
        _ => false,
    }
}

/// Whether an event on an interface with this verdict wrote to the interface, reset or updated it.
pub fn changes_device(verdict: &Verdict) -> bool
    ensures { result ≡ changes_device verdict.now }
{
    match verdict {
        Verdict::Interface {
            verdict: InterfaceVerdict::Written { .. },
        } => true,
        Verdict::Interface {
            verdict: InterfaceVerdict::Flr { .. },
        } => true,
        Verdict::Interface {
            verdict: InterfaceVerdict::Firmware { .. },
        } => true,
        _ => false,
    }
}
