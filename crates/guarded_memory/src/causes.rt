//! Why writes are blocked, and what becomes of them.

ghost use Rattle.std.specs.Prelude.{◌≡◌};
ghost use Rattle.guarded_memory.specs.Causes.{untrusted_cause, floor_cause, trusted_cause, access_cause, mmio_cause};

use crate::status::is_open_range;
use crate::{Claim, InterfaceState, InterfaceStatus};
use event_verdicts::{BlockCause, stale_cause};
use ide_types::BarPlan;
use trusted_memory::Span;

// Of a write that is not trusted.
fn untrusted_cause(state: InterfaceState, range: &BarPlan) -> Option<BlockCause>
    ensures { result ≡ untrusted_cause state range.now }
{
    if is_open_range(range) || state.is_config_unlocked() {
        None
    } else {
        Some(BlockCause::NotTrusted)
    }
}

// By the floor on its stream.
fn floor_cause(floor: Option<u32>, draw: u32) -> Option<BlockCause>
    ensures { result ≡ floor_cause floor draw }
{
    match floor {
        None => Some(BlockCause::WrongStream),
        Some(floor) => stale_cause(floor, draw),
    }
}

// Of a trusted write.
fn trusted_cause(status: &InterfaceStatus, stream: u8, draw: u32) -> Option<BlockCause>
    ensures { result ≡ trusted_cause status.now stream draw }
{
    if status.state.is_in_run() {
        floor_cause(status.bound.floor_on(stream), draw)
    } else {
        Some(BlockCause::NotRunning)
    }
}

/// The first cause that blocks a claimed request for its T, its stream and its draw; `None` if none does.
pub(crate) fn access_cause(
    claim: &Claim,
    trusted: bool,
    stream: u8,
    draw: u32,
) -> Option<BlockCause>
    ensures { result ≡ access_cause claim.now.status claim.now.range trusted stream draw }
{
    if trusted {
        trusted_cause(&claim.status, stream, draw)
    } else {
        untrusted_cause(claim.status.state, &claim.range)
    }
}

/// The first cause that blocks a claimed write over these bytes, which came on this stream under the key of this draw:
/// its bytes cross a 4 KiB boundary of addresses; it is not trusted, the range is not open, and the interface is not in
/// CONFIG_UNLOCKED; it is trusted, and the interface is not in RUN; it came on a stream that the interface is not bound
/// to; its draw is less than the floor there (this profile). `None` if nothing blocks it.
pub fn mmio_cause(
    claim: &Claim,
    span: Span,
    trusted: bool,
    stream: u8,
    draw: u32,
) -> Option<BlockCause>
    ensures { result ≡ mmio_cause claim.now.status claim.now.range span trusted stream draw }
{
    if span.crosses() {
        Some(BlockCause::Crosses)
    } else {
        access_cause(claim, trusted, stream, draw)
    }
}
