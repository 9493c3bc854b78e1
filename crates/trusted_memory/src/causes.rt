//! Why memory requests are blocked (this profile).

ghost use Rattle.std.specs.Prelude.{◌≡◌};
ghost use Rattle.trusted_memory.specs.Causes.{grant_cause, place_cause, block_cause};

use crate::regions::in_one_region;
use crate::{Grant, Span};
use event_verdicts::{BlockCause, binding_cause};
use ide_types::Region;

/// Why the grant does not admit a trusted request: its requester is no running interface; it came on another stream
/// than the bound one; its draw is less than the floor.
pub fn grant_cause(grant: Grant) -> Option<BlockCause>
    ensures { result ≡ grant_cause grant.bound grant.stream grant.draw }
{
    match grant.bound {
        None => Some(BlockCause::NotRunning),
        Some(bound) => binding_cause(bound, Some(grant.stream), grant.draw),
    }
}

/// Why the bytes have no place: they are not all in one region; they cross a 4 KiB boundary.
pub fn place_cause(regions: &[Region], span: Span) -> Option<BlockCause>
    ensures { result ≡ place_cause regions.now span }
{
    if !in_one_region(regions, span.address, span.bytes()) {
        Some(BlockCause::Outside)
    } else if span.crosses() {
        Some(BlockCause::Crosses)
    } else {
        None
    }
}

/// The first cause that blocks a request: it is not trusted; else why its grant does not admit it; else why its bytes
/// have no place. `None` if nothing blocks it.
pub fn block_cause(
    regions: &[Region],
    span: Span,
    trusted: bool,
    grant: Grant,
) -> Option<BlockCause>
    ensures { result ≡ block_cause regions.now span trusted grant }
{
    if !trusted {
        return Some(BlockCause::NotTrusted);
    }
    match grant_cause(grant) {
        Some(cause) => Some(cause),
        None => place_cause(regions, span),
    }
}
