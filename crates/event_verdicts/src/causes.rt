//! Why packets are blocked by the streams that an interface is bound to (this profile).

ghost use Rattle.std.specs.Prelude.{◌≡◌};
ghost use Rattle.event_verdicts.specs.Causes.{binding_cause, is_stream, stale_cause};

use crate::BlockCause;
use ide_types::Binding;

// Whether the stream that is taken is this one.
fn is_stream(stream: u8, taken: Option<u8>) -> bool
    ensures { result ≡ is_stream stream taken }
{
    match taken {
        None => false,
        Some(taken) => stream == taken,
    }
}

/// Why a draw is not admitted from a floor on: it is less.
pub fn stale_cause(floor: u32, draw: u32) -> Option<BlockCause>
    ensures { result ≡ stale_cause floor draw }
{
    if draw < floor {
        Some(BlockCause::Stale)
    } else {
        None
    }
}

/// Why the binding of an interface does not admit what takes this stream, or none, under this draw: it is bound to
/// another; the draw is less than its floor.
pub fn binding_cause(binding: Binding, taken: Option<u8>, draw: u32) -> Option<BlockCause>
    ensures { result ≡ binding_cause binding taken draw }
{
    if !is_stream(binding.stream, taken) {
        Some(BlockCause::WrongStream)
    } else {
        stale_cause(binding.floor, draw)
    }
}
