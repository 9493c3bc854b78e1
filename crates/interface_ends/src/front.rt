//! Requests as they come, and which are refused before an interface is looked for.

ghost use Rattle.std.specs.Prelude.{◌≡◌, length};
ghost use Rattle.interface_ends.specs.Replies.{code_by, function_or_none, request_checked, stream_named};

use interface_state::ErrorCode;
use tdisp_codec::{RequestView, TdispFault, function_of, request_read};

/// The length of a message without a body.
const HEADER: usize = 17;

fn code(fault: TdispFault) -> ErrorCode
    ensures { result ≡ code_by fault }
{
    match fault {
        TdispFault::Version(_) => ErrorCode::VersionMismatch,
        TdispFault::Kind(_) => ErrorCode::UnsupportedRequest,
        TdispFault::Short(_) | TdispFault::Trailing(_) => ErrorCode::InvalidRequest,
    }
}

/// The request that the bytes spell, all of them. Refused, in this order: INVALID_REQUEST if the header is cut off,
/// VERSION_MISMATCH at another version than 1.0, UNSUPPORTED_REQUEST at a type that is none, INVALID_REQUEST at another
/// length than the type's.
pub fn request_asked(bytes: &[u8]) -> Result<RequestView, ErrorCode>
    ensures { result ≡ request_checked bytes.now }
{
    if bytes.len() < HEADER {
        return Err(ErrorCode::InvalidRequest);
    }
    match request_read(bytes) {
        Ok(request) => Ok(request),
        Err(fault) => Err(code(fault)),
    }
}

/// The function ID of a message, 0 if its header is cut off.
pub(crate) fn function(bytes: &[u8]) -> u32
    ensures { result ≡ function_or_none bytes.now }
{
    function_of(bytes).unwrap_or(0)
}

/// The stream that a message names: that of a lock, or of a binding to another device. `None` of any other message, and
/// of bytes that are none.
pub fn stream_named(bytes: &[u8]) -> Option<u8>
    ensures { result ≡ stream_named bytes.now }
{
    match request_asked(bytes) {
        Ok(RequestView::LockInterface { stream, .. }) => Some(stream),
        Ok(RequestView::BindP2p { stream, .. }) => Some(stream),
        _ => None,
    }
}
