//! The codes of refusals.

ghost use Rattle.std.specs.Prelude.{◌≡◌};
ghost use Rattle.interface_state.specs.Machine.{error_code};

/// Why a device refuses a request (TDISP section 11.3). BUSY, UNSPECIFIED and vendors' own codes are never given in
/// this profile.
#[derive(Clone, Copy, PartialEq, Eq)]
pub enum ErrorCode {
    /// The request's length or a field of it is wrong.
    InvalidRequest,
    /// The interface's state does not allow it.
    InvalidInterfaceState,
    /// There is no such request.
    UnsupportedRequest,
    /// The version is not 1.0.
    VersionMismatch,
    /// The device has no such interface.
    InvalidInterface,
    /// The nonce is not the one of the lock.
    InvalidNonce,
    /// There is no nonce to give.
    InsufficientEntropy,
    /// The stream is not known or not Secure, or the bytes of two BARs overlap.
    InvalidDeviceConfiguration,
}

impl ErrorCode {
    /// The code in an ERROR message.
    pub fn code(self) -> u32
        ensures { result ≡ error_code self }
    {
        match self {
            ErrorCode::InvalidRequest => 0x0001,
            ErrorCode::InvalidInterfaceState => 0x0004,
            ErrorCode::UnsupportedRequest => 0x0007,
            ErrorCode::VersionMismatch => 0x0041,
            ErrorCode::InvalidInterface => 0x0101,
            ErrorCode::InvalidNonce => 0x0102,
            ErrorCode::InsufficientEntropy => 0x0103,
            ErrorCode::InvalidDeviceConfiguration => 0x0104,
        }
    }
}
