//! Why bytes are no message or report.

/// The first fault from the left, with its place, a byte offset from 0 (this profile).
#[derive(Clone, Copy, PartialEq, Eq)]
pub enum TdispFault {
    /// The bytes end before the message does, also within the entries of a count.
    Short(usize),
    /// Bytes follow the message.
    Trailing(usize),
    /// The version is not 1.0.
    Version(usize),
    /// The first byte is not the protocol's, or there is no such type.
    Kind(usize),
}
