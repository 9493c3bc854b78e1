//! Laws of bytes, of every history in which each verdict is the one that is due.

ghost use Rattle.law_bytes.specs.LocalLaws.{LocalByteOriginHolds, LocalMmioOriginHolds};
ghost use Rattle.law_bytes.specs.Statements.{KeyStreamFreshHolds};

/// No byte of key stream is used twice (SP 800-38D sections 6.5, 7.1 and 8): each packet masks its payload by a range
/// of the key stream of its key and IV, no two ranges of one key and IV meet, and the counter block of a byte in them
/// is none of those before it, of which the first masks the tag.
pub fn keystream_fresh()
    ensures { KeyStreamFreshHolds }
{}

/// Each byte that is shown of trusted memory is 0, or was left by the last admitted write that enables its address,
/// which came on the stream of an interface of the link. The bytes of that write were given to a send at the device's
/// port of the link, by the interface of its requester ID, while that was in the very RUN, under the very lock, in
/// which the write was admitted, provided no tag of the sub-stream and draw under which it came verified, up to its
/// unit, on a unit that the partner had not sealed: whatever verified of others.
pub fn byte_origin()
    ensures { LocalByteOriginHolds }
{}

/// Each packet with T whose write is stored in the memory of an interface was sealed by a trusted send at the host's
/// port of its link, on the stream of its lock, or at another device for an interface in RUN, on a stream that both are
/// bound to; and since before that the interface was in no RUN but the one that it is in. So it is provided no tag of
/// the sub-stream and draw under which the packet came verified, up to its unit, on a unit that the partner had not
/// sealed: whatever verified of others.
pub fn mmio_origin_law()
    ensures { LocalMmioOriginHolds }
{}
