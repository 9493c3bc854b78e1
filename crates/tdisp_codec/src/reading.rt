//! Reading messages (TDISP section 11.3, in this profile's layout).

ghost use Rattle.std.specs.Prelude.{◌≡◌, ◌+◌, ◌<◌, ◌≤◌, ◌^◌, true, length, slice_index, take, drop};
ghost use Rattle.byteorder.specs.Endian.{little_number};
ghost use Rattle.tdisp_codec.specs.Messages.{length_fault as length_fault_of, message_fault as message_fault_of};
ghost use Rattle.tdisp_codec.specs.Messages.{function_of};
ghost use Rattle.tdisp_codec.specs.Requests.{is_request as is_request_type, request_size as request_size_of};
ghost use Rattle.tdisp_codec.specs.Requests.{typed_request, request_reading};
ghost use Rattle.tdisp_codec.specs.Replies.{is_reply as is_reply_type, reply_size as reply_size_of};
ghost use Rattle.tdisp_codec.specs.Replies.{DeviceInterfaceReport, capabilities_from, typed_reply, reply_shown};
ghost use Rattle.tdisp_codec.specs.Replies.{reply_answer, reply_reading};

use crate::fault::TdispFault;
use crate::numbers::{behind, byte_at, number16, number32};
use crate::reply::ReplyView;
use crate::request::RequestView;
use byteorder::{ByteOrder, LittleEndian};

/// The length of a message without a body, in bytes.
const HEADER: usize = 17;

/// The function ID of a message, bytes 5 to 8; `None` if its header is cut off.
pub fn function_of(bytes: &[u8]) -> Option<u32>
    ensures { result ≡ function_of bytes.now }
{
    if bytes.len() < HEADER {
        None
    } else {
        Some(LittleEndian::read_u32(&bytes[5..]))
    }
}

/// The fault of bytes that have another length than this, in bytes; `None` if they have it.
pub fn length_fault(bytes: &[u8], size: usize) -> Option<TdispFault>
    ensures { result ≡ length_fault_of size bytes.now }
{
    if bytes.len() < size {
        return Some(TdispFault::Short(bytes.len()));
    }
    if size < bytes.len() {
        return Some(TdispFault::Trailing(size));
    }
    None
}

/// The first fault of a message of this length, whose type is known or not.
fn message_fault(bytes: &[u8], known: bool, size: usize) -> Option<TdispFault>
    ensures { result ≡ message_fault_of known size bytes.now }
{
    if bytes.is_empty() {
        return Some(TdispFault::Short(0));
    }
    if bytes[0] != 0x01 {
        return Some(TdispFault::Kind(0));
    }
    if bytes.len() == 1 {
        return Some(TdispFault::Short(1));
    }
    if bytes[1] != 0x10 {
        return Some(TdispFault::Version(1));
    }
    if bytes.len() == 2 {
        return Some(TdispFault::Short(2));
    }
    if !known {
        return Some(TdispFault::Kind(2));
    }
    length_fault(bytes, size)
}

fn is_request(kind: u8) -> bool
    ensures { result ≡ is_request_type kind }
{
    matches!(kind, 0x81..=0x89)
}

/// The length of a request's body, by its type.
fn request_size(kind: u8) -> usize
    ensures value { result ≡ request_size_of kind }
    ensures small { result ≤ 32 }
{
    match kind {
        0x82 => 4,
        0x83 => 20,
        0x84 => 4,
        0x86 => 32,
        0x88 => 1,
        0x89 => 1,
        _ => 0,
    }
}

/// The first 32 bytes.
fn nonce(bytes: &[u8]) -> [u8; 32]
    requires { 32 ≤ length bytes.now }
    ensures { result ≡ take 32 bytes.now }
{
    let mut nonce = [0; 32];
    nonce.copy_from_slice(&bytes[..32]);
    nonce
}

/// The request of this type with this body.
fn request(kind: u8, function: u32, body: &[u8]) -> RequestView
    requires { length body.now ≡ request_size_of kind }
    ensures { result ≡ typed_request kind function body.now }
{
    match kind {
        0x81 => RequestView::GetVersion { function },
        0x82 => RequestView::GetCapabilities { function },
        0x83 => RequestView::LockInterface {
            function,
            flags: LittleEndian::read_u16(body),
            stream: body[2],
            offset: LittleEndian::read_u64(&body[4..]),
            mask: LittleEndian::read_u64(&body[12..]),
        },
        0x84 => RequestView::GetDeviceInterfaceReport {
            function,
            offset: LittleEndian::read_u16(body),
            length: LittleEndian::read_u16(&body[2..]),
        },
        0x85 => RequestView::GetDeviceInterfaceState { function },
        0x86 => RequestView::StartInterface {
            function,
            nonce: nonce(body),
        },
        0x88 => RequestView::BindP2p {
            function,
            stream: body[0],
        },
        0x89 => RequestView::UnbindP2p {
            function,
            stream: body[0],
        },
        _ => RequestView::StopInterface { function },
    }
}

/// The request that the bytes spell, all of them, else the first fault from the left: of the protocol byte, the
/// version, the type, the length; reserved bytes are ignored (TDISP section 11.3).
pub fn request_read(bytes: &[u8]) -> Result<RequestView, TdispFault>
    ensures { result ≡ request_reading bytes.now }
{
    let kind = byte_at(bytes, 2);
    match message_fault(bytes, is_request(kind), 17 + request_size(kind)) {
        Some(fault) => Err(fault),
        None => Ok(request(kind, number32(behind(bytes, 5)), behind(bytes, 17))),
    }
}

fn is_reply(kind: u8) -> bool
    ensures { result ≡ is_reply_type kind }
{
    matches!(kind, 0x01..=0x09 | 0x7f)
}

/// The length of a reply's body, by its type and its own first bytes.
fn reply_size(kind: u8, body: &[u8]) -> usize
    ensures value { result ≡ reply_size_of kind body.now }
    ensures small { result < 2 ^ 17 }
{
    match kind {
        0x01 => 1 + usize::from(byte_at(body, 0)),
        0x02 => 28,
        0x03 => 32,
        0x04 => 4 + usize::from(number16(body)),
        0x05 => 1,
        0x7f => 8,
        _ => 0,
    }
}

fn capabilities<'a>(function: u32, body: &'a [u8]) -> ReplyView<'a>
    requires { length body.now ≡ 28 }
    ensures { reply_shown result ≡ capabilities_from function body.now (drop 20 body.now) }
{
    let rest = &body[20..];
    let mut requests = [0; 16];
    requests.copy_from_slice(&body[4..20]);
    ReplyView::Capabilities {
        function,
        device: LittleEndian::read_u32(body),
        requests,
        lock_flags: LittleEndian::read_u16(rest),
        width: rest[5],
        num_req_this: rest[6],
        num_req_all: rest[7],
    }
}

fn portion<'a>(function: u32, body: &'a [u8]) -> ReplyView<'a>
    requires { 4 ≤ length body.now }
    ensures { reply_shown result ≡ DeviceInterfaceReport function (little_number 2 (drop 2 body.now))
        (drop 4 body.now) }
{
    ReplyView::DeviceInterfaceReport {
        function,
        remainder: LittleEndian::read_u16(&body[2..]),
        portion: &body[4..],
    }
}

/// The reply of this type with this body.
fn reply<'a>(kind: u8, function: u32, body: &'a [u8]) -> ReplyView<'a>
    requires { length body.now ≡ reply_size_of kind body.now }
    ensures { reply_shown result ≡ typed_reply kind function body.now }
{
    match kind {
        0x01 => ReplyView::Version {
            function,
            versions: &body[1..],
        },
        0x02 => capabilities(function, body),
        0x03 => ReplyView::LockInterface {
            function,
            nonce: nonce(body),
        },
        0x04 => portion(function, body),
        0x05 => ReplyView::DeviceInterfaceState {
            function,
            state: body[0],
        },
        0x06 => ReplyView::StartInterface { function },
        0x08 => ReplyView::BindP2p { function },
        0x09 => ReplyView::UnbindP2p { function },
        0x7f => ReplyView::Error {
            function,
            code: LittleEndian::read_u32(body),
            value: LittleEndian::read_u32(&body[4..]),
        },
        _ => ReplyView::StopInterface { function },
    }
}

/// The reply that the bytes spell, all of them, else the first fault from the left: of the protocol byte, the version,
/// the type, the length; reserved bytes are ignored (TDISP section 11.3).
pub fn reply_read(bytes: &[u8]) -> Result<ReplyView<'_>, TdispFault>
    ensures { reply_answer result ≡ reply_reading bytes.now }
{
    let kind = byte_at(bytes, 2);
    let body = behind(bytes, 17);
    match message_fault(bytes, is_reply(kind), 17 + reply_size(kind, body)) {
        Some(fault) => Err(fault),
        None => Ok(reply(kind, number32(behind(bytes, 5)), body)),
    }
}
