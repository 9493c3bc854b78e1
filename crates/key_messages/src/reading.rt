//! Reading an object.

ghost use Rattle.std.specs.Prelude.{◌≡◌, ◌+◌, ◌≤◌, Some, None, Ok, Err, length, slice_index, slice_range};
ghost use Rattle.std.specs.Int.{w64, from_le_bytes};
ghost use Rattle.key_messages.specs.Objects.{size_of, fault_of, object_of, object_reading};

use crate::object::{KmFault, KmView};

/// The bytes of an object, by its number.
fn size(number: u8) -> usize
    ensures { result ≡ size_of number }
{
    match number {
        0 => 4,
        2 => 48,
        _ => 8,
    }
}

/// The first fault of the bytes.
fn fault(bytes: &[u8]) -> Option<KmFault>
    ensures { result ≡ fault_of bytes.now }
{
    if bytes.is_empty() {
        return Some(KmFault::Length);
    }
    if bytes[0] != 0 {
        return Some(KmFault::Protocol);
    }
    if bytes.len() == 1 {
        return Some(KmFault::Length);
    }
    if bytes[1] > 6 {
        return Some(KmFault::Object);
    }
    if bytes.len() != size(bytes[1]) {
        return Some(KmFault::Length);
    }
    None
}

fn counter(bytes: &[u8]) -> u64
    requires { 48 ≤ length bytes.now }
    ensures { result ≡ from_le_bytes w64 (slice_range bytes.now 40 48) }
{
    let mut counter = [0; 8];
    counter.copy_from_slice(&bytes[40..48]);
    u64::from_le_bytes(counter)
}

fn key(bytes: &[u8]) -> [u8; 32]
    requires { 48 ≤ length bytes.now }
    ensures { result ≡ slice_range bytes.now 8 40 }
{
    let mut key = [0; 32];
    key.copy_from_slice(&bytes[8..40]);
    key
}

/// The object that the bytes spell.
fn object(bytes: &[u8]) -> KmView
    requires long { length bytes.now ≡ size_of (slice_index bytes.now 1) }
    ensures { result ≡ object_of bytes.now }
{
    match bytes[1] {
        0 => KmView::Query { port: bytes[3] },
        1 => KmView::QueryResp {
            port: bytes[3],
            device_function: bytes[4],
            bus: bytes[5],
            segment: bytes[6],
            highest: bytes[7],
        },
        2 => KmView::KeyProg {
            stream: bytes[4],
            selector: bytes[6],
            port: bytes[7],
            key: key(bytes),
            counter: counter(bytes),
        },
        3 => KmView::KpAck {
            stream: bytes[4],
            status: bytes[5],
            selector: bytes[6],
            port: bytes[7],
        },
        4 => KmView::SetGo {
            stream: bytes[4],
            selector: bytes[6],
            port: bytes[7],
        },
        5 => KmView::SetStop {
            stream: bytes[4],
            selector: bytes[6],
            port: bytes[7],
        },
        _ => KmView::GoStopAck {
            stream: bytes[4],
            selector: bytes[6],
            port: bytes[7],
        },
    }
}

/// The object that the bytes spell, all of them; reserved bytes are ignored (this profile). Refused, in this order:
/// Length without a byte, Protocol at another byte 0 than 0, Length without a byte 1, Object at a byte 1 above 6,
/// Length at another length than the object's.
pub fn km_read(bytes: &[u8]) -> Result<KmView, KmFault>
    ensures { result ≡ object_reading bytes.now }
{
    match fault(bytes) {
        Some(fault) => Err(fault),
        None => Ok(object(bytes)),
    }
}
