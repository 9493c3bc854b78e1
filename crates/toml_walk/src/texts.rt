//! Truth values and texts.

ghost use Rattle.std.specs.Prelude.{◌≡◌, IfOk, length};
ghost use Rattle.std.specs.Result.{result_ok};
ghost use Rattle.hex.specs.Hex.{decode_of};
ghost use Rattle.toml.specs.View.{view};
ghost use Rattle.toml_walk.specs.Fault.{Gives};
ghost use Rattle.toml_walk.specs.Values.{truth, text, or_length, key_bytes, hex_bytes};

use crate::{KeyFault, Path, PlanError, Reader};
use hex::{FromHex, FromHexError};
use ide_types::Bytes;
use std::alloc::{AllocError, Global};
use toml::Value;

/// `true` or `false`; any other value is the fault `Kind`.
#[derive(Clone, Copy)]
pub struct Truth;

impl Reader for Truth {
    type Out = bool;

    ghost reads = { λ _. truth };

    fn read(&self, alloc: Global, path: &Path, value: &Value) -> Result<bool, PlanError> {
        match value.as_bool() {
            None => Err(path.refuse(alloc, KeyFault::Kind)),
            Some(b) => Ok(b),
        }
    }
}

/// The text that a value is, or the fault `Kind` of this path.
pub fn text_of<'a>(alloc: Global, path: &Path, value: &'a Value) -> Result<&'a str, PlanError>
    ensures { Gives (λ s. s.now) result (text path.now (view value.now)) }
{
    match value.as_str() {
        None => Err(path.refuse(alloc, KeyFault::Kind)),
        Some(text) => Ok(text),
    }
}

/// What a text spells; if it spells nothing, the fault `Range` with its length in bytes.
pub fn or_length<T: Drop>(
    alloc: Global,
    path: &Path,
    text: &str,
    spelled: Option<T>,
) -> Result<T, PlanError>
    ensures { Gives (λ x. x) result (or_length path.now text.now spelled) }
{
    match spelled {
        Some(value) => Ok(value),
        None => Err(path.refuse(alloc, KeyFault::Range(text.len() as i64))),
    }
}

/// The 32 bytes of 64 hex digits. Refused, in this order: `Kind` if it is no text, `Range` with its length in bytes if
/// it is another text.
#[derive(Clone, Copy)]
pub struct KeyBytes;

impl Reader for KeyBytes {
    type Out = [u8; 32];

    ghost reads = { λ _. key_bytes };

    fn read(&self, alloc: Global, path: &Path, value: &Value) -> Result<[u8; 32], PlanError> {
        let text = text_of(alloc, path, value)?;
        or_length(alloc, path, text, <[u8; 32]>::from_hex(text).ok())
    }
}

// The bytes that hex digits spell, if they spell any.
fn decoded(alloc: Global, text: &str) -> Result<Option<Bytes>, AllocError>
    ensures { IfOk result (λ bytes. bytes ≡ result_ok (decode_of text.now)) }
{
    match hex::decode(alloc, text) {
        Ok(bytes) => Ok(Some(Bytes::new(bytes))),
        Err(FromHexError::OutOfMemory) => Err(AllocError),
        Err(_) => Ok(None),
    }
}

/// The bytes of an even number of hex digits, up to `most` bytes. Refused, in this order: `Kind` if it is no text,
/// `Range` with its length in bytes if it is another text or too long.
#[derive(Clone, Copy)]
pub struct HexBytes {
    pub most: u16,
}

impl Reader for HexBytes {
    type Out = Bytes;

    ghost reads = { λ r. hex_bytes r.most };

    fn read(&self, alloc: Global, path: &Path, value: &Value) -> Result<Bytes, PlanError> {
        let text = text_of(alloc, path, value)?;
        if text.len() > 2 * usize::from(self.most) {
            return or_length(alloc, path, text, None);
        }
        or_length(alloc, path, text, decoded(alloc, text)?)
    }
}
