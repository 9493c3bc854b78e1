//! A buffer for the next TLP.

ghost use Rattle.std.specs.Prelude.{◌≡◌, ◌+◌, ◌≤◌, ◌++◌, length, vec_len, vec_capacity};

use crate::MOST_BYTES;
use ide_types::{Bytes, OutOfMemory};
use std::alloc::Global;
use std::marker::Model;

/// An empty buffer with room for the longest TLP.
#[derive(Drop)]
pub struct Blank {
    bytes: Vec<u8>,
}

impl Model for Blank {
    ghost use Rattle.std.specs.Prelude.{vec_capacity};
    ghost use Rattle.hop_queues.specs.Waiting.{IsBlankBuffer};

    ghost Value = { Unit {0} };

    ghost view = { λ b. tt };

    ghost invariant = { λ b. IsBlankBuffer b.bytes.items (vec_capacity b.bytes) };
}

// Appends the bytes, for which there is room.
fn append(out: &mut Vec<u8>, bytes: &[u8])
    requires { vec_len out.old + length bytes.now ≤ vec_capacity out.old }
    ensures items { out.new.items ≡ out.old.items ++ bytes.now }
    ensures len { vec_len out.new ≡ vec_len out.old + length bytes.now }
    ensures capacity { vec_capacity out.old ≤ vec_capacity out.new }
{
    let _ = out.extend_from_slice(bytes);
}

impl Blank {
    /// Takes the memory of one.
    pub fn make(alloc: Global) -> Result<Blank, OutOfMemory> {
        let bytes = Vec::with_capacity(alloc, MOST_BYTES)?;
        Ok(Blank { bytes })
    }

    /// The bytes of a TLP: its header, and then its payload.
    pub fn filled(self, head: &[u8], payload: &[u8]) -> Bytes
        requires { length head.now + length payload.now ≤ MOST_BYTES }
        ensures { result ≡ head.now ++ payload.now }
    {
        let mut bytes = self.bytes;
        append(&mut bytes, head);
        append(&mut bytes, payload);
        Bytes::new(bytes)
    }
}
