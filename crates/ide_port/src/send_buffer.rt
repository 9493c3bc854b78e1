//! What one send seals.

ghost use Rattle.std.specs.Prelude.{◌≡◌, ◌≤◌, [], IfOk, length};

use crate::SEND_ROOM;
use ide_types::OutOfMemory;
use std::alloc::Global;
use std::marker::Model;

/// What one send seals: the bytes of its packets, joined, at most `SEND_ROOM`. There is room for them from the start.
#[derive(Drop)]
pub struct SendBuffer {
    pub(crate) bytes: Vec<u8>,
}

impl Model for SendBuffer {
    ghost use Rattle.std.specs.Prelude.{◌≤◌, List, ℕ, length, vec_capacity};

    ghost Value = { List ℕ };

    ghost view = { λ b. b.bytes.items };

    ghost invariant = { λ b. (length b.bytes.items ≤ 4184) × (4184 ≤ vec_capacity b.bytes) };
}

impl SendBuffer {
    /// A buffer without bytes. Returns `OutOfMemory` for want of memory.
    pub fn make(alloc: Global) -> Result<SendBuffer, OutOfMemory>
        ensures { IfOk result (λ b. b ≡ []) }
    {
        let bytes = Vec::with_capacity(alloc, SEND_ROOM)?;
        Ok(SendBuffer { bytes })
    }

    /// Nothing is sealed.
    pub(crate) fn clear(&mut self)
        ensures { self.new ≡ [] }
    {
        self.bytes.clear();
    }

    /// The bytes, lent.
    pub fn as_slice(&self) -> &[u8]
        ensures value { result.now ≡ self.now }
        ensures short { length result.now ≤ 4184 }
    {
        &self.bytes
    }
}
