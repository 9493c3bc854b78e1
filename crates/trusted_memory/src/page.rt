//! A page of memory.

ghost use Rattle.std.specs.Prelude.{◌≡◌, ◌<◌, ◌+◌, ◌≤◌, ℕ, IfOk, length, replicate, slice_index, slice_set};
ghost use Rattle.std.specs.Prelude.{if◌then◌else◌};
ghost use Rattle.trusted_memory.specs.Spans.{span_byte_count, is_enabled};
ghost use Rattle.trusted_memory.specs.Writes.{write_of};
ghost use Rattle.trusted_memory.specs.Pages.{HasWritten};

use crate::MemWriteView;
use ide_types::OutOfMemory;
use std::alloc::Global;
use std::marker::Model;

/// The bytes of a page.
pub const PAGE_BYTES: usize = 4_096;

/// The bytes of one page, 4,096 of them.
#[derive(Drop)]
pub struct Page {
    bytes: Vec<u8>,
}

impl Model for Page {
    ghost use Rattle.std.specs.Prelude.{◌≡◌, List, ℕ, length};

    ghost Value = { List ℕ };

    ghost view = { λ p. p.bytes.items };

    ghost invariant = { λ p. length p.bytes.items ≡ 4096 };
}

// Writes byte `i` of the payload at its place after `start`, if it is enabled.
fn put(bytes: &mut [u8], start: usize, write: &MemWriteView<'_>, i: usize)
    requires { start + i < length bytes.old }
    ensures { bytes.new ≡ (if is_enabled write.now.span i
        then slice_set bytes.old (start + i) (slice_index write.now.payload.now i) else bytes.old) }
{
    if write.span.is_enabled(i) {
        bytes[start + i] = write.byte(i);
    }
}

fn put_all(bytes: &mut [u8], start: usize, write: &MemWriteView<'_>)
    requires { start + span_byte_count write.now.span ≤ length bytes.old }
    ensures { HasWritten start (write_of write.now) bytes.old bytes.new }
{
    for i in 0..write.span.bytes() {
        put(bytes, start, write, i);
    }
}

impl Page {
    /// A page of bytes 0.
    pub fn new(alloc: Global) -> Result<Page, OutOfMemory>
        ensures { IfOk result (λ page. page ≡ replicate 4096 0) }
    {
        let bytes = vec![in alloc; 0; PAGE_BYTES]?;
        Ok(Page { bytes })
    }

    /// Byte `i`.
    pub fn byte(&self, i: usize) -> u8
        requires { i < PAGE_BYTES }
        ensures { result ≡ slice_index self.now i }
    {
        self.bytes[i]
    }

    /// Copies the bytes from `start` on into `buf`.
    pub fn read(&self, start: usize, buf: &mut [u8])
        requires { start + length buf.old ≤ PAGE_BYTES }
        ensures bytes { (k : ℕ) → k < length buf.old → slice_index buf.new k ≡ slice_index self.now (start + k) }
        ensures long { length buf.new ≡ length buf.old }
    {
        buf.copy_from_slice(&self.bytes[start..start + buf.len()]);
    }

    /// Sets byte `i`.
    pub fn set(&mut self, i: usize, value: u8)
        requires { i < PAGE_BYTES }
        ensures bytes { self.new ≡ slice_set self.old i value }
        ensures long { length self.old ≡ 4096 }
    {
        self.bytes[i] = value;
    }

    /// Writes the enabled bytes of the payload, the first at `start`.
    pub fn write(&mut self, start: usize, write: &MemWriteView<'_>)
        requires { start + span_byte_count write.now.span ≤ PAGE_BYTES }
        ensures written { HasWritten start (write_of write.now) self.old self.new }
    {
        put_all(self.bytes.as_mut_slice(), start, write);
    }
}
