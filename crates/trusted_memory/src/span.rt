//! The bytes that memory requests name.

ghost use Rattle.std.specs.Prelude.{◌≡◌, ◌<◌};
ghost use Rattle.trusted_memory.specs.Spans.{span_byte_count, is_enable_set, is_enabled, crosses, double_words};
ghost use Rattle.trusted_memory.specs.Spans.{span_of, write_span};

use tlp_layout::{Fields, HeadView};

/// The bytes that a memory request names (PCI Express Base 6.0 section 2.2): those of its double words, at ascending
/// addresses, some of which it enables.
#[derive(Clone, Copy, PartialEq, Eq)]
pub struct Span {
    /// The address of the first byte.
    pub address: u64,
    /// Byte enables of the first double word, 4 bits.
    pub first_be: u8,
    /// Byte enables of the last double word of more than one, 4 bits.
    pub last_be: u8,
    /// Double words, from 1 to 1,024.
    pub length: u16,
}

// Bit `k` of byte enables.
fn is_set(bits: u8, k: usize) -> bool
    requires { k < 4 }
    ensures { result ≡ is_enable_set bits k }
{
    (bits >> k) & 1 == 1
}

// The double words that the Length field of a header stands for.
fn double_words(length: u16) -> u16
    ensures { result ≡ double_words length }
{
    if length == 0 { 1_024 } else { length }
}

impl Span {
    /// The bytes that a memory read or write request names by its header; `None` of the header of another TLP.
    pub fn of(head: &HeadView) -> Option<Span>
        ensures { result ≡ span_of head.now }
    {
        match head.fields {
            Fields::Memory(fields) => Some(Span {
                address: fields.address,
                first_be: fields.first_be,
                last_be: fields.last_be,
                length: double_words(head.lead.length),
            }),
            _ => None,
        }
    }

    /// The bytes that a memory write request names by its header; `None` of the header of another TLP.
    pub fn of_write(head: &HeadView) -> Option<Span>
        ensures { result ≡ write_span head.now }
    {
        if head.has_payload {
            Span::of(head)
        } else {
            None
        }
    }

    /// How many bytes they are.
    pub fn bytes(&self) -> usize
        ensures { result ≡ span_byte_count self.now }
    {
        4 * self.length as usize
    }

    /// Whether byte `i` is enabled: in the first double word by the first byte enables, in the last of more than one
    /// by the last byte enables, always in between (PCI Express Base 6.0 section 2.2.5).
    pub fn is_enabled(&self, i: usize) -> bool
        ensures { result ≡ is_enabled self.now i }
    {
        if i / 4 == 0 {
            is_set(self.first_be, i % 4)
        } else if i / 4 + 1 == self.length as usize {
            is_set(self.last_be, i % 4)
        } else {
            true
        }
    }

    /// Whether they cross a 4 KiB boundary.
    pub fn crosses(&self) -> bool
        ensures { result ≡ crosses self.now }
    {
        (self.address % 4096) as usize + self.bytes() > 4096
    }
}
