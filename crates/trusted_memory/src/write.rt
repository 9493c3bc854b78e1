//! Memory write requests.

ghost use Rattle.std.specs.Prelude.{◌≡◌, slice_index};
ghost use Rattle.std.specs.Option.{option_map};
ghost use Rattle.tlp_layout.specs.Tlp.{viewed_tlp};
ghost use Rattle.trusted_memory.specs.Writes.{write_of_tlp, write_of};

use crate::Span;
use tlp_layout::TlpView;

/// A memory write request whose payload is lent (PCI Express Base 6.0 section 2.2).
#[derive(Clone, Copy)]
pub struct MemWriteView<'a> {
    /// The bytes that it names.
    pub span: Span,
    /// What it writes there.
    pub payload: &'a [u8],
}

impl<'a> MemWriteView<'a> {
    /// The memory write that the TLP is; `None` exactly if it is none.
    pub fn of(tlp: &TlpView<'a>) -> Option<MemWriteView<'a>>
        ensures { option_map write_of result ≡ write_of_tlp (viewed_tlp tlp.now) }
    {
        match Span::of_write(&tlp.head) {
            Some(span) => Some(MemWriteView {
                span,
                payload: tlp.payload,
            }),
            None => None,
        }
    }
}

impl MemWriteView<'_> {
    /// Byte `i` of the payload, 0 after its end.
    pub fn byte(&self, i: usize) -> u8
        ensures { result ≡ slice_index self.now.payload.now i }
    {
        self.payload.get(i).copied().unwrap_or(0)
    }
}
