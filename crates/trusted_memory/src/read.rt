//! Memory read requests.

ghost use Rattle.std.specs.Prelude.{◌≡◌, IfSome};
ghost use Rattle.tlp_layout.specs.Head.{FitsHead};
ghost use Rattle.trusted_memory.specs.Requests.{memory_read, FitsRead};

use crate::Span;
use tlp_layout::{Fields, HeadView};

/// A memory read request, as far as its completion depends on it (PCI Express Base 6.0 section 2.2.7).
#[derive(Clone, Copy, PartialEq, Eq)]
pub struct MemReadView {
    /// The bytes that it names.
    pub span: Span,
    /// Requester ID: bus in bits 15:8, device and function below.
    pub requester: u16,
    /// Tag, 10 bits.
    pub tag: u16,
    /// Traffic class, 3 bits.
    pub tc: u8,
    /// Attributes, 3 bits.
    pub attr: u8,
}

impl MemReadView {
    /// The memory read that a TLP of this header is; `None` exactly if it is none.
    pub fn of(head: &HeadView) -> Option<MemReadView>
        ensures read { result ≡ memory_read head.now }
        // If the header has a spelling, the fields are in range.
        ensures fits { FitsHead head.now → IfSome result FitsRead }
    {
        if head.has_payload {
            return None;
        }
        match (head.fields, Span::of(head)) {
            (Fields::Memory(fields), Some(span)) => Some(MemReadView {
                span,
                requester: fields.requester,
                tag: fields.tag,
                tc: head.lead.tc,
                attr: head.lead.attr,
            }),
            _ => None,
        }
    }
}
