//! The layouts of headers: which one byte 0 names, and the bits that each leaves 0
//! (PCI Express Base 6.0 section 2.2).

ghost use Rattle.std.specs.Prelude.{◌≡◌, ◌<◌};
ghost use Rattle.tlp_layout.specs.Causes.{layout_of_byte as layout_named, head_size as size_named};
ghost use Rattle.tlp_layout.specs.Causes.{reserved_bits as reserved_at, is_allowed_byte, cause_at};
ghost use Rattle.tlp_layout.specs.Class.{kind_of_layout, kind_of_byte as kind_named};

use crate::fault::TlpFault;
use crate::head::TlpKind;

/// Which fields stand after the first double word of a header.
#[derive(Clone, Copy, PartialEq, Eq)]
pub enum Layout {
    Memory,
    Config,
    Message,
    Completion,
}

impl Layout {
    /// The kind of a TLP of this layout, with or without a payload.
    pub(crate) fn kind(self, has_payload: bool) -> TlpKind
        ensures { result ≡ kind_of_layout self has_payload }
    {
        match (self, has_payload) {
            (Layout::Memory, false) => TlpKind::MemRead,
            (Layout::Memory, true) => TlpKind::MemWrite,
            (Layout::Config, false) => TlpKind::CfgRead,
            (Layout::Config, true) => TlpKind::CfgWrite,
            (Layout::Message, _) => TlpKind::Message,
            (Layout::Completion, _) => TlpKind::Completion,
        }
    }
}

/// The layout that byte 0 names by Fmt and Type; `None` if this profile has no such TLP.
pub(crate) fn layout_of_byte(first: u8) -> Option<Layout>
    ensures { result ≡ layout_named first }
{
    let number = first & 0x1f;
    let wide = (first >> 5) & 1 == 1;
    if first >= 0x80 {
        None
    } else if number == 0 {
        Some(Layout::Memory)
    } else if wide && 0x10 <= number && number < 0x16 {
        Some(Layout::Message)
    } else if !wide && number >> 1 == 0x02 {
        Some(Layout::Config)
    } else if !wide && number == 0x0a {
        Some(Layout::Completion)
    } else {
        None
    }
}

/// The kind of TLP whose header byte 0 begins; `None` if there is no such TLP.
pub fn kind_at(first: u8) -> Option<TlpKind>
    ensures { result ≡ kind_named first }
{
    match layout_of_byte(first) {
        Some(layout) => Some(layout.kind((first >> 6) & 1 == 1)),
        None => None,
    }
}

/// The length in bytes, 12 or 16, of the header that byte 0 begins (Fmt, PCI Express Base 6.0 section 2.2).
pub fn head_size(first: u8) -> usize
    ensures { result ≡ size_named first }
{
    if (first >> 5) & 1 == 1 { 16 } else { 12 }
}

/// The bits that are 0 in the byte at this place of a header.
pub fn reserved(layout: Layout, size: usize, place: usize) -> u8
    requires { place < 16 }
    ensures { result ≡ reserved_at layout size place }
{
    match layout {
        Layout::Memory => match place {
            1 => 0x03,
            2 => 0xc0,
            _ => if place + 1 == size { 0x03 } else { 0 },
        },
        Layout::Config => match place {
            1 => 0x03,
            2 => 0xc3,
            10 => 0xf0,
            11 => 0x03,
            _ => 0,
        },
        Layout::Message => match place {
            1 => 0x03,
            2 => 0xc0,
            _ => 0,
        },
        Layout::Completion => match place {
            1 => 0x03,
            2 => 0xc0,
            11 => 0x80,
            _ => 0,
        },
    }
}

/// Whether the byte may stand at this place of a header.
pub fn allows(layout: Layout, size: usize, place: usize, byte: u8) -> bool
    requires { place < 16 }
    ensures { result ≡ is_allowed_byte layout size place byte }
{
    if reserved(layout, size, place) & byte != 0 {
        return false;
    }
    match layout {
        Layout::Config => place != 3 || byte == 1,
        _ => true,
    }
}

/// Why the byte may not stand there.
pub fn cause(place: usize, byte: u8) -> TlpFault
    ensures { result ≡ cause_at place byte }
{
    match place {
        2 => if byte < 0x40 {
            TlpFault::Length(2)
        } else {
            TlpFault::Bit(2)
        },
        3 => TlpFault::Length(3),
        _ => TlpFault::Bit(place),
    }
}
