//! Headers of TLPs as values (PCI Express Base 6.0 section 2.2).

use crate::layout::Layout;
use ide_types::SubKind;

/// The first double word of a header but for Fmt, Type and the two tag bits in it (PCI Express Base 6.0 section 2.2).
#[derive(Clone, Copy, PartialEq, Eq)]
pub struct Lead {
    /// Whether the header has 4 double words, not 3.
    pub wide: bool,
    /// Traffic class, 3 bits.
    pub tc: u8,
    /// Attributes, 3 bits.
    pub attr: u8,
    /// Address type, 2 bits.
    pub at: u8,
    /// Payload length in double words, 10 bits; 0 stands for 1024.
    pub length: u16,
}

/// The header of a TLP (PCI Express Base 6.0 section 2.2). A payload follows it if `has_payload` says so.
#[derive(Clone, Copy, PartialEq, Eq)]
pub struct HeadView {
    /// The first double word.
    pub lead: Lead,
    /// Whether a payload follows, of `lead.length` double words.
    pub has_payload: bool,
    /// The fields of its layout.
    pub fields: Fields,
}

/// The fields of a header by its layout (PCI Express Base 6.0 section 2.2).
#[derive(Clone, Copy, PartialEq, Eq)]
pub enum Fields {
    /// Of a memory read or write request.
    Memory(MemoryFields),
    /// Of a configuration read or write request.
    Config(ConfigFields),
    /// Of a message request.
    Message(MessageFields),
    /// Of a completion.
    Completion(CompletionFields),
}

/// The fields of a memory request (PCI Express Base 6.0 section 2.2.7).
#[derive(Clone, Copy, PartialEq, Eq)]
pub struct MemoryFields {
    /// Requester ID: bus in bits 15:8, device and function below.
    pub requester: u16,
    /// Tag, 10 bits.
    pub tag: u16,
    /// Byte enables of the last double word, 4 bits.
    pub last_be: u8,
    /// Byte enables of the first double word, 4 bits.
    pub first_be: u8,
    /// Byte address, a multiple of 4; below 2^32 in a header of 3 double words.
    pub address: u64,
}

/// The fields of a configuration request (PCI Express Base 6.0 section 2.2.7).
#[derive(Clone, Copy, PartialEq, Eq)]
pub struct ConfigFields {
    /// Whether it is of type 1, not 0.
    pub one: bool,
    /// Requester ID: bus in bits 15:8, device and function below.
    pub requester: u16,
    /// Tag, 10 bits.
    pub tag: u16,
    /// Byte enables of the last double word, 4 bits.
    pub last_be: u8,
    /// Byte enables of the first double word, 4 bits.
    pub first_be: u8,
    /// ID of the function that is asked.
    pub destination: u16,
    /// Extended register number in bits 9:6, register number in bits 5:0.
    pub register: u16,
}

/// How a message is routed (PCI Express Base 6.0 section 2.2.8; routings 6 and 7 are refused).
#[derive(Clone, Copy, PartialEq, Eq)]
pub enum Routing {
    /// To the root complex, number 0.
    ToRootComplex,
    /// By address, number 1.
    ByAddress,
    /// By ID, number 2.
    ById,
    /// Broadcast from the root complex, number 3.
    FromRootComplex,
    /// Local: it ends at the receiver, number 4.
    Local,
    /// Gathered, and routed to the root complex, number 5.
    Gathered,
}

/// The fields of a message request (PCI Express Base 6.0 section 2.2.8).
#[derive(Clone, Copy, PartialEq, Eq)]
pub struct MessageFields {
    /// How it is routed.
    pub routing: Routing,
    /// Requester ID: bus in bits 15:8, device and function below.
    pub requester: u16,
    /// Tag, 10 bits.
    pub tag: u16,
    /// Message code.
    pub code: u8,
    /// Header bytes 8 and 9: of a message routed by ID the destination's ID, of others kept.
    pub destination: u16,
    /// Header bytes 10 to 15, kept.
    pub kept: [u8; 6],
}

/// What became of a request (PCI Express Base 6.0 section 2.2.9).
#[derive(Clone, Copy, PartialEq, Eq)]
pub enum CompletionStatus {
    /// Successful completion, number 0.
    Successful,
    /// Unsupported request, number 1.
    UnsupportedRequest,
    /// Completer abort, number 4.
    CompleterAbort,
    /// Another number of 3 bits, kept.
    Other(u8),
}

/// The fields of a completion (PCI Express Base 6.0 section 2.2.9).
#[derive(Clone, Copy, PartialEq, Eq)]
pub struct CompletionFields {
    /// Completer ID.
    pub completer: u16,
    /// What became of the request.
    pub status: CompletionStatus,
    /// Byte count modified.
    pub bcm: bool,
    /// Byte count, 12 bits.
    pub count: u16,
    /// ID of the requester that it answers.
    pub requester: u16,
    /// Tag of the request that it answers, 10 bits.
    pub tag: u16,
    /// Lower address, 7 bits.
    pub lower: u8,
}

/// The six kinds of TLP (PCI Express Base 6.0 section 2.2).
#[derive(Clone, Copy, PartialEq, Eq)]
pub enum TlpKind {
    /// A memory read request.
    MemRead,
    /// A memory write request.
    MemWrite,
    /// A configuration read request, of type 0 or 1.
    CfgRead,
    /// A configuration write request, of type 0 or 1.
    CfgWrite,
    /// A message request, with or without a payload.
    Message,
    /// A completion, with or without a payload.
    Completion,
}

impl TlpKind {
    ghost use Rattle.std.specs.Prelude.{◌≡◌};
    ghost use Rattle.tlp_layout.specs.Class.{kind_class};

    /// The sub-stream that TLPs of this kind belong to: posted requests, non-posted requests or
    /// completions (PCI Express Base 6.0 section 6.33).
    pub fn class(self) -> SubKind
        ensures { result ≡ kind_class self }
    {
        match self {
            TlpKind::MemWrite | TlpKind::Message => SubKind::Pr,
            TlpKind::MemRead | TlpKind::CfgRead | TlpKind::CfgWrite => SubKind::Npr,
            TlpKind::Completion => SubKind::Cpl,
        }
    }
}

impl Routing {
    ghost use Rattle.std.specs.Prelude.{◌≡◌, ◌%◌};
    ghost use Rattle.tlp_layout.specs.Numbers.{routing_bits, routing_from};

    /// Its number on the link, in bits 2:0 of byte 0.
    pub fn number(self) -> u8
        ensures { result ≡ routing_bits self }
    {
        match self {
            Routing::ToRootComplex => 0,
            Routing::ByAddress => 1,
            Routing::ById => 2,
            Routing::FromRootComplex => 3,
            Routing::Local => 4,
            Routing::Gathered => 5,
        }
    }

    /// The routing that byte 0 of a message names in its bits 2:0.
    pub(crate) fn of(first: u8) -> Routing
        ensures { result ≡ routing_from (first % 8) }
    {
        match first & 7 {
            0 => Routing::ToRootComplex,
            1 => Routing::ByAddress,
            2 => Routing::ById,
            3 => Routing::FromRootComplex,
            4 => Routing::Local,
            _ => Routing::Gathered,
        }
    }
}

impl CompletionStatus {
    ghost use Rattle.std.specs.Prelude.{◌≡◌};
    ghost use Rattle.tlp_layout.specs.Numbers.{status_bits, completion_status};

    /// Its number on the link.
    pub fn number(self) -> u8
        ensures { result ≡ status_bits self }
    {
        match self {
            CompletionStatus::Successful => 0,
            CompletionStatus::UnsupportedRequest => 1,
            CompletionStatus::CompleterAbort => 4,
            CompletionStatus::Other(number) => number,
        }
    }

    /// The status of this number.
    pub(crate) fn of(number: u8) -> CompletionStatus
        ensures { result ≡ completion_status number }
    {
        match number {
            0 => CompletionStatus::Successful,
            1 => CompletionStatus::UnsupportedRequest,
            4 => CompletionStatus::CompleterAbort,
            _ => CompletionStatus::Other(number),
        }
    }
}

impl Fields {
    ghost use Rattle.std.specs.Prelude.{◌≡◌};
    ghost use Rattle.tlp_layout.specs.Class.{layout_of};

    fn layout(&self) -> Layout
        ensures { result ≡ layout_of self.now }
    {
        match self {
            Fields::Memory(_) => Layout::Memory,
            Fields::Config(_) => Layout::Config,
            Fields::Message(_) => Layout::Message,
            Fields::Completion(_) => Layout::Completion,
        }
    }
}

impl HeadView {
    ghost use Rattle.std.specs.Prelude.{◌≡◌};
    ghost use Rattle.tlp_layout.specs.Class.{class_of, kind_of};
    ghost use Rattle.tlp_layout.specs.Head.{head_length};
    ghost use Rattle.tlp_layout.specs.Tlp.{body_size};

    /// The kind of the TLP.
    pub fn kind(&self) -> TlpKind
        ensures { result ≡ kind_of self.now }
    {
        self.fields.layout().kind(self.has_payload)
    }

    /// The sub-stream that the TLP belongs to (PCI Express Base 6.0 section 6.33).
    pub fn class(&self) -> SubKind
        ensures { result ≡ class_of self.now }
    {
        self.kind().class()
    }

    /// The length of the header in bytes, 12 or 16.
    pub fn size(&self) -> usize
        ensures { result ≡ head_length self.now }
    {
        if self.lead.wide { 16 } else { 12 }
    }

    /// How many bytes of payload follow the header, up to 4,096.
    pub fn payload_size(&self) -> usize
        ensures { result ≡ body_size self.now.has_payload self.now.lead.length }
    {
        if !self.has_payload {
            0
        } else if self.lead.length == 0 {
            4096
        } else {
            4 * self.lead.length as usize
        }
    }
}
