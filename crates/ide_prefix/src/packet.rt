//! Packets and their prefix (this profile).

ghost use Rattle.std.specs.Prelude.{◌≡◌};
ghost use Rattle.ide_prefix.specs.Packet.{prefix_bytes};

use ide_types::SubKind;
use tlp_layout::HeadView;

/// The first byte of a packet.
pub const PACKET_FIRST: u8 = 0x92;

/// The first header byte of a sync packet.
pub const SYNC_FIRST: u8 = 0x34;

/// What stands before a TLP's header: four bytes.
#[derive(Clone, Copy, PartialEq, Eq)]
pub struct Prefix {
    /// Whether a tag ends the packet, which is the last of its unit.
    pub m: bool,
    /// The key set, 0 or 1, under which the unit is sealed.
    pub k: bool,
    /// Whether the TLP comes from a trusted requester.
    pub t: bool,
    /// The sub-stream.
    pub sub: SubKind,
    /// The stream's ID.
    pub stream: u8,
    /// How many posted packets were sealed since the last packet of this sub-stream; 0 in a posted packet.
    pub posted: u8,
}

/// The four bytes of the prefix.
pub fn write_prefix(prefix: &Prefix) -> [u8; 4]
    ensures { result ≡ prefix_bytes prefix.now }
{
    let flags = 0x80 * u8::from(prefix.m) + 0x40 * u8::from(prefix.k) + 0x20 * u8::from(prefix.t);
    [
        PACKET_FIRST,
        flags + prefix.sub.number(),
        prefix.stream,
        prefix.posted,
    ]
}

/// A packet's parts, lent (PCI Express Base 6.0 section 6.33).
#[derive(Clone, Copy)]
pub struct PacketView<'a> {
    /// The prefix, bytes 0 to 3.
    pub prefix: Prefix,
    /// The TLP's header, 12 or 16 bytes, or the 12 bytes of a sync packet.
    pub head: &'a [u8],
    /// The payload, up to 4,096 bytes: encrypted as it came, or decrypted.
    pub body: &'a [u8],
    /// The tag, if M is set.
    pub tag: Option<&'a [u8; 12]>,
    /// What the header reads as; `None` of a sync packet, which carries no TLP.
    pub tlp: Option<HeadView>,
}

/// What bytes are: a plain TLP's, or a packet.
#[derive(Clone, Copy)]
pub enum Cut<'a> {
    /// Byte 0 is not 0x92.
    Plain,
    /// A packet of an IDE stream.
    Ide(PacketView<'a>),
}
