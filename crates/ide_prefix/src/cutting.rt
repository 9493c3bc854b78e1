//! Cutting a packet into its parts.

ghost use Rattle.std.specs.Prelude.{◌≡◌, ℕ, ◌+◌, ◌<◌, ◌≤◌, ◌%◌, ◌^◌, IfOk, IfErr, OnOk, MatchResult, if◌then◌else◌};
ghost use Rattle.std.specs.Prelude.{length, slice_index, true, Some};
ghost use Rattle.tlp_layout.specs.Faults.{place_in};
ghost use Rattle.tlp_layout.specs.Head.{SpellsHead};
ghost use Rattle.ide_prefix.specs.Packet.{Packet, SpellsPacket, begins_sync as begins_sync_of};
ghost use Rattle.ide_prefix.specs.Causes.{is_plain as is_plain_of, prefix_read, sub_from, belongs as belongs_to};
ghost use Rattle.ide_prefix.specs.Causes.{fits_first, fits_early, early_cause};
ghost use Rattle.ide_prefix.specs.Faults.{GoesOff, IsPacketFault};
ghost use Rattle.ide_prefix.specs.Reading.{cut_of, IdePacket};
ghost use Rattle.ide_prefix.specs.Cut.{IsCut, cut_value, cut_values};
ghost use Rattle.ide_prefix.specs.declared.packet.Cut.TheVariants.{Ide};
ghost use Rattle.ide_prefix.specs.Inside.{GoesOffEarly, GoesOffInSync, GoesOffInHead, SizesAre, head_slice};
ghost use Rattle.ide_prefix.specs.Inside.{packet_fault_of_tlp};

use crate::fault::PacketFault;
use crate::packet::{Cut, PACKET_FIRST, PacketView, Prefix, SYNC_FIRST};
use ide_types::SubKind;
use tlp_layout::{HeadView, TlpFault, TlpKind, head_size, kind_at, read_head};

fn sub_of(flags: u8) -> SubKind
    ensures { result ≡ sub_from (flags % 8) }
{
    match flags & 7 {
        0 => SubKind::Pr,
        1 => SubKind::Npr,
        _ => SubKind::Cpl,
    }
}

fn prefix_at(bytes: &[u8]) -> Prefix
    requires { 4 ≤ length bytes.now }
    ensures { result ≡ prefix_read bytes.now }
{
    let flags = bytes[1];
    Prefix {
        m: flags >> 7 == 1,
        k: (flags >> 6) & 1 == 1,
        t: (flags >> 5) & 1 == 1,
        sub: sub_of(flags),
        stream: bytes[2],
        posted: bytes[3],
    }
}

fn begins_sync(sub: SubKind, first: u8) -> bool
    ensures { result ≡ begins_sync_of sub first }
{
    match sub {
        SubKind::Pr => false,
        SubKind::Npr => first == SYNC_FIRST,
        SubKind::Cpl => first == SYNC_FIRST,
    }
}

fn belongs(sub: SubKind, kind: TlpKind) -> bool
    ensures { result ≡ belongs_to sub (Some kind) }
{
    kind.class().number() == sub.number()
}

fn allows_first(prefix: &Prefix, first: u8) -> bool
    ensures { result ≡ fits_first prefix.now first }
{
    if begins_sync(prefix.sub, first) {
        prefix.m && !prefix.t
    } else {
        match kind_at(first) {
            None => false,
            Some(kind) => belongs(prefix.sub, kind),
        }
    }
}

/// Whether the byte at this place, one of the first five, is that of a packet.
fn allows_early(place: usize, bytes: &[u8]) -> bool
    requires { place < length bytes.now }
    ensures { result ≡ fits_early place bytes.now (slice_index bytes.now place) }
{
    let byte = bytes[place];
    match place {
        0 => byte == PACKET_FIRST,
        1 => (byte >> 3) & 3 == 0 && byte & 7 < 3,
        3 => bytes[1] & 7 != 0 || byte == 0,
        4 => allows_first(&prefix_at(bytes), byte),
        _ => true,
    }
}

/// Why the byte may not stand there.
fn cause_early(place: usize, bytes: &[u8]) -> PacketFault
    requires { place < length bytes.now }
    ensures { result ≡ early_cause place bytes.now (slice_index bytes.now place) }
{
    let byte = bytes[place];
    match place {
        1 => {
            if (byte >> 3) & 3 == 0 {
                PacketFault::SubStream(1)
            } else {
                PacketFault::Reserved(1)
            }
        }
        4 => {
            if begins_sync(sub_of(bytes[1]), byte) {
                PacketFault::Sync(4)
            } else {
                match kind_at(byte) {
                    None => PacketFault::Tlp(TlpFault::Kind(4)),
                    Some(_) => PacketFault::Class(4),
                }
            }
        }
        _ => PacketFault::Reserved(place),
    }
}

/// The first five bytes are those of a packet.
fn early(bytes: &[u8]) -> Result<(), PacketFault>
    ensures long { OnOk result (5 ≤ length bytes.now) }
    ensures fits { OnOk result ((i : ℕ) → i < 5 → fits_early i bytes.now (slice_index bytes.now i) ≡ true) }
    ensures goes_off { IfErr result (λ f. (place : ℕ) × GoesOffEarly bytes.now f place) }
{
    for place in 0..5 {
        if place >= bytes.len() {
            return Err(PacketFault::Short(place));
        }
        if !allows_early(place, bytes) {
            return Err(cause_early(place, bytes));
        }
    }
    Ok(())
}

/// The bytes after byte 4 of a sync packet are 0.
fn sync_zeros(bytes: &[u8]) -> Result<(), PacketFault>
    requires long { 5 ≤ length bytes.now }
    requires sync { begins_sync_of (prefix_read bytes.now).sub (slice_index bytes.now 4) ≡ true }
    ensures long { OnOk result (16 ≤ length bytes.now) }
    ensures zeros { OnOk result ((i : ℕ) → 5 ≤ i → i < 16 → slice_index bytes.now i ≡ 0) }
    ensures goes_off { IfErr result (λ f. (place : ℕ) × GoesOffInSync bytes.now f place) }
{
    for place in 5..16 {
        if place >= bytes.len() {
            return Err(PacketFault::Short(place));
        }
        if bytes[place] != 0 {
            return Err(PacketFault::Sync(place));
        }
    }
    Ok(())
}

/// The same fault, four bytes on.
fn behind_prefix(fault: TlpFault) -> PacketFault
    requires { place_in fault < 2 ^ 32 }
    ensures { result ≡ packet_fault_of_tlp fault }
{
    match fault {
        TlpFault::Short(place) => PacketFault::Short(place + 4),
        TlpFault::Kind(place) => PacketFault::Tlp(TlpFault::Kind(place + 4)),
        TlpFault::Bit(place) => PacketFault::Tlp(TlpFault::Bit(place + 4)),
        TlpFault::Length(place) => PacketFault::Tlp(TlpFault::Length(place + 4)),
        TlpFault::Trailing(place) => PacketFault::Tlp(TlpFault::Trailing(place + 4)),
    }
}

/// What stands in a header's place.
fn head_front(bytes: &[u8]) -> &[u8]
    requires { 5 ≤ length bytes.now }
    ensures { result.now ≡ head_slice bytes.now }
{
    let size = head_size(bytes[4]);
    let rest = &bytes[4..];
    if rest.len() < size {
        return rest;
    }
    &rest[..size]
}

/// The header after the prefix.
fn header(bytes: &[u8]) -> Result<HeadView, PacketFault>
    requires { 5 ≤ length bytes.now }
    ensures ok { IfOk result (λ head. SpellsHead head (head_slice bytes.now)) }
    ensures goes_off { IfErr result (GoesOffInHead bytes.now) }
{
    match read_head(head_front(bytes)) {
        Ok(head) => Ok(head),
        Err(fault) => Err(behind_prefix(fault)),
    }
}

fn tag_size(m: bool) -> usize
    ensures { result ≡ (if m then 12 else 0) }
{
    if m { 12 } else { 0 }
}

/// The header after the prefix, none in a sync packet, and the lengths in bytes of what stands there in clear and of
/// the payload.
fn sizes(sync: bool, bytes: &[u8]) -> Result<(Option<HeadView>, usize, usize), PacketFault>
    requires long { 5 ≤ length bytes.now }
    requires fits { (i : ℕ) → i < 5 → fits_early i bytes.now (slice_index bytes.now i) ≡ true }
    requires sync { sync ≡ begins_sync_of (prefix_read bytes.now).sub (slice_index bytes.now 4) }
    ensures ok { IfOk result (λ x. SizesAre bytes.now x.0 x.1 x.2) }
    ensures err { IfErr result (GoesOff bytes.now) }
{
    if sync {
        match sync_zeros(bytes) {
            Ok(()) => Ok((None, 12, 0)),
            Err(fault) => Err(fault),
        }
    } else {
        match header(bytes) {
            Ok(head) => Ok((Some(head), head_size(bytes[4]), head.payload_size())),
            Err(fault) => Err(fault),
        }
    }
}

/// The parts of the packet.
fn parts(bytes: &[u8]) -> Result<PacketView<'_>, PacketFault>
    ensures ok { IfOk result (λ v. IsCut bytes.now (Ide v)) }
    ensures err { IfErr result (GoesOff bytes.now) }
{
    early(bytes)?;
    let prefix = prefix_at(bytes);
    let sync = begins_sync(prefix.sub, bytes[4]);
    let (tlp, size, wanted) = sizes(sync, bytes)?;
    let tag_size = tag_size(prefix.m);
    let total = 4 + size + wanted + tag_size;
    if bytes.len() < total {
        return Err(PacketFault::Short(bytes.len()));
    }
    if bytes.len() > total {
        return Err(PacketFault::Trailing(total));
    }
    let (_, rest) = bytes.split_at(4);
    let (head, rest) = rest.split_at(size);
    let (body, tag) = rest.split_at(wanted);
    Ok(PacketView {
        prefix,
        head,
        body,
        tag: tag.as_array::<12>(),
        tlp,
    })
}

/// Byte 0 is there, and begins no packet.
fn is_plain(bytes: &[u8]) -> bool
    ensures { result ≡ is_plain_of bytes.now }
{
    match bytes {
        [] => false,
        [first, ..] => *first != PACKET_FIRST,
    }
}

fn whole(bytes: &[u8]) -> Result<Cut<'_>, PacketFault>
    ensures ok { IfOk result (IsCut bytes.now) }
    ensures err { IfErr result (IsPacketFault bytes.now) }
{
    if is_plain(bytes) {
        return Ok(Cut::Plain);
    }
    match parts(bytes) {
        Ok(view) => Ok(Cut::Ide(view)),
        Err(fault) => Err(fault),
    }
}

/// The parts of the packet that the bytes spell, all of the bytes; `Plain` exactly if byte 0 is there and is not 0x92;
/// else the first fault (this profile).
pub fn cut(bytes: &[u8]) -> Result<Cut<'_>, PacketFault>
    // What is cut is plain or spelled so.
    ensures ok { IfOk result (IsCut bytes.now) }
    // What is spelled so is cut.
    ensures only { (p : Packet) → SpellsPacket p bytes.now
        → MatchResult result (λ c. cut_value c ≡ IdePacket p) (λ _. ⊥) }
    // Bytes that are neither plain nor a packet are refused at their first fault.
    ensures err { IfErr result (IsPacketFault bytes.now) }
    // It is this function of the bytes.
    ensures reading { cut_values result ≡ cut_of bytes.now }
{
    whole(bytes)
}
