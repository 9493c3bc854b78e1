//! Reading TLPs.

ghost use Rattle.std.specs.Prelude.{◌≡◌, ◌<◌, ◌≤◌, ◌+◌, Some, IfOk, IfErr, MatchResult, length, slice_index};
ghost use Rattle.std.specs.Prelude.{if◌then◌else◌};
ghost use Rattle.tlp_layout.specs.Head.{SpellsHead};
ghost use Rattle.tlp_layout.specs.Tlp.{SpellsTlp, viewed_tlp, viewed_result};
ghost use Rattle.tlp_layout.specs.Causes.{layout_of_byte as layout_named, head_size as size_named};
ghost use Rattle.tlp_layout.specs.Faults.{IsFault, IsHeadFault};
ghost use Rattle.tlp_layout.specs.Reading.{read_of, read_head_of, head_of, lead_of, fields_of, address_read};
ghost use Rattle.tlp_layout.specs.Reading.{number_at as number_named, tag_at as tag_named};
ghost use Rattle.tlp_layout.specs.Inside.{Agrees, TlpGoesOff};
ghost use Rattle.tlp_layout.specs.declared.tlp.Tlp.{Tlp};
ghost use Rattle.tlp_layout.specs.declared.head.Fields.TheVariants.{Memory, Config, Message, Completion};
ghost use Rattle.tlp_layout.specs.declared.layout.Layout.TheVariants as layouts;

use crate::fault::TlpFault;
use crate::head::{
    CompletionFields, CompletionStatus, ConfigFields, Fields, HeadView, Lead, MemoryFields,
    MessageFields, Routing,
};
use crate::layout::{Layout, allows, cause, head_size, layout_of_byte};
use crate::tlp::TlpView;
use byteorder::{BigEndian, ByteOrder};

/// The layout and the length of the header that the bytes begin with.
fn head_at(bytes: &[u8]) -> Result<(Layout, usize), TlpFault>
    ensures layout { IfOk result (λ x. layout_named (slice_index bytes.now 0) ≡ Some x.0) }
    ensures size { IfOk result (λ x.
        (x.1 ≡ size_named (slice_index bytes.now 0)) × (x.1 ≤ length bytes.now)) }
    ensures agrees { IfOk result (λ x. Agrees x.0 bytes.now x.1) }
    ensures goes_off { IfErr result (TlpGoesOff bytes.now) }
{
    if bytes.is_empty() {
        return Err(TlpFault::Short(0));
    }
    let first = bytes[0];
    let Some(layout) = layout_of_byte(first) else {
        return Err(TlpFault::Kind(0));
    };
    let size = head_size(first);
    for place in 1..size {
        if place >= bytes.len() {
            return Err(TlpFault::Short(place));
        }
        let byte = bytes[place];
        if !allows(layout, size, place, byte) {
            return Err(cause(place, byte));
        }
    }
    Ok((layout, size))
}

/// The number of two bytes.
fn number_at(bytes: &[u8], place: usize) -> u16
    requires { place + 1 < length bytes.now }
    ensures { result ≡ number_named bytes.now place }
{
    BigEndian::read_u16(&bytes[place..])
}

/// T9 and T8 of byte 1 above the byte at the place.
fn tag_at(bytes: &[u8], place: usize) -> u16
    requires second { 1 < length bytes.now }
    requires within { place < length bytes.now }
    ensures { result ≡ tag_named bytes.now place }
{
    512 * u16::from(bytes[1] >> 7) + 256 * u16::from((bytes[1] >> 3) & 1) + u16::from(bytes[place])
}

fn address_at(wide: bool, bytes: &[u8]) -> u64
    requires { (if wide then 16 else 12) ≤ length bytes.now }
    ensures { result ≡ address_read wide bytes.now }
{
    if wide {
        BigEndian::read_u64(&bytes[8..])
    } else {
        u64::from(BigEndian::read_u32(&bytes[8..]))
    }
}

fn lead_at(bytes: &[u8]) -> Lead
    requires { 12 ≤ length bytes.now }
    ensures { result ≡ lead_of bytes.now }
{
    Lead {
        wide: (bytes[0] >> 5) & 1 == 1,
        tc: (bytes[1] >> 4) & 7,
        attr: (((bytes[1] >> 2) & 1) << 2) | ((bytes[2] >> 4) & 3),
        at: (bytes[2] >> 2) & 3,
        length: (u16::from(bytes[2] & 3) << 8) | u16::from(bytes[3]),
    }
}

fn memory_at(bytes: &[u8]) -> MemoryFields
    requires { size_named (slice_index bytes.now 0) ≤ length bytes.now }
    ensures { Memory result ≡ fields_of layouts.Memory bytes.now }
{
    MemoryFields {
        requester: number_at(bytes, 4),
        tag: tag_at(bytes, 6),
        last_be: bytes[7] >> 4,
        first_be: bytes[7] & 0x0f,
        address: address_at((bytes[0] >> 5) & 1 == 1, bytes),
    }
}

fn config_at(bytes: &[u8]) -> ConfigFields
    requires { 12 ≤ length bytes.now }
    ensures { Config result ≡ fields_of layouts.Config bytes.now }
{
    ConfigFields {
        one: bytes[0] & 0x1f == 0x05,
        requester: number_at(bytes, 4),
        tag: tag_at(bytes, 6),
        last_be: bytes[7] >> 4,
        first_be: bytes[7] & 0x0f,
        destination: number_at(bytes, 8),
        register: (u16::from(bytes[10]) << 6) | u16::from(bytes[11] >> 2),
    }
}

fn message_at(bytes: &[u8]) -> MessageFields
    requires { 16 ≤ length bytes.now }
    ensures { Message result ≡ fields_of layouts.Message bytes.now }
{
    MessageFields {
        routing: Routing::of(bytes[0]),
        requester: number_at(bytes, 4),
        tag: tag_at(bytes, 6),
        code: bytes[7],
        destination: number_at(bytes, 8),
        kept: [
            bytes[10], bytes[11], bytes[12], bytes[13], bytes[14], bytes[15],
        ],
    }
}

fn completion_at(bytes: &[u8]) -> CompletionFields
    requires { 12 ≤ length bytes.now }
    ensures { Completion result ≡ fields_of layouts.Completion bytes.now }
{
    CompletionFields {
        completer: number_at(bytes, 4),
        status: CompletionStatus::of(bytes[6] >> 5),
        bcm: (bytes[6] >> 4) & 1 == 1,
        count: (u16::from(bytes[6] & 0x0f) << 8) | u16::from(bytes[7]),
        requester: number_at(bytes, 8),
        tag: tag_at(bytes, 10),
        lower: bytes[11],
    }
}

fn fields_at(layout: Layout, bytes: &[u8]) -> Fields
    requires size { size_named (slice_index bytes.now 0) ≤ length bytes.now }
    requires layout { layout_named (slice_index bytes.now 0) ≡ Some layout }
    ensures { result ≡ fields_of layout bytes.now }
{
    match layout {
        Layout::Memory => Fields::Memory(memory_at(bytes)),
        Layout::Config => Fields::Config(config_at(bytes)),
        Layout::Message => Fields::Message(message_at(bytes)),
        Layout::Completion => Fields::Completion(completion_at(bytes)),
    }
}

fn head_view(layout: Layout, bytes: &[u8]) -> HeadView
    requires size { size_named (slice_index bytes.now 0) ≤ length bytes.now }
    requires layout { layout_named (slice_index bytes.now 0) ≡ Some layout }
    ensures { result ≡ head_of layout bytes.now }
{
    HeadView {
        lead: lead_at(bytes),
        has_payload: (bytes[0] >> 6) & 1 == 1,
        fields: fields_at(layout, bytes),
    }
}

fn whole(bytes: &[u8]) -> Result<TlpView<'_>, TlpFault>
    ensures ok { IfOk result (λ v. SpellsTlp (viewed_tlp v) bytes.now) }
    ensures err { IfErr result (IsFault bytes.now) }
{
    let (layout, size) = head_at(bytes)?;
    let head = head_view(layout, bytes);
    let wanted = head.payload_size();
    let payload = &bytes[size..];
    if payload.len() < wanted {
        return Err(TlpFault::Short(bytes.len()));
    }
    if payload.len() > wanted {
        return Err(TlpFault::Trailing(size + wanted));
    }
    Ok(TlpView { head, payload })
}

/// The TLP that the bytes spell, all of the bytes; else their first fault
/// (PCI Express Base 6.0 section 2.2).
pub fn read(bytes: &[u8]) -> Result<TlpView<'_>, TlpFault>
    // What is read is spelled so.
    ensures ok { IfOk result (λ v. SpellsTlp (viewed_tlp v) bytes.now) }
    // What is spelled so is read.
    ensures only { (t : Tlp) → SpellsTlp t bytes.now → MatchResult result (λ v. viewed_tlp v ≡ t) (λ _. ⊥) }
    // Bytes that are no TLP are refused at their first fault.
    ensures err { IfErr result (IsFault bytes.now) }
    // It is this function of the bytes.
    ensures reading { viewed_result result ≡ read_of bytes.now }
{
    whole(bytes)
}

fn whole_head(bytes: &[u8]) -> Result<HeadView, TlpFault>
    ensures ok { IfOk result (λ h. SpellsHead h bytes.now) }
    ensures err { IfErr result (IsHeadFault bytes.now) }
{
    let (layout, size) = head_at(bytes)?;
    if bytes.len() > size {
        return Err(TlpFault::Trailing(size));
    }
    Ok(head_view(layout, bytes))
}

/// The header that the bytes spell, all of the bytes, 12 or 16; else their first fault
/// (PCI Express Base 6.0 section 2.2).
pub fn read_head(bytes: &[u8]) -> Result<HeadView, TlpFault>
    // What is read is spelled so.
    ensures ok { IfOk result (λ h. SpellsHead h bytes.now) }
    // What is spelled so is read.
    ensures only { (h : HeadView) → SpellsHead h bytes.now → result ≡ Ok h }
    // Bytes that are no header are refused at their first fault.
    ensures err { IfErr result (IsHeadFault bytes.now) }
    // It is this function of the bytes.
    ensures reading { result ≡ read_head_of bytes.now }
{
    whole_head(bytes)
}
