//! The completion that answers a read.

ghost use Rattle.std.specs.Prelude.{◌≡◌, ◌+◌, ◌≤◌, ◌<◌, ◌++◌, ℕ, Some, Ok, true, IfSome, All, length};
ghost use Rattle.std.specs.Prelude.{slice_index, vec_len, vec_capacity, if◌then◌else◌};
ghost use Rattle.tlp_layout.specs.Reading.{read_of};
ghost use Rattle.trusted_memory.specs.Spans.{span_byte_count, is_enabled};
ghost use Rattle.trusted_memory.specs.Requests.{FitsRead};
ghost use Rattle.trusted_memory.specs.Completions.{enabled_places, first_and_last, first_or, byte_count, lower_address};
ghost use Rattle.trusted_memory.specs.Completions.{read_bytes, completion_head, completion, completion_bytes};

use crate::{MemReadView, ShownMemory, Span};
use tlp_layout::{CompletionFields, CompletionStatus, Fields, HeadView, Lead, write_head};

/// The most bytes of a completion with data: a header of 3 double words, and 1,024 double words (PCI Express Base 6.0
/// section 2.2.9).
pub const COMPLETION_BYTES: usize = 4_108;

// The most bytes of its data.
const DATA_BYTES: usize = 4_096;

// ---- the enabled bytes

// The first of the places, or else this one.
fn first_or(ends: Option<(usize, usize)>, place: usize) -> usize
    ensures { result ≡ first_or ends place }
{
    match ends {
        Some((first, _)) => first,
        None => place,
    }
}

// The first and the last of the enabled places, with the place `i`, by those of the places before it.
fn ends_with(span: Span, ends: Option<(usize, usize)>, i: usize) -> Option<(usize, usize)>
    ensures { result ≡ (if is_enabled span i then Some (first_or ends i, i) else ends) }
{
    if span.is_enabled(i) {
        Some((first_or(ends, i), i))
    } else {
        ends
    }
}

// Whether all byte enables are set, and there is a byte.
fn enables_all(span: Span) -> bool
    ensures { result ≡ true → (1 ≤ span.length) × ((i : ℕ) → is_enabled span i ≡ true) }
{
    if span.length == 0 {
        false
    } else if span.first_be != 15 {
        false
    } else {
        span.last_be == 15
    }
}

// The places of the first enabled byte and of the last.
fn enabled_ends(span: Span) -> Option<(usize, usize)>
    ensures ends { result ≡ first_and_last (enabled_places span) }
    ensures within { IfSome result (λ ends. (ends.0 ≤ ends.1) × (ends.1 < span_byte_count span)) }
{
    if enables_all(span) {
        return Some((0, span.bytes() - 1));
    }
    let mut ends = None;
    for i in 0..span.bytes() {
        ends = ends_with(span, ends, i);
    }
    ends
}

fn byte_count(span: Span, ends: Option<(usize, usize)>) -> u16
    requires ends { ends ≡ first_and_last (enabled_places span) }
    requires within { IfSome ends (λ ends. (ends.0 ≤ ends.1) × (ends.1 < span_byte_count span)) }
    ensures { result ≡ byte_count span }
{
    match ends {
        Some((first, last)) => ((last - first + 1) % 4_096) as u16,
        None => 1,
    }
}

fn lower_address(span: Span, ends: Option<(usize, usize)>) -> u8
    requires { ends ≡ first_and_last (enabled_places span) }
    ensures { result ≡ lower_address span }
{
    let skipped = first_or(ends, 0);
    ((span.address % 128 + (skipped % 128) as u64) % 128) as u8
}

// ---- the header

fn completion_head(completer: u16, read: &MemReadView) -> HeadView
    ensures { result ≡ completion_head completer read.now }
{
    let ends = enabled_ends(read.span);
    HeadView {
        lead: Lead {
            wide: false,
            tc: read.tc,
            attr: read.attr,
            at: 0,
            length: read.span.length % 1_024,
        },
        has_payload: true,
        fields: Fields::Completion(CompletionFields {
            completer,
            status: CompletionStatus::Successful,
            bcm: false,
            count: byte_count(read.span, ends),
            requester: read.requester,
            tag: read.tag,
            lower: lower_address(read.span, ends),
        }),
    }
}

// ---- the data

// Appends the bytes, for which there is room.
fn append(out: &mut Vec<u8>, bytes: &[u8])
    requires { vec_len out.old + length bytes.now ≤ vec_capacity out.old }
    ensures items { out.new.items ≡ out.old.items ++ bytes.now }
    ensures capacity { vec_capacity out.old ≤ vec_capacity out.new }
    // They are bytes.
    ensures bytes { All (λ b. b < 256) bytes.now }
{
    let _ = out.extend_from_slice(bytes);
}

// What is shown of byte `i` where this one stands.
fn shown(span: Span, i: usize, byte: u8) -> u8
    ensures { result ≡ (if is_enabled span i then byte else 0) }
{
    if span.is_enabled(i) { byte } else { 0 }
}

// Makes the bytes that are not enabled 0.
fn clear_others(span: Span, bytes: &mut [u8])
    ensures { (k : ℕ) → k < length bytes.old → slice_index bytes.new k
        ≡ (if is_enabled span k then slice_index bytes.old k else 0) }
{
    for (i, byte) in bytes.iter_mut().enumerate() {
        *byte = shown(span, i, *byte);
    }
}

fn read_into<M: ShownMemory>(memory: &M, span: Span, bytes: &mut [u8])
    requires long { length bytes.old ≡ span_byte_count span }
    requires shown { M.shows memory.now span.address (span_byte_count span) ≡ true }
    ensures { bytes.new ≡ read_bytes (M.byte memory.now) span }
{
    memory.show(span.address, bytes);
    clear_others(span, bytes);
}

fn append_data<M: ShownMemory>(memory: &M, span: Span, out: &mut Vec<u8>)
    requires short { span_byte_count span ≤ 4096 }
    requires shown { M.shows memory.now span.address (span_byte_count span) ≡ true }
    requires room { vec_len out.old + 4096 ≤ vec_capacity out.old }
    ensures items { out.new.items ≡ out.old.items ++ read_bytes (M.byte memory.now) span }
    ensures capacity { vec_capacity out.old ≤ vec_capacity out.new }
    ensures bytes { All (λ b. b < 256) (read_bytes (M.byte memory.now) span) }
{
    let mut page = [0u8; DATA_BYTES];
    let bytes = &mut page[..span.bytes()];
    read_into(memory, span, bytes);
    append(out, bytes);
}

/// Appends the completion that answers a read of this memory as it stands, with as many bytes of data as the read
/// names, and gives its header (PCI Express Base 6.0 section 2.2.9). Its completer ID is `completer`, and a byte that
/// the read does not enable is 0 (this profile). That there is room for 4,108 bytes, that the memory shows the bytes and
/// that the read's fields are in range are the caller's conditions. It takes no memory.
pub fn complete<M: ShownMemory>(
    memory: &M,
    completer: u16,
    read: &MemReadView,
    out: &mut Vec<u8>,
) -> HeadView
    requires shown { M.shows memory.now read.now.span.address (span_byte_count read.now.span) ≡ true }
    requires fits { FitsRead read.now }
    requires room { vec_len out.old + COMPLETION_BYTES ≤ vec_capacity out.old }
    ensures bytes { out.new.items ≡ out.old.items ++ completion_bytes completer (M.byte memory.now) read.now }
    // That is, of memory with these bytes.
    ensures alike { (byte : ℕ → ℕ) → ((a : ℕ) → M.byte memory.now a ≡ byte a)
        → out.new.items ≡ out.old.items ++ completion_bytes completer byte read.now }
    ensures capacity { vec_capacity out.old ≤ vec_capacity out.new }
    ensures head { result ≡ completion_head completer read.now }
    // So it is read again.
    ensures reads { read_of (completion_bytes completer (M.byte memory.now) read.now)
        ≡ Ok (completion completer (M.byte memory.now) read.now) }
{
    let head = completion_head(completer, read);
    write_head(&head, out);
    append_data(memory, read.span, out);
    head
}
