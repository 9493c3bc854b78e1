//! The line that shows a packet or a plain TLP.
ghost use Rattle.std.specs.Prelude.{◌≡◌, ◌++◌, ◌∷◌, [], List, IfOk, OnOk, codes, string_bytes};
ghost use Rattle.std.specs.Fmt.{decimal};
ghost use Rattle.tlp_layout.specs.Reading.{read_of};
ghost use Rattle.ide_prefix.specs.Cut.{packet_of_view};
ghost use Rattle.ide_prefix.specs.Packet.{HasTlp};
ghost use Rattle.ide_prefix.specs.Faults.{packet_place};
ghost use Rattle.ide_prefix.specs.FaultWords.{packet_word as packet_word_of};
ghost use Rattle.ide_types.specs.Names.{Text, joined_words, fault_word};
ghost use Rattle.file_runs.specs.Showing.{carried_header, carried_word, carried_words, head_words, packet_words};
ghost use Rattle.file_runs.specs.Showing.{plain_words, prefix_words, line_shown};

use crate::names::{carried_name, kind_name};
use ide_prefix::{Cut, PacketFault, PacketView, Prefix, cut, packet_word, tlp_word};
use ide_types::{Bytes, OutOfMemory};
use std::alloc::{AllocError, Global};
use tlp_layout::{HeadView, TlpFault, read};

fn plain_fault_text(alloc: Global, number: u64, fault: TlpFault) -> Result<String, AllocError>
    ensures { IfOk result (λ s. string_bytes s ≡ decimal number ++ joined_words (plain_words (Err fault))) }
{
    let place = fault.place();
    let fault = tlp_word(fault);
    format!(in alloc; "{number} plain {fault} {place}\n")
}

fn plain_head_text(alloc: Global, number: u64, head: &HeadView) -> Result<String, AllocError>
    ensures { IfOk result (λ s. string_bytes s ≡ decimal number ++ joined_words (codes "plain" ∷ head_words head.now)) }
{
    let kind = kind_name(head.kind());
    let size = head.size();
    let payload = head.payload_size();
    format!(in alloc; "{number} plain {kind} head {size} body {payload}\n")
}

fn plain_text(alloc: Global, number: u64, bytes: &[u8]) -> Result<String, AllocError>
    ensures { IfOk result (λ s. string_bytes s ≡ decimal number ++ joined_words (plain_words (read_of bytes.now))) }
{
    match read(bytes) {
        Ok(tlp) => plain_head_text(alloc, number, &tlp.head()),
        Err(fault) => plain_fault_text(alloc, number, fault),
    }
}

fn packet_fault_text(alloc: Global, number: u64, fault: PacketFault) -> Result<String, AllocError>
    ensures { IfOk result (λ s. string_bytes s ≡ decimal number ++ joined_words (codes "ide"
        ∷ fault_word (packet_word_of fault) ∷ decimal (packet_place fault) ∷ [])) }
{
    let place = fault.place();
    let fault = packet_word(fault);
    format!(in alloc; "{number} ide {fault} {place}\n")
}

// The kind of the TLP that a packet carries, or the word for a sync packet.
fn carried_kind(packet: &PacketView<'_>) -> &'static str
    requires { HasTlp (packet_of_view packet.now) packet.now.tlp }
    ensures { result.now ≡ carried_word (carried_header (packet_of_view packet.now)) }
{
    carried_name(&packet.tlp)
}

fn push_prefix(text: &mut String, prefix: &Prefix) -> Result<(), AllocError>
    ensures { OnOk result ((after : List Text) → string_bytes text.new ++ joined_words after ≡ string_bytes text.old
        ++ joined_words (prefix_words prefix.now after)) }
{
    let Prefix {
        m,
        k,
        t,
        sub,
        stream,
        posted,
    } = *prefix;
    let m = u8::from(m);
    let k = u8::from(k);
    let t = u8::from(t);
    write!(text, " m{m} k{k} t{t} {sub} {stream} p{posted}")
}

fn push_carried(text: &mut String, packet: &PacketView<'_>) -> Result<(), AllocError>
    requires { HasTlp (packet_of_view packet.now) packet.now.tlp }
    ensures { OnOk result (string_bytes text.new ≡ string_bytes text.old
        ++ joined_words (carried_words (packet_of_view packet.now))) }
{
    let kind = carried_kind(packet);
    let head = packet.head.len();
    let body = packet.body.len();
    write!(text, " {kind} head {head} body {body}\n")
}

fn packet_text(alloc: Global, number: u64, packet: &PacketView<'_>) -> Result<String, AllocError>
    requires { HasTlp (packet_of_view packet.now) packet.now.tlp }
    ensures { IfOk result (λ s. string_bytes s ≡ decimal number
        ++ joined_words (packet_words (packet_of_view packet.now))) }
{
    let mut text = format!(in alloc; "{number} ide")?;
    push_prefix(&mut text, &packet.prefix)?;
    push_carried(&mut text, packet)?;
    Ok(text)
}

fn text_of(alloc: Global, number: u64, bytes: &[u8]) -> Result<String, AllocError>
    ensures { IfOk result (λ s. string_bytes s ≡ line_shown number bytes.now) }
{
    if bytes.is_empty() {
        return plain_text(alloc, number, bytes);
    }
    match cut(bytes) {
        Ok(Cut::Plain) => plain_text(alloc, number, bytes),
        Ok(Cut::Ide(packet)) => packet_text(alloc, number, &packet),
        Err(fault) => packet_fault_text(alloc, number, fault),
    }
}

/// The line that shows a packet, or a plain TLP if byte 0 is not 92h, after its number, with its line feed (this
/// profile).
pub fn show(alloc: Global, number: u64, bytes: &[u8]) -> Result<Bytes, OutOfMemory>
    ensures { IfOk result (λ text. text ≡ line_shown number bytes.now) }
{
    let text = text_of(alloc, number, bytes)?;
    Ok(Bytes::new(text.into_bytes()))
}
