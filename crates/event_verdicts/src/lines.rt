//! The line of each verdict (this profile).

ghost use Rattle.std.specs.Prelude.{◌≡◌, ◌++◌, ◌∷◌, ◌⊎◌, List, IfOk, OnOk, codes, string_bytes};
ghost use Rattle.std.specs.Fmt.{decimal};
ghost use Rattle.ide_types.specs.Names.{Text, joined_words, port_word};
ghost use Rattle.event_verdicts.specs.Lines.{unit_words, sealed_words, more_packets_words};
ghost use Rattle.event_verdicts.specs.Lines.{packets_words, effects_words};
ghost use Rattle.event_verdicts.specs.Lines.{sync_words, line_of, totals_line_of, IsSendRefusal, IsArrival};
ghost use Rattle.event_verdicts.specs.Lines.{IsOperationRefusal, IsOutcome};
ghost use Rattle.event_verdicts.specs.Apart.{LinesApart};

use crate::access_lines::access_text;
use crate::interface_lines::{bytes_text, interface_text};
use crate::{Effect, OutOfMemory, SealedPacket, Totals, UnitName, Verdict};
use ide_types::PortName;
use std::alloc::{AllocError, Global};

fn sync_text(sync: bool) -> &'static str
    ensures { (after : List Text) → result.now ++ joined_words after ≡ joined_words (sync_words sync after) }
{
    if sync { " sync" } else { "" }
}

// Room for most lines.
const LINE_ROOM: usize = 96;

fn push_packet(text: &mut String, packet: &SealedPacket) -> Result<(), AllocError>
    ensures { OnOk result ((after : List Text) → string_bytes text.new ++ joined_words after ≡ string_bytes text.old
        ++ joined_words (sealed_words packet.now after)) }
{
    let SealedPacket {
        number,
        port,
        stream,
        sub,
        draw,
        unit,
        m,
        k,
        t,
        posted,
        sync,
    } = *packet;
    let m = u8::from(m);
    let k = u8::from(k);
    let t = u8::from(t);
    let sync = sync_text(sync);
    write!(
        text,
        " {number} {port} {stream} {sub} draw {draw} unit {unit} m{m} k{k} t{t} p{posted}{sync}"
    )
}

fn push_more_packets(text: &mut String, packets: &[SealedPacket]) -> Result<(), AllocError>
    ensures { OnOk result (string_bytes text.new ≡ string_bytes text.old
        ++ joined_words (more_packets_words packets.now)) }
{
    for packet in packets {
        text.push_str(" ;")?;
        push_packet(text, packet)?;
    }
    text.push_str("\n")
}

fn push_packets(text: &mut String, packets: &[SealedPacket]) -> Result<(), AllocError>
    ensures { OnOk result (string_bytes text.new ≡ string_bytes text.old ++ joined_words (packets_words packets.now)) }
{
    match packets {
        [] => text.push_str("\n"),
        [first, rest @ ..] => {
            push_packet(text, first)?;
            push_more_packets(text, rest)
        }
    }
}

fn push_effects(text: &mut String, effects: &[Effect]) -> Result<(), AllocError>
    ensures { OnOk result (string_bytes text.new ≡ string_bytes text.old ++ joined_words (effects_words effects.now)) }
{
    for effect in effects {
        write!(text, " {effect}")?;
    }
    text.push_str("\n")
}

fn sealed_text(alloc: Global, number: u64, packets: &[SealedPacket]) -> Result<String, AllocError>
    ensures { IfOk result (λ s. string_bytes s ≡ decimal number
        ++ joined_words (codes "sealed" ∷ packets_words packets.now)) }
{
    let mut text = String::with_capacity(alloc, LINE_ROOM)?;
    write!(text, "{number} sealed")?;
    push_packets(&mut text, packets)?;
    Ok(text)
}

fn held_text(
    alloc: Global,
    number: u64,
    port: PortName,
    unit: UnitName,
) -> Result<String, AllocError>
    ensures { IfOk result (λ s. string_bytes s ≡ line_of number (Verdict.Held port unit)) }
{
    let UnitName {
        stream,
        sub,
        draw,
        unit,
    } = unit;
    format!(in alloc; "{number} held {port} {stream} {sub} draw {draw} unit {unit}\n")
}

fn accepted_text(
    alloc: Global,
    number: u64,
    port: PortName,
    unit: UnitName,
    effects: &[Effect],
) -> Result<String, AllocError>
    ensures { IfOk result (λ s. string_bytes s ≡ decimal number
        ++ joined_words (codes "accepted" ∷ port_word port ∷ unit_words unit (effects_words effects.now))) }
{
    let UnitName {
        stream,
        sub,
        draw,
        unit,
    } = unit;
    let mut text = String::with_capacity(alloc, LINE_ROOM)?;
    write!(
        text,
        "{number} accepted {port} {stream} {sub} draw {draw} unit {unit}"
    )?;
    push_effects(&mut text, effects)?;
    Ok(text)
}

fn send_refused_text(alloc: Global, number: u64, verdict: &Verdict) -> Result<String, AllocError>
    requires { IsSendRefusal verdict.now }
    ensures { IfOk result (λ s. string_bytes s ≡ line_of number verdict.now) }
{
    match verdict {
        Verdict::RefusedInsecure => format!(in alloc; "{number} refused insecure\n"),
        Verdict::RefusedNoKey { sub } => format!(in alloc; "{number} refused nokey {sub}\n"),
        Verdict::RefusedUnfinished => format!(in alloc; "{number} refused unfinished\n"),
        Verdict::RefusedWorn { sub, units } => format!(in alloc;
            "{number} refused worn {sub} {units}\n"
        ),
        _ => unreachable!(),
    }
}

fn operation_refused_text(
    alloc: Global,
    number: u64,
    verdict: &Verdict,
) -> Result<String, AllocError>
    requires { IsOperationRefusal verdict.now }
    ensures { IfOk result (λ s. string_bytes s ≡ line_of number verdict.now) }
{
    match verdict {
        Verdict::RefusedNotIdle => format!(in alloc; "{number} refused notidle\n"),
        Verdict::RefusedNotSecure { status } => format!(in alloc;
            "{number} refused notsecure {status}\n"
        ),
        Verdict::RefusedPoolEmpty { draws } => format!(in alloc;
            "{number} refused poolempty {draws}\n"
        ),
        Verdict::RefusedDevice { exchange, code } => format!(in alloc;
            "{number} refused devicerefused {exchange} {code}\n"
        ),
        Verdict::RefusedBusy { kind, operation } => format!(in alloc;
            "{number} refused busy {kind}{operation}\n"
        ),
        Verdict::RefusedUnitOpen { sub } => format!(in alloc; "{number} refused unitopen {sub}\n"),
        _ => unreachable!(),
    }
}

// The end of an operation that gave the stream of a line its keys.
fn established_text(
    alloc: Global,
    number: u64,
    line: u8,
    stream: u8,
    draw: u32,
) -> Result<String, AllocError>
    ensures { IfOk result (λ s. string_bytes s ≡ line_of number (Verdict.Established line stream draw)) }
{
    match line {
        0..=7 => format!(in alloc; "{number} established {line} {stream} draw {draw}\n"),
        8..=15 => {
            let link = line - 8;
            format!(in alloc; "{number} hestablished {link} 0 draw {draw}\n")
        }
        16..=23 => {
            let link = line - 16;
            format!(in alloc; "{number} hestablished {link} 1 draw {draw}\n")
        }
        _ => {
            let peer = line - 24;
            format!(in alloc; "{number} pestablished {peer} draw {draw}\n")
        }
    }
}

// The end of an operation that took the keys of a line's stream away.
fn stopped_text(alloc: Global, number: u64, line: u8, stream: u8) -> Result<String, AllocError>
    ensures { IfOk result (λ s. string_bytes s ≡ line_of number (Verdict.Stopped line stream)) }
{
    match line {
        0..=7 => format!(in alloc; "{number} stopped {line} {stream}\n"),
        8..=15 => {
            let link = line - 8;
            format!(in alloc; "{number} hstopped {link} 0\n")
        }
        16..=23 => {
            let link = line - 16;
            format!(in alloc; "{number} hstopped {link} 1\n")
        }
        _ => {
            let peer = line - 24;
            format!(in alloc; "{number} pstopped {peer}\n")
        }
    }
}

fn outcome_text(alloc: Global, number: u64, verdict: &Verdict) -> Result<String, AllocError>
    requires { IsOutcome verdict.now }
    ensures { IfOk result (λ s. string_bytes s ≡ line_of number verdict.now) }
{
    match verdict {
        Verdict::Established { line, stream, draw } => {
            established_text(alloc, number, *line, *stream, *draw)
        }
        Verdict::Refreshed { line, stream, draw } => format!(in alloc;
            "{number} refreshed {line} {stream} draw {draw}\n"
        ),
        Verdict::Stopped { line, stream } => stopped_text(alloc, number, *line, *stream),
        Verdict::LostRequest { exchange } => format!(in alloc;
            "{number} lost request {exchange}\n"
        ),
        Verdict::LostReply { exchange } => format!(in alloc; "{number} lost reply {exchange}\n"),
        _ => unreachable!(),
    }
}

fn text_of(alloc: Global, number: u64, verdict: &Verdict) -> Result<String, AllocError>
    ensures { IfOk result (λ s. string_bytes s ≡ line_of number verdict.now) }
{
    match verdict {
        Verdict::Nothing => format!(in alloc; "{number} none\n"),
        Verdict::Malformed { port, fault, place } => format!(in alloc;
            "{number} malformed {port} {fault} {place}\n"
        ),
        Verdict::Plain { port } => format!(in alloc; "{number} plain {port}\n"),
        Verdict::Sealed { packets } => sealed_text(alloc, number, packets.as_slice()),
        Verdict::Packet { packet, bytes } => {
            let bytes = bytes_text(alloc, bytes)?;
            format!(in alloc; "{number} packet {packet} {bytes}\n")
        }
        Verdict::RefusedInsecure
        | Verdict::RefusedNoKey { .. }
        | Verdict::RefusedUnfinished
        | Verdict::RefusedWorn { .. } => send_refused_text(alloc, number, verdict),
        Verdict::Reset { link } => format!(in alloc; "{number} reset {link}\n"),
        Verdict::Status {
            line,
            stream,
            host,
            device,
        } => format!(in alloc; "{number} status {line} {stream} {host} {device}\n"),
        Verdict::Interface { verdict } => interface_text(alloc, number, verdict),
        Verdict::Access { verdict } => access_text(alloc, number, verdict),
        _ => answer_text(alloc, number, verdict),
    }
}

// Of an operation on a stream, or of an arrival.
fn answer_text(alloc: Global, number: u64, verdict: &Verdict) -> Result<String, AllocError>
    requires { IsOperationRefusal verdict.now ⊎ (IsOutcome verdict.now ⊎ IsArrival verdict.now) }
    ensures { IfOk result (λ s. string_bytes s ≡ line_of number verdict.now) }
{
    match verdict {
        Verdict::RefusedNotIdle
        | Verdict::RefusedNotSecure { .. }
        | Verdict::RefusedPoolEmpty { .. }
        | Verdict::RefusedDevice { .. }
        | Verdict::RefusedBusy { .. }
        | Verdict::RefusedUnitOpen { .. } => operation_refused_text(alloc, number, verdict),
        Verdict::Established { .. }
        | Verdict::Refreshed { .. }
        | Verdict::Stopped { .. }
        | Verdict::LostRequest { .. }
        | Verdict::LostReply { .. } => outcome_text(alloc, number, verdict),
        _ => arrival_text(alloc, number, verdict),
    }
}

fn arrival_text(alloc: Global, number: u64, verdict: &Verdict) -> Result<String, AllocError>
    requires { IsArrival verdict.now }
    ensures { IfOk result (λ s. string_bytes s ≡ line_of number verdict.now) }
{
    match verdict {
        Verdict::Unknown { port, stream } => format!(in alloc;
            "{number} unknown {port} {stream}\n"
        ),
        Verdict::Insecure { port, stream } => format!(in alloc;
            "{number} insecure {port} {stream}\n"
        ),
        Verdict::NotKeyed { port, stream, sub } => format!(in alloc;
            "{number} notkeyed {port} {stream} {sub}\n"
        ),
        Verdict::Fail {
            port,
            stream,
            sub,
            cause,
        } => format!(in alloc; "{number} fail {port} {stream} {sub} {cause}\n"),
        Verdict::Held { port, unit } => held_text(alloc, number, *port, *unit),
        Verdict::Accepted {
            port,
            unit,
            effects,
        } => accepted_text(alloc, number, *port, *unit, effects.as_slice()),
        Verdict::Through { port } => format!(in alloc; "{number} through {port}\n"),
        _ => unreachable!(),
    }
}

/// The line of a verdict, as it is shown, after its event's number, from 1, with its line feed.
pub fn line(alloc: Global, number: u64, verdict: &Verdict) -> Result<Vec<u8>, OutOfMemory>
    ensures { IfOk result (λ text. text.items ≡ line_of number verdict.now) }
{
    let text = text_of(alloc, number, verdict)?;
    Ok(text.into_bytes())
}

/// The last line of a run that was read to its end, with its line feed.
pub fn totals_line(alloc: Global, totals: &Totals) -> Result<Vec<u8>, OutOfMemory>
    ensures { IfOk result (λ text. text.items ≡ totals_line_of totals.now) }
{
    let Totals {
        sealed,
        accepted,
        failed,
        blocked,
    } = *totals;
    let text = format!(in alloc;
        "total sealed {sealed} accepted {accepted} failed {failed} blocked {blocked}\n"
    )?;
    Ok(text.into_bytes())
}

/// Two texts that are equal, and begin with the lines of two verdicts of one topology, begin with one verdict of one
/// event, and go on alike.
pub fn lines_apart()
    ensures { LinesApart }
{}
