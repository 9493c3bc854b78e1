//! The event that a line of a script spells (this profile).

ghost use Rattle.std.specs.Prelude.{◌≡◌, ◌∷◌, [], false, map};
ghost use Rattle.std.specs.Option.{ok_or};
ghost use Rattle.script_events.specs.declared.fault.LineFault.TheVariants as fault;
ghost use Rattle.script_events.specs.Words.{words_in};
ghost use Rattle.script_events.specs.Parse.{marks_in, send_in, alter_in, arrive_in, bytes_event_in, packet_event_of};
ghost use Rattle.script_events.specs.Parse.{naming_event_of, parsed_hop_event, parsed_peer_event, access_event_in};
ghost use Rattle.script_events.specs.Parse.{interface_event_in, event_by_first_word, event_in, line_meaning};
ghost use Rattle.script_events.specs.Parse.{begins_bytes, line_answer, IsLineAnswer};
ghost use Rattle.script_events.specs.Spells.{MeaningIsSpelling, NothingIsSkipped, SpelledAreAllowed};
ghost use Rattle.script_events.specs.Faults.{FirstFault, FaultsAreFirst};
ghost use Rattle.script_events.specs.Terms.{LineFault};

use crate::accesses::access_event;
use crate::interfaces::interface_event;
use crate::paired::{hop_event, peer_event, peer_send};
use crate::parts::{one_number, operation, two_numbers};
use crate::words::{
    any_port_or_fault, bytes_at, is_printed, mask_or_fault, number_or_fault, port_or_fault,
    words_of,
};
use crate::{LINE_LIMIT, LineError, LineFault, ScriptEvent};
use ide_types::Side;
use std::alloc::Global;

fn alter(words: &[&[u8]]) -> Result<ScriptEvent, LineFault>
    ensures { result ≡ alter_in (map (λ w. w.now) words.now) }
{
    let [packet, at, mask] = words else {
        return Err(LineFault::Count);
    };
    let packet = number_or_fault(packet)?;
    let at = number_or_fault(at)?;
    let mask = mask_or_fault(mask)?;
    Ok(ScriptEvent::Alter { packet, at, mask })
}

// Whether `more` and `trusted` stand after the bytes of a send.
fn marks_at(side: Side, marks: &[&[u8]]) -> Result<(bool, bool), LineFault>
    ensures { result ≡ ok_or (marks_in side (map (λ w. w.now) marks.now)) fault.Word }
{
    match (side, marks) {
        (_, []) => Ok((false, false)),
        (_, [a]) if *a == b"more".as_slice() => Ok((true, false)),
        (Side::Host, [a]) if *a == b"trusted".as_slice() => Ok((false, true)),
        (Side::Host, [a, b]) if *a == b"more".as_slice() && *b == b"trusted".as_slice() => {
            Ok((true, true))
        }
        _ => Err(LineFault::Word),
    }
}

fn send(alloc: Global, words: &[&[u8]]) -> Result<ScriptEvent, LineError>
    ensures { IsLineAnswer (send_in (map (λ w. w.now) words.now)) result }
{
    let [port, bytes, marks @ ..] = words else {
        return Err(LineError::Fault(LineFault::Count));
    };
    if marks.len() > 2 {
        return Err(LineError::Fault(LineFault::Count));
    }
    let port = port_or_fault(port)?;
    let bytes = bytes_at(alloc, bytes)?;
    let (more, trusted) = marks_at(port.side, marks)?;
    Ok(ScriptEvent::Send {
        port,
        bytes,
        more,
        trusted,
    })
}

fn arrive(alloc: Global, words: &[&[u8]]) -> Result<ScriptEvent, LineError>
    ensures { IsLineAnswer (arrive_in (map (λ w. w.now) words.now)) result }
{
    let [port, bytes] = words else {
        return Err(LineError::Fault(LineFault::Count));
    };
    let port = any_port_or_fault(port)?;
    let bytes = bytes_at(alloc, bytes)?;
    Ok(ScriptEvent::Arrive { port, bytes })
}

fn bytes_event(alloc: Global, first: &[u8], rest: &[&[u8]]) -> Result<ScriptEvent, LineError>
    ensures gives { IsLineAnswer (bytes_event_in first.now (map (λ w. w.now) rest.now)) result }
    ensures none { begins_bytes (first.now ∷ []) ≡ false → result ≡ Err (LineError.Fault LineFault.Word) }
{
    if first == b"send".as_slice() {
        return send(alloc, rest);
    }
    if first == b"psend".as_slice() {
        return peer_send(alloc, rest);
    }
    if first == b"arrive".as_slice() {
        return arrive(alloc, rest);
    }
    Err(LineError::Fault(LineFault::Word))
}

// An event that names packets; `None` if the first word is none of these events.
fn packet_event(first: &[u8], rest: &[&[u8]]) -> Option<Result<ScriptEvent, LineFault>>
    ensures { result ≡ packet_event_of first.now (map (λ w. w.now) rest.now) }
{
    if first == b"pass".as_slice() {
        return Some(one_number(rest).map(|packet| ScriptEvent::Pass { packet }));
    }
    if first == b"alter".as_slice() {
        return Some(alter(rest));
    }
    if first == b"cut".as_slice() {
        return Some(two_numbers(rest).map(|(packet, length)| ScriptEvent::Cut { packet, length }));
    }
    if first == b"dump".as_slice() {
        return Some(one_number(rest).map(|packet| ScriptEvent::Dump { packet }));
    }
    None
}

// An event that names links, streams and packets, and holds no bytes.
fn naming_event(first: &[u8], rest: &[&[u8]]) -> Option<Result<ScriptEvent, LineFault>>
    ensures { result ≡ naming_event_of first.now (map (λ w. w.now) rest.now) }
{
    if first == b"establish".as_slice() {
        return Some(operation(rest).map(|(link, stream, lose)| ScriptEvent::Establish {
            link,
            stream,
            lose,
        }));
    }
    if first == b"refresh".as_slice() {
        return Some(operation(rest).map(|(link, stream, lose)| ScriptEvent::Refresh {
            link,
            stream,
            lose,
        }));
    }
    if first == b"stop".as_slice() {
        return Some(operation(rest).map(|(link, stream, lose)| ScriptEvent::Stop {
            link,
            stream,
            lose,
        }));
    }
    if first == b"reset".as_slice() {
        return Some(one_number(rest).map(|link| ScriptEvent::Reset { link }));
    }
    if first == b"status".as_slice() {
        return Some(two_numbers(rest).map(|(link, stream)| ScriptEvent::Status { link, stream }));
    }
    packet_event(first, rest)
}

// An event on a hop, or one that holds bytes.
fn some_hop_event(alloc: Global, first: &[u8], rest: &[&[u8]]) -> Result<ScriptEvent, LineError>
    ensures gives { IsLineAnswer (parsed_hop_event first.now (map (λ w. w.now) rest.now)) result }
    ensures exact { begins_bytes (first.now ∷ []) ≡ false
        → result ≡ line_answer (parsed_hop_event first.now (map (λ w. w.now) rest.now)) }
{
    match hop_event(first, rest) {
        Some(Ok(event)) => Ok(ScriptEvent::Hop { event }),
        Some(Err(fault)) => Err(LineError::Fault(fault)),
        None => bytes_event(alloc, first, rest),
    }
}

// An event on a stream between devices, or one of these.
fn some_peer_event(alloc: Global, first: &[u8], rest: &[&[u8]]) -> Result<ScriptEvent, LineError>
    ensures gives { IsLineAnswer (parsed_peer_event first.now (map (λ w. w.now) rest.now)) result }
    ensures exact { begins_bytes (first.now ∷ []) ≡ false
        → result ≡ line_answer (parsed_peer_event first.now (map (λ w. w.now) rest.now)) }
{
    match peer_event(first, rest) {
        Some(Ok(event)) => Ok(ScriptEvent::Peer { event }),
        Some(Err(fault)) => Err(LineError::Fault(fault)),
        None => some_hop_event(alloc, first, rest),
    }
}

// An event on a trusted read or on guarded memory, or one of these.
fn some_access_event(alloc: Global, first: &[u8], rest: &[&[u8]]) -> Result<ScriptEvent, LineError>
    ensures gives { IsLineAnswer (access_event_in first.now (map (λ w. w.now) rest.now)) result }
    ensures exact { begins_bytes (first.now ∷ []) ≡ false
        → result ≡ line_answer (access_event_in first.now (map (λ w. w.now) rest.now)) }
{
    match access_event(first, rest) {
        Some(Ok(event)) => Ok(ScriptEvent::Access { event }),
        Some(Err(fault)) => Err(LineError::Fault(fault)),
        None => some_peer_event(alloc, first, rest),
    }
}

// An event on an interface or on memory, or one of these.
fn some_interface_event(
    alloc: Global,
    first: &[u8],
    rest: &[&[u8]],
) -> Result<ScriptEvent, LineError>
    ensures gives { IsLineAnswer (interface_event_in first.now (map (λ w. w.now) rest.now)) result }
    ensures exact { begins_bytes (first.now ∷ []) ≡ false
        → result ≡ line_answer (interface_event_in first.now (map (λ w. w.now) rest.now)) }
{
    match interface_event(first, rest) {
        Some(Ok(event)) => Ok(ScriptEvent::Interface { event }),
        Some(Err(fault)) => Err(LineError::Fault(fault)),
        None => some_access_event(alloc, first, rest),
    }
}

fn event(alloc: Global, first: &[u8], rest: &[&[u8]]) -> Result<ScriptEvent, LineError>
    ensures gives { IsLineAnswer (event_by_first_word first.now (map (λ w. w.now) rest.now)) result }
    ensures exact { begins_bytes (first.now ∷ []) ≡ false
        → result ≡ line_answer (event_by_first_word first.now (map (λ w. w.now) rest.now)) }
{
    match naming_event(first, rest) {
        Some(Ok(event)) => Ok(event),
        Some(Err(fault)) => Err(LineError::Fault(fault)),
        None => some_interface_event(alloc, first, rest),
    }
}

fn some_event(alloc: Global, first: &[u8], rest: &[&[u8]]) -> Result<Option<ScriptEvent>, LineError>
    ensures gives { IsLineAnswer (event_in (first.now ∷ map (λ w. w.now) rest.now)) result }
    ensures exact { begins_bytes (first.now ∷ []) ≡ false
        → result ≡ line_answer (event_in (first.now ∷ map (λ w. w.now) rest.now)) }
{
    match event(alloc, first, rest) {
        Ok(event) => Ok(Some(event)),
        Err(e) => Err(e),
    }
}

fn event_or_none(alloc: Global, words: &[&[u8]]) -> Result<Option<ScriptEvent>, LineError>
    ensures gives { IsLineAnswer (event_in (map (λ w. w.now) words.now)) result }
    ensures exact { begins_bytes (map (λ w. w.now) words.now) ≡ false
        → result ≡ line_answer (event_in (map (λ w. w.now) words.now)) }
{
    match words {
        [] => Ok(None),
        [first, rest @ ..] => some_event(alloc, first, rest),
    }
}

// The event that the words of a line spell.
fn spelled_event(alloc: Global, line: &[u8]) -> Result<Option<ScriptEvent>, LineError>
    ensures gives { IsLineAnswer (event_in (words_in line.now)) result }
    ensures exact { begins_bytes (words_in line.now) ≡ false → result ≡ line_answer (event_in (words_in line.now)) }
{
    let words = words_of(line);
    event_or_none(alloc, words.as_slice())
}

// The event that a line spells, or its fault.
fn event_in_line(alloc: Global, line: &[u8]) -> Result<Option<ScriptEvent>, LineError>
    ensures gives { IsLineAnswer (line_meaning line.now) result }
    ensures exact { begins_bytes (words_in line.now) ≡ false → result ≡ line_answer (line_meaning line.now) }
{
    if line.len() > LINE_LIMIT {
        return Err(LineError::Fault(LineFault::TooLong));
    }
    if let [b'#', ..] = line {
        return Ok(None);
    }
    if !is_printed(line) {
        return Err(LineError::Fault(LineFault::NotAscii));
    }
    spelled_event(alloc, line)
}

/// The event that a line without its line feed spells, `None` on a line of spaces and on one that begins with `#`, or
/// the first fault of any other line. Only the events `send`, `psend` and `arrive` take memory.
pub fn parse_line(alloc: Global, line: &[u8]) -> Result<Option<ScriptEvent>, LineError>
    ensures gives { IsLineAnswer (line_meaning line.now) result }
    ensures exact { begins_bytes (words_in line.now) ≡ false → result ≡ line_answer (line_meaning line.now) }
    ensures first { (f : LineFault) → result ≡ Err (LineError.Fault f) → FirstFault line.now f }
{
    faults_are_first();
    event_in_line(alloc, line)
}

/// A line means an event exactly if it spells that event, and none exactly if it is a comment or of spaces only. A
/// spelled event is of a port of one of eight links or its switch, and trusted at a host's port alone.
pub fn lines_spell()
    ensures exact { MeaningIsSpelling }
    ensures none { NothingIsSkipped }
    ensures allowed { SpelledAreAllowed }
{}

/// The fault of a line is its first: by the causes in their order, and then by the first word that does not fit its
/// place after its event's word.
pub fn faults_are_first()
    ensures { FaultsAreFirst }
{}
