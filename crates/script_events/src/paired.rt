//! The events of streams between devices and of hops that lines of a script spell.

ghost use Rattle.std.specs.Prelude.{◌≡◌, map};
ghost use Rattle.std.specs.Option.{ok_or};
ghost use Rattle.script_events.specs.declared.fault.LineFault.TheVariants as fault;
ghost use Rattle.script_events.specs.Paired.{side_of_word, more_in, peer_send_in, peer_event_of, hop_event_of};
ghost use Rattle.script_events.specs.Parse.{IsLineAnswer};

use crate::parts::{asked, operation, two_numbers};
use crate::words::{bytes_at, number_or_fault};
use crate::{HopEvent, LineError, LineFault, PeerEvent, ScriptEvent};
use ide_types::Side;
use std::alloc::Global;

// The device of the first link of a stream, or of the second.
fn side_at(word: &[u8]) -> Result<Side, LineFault>
    ensures { result ≡ ok_or (side_of_word word.now) fault.Word }
{
    if word == b"a".as_slice() {
        return Ok(Side::Host);
    }
    if word == b"b".as_slice() {
        return Ok(Side::Device);
    }
    Err(LineFault::Word)
}

// Whether `more` stands after the bytes.
fn more_at(marks: &[&[u8]]) -> Result<bool, LineFault>
    ensures { result ≡ more_in (map (λ w. w.now) marks.now) }
{
    match marks {
        [] => Ok(false),
        [more] if *more == b"more".as_slice() => Ok(true),
        [_] => Err(LineFault::Word),
        _ => Err(LineFault::Count),
    }
}

pub(crate) fn peer_send(alloc: Global, words: &[&[u8]]) -> Result<ScriptEvent, LineError>
    ensures { IsLineAnswer (peer_send_in (map (λ w. w.now) words.now)) result }
{
    let [peer, side, bytes, marks @ ..] = words else {
        return Err(LineError::Fault(LineFault::Count));
    };
    if marks.len() > 1 {
        return Err(LineError::Fault(LineFault::Count));
    }
    let peer = number_or_fault(peer)?;
    let side = side_at(side)?;
    let bytes = bytes_at(alloc, bytes)?;
    let more = more_at(marks)?;
    Ok(ScriptEvent::PeerSend {
        peer,
        side,
        bytes,
        more,
    })
}

// An event on a stream between devices; `None` if the first word is none of these events.
pub(crate) fn peer_event(first: &[u8], rest: &[&[u8]]) -> Option<Result<PeerEvent, LineFault>>
    ensures { result ≡ peer_event_of first.now (map (λ w. w.now) rest.now) }
{
    if first == b"pestablish".as_slice() {
        return Some(asked(rest).map(|(peer, lose)| PeerEvent::Establish { peer, lose }));
    }
    if first == b"pstop".as_slice() {
        return Some(asked(rest).map(|(peer, lose)| PeerEvent::Stop { peer, lose }));
    }
    if first == b"bind".as_slice() {
        return Some(operation(rest).map(|(interface, peer, lose)| PeerEvent::Bind {
            interface,
            peer,
            lose,
        }));
    }
    if first == b"unbind".as_slice() {
        return Some(operation(rest).map(|(interface, peer, lose)| PeerEvent::Unbind {
            interface,
            peer,
            lose,
        }));
    }
    None
}

// An event on a hop; `None` if the first word is none of these events.
pub(crate) fn hop_event(first: &[u8], rest: &[&[u8]]) -> Option<Result<HopEvent, LineFault>>
    ensures { result ≡ hop_event_of first.now (map (λ w. w.now) rest.now) }
{
    if first == b"hestablish".as_slice() {
        return Some(operation(rest).map(|(link, segment, lose)| HopEvent::Establish {
            link,
            segment,
            lose,
        }));
    }
    if first == b"hstop".as_slice() {
        return Some(operation(rest).map(|(link, segment, lose)| HopEvent::Stop {
            link,
            segment,
            lose,
        }));
    }
    if first == b"forward".as_slice() {
        return Some(two_numbers(rest).map(|(link, direction)| HopEvent::Forward {
            link,
            direction,
        }));
    }
    None
}
