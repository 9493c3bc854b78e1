//! Reading a line of a packet file.
ghost use Rattle.std.specs.Prelude.{◌≡◌, map};
ghost use Rattle.script_events.specs.Parse.{IsLineAnswer};
ghost use Rattle.script_events.specs.Words.{words_in};
ghost use Rattle.file_runs.specs.Reading.{only_bytes, packet_meaning};

use ide_types::Bytes;
use script_events::{LINE_LIMIT, LineError, LineFault, bytes_at, is_printed, words_of};
use std::alloc::Global;

// The bytes of the only word.
fn bytes_in_words(alloc: Global, words: &[&[u8]]) -> Result<Option<Bytes>, LineError>
    ensures { IsLineAnswer (only_bytes (map (λ w. w.now) words.now)) result }
{
    match words {
        [] => Ok(None),
        [word] => Ok(Some(bytes_at(alloc, word)?)),
        _ => Err(LineError::Fault(LineFault::Hex)),
    }
}

// The bytes of the only word of a line.
fn bytes_on(alloc: Global, line: &[u8]) -> Result<Option<Bytes>, LineError>
    ensures { IsLineAnswer (only_bytes (words_in line.now)) result }
{
    let words = words_of(line);
    bytes_in_words(alloc, words.as_slice())
}

/// The bytes that a line without its line feed spells: pairs of hex digits, or `-` for none, with spaces on either
/// side. `None` on a line of spaces, or the first fault: more than 20,000 bytes, a byte outside 20h to 7Eh, or another
/// text (this profile).
pub fn parse_packet(alloc: Global, line: &[u8]) -> Result<Option<Bytes>, LineError>
    ensures { IsLineAnswer (packet_meaning line.now) result }
{
    if line.len() > LINE_LIMIT {
        return Err(LineError::Fault(LineFault::TooLong));
    }
    if !is_printed(line) {
        return Err(LineError::Fault(LineFault::NotAscii));
    }
    bytes_on(alloc, line)
}
