//! Where a file is faulty, for standard error. No clause speaks of it, so the file is read once more.

use cli_files::Shelf;
use file_runs::{FILE_LIMIT, parse_packet, read_front};
use ide_types::OutOfMemory;
use script_events::{LINE_LIMIT, LineError, LineFault, parse_line, split_at_byte};
use std::alloc::Global;
use std::str;

/// A place in a file, its line and its column from 1, and what is wrong there.
#[derive(Drop)]
pub(crate) struct Place {
    pub(crate) line: usize,
    pub(crate) column: usize,
    pub(crate) wrong: String,
}

// How many bytes of a topology count, and one more.
const TOPOLOGY_FRONT: usize = 1_048_577;

// How many bytes of a word are shown.
const SHOWN: usize = 40;

// The line and the column of what comes after these bytes; a column counts characters.
fn position(before: &[u8]) -> (usize, usize) {
    let mut line = 1usize;
    let mut column = 1usize;
    for byte in before {
        if *byte == b'\n' {
            line = line.saturating_add(1);
            column = 1;
        } else if *byte & 0xC0 != 0x80 {
            column = column.saturating_add(1);
        }
    }
    (line, column)
}

// ---- a topology that is no TOML

// What is wrong after so many bytes.
fn place_after(bytes: &[u8], at: usize, wrong: String) -> Place {
    let (line, column) = position(bytes.get(..at).unwrap_or(bytes));
    Place {
        line,
        column,
        wrong,
    }
}

// Where the bytes of a topology are no TOML.
fn untomled(alloc: Global, bytes: &[u8]) -> Result<Option<Place>, OutOfMemory> {
    let text = match str::from_utf8(bytes) {
        Ok(text) => text,
        Err(error) => {
            let wrong = String::from_str(alloc, "a byte is not UTF-8")?;
            return Ok(Some(place_after(bytes, error.valid_up_to(), wrong)));
        }
    };
    let Err(error) = toml::table_from_str(alloc, text) else {
        return Ok(None);
    };
    match error.span() {
        None => Ok(None),
        Some(span) => {
            let message = error.message();
            let wrong = format!(in alloc; "it is no TOML: {message}")?;
            Ok(Some(place_after(bytes, span.start, wrong)))
        }
    }
}

/// Where the topology of this name is no TOML. `None` if it is, or if it cannot be read again.
pub(crate) fn of_topology<S: Shelf>(alloc: Global, shelf: &mut S, name: &str) -> Option<Place> {
    match read_front(alloc, shelf, name, TOPOLOGY_FRONT) {
        Ok(bytes) => untomled(alloc, &bytes).unwrap_or(None),
        Err(_) => None,
    }
}

// ---- a line that is not spelled

// What may stand at the end of a line that spells an event, after the words before it: so many words.
const ENDS: [(usize, &str); 33] = [
    (0, ""),
    (1, "1"),
    (1, "00"),
    (1, "-"),
    (1, "reply"),
    (1, "more"),
    (1, "trusted"),
    (2, "1 1"),
    (2, "1 00"),
    (2, "1 reply"),
    (2, "command 0"),
    (2, "a -"),
    (2, "d0 -"),
    (2, "- more"),
    (2, "- trusted"),
    (2, "more trusted"),
    (3, "1 1 1"),
    (3, "1 1 00"),
    (3, "1 command 0"),
    (3, "1 a -"),
    (3, "a - more"),
    (3, "d0 - more"),
    (3, "h0 - trusted"),
    (3, "- more trusted"),
    (3, "lose 1 reply"),
    (4, "1 1 1 1"),
    (4, "1 a - more"),
    (4, "h0 - more trusted"),
    (4, "1 lose 1 reply"),
    (5, "1 1 lose 1 reply"),
    (1, "0"),
    (2, "0 0"),
    (2, "0 -"),
];

// A word of a line, with its column from 1.
type Word<'a> = (usize, &'a [u8]);

// The words of a line.
fn words_in<'a>(alloc: Global, line: &'a [u8]) -> Result<Vec<Word<'a>>, OutOfMemory> {
    let mut words = Vec::new(alloc);
    let mut rest = line;
    let mut column = 1usize;
    'words: while let Some((word, after)) = split_at_byte(b' ', rest) {
        if !word.is_empty() {
            words.push((column, word))?;
        }
        column = column.saturating_add(word.len()).saturating_add(1);
        rest = after;
    }
    if !rest.is_empty() {
        words.push((column, rest))?;
    }
    Ok(words)
}

// Whether words, with some of so many behind them, spell an event.
fn may_begin(alloc: Global, front: &[u8], behind: usize) -> Result<bool, OutOfMemory> {
    for end in &ENDS {
        if end.0 == behind {
            let mut line = Vec::from_slice(alloc, front)?;
            line.extend_from_slice(end.1.as_bytes())?;
            match parse_line(alloc, &line) {
                Ok(Some(_)) => return Ok(true),
                Err(LineError::Memory) => return Err(OutOfMemory),
                _ => {}
            }
        }
    }
    Ok(false)
}

// The first word of a line with which no event goes on, among words that are as many as an event has.
fn faulty_word<'a>(alloc: Global, words: &[Word<'a>]) -> Result<Option<Word<'a>>, OutOfMemory> {
    let mut front = Vec::new(alloc);
    let mut behind = words.len();
    for word in words {
        front.extend_from_slice(word.1)?;
        front.push(b' ')?;
        behind = behind.saturating_sub(1);
        if !may_begin(alloc, &front, behind)? {
            return Ok(Some(*word));
        }
    }
    Ok(None)
}

// A word as it is shown: its first bytes.
fn shown(alloc: Global, word: &[u8]) -> Result<String, OutOfMemory> {
    let front = word.get(..SHOWN).unwrap_or(word);
    let text = str::from_utf8(front).unwrap_or("");
    if word.len() > SHOWN {
        return Ok(format!(in alloc; "{text}..")?);
    }
    Ok(String::from_str(alloc, text)?)
}

// What is wrong with a word.
fn wrong_with(alloc: Global, word: &[u8], fault: LineFault) -> Result<String, OutOfMemory> {
    let word = shown(alloc, word)?;
    let text = match fault {
        LineFault::Word => format!(in alloc; "'{word}' is not known here")?,
        LineFault::Count => format!(in alloc; "'{word}' has another number of words")?,
        LineFault::Number => format!(in alloc; "'{word}' is no number")?,
        _ => format!(in alloc; "'{word}' is no hexadecimal")?,
    };
    Ok(text)
}

// How many bytes stand before the first one that is not printable ASCII.
fn printed(line: &[u8]) -> usize {
    line.iter()
        .take_while(|byte| 0x20 <= **byte && **byte <= 0x7E)
        .count()
}

// The word of a line that is faulty: of a script, of which the words before it may begin an event; and of a packet
// file, where a line has one.
fn word_of<'a>(
    alloc: Global,
    line: &'a [u8],
    fault: LineFault,
    is_script: bool,
) -> Result<Option<Word<'a>>, OutOfMemory> {
    let words = words_in(alloc, line)?;
    if fault == LineFault::Count {
        return Ok(words.first().copied());
    }
    if is_script {
        return faulty_word(alloc, &words);
    }
    match words.as_slice() {
        [_, second, ..] => Ok(Some(*second)),
        [first] => Ok(Some(*first)),
        [] => Ok(None),
    }
}

// Where a line is faulty.
fn in_line(
    alloc: Global,
    number: usize,
    line: &[u8],
    fault: LineFault,
    is_script: bool,
) -> Result<Option<Place>, OutOfMemory> {
    let (column, wrong) = match fault {
        LineFault::TooLong => (
            LINE_LIMIT.saturating_add(1),
            String::from_str(alloc, "the line is too long")?,
        ),
        LineFault::NotAscii => (
            printed(line).saturating_add(1),
            String::from_str(alloc, "a byte is not printable ASCII")?,
        ),
        _ => match word_of(alloc, line, fault, is_script)? {
            None => return Ok(None),
            Some((column, word)) => (column, wrong_with(alloc, word, fault)?),
        },
    };
    Ok(Some(Place {
        line: number,
        column,
        wrong,
    }))
}

// The fault of a line, if it has one.
fn fault_of(alloc: Global, line: &[u8], is_script: bool) -> Result<Option<LineFault>, OutOfMemory> {
    let fault = if is_script {
        parse_line(alloc, line).err()
    } else {
        parse_packet(alloc, line).err()
    };
    match fault {
        None => Ok(None),
        Some(LineError::Fault(fault)) => Ok(Some(fault)),
        Some(LineError::Memory) => Err(OutOfMemory),
    }
}

// Where the first line is that is not spelled.
fn unspelled(alloc: Global, bytes: &[u8], is_script: bool) -> Result<Option<Place>, OutOfMemory> {
    let mut rest = bytes;
    let mut number = 1usize;
    'lines: while let Some((line, after)) = split_at_byte(b'\n', rest) {
        if let Some(fault) = fault_of(alloc, line, is_script)? {
            return in_line(alloc, number, line, fault, is_script);
        }
        number = number.saturating_add(1);
        rest = after;
    }
    match fault_of(alloc, rest, is_script)? {
        None => Ok(None),
        Some(fault) => in_line(alloc, number, rest, fault, is_script),
    }
}

/// Where the first line of the file of this name is that is not spelled, of a script or of a packet file. `None` if it
/// cannot be read again.
pub(crate) fn of_lines<S: Shelf>(
    alloc: Global,
    shelf: &mut S,
    name: &str,
    is_script: bool,
) -> Option<Place> {
    match read_front(alloc, shelf, name, FILE_LIMIT + 1) {
        Ok(bytes) => unspelled(alloc, &bytes, is_script).unwrap_or(None),
        Err(_) => None,
    }
}
