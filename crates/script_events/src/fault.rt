//! Why a line of a script spells no event (this profile).

ghost use Rattle.std.specs.Prelude.{◌≡◌, Some, IfOk};
ghost use Rattle.script_events.specs.declared.fault.LineError.TheVariants.{Fault};
ghost use Rattle.script_events.specs.Words.{line_fault_word, fault_line_of};

use ide_types::OutOfMemory;
use std::alloc::Global;
use std::fmt;

/// How many bytes a line may have, its line feed aside.
pub const LINE_LIMIT: usize = 20_000;

/// The first fault of a line, in the order in which they are looked for: too long and not ASCII first, then
/// an unknown first word, then the count of words, then the words from the left.
#[derive(Clone, Copy, PartialEq, Eq)]
pub enum LineFault {
    /// A word that is not known, or out of its place.
    Word,
    /// Another number of words than the event may have.
    Count,
    /// A number that is not spelled, or is above 2^64 - 1.
    Number,
    /// Bytes that are not spelled.
    Hex,
    /// More than 20,000 bytes.
    TooLong,
    /// A byte outside 20h to 7Eh.
    NotAscii,
}

/// Why a line gave no event.
#[derive(Clone, Copy, PartialEq, Eq)]
pub enum LineError {
    /// Want of memory.
    Memory,
    Fault(LineFault),
}

impl From<LineFault> for LineError {
    ghost from_gives = { λ f e. e ≡ Fault f };

    fn from(fault: LineFault) -> LineError {
        LineError::Fault(fault)
    }
}

impl fmt::Display for LineFault {
    ghost output = { λ c. Some (line_fault_word c) };

    fn fmt<W: fmt::Write>(&self, f: &mut fmt::Formatter<W>) -> fmt::Result {
        f.write_str(match self {
            LineFault::Word => "word",
            LineFault::Count => "count",
            LineFault::Number => "number",
            LineFault::Hex => "hex",
            LineFault::TooLong => "toolong",
            LineFault::NotAscii => "notascii",
        })
    }
}

/// The last line at a line of the script, counted from 1, that spells no event, with its line feed.
pub fn fault_line(alloc: Global, line: u64, fault: LineFault) -> Result<Vec<u8>, OutOfMemory>
    ensures { IfOk result (λ text. text.items ≡ fault_line_of line fault) }
{
    let text = format!(in alloc; "refused {line} {fault}\n")?;
    Ok(text.into_bytes())
}
