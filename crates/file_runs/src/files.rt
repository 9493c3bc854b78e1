//! A file of lines, from its name to what is written for it: it is read in pieces, each piece is cut at its line feeds,
//! and the text of the lines is gathered before it is written (this profile).
ghost use Rattle.std.specs.Prelude.{◌≡◌, ◌≢◌, ◌≤◌, ◌<◌, ◌+◌, ◌++◌, ◌^◌, ℕ, [], List, Ok, IsErr, IfOk, IfErr, IfSome};
ghost use Rattle.std.specs.Prelude.{OnOk, None, length, nat_lt, option_map, take, vec_capacity, vec_len};
ghost use Rattle.cli_files.specs.Outside.{AsksFor, IsGiven, ShelfCause, given_by};
ghost use Rattle.script_events.specs.Words.{line_limit};
ghost use Rattle.file_runs.specs.FileRuns.{FileRun, lines_task};
ghost use Rattle.file_runs.specs.Front.{AskedPieces, Gave, GaveAtMost, IsReadIfTold, ReadsOn, bytes_of};
ghost use Rattle.file_runs.specs.Gathering.{IsCutOffAtSink, Gathers, GoesOn, NoFurther, PieceRan, ReadAsFar};
ghost use Rattle.file_runs.specs.Gathering.{WroteEnded};
ghost use Rattle.file_runs.specs.Gathering.{due_behind, ended_text, limit_due};
ghost use Rattle.file_runs.specs.Lines.{Came, file_due, file_limit};
ghost use Rattle.file_runs.specs.Outcome.{Ran, RanOnShelf, Wrote};

use crate::front::PIECE;
use crate::lines::{LineWork, refuse, refuse_in, run_last};
use crate::writing::write;
use crate::{End, FILE_LIMIT, Fault};
use cli_files::{Shelf, ShelfFault, Sink};
use ide_types::{Bytes, OutOfMemory};
use script_events::{LINE_LIMIT, LineError, LineFault, split_at_byte};
use std::alloc::Global;

// ---- the file

// Reads on from a place of a file, up to the last byte that counts; after that byte, one byte more.
fn read_piece<S: Shelf>(
    shelf: &mut S,
    name: &str,
    at: usize,
    buf: &mut [u8],
) -> Result<usize, ShelfFault>
    requires most { at ≤ file_limit }
    requires room { 0 < length buf.old }
    requires piece { length buf.old ≤ 4096 }
    ensures same { (S.seen shelf.new).contents ≡ (S.seen shelf.old).contents }
    ensures bytes { IfOk result (λ n. (front : List ℕ) → length front ≡ at → IsReadIfTold (S.seen shelf.old).contents
        name.now
        front → ReadsOn (S.seen shelf.old).contents name.now (front ++ take n buf.new) result) }
    ensures bound { IfOk result (λ n. n ≤ length buf.new) }
    ensures ahead { IfOk result (λ n. n ≤ 4096) }
    ensures counts { IfOk result (λ n. at < file_limit → at + n ≤ file_limit) }
    ensures one { IfOk result (λ n. at ≡ file_limit → n ≤ 1) }
    ensures counted { IsGiven (S.seen shelf.old).given (S.seen shelf.new).given result }
    ensures latest { (S.seen shelf.new).latest ≡ given_by result }
    ensures file_names { AsksFor name.now (S.seen shelf.old).asked (S.seen shelf.new).asked }
    ensures read_pieces { AskedPieces (S.seen shelf.old).longest (S.seen shelf.new).longest }
    ensures cause { ShelfCause (S.seen shelf.old).faults (S.seen shelf.new).faults (S.seen shelf.old).contents name.now
        result }
{
    let room = (FILE_LIMIT - at).min(buf.len()).max(1);
    shelf.read(name, at as u64, &mut buf[..room])
}

// Ends at the first byte that counts no more.
fn run_limit<O: Sink>(alloc: Global, lines: &Lines, byte: u8, out: &mut O) -> Result<End, Fault>
    ensures end { IfOk result (λ e. e ≢ End.Usage) }
    ensures unjudged { IfOk result (λ e. e ≢ End.Differs) }
    ensures cut { IfOk result (λ e. e ≢ End.Done) }
    ensures lacks { IfOk result (λ e. e ≢ End.NoEvent) }
    ensures ran { Ran (limit_due lines.now.number lines.now.unended.items byte) (O.seen out.old) (O.seen out.new)
        result }
{
    if byte != b'\n' && lines.unended.len() == LINE_LIMIT {
        return refuse(alloc, b"", lines.number, LineFault::TooLong, out);
    }
    Ok(End::TooLong)
}

// The same by its clauses, each by itself.
fn run_lines<S: Shelf, O: Sink, W: LineWork>(
    alloc: Global,
    work: &mut W,
    name: &str,
    shelf: &mut S,
    out: &mut O,
) -> Result<End, Fault>
    requires { W.fits work.old 1 }
    ensures end { IfOk result (λ e. e ≢ End.Usage) }
    ensures unjudged { IfOk result (λ e. e ≢ End.Differs) }
    ensures same { (S.seen shelf.new).contents ≡ (S.seen shelf.old).contents }
    ensures due_outcome { (past : W.Past) → W.follows work.old past → RanOnShelf (λ contents. option_map
        (file_due W.advance W.closing past) (contents name.now)) (S.seen shelf.old) (S.seen shelf.new)
        (O.seen out.old) (O.seen out.new) result }
    ensures output_so_far { (past : W.Past) → W.follows work.old past → IfErr result (λ e. WroteEnded e
        (ended_text W.advance W.closing past) name.now (S.seen shelf.old) (S.seen shelf.new) (O.seen out.old)
        (O.seen out.new)) }
    ensures reads_no_further { (past : W.Past) → W.follows work.old past
        → IfOk result (λ e. ReadAsFar (λ contents. NoFurther
        (GoesOn W.advance W.closing past) (bytes_of (contents name.now))) (S.seen shelf.old) (S.seen shelf.new)) }
    ensures read_limit { (S.seen shelf.new).given ≤ (S.seen shelf.old).given + (file_limit + 1) }
    ensures file_names { AsksFor name.now (S.seen shelf.old).asked (S.seen shelf.new).asked }
    ensures read_pieces { AskedPieces (S.seen shelf.old).longest (S.seen shelf.new).longest }
    ensures files_too_long { IfOk result (λ e. e ≡ End.TooLong → Gave (S.seen shelf.old).given (file_limit + 1)
        (S.seen shelf.new).given) }
    ensures whole_files { IfOk result (λ e. e ≡ End.Done → GaveAtMost (S.seen shelf.old).given file_limit
        (S.seen shelf.new).given) }
    ensures lacks { IfOk result (λ e. e ≡ End.NoEvent → W.may_lack) }
    ensures absent_event { IfOk result (λ e. e ≡ End.NoEvent → GaveAtMost (S.seen shelf.old).given file_limit
        (S.seen shelf.new).given) }
{
    let Ok(mut lines) = Lines::make(alloc) else {
        return Err(Fault::Memory);
    };
    let mut gathered = Gathered::new(alloc);
    let mut buf = [0u8; PIECE];
    let mut at = 0usize;
    loop {
        let Ok(n) = read_piece(shelf, name, at, &mut buf) else {
            return Err(Fault::Read);
        };
        if n == 0 {
            return run_last(alloc, work, lines.number, &lines.unended, out);
        }
        if at == FILE_LIMIT {
            return run_limit(alloc, &lines, buf[0], out);
        }
        match run_piece(alloc, work, &mut lines, &buf[..n], &mut gathered, out) {
            Err(e) => return Err(e),
            Ok(Some(end)) => return Ok(end),
            Ok(None) => at += n,
        }
    }
}

/// Reads the file of this name and writes the text of its lines, line by line. The file is read in
/// pieces of at most 4,096 bytes, and no byte after byte 16,777,217 of it is asked for; what is due to the lines that
/// end in a piece is written before the next one is read. A line is refused at its 20,001st byte. Returns a `Fault` if
/// a read or a write failed or there was no memory.
pub fn run_file<S: Shelf, O: Sink, W: LineWork>(
    alloc: Global,
    work: &mut W,
    name: &str,
    shelf: &mut S,
    out: &mut O,
) -> Result<End, Fault>
    requires { W.fits work.old 1 }
    ensures end { IfOk result (λ e. e ≢ End.Usage) }
    ensures unjudged { IfOk result (λ e. e ≢ End.Differs) }
    ensures same { (S.seen shelf.new).contents ≡ (S.seen shelf.old).contents }
    ensures read_limit { (S.seen shelf.new).given ≤ (S.seen shelf.old).given + (file_limit + 1) }
    ensures file_names { AsksFor name.now (S.seen shelf.old).asked (S.seen shelf.new).asked }
    ensures read_pieces { AskedPieces (S.seen shelf.old).longest (S.seen shelf.new).longest }
    ensures files_too_long { IfOk result (λ e. e ≡ End.TooLong → Gave (S.seen shelf.old).given (file_limit + 1)
        (S.seen shelf.new).given) }
    ensures whole_files { IfOk result (λ e. e ≡ End.Done → GaveAtMost (S.seen shelf.old).given file_limit
        (S.seen shelf.new).given) }
    ensures lacks { IfOk result (λ e. e ≡ End.NoEvent → W.may_lack) }
    ensures absent_event { IfOk result (λ e. e ≡ End.NoEvent → GaveAtMost (S.seen shelf.old).given file_limit
        (S.seen shelf.new).given) }
    ensures files { (past : W.Past) → W.follows work.old past → FileRun (lines_task (file_due W.advance W.closing past)
        (ended_text W.advance W.closing past) (GoesOn W.advance W.closing past) W.may_lack name.now)
        (S.seen shelf.old) (S.seen shelf.new) (O.seen out.old) (O.seen out.new) result }
{
    run_lines(alloc, work, name, shelf, out)
}

// ---- the lines that end in a piece

/// The lines of a file that is read in pieces: the number of the next one, and the bytes of it that came
/// in earlier pieces, at most 20,000. Room for them is reserved once.
#[derive(Drop)]
pub struct Lines {
    pub number: u64,
    pub unended: Vec<u8>,
    pub ghost short: { vec_len unended ≤ line_limit },
    pub ghost room: { line_limit ≤ vec_capacity unended },
}

impl Lines {
    /// The state before the first line. Returns `OutOfMemory` if there is no room for a line.
    pub fn make(alloc: Global) -> Result<Lines, OutOfMemory>
        ensures number { IfOk result (λ l. l.number ≡ 1) }
        ensures unended { IfOk result (λ l. l.unended.items ≡ []) }
    {
        let unended = Vec::with_capacity(alloc, LINE_LIMIT)?;
        Ok(Lines { number: 1, unended })
    }

    /// Whether a line that goes on with these bytes has more than a line may have.
    pub fn is_long(&self, more: &[u8]) -> bool
        ensures { result ≡ nat_lt line_limit (length self.now.unended.items + length more.now) }
    {
        more.len() > LINE_LIMIT - self.unended.len()
    }

    /// Keeps more bytes of the line.
    pub fn keep(&mut self, more: &[u8])
        requires { length self.old.unended.items + length more.now ≤ line_limit }
        ensures unended { self.new.unended.items ≡ self.old.unended.items ++ more.now }
        ensures number { self.new.number ≡ self.old.number }
    {
        let _ = self.unended.extend_from_slice(more);
    }

    /// Runs the line that ends with these bytes, without its line feed. If it lies in one piece, it is not copied.
    /// Returns the fault of the line, which may be that it is too long, or that there was no memory.
    pub fn run_line<W: LineWork>(&mut self, work: &mut W, end: &[u8]) -> Result<Bytes, LineError>
        requires number { self.old.number < 2 ^ 26 }
        requires fits { W.fits work.old self.old.number }
        ensures came { (past : W.Past) → W.follows work.old past → Came (W.advance past self.old.number
            (self.old.unended.items ++ end.now)) (W.follows work.new) result }
        ensures fits { OnOk result (W.fits work.new self.new.number) }
        ensures unended { OnOk result (self.new.unended.items ≡ []) }
        ensures number { self.new.number ≡ self.old.number + 1 }
    {
        let number = self.number;
        self.number += 1;
        if self.is_long(end) {
            return Err(LineError::Fault(LineFault::TooLong));
        }
        if self.unended.is_empty() {
            return work.line(number, end);
        }
        self.keep(end);
        let text = work.line(number, &self.unended);
        self.unended.clear();
        text
    }
}

// Runs the lines that end in a piece, and writes their text.
fn run_piece<O: Sink, W: LineWork>(
    alloc: Global,
    work: &mut W,
    lines: &mut Lines,
    piece: &[u8],
    gathered: &mut Gathered,
    out: &mut O,
) -> Result<Option<End>, Fault>
    requires number { lines.old.number + length piece.now < 2 ^ 26 }
    requires fits { W.fits work.old lines.old.number }
    requires empty { gathered.old.text.items ≡ [] }
    ensures end { IfOk result (λ o. IfSome o (λ e. e ≡ End.Script)) }
    ensures ran { (past : W.Past) → W.follows work.old past → PieceRan (W.follows work.new) (λ over left. due_behind
        W.advance W.closing over lines.old.number past lines.old.unended.items (piece.now ++ left))
        (λ later over left. due_behind W.advance W.closing over lines.new.number later lines.new.unended.items left)
        (O.seen out.old) (O.seen out.new) result }
    ensures fits { IfOk result (λ o. o ≡ None → W.fits work.new lines.new.number) }
    ensures number { IfOk result (λ o. o ≡ None → lines.new.number ≤ lines.old.number + length piece.now) }
    ensures empty { IfOk result (λ o. o ≡ None → gathered.new.text.items ≡ []) }
{
    let mut rest = piece;
    while let Some((end, after)) = split_at_byte(b'\n', rest) {
        let number = lines.number;
        match lines.run_line(work, end) {
            Err(LineError::Memory) => return Err(end_for_memory(gathered.text.as_slice(), out)),
            Err(LineError::Fault(fault)) => {
                return refuse_in(alloc, gathered.text.as_slice(), number, fault, out);
            }
            Ok(text) => gathered.gather(text.as_slice(), out)?,
        }
        rest = after;
    }
    if lines.is_long(rest) {
        return refuse_in(
            alloc,
            gathered.text.as_slice(),
            lines.number,
            LineFault::TooLong,
            out,
        );
    }
    lines.keep(rest);
    gathered.flush(out)?;
    Ok(None)
}

// ---- text that is gathered

// More gathered text than this is written.
const GATHERED: usize = 16_384;

// Writes a text, and empties it, written or not.
fn write_out<O: Sink>(text: &mut Vec<u8>, out: &mut O) -> Result<(), Fault>
    ensures wrote { Wrote text.old.items (O.seen out.old) (O.seen out.new) result }
    ensures empty { text.new.items ≡ [] }
{
    let wrote = write(out, text.as_slice());
    text.clear();
    wrote
}

// Writes what was gathered, and ends for want of memory.
fn end_for_memory<O: Sink>(gathered: &[u8], out: &mut O) -> Fault
    ensures { IsCutOffAtSink gathered.now (O.seen out.old) (O.seen out.new) result }
{
    match write(out, gathered) {
        Ok(()) => Fault::Memory,
        Err(e) => e,
    }
}

/// The text of lines that waits to be written: between two lines at most 16,384 bytes. While the text of
/// a line is gathered, no more than that text is held besides.
#[derive(Drop)]
pub struct Gathered {
    pub text: Vec<u8>,
    pub ghost few: { vec_len text ≤ 16384 },
}

impl Gathered {
    /// No text.
    pub fn new(alloc: Global) -> Gathered
        ensures { result.text.items ≡ [] }
    {
        Gathered {
            text: Vec::new(alloc),
        }
    }

    /// Gathers the text of a line, and writes all that is gathered if that is much. Returns a `Fault` if a write
    /// failed, or if there was no memory: then what was gathered before is written.
    pub fn gather<O: Sink>(&mut self, text: &[u8], out: &mut O) -> Result<(), Fault>
        ensures { Gathers self.old.text.items text.now self.new.text.items (O.seen out.old) (O.seen out.new) result }
    {
        if self.text.extend_from_slice(text).is_err() {
            return Err(end_for_memory(self.text.as_slice(), out));
        }
        if self.text.len() > GATHERED {
            return write_out(&mut self.text, out);
        }
        Ok(())
    }

    /// Writes what is gathered; nothing waits then, whatever it returns. Returns a `Fault` if the write failed or there
    /// was no memory.
    pub fn flush<O: Sink>(&mut self, out: &mut O) -> Result<(), Fault>
        ensures wrote { Wrote self.old.text.items (O.seen out.old) (O.seen out.new) result }
        ensures empty { self.new.text.items ≡ [] }
    {
        write_out(&mut self.text, out)
    }
}
