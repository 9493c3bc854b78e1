//! What is written for the lines of a file, and how a run over them ends (this profile).
ghost use Rattle.std.specs.Prelude.{◌≡◌, ◌≢◌, ◌∷◌, [], ◌+◌, ◌<◌, ◌^◌, ℕ, List, Result, Err, IfOk, IfSome, OnOk, length};
ghost use Rattle.std.specs.Prelude.{nat_lt, true, false};
ghost use Rattle.script_events.specs.declared.fault.LineFault.{LineFault};
ghost use Rattle.script_events.specs.declared.fault.LineFault.TheVariants.{TooLong};
ghost use Rattle.script_events.specs.Words.{line_limit};
ghost use Rattle.file_runs.specs.Outcome.{Due, IsWholeLines, Ran};
ghost use Rattle.file_runs.specs.Gathering.{PieceEnds};
ghost use Rattle.file_runs.specs.Lines.{Came, after, process, refusal};

use crate::writing::{finish, write};
use crate::{End, Fault};
use cli_files::Sink;
use ide_types::{Bytes, OutOfMemory};
use script_events::{LineError, LineFault, fault_line};
use std::alloc::Global;

/// How many bytes of a file count.
pub const FILE_LIMIT: usize = 16_777_216;

/// What is written for the lines of a file, line by line.
pub trait LineWork {
    /// What is known of the lines so far.
    ghost Past: { Type 0 };

    /// What is kept follows such a past.
    ghost follows: { Self → Self.Past → Type 0 };

    /// A line of this number may come next.
    ghost fits: { Self → ℕ → Type 0 };

    /// The line of a number, after this past: the past with that line and the text that is written for it, or its
    /// fault.
    ghost advance: { Self.Past → ℕ → List ℕ → Result (Self.Past × List ℕ) LineFault };

    /// How the run ends after the last line, and the text that is written then.
    ghost closing: { Self.Past → Due };

    /// It may end with an event wanting.
    ghost may_lack: { Type 0 };

    /// The text of a line without its line feed; lines are numbered from 1.
    fn line(&mut self, number: u64, line: &[u8]) -> Result<Bytes, LineError>
        requires number { number < 2 ^ 26 }
        requires fits { fits self.old number }
        ensures came { (past : Self.Past) → follows self.old past → Came (advance past number line.now)
            (follows self.new) result }
        ensures fits { OnOk result (fits self.new (number + 1)) };

    /// How the run ends after the last line.
    fn end(&self) -> End
        ensures end { (past : Self.Past) → follows self.now past → result ≡ (closing past).0 }
        ensures asked { result ≢ End.Usage }
        ensures unjudged { result ≢ End.Differs }
        ensures short { result ≢ End.TooLong }
        ensures lacks { result ≡ End.NoEvent → may_lack };

    /// The text that is written after the last line.
    fn closing(&self) -> Result<Bytes, OutOfMemory>
        ensures { (past : Self.Past) → follows self.now past → IfOk result (λ text. text ≡ (closing past).1) };

    /// A line of more than 20,000 bytes is too long, whatever they are.
    ghost long_lines: { (s : Self.Past) (n : ℕ) (line : List ℕ) → nat_lt line_limit (length line) ≡ true
        → advance s n line ≡ Err TooLong };

    /// What is written for a line is whole lines.
    ghost whole_lines: { (s : Self.Past) (n : ℕ) (line : List ℕ) → IfOk (advance s n line)
        (λ came. IsWholeLines came.1) };
}

/// Writes what was gathered, and ends at a line that is not spelled.
pub(crate) fn refuse<O: Sink>(
    alloc: Global,
    gathered: &[u8],
    number: u64,
    fault: LineFault,
    out: &mut O,
) -> Result<End, Fault>
    ensures end { IfOk result (λ e. e ≡ End.Script) }
    ensures ran { Ran (after gathered.now (refusal number fault)) (O.seen out.old) (O.seen out.new) result }
{
    write(out, gathered)?;
    match fault_line(alloc, number, fault) {
        Ok(text) => finish(out, End::Script, &text),
        Err(_) => Err(Fault::Memory),
    }
}

// Ends after the last line.
fn close<O: Sink, W: LineWork>(work: &W, out: &mut O) -> Result<End, Fault>
    ensures end { IfOk result (λ e. e ≢ End.Usage) }
    ensures unjudged { IfOk result (λ e. e ≢ End.Differs) }
    ensures short { IfOk result (λ e. e ≢ End.TooLong) }
    ensures lacks { IfOk result (λ e. e ≡ End.NoEvent → W.may_lack) }
    ensures ran { (past : W.Past) → W.follows work.now past → Ran (W.closing past) (O.seen out.old) (O.seen out.new)
        result }
{
    match work.closing() {
        Ok(text) => finish(out, work.end(), text.as_slice()),
        Err(_) => Err(Fault::Memory),
    }
}

/// Writes what was gathered, and ends at a line that is not spelled.
pub(crate) fn refuse_in<O: Sink>(
    alloc: Global,
    gathered: &[u8],
    number: u64,
    fault: LineFault,
    out: &mut O,
) -> Result<Option<End>, Fault>
    ensures end { IfOk result (λ o. IfSome o (λ e. e ≡ End.Script)) }
    ensures ran { PieceEnds (after gathered.now (refusal number fault)) (O.seen out.old) (O.seen out.new) result }
{
    match refuse(alloc, gathered, number, fault, out) {
        Ok(end) => Ok(Some(end)),
        Err(e) => Err(e),
    }
}

/// A last line without a line feed, and the end.
pub(crate) fn run_last<O: Sink, W: LineWork>(
    alloc: Global,
    work: &mut W,
    number: u64,
    piece: &[u8],
    out: &mut O,
) -> Result<End, Fault>
    requires number { number < 2 ^ 26 }
    requires fits { W.fits work.old number }
    ensures end { IfOk result (λ e. e ≢ End.Usage) }
    ensures unjudged { IfOk result (λ e. e ≢ End.Differs) }
    ensures short { IfOk result (λ e. e ≢ End.TooLong) }
    ensures lacks { IfOk result (λ e. e ≡ End.NoEvent → W.may_lack) }
    ensures ran { (past : W.Past) → W.follows work.old past → Ran (process W.advance W.closing false number past
        (piece.now ∷ [])) (O.seen out.old) (O.seen out.new) result }
{
    if piece.is_empty() {
        return close(work, out);
    }
    match work.line(number, piece) {
        Err(LineError::Memory) => Err(Fault::Memory),
        Err(LineError::Fault(fault)) => refuse(alloc, b"", number, fault, out),
        Ok(text) => {
            write(out, text.as_slice())?;
            close(work, out)
        }
    }
}
