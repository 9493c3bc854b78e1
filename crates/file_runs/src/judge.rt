//! The text of a file, judged.
ghost use Rattle.std.specs.Prelude.{◌≡◌, ◌≢◌, ◌≤◌, IfOk, length};
ghost use Rattle.file_runs.specs.FileRuns.{FileRun, judged_task};
ghost use Rattle.file_runs.specs.Front.{GaveAtMost};
ghost use Rattle.file_runs.specs.Judging.{first_finding, finding_due, judgement_due, verdicts_limit};
ghost use Rattle.file_runs.specs.Outcome.{Ran};

use crate::compare::compare;
use crate::differing::compare_all;
use crate::{End, Fault, finish, read_front};
use cli_files::{Shelf, Sink};
use ide_types::OutOfMemory;
use std::alloc::Global;

/// How many bytes of a text that is judged count: 1 GiB.
const VERDICTS_LIMIT: usize = 1_073_741_824;

// Compares a text with the one that is due: the first line that differs is told, or all that do.
fn compare_as(
    alloc: Global,
    due: &[u8],
    claimed: &[u8],
    all: bool,
) -> Result<(End, Vec<u8>), OutOfMemory>
    ensures { IfOk result (λ told. (told.0, told.1.items) ≡ finding_due all due.now claimed.now
        (first_finding due.now claimed.now)) }
{
    if all {
        compare_all(alloc, due, claimed)
    } else {
        compare(alloc, due, claimed)
    }
}

// Judges the first bytes of a file; one byte more than those that count was read.
fn judge_front<O: Sink>(
    alloc: Global,
    due: &[u8],
    front: &[u8],
    all: bool,
    out: &mut O,
) -> Result<End, Fault>
    ensures few { IfOk result (λ e. e ≢ End.TooLong → length front.now ≤ verdicts_limit) }
    ensures ran { Ran (judgement_due all due.now front.now) (O.seen out.old) (O.seen out.new) result }
{
    if front.len() > VERDICTS_LIMIT {
        return Ok(End::TooLong);
    }
    match compare_as(alloc, due, front, all) {
        Ok((end, text)) => finish(out, end, &text),
        Err(_) => Err(Fault::Memory),
    }
}

/// Reads the file of this name and writes whether it is the text that is due, or else the number of the first line that
/// differs and the line that is due there, or with `all` those of all lines that differ, and how many they are (this
/// profile). The file is read in pieces of at most 4,096 bytes, and no
/// byte after byte 1,073,741,825 of it is asked for; nothing of it is written. Returns a `Fault` if a read or the
/// writing failed or there was no memory.
pub fn judge_file<S: Shelf, O: Sink>(
    alloc: Global,
    due: &[u8],
    name: &str,
    all: bool,
    shelf: &mut S,
    out: &mut O,
) -> Result<End, Fault>
    ensures few { IfOk result (λ e. e ≢ End.TooLong → GaveAtMost (S.seen shelf.old).given verdicts_limit
        (S.seen shelf.new).given) }
    ensures files { FileRun (judged_task all due.now name.now) (S.seen shelf.old) (S.seen shelf.new) (O.seen out.old)
        (O.seen out.new) result }
{
    match read_front(alloc, shelf, name, VERDICTS_LIMIT + 1) {
        Err(e) => Err(e),
        Ok(front) => judge_front(alloc, due, &front, all, out),
    }
}
