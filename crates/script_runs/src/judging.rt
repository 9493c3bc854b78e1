//! The command `judge`: a text is judged by what `run` writes.

ghost use Rattle.std.specs.Prelude.{◌≡◌, MatchOption};
ghost use Rattle.file_runs.specs.FileRuns.{FileRun};
ghost use Rattle.script_runs.specs.Judge.{IsLeft};
ghost use Rattle.script_runs.specs.Tasks.{judge_task};

use crate::script::run_files;
use cli_files::{Shelf, Sink, TrueSink};
use file_runs::{End, Fault, finish, judge_file, last_line};
use std::alloc::Global;

// What is left to write of a run that did not come to the end of its script; `None` if it did.
fn left(end: End, text: &[u8]) -> Option<&[u8]>
    ensures { MatchOption result (end ≡ End.Done) (λ rest. IsLeft end text.now rest.now) }
{
    match end {
        End::Done => None,
        End::Script => Some(last_line(text)),
        End::Topology => Some(text),
        _ => Some(b"".as_slice()),
    }
}

/// `judge TOPOLOGY SCRIPT VERDICTS`: whether a text is the one that `run` writes, or the first line that differs and
/// the line that is due there; with `all` all lines that differ, and how many they are. Of a run that does not come to
/// the end of its script, the line that its text ends with.
#[inline(never)]
pub fn judge<S: Shelf, O: Sink>(
    alloc: Global,
    topology: &str,
    script: &str,
    verdicts: &str,
    all: bool,
    shelf: &mut S,
    out: &mut O,
) -> Result<End, Fault>
    ensures { FileRun (judge_task all topology.now script.now verdicts.now) (S.seen shelf.old) (S.seen shelf.new)
        (O.seen out.old) (O.seen out.new) result }
{
    let mut ran = TrueSink::new(alloc);
    match run_files(alloc, topology, script, shelf, &mut ran) {
        Err(e) => Err(e),
        Ok(end) => {
            let text = ran.bytes();
            match left(end, text) {
                None => judge_file(alloc, text, verdicts, all, shelf, out),
                Some(rest) => finish(out, end, rest),
            }
        }
    }
}
