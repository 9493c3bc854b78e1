//! The first line in which two texts differ.
ghost use Rattle.std.specs.Prelude.{◌≡◌, ◌∷◌, ◌<◌, ◌^◌, IfOk, MatchOption, None, Some, false, length};
ghost use Rattle.file_runs.specs.Differing.{differs_text};
ghost use Rattle.file_runs.specs.Pieces.{pieces};
ghost use Rattle.file_runs.specs.Judging.{first_finding, finding_due, same_text, LacksLine};

use crate::End;
use ide_types::OutOfMemory;
use script_events::split_at_byte;
use std::alloc::Global;

// What a text has after this line and its line feed, if it begins with them.
fn after_line<'a>(text: &'a [u8], line: &[u8]) -> Option<&'a [u8]>
    ensures { MatchOption result (LacksLine line.now (pieces text.now)) (λ rest. pieces text.now
        ≡ line.now ∷ pieces rest.now) }
{
    match split_at_byte(b'\n', text) {
        Some((first, rest)) if first == line => Some(rest),
        _ => None,
    }
}

// The text if both are the same.
fn tell_same(alloc: Global, lines: u64) -> Result<(End, Vec<u8>), OutOfMemory>
    ensures end { IfOk result (λ told. told.0 ≡ End.Done) }
    ensures text { IfOk result (λ told. told.1.items ≡ same_text lines) }
{
    let text = format!(in alloc; "same {lines}\n")?;
    Ok((End::Done, text.into_bytes()))
}

// The text if they differ, first at this line.
fn tell_other(alloc: Global, number: u64, due: &[u8]) -> Result<(End, Vec<u8>), OutOfMemory>
    ensures end { IfOk result (λ told. told.0 ≡ End.Differs) }
    ensures text { IfOk result (λ told. told.1.items ≡ differs_text number due.now) }
{
    let mut text = format!(in alloc; "differs {number}\ndue ")?.into_bytes();
    text.extend_from_slice(due)?;
    text.push(b'\n')?;
    Ok((End::Differs, text))
}

/// Compares a text with the one that is due, line by line: the end and the text that tell of it.
pub(crate) fn compare(
    alloc: Global,
    due: &[u8],
    claimed: &[u8],
) -> Result<(End, Vec<u8>), OutOfMemory>
    ensures { IfOk result (λ told. (told.0, told.1.items) ≡ finding_due false due.now claimed.now
        (first_finding due.now claimed.now)) }
{
    let mut due = due;
    let mut claimed = claimed;
    let mut lines = 0u64;
    'lines: while let Some((line, later)) = split_at_byte(b'\n', due) {
        let Some(rest) = after_line(claimed, line) else {
            return tell_other(alloc, lines + 1, line);
        };
        due = later;
        claimed = rest;
        lines += 1;
    }
    if claimed == due {
        return tell_same(alloc, lines);
    }
    tell_other(alloc, lines + 1, b"end")
}
