//! All lines in which two texts differ.
ghost use Rattle.std.specs.Prelude.{◌≡◌, ◌≤◌, ◌<◌, ◌++◌, ◌+◌, ◌^◌, IfOk, OnOk, drop, length, option_map};
ghost use Rattle.std.specs.Prelude.{slice_get, true};
ghost use Rattle.file_runs.specs.Differing.{all_text as all_text_of, are_same, bytes_due, count_text, differing};
ghost use Rattle.file_runs.specs.Differing.{differs_text, line as line_in, lines_of, places_at, places_text, shown_due};
ghost use Rattle.file_runs.specs.Judging.{first_finding, finding_due};

use crate::End;
use crate::compare::compare;
use ide_types::OutOfMemory;
use script_events::split_at_byte;
use std::alloc::Global;

// The bytes of a line before its line feed, and whether it has one.
type Line<'a> = (&'a [u8], bool);

// The first line of a text, if it has one, and what comes after it.
fn first_line(text: &[u8]) -> (Option<Line<'_>>, &[u8])
    ensures first { option_map (λ l. line_in l.0.now l.1) result.0 ≡ slice_get (lines_of text.now) 0 }
    ensures rest { lines_of result.1.now ≡ drop 1 (lines_of text.now) }
    ensures shorter { length result.1.now ≤ length text.now }
    ensures ends { 0 < length text.now → length result.1.now < length text.now }
{
    match split_at_byte(b'\n', text) {
        Some((line, rest)) => (Some((line, true)), rest),
        None if text.is_empty() => (None, text),
        None => (Some((text, false)), &text[text.len()..]),
    }
}

// Whether two texts have the same line, or neither has one.
fn is_same(due: Option<Line<'_>>, claimed: Option<Line<'_>>) -> bool
    ensures { result ≡ are_same (option_map (λ l. line_in l.0.now l.1) due.entry)
        (option_map (λ l. line_in l.0.now l.1) claimed.entry) }
{
    match (due, claimed) {
        (None, None) => true,
        (Some((line, ended)), Some((other, other_ended))) => line == other && ended == other_ended,
        _ => false,
    }
}

// The line that is due, as it is told.
fn shown(due: Option<Line<'_>>) -> &[u8]
    ensures { result.now ≡ shown_due (bytes_due (option_map (λ l. line_in l.0.now l.1) due.entry)) }
{
    match due {
        Some((line, _)) => line,
        None => b"end",
    }
}

// Appends what is told of a line that differs.
fn push_place(alloc: Global, text: &mut Vec<u8>, number: u64, due: &[u8]) -> Result<(), OutOfMemory>
    ensures { OnOk result (text.new.items ≡ text.old.items ++ differs_text number due.now) }
{
    let place = format!(in alloc; "differs {number}\ndue ")?;
    text.extend_from_slice(place.as_bytes())?;
    text.extend_from_slice(due)?;
    text.push(b'\n')?;
    Ok(())
}

// Appends what is told of the lines of a number, if they differ, and answers how many lines that is.
fn tell_line(
    alloc: Global,
    text: &mut Vec<u8>,
    number: u64,
    due: Option<Line<'_>>,
    claimed: Option<Line<'_>>,
) -> Result<u64, OutOfMemory>
    ensures count { IfOk result (λ n. n ≡ length (places_at number (option_map (λ l. line_in l.0.now l.1) due.entry)
        (option_map (λ l. line_in l.0.now l.1) claimed.entry))) }
    ensures most { IfOk result (λ n. n ≤ 1) }
    ensures text { OnOk result (text.new.items ≡ text.old.items ++ places_text (places_at number
        (option_map (λ l. line_in l.0.now l.1) due.entry)
        (option_map (λ l. line_in l.0.now l.1) claimed.entry))) }
{
    if is_same(due, claimed) {
        return Ok(0);
    }
    push_place(alloc, text, number, shown(due))?;
    Ok(1)
}

// Appends the line of how many lines differ.
fn push_count(alloc: Global, text: &mut Vec<u8>, count: u64) -> Result<(), OutOfMemory>
    ensures { OnOk result (text.new.items ≡ text.old.items ++ count_text count) }
{
    let line = format!(in alloc; "differing {count}\n")?;
    text.extend_from_slice(line.as_bytes())?;
    Ok(())
}

// Tells each line in which two texts differ, and how many they are.
fn all_text(alloc: Global, due: &[u8], claimed: &[u8]) -> Result<Vec<u8>, OutOfMemory>
    ensures { IfOk result (λ text. text.items ≡ all_text_of (differing due.now claimed.now)) }
{
    let mut due = due;
    let mut claimed = claimed;
    let mut text = Vec::new(alloc);
    let mut number = 1u64;
    let mut count = 0u64;
    'lines: while due.len() + claimed.len() > 0 {
        let (line, due_left) = first_line(due);
        let (other, claimed_left) = first_line(claimed);
        let told = tell_line(alloc, &mut text, number, line, other)?;
        count += told;
        number += 1;
        due = due_left;
        claimed = claimed_left;
    }
    push_count(alloc, &mut text, count)?;
    Ok(text)
}

/// Compares a text with the one that is due, line by line: the end, and the text that tells all lines that differ.
pub(crate) fn compare_all(
    alloc: Global,
    due: &[u8],
    claimed: &[u8],
) -> Result<(End, Vec<u8>), OutOfMemory>
    ensures { IfOk result (λ told. (told.0, told.1.items) ≡ finding_due true due.now claimed.now
        (first_finding due.now claimed.now)) }
{
    let (end, text) = compare(alloc, due, claimed)?;
    match end {
        End::Differs => Ok((end, all_text(alloc, due, claimed)?)),
        _ => Ok((end, text)),
    }
}
