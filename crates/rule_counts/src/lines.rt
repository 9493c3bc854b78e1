//! The lines that tell of rules.

ghost use Rattle.std.specs.Prelude.{◌≡◌, ◌++◌, ◌≤◌, [], IfOk, OnOk, drop, length, map, string_bytes};
ghost use Rattle.std.specs.Fmt.{decimal};
ghost use Rattle.ide_types.specs.{joined_words};
ghost use Rattle.rule_counts.specs.Lines.{count_lines, counts_shown, rule_count_line, told_line};

use crate::coverage::Coverage;
use crate::names::rules;
use ide_types::{Bytes, OutOfMemory};
use std::alloc::{AllocError, Global};

// Room for the lines of all rules.
const COUNTS_ROOM: usize = 4096;

// Room for most lines of an event.
const LINE_ROOM: usize = 64;

fn push_count(text: &mut String, rule: &str, count: u64) -> Result<(), AllocError>
    ensures { OnOk result (string_bytes text.new ≡ string_bytes text.old ++ rule_count_line rule.now count) }
{
    write!(text, "rule {rule} {count}\n")
}

// A line for each rule that has a count.
fn push_counts(text: &mut String, names: &[&'static str], counts: &[u64]) -> Result<(), AllocError>
    ensures { OnOk result (string_bytes text.new ≡ string_bytes text.old
        ++ count_lines (map (λ s. s.now) names.now) counts.now) }
{
    for (i, name) in names.iter().enumerate() {
        if i >= counts.len() {
            return Ok(());
        }
        push_count(text, *name, counts[i])?;
    }
    Ok(())
}

/// A line for each rule that can answer, in the order of docs/RULES.md, with how often it was told, and one of the
/// forgeries.
pub fn counts_text(alloc: Global, coverage: &Coverage) -> Result<Bytes, OutOfMemory>
    ensures { IfOk result (λ text. text ≡ counts_shown coverage.now) }
{
    let mut text = String::with_capacity(alloc, COUNTS_ROOM)?;
    push_counts(&mut text, rules(), coverage.counts())?;
    let forged = coverage.forged();
    write!(text, "forged {forged}\n")?;
    Ok(Bytes::new(text.into_bytes()))
}

fn push_rules(text: &mut String, told: &[&'static str]) -> Result<(), AllocError>
    ensures { OnOk result (string_bytes text.new ++ joined_words [] ≡ string_bytes text.old
        ++ joined_words (map (λ s. s.now) told.now)) }
{
    for rule in told {
        write!(text, " {rule}")?;
    }
    Ok(())
}

/// The line of an event of this number: the rules that are told of it.
pub fn rules_line(alloc: Global, number: u64, told: &[&'static str]) -> Result<Bytes, OutOfMemory>
    ensures { IfOk result (λ text. text ≡ told_line number (map (λ s. s.now) told.now)) }
{
    let mut text = String::with_capacity(alloc, LINE_ROOM)?;
    write!(text, "{number}")?;
    push_rules(&mut text, told)?;
    text.push_str("\n")?;
    Ok(Bytes::new(text.into_bytes()))
}
