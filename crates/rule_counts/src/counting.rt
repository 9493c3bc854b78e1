//! The rules that are told of an event, and how often each was told.

ghost use Rattle.std.specs.Prelude.{◌≡◌, ◌++◌, ◌≤◌, ◌<◌, ◌^◌, IfOk, length, map};
ghost use Rattle.why_facts.specs.{effect_rule_of};
ghost use Rattle.rule_counts.specs.Counting.{counted, counted_all};
ghost use Rattle.rule_counts.specs.Told.{effect_rules, event_rules};

use crate::names::{place_in, rules};
use event_verdicts::{Effect, Verdict};
use ide_types::{OutOfMemory, PortName, SubKind};
use script_events::Event;
use std::alloc::Global;
use told_facts::Fact;
use why_facts::{effect_rule, rule};

// These rules, and behind them that of each effect of the packets of a unit that an end accepted.
fn with_effects(
    mut told: Vec<&'static str>,
    port: PortName,
    sub: SubKind,
    effects: &[Effect],
) -> Result<Vec<&'static str>, OutOfMemory>
    ensures { IfOk result (λ all. map (λ s. s.now) all.items ≡ map (λ s. s.now) told.entry.items
        ++ map (effect_rule_of port sub) effects.now) }
{
    for effect in effects {
        told.push(effect_rule(port, sub, *effect))?;
    }
    Ok(told)
}

/// The rules that are told of an event: the one that answers it, and of an accepted unit that of each packet's effect.
pub(crate) fn rules_of(
    alloc: Global,
    event: &Event,
    verdict: &Verdict,
    facts: &[Fact],
) -> Result<Vec<&'static str>, OutOfMemory>
    ensures rules { IfOk result (λ told. map (λ s. s.now) told.items ≡ event_rules event.now verdict.now facts.now) }
    ensures few { length (effect_rules verdict.now) ≤ 8 }
{
    let mut told = Vec::new(alloc);
    match verdict {
        Verdict::Accepted {
            port,
            unit,
            effects,
        } => {
            told.reserve(1 + effects.len())?;
            told.push(rule(event, verdict, facts))?;
            with_effects(told, *port, unit.sub, effects.as_slice())
        }
        _ => {
            told.push(rule(event, verdict, facts))?;
            Ok(told)
        }
    }
}

// Counts a rule once more; a count stays at its last value.
fn count(counts: &mut Vec<u64>, rule: &str)
    ensures { counts.new.items ≡ counted rule.now counts.old.items }
{
    let place = place_in(rules(), rule);
    if place < counts.len() {
        counts[place] = counts[place].saturating_add(1);
    }
}

/// Counts each of these rules once more.
pub(crate) fn count_all(counts: &mut Vec<u64>, told: &[&'static str])
    ensures { counts.new.items ≡ counted_all (map (λ s. s.now) told.now) counts.old.items }
{
    for rule in told {
        count(counts, rule);
    }
}
