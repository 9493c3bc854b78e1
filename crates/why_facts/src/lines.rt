//! The lines of why an event has its verdict.

ghost use Rattle.std.specs.Prelude.{◌≡◌, ◌++◌, List, IfOk, OnOk, string_bytes};
ghost use Rattle.ide_types.specs.{Text};
ghost use Rattle.why_facts.specs.Lines.{effect_lines, facts_text, rule_line, rules_text, why_text_of};
ghost use Rattle.told_facts.specs.Told.{fact_lines};

use crate::rules::{effect_rule, rule};
use event_verdicts::{Effect, Verdict};
use ide_types::{OutOfMemory, PortName, SubKind};
use script_events::Event;
use std::alloc::{AllocError, Global};
use told_facts::{Fact, push_exchange};

// Room for most texts.
const TEXT_ROOM: usize = 256;

fn push_rule(text: &mut String, rule: &str) -> Result<(), AllocError>
    ensures { OnOk result (string_bytes text.new ≡ string_bytes text.old ++ rule_line rule.now) }
{
    write!(text, " rule {rule}\n")
}

// Of each packet of a unit that an end accepted.
fn push_effects(
    text: &mut String,
    port: PortName,
    sub: SubKind,
    effects: &[Effect],
) -> Result<(), AllocError>
    ensures { OnOk result (string_bytes text.new ≡ string_bytes text.old ++ effect_lines port sub effects.now) }
{
    for effect in effects {
        push_rule(text, effect_rule(port, sub, *effect))?;
    }
    Ok(())
}

fn push_rules(text: &mut String, verdict: &Verdict) -> Result<(), AllocError>
    ensures { OnOk result (string_bytes text.new ≡ string_bytes text.old ++ rules_text verdict.now) }
{
    match verdict {
        Verdict::Accepted {
            port,
            unit,
            effects,
        } => push_effects(text, *port, unit.sub, effects.as_slice()),
        _ => Ok(()),
    }
}

fn push_fact(
    alloc: Global,
    text: &mut String,
    verdict: &Verdict,
    fact: &Fact,
) -> Result<(), AllocError>
    ensures { OnOk result (string_bytes text.new ≡ string_bytes text.old ++ fact_lines verdict.now fact.now) }
{
    match fact {
        Fact::Exchange {
            exchange,
            request,
            answer,
        } => push_exchange(alloc, text, verdict, *exchange, request.as_slice(), answer),
        _ => write!(text, " {fact}\n"),
    }
}

fn push_facts(
    alloc: Global,
    text: &mut String,
    verdict: &Verdict,
    facts: &[Fact],
) -> Result<(), AllocError>
    ensures { OnOk result (string_bytes text.new ≡ string_bytes text.old ++ facts_text verdict.now facts.now) }
{
    for fact in facts {
        push_fact(alloc, text, verdict, fact)?;
    }
    Ok(())
}

/// The lines of why an event has its verdict, each after a space and with its line feed: the rule that answers, of an
/// accepted unit the rule of each packet's effect, and facts of the state before the event, with the messages of the
/// exchanges that came (this profile).
pub fn why_text(
    alloc: Global,
    event: &Event,
    verdict: &Verdict,
    facts: &[Fact],
) -> Result<Vec<u8>, OutOfMemory>
    ensures { IfOk result (λ text. text.items ≡ why_text_of event.now verdict.now facts.now) }
{
    let mut text = String::with_capacity(alloc, TEXT_ROOM)?;
    push_rule(&mut text, rule(event, verdict, facts))?;
    push_rules(&mut text, verdict)?;
    push_facts(alloc, &mut text, verdict, facts)?;
    Ok(text.into_bytes())
}
