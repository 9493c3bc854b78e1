//! What is counted over a run.

ghost use Rattle.std.specs.Prelude.{◌≡◌, ◌≤◌, IfOk, OnOk, [], length, map, replicate};
ghost use Rattle.ide_types.specs.declared.plan.Plan.{Plan};
ghost use Rattle.event_verdicts.specs.declared.verdict.Verdict.{Verdict};
ghost use Rattle.spec_keys.specs.History.{History, draws as draws_of};
ghost use Rattle.why_facts.specs.{facts_due, rule_of};
ghost use Rattle.world.specs.{WorldStandsFor};
ghost use Rattle.rule_counts.specs.Coverage.{IsCoverage, LooksBefore, coverage_with};
ghost use Rattle.rule_counts.specs.Seals.{AreSeals};
ghost use Rattle.rule_counts.specs.Told.{effect_rules, event_rules};

use crate::counting::{count_all, rules_of};
use crate::names::RULE_COUNT;
use crate::seals::Seals;
use crate::unsealed::is_verified;
use event_verdicts::Verdict;
use ide_types::OutOfMemory;
use ide_why::{Fact, World, facts};
use script_events::Event;
use std::alloc::Global;
use std::marker::Model;

/// How often each rule that can answer was told, at how many arrivals a tag verified on a unit that its partner had not
/// sealed, and what was sealed (this profile).
#[derive(Drop)]
pub struct Coverage {
    counts: Vec<u64>,
    forged: u64,
    seals: Seals,
}

impl Model for Coverage {
    ghost use Rattle.rule_counts.specs.Coverage.{CoverageView};

    ghost Value = { CoverageView };

    ghost view = { λ c. record { counts = c.counts.items; forged = c.forged; seals = c.seals } };
}

/// What is looked up before an event, of what it may be counted as.
#[derive(Drop)]
pub struct Before {
    facts: Vec<Fact>,
    unsealed: bool,
    draws: u32,
}

impl Model for Before {
    ghost use Rattle.rule_counts.specs.Coverage.{BeforeView};

    ghost Value = { BeforeView };

    ghost view = { λ b. record { facts = b.facts.items; unsealed = b.unsealed; draws = b.draws } };
}

/// How many draws a world made.
pub fn draws(world: &World) -> u32
    ensures { (h : History) → WorldStandsFor world.now h → result ≡ draws_of h }
{
    world.links().links.keeper.keys.draws()
}

// The facts that the rule of an event may ask for: those of a send and of a forward, which say the TLP's sub-stream.
fn rule_facts(alloc: Global, world: &World, event: &Event) -> Result<Vec<Fact>, OutOfMemory>
    ensures { (h : History) → WorldStandsFor world.now h → IfOk result (λ xs. (w : Verdict) → rule_of event.now w
        xs.items ≡ rule_of event.now w (facts_due world.now.plan h event.now)) }
{
    match event {
        Event::Send { .. } | Event::Forward { .. } => facts(alloc, world, event),
        _ => Ok(Vec::new(alloc)),
    }
}

impl Before {
    /// The rules that are told of an event with this verdict: the one that answers it, and of an accepted unit that of
    /// each packet's effect.
    pub fn rules(
        &self,
        alloc: Global,
        event: &Event,
        verdict: &Verdict,
    ) -> Result<Vec<&'static str>, OutOfMemory>
        ensures rules { IfOk result (λ told. map (λ s. s.now) told.items
            ≡ event_rules event.now verdict.now self.now.facts) }
        ensures few { length (effect_rules verdict.now) ≤ 8 }
    {
        rules_of(alloc, event, verdict, &self.facts)
    }
}

impl Coverage {
    /// Nothing is counted yet.
    pub fn new(alloc: Global) -> Result<Coverage, OutOfMemory>
        ensures { (plan : Plan) → IfOk result (λ c. IsCoverage plan c []) }
    {
        let counts = Vec::from_slice(alloc, &[0; RULE_COUNT])?;
        Ok(Coverage {
            counts,
            forged: 0,
            seals: Seals::new(alloc),
        })
    }

    /// How often each rule was told, in the order of docs/RULES.md.
    pub fn counts(&self) -> &[u64]
        ensures { result.now ≡ self.now.counts }
    {
        &self.counts
    }

    /// How many forgeries there were.
    pub fn forged(&self) -> u64
        ensures { result ≡ self.now.forged }
    {
        self.forged
    }

    /// Looks up what an event may be counted as, in the world before it.
    pub fn look(&self, alloc: Global, world: &World, event: &Event) -> Result<Before, OutOfMemory>
        ensures { (h : History) → WorldStandsFor world.now h → AreSeals world.now.plan self.now.seals h
            → IfOk result (LooksBefore world.now.plan h event.now) }
    {
        let facts = rule_facts(alloc, world, event)?;
        let unsealed = self
            .seals
            .ends_unsealed(alloc, world.plan(), world.links(), event)?;
        Ok(Before {
            facts,
            unsealed,
            draws: draws(world),
        })
    }

    /// Counts an event: its verdict, the rules that are told of it, and how many draws were made after it. A count
    /// stays at its last value.
    pub fn count(
        &mut self,
        event: &Event,
        verdict: &Verdict,
        before: &Before,
        told: &[&'static str],
        after: u32,
    ) -> Result<(), OutOfMemory>
        ensures { OnOk result (self.new ≡ coverage_with self.old event.now verdict.now before.now
            (map (λ s. s.now) told.now) after) }
    {
        count_all(&mut self.counts, told);
        if before.unsealed && is_verified(verdict) {
            self.forged = self.forged.saturating_add(1);
        }
        self.seals.note(event, verdict, before.draws, after)
    }
}
