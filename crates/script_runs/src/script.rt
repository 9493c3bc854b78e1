//! Events that are run on the world of a topology, and the command `run`: those of the lines of a script.

ghost use Rattle.std.specs.Prelude.{◌≡◌, ◌<◌, ◌≤◌, ◌+◌, ◌^◌, IfErr, IfOk, OnOk, length, count_by};
ghost use Rattle.ide_types.specs.Fits.{FitsPlan};
ghost use Rattle.file_runs.specs.FileRuns.{FileRun};
ghost use Rattle.script_events.specs.Parse.{line_meaning, IsLineAnswer};
ghost use Rattle.script_events.specs.Spells.{IsAllowed, IsAllowedInScript};
ghost use Rattle.event_verdicts.specs.Lines.{line_of};
ghost use Rattle.event_verdicts.specs.Shown.{verdict_by_ports as shown_of};
ghost use Rattle.script_runs.specs.LineLaws.{long_event, whole_event};
ghost use Rattle.script_runs.specs.Script.{script_due};
ghost use Rattle.script_runs.specs.SoFar.{script_so_far};
ghost use Rattle.script_runs.specs.Tasks.{on_plan_task, run_task};
ghost use Rattle.script_runs.specs.Works.{EventCame, Follows, IsEarly, MayAsk, ScriptPast, closing_due, ran_event};
ghost use Rattle.script_runs.specs.Works.{ran_line, ran_script_event, VerdictCame, totals_with};
ghost use Rattle.law_text.specs.Runs.{is_blocked, sealed_count, accepted_in, failed_in, blocked_in};

use crate::topologies::{Loaded, load, refuse};
use cli_files::{Shelf, Sink};
use event_verdicts::{Effect, Totals, Verdict, line, shown, totals_line};
use file_runs::{End, Fault, LineWork, run_file};
use history_events::{event_of, events_are_allowed};
use ide_types::{Bytes, OutOfMemory, Plan, ValidPlan};
use script_events::{Event, LineError, ScriptEvent, lines_spell, parse_line};
use std::alloc::Global;
use std::marker::Model;
use world::World;

/// The world, and the totals of its verdicts so far.
#[derive(Drop)]
pub struct Running {
    world: World,
    totals: Totals,
}

impl Model for Running {
    ghost use Rattle.script_runs.specs.Works.{RunningView};

    ghost Value = { RunningView };

    ghost view = { λ r. record { world = r.world; totals = r.totals } };
}

fn blocked(effects: &[Effect]) -> usize
    ensures count { result ≡ count_by is_blocked effects.now }
    ensures most { result ≤ length effects.now }
{
    effects
        .iter()
        .filter(|effect| matches!(effect, Effect::Blocked(_)))
        .count()
}

fn with_verdict(totals: Totals, verdict: &Verdict) -> Totals
    requires sealed { totals.sealed < 2 ^ 32 }
    requires accepted { totals.accepted < 2 ^ 32 }
    requires failed { totals.failed < 2 ^ 32 }
    requires blocked { totals.blocked < 2 ^ 32 }
    ensures totals { result ≡ totals_with totals verdict.now }
    ensures sealed { sealed_count verdict.now ≤ 8 }
    ensures accepted { accepted_in verdict.now ≤ 8 }
    ensures failed { failed_in verdict.now ≤ 8 }
    ensures blocked { blocked_in verdict.now ≤ 8 }
{
    match verdict {
        Verdict::Sealed { packets } => Totals {
            sealed: totals.sealed + packets.len() as u64,
            ..totals
        },
        Verdict::Fail { .. } => Totals {
            failed: totals.failed + 1,
            ..totals
        },
        Verdict::Accepted { effects, .. } => Totals {
            accepted: totals.accepted + effects.len() as u64,
            blocked: totals.blocked + blocked(effects.as_slice()) as u64,
            ..totals
        },
        _ => totals,
    }
}

impl Running {
    /// The world before the first event.
    pub fn new(world: World) -> Running
        ensures { result ≡ record {
          world = world;
          totals = record {
            sealed = 0;
            accepted = 0;
            failed = 0;
            blocked = 0;
          };
        } }
    {
        Running {
            world,
            totals: Totals {
                sealed: 0,
                accepted: 0,
                failed: 0,
                blocked: 0,
            },
        }
    }

    /// The topology, which meets every bound and rule.
    pub fn plan(&self) -> &ValidPlan
        ensures plan { result.now ≡ self.now.world.plan }
        ensures fits { FitsPlan self.now.world.plan }
    {
        self.world.plan()
    }

    /// The world.
    pub fn world(&self) -> &World
        ensures { result.now ≡ self.now.world }
    {
        &self.world
    }

    /// How many events got a verdict.
    pub fn events(&self) -> u64
        ensures { result ≡ self.now.world.steps }
    {
        self.world.calls()
    }

    /// The totals of their verdicts.
    pub fn totals(&self) -> Totals
        ensures { result ≡ self.now.totals }
    {
        self.totals
    }

    /// The verdict of an event, which is the `number`th at the most.
    pub fn step(&mut self, event: &Event, number: u64) -> Result<Verdict, OutOfMemory>
        requires number { number < 2 ^ 26 }
        requires early { IsEarly self.old number }
        requires allowed { IsAllowed event.now }
        ensures came { IfOk result (λ v. (past : ScriptPast) → Follows self.old past → VerdictCame past event.now
            self.new v) }
        ensures early { OnOk result (IsEarly self.new (number + 1)) }
    {
        let verdict = self.world.step(event)?;
        self.totals = with_verdict(self.totals, &verdict);
        Ok(verdict)
    }

    /// The line of the last event's verdict as it is shown: ports stand in place of ends.
    pub fn verdict_line(&self, alloc: Global, verdict: Verdict) -> Result<Vec<u8>, OutOfMemory>
        ensures { IfOk result (λ text. text.items ≡ line_of self.now.world.steps
            (shown_of self.now.world.plan.peers verdict)) }
    {
        let verdict = shown(self.plan().plan().peers.as_slice(), verdict);
        line(alloc, self.events(), &verdict)
    }
}

/// The world that runs, and the memory for its lines.
#[derive(Drop)]
pub struct ScriptWork {
    alloc: Global,
    running: Running,
}

impl Model for ScriptWork {
    ghost use Rattle.script_runs.specs.Works.{RunningView};

    ghost Value = { RunningView };

    ghost view = { λ w. w.running };
}

/// The event that a line asks for, if it is no comment and not empty.
pub fn asked(alloc: Global, line: &[u8]) -> Result<Option<ScriptEvent>, LineError>
    ensures gives { IsLineAnswer (line_meaning line.now) result }
    ensures allowed { IfOk result MayAsk }
{
    lines_spell();
    parse_line(alloc, line)
}

impl ScriptWork {
    /// The world before the first event.
    pub fn new(alloc: Global, world: World) -> ScriptWork
        ensures { result ≡ record {
          world = world;
          totals = record {
            sealed = 0;
            accepted = 0;
            failed = 0;
            blocked = 0;
          };
        } }
    {
        ScriptWork {
            alloc,
            running: Running::new(world),
        }
    }

    /// The topology, which meets every bound and rule.
    pub fn plan(&self) -> &ValidPlan
        ensures plan { result.now ≡ self.now.world.plan }
        ensures fits { FitsPlan self.now.world.plan }
    {
        self.running.plan()
    }

    /// The world that runs.
    pub fn world(&self) -> &World
        ensures { result.now ≡ self.now.world }
    {
        self.running.world()
    }

    /// The verdict of an event of a history, which is the `number`th at the most.
    pub fn step(&mut self, event: &Event, number: u64) -> Result<Verdict, OutOfMemory>
        requires number { number < 2 ^ 26 }
        requires early { IsEarly self.old number }
        requires allowed { IsAllowed event.now }
        ensures came { IfOk result (λ v. (past : ScriptPast) → Follows self.old past → VerdictCame past event.now
            self.new v) }
        ensures early { OnOk result (IsEarly self.new (number + 1)) }
    {
        self.running.step(event, number)
    }

    /// The line of the last event's verdict as it is shown.
    pub fn verdict_line(&self, alloc: Global, verdict: Verdict) -> Result<Vec<u8>, OutOfMemory>
        ensures { IfOk result (λ text. text.items ≡ line_of self.now.world.steps
            (shown_of self.now.world.plan.peers verdict)) }
    {
        self.running.verdict_line(alloc, verdict)
    }

    // The line of the verdict of an event of a history.
    fn run_event(&mut self, event: &Event, number: u64) -> Result<Bytes, LineError>
        requires number { number < 2 ^ 26 }
        requires early { IsEarly self.old number }
        requires allowed { IsAllowed event.now }
        ensures came { (past : ScriptPast) → Follows self.old past → IfOk result (EventCame
            (ran_event past event.now) self.new) }
        ensures early { OnOk result (IsEarly self.new (number + 1)) }
        ensures memory { IfErr result (λ e. e ≡ LineError.Memory) }
    {
        let Ok(verdict) = self.step(event, number) else {
            return Err(LineError::Memory);
        };
        match self.verdict_line(self.alloc, verdict) {
            Ok(text) => Ok(Bytes::new(text)),
            Err(_) => Err(LineError::Memory),
        }
    }

    /// The line of the verdict of an event of a script.
    pub fn run_script_event(&mut self, event: ScriptEvent, number: u64) -> Result<Bytes, LineError>
        requires number { number < 2 ^ 26 }
        requires early { IsEarly self.old number }
        requires allowed { IsAllowedInScript event }
        ensures came { (past : ScriptPast) → Follows self.old past → IfOk result (EventCame
            (ran_script_event past event) self.new) }
        ensures early { OnOk result (IsEarly self.new (number + 1)) }
        ensures memory { IfErr result (λ e. e ≡ LineError.Memory) }
    {
        events_are_allowed();
        let event = event_of(self.plan(), event);
        self.run_event(&event, number)
    }
}

impl LineWork for ScriptWork {
    ghost Past = { ScriptPast };

    ghost follows = { λ r past. Follows r past };

    ghost fits = { λ r n. IsEarly r n };

    ghost advance = { λ past n line. ran_line past n line };

    ghost closing = { λ past. closing_due past };

    ghost may_lack = { ⊥ };

    ghost long_lines = { λ past n line long. long_event past n line long };

    ghost whole_lines = { λ past n line. whole_event past n line };

    fn line(&mut self, number: u64, line: &[u8]) -> Result<Bytes, LineError> {
        match asked(self.alloc, line) {
            Err(e) => Err(e),
            Ok(None) => Ok(Bytes::new(Vec::new(self.alloc))),
            Ok(Some(event)) => self.run_script_event(event, number),
        }
    }

    fn end(&self) -> End {
        End::Done
    }

    fn closing(&self) -> Result<Bytes, OutOfMemory> {
        let text = totals_line(self.alloc, &self.running.totals())?;
        Ok(Bytes::new(text))
    }
}

// Runs a script on the links of a plan, their hops and the streams between their devices.
fn run_script<S: Shelf, O: Sink>(
    alloc: Global,
    plan: Plan,
    script: &str,
    shelf: &mut S,
    out: &mut O,
) -> Result<End, Fault>
    requires { FitsPlan plan }
    ensures same { (S.seen shelf.new).contents ≡ (S.seen shelf.old).contents }
    ensures files { FileRun (on_plan_task script_due script_so_far ⊥ plan script.now) (S.seen shelf.old)
        (S.seen shelf.new) (O.seen out.old) (O.seen out.new) result }
{
    match World::make(alloc, plan) {
        Err(_) => Err(Fault::Memory),
        Ok(world) => {
            let mut work = ScriptWork::new(alloc, world);
            run_file(alloc, &mut work, script, shelf, out)
        }
    }
}

/// `run TOPOLOGY SCRIPT`: the verdict lines of a script's events on the lines of a topology.
#[inline(never)]
pub fn run_files<S: Shelf, O: Sink>(
    alloc: Global,
    topology: &str,
    script: &str,
    shelf: &mut S,
    out: &mut O,
) -> Result<End, Fault>
    ensures same { (S.seen shelf.new).contents ≡ (S.seen shelf.old).contents }
    ensures files { FileRun (run_task topology.now script.now) (S.seen shelf.old) (S.seen shelf.new)
        (O.seen out.old) (O.seen out.new) result }
{
    match load(alloc, shelf, topology) {
        Err(e) => Err(e),
        Ok(Loaded::Sound(plan)) => run_script(alloc, plan, script, shelf, out),
        Ok(Loaded::Faulty(fault)) => refuse(alloc, &fault, out),
        Ok(Loaded::Long) => Ok(End::TooLong),
    }
}
