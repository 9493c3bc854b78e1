//! The command `cover`: how often each rule answered the events of a script, and how many forgeries there were.

ghost use Rattle.std.specs.Prelude.{◌≡◌, ◌+◌, ◌<◌, ◌^◌, [], IfErr, IfOk, OnOk, map};
ghost use Rattle.ide_types.specs.Fits.{FitsPlan};
ghost use Rattle.ide_types.specs.declared.plan.Plan.{Plan};
ghost use Rattle.file_runs.specs.FileRuns.{FileRun};
ghost use Rattle.script_events.specs.Spells.{IsAllowed, IsAllowedInScript};
ghost use Rattle.rule_counts.specs.Coverage.{IsCoverage};
ghost use Rattle.rule_counts.specs.Lines.{told_line};
ghost use Rattle.ide_runs.specs.Cover.{CoverCame, CoverPast, FollowsCover, cover_closing, cover_due, cover_line};
ghost use Rattle.ide_runs.specs.Cover.{covered_so_far, if_shown, ran_cover, ran_script_cover};
ghost use Rattle.ide_runs.specs.LineLaws.{long_covered, whole_covered};
ghost use Rattle.ide_runs.specs.Tasks.{cover_task};
ghost use Rattle.script_runs.specs.Tasks.{on_plan_task};
ghost use Rattle.script_runs.specs.Works.{IsEarly};

use cli_files::{Shelf, Sink};
use file_runs::{End, Fault, LineWork, run_file};
use history_events::{event_of, events_are_allowed};
use ide_types::{Bytes, OutOfMemory, Plan};
use rule_counts::{Coverage, counts_text, draws, rules_line};
use script_events::{Event, LineError, ScriptEvent};
use script_runs::{Loaded, Running, World, asked, load, refuse};
use std::alloc::Global;
use std::marker::Model;

// The world that runs, what is counted, and whether the rules of each event are written; and the memory for the text.
#[derive(Drop)]
struct CoverWork {
    alloc: Global,
    events: bool,
    running: Running,
    coverage: Coverage,
}

impl Model for CoverWork {
    ghost use Rattle.ide_runs.specs.Cover.{CoverView};

    ghost Value = { CoverView };

    ghost view = { λ w. record { events = w.events; running = w.running; coverage = w.coverage } };
}

impl CoverWork {
    // The world before the first event.
    fn new(alloc: Global, events: bool, world: World) -> Result<CoverWork, OutOfMemory>
        ensures events { IfOk result (λ w. w.events ≡ events) }
        ensures running { IfOk result (λ w. w.running ≡ record {
          world = world;
          totals = record {
            sealed = 0;
            accepted = 0;
            failed = 0;
            blocked = 0;
          };
        }) }
        ensures coverage { (plan : Plan) → IfOk result (λ w. IsCoverage plan w.coverage []) }
    {
        let coverage = Coverage::new(alloc)?;
        Ok(CoverWork {
            alloc,
            events,
            running: Running::new(world),
            coverage,
        })
    }

    // No text.
    fn nothing(&self) -> Bytes
        ensures { result ≡ [] }
    {
        Bytes::new(Vec::new(self.alloc))
    }

    // The line of the rules that are told of the last event, if it is asked for.
    fn event_text(&self, told: &[&'static str]) -> Result<Bytes, OutOfMemory>
        ensures { IfOk result (λ text. text ≡ if_shown self.now.events (told_line self.now.running.world.steps
            (map (λ s. s.now) told.now))) }
    {
        if self.events {
            rules_line(self.alloc, self.running.events(), told)
        } else {
            Ok(self.nothing())
        }
    }

    // The line of the rules of an event of a history, if it is asked for: what it may be counted as is looked up before
    // it is run.
    fn run_event(&mut self, event: &Event, line: u64) -> Result<Bytes, OutOfMemory>
        requires number { line < 2 ^ 26 }
        requires early { IsEarly self.old.running line }
        requires allowed { IsAllowed event.now }
        ensures came { (past : CoverPast) → FollowsCover self.old past → IfOk result (CoverCame
            (ran_cover past event.now) self.new) }
        ensures early { OnOk result (IsEarly self.new.running (line + 1)) }
    {
        let before = self.coverage.look(self.alloc, self.running.world(), event)?;
        let verdict = self.running.step(event, line)?;
        let told = before.rules(self.alloc, event, &verdict)?;
        let after = draws(self.running.world());
        self.coverage.count(event, &verdict, &before, &told, after)?;
        self.event_text(&told)
    }

    // The same of an event of a script.
    fn run_script_event(&mut self, event: ScriptEvent, line: u64) -> Result<Bytes, LineError>
        requires number { line < 2 ^ 26 }
        requires early { IsEarly self.old.running line }
        requires allowed { IsAllowedInScript event }
        ensures came { (past : CoverPast) → FollowsCover self.old past → IfOk result (CoverCame
            (ran_script_cover past event) self.new) }
        ensures early { OnOk result (IsEarly self.new.running (line + 1)) }
        ensures memory { IfErr result (λ e. e ≡ LineError.Memory) }
    {
        events_are_allowed();
        let event = event_of(self.running.plan(), event);
        match self.run_event(&event, line) {
            Ok(text) => Ok(text),
            Err(_) => Err(LineError::Memory),
        }
    }
}

impl LineWork for CoverWork {
    ghost Past = { CoverPast };

    ghost follows = { λ w past. FollowsCover w past };

    ghost fits = { λ w n. IsEarly w.running n };

    ghost advance = { λ past n line. cover_line past n line };

    ghost closing = { λ past. cover_closing past };

    ghost may_lack = { ⊥ };

    ghost long_lines = { λ past n line long. long_covered past n line long };

    ghost whole_lines = { λ past n line. whole_covered past n line };

    fn line(&mut self, number: u64, line: &[u8]) -> Result<Bytes, LineError> {
        match asked(self.alloc, line) {
            Err(e) => Err(e),
            Ok(None) => Ok(self.nothing()),
            Ok(Some(event)) => self.run_script_event(event, number),
        }
    }

    fn end(&self) -> End {
        End::Done
    }

    fn closing(&self) -> Result<Bytes, OutOfMemory> {
        counts_text(self.alloc, &self.coverage)
    }
}

// Runs a script on the links of a plan, and counts the rules that answer.
fn cover_script<S: Shelf, O: Sink>(
    alloc: Global,
    plan: Plan,
    script: &str,
    events: bool,
    shelf: &mut S,
    out: &mut O,
) -> Result<End, Fault>
    requires { FitsPlan plan }
    ensures { FileRun (on_plan_task (cover_due events) (covered_so_far events) ⊥ plan script.now)
        (S.seen shelf.old) (S.seen shelf.new) (O.seen out.old) (O.seen out.new) result }
{
    let Ok(world) = World::make(alloc, plan) else {
        return Err(Fault::Memory);
    };
    match CoverWork::new(alloc, events, world) {
        Err(_) => Err(Fault::Memory),
        Ok(mut work) => run_file(alloc, &mut work, script, shelf, out),
    }
}

/// `cover TOPOLOGY SCRIPT [--events]`: how often each rule that can answer did, over the events of a script on the
/// lines of a topology, and at how many arrivals a tag verified on a unit that its partner had not sealed; before that,
/// if `events` is set, the rules of each event, as it comes.
#[inline(never)]
pub fn cover<S: Shelf, O: Sink>(
    alloc: Global,
    topology: &str,
    script: &str,
    events: bool,
    shelf: &mut S,
    out: &mut O,
) -> Result<End, Fault>
    ensures { FileRun (cover_task events topology.now script.now) (S.seen shelf.old) (S.seen shelf.new)
        (O.seen out.old) (O.seen out.new) result }
{
    match load(alloc, shelf, topology) {
        Err(e) => Err(e),
        Ok(Loaded::Sound(plan)) => cover_script(alloc, plan, script, events, shelf, out),
        Ok(Loaded::Faulty(fault)) => refuse(alloc, &fault, out),
        Ok(Loaded::Long) => Ok(End::TooLong),
    }
}
