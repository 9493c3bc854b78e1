//! The command `why`: one event of a script, told with what its verdict came from.

ghost use Rattle.std.specs.Prelude.{◌≡◌, ◌+◌, ◌<◌, ◌^◌, [], IfErr, IfOk, OnOk};
ghost use Rattle.ide_types.specs.Fits.{FitsPlan};
ghost use Rattle.file_runs.specs.FileRuns.{FileRun};
ghost use Rattle.script_events.specs.Spells.{IsAllowed, IsAllowedInScript};
ghost use Rattle.event_verdicts.specs.Lines.{line_of};
ghost use Rattle.ide_runs.specs.LineLaws.{long_told, whole_told};
ghost use Rattle.ide_runs.specs.Tasks.{why_task};
ghost use Rattle.script_runs.specs.Tasks.{on_plan_task};
ghost use Rattle.ide_runs.specs.Why.{EventIsTold, FollowsWhy, WhyCame, WhyPast, no_event_line, ran_script_why, ran_why};
ghost use Rattle.ide_runs.specs.Why.{told_due, told_so_far, why_closing, why_line};
ghost use Rattle.script_runs.specs.Works.{Follows, IsEarly, ScriptPast};

use cli_files::{Shelf, Sink};
use file_runs::{End, Fault, LineWork, run_file};
use history_events::{event_of, events_are_allowed};
use ide_types::{Bytes, OutOfMemory, Plan};
use ide_why::{facts, why_text};
use script_events::{Event, LineError, ScriptEvent};
use script_runs::{Loaded, Running, World, asked, load, refuse};
use std::alloc::Global;
use std::marker::Model;

// The world that runs up to the event of a number, and the memory for the text of that event.
#[derive(Drop)]
struct WhyWork {
    alloc: Global,
    number: u64,
    running: Running,
}

impl Model for WhyWork {
    ghost use Rattle.ide_runs.specs.Why.{WhyView};

    ghost Value = { WhyView };

    ghost view = { λ w. record { number = w.number; running = w.running } };
}

// The line for a script that has no event of a number.
fn no_event(alloc: Global, number: u64, events: u64) -> Result<Bytes, OutOfMemory>
    ensures { IfOk result (λ text. text ≡ no_event_line number events) }
{
    let text = format!(in alloc; "no event {number}: the script has {events}\n")?;
    Ok(Bytes::new(text.into_bytes()))
}

impl WhyWork {
    // The world before the first event.
    fn new(alloc: Global, number: u64, world: World) -> WhyWork
        ensures { result ≡ record {
          number = number;
          running = record {
            world = world;
            totals = record {
              sealed = 0;
              accepted = 0;
              failed = 0;
              blocked = 0;
            };
          };
        } }
    {
        WhyWork {
            alloc,
            number,
            running: Running::new(world),
        }
    }

    // No text.
    fn nothing(&self) -> Bytes
        ensures { result ≡ [] }
    {
        Bytes::new(Vec::new(self.alloc))
    }

    // The text of the next event, which is the one that is told: what its verdict comes from is looked up before it is
    // run.
    fn tell(&mut self, event: &Event, line: u64) -> Result<Bytes, OutOfMemory>
        requires number { line < 2 ^ 26 }
        requires early { IsEarly self.old.running line }
        requires allowed { IsAllowed event.now }
        ensures came { (past : ScriptPast) → Follows self.old.running past → IfOk result
            (EventIsTold past event.now self.new.running) }
        ensures same { self.new.number ≡ self.old.number }
        ensures early { OnOk result (IsEarly self.new.running (line + 1)) }
    {
        let facts = facts(self.alloc, self.running.world(), event)?;
        let verdict = self.running.step(event, line)?;
        let reasons = why_text(self.alloc, event, &verdict, &facts)?;
        let mut text = self.running.verdict_line(self.alloc, verdict)?;
        text.extend_from_slice(&reasons)?;
        Ok(Bytes::new(text))
    }

    // The text of an event of a history: none but if it is the one that is told. One after it is not run.
    fn run_event(&mut self, event: &Event, line: u64) -> Result<Bytes, OutOfMemory>
        requires number { line < 2 ^ 26 }
        requires early { IsEarly self.old.running line }
        requires allowed { IsAllowed event.now }
        ensures came { (past : WhyPast) → FollowsWhy self.old past → IfOk result (WhyCame (ran_why past event.now)
            self.new) }
        ensures early { OnOk result (IsEarly self.new.running (line + 1)) }
    {
        let next = self.running.events() + 1;
        if next < self.number {
            self.running.step(event, line)?;
            return Ok(self.nothing());
        }
        if self.number < next {
            return Ok(self.nothing());
        }
        self.tell(event, line)
    }

    // The same of an event of a script.
    fn run_script_event(&mut self, event: ScriptEvent, line: u64) -> Result<Bytes, LineError>
        requires number { line < 2 ^ 26 }
        requires early { IsEarly self.old.running line }
        requires allowed { IsAllowedInScript event }
        ensures came { (past : WhyPast) → FollowsWhy self.old past → IfOk result (WhyCame (ran_script_why past event)
            self.new) }
        ensures early { OnOk result (IsEarly self.new.running (line + 1)) }
        ensures memory { IfErr result (λ e. e ≡ LineError.Memory) }
    {
        events_are_allowed();
        let event = event_of(self.running.plan(), event);
        match self.run_event(&event, line) {
            Ok(text) => Ok(text),
            Err(_) => Err(LineError::Memory),
        }
    }
}

impl LineWork for WhyWork {
    ghost Past = { WhyPast };

    ghost follows = { λ w past. FollowsWhy w past };

    ghost fits = { λ w n. IsEarly w.running n };

    ghost advance = { λ past n line. why_line past n line };

    ghost closing = { λ past. why_closing past };

    ghost may_lack = { Unit {0} };

    ghost long_lines = { λ past n line long. long_told past n line long };

    ghost whole_lines = { λ past n line. whole_told past n line };

    fn line(&mut self, number: u64, line: &[u8]) -> Result<Bytes, LineError> {
        match asked(self.alloc, line) {
            Err(e) => Err(e),
            Ok(None) => Ok(self.nothing()),
            Ok(Some(event)) => self.run_script_event(event, number),
        }
    }

    fn end(&self) -> End {
        if self.running.events() < self.number {
            End::NoEvent
        } else {
            End::Done
        }
    }

    fn closing(&self) -> Result<Bytes, OutOfMemory> {
        if self.running.events() < self.number {
            no_event(self.alloc, self.number, self.running.events())
        } else {
            Ok(self.nothing())
        }
    }
}

// Runs a script on the links of a plan up to the event of a number, and tells that event.
fn why_script<S: Shelf, O: Sink>(
    alloc: Global,
    plan: Plan,
    script: &str,
    number: u32,
    shelf: &mut S,
    out: &mut O,
) -> Result<End, Fault>
    requires { FitsPlan plan }
    ensures { FileRun (on_plan_task (told_due number) (told_so_far number) (Unit {0}) plan script.now)
        (S.seen shelf.old) (S.seen shelf.new) (O.seen out.old) (O.seen out.new) result }
{
    match World::make(alloc, plan) {
        Err(_) => Err(Fault::Memory),
        Ok(world) => {
            let mut work = WhyWork::new(alloc, number as u64, world);
            run_file(alloc, &mut work, script, shelf, out)
        }
    }
}

/// `why TOPOLOGY SCRIPT N`: the verdict line of event N of a script on the lines of a topology, and what the verdict
/// came from, one fact a line; or that the script has no such event. The script is read to its end, as by `run`; events
/// after N are not run.
#[inline(never)]
pub fn why<S: Shelf, O: Sink>(
    alloc: Global,
    topology: &str,
    script: &str,
    number: u32,
    shelf: &mut S,
    out: &mut O,
) -> Result<End, Fault>
    ensures { FileRun (why_task number topology.now script.now) (S.seen shelf.old) (S.seen shelf.new)
        (O.seen out.old) (O.seen out.new) result }
{
    match load(alloc, shelf, topology) {
        Err(e) => Err(e),
        Ok(Loaded::Sound(plan)) => why_script(alloc, plan, script, number, shelf, out),
        Ok(Loaded::Faulty(fault)) => refuse(alloc, &fault, out),
        Ok(Loaded::Long) => Ok(End::TooLong),
    }
}
