//! Generated events that are run one after another.

ghost use Rattle.std.specs.Prelude.{◌≡◌, ◌≤◌, ◌++◌, [], IfOk, codes, length};
ghost use Rattle.std.specs.Fmt.{decimal};
ghost use Rattle.std.specs.List.{AllByRecursion};
ghost use Rattle.history_events.specs.GeneratedEvents.{generated_events};
ghost use Rattle.history_events.specs.GeneratedTopology.{the_plan};
ghost use Rattle.file_runs.specs.Outcome.{Ran};
ghost use Rattle.script_events.specs.Spells.{IsAllowed};
ghost use Rattle.law_text.specs.Runs.{history_on};
ghost use Rattle.event_verdicts.specs.Lines.{totals_line_of};
ghost use Rattle.script_runs.specs.Generated.{generated_due, generated_history, generated_line};
ghost use Rattle.script_runs.specs.Works.{Follows, IsEarly};

use crate::script::Running;
use cli_files::Sink;
use event_verdicts::totals_line;
use file_runs::{End, Fault, finish};
use history_events::{Generator, generated_are_allowed, topology};
use ide_types::OutOfMemory;
use std::alloc::Global;
use world::World;

// The world of the generated topology, before the first event.
fn first_world(alloc: Global) -> Result<Running, OutOfMemory>
    ensures follows { IfOk result (λ r. Follows r (record { plan = the_plan; history = [] })) }
    ensures early { IfOk result (λ r. IsEarly r 1) }
{
    let plan = topology(alloc)?;
    let world = World::make(alloc, plan)?;
    Ok(Running::new(world))
}

// Gives each event that is left to the world as it is made.
fn run_left(alloc: Global, left: Generator, running: Running) -> Result<Running, OutOfMemory>
    requires follows { Follows running (record { plan = the_plan; history = [] }) }
    requires early { IsEarly running 1 }
    requires few { length left ≤ 1000000 }
    requires allowed { AllByRecursion IsAllowed left }
    ensures { IfOk result (λ r. Follows r (record { plan = the_plan; history = history_on the_plan [] left })) }
{
    let mut left = left;
    let mut running = running;
    let mut number = 1;
    'events: while let Some(event) = left.next(alloc)? {
        running.step(&event, number)?;
        number += 1;
    }
    Ok(running)
}

// The world after all events of a seed and a number of rounds.
fn last_world(alloc: Global, seed: u32, count: u32) -> Result<Running, OutOfMemory>
    requires { count ≤ 100000 }
    ensures { IfOk result (λ r. Follows r (record { plan = the_plan; history = generated_history seed count })) }
{
    generated_are_allowed();
    let running = first_world(alloc)?;
    run_left(alloc, Generator::new(seed, count), running)
}

// The line of how many events came, and of their totals.
fn line_of(alloc: Global, running: &Running) -> Result<Vec<u8>, OutOfMemory>
    ensures { IfOk result (λ text. text.items ≡ codes "generated " ++ decimal running.now.world.steps ++ codes " "
        ++ totals_line_of running.now.totals) }
{
    let events = running.events();
    let totals = totals_line(alloc, &running.totals())?;
    let mut text = format!(in alloc; "generated {events} ")?.into_bytes();
    text.extend_from_slice(&totals)?;
    Ok(text)
}

// The line of all events of a seed and a number of rounds.
fn generated_text(alloc: Global, seed: u32, count: u32) -> Result<Vec<u8>, OutOfMemory>
    requires { count ≤ 100000 }
    ensures { IfOk result (λ text. text.items ≡ generated_line (generated_history seed count)) }
{
    let running = last_world(alloc, seed, count)?;
    line_of(alloc, &running)
}

/// `generate SEED COUNT`: how many events a seed gives in so many rounds, and the totals of their verdicts.
#[inline(never)]
pub fn generate<O: Sink>(alloc: Global, seed: u32, count: u32, out: &mut O) -> Result<End, Fault>
    requires { count ≤ 100000 }
    ensures { Ran (generated_due seed count) (O.seen out.old) (O.seen out.new) result }
{
    match generated_text(alloc, seed, count) {
        Ok(text) => finish(out, End::Done, &text),
        Err(_) => Err(Fault::Memory),
    }
}
