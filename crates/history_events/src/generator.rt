//! Generated events, one after another.

ghost use Rattle.std.specs.Prelude.{◌≡◌, ◌<◌, ◌≤◌, ◌^◌};
ghost use Rattle.history_events.specs.GeneratedEvents.{generated_events};
ghost use Rattle.history_events.specs.Left.{Takes};

use crate::numbers::Numbers;
use crate::step::Step;
use ide_types::OutOfMemory;
use script_events::Event;
use std::alloc::Global;
use std::marker::Model;

/// The events that a seed and a number of rounds give, made one after another (this profile). Contracts see the events
/// that are left.
#[derive(Drop)]
pub struct Generator {
    numbers: Numbers,
    rounds: u32,
    ahead: Option<Step>,
}

impl Model for Generator {
    ghost use Rattle.std.specs.Prelude.{◌<◌, ◌≤◌, ◌+◌, ◌*◌, ◌^◌, List};
    ghost use Rattle.script_events.specs.declared.event.Event.{Event};
    ghost use Rattle.history_events.specs.Left.{events_left};

    ghost Value = { List Event };

    ghost view = { λ g. events_left g.ahead g.rounds g.numbers };

    ghost invariant = { λ g. (g.numbers.packets + 3 * g.rounds < 2 ^ 62)
        × (g.numbers.arriving ≤ g.numbers.packets + 1) };
}

impl Generator {
    /// All events of a seed and a number of rounds.
    pub fn new(seed: u32, rounds: u32) -> Generator
        ensures { result ≡ generated_events seed rounds }
    {
        let numbers = Numbers {
            x: seed,
            packets: 0,
            arriving: 1,
            posted: 0,
        };
        Generator {
            numbers,
            rounds,
            ahead: Some(Step::Establish),
        }
    }

    /// The next event; `None` if none is left. It takes memory for the bytes of a memory write alone; for want of it
    /// the event is still left.
    pub fn next(&mut self, alloc: Global) -> Result<Option<Event>, OutOfMemory>
        ensures { Takes self.old result self.new }
    {
        if let Some(step) = self.ahead {
            self.ahead = step.after();
            return Ok(Some(step.event()));
        }
        if self.rounds == 0 {
            return Ok(None);
        }
        let round = self.numbers.round(alloc)?;
        self.rounds -= 1;
        self.ahead = round.ahead;
        self.numbers = round.numbers;
        Ok(Some(round.event))
    }
}
