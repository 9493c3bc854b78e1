//! A session: the lines of a script, one by one, on the links of a topology.

ghost use Rattle.std.specs.Prelude.{◌≡◌, ◌<◌, ◌+◌, ◌^◌, ◌↔◌, IfOk, IfSome, IsTrue, IsSome, None, Some, [], false};
ghost use Rattle.std.specs.Option.{option_map};
ghost use Rattle.script_runs.specs.Works.{Follows, IsEarly, MayAsk, ScriptPast};

use crate::given::{Given, event_given, hex_line, no_event};
use file_runs::LineWork;
use ide_types::{Bytes, OutOfMemory};
use script_events::{LineError, LineFault, ScriptEvent};
use script_runs::{ScriptWork, World, asked};
use std::alloc::Global;

/// How many lines a session takes (this profile).
const MOST_LINES: u64 = 67_108_862;

/// A session that goes on: what runs, and how many lines came.
#[derive(Drop)]
pub struct Live {
    pub(crate) work: ScriptWork,
    pub(crate) lines: u64,
    ghost few: { lines < 2 ^ 26 },
    ghost early: { IsEarly work (lines + 1) },
}

/// A session: it goes on or is over, whether it keeps what verdicts come from, and what its last line gave.
#[derive(Drop)]
pub struct Session {
    pub(crate) slot: Option<Live>,
    pub(crate) explains: bool,
    pub(crate) last: Given,
}

/// Why a line was not run.
#[derive(Clone, Copy, PartialEq, Eq)]
pub enum NotRun {
    /// The line is not spelled.
    Fault(LineFault),
    /// The session has had as many lines as it takes.
    Full,
    /// There was no memory.
    Memory,
}

impl Live {
    ghost use Rattle.ide_session.specs.Sessions.{IsTotals, MeaningGave, MeaningTold, packet_text};

    // The world before the first event.
    fn new(alloc: Global, world: World) -> Live
        requires { world.steps ≡ 0 }
        ensures world { result.work.world ≡ world }
        ensures totals { result.work.totals ≡ record { sealed = 0; accepted = 0; failed = 0; blocked = 0 } }
        ensures lines { result.lines ≡ 0 }
    {
        Live {
            work: ScriptWork::new(alloc, world),
            lines: 0,
        }
    }

    // What a line gives that asks for this event, or for none. The session is over if there is no memory.
    fn run(
        self,
        alloc: Global,
        event: Option<ScriptEvent>,
        explains: bool,
    ) -> Result<(Live, Given), OutOfMemory>
        requires few { self.lines < 67108862 }
        requires allowed { MayAsk event }
        ensures gave { IfOk result (λ p. MeaningGave self.work event p.0.work p.1.text) }
        ensures told { IfOk result (λ p. MeaningTold self.work explains event p.1.reasons) }
        ensures lines { IfOk result (λ p. p.0.lines ≡ self.lines + 1) }
    {
        let Live { work, lines } = self;
        let mut work = work;
        let lines = lines + 1;
        match event {
            None => Ok((Live { work, lines }, no_event(alloc, explains))),
            Some(event) => match event_given(alloc, &mut work, event, lines, explains) {
                Err(_) => Err(OutOfMemory),
                Ok(given) => Ok((Live { work, lines }, given)),
            },
        }
    }

    // The line of the totals.
    fn totals(&self) -> Result<Bytes, OutOfMemory>
        ensures { IfOk result (λ text. IsTotals self.now.work text) }
    {
        self.work.closing()
    }

    // The line of a packet's bytes; `None` if there is no packet of this number.
    fn packet(&self, alloc: Global, number: u64) -> Result<Option<Bytes>, OutOfMemory>
        ensures { (past : ScriptPast) → Follows self.now.work past → IfOk result
            (λ text. text ≡ packet_text past number) }
    {
        match self.work.world().links().links.packets.get(number) {
            None => Ok(None),
            Some((_, bytes)) => {
                let line = hex_line(alloc, bytes)?;
                Ok(Some(Bytes::new(line)))
            }
        }
    }
}

impl Session {
    ghost use Rattle.ide_session.specs.Sessions.{SessionEventCame, LineCame, IsPacket, IsTotals, explaining, going_of};

    /// The session of a world before the first event.
    pub(crate) fn new(alloc: Global, world: World) -> Session
        requires { world.steps ≡ 0 }
        ensures { going_of result ≡ Some (record {
          running = record {
            world = world;
            totals = record {
              sealed = 0;
              accepted = 0;
              failed = 0;
              blocked = 0;
            };
          };
          lines = 0;
          explains = false;
          text = [];
          reasons = None;
        }) }
    {
        Session {
            slot: Some(Live::new(alloc, world)),
            explains: false,
            last: no_event(alloc, false),
        }
    }

    /// Whether the session goes on.
    pub(crate) fn goes_on(&self) -> bool
        ensures { IsTrue result ↔ IsSome (going_of self.now) }
    {
        self.slot.is_some()
    }

    // Runs what a line asks for: an event, or none.
    fn run(&mut self, alloc: Global, event: Option<ScriptEvent>) -> Result<(), NotRun>
        requires allowed { MayAsk event }
        ensures { SessionEventCame (going_of self.old) event (going_of self.new) result }
    {
        match self.slot.take() {
            None => Err(NotRun::Memory),
            Some(live) => {
                if live.lines >= MOST_LINES {
                    self.slot = Some(live);
                    return Err(NotRun::Full);
                }
                match live.run(alloc, event, self.explains) {
                    Err(_) => Err(NotRun::Memory),
                    Ok((live, given)) => {
                        self.slot = Some(live);
                        self.last = given;
                        Ok(())
                    }
                }
            }
        }
    }

    /// Runs the next line, and keeps its text. A line that is not spelled leaves the session as it was; want of memory
    /// leaves it so, or ends it.
    pub(crate) fn step(&mut self, alloc: Global, line: &[u8]) -> Result<(), NotRun>
        requires { IsSome (going_of self.old) }
        ensures { LineCame (going_of self.old) line.now (going_of self.new) result }
    {
        match asked(alloc, line) {
            Err(LineError::Memory) => Err(NotRun::Memory),
            Err(LineError::Fault(fault)) => Err(NotRun::Fault(fault)),
            Ok(event) => self.run(alloc, event),
        }
    }

    /// The number of the next line.
    pub(crate) fn next_number(&self) -> u64
        ensures { IfSome (going_of self.now) (λ s. result ≡ s.lines + 1) }
    {
        match &self.slot {
            Some(live) => live.lines + 1,
            None => 0,
        }
    }

    /// Keeps what verdicts come from, from the next line on, or no more.
    pub(crate) fn explain(&mut self, on: bool)
        ensures { going_of self.new ≡ option_map (explaining on) (going_of self.old) }
    {
        self.explains = on;
    }

    /// The line of the totals.
    pub(crate) fn totals(&self) -> Result<Bytes, OutOfMemory>
        ensures { IfSome (going_of self.now) (λ s. IfOk result (λ text. IsTotals s.running text)) }
    {
        match &self.slot {
            Some(live) => live.totals(),
            None => Err(OutOfMemory),
        }
    }

    /// The line of a packet's bytes, in hex digits; `None` if there is no packet of this number.
    pub(crate) fn packet(&self, alloc: Global, number: u64) -> Result<Option<Bytes>, OutOfMemory>
        ensures { IfSome (going_of self.now) (λ s. IfOk result (λ text. IsPacket s.running number text)) }
    {
        match &self.slot {
            Some(live) => live.packet(alloc, number),
            None => Err(OutOfMemory),
        }
    }
}
