//! What was sealed, as the verdicts describe it, and which establishes began.

ghost use Rattle.std.specs.Prelude.{◌≡◌, ◌==◌, OnOk, [], length};
ghost use Rattle.rule_counts.specs.Seals.{base_after, bases_noted, noted, sealed_in};

use event_verdicts::{SealedPacket, Verdict};
use ide_types::OutOfMemory;
use script_events::Event;
use std::alloc::Global;
use std::marker::Model;

/// An establish that began: its stream, by its line and its ID there, and its draw (this profile).
#[derive(Clone, Copy, PartialEq, Eq)]
pub struct Base {
    pub line: u64,
    pub stream: u64,
    pub draw: u32,
}

/// The packets that were sealed, in order, as their verdicts describe them, and the establishes that began (this
/// profile).
#[derive(Drop)]
pub struct Seals {
    packets: Vec<SealedPacket>,
    bases: Vec<Base>,
}

impl Model for Seals {
    ghost use Rattle.rule_counts.specs.Seals.{SealsView};

    ghost Value = { SealsView };

    ghost view = { λ s. record { packets = s.packets.items; bases = s.bases.items } };
}

// The draw of the last of these establishes that began on the stream, or 0.
fn base_in(bases: &[Base], line: u64, stream: u64) -> u32
    ensures { result ≡ base_after 0 bases.now line stream }
{
    let mut found = 0;
    for base in bases {
        if base.line == line && base.stream == stream {
            found = base.draw;
        }
    }
    found
}

impl Seals {
    /// Nothing was sealed, and no establish began.
    pub fn new(alloc: Global) -> Seals
        ensures { result ≡ record { packets = []; bases = [] } }
    {
        Seals {
            packets: Vec::new(alloc),
            bases: Vec::new(alloc),
        }
    }

    /// The packets, lent.
    pub(crate) fn packets(&self) -> &[SealedPacket]
        ensures { result.now ≡ self.now.packets }
    {
        &self.packets
    }

    /// The draw of the last establish of a stream that began, or 0.
    pub(crate) fn base(&self, line: u64, stream: u64) -> u32
        ensures { result ≡ base_after 0 self.now.bases line stream }
    {
        base_in(&self.bases, line, stream)
    }

    // Notes an establish that began.
    fn note_base(&mut self, event: &Event, before: u32, after: u32) -> Result<(), OutOfMemory>
        ensures { OnOk result (self.new ≡ record self.old {
          bases = bases_noted self.old.bases event.now
              (before == after) before;
        }) }
    {
        match event {
            Event::Establish { line, stream, .. } if before != after => {
                self.bases.push(Base {
                    line: *line,
                    stream: *stream,
                    draw: before,
                })?;
                Ok(())
            }
            _ => Ok(()),
        }
    }

    /// Notes what an event sealed, and the establish that began with it: so many draws were made before and after.
    pub fn note(
        &mut self,
        event: &Event,
        verdict: &Verdict,
        before: u32,
        after: u32,
    ) -> Result<(), OutOfMemory>
        ensures { OnOk result (self.new ≡ noted self.old event.now verdict.now before after) }
    {
        if let Verdict::Sealed { packets } = verdict {
            self.packets.extend_from_slice(packets.as_slice())?;
        }
        self.note_base(event, before, after)
    }
}
