//! Whole texts to a sink.
ghost use Rattle.std.specs.Prelude.{◌≡◌, IfOk};
ghost use Rattle.file_runs.specs.Gain.{WriteCause, WritesAll};
ghost use Rattle.file_runs.specs.Outcome.{Ran, Wrote};

use crate::{End, Fault};
use cli_files::{Sink, SinkFault};

// Writes all of a text, piece by piece.
fn write_all<O: Sink>(out: &mut O, text: &[u8]) -> Result<(), SinkFault>
    ensures bytes { WritesAll (O.seen out.old).held (O.seen out.new).held text.now result }
    ensures cause { WriteCause (O.seen out.old).faults (O.seen out.new).faults result }
{
    let mut rest = text;
    while !rest.is_empty() {
        let n = out.put(rest)?;
        rest = &rest[n..];
    }
    Ok(())
}

/// Writes a whole text. Returns `Fault::Write` if the sink failed, `Fault::Memory` for want of memory.
pub fn write<O: Sink>(out: &mut O, text: &[u8]) -> Result<(), Fault>
    ensures { Wrote text.now (O.seen out.old) (O.seen out.new) result }
{
    match write_all(out, text) {
        Ok(()) => Ok(()),
        Err(SinkFault::Failed) => Err(Fault::Write),
        Err(SinkFault::Memory) => Err(Fault::Memory),
    }
}

/// Writes the last text, and answers this end. Fails as `write` does.
pub fn finish<O: Sink>(out: &mut O, end: End, text: &[u8]) -> Result<End, Fault>
    ensures end { IfOk result (λ e. e ≡ end) }
    ensures ran { Ran (end, text.now) (O.seen out.old) (O.seen out.new) result }
{
    match write(out, text) {
        Ok(()) => Ok(end),
        Err(e) => Err(e),
    }
}
