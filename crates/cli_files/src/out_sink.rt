//! Standard output, or another writer.
ghost use Rattle.std.specs.Prelude.{◌≡◌, ◌≤◌, ◌<◌, None, length, IfOk, IfErr};
ghost use Rattle.cli_files.specs.Outside.{PutInto, SinkCause, TakesSome};

use crate::{Sink, SinkFault};
use std::io;
use std::io::Write;

/// A writer as a sink. It tells nothing that it holds, flushes each piece, and counts each call that fails: also
/// one at which the writer takes nothing of a piece that has bytes.
#[derive(Drop)]
pub struct OutSink<W> {
    writer: W,
    faults: u64,
}

impl<W: Write> OutSink<W> {
    /// A sink over a writer, such as standard output.
    pub fn new(writer: W) -> OutSink<W>
        ensures { (⟦<OutSink<W> as Sink>⟧.seen result).faults ≡ 0 }
    {
        OutSink { writer, faults: 0 }
    }
}

// Writes some of a piece and flushes it.
fn write_some<W: Write>(writer: &mut W, piece: &[u8]) -> io::Result<usize>
    ensures { IfOk result (λ n. (n ≤ length piece.now) × (0 < length piece.now → 0 < n)) }
{
    let n = writer.write(piece)?;
    writer.flush()?;
    if n == 0 && !piece.is_empty() {
        return Err(io::Error::from(io::ErrorKind::WriteZero));
    }
    Ok(n)
}

impl<W: Write> Sink for OutSink<W> {
    ghost seen = { λ s. record { held = None; faults = s.faults } };

    fn put(&mut self, bytes: &[u8]) -> Result<usize, SinkFault>
        ensures some { TakesSome bytes.now result }
        ensures bytes { PutInto (⟦<OutSink<W> as Sink>⟧.seen self.old).held (⟦<OutSink<W> as Sink>⟧.seen self.new).held
            bytes.now result }
        ensures cause { SinkCause (⟦<OutSink<W> as Sink>⟧.seen self.old).faults
            (⟦<OutSink<W> as Sink>⟧.seen self.new).faults result }
        ensures failed { IfErr result (λ e. e ≡ SinkFault.Failed) }
    {
        match write_some(&mut self.writer, bytes) {
            Ok(n) => Ok(n),
            Err(_) => {
                self.faults = self.faults.saturating_add(1);
                Err(SinkFault::Failed)
            }
        }
    }
}
