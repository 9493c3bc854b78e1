//! Sinks in memory: chosen calls fail, or none.
ghost use Rattle.std.specs.Prelude.{◌≡◌, ◌↔◌, [], Some, IsTrue, IfErr};
ghost use Rattle.cli_files.specs.Memory.{IsNew, calls_after, fails_now, puts_of};
ghost use Rattle.cli_files.specs.Outside.{PutInto, SinkCause, TakesSome};

use crate::calls::Calls;
use crate::{Sink, SinkFault};
use std::alloc::Global;

/// A sink in memory that tells what it holds. The calls with the listed numbers, from 0, fail and are counted.
#[derive(Drop)]
pub struct MemSink {
    bytes: Vec<u8>,
    calls: Calls,
}

impl MemSink {
    /// It holds nothing, and these calls will fail.
    pub fn new(alloc: Global, failing: Vec<u64>) -> MemSink
        ensures held { (⟦<MemSink as Sink>⟧.seen result).held ≡ Some [] }
        ensures faults { (⟦<MemSink as Sink>⟧.seen result).faults ≡ 0 }
        ensures calls { IsNew (puts_of result) failing.items }
    {
        MemSink {
            bytes: Vec::new(alloc),
            calls: Calls::new(failing),
        }
    }

    /// The bytes that it holds.
    pub fn bytes(&self) -> &[u8]
        ensures { Some result.now ≡ (⟦<MemSink as Sink>⟧.seen self.now).held }
    {
        &self.bytes
    }
}

// Takes a whole piece, or nothing for want of memory.
fn take_piece(held: &mut Vec<u8>, piece: &[u8]) -> Result<usize, SinkFault>
    ensures some { TakesSome piece.now result }
    ensures bytes { PutInto (Some held.old.items) (Some held.new.items) piece.now result }
    ensures memory { IfErr result (λ e. e ≡ SinkFault.Memory) }
{
    match held.extend_from_slice(piece) {
        Ok(()) => Ok(piece.len()),
        Err(_) => Err(SinkFault::Memory),
    }
}

impl Sink for MemSink {
    ghost seen = { λ s. record { held = Some s.bytes.items; faults = s.calls.faults } };

    fn put(&mut self, bytes: &[u8]) -> Result<usize, SinkFault>
        ensures some { TakesSome bytes.now result }
        ensures bytes { PutInto (⟦<MemSink as Sink>⟧.seen self.old).held (⟦<MemSink as Sink>⟧.seen self.new).held
            bytes.now result }
        ensures cause { SinkCause (⟦<MemSink as Sink>⟧.seen self.old).faults (⟦<MemSink as Sink>⟧.seen self.new).faults
            result }
        ensures calls { puts_of self.new ≡ calls_after (puts_of self.old) }
        ensures fails { (result ≡ Err SinkFault.Failed) ↔ IsTrue (fails_now (puts_of self.old)) }
    {
        if self.calls.next_fails() {
            return Err(SinkFault::Failed);
        }
        take_piece(&mut self.bytes, bytes)
    }
}

/// A sink in memory that tells what it holds, and never fails but for want of memory.
#[derive(Drop)]
pub struct TrueSink {
    held: Vec<u8>,
}

impl TrueSink {
    /// It holds nothing.
    pub fn new(alloc: Global) -> TrueSink
        ensures { (⟦<TrueSink as Sink>⟧.seen result).held ≡ Some [] }
    {
        TrueSink {
            held: Vec::new(alloc),
        }
    }

    /// The bytes that it holds.
    pub fn bytes(&self) -> &[u8]
        ensures { Some result.now ≡ (⟦<TrueSink as Sink>⟧.seen self.now).held }
    {
        &self.held
    }
}

impl Sink for TrueSink {
    ghost seen = { λ s. record { held = Some s.held.items; faults = 0 } };

    fn put(&mut self, bytes: &[u8]) -> Result<usize, SinkFault> {
        take_piece(&mut self.held, bytes)
    }
}
