//! A sink of bytes.
ghost use Rattle.cli_files.specs.Outside.{PutInto, SinkCause, SinkSeen, TakesSome};

/// Why a sink took nothing: the writing failed, or there was no memory.
#[derive(Clone, Copy, Debug, PartialEq, Eq)]
pub enum SinkFault {
    Failed,
    Memory,
}

/// A taker of bytes, in pieces (this profile).
pub trait Sink {
    /// The bytes that were taken, which a sink need not tell, and how many calls failed, up to the last value of
    /// 64 bits.
    ghost seen: { Self → SinkSeen };

    /// Takes the first bytes of a piece, at least one if it has any, and answers how many. After an error the sink
    /// holds what it held. Returns `Failed` only if the count of faults rose, or stands at its last value; `Memory` is
    /// want of memory, and is not counted.
    fn put(&mut self, bytes: &[u8]) -> Result<usize, SinkFault>
        ensures some { TakesSome bytes.now result }
        ensures bytes { PutInto (seen self.old).held (seen self.new).held bytes.now result }
        ensures cause { SinkCause (seen self.old).faults (seen self.new).faults result };
}
