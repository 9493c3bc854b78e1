//! The reads that wait at a port (this profile).

ghost use Rattle.std.specs.Prelude.{◌≡◌, ◌≤◌, [], IfOk, IfSome, None, length, drop};
ghost use Rattle.std.specs.List.{slice_get};
ghost use Rattle.trusted_memory.specs.Requests.{FitsRead};

use crate::{Grant, MemReadView, Trusted};
use event_verdicts::{BlockCause, Effect};
use ide_types::{OutOfMemory, PortName};
use std::alloc::Global;
use std::collections::VecDeque;
use std::marker::Model;

/// The most reads that may wait at a port.
pub const MOST_WAITING: usize = 64;

/// What a read of a device's memory is of: an interface, by its place on its link, and its BAR, by its number.
#[derive(Clone, Copy, PartialEq, Eq)]
pub struct ReadTarget {
    pub interface: usize,
    pub bar: usize,
}

/// How a read came to a port.
#[derive(Clone, Copy, PartialEq, Eq)]
pub struct ReadArrival {
    /// The end of the line that it came on, at this port.
    pub end: PortName,
    /// The ID of its stream.
    pub stream: u8,
    /// The draw of the key of the unit that brought it.
    pub draw: u32,
    /// Whether it had T.
    pub trusted: bool,
}

/// A read that waits for its answer.
#[derive(Clone, Copy, PartialEq, Eq)]
pub struct WaitingRead {
    /// The read.
    pub read: MemReadView,
    /// How it came.
    pub came: ReadArrival,
    /// The interface and BAR that claimed it; `None` of a read of trusted memory.
    pub target: Option<ReadTarget>,
}

/// The reads that wait at a port for their answer, at most 64. Contracts see the list of them,
/// oldest first. It has room for all of them from the start.
#[derive(Drop)]
pub struct Reads {
    waiting: VecDeque<WaitingRead>,
}

impl Model for Reads {
    ghost use Rattle.std.specs.Prelude.{List};
    ghost use Rattle.std.specs.VecDeque.{deque_capacity};
    ghost use Rattle.trusted_memory.specs.declared.queue.WaitingRead.{WaitingRead};
    ghost use Rattle.trusted_memory.specs.Waiting.{AreKept};

    ghost Value = { List WaitingRead };

    ghost view = { λ r. r.waiting.items };

    ghost invariant = { λ r. AreKept r.waiting.items (deque_capacity r.waiting) };
}

impl Reads {
    ghost use Rattle.trusted_memory.specs.Waiting.{full_cause, read_cause, read_effect, waiting_after};

    /// No reads, with room for as many as may wait.
    pub fn make(alloc: Global) -> Result<Reads, OutOfMemory>
        ensures { IfOk result (λ reads. reads ≡ []) }
    {
        let waiting = VecDeque::with_capacity(alloc, MOST_WAITING)?;
        Ok(Reads { waiting })
    }

    /// How many wait, at most 64.
    pub fn waiting(&self) -> usize
        ensures count { result ≡ length self.now }
        ensures most { result ≤ 64 }
    {
        self.waiting.len()
    }

    /// One more, unless as many wait as may.
    pub fn push(&mut self, read: WaitingRead) -> Effect
        requires { FitsRead read.read }
        ensures effect { result ≡ read_effect (full_cause (length self.old)) }
        ensures reads { self.new ≡ waiting_after result read self.old }
    {
        if self.waiting.len() >= MOST_WAITING {
            return Effect::Blocked(BlockCause::Full);
        }
        let _ = self.waiting.push_back(read);
        Effect::Queued
    }

    /// Offers a memory read with T that a host's port accepted: it waits as the last, or is blocked by the first cause
    /// that holds. The causes are those of a trusted write to the same bytes, and then that 64 reads wait. A blocked
    /// read changes nothing. That the fields of the read are in range is the caller's condition. It takes no memory.
    pub fn offer(
        &mut self,
        memory: &Trusted,
        read: &MemReadView,
        came: ReadArrival,
        grant: Grant,
    ) -> Effect
        requires { FitsRead read.now }
        ensures effect { result ≡ read_effect
            (read_cause memory.now.contents.regions read.now.span grant (length self.old)) }
        ensures reads { self.new ≡ waiting_after result
            (record { read = read.now; came = came; target = None }) self.old }
    {
        match memory.block_cause(read.span, true, grant) {
            Some(cause) => Effect::Blocked(cause),
            None => self.push(WaitingRead {
                read: *read,
                came,
                target: None,
            }),
        }
    }

    /// The oldest read that waits; `None` exactly if none waits.
    pub fn first(&self) -> Option<WaitingRead>
        ensures oldest { result ≡ slice_get self.now 0 }
        // So it can be completed.
        ensures fits { IfSome result (λ oldest. FitsRead oldest.read) }
    {
        self.waiting.front().copied()
    }

    /// Removes the oldest read. That one waits is the caller's condition.
    pub fn remove_first(&mut self)
        requires { 1 ≤ length self.old }
        ensures { self.new ≡ drop 1 self.old }
    {
        let _ = self.waiting.pop_front();
    }

    /// Drops all reads, as a reset of the link does.
    pub fn clear(&mut self)
        ensures { self.new ≡ [] }
    {
        self.waiting.clear();
    }
}
