//! The TLPs that wait at a switch, in both directions.

ghost use Rattle.std.specs.Prelude.{◌≡◌, ◌+◌, ◌≤◌, ◌++◌, [], ◌∷◌, true, false, drop, length, is_ok, if◌then◌else◌};
ghost use Rattle.std.specs.Prelude.{IsSome, IfSome, ◌↔◌, ◌<◌, slice_index_or, OnOk, OnErr};
ghost use Rattle.hop_queues.specs.Directions.{queue_of, with_queue, all_roomy};

use crate::{HopQueue, HopTlp, MOST_BYTES};
use ide_types::{Direction, OutOfMemory, SubKind};
use std::alloc::Global;

/// The TLPs that wait at the switch of a link's hop: those on their way to the device, and those to the host (this
/// profile).
#[derive(Drop)]
pub struct HopQueues {
    pub downstream: HopQueue,
    pub upstream: HopQueue,
}

impl HopQueues {
    /// No TLPs, and no room yet.
    pub fn new(alloc: Global) -> HopQueues
        ensures { result ≡ record {
          downstream = record { tlps = []; has_room = false };
          upstream = record { tlps = []; has_room = false };
        } }
    {
        HopQueues {
            downstream: HopQueue::new(alloc),
            upstream: HopQueue::new(alloc),
        }
    }

    /// Room for one more TLP in each direction. Where there is no memory for both, those that wait stay.
    pub fn room(&mut self, alloc: Global) -> Result<(), OutOfMemory>
        ensures room { OnOk result (self.new ≡ all_roomy self.old) }
        ensures downstream { self.new.downstream.tlps ≡ self.old.downstream.tlps }
        ensures upstream { self.new.upstream.tlps ≡ self.old.upstream.tlps }
    {
        self.downstream.room(alloc)?;
        self.upstream.room(alloc)
    }

    /// Whether there is room for one more TLP in a direction.
    pub fn has_room(&self, direction: Direction) -> bool
        ensures { result ≡ (queue_of self.now direction).has_room }
    {
        match direction {
            Direction::Downstream => self.downstream.has_room(),
            Direction::Upstream => self.upstream.has_room(),
        }
    }

    /// One more TLP in a direction, behind all others. That there is room, and that it is no longer than a TLP may be,
    /// is the caller's condition.
    pub fn push(&mut self, direction: Direction, sub: SubKind, head: &[u8], payload: &[u8], t: bool)
        requires room { (queue_of self.old direction).has_room ≡ true }
        requires size { length head.now + length payload.now ≤ MOST_BYTES }
        ensures { self.new ≡ with_queue self.old direction (record {
          tlps = (queue_of self.old direction).tlps
              ++ record { sub = sub; bytes = head.now ++ payload.now; t = t } ∷ [];
          has_room = false;
        }) }
    {
        match direction {
            Direction::Downstream => self.downstream.push(sub, head, payload, t),
            Direction::Upstream => self.upstream.push(sub, head, payload, t),
        }
    }

    /// The first TLP of a direction, lent; `None` exactly if none waits there.
    pub fn first(&self, direction: Direction) -> Option<&HopTlp>
        ensures waits { IsSome result ↔ (0 < length (queue_of self.now direction).tlps) }
        ensures first { IfSome result (λ x. x.now ≡ slice_index_or (queue_of self.now direction).tlps 0 x.now) }
    {
        match direction {
            Direction::Downstream => self.downstream.first(),
            Direction::Upstream => self.upstream.first(),
        }
    }

    /// Removes the first TLP of a direction. That one waits there is the caller's condition.
    pub fn remove_first(&mut self, direction: Direction)
        requires { 1 ≤ length (queue_of self.old direction).tlps }
        ensures { self.new ≡ with_queue self.old direction
            (record (queue_of self.old direction) { tlps = drop 1 (queue_of self.old direction).tlps }) }
    {
        match direction {
            Direction::Downstream => self.downstream.remove_first(),
            Direction::Upstream => self.upstream.remove_first(),
        }
    }

    /// Drops all, as a reset of the link does.
    pub fn clear(&mut self)
        ensures { self.new ≡ record {
          downstream = record self.old.downstream { tlps = [] };
          upstream = record self.old.upstream { tlps = [] };
        } }
    {
        self.downstream.clear();
        self.upstream.clear();
    }
}
