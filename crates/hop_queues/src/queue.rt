//! The TLPs that wait in one direction (this profile).

ghost use Rattle.std.specs.Prelude.{◌≡◌, ◌+◌, ◌≤◌, ◌++◌, [], ◌∷◌, true, false, drop, length, is_ok, if◌then◌else◌};
ghost use Rattle.std.specs.Prelude.{IsSome, IfSome, ◌↔◌, ◌<◌, slice_index_or};

use crate::blank::Blank;
use ide_types::{Bytes, OutOfMemory, SubKind};
use std::alloc::Global;
use std::collections::VecDeque;
use std::marker::Model;

/// The most bytes of a TLP: 16 of its header and 1,024 double words of payload (PCI Express Base 6.0 section 2.2).
pub const MOST_BYTES: usize = 4_112;

/// A TLP on its way through a switch, in its sub-stream: its header and its payload in plain, and whether it is trusted
/// (PCI Express Base 6.0 sections 2.2 and 6.33).
#[derive(Drop)]
pub struct HopTlp {
    pub sub: SubKind,
    pub bytes: Bytes,
    pub t: bool,
}

/// The TLPs that wait in one direction. Contracts see the list of them, the first first, and whether
/// there is room for one more.
#[derive(Drop)]
pub struct HopQueue {
    waiting: VecDeque<HopTlp>,
    next: Option<Blank>,
}

impl Model for HopQueue {
    ghost use Rattle.std.specs.Prelude.{is_some};
    ghost use Rattle.std.specs.VecDeque.{deque_capacity, deque_len};
    ghost use Rattle.hop_queues.specs.Waiting.{WaitingTlps, HasPlace};

    ghost Value = { WaitingTlps };

    ghost view = { λ q. record { tlps = q.waiting.items; has_room = is_some q.next } };

    ghost invariant = { λ q. HasPlace (is_some q.next) (deque_len q.waiting) (deque_capacity q.waiting) };
}

impl HopQueue {
    /// No TLPs, and no room yet.
    pub fn new(alloc: Global) -> HopQueue
        ensures { result ≡ record { tlps = []; has_room = false } }
    {
        HopQueue {
            waiting: VecDeque::new(alloc),
            next: None,
        }
    }

    /// Room for one more.
    pub fn room(&mut self, alloc: Global) -> Result<(), OutOfMemory>
        ensures { self.new ≡ (if is_ok result then record self.old { has_room = true } else self.old) }
    {
        if self.next.is_some() {
            return Ok(());
        }
        self.waiting.reserve(1)?;
        let next = Blank::make(alloc)?;
        self.next = Some(next);
        Ok(())
    }

    /// Whether there is room for one more.
    pub fn has_room(&self) -> bool
        ensures { result ≡ self.now.has_room }
    {
        self.next.is_some()
    }

    /// One more TLP, behind all others. That there is room, and that it is no longer than a TLP may be, is the caller's
    /// condition.
    pub fn push(&mut self, sub: SubKind, head: &[u8], payload: &[u8], t: bool)
        requires room { self.old.has_room ≡ true }
        requires size { length head.now + length payload.now ≤ MOST_BYTES }
        ensures { self.new ≡ record {
          tlps = self.old.tlps ++ record { sub = sub; bytes = head.now ++ payload.now; t = t } ∷ [];
          has_room = false;
        } }
    {
        if let Some(next) = self.next.take() {
            let bytes = next.filled(head, payload);
            let _ = self.waiting.push_back(HopTlp { sub, bytes, t });
        }
    }

    /// How many wait.
    pub fn len(&self) -> usize
        ensures { result ≡ length self.now.tlps }
    {
        self.waiting.len()
    }

    /// The first, lent; `None` exactly if none waits.
    pub fn first(&self) -> Option<&HopTlp>
        ensures waits { IsSome result ↔ (0 < length self.now.tlps) }
        ensures first { IfSome result (λ x. x.now ≡ slice_index_or self.now.tlps 0 x.now) }
    {
        self.waiting.front()
    }

    /// Removes the first. That one waits is the caller's condition.
    pub fn remove_first(&mut self)
        requires { 1 ≤ length self.old.tlps }
        ensures { self.new ≡ record self.old { tlps = drop 1 self.old.tlps } }
    {
        let _ = self.waiting.pop_front();
    }

    /// Drops all, as a reset of the link does.
    pub fn clear(&mut self)
        ensures { self.new ≡ record self.old { tlps = [] } }
    {
        self.waiting.clear();
    }
}
