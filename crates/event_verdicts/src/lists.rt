//! The short lists of a verdict.

ghost use Rattle.std.specs.Prelude.{◌≡◌, ◌<◌, ◌≤◌, [], ◌∷◌, ◌++◌, length};

use crate::{Effect, SealedPacket};
use arrayvec::ArrayVec;
use std::marker::Model;

/// The packets that one send sealed, in order: at most a sync packet in each of two sub-streams, and the TLP's.
#[derive(Drop)]
pub struct SealedPackets {
    packets: ArrayVec<SealedPacket, 3>,
}

impl Model for SealedPackets {
    ghost use Rattle.std.specs.Prelude.{List};
    ghost use Rattle.event_verdicts.specs.declared.verdict.SealedPacket.{SealedPacket};

    ghost Value = { List SealedPacket };

    ghost view = { λ p. p.packets.items };
}

impl SealedPackets {
    /// No packets.
    pub fn new() -> SealedPackets
        ensures { result ≡ [] }
    {
        SealedPackets {
            packets: ArrayVec::new(),
        }
    }

    /// Appends a packet.
    pub fn push(&mut self, packet: SealedPacket)
        requires { length self.old < 3 }
        ensures { self.new ≡ self.old ++ packet ∷ [] }
    {
        self.packets.push(packet);
    }

    /// The packets, lent.
    pub fn as_slice(&self) -> &[SealedPacket]
        ensures { result.now ≡ self.now }
    {
        &self.packets
    }

    /// How many there are, at most 3.
    pub fn len(&self) -> usize
        ensures value { result ≡ length self.now }
        ensures most { result ≤ 3 }
    {
        self.packets.len()
    }
}

/// The effect of each packet of an accepted unit, in order; a unit has at most 8.
#[derive(Drop)]
pub struct Effects {
    effects: ArrayVec<Effect, 8>,
}

impl Model for Effects {
    ghost use Rattle.std.specs.Prelude.{List};
    ghost use Rattle.event_verdicts.specs.declared.verdict.Effect.{Effect};

    ghost Value = { List Effect };

    ghost view = { λ e. e.effects.items };
}

impl Effects {
    /// No effects.
    pub fn new() -> Effects
        ensures { result ≡ [] }
    {
        Effects {
            effects: ArrayVec::new(),
        }
    }

    /// Appends an effect.
    pub fn push(&mut self, effect: Effect)
        requires { length self.old < 8 }
        ensures { self.new ≡ self.old ++ effect ∷ [] }
    {
        self.effects.push(effect);
    }

    /// The effects, lent.
    pub fn as_slice(&self) -> &[Effect]
        ensures { result.now ≡ self.now }
    {
        &self.effects
    }

    /// How many there are, at most 8.
    pub fn len(&self) -> usize
        ensures value { result ≡ length self.now }
        ensures most { result ≤ 8 }
    {
        self.effects.len()
    }
}
