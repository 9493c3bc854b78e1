//! One key slot (this profile).

ghost use Rattle.std.specs.Prelude.{◌≡◌};
ghost use Rattle.std.specs.Option.{option_copied};
ghost use Rattle.key_slots.specs.Slots.{slot_state, held_key, live_draw, live_if_armed, is_empty, is_armed};

use crate::Key;
use gcm_seal::Gcm;
use std::marker::Model;

/// A key in its slot, with the number of its draw, and prepared.
#[derive(Drop)]
pub struct HeldKey {
    key: Key,
    cipher: Gcm,
    draw: u32,
}

impl Model for HeldKey {
    ghost use Rattle.std.specs.Prelude.{◌≡◌};
    ghost use Rattle.key_slots.specs.Drawn.{DrawnKey};

    ghost Value = { DrawnKey };

    ghost view = { λ h. record { key = h.key; draw = h.draw } };

    ghost invariant = { λ h. h.cipher ≡ h.key };
}

impl HeldKey {
    /// Prepares the key.
    pub fn new(key: Key, draw: u32) -> HeldKey
        ensures { result ≡ record { key = key; draw = draw } }
    {
        let cipher = Gcm::prepare(key.bytes());
        HeldKey { key, cipher, draw }
    }

    /// The key, lent.
    pub fn key(&self) -> &Key
        ensures { result.now ≡ self.now.key }
    {
        &self.key
    }

    /// The prepared key, lent.
    pub fn cipher(&self) -> &Gcm
        ensures { result.now ≡ self.now.key }
    {
        &self.cipher
    }

    /// The number of its draw.
    pub fn draw(&self) -> u32
        ensures { result ≡ self.now.draw }
    {
        self.draw
    }
}

/// A key slot: without a key, with one that waits for its K_SET_GO, with one of a sender that waits for the end
/// of the older key's unit, or with one in use (PCI Express Base 6.0 section 6.33).
#[derive(Drop)]
pub enum Slot {
    Empty,
    Programmed(HeldKey),
    Armed(HeldKey),
    Live(HeldKey),
}

/// The state of a slot: it has no key; its key waits for K_SET_GO; its key is a sender's and waits for the end
/// of the older key's unit; its key is in use (PCI Express Base 6.0 section 6.33).
#[derive(Clone, Copy, PartialEq, Eq)]
pub enum SlotState {
    Empty,
    Programmed,
    Armed,
    Live,
}

impl Slot {
    /// An Armed slot becomes Live, any other stays as it is.
    pub fn woken(self) -> Slot
        ensures { result ≡ live_if_armed self }
    {
        match self {
            Slot::Armed(held) => Slot::Live(held),
            slot => slot,
        }
    }

    /// Its state.
    pub fn state(&self) -> SlotState
        ensures { result ≡ slot_state self.now }
    {
        match self {
            Slot::Empty => SlotState::Empty,
            Slot::Programmed(_) => SlotState::Programmed,
            Slot::Armed(_) => SlotState::Armed,
            Slot::Live(_) => SlotState::Live,
        }
    }

    /// Its key, if it has one.
    pub fn held(&self) -> Option<&HeldKey>
        ensures { option_copied result ≡ held_key self.now }
    {
        match self {
            Slot::Empty => None,
            Slot::Programmed(held) | Slot::Armed(held) | Slot::Live(held) => Some(held),
        }
    }

    /// The draw of its key if that is Live.
    pub fn live_draw(&self) -> Option<u32>
        ensures { result ≡ live_draw self.now }
    {
        match self {
            Slot::Live(held) => Some(held.draw()),
            _ => None,
        }
    }

    /// Whether its key waits for the end of a unit.
    pub fn is_armed(&self) -> bool
        ensures { result ≡ is_armed self.now }
    {
        matches!(self, Slot::Armed(_))
    }

    /// Whether it has no key.
    pub fn is_empty(&self) -> bool
        ensures { result ≡ is_empty self.now }
    {
        matches!(self, Slot::Empty)
    }
}
