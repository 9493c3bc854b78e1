//! The two slots of one sub-stream in one direction (this profile).

ghost use Rattle.std.specs.Prelude.{◌≡◌, true, false, not, is_ok, if◌then◌else◌, IfOk, ◌||◌};
ghost use Rattle.ide_types.specs.KeySets.{is_one};
ghost use Rattle.key_slots.specs.Slots.{is_newer_than, live_draw, after_go, after_end};

use crate::Key;
use crate::slot::{HeldKey, Slot, SlotState};
use gcm_seal::Gcm;
use ide_types::{KeySet, OutOfMemory};
use std::alloc::Global;
use std::marker::Model;
use std::mem;

/// Why a slot is not programmed: it is Live, and the other holds no newer Live key. The key comes back.
#[derive(Drop)]
pub struct OnlyLive {
    pub key: Key,
}

/// The slot has no key.
#[derive(Clone, Copy, PartialEq, Eq)]
pub struct SlotEmpty;

// The slots of key set 0 and of key set 1.
#[derive(Drop)]
struct Both {
    zero: Slot,
    one: Slot,
}

/// The slots of key set 0 and of key set 1, of a sender or of a receiver (PCI Express Base 6.0 section 6.33). They are
/// boxed, since prepared keys are large.
#[derive(Drop)]
pub struct Slots {
    sender: bool,
    both: Box<Both>,
}

impl Model for Slots {
    ghost use Rattle.std.specs.Prelude.{◌≡◌, true};
    ghost use Rattle.key_slots.specs.Slots.{SlotPair, may_stand};

    ghost Value = { SlotPair };

    ghost view = { λ s. record { sender = s.sender; zero = s.both.value.zero; one = s.both.value.one } };

    ghost invariant = { λ s. may_stand s.sender s.both.value.zero s.both.value.one ≡ true };
}

impl Slots {
    ghost use Rattle.key_slots.specs.declared.slot.Slot.TheVariants.{Empty};
    ghost use Rattle.key_slots.specs.Slots.{may_stand, is_sound, empty_pair, slot_in, with_both, is_only_live};
    ghost use Rattle.key_slots.specs.Slots.{program_answer, programmed_pair, is_empty, is_armed, armed_pair};
    ghost use Rattle.key_slots.specs.Slots.{stopped_pair};
    ghost use Rattle.key_slots.specs.Slots.{ended_pair, live_set, slot_state, held_key, live_held, shown_key};

    /// Both slots empty. It alone takes memory.
    pub fn make(alloc: Global, sender: bool) -> Result<Slots, OutOfMemory>
        ensures { IfOk result (λ s. s ≡ empty_pair sender) }
    {
        let both = Both {
            zero: Slot::Empty,
            one: Slot::Empty,
        };
        let both = Box::new(alloc, both)?;
        Ok(Slots { sender, both })
    }

    /// Empties both slots.
    pub fn clear(&mut self)
        ensures { self.new ≡ empty_pair self.old.sender }
    {
        self.both.zero = Slot::Empty;
        self.both.one = Slot::Empty;
    }

    fn slot_ref(&self, set: KeySet) -> &Slot
        ensures { result.now ≡ slot_in self.now (is_one set) }
    {
        match set {
            KeySet::Zero => &self.both.zero,
            KeySet::One => &self.both.one,
        }
    }

    // The slot of this set and the other, which are left empty.
    fn take(&mut self, set: KeySet) -> (Slot, Slot)
        ensures mine { result.0 ≡ slot_in self.old (is_one set) }
        ensures other { result.1 ≡ slot_in self.old (not (is_one set)) }
        ensures may_stand { may_stand self.old.sender result.0 result.1 ≡ true }
        ensures left { self.new ≡ empty_pair self.old.sender }
    {
        let zero = mem::replace(&mut self.both.zero, Slot::Empty);
        let one = mem::replace(&mut self.both.one, Slot::Empty);
        ordered(set.is_one(), zero, one)
    }

    fn put(&mut self, set: KeySet, mine: Slot, other: Slot)
        requires { may_stand self.old.sender mine other ≡ true }
        ensures { self.new ≡ with_both self.old.sender (is_one set) (mine, other) }
    {
        match set {
            KeySet::Zero => {
                self.both.zero = mine;
                self.both.one = other;
            }
            KeySet::One => {
                self.both.zero = other;
                self.both.one = mine;
            }
        }
    }

    fn is_only_live(&self, set: KeySet) -> bool
        ensures { result ≡ is_only_live self.now (is_one set) }
    {
        match self.slot_ref(set).live_draw() {
            None => false,
            Some(draw) => !is_newer_than(set, draw, self.slot_ref(set.other()).live_draw()),
        }
    }

    /// Programs the slot with a key of this draw. Returns `OnlyLive` exactly if this slot is Live and the other holds
    /// no newer Live key: then the key comes back, and the slots are as before.
    pub fn program(&mut self, set: KeySet, key: Key, draw: u32) -> Result<(), OnlyLive>
        ensures answer { result ≡ program_answer self.old (is_one set) key }
        ensures slots { self.new ≡ programmed_pair self.old (is_one set) (record { key = key; draw = draw }) }
    {
        if self.is_only_live(set) {
            return Err(OnlyLive { key });
        }
        let programmed = Slot::Programmed(HeldKey::new(key, draw));
        match set {
            KeySet::Zero => self.both.zero = programmed,
            KeySet::One => self.both.one = programmed,
        }
        Ok(())
    }

    /// GO: takes a Programmed key into use. A receiver's is Live at once; a sender's at once if no unit is
    /// `unfinished`, and the other slot is emptied, else it is Armed until that unit ends. A Live or Armed slot stays
    /// as it is. Returns `SlotEmpty` exactly if the slot is Empty.
    pub fn arm(&mut self, set: KeySet, unfinished: bool) -> Result<(), SlotEmpty>
        ensures answer { is_ok result ≡ not (is_empty (slot_in self.old (is_one set))) }
        ensures slots { self.new ≡ armed_pair self.old (is_one set) unfinished }
    {
        if self.slot_ref(set).is_empty() {
            return Err(SlotEmpty);
        }
        let sender = self.sender;
        let (mine, other) = self.take(set);
        let (mine, other) = after_go(sender, unfinished, mine, other);
        self.put(set, mine, other);
        Ok(())
    }

    /// STOP: empties the slot; an Armed other one becomes Live.
    pub fn stop(&mut self, set: KeySet)
        ensures { self.new ≡ stopped_pair self.old (is_one set) }
    {
        let (_, other) = self.take(set);
        self.put(set, Slot::Empty, other.woken());
    }

    fn any_armed(&self) -> bool
        ensures { result ≡ (is_armed self.now.zero || is_armed self.now.one) }
    {
        self.both.zero.is_armed() || self.both.one.is_armed()
    }

    /// Notes that a sender's unit ended: an Armed slot becomes Live, and the other is emptied.
    pub fn ended(&mut self)
        ensures { self.new ≡ ended_pair self.old }
    {
        if self.any_armed() {
            let (zero, one) = self.take(KeySet::Zero);
            let (zero, one) = after_end(zero, one);
            self.put(KeySet::Zero, zero, one);
        }
    }

    /// The key set whose slot is Live; of two Live slots of a receiver the one of the greater draw, between equal draws
    /// set 1; `None` if none is Live.
    pub fn live(&self) -> Option<KeySet>
        ensures live { result ≡ live_set self.now }
        // A sender has at most one Live slot, and a receiver no Armed one.
        ensures sound { is_sound self.now ≡ true }
    {
        match (self.both.zero.live_draw(), self.both.one.live_draw()) {
            (None, None) => None,
            (None, Some(_)) => Some(KeySet::One),
            (Some(zero), one) => Some(KeySet::of_bit(is_newer_than(KeySet::Zero, zero, one))),
        }
    }

    /// The state of a slot, and its key, lent, with its draw, if it has one.
    pub fn slot(&self, set: KeySet) -> (SlotState, Option<(&Key, u32)>)
        ensures state { result.0 ≡ slot_state (slot_in self.now (is_one set)) }
        ensures key { shown_key result.1 ≡ held_key (slot_in self.now (is_one set)) }
    {
        let slot = self.slot_ref(set);
        match slot.held() {
            None => (slot.state(), None),
            Some(held) => (slot.state(), Some((held.key(), held.draw()))),
        }
    }

    /// The prepared form of a Live slot's key, lent, with its draw; `None` of any other slot.
    pub fn live_key(&self, set: KeySet) -> Option<(&Gcm, u32)>
        ensures { shown_key result ≡ live_held (slot_in self.now (is_one set)) }
    {
        match self.slot_ref(set) {
            Slot::Live(held) => Some((held.cipher(), held.draw())),
            _ => None,
        }
    }
}

// The slot of set 1 first, or else that of set 0.
fn ordered(one_first: bool, zero: Slot, one: Slot) -> (Slot, Slot)
    ensures mine { result.0 ≡ (if one_first then one else zero) }
    ensures other { result.1 ≡ (if one_first then zero else one) }
{
    if one_first { (one, zero) } else { (zero, one) }
}

// Whether the other slot, Live under `other`, is newer than a draw in this set.
fn is_newer_than(set: KeySet, draw: u32, other: Option<u32>) -> bool
    ensures { result ≡ is_newer_than (is_one set) draw other }
{
    match other {
        None => false,
        Some(other) => draw < other || draw == other && !set.is_one(),
    }
}

// A slot and the other after the slot's GO.
fn after_go(sender: bool, unfinished: bool, mine: Slot, other: Slot) -> (Slot, Slot)
    ensures { result ≡ after_go sender unfinished mine other }
{
    match mine {
        Slot::Programmed(held) => {
            if !sender {
                (Slot::Live(held), other)
            } else if unfinished {
                (Slot::Armed(held), other)
            } else {
                (Slot::Live(held), Slot::Empty)
            }
        }
        slot => (slot, other),
    }
}

// A sender's slots after the end of a unit.
fn after_end(zero: Slot, one: Slot) -> (Slot, Slot)
    ensures { result ≡ after_end zero one }
{
    match (zero, one) {
        (_, Slot::Armed(held)) => (Slot::Empty, Slot::Live(held)),
        (Slot::Armed(held), _) => (Slot::Live(held), Slot::Empty),
        (zero, one) => (zero, one),
    }
}
