//! A port of one place.

ghost use Rattle.std.specs.Prelude.{◌≡◌, ◌&&◌, nat_lt, if◌then◌else◌, Some, None};
ghost use Rattle.key_messages.specs.Calls.{is_same_place, place_at};

use ide_types::{Direction, KeySet};
use key_messages::{Place, ProgramFault, SlotPort};
use key_slots::{Key, OnlyLive, Slots};

/// A port that has stream 5 in one direction and one sub-stream. Tests look at its slots.
#[derive(Drop)]
pub struct OnePort {
    pub direction: Direction,
    pub sub: u8,
    pub unfinished: bool,
    pub slots: Slots,
}

impl OnePort {
    fn has(&self, place: Place) -> bool
        ensures { let own = place_at 5 self.now.direction self.now.sub in
            result ≡ (is_same_place place own && nat_lt place.sub 3) }
    {
        ((place.stream == 5 && place.direction == self.direction) && place.sub == self.sub)
            && place.sub < 3
    }
}

impl SlotPort for OnePort {
    ghost use Rattle.key_messages.specs.declared.place.Place.{Place};
    ghost use Rattle.key_messages.specs.Calls.{PlaceCall};

    ghost slots = { λ port place.
        if is_same_place place (place_at 5 port.direction port.sub) then Some port.slots else None };

    ghost unfinished = { λ port place. port.unfinished };

    ghost moves = { λ before call after. after.direction ≡ before.direction };

    fn program(
        &mut self,
        place: Place,
        set: KeySet,
        key: Key,
        draw: u32,
    ) -> Result<(), ProgramFault> {
        if !self.has(place) {
            return Err(ProgramFault::NoPlace(key));
        }
        match self.slots.program(set, key, draw) {
            Ok(()) => Ok(()),
            Err(OnlyLive { key }) => Err(ProgramFault::OnlyLive(key)),
        }
    }

    fn go(&mut self, place: Place, set: KeySet) -> bool {
        self.has(place) && self.slots.arm(set, self.unfinished).is_ok()
    }

    fn stop(&mut self, place: Place, set: KeySet) -> bool {
        if !self.has(place) {
            return false;
        }
        self.slots.stop(set);
        true
    }
}
