//! The calls of a port that key management moves (this profile).

ghost use Rattle.std.specs.Prelude.{◌≡◌, Bool, Option};
ghost use Rattle.key_slots.specs.{SlotPair, is_one, Program, Go, Stop};
ghost use Rattle.key_messages.specs.declared.place.Place.{Place};
ghost use Rattle.key_messages.specs.Calls.{PlaceCall, place_call, shown_program_answer, go_answer, stop_answer};
ghost use Rattle.key_messages.specs.Calls.{SlotsAfter};

use crate::place::Place;
use ide_types::KeySet;
use key_slots::Key;

/// Why a key was not taken, with the key: the port has no such place, or the slot is Live and the other holds no newer
/// Live key.
#[derive(Drop)]
pub enum ProgramFault {
    NoPlace(Key),
    OnlyLive(Key),
}

/// A port with two key slots a place (PCI Express Base 6.0 section 6.33).
pub trait SlotPort {
    /// The two slots of each place that the port has.
    ghost slots: { Self → Place → Option SlotPair };

    /// Whether the sender of a place has begun a unit and not ended it.
    ghost unfinished: { Self → Place → Bool };

    /// What a call makes of all that the port keeps.
    ghost moves: { Self → PlaceCall → Self → Type 0 };

    /// KEY_PROG: a key and the number under which it is kept. `NoPlace` and `OnlyLive` give the key back.
    fn program(
        &mut self,
        place: Place,
        set: KeySet,
        key: Key,
        draw: u32,
    ) -> Result<(), ProgramFault>
        ensures answer { result ≡ shown_program_answer (slots self.old) place (is_one set) key }
        ensures slots { let call = place_call place (Program (is_one set) key draw) in
            SlotsAfter (slots self.old) (unfinished self.old) call (slots self.new) }
        ensures moves { moves self.old (place_call place (Program (is_one set) key draw)) self.new };

    /// GO; false if the port has no such place or the slot is Empty.
    fn go(&mut self, place: Place, set: KeySet) -> bool
        ensures answer { result ≡ go_answer (slots self.old) place (is_one set) }
        ensures slots { let call = place_call place (Go (is_one set)) in
            SlotsAfter (slots self.old) (unfinished self.old) call (slots self.new) }
        ensures moves { moves self.old (place_call place (Go (is_one set))) self.new };

    /// STOP; false if the port has no such place.
    fn stop(&mut self, place: Place, set: KeySet) -> bool
        ensures answer { result ≡ stop_answer (slots self.old) place }
        ensures slots { let call = place_call place (Stop (is_one set)) in
            SlotsAfter (slots self.old) (unfinished self.old) call (slots self.new) }
        ensures moves { moves self.old (place_call place (Stop (is_one set))) self.new };
}
