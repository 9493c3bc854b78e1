//! An end of a line, as messages of key management name its places.

ghost use Rattle.std.specs.Prelude.{◌≡◌, ◌+◌, ◌≤◌, ◌++◌, vec_len, vec_capacity};
ghost use Rattle.link_ends.specs.LineEnds.{own_direction, at_end};

use ide_port::Port;
use ide_types::{Direction, KeySet, Side};
use key_messages::{Place, ProgramFault, Responder, SlotPort};
use key_slots::Key;
use std::alloc::Global;

/// An end of a line that is keyed by messages. Of a place that a message names direction 0 is what the end receives and
/// 1 what it sends, at both ends (this profile). A port has the directions of its line, so at a near end they change
/// places.
#[derive(Drop)]
pub struct LineEnd {
    /// Which end of the line it is.
    pub side: Side,
    /// Its port, which has the line's stream alone.
    pub port: Port,
}

// A direction that a message names, at an end.
fn turned(side: Side, direction: Direction) -> Direction
    ensures { result ≡ own_direction side direction }
{
    match (side, direction) {
        (Side::Device, direction) => direction,
        (Side::Host, Direction::Downstream) => Direction::Upstream,
        (Side::Host, Direction::Upstream) => Direction::Downstream,
    }
}

// The place of the port that a message names.
fn at_end(side: Side, place: Place) -> Place
    ensures { result ≡ at_end side place }
{
    Place {
        stream: place.stream,
        direction: turned(side, place.direction),
        sub: place.sub,
    }
}

impl SlotPort for LineEnd {
    ghost use Rattle.std.specs.Prelude.{◌≡◌};
    ghost use Rattle.link_ends.specs.LineEnds.{shown_end, unfinished_end, called_line_end};

    ghost slots = { λ end place. shown_end end place };

    ghost unfinished = { λ end place. unfinished_end end place };

    ghost moves = { λ before call after. after ≡ called_line_end call before };

    fn program(
        &mut self,
        place: Place,
        set: KeySet,
        key: Key,
        draw: u32,
    ) -> Result<(), ProgramFault> {
        self.port.program(at_end(self.side, place), set, key, draw)
    }

    fn go(&mut self, place: Place, set: KeySet) -> bool {
        self.port.go(at_end(self.side, place), set)
    }

    fn stop(&mut self, place: Place, set: KeySet) -> bool {
        self.port.stop(at_end(self.side, place), set)
    }
}

impl LineEnd {
    ghost use Rattle.link_ends.specs.LineEnds.{answered_end, end_reply};

    /// Answers a message of key management, and appends the reply, or nothing. `draw` is the number under which a
    /// KEY_PROG's key is kept. `reply` has 8 bytes of room.
    pub fn answer(&mut self, request: &[u8], draw: u32, reply: &mut Vec<u8>)
        requires { vec_len reply.old + 8 ≤ vec_capacity reply.old }
        ensures end { self.new ≡ answered_end self.old request.now draw }
        ensures reply { reply.new.items ≡ reply.old.items ++ end_reply self.old request.now draw }
        ensures capacity { vec_capacity reply.old ≤ vec_capacity reply.new }
    {
        let mut responder = Responder::make(0);
        responder.answer(self, request, draw, reply);
    }
}
