//! Local calls of the host's port.

ghost use Rattle.std.specs.Prelude.{◌≡◌};
ghost use Rattle.ide_types.specs.{is_one};
ghost use Rattle.key_slots.specs.{Program, Go, Stop};
ghost use Rattle.key_messages.specs.{place_at, place_call};
ghost use Rattle.key_host.specs.Local.{CallMoves, CallsMove, six_key, programs, goes, stream_stop_calls};

use ide_types::Direction::{Downstream, Upstream};
use ide_types::{Direction, KeySet};
use key_messages::{Place, SlotPort};
use key_slots::{HostSix, Key};

// One call, whose answer is not needed.
fn program<P: SlotPort>(
    port: &mut P,
    stream: u8,
    set: KeySet,
    direction: Direction,
    sub: u8,
    key: Key,
    draw: u32,
)
    ensures { CallMoves P.slots P.unfinished P.moves port.old
        (place_call (place_at stream direction sub) (Program (is_one set) key draw)) port.new }
{
    let place = Place {
        stream,
        direction,
        sub,
    };
    let _ = port.program(place, set, key, draw);
}

fn go<P: SlotPort>(port: &mut P, stream: u8, set: KeySet, direction: Direction, sub: u8)
    ensures { CallMoves P.slots P.unfinished P.moves port.old
        (place_call (place_at stream direction sub) (Go (is_one set))) port.new }
{
    let place = Place {
        stream,
        direction,
        sub,
    };
    let _ = port.go(place, set);
}

fn stop<P: SlotPort>(port: &mut P, stream: u8, set: KeySet, direction: Direction, sub: u8)
    ensures { CallMoves P.slots P.unfinished P.moves port.old
        (place_call (place_at stream direction sub) (Stop (is_one set))) port.new }
{
    let place = Place {
        stream,
        direction,
        sub,
    };
    let _ = port.stop(place, set);
}

// The keys of an array.
#[tactic(auto, using(std::proofs::lemmas::List::get_or_default))]
fn six_of(keys: [Key; 6]) -> (Key, Key, Key, Key, Key, Key)
    ensures { result ≡ (
      six_key keys 0,
      six_key keys 1,
      six_key keys 2,
      six_key keys 3,
      six_key keys 4,
      six_key keys 5,
    ) }
{
    let [a, b, c, d, e, f] = keys;
    (a, b, c, d, e, f)
}

/// Programs the six slots of a stream's key set.
pub fn program_six<P: SlotPort>(port: &mut P, stream: u8, set: KeySet, six: HostSix, draw: u32)
    ensures { CallsMove P.slots P.unfinished P.moves port.old (programs stream (is_one set) six draw) port.new }
{
    let (a, b, c, d, e, f) = six_of(six.keys());
    program(port, stream, set, Downstream, 0, a, draw);
    program(port, stream, set, Downstream, 1, b, draw);
    program(port, stream, set, Downstream, 2, c, draw);
    program(port, stream, set, Upstream, 0, d, draw);
    program(port, stream, set, Upstream, 1, e, draw);
    program(port, stream, set, Upstream, 2, f, draw);
}

/// Takes the six slots of a key set into use, those of the host's receivers first.
pub fn go_six<P: SlotPort>(port: &mut P, stream: u8, set: KeySet)
    ensures { CallsMove P.slots P.unfinished P.moves port.old (goes stream (is_one set)) port.new }
{
    go(port, stream, set, Upstream, 0);
    go(port, stream, set, Upstream, 1);
    go(port, stream, set, Upstream, 2);
    go(port, stream, set, Downstream, 0);
    go(port, stream, set, Downstream, 1);
    go(port, stream, set, Downstream, 2);
}

/// Empties all slots of a stream.
pub fn stop_all<P: SlotPort>(port: &mut P, stream: u8)
    ensures { CallsMove P.slots P.unfinished P.moves port.old (stream_stop_calls stream) port.new }
{
    stop(port, stream, KeySet::Zero, Downstream, 0);
    stop(port, stream, KeySet::Zero, Downstream, 1);
    stop(port, stream, KeySet::Zero, Downstream, 2);
    stop(port, stream, KeySet::Zero, Upstream, 0);
    stop(port, stream, KeySet::Zero, Upstream, 1);
    stop(port, stream, KeySet::Zero, Upstream, 2);
    stop(port, stream, KeySet::One, Downstream, 0);
    stop(port, stream, KeySet::One, Downstream, 1);
    stop(port, stream, KeySet::One, Downstream, 2);
    stop(port, stream, KeySet::One, Upstream, 0);
    stop(port, stream, KeySet::One, Upstream, 1);
    stop(port, stream, KeySet::One, Upstream, 2);
}
