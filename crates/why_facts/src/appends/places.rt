//! Where keys are: at an end of a line, and there in a sub-stream that it sends or receives.

ghost use Rattle.std.specs.Prelude.{◌≡◌};
ghost use Rattle.spec_keys.specs.History.{program_exchange};
ghost use Rattle.why_facts.specs.Forms.{refuses_fact};
ghost use Rattle.why_facts.specs.Places.{is_last_seen, key_place, refuses_seen, seen_place_at};

use event_verdicts::Operation;
use ide_types::{PortName, Side, SubKind, ValidPlan};
use line_routes::port_of;
use sub_stream::{SetFacts, SlotFacts};
use told_facts::{Fact, OperationFact};

/// A place of a stream's keys (this profile).
#[derive(Clone, Copy)]
pub struct Place {
    pub side: Side,
    pub line: u8,
    pub stream: u8,
    pub sends: bool,
    pub sub: SubKind,
}

/// The place of a sub-stream in the direction towards the host, or in the other.
pub fn place_at(side: Side, line: u8, stream: u8, upward: bool, sub: SubKind) -> Place
    ensures { result ≡ seen_place_at side line stream upward sub }
{
    Place {
        side,
        line,
        stream,
        sends: match side {
            Side::Host => !upward,
            Side::Device => upward,
        },
        sub,
    }
}

/// The number of its KEY_PROG.
pub fn program_at(operation: Operation, place: Place) -> u64
    ensures { result ≡ program_exchange operation (key_place place) }
{
    let lane = u64::from(place.sub.number()) + if place.sends { 3 } else { 0 };
    match (place.line < 16, place.side) {
        (true, Side::Host) => 0,
        (true, Side::Device) => match operation {
            Operation::Establish => 2 + lane,
            Operation::Refresh | Operation::Stop => 1 + lane,
        },
        (false, Side::Host) => 1 + lane,
        (false, Side::Device) => 7 + lane,
    }
}

// Whether a slot is Live, and the other is not Live under a newer draw.
fn is_last(slot: SlotFacts, other: SlotFacts) -> bool
    ensures { result ≡ is_last_seen slot other }
{
    match (slot, other) {
        (SlotFacts::Live { draw, .. }, SlotFacts::Live { draw: newer, .. }) => newer <= draw,
        (SlotFacts::Live { .. }, _) => true,
        _ => false,
    }
}

/// Whether a KEY_PROG of a set is refused where both hold this.
pub fn refuses(set: bool, sets: SetFacts) -> bool
    ensures { result ≡ refuses_seen set sets }
{
    if set {
        is_last(sets.one, sets.zero)
    } else {
        is_last(sets.zero, sets.one)
    }
}

/// The fact of a place that refuses its KEY_PROG.
pub fn refuses_fact(plan: &ValidPlan, operation: Operation, place: Place) -> Fact
    ensures { result ≡ refuses_fact plan.now (program_exchange operation (key_place place)) (key_place place) }
{
    let end = PortName {
        side: place.side,
        line: place.line,
    };
    Fact::Operation {
        fact: OperationFact::Refuses {
            exchange: program_at(operation, place),
            port: port_of(plan, end),
            sends: place.sends,
            sub: place.sub,
        },
    }
}
