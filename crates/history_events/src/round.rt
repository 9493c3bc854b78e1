//! One round of generated events: an event, and the steps after it.

ghost use Rattle.std.specs.Prelude.{◌≡◌, ◌<◌, ◌≤◌, ◌+◌, ◌/◌, ◌%◌, ◌^◌, None, IfOk};
ghost use Rattle.history_events.specs.GeneratedEvents.{RoundFits, alter, arrival, cut_event, pass, refresh, round_of};
ghost use Rattle.history_events.specs.GeneratedEvents.{sending_round, shown_memory, write_bytes};

use crate::numbers::{Numbers, following, value_of};
use crate::step::Step;
use ide_types::{Bytes, OutOfMemory, PortName, Side};
use script_events::{Event, InterfaceEvent};
use std::alloc::Global;

/// What a round gives.
#[derive(Drop)]
pub(crate) struct Round {
    pub event: Event,
    /// The step that follows the event, if any does, before the next round.
    pub ahead: Option<Step>,
    pub numbers: Numbers,
}

// A byte of a number, by its weight.
fn double_word_byte(n: u32, weight: u32) -> u8
    requires { 1 ≤ weight }
    ensures { result ≡ n / weight % 256 }
{
    (n / weight % 256) as u8
}

// The bytes of a memory write of one double word (PCI Express Base 6.0 section 2.2.7).
fn write_bytes(alloc: Global, place: u32, value: u32) -> Result<Bytes, OutOfMemory>
    requires place { place < 65536 }
    requires value { value < 65536 }
    ensures { IfOk result (λ b. b ≡ write_bytes place value) }
{
    let address = 0x10000000 + 4 * (place % 4096);
    let (high, low) = (double_word_byte(value, 256), double_word_byte(value, 1));
    let bytes = [
        0x40,
        0,
        0,
        1,
        1,
        0,
        0,
        15,
        double_word_byte(address, 16777216),
        double_word_byte(address, 65536),
        double_word_byte(address, 256),
        double_word_byte(address, 1),
        high,
        low,
        high,
        low,
    ];
    Bytes::copied(alloc, &bytes)
}

fn plain(event: Event, numbers: Numbers) -> Round
    ensures { result ≡ record { event = event; ahead = None; numbers = numbers } }
{
    Round {
        event,
        ahead: None,
        numbers,
    }
}

// The device of link 0 sends a memory write.
fn sending(alloc: Global, numbers: Numbers) -> Result<Round, OutOfMemory>
    requires { numbers.packets < 2 ^ 62 }
    ensures { IfOk result (λ r. r ≡ sending_round numbers) }
{
    let place = following(numbers.x);
    let x = following(place);
    let bytes = write_bytes(alloc, value_of(place), value_of(x))?;
    let event = Event::Send {
        port: PortName {
            side: Side::Device,
            line: 0,
        },
        bytes,
        more: false,
        trusted: false,
    };
    let numbers = Numbers {
        x,
        ..numbers.with_packet()
    };
    Ok(plain(event, numbers))
}

fn refresh() -> Event
    ensures { result ≡ refresh }
{
    let (line, stream, lose) = (0, 5, None);
    Event::Refresh { line, stream, lose }
}

fn shown_memory() -> Event
    ensures { result ≡ shown_memory }
{
    let event = InterfaceEvent::Memory {
        address: 0x10000000,
        length: 16,
    };
    Event::Interface { event }
}

fn pass(packet: u64) -> Event
    ensures { result ≡ pass packet }
{
    Event::Pass { packet }
}

fn alter(packet: u64) -> Event
    ensures { result ≡ alter packet }
{
    let (at, mask) = (1, 0x20);
    Event::Alter { packet, at, mask }
}

fn cut(packet: u64) -> Event
    ensures { result ≡ cut_event packet }
{
    Event::Cut { packet, length: 5 }
}

// A packet arrives: unchanged, with a byte altered, or its prefix alone.
fn arrival(turn: u32, numbers: Numbers) -> Round
    requires packets { numbers.packets < 2 ^ 62 }
    requires arriving { numbers.arriving ≤ numbers.packets }
    ensures { result ≡ arrival turn numbers }
{
    let packet = numbers.arriving;
    if turn < 13 {
        let arriving = packet + 1;
        return plain(
            pass(packet),
            Numbers {
                arriving,
                ..numbers
            },
        );
    }
    if turn == 14 {
        return Round {
            event: alter(packet),
            ahead: Some(Step::Stop),
            numbers: numbers.without_packets(),
        };
    }
    plain(cut(packet), numbers)
}

impl Numbers {
    /// The next round.
    pub(crate) fn round(self, alloc: Global) -> Result<Round, OutOfMemory>
        requires packets { self.packets < 2 ^ 62 }
        requires arriving { self.arriving ≤ self.packets + 1 }
        ensures gives { IfOk result (λ r. r ≡ round_of self) }
        ensures fits { IfOk result (RoundFits self) }
    {
        let x = following(self.x);
        let turn = value_of(x) % 16;
        let numbers = Numbers { x, ..self };
        if turn < 8 {
            return sending(alloc, numbers);
        }
        if turn == 13 {
            return Ok(plain(refresh(), numbers));
        }
        if numbers.packets < numbers.arriving {
            return Ok(plain(shown_memory(), numbers));
        }
        Ok(arrival(turn, numbers))
    }
}
