//! The events of device interfaces and of trusted memory that lines of a script spell.

ghost use Rattle.std.specs.Prelude.{◌≡◌, ◌^◌, map, nat_lt};
ghost use Rattle.std.specs.Option.{ok_or};
ghost use Rattle.ide_types.specs.RegisterNames.{width_of};
ghost use Rattle.script_events.specs.declared.fault.LineFault.TheVariants as fault;
ghost use Rattle.script_events.specs.Interfaces.{bar_in, register_in, register_value_in, write_event_in, memory_in};
ghost use Rattle.script_events.specs.Interfaces.{asking_event_of, interface_event_by_word};

use crate::parts::{asked, length_or_fault, one_number};
use crate::words::{number, number_or_fault};
use crate::{InterfaceEvent, LineFault};
use ide_types::Register;

// A BAR: `bar`, and its number from 0 to 5.
fn bar(word: &[u8]) -> Option<Register>
    ensures { result ≡ bar_in word.now }
{
    match word {
        [b'b', b'a', b'r', digit @ b'0'..=b'5'] => Some(Register::Bar(*digit - b'0')),
        _ => None,
    }
}

#[tactic(auto, unfolding(crate::specs::Interfaces::register_in))]
fn register(word: &[u8]) -> Option<Register>
    ensures { result ≡ register_in word.now }
{
    if word == b"command".as_slice() {
        return Some(Register::Command);
    }
    if word == b"cacheline".as_slice() {
        return Some(Register::CacheLine);
    }
    if word == b"msix".as_slice() {
        return Some(Register::Msix);
    }
    if word == b"lnr".as_slice() {
        return Some(Register::Lnr);
    }
    if word == b"tph".as_slice() {
        return Some(Register::Tph);
    }
    if word == b"pasid".as_slice() {
        return Some(Register::Pasid);
    }
    if word == b"ats".as_slice() {
        return Some(Register::Ats);
    }
    bar(word)
}

fn register_or_fault(word: &[u8]) -> Result<Register, LineFault>
    ensures { result ≡ ok_or (register_in word.now) fault.Word }
{
    register(word).ok_or(LineFault::Word)
}

// Whether a register has so many bits as the number needs.
fn has_room(register: Register, number: u64) -> bool
    ensures { result ≡ nat_lt number (2 ^ width_of register) }
{
    match register {
        Register::CacheLine => number < 0x100,
        Register::Tph => number < 0x1_0000_0000,
        Register::Bar(_) => true,
        _ => number < 0x1_0000,
    }
}

fn value(register: Register, word: &[u8]) -> Option<u64>
    ensures { result ≡ register_value_in register word.now }
{
    match number(word) {
        Some(number) if has_room(register, number) => Some(number),
        _ => None,
    }
}

fn write(words: &[&[u8]]) -> Result<InterfaceEvent, LineFault>
    ensures { result ≡ write_event_in (map (λ w. w.now) words.now) }
{
    let [interface, register, value_word] = words else {
        return Err(LineFault::Count);
    };
    let interface = number_or_fault(interface)?;
    let register = register_or_fault(register)?;
    let value = value(register, value_word).ok_or(LineFault::Number)?;
    Ok(InterfaceEvent::Write {
        interface,
        register,
        value,
    })
}

fn memory(words: &[&[u8]]) -> Result<InterfaceEvent, LineFault>
    ensures { result ≡ memory_in (map (λ w. w.now) words.now) }
{
    let [address, length] = words else {
        return Err(LineFault::Count);
    };
    let address = number_or_fault(address)?;
    let length = length_or_fault(length)?;
    Ok(InterfaceEvent::Memory { address, length })
}

// What the manager does to an interface; `None` if the first word is none of these events.
fn asking_event(first: &[u8], rest: &[&[u8]]) -> Option<Result<InterfaceEvent, LineFault>>
    ensures { result ≡ asking_event_of first.now (map (λ w. w.now) rest.now) }
{
    if first == b"lock".as_slice() {
        return Some(asked(rest).map(|(interface, lose)| InterfaceEvent::Lock { interface, lose }));
    }
    if first == b"report".as_slice() {
        return Some(asked(rest).map(|(interface, lose)| InterfaceEvent::Report {
            interface,
            lose,
        }));
    }
    if first == b"start".as_slice() {
        return Some(asked(rest).map(|(interface, lose)| InterfaceEvent::Start { interface, lose }));
    }
    if first == b"halt".as_slice() {
        return Some(asked(rest).map(|(interface, lose)| InterfaceEvent::Halt { interface, lose }));
    }
    if first == b"state".as_slice() {
        return Some(asked(rest).map(|(interface, lose)| InterfaceEvent::State { interface, lose }));
    }
    None
}

// An event on an interface or on memory; `None` if the first word is none of these events.
pub(crate) fn interface_event(
    first: &[u8],
    rest: &[&[u8]],
) -> Option<Result<InterfaceEvent, LineFault>>
    ensures { result ≡ interface_event_by_word first.now (map (λ w. w.now) rest.now) }
{
    if first == b"view".as_slice() {
        return Some(one_number(rest).map(|interface| InterfaceEvent::View { interface }));
    }
    if first == b"write".as_slice() {
        return Some(write(rest));
    }
    if first == b"flr".as_slice() {
        return Some(one_number(rest).map(|interface| InterfaceEvent::Flr { interface }));
    }
    if first == b"firmware".as_slice() {
        return Some(one_number(rest).map(|interface| InterfaceEvent::Firmware { interface }));
    }
    if first == b"memory".as_slice() {
        return Some(memory(rest));
    }
    asking_event(first, rest)
}
