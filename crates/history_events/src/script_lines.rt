//! The script of generated events.

ghost use Rattle.std.specs.Prelude.{◌≡◌, ◌≤◌, ◌++◌, IfOk, OnOk, flat_map, string_bytes};
ghost use Rattle.history_events.specs.ScriptText.{asked_line, generated_script, interface_line, operation_line};
ghost use Rattle.history_events.specs.ScriptText.{send_line, event_spelling};

use crate::Generator;
use ide_types::{OutOfMemory, PortName};
use script_events::{Event, InterfaceEvent, Loss};
use std::alloc::{AllocError, Global};

// Of an operation on a stream in which nothing is lost.
fn push_operation(
    text: &mut String,
    word: &str,
    link: u64,
    stream: u64,
    lose: &Option<Loss>,
) -> Result<(), AllocError>
    ensures { OnOk result (string_bytes text.new ≡ string_bytes text.old
        ++ operation_line word.now link stream lose.now) }
{
    match lose {
        None => write!(text, "{word} {link} {stream}\n"),
        Some(_) => Ok(()),
    }
}

// Of an operation on an interface in which nothing is lost.
fn push_asked(
    text: &mut String,
    word: &str,
    interface: u64,
    lose: &Option<Loss>,
) -> Result<(), AllocError>
    ensures { OnOk result (string_bytes text.new ≡ string_bytes text.old ++ asked_line word.now interface lose.now) }
{
    match lose {
        None => write!(text, "{word} {interface}\n"),
        Some(_) => Ok(()),
    }
}

fn push_interface(text: &mut String, event: &InterfaceEvent) -> Result<(), AllocError>
    ensures { OnOk result (string_bytes text.new ≡ string_bytes text.old ++ interface_line event.now) }
{
    match event {
        InterfaceEvent::Lock { interface, lose } => push_asked(text, "lock", *interface, lose),
        InterfaceEvent::Report { interface, lose } => push_asked(text, "report", *interface, lose),
        InterfaceEvent::Start { interface, lose } => push_asked(text, "start", *interface, lose),
        InterfaceEvent::Halt { interface, lose } => push_asked(text, "halt", *interface, lose),
        InterfaceEvent::Memory { address, length } => {
            write!(text, "memory 0x{address:x} {length}\n")
        }
        _ => Ok(()),
    }
}

// Of a TLP that is sent in a unit of its own, without T.
fn push_send(
    alloc: Global,
    text: &mut String,
    port: PortName,
    bytes: &[u8],
    more: bool,
    trusted: bool,
) -> Result<(), AllocError>
    ensures { OnOk result (string_bytes text.new ≡ string_bytes text.old
        ++ send_line port bytes.now more trusted) }
{
    if more {
        return Ok(());
    }
    if trusted {
        return Ok(());
    }
    let digits = hex::encode(alloc, bytes)?;
    write!(text, "send {port} {digits}\n")
}

fn push_alter(
    alloc: Global,
    text: &mut String,
    packet: u64,
    at: u64,
    mask: u8,
) -> Result<(), AllocError>
    ensures { OnOk result (string_bytes text.new ≡
        string_bytes text.old ++ event_spelling (Event.Alter packet at mask)) }
{
    let digits = hex::encode(alloc, [mask])?;
    write!(text, "alter {packet} {at} {digits}\n")
}

// The line of an event, behind a text.
fn push_line(alloc: Global, text: &mut String, event: &Event) -> Result<(), AllocError>
    ensures { OnOk result (string_bytes text.new ≡ string_bytes text.old ++ event_spelling event.now) }
{
    match event {
        Event::Establish { line, stream, lose } => {
            push_operation(text, "establish", *line, *stream, lose)
        }
        Event::Refresh { line, stream, lose } => {
            push_operation(text, "refresh", *line, *stream, lose)
        }
        Event::Stop { line, stream, lose } => push_operation(text, "stop", *line, *stream, lose),
        Event::Send {
            port,
            bytes,
            more,
            trusted,
        } => push_send(alloc, text, *port, bytes.as_slice(), *more, *trusted),
        Event::Pass { packet } => write!(text, "pass {packet}\n"),
        Event::Alter { packet, at, mask } => push_alter(alloc, text, *packet, *at, *mask),
        Event::Cut { packet, length } => write!(text, "cut {packet} {length}\n"),
        Event::Interface { event } => push_interface(text, event),
        _ => Ok(()),
    }
}

// The lines of all events that are left.
fn text_of(alloc: Global, left: Generator) -> Result<String, OutOfMemory>
    ensures { IfOk result (λ text. string_bytes text ≡ flat_map event_spelling left) }
{
    let mut left = left;
    let mut text = String::new(alloc);
    'events: while let Some(event) = left.next(alloc)? {
        push_line(alloc, &mut text, &event)?;
    }
    Ok(text)
}

/// The script of the events that a seed gives in so many rounds: a line for each event, in the forms of scripts. It
/// takes memory for the whole of it (this profile).
#[tactic(auto, unfolding(crate::specs::ScriptText::generated_script))]
pub fn script_text(alloc: Global, seed: u32, count: u32) -> Result<Vec<u8>, OutOfMemory>
    ensures { IfOk result (λ text. text.items ≡ generated_script seed count) }
{
    let text = text_of(alloc, Generator::new(seed, count))?;
    Ok(text.into_bytes())
}
