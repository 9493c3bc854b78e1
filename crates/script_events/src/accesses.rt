//! The events of reads that wait and of guarded memory that lines of a script spell.

ghost use Rattle.std.specs.Prelude.{◌≡◌, map};
ghost use Rattle.script_events.specs.Accesses.{mmio_in, access_event_by_word};

use crate::parts::{length_or_fault, one_number};
use crate::words::number_or_fault;
use crate::{AccessEvent, LineFault};

fn mmio(words: &[&[u8]]) -> Result<AccessEvent, LineFault>
    ensures { result ≡ mmio_in (map (λ w. w.now) words.now) }
{
    let [interface, bar, offset, length] = words else {
        return Err(LineFault::Count);
    };
    let interface = number_or_fault(interface)?;
    let bar = number_or_fault(bar)?;
    let offset = number_or_fault(offset)?;
    let length = length_or_fault(length)?;
    Ok(AccessEvent::Mmio {
        interface,
        bar,
        offset,
        length,
    })
}

// An event on a read that waits or on guarded memory; `None` if the first word is none of these events.
pub(crate) fn access_event(first: &[u8], rest: &[&[u8]]) -> Option<Result<AccessEvent, LineFault>>
    ensures { result ≡ access_event_by_word first.now (map (λ w. w.now) rest.now) }
{
    if first == b"answer".as_slice() {
        return Some(one_number(rest).map(|link| AccessEvent::Answer { link }));
    }
    if first == b"respond".as_slice() {
        return Some(one_number(rest).map(|link| AccessEvent::Respond { link }));
    }
    if first == b"mmio".as_slice() {
        return Some(mmio(rest));
    }
    None
}
