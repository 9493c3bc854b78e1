//! Words that several families of events have: numbers, and what is lost.

ghost use Rattle.std.specs.Prelude.{◌≡◌, map};
ghost use Rattle.std.specs.Option.{ok_or};
ghost use Rattle.script_events.specs.declared.fault.LineFault.TheVariants as fault;
ghost use Rattle.script_events.specs.Parts.{loss_in, number_and_loss, operation_in, one_number_in, two_numbers_in};
ghost use Rattle.script_events.specs.Parts.{length_in};

use crate::words::{lost_at, number, number_or_fault};
use crate::{LineFault, Loss};

// What is lost, by the last words of an operation.
pub(crate) fn loss(words: &[&[u8]]) -> Result<Option<Loss>, LineFault>
    ensures { result ≡ loss_in (map (λ w. w.now) words.now) }
{
    match words {
        [] => Ok(None),
        [lose, exchange, lost] => {
            if *lose != b"lose".as_slice() {
                return Err(LineFault::Word);
            }
            let exchange = number_or_fault(exchange)?;
            let lost = lost_at(lost)?;
            Ok(Some(Loss { exchange, lost }))
        }
        _ => Err(LineFault::Count),
    }
}

pub(crate) fn one_number(words: &[&[u8]]) -> Result<u64, LineFault>
    ensures { result ≡ one_number_in (map (λ w. w.now) words.now) }
{
    let [number] = words else {
        return Err(LineFault::Count);
    };
    number_or_fault(number)
}

pub(crate) fn two_numbers(words: &[&[u8]]) -> Result<(u64, u64), LineFault>
    ensures { result ≡ two_numbers_in (map (λ w. w.now) words.now) }
{
    let [first, second] = words else {
        return Err(LineFault::Count);
    };
    let first = number_or_fault(first)?;
    let second = number_or_fault(second)?;
    Ok((first, second))
}

// A number, and what is lost.
pub(crate) fn asked(words: &[&[u8]]) -> Result<(u64, Option<Loss>), LineFault>
    ensures { result ≡ number_and_loss (map (λ w. w.now) words.now) }
{
    let [number, rest @ ..] = words else {
        return Err(LineFault::Count);
    };
    if !matches!(rest, [] | [_, _, _]) {
        return Err(LineFault::Count);
    }
    let number = number_or_fault(number)?;
    let lose = loss(rest)?;
    Ok((number, lose))
}

// Two numbers, and what is lost.
pub(crate) fn operation(words: &[&[u8]]) -> Result<(u64, u64, Option<Loss>), LineFault>
    ensures { result ≡ operation_in (map (λ w. w.now) words.now) }
{
    let [first, second, rest @ ..] = words else {
        return Err(LineFault::Count);
    };
    if !matches!(rest, [] | [_, _, _]) {
        return Err(LineFault::Count);
    }
    let first = number_or_fault(first)?;
    let second = number_or_fault(second)?;
    let lose = loss(rest)?;
    Ok((first, second, lose))
}

// How many bytes are shown: 1 to 256.
fn length(word: &[u8]) -> Option<u64>
    ensures { result ≡ length_in word.now }
{
    match number(word) {
        Some(number) if 1 <= number && number <= 256 => Some(number),
        _ => None,
    }
}

pub(crate) fn length_or_fault(word: &[u8]) -> Result<u64, LineFault>
    ensures { result ≡ ok_or (length_in word.now) fault.Number }
{
    length(word).ok_or(LineFault::Number)
}
