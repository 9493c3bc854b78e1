//! Words, numbers, bytes and ports in a line of a script.

ghost use Rattle.std.specs.Prelude.{◌≡◌, ◌≤◌, ◌==◌, ◌+◌, ◌∷◌, ◌++◌, [], false, not, map, filter, slice_index, take};
ghost use Rattle.std.specs.Prelude.{IfSome, MatchOption, length};
ghost use Rattle.std.specs.List.{list_all, slice_split};
ghost use Rattle.std.specs.Option.{ok_or};
ghost use Rattle.script_events.specs.declared.event.Lost.{Lost};
ghost use Rattle.script_events.specs.declared.fault.LineFault.TheVariants as fault;
ghost use Rattle.script_events.specs.Words.{words_in, some_digits_value, digits_in, number_of_word, mask_in};
ghost use Rattle.ide_types.specs.Names.{is_printable};
ghost use Rattle.script_events.specs.Words.{bytes_in, port_of_word, any_port_of_word, lost_of_word};
ghost use Rattle.script_events.specs.Parse.{IsLineAnswer};

use crate::{LineError, LineFault, Lost};
use arrayvec::ArrayVec;
use hex::FromHexError;
use ide_types::{Bytes, PortName, Side};
use memchr::memchr;
use std::alloc::Global;

/// Whether each byte is a space or a printed character. All bytes are looked at, so that many are at once.
pub fn is_printed(line: &[u8]) -> bool
    ensures { result ≡ list_all is_printable line.now }
{
    let mut printed = true;
    for byte in line {
        printed &= 0x20 <= *byte && *byte <= 0x7e;
    }
    printed
}

/// The bytes before the first one of a value and those after it; `None` if there is none.
#[tactic(auto, using(crate::proofs::Cuts::cut_at, crate::proofs::Cuts::uncut, crate::proofs::Cuts::within))]
pub fn split_at_byte(value: u8, bytes: &[u8]) -> Option<(&[u8], &[u8])>
    ensures parts { MatchOption result (slice_split (λ b. b == value) bytes.now ≡ bytes.now ∷ [])
        (λ p. slice_split (λ b. b == value) bytes.now ≡ p.0.now ∷ slice_split (λ b. b == value) p.1.now) }
    ensures shorter { IfSome result (λ p. length p.0.now + 1 + length p.1.now ≡ length bytes.now) }
{
    match memchr(value, bytes) {
        Some(end) => {
            let (before, _) = bytes.split_at(end);
            let (_, after) = bytes.split_at(end + 1);
            Some((before, after))
        }
        None => None,
    }
}

/// The first words of a line.
pub type Words<'a> = ArrayVec<&'a [u8], 7>;

// Adds what stands between two spaces, if it is a word and there is room.
#[tactic(auto, using(crate::proofs::FirstWords::none_more))]
fn push_word<'a>(words: &mut Words<'a>, word: &'a [u8])
    ensures { map (λ w. w.now) words.new.items ≡ take 7 (map (λ w. w.now) words.old.items
        ++ filter (λ w. not (length w == 0)) (word.now ∷ [])) }
{
    if words.is_full() {
        return;
    }
    if !word.is_empty() {
        words.push(word);
    }
}

/// The words between the spaces of a line, and of more than seven the first seven.
pub fn words_of(line: &[u8]) -> Words<'_>
    ensures { map (λ w. w.now) result.items ≡ take 7 (words_in line.now) }
{
    let mut words = ArrayVec::new();
    let mut rest = line;
    while let Some((word, after)) = split_at_byte(b' ', rest) {
        push_word(&mut words, word);
        rest = after;
    }
    push_word(&mut words, rest);
    words
}

// Whether std would read a sign, which no number here has.
fn is_signed(word: &[u8]) -> bool
    ensures { result ≡ (slice_index word.now 0 == 43) }
{
    matches!(word, [b'+', ..])
}

// The number that digits write, if there is one and it is below 2^64.
fn value(digits: &[u8], radix: u32) -> Option<u64>
    requires lower_bound { 2 ≤ radix }
    requires upper_bound { radix ≤ 36 }
    requires unsigned { (slice_index digits.now 0 == 43) ≡ false }
    ensures { result ≡ some_digits_value radix digits.now }
{
    match str::from_utf8(digits) {
        Ok(text) => u64::from_str_radix(text, radix).ok(),
        Err(_) => None,
    }
}

// The number that 1 to `most` digits write, if it is below 2^64.
fn digits(word: &[u8], radix: u32, most: usize) -> Option<u64>
    requires lower_bound { 2 ≤ radix }
    requires upper_bound { radix ≤ 36 }
    ensures { result ≡ digits_in radix most word.now }
{
    if word.len() > most || is_signed(word) {
        return None;
    }
    value(word, radix)
}

#[tactic(auto, unfolding(crate::specs::Words::number_of_word))]
pub(crate) fn number(word: &[u8]) -> Option<u64>
    ensures { result ≡ number_of_word word.now }
{
    match word.strip_prefix(b"0x".as_slice()) {
        Some(hexadecimal) => digits(hexadecimal, 16, 16),
        None => digits(word, 10, 20),
    }
}

pub(crate) fn number_or_fault(word: &[u8]) -> Result<u64, LineFault>
    ensures { result ≡ ok_or (number_of_word word.now) fault.Number }
{
    number(word).ok_or(LineFault::Number)
}

#[tactic(auto, unfolding(crate::specs::Words::mask_in))]
fn mask(word: &[u8]) -> Option<u8>
    ensures { result ≡ mask_in word.now }
{
    let mut byte = [0];
    match hex::decode_to_slice(word, &mut byte) {
        Ok(()) => Some(byte[0]),
        Err(_) => None,
    }
}

pub(crate) fn mask_or_fault(word: &[u8]) -> Result<u8, LineFault>
    ensures { result ≡ ok_or (mask_in word.now) fault.Hex }
{
    mask(word).ok_or(LineFault::Hex)
}

/// The bytes that a word spells in hexadecimal, `-` for none.
#[tactic(auto, unfolding(crate::specs::Words::bytes_in))]
pub fn bytes_at(alloc: Global, word: &[u8]) -> Result<Bytes, LineError>
    ensures { IsLineAnswer (ok_or (bytes_in word.now) fault.Hex) result }
{
    if word == b"-".as_slice() {
        return Ok(Bytes::new(Vec::new(alloc)));
    }
    match hex::decode(alloc, word) {
        Ok(bytes) => Ok(Bytes::new(bytes)),
        Err(FromHexError::OutOfMemory) => Err(LineError::Memory),
        Err(_) => Err(LineError::Fault(LineFault::Hex)),
    }
}

#[tactic(auto, unfolding(crate::specs::Words::port_of_word))]
fn port(word: &[u8]) -> Option<PortName>
    ensures { result ≡ port_of_word word.now }
{
    let [side, link] = word else {
        return None;
    };
    let link = match *link {
        b'0'..=b'7' => *link - b'0',
        _ => return None,
    };
    match *side {
        b'h' => Some(PortName {
            side: Side::Host,
            line: link,
        }),
        b'd' => Some(PortName {
            side: Side::Device,
            line: link,
        }),
        _ => None,
    }
}

pub(crate) fn port_or_fault(word: &[u8]) -> Result<PortName, LineFault>
    ensures { result ≡ ok_or (port_of_word word.now) fault.Word }
{
    port(word).ok_or(LineFault::Word)
}

#[tactic(auto, unfolding(crate::specs::Words::any_port_of_word))]
fn any_port(word: &[u8]) -> Option<PortName>
    ensures { result ≡ any_port_of_word word.now }
{
    let [letter, link] = word else {
        return None;
    };
    let link = match *link {
        b'0'..=b'7' => *link - b'0',
        _ => return None,
    };
    match *letter {
        b'h' => Some(PortName {
            side: Side::Host,
            line: link,
        }),
        b'd' => Some(PortName {
            side: Side::Device,
            line: link,
        }),
        b'u' => Some(PortName {
            side: Side::Device,
            line: 8 + link,
        }),
        b'w' => Some(PortName {
            side: Side::Host,
            line: 16 + link,
        }),
        _ => None,
    }
}

pub(crate) fn any_port_or_fault(word: &[u8]) -> Result<PortName, LineFault>
    ensures { result ≡ ok_or (any_port_of_word word.now) fault.Word }
{
    any_port(word).ok_or(LineFault::Word)
}

pub(crate) fn lost_at(word: &[u8]) -> Result<Lost, LineFault>
    ensures { result ≡ ok_or (lost_of_word word.now) fault.Word }
{
    if word == b"request".as_slice() {
        return Ok(Lost::Request);
    }
    if word == b"reply".as_slice() {
        return Ok(Lost::Reply);
    }
    Err(LineFault::Word)
}
