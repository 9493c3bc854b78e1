//! The S-box on the 16 bytes of a vector, by look-ups of 4 bits within vectors: no address in memory depends on
//! the bytes (M. Hamburg, Accelerating AES with vector permute instructions, 2009).

ghost use Rattle.std.specs.Prelude.{◌≡◌, ℕ, T, List, map, bit_xor};
ghost use lib.Lanes.{Each1};
ghost use Rattle.aes_block.specs.Aes.{add_round_key, shift_rows, sub_bytes};
ghost use Rattle.aes_block.specs.Inside.{after_round, spread};
ghost use Rattle.aes_block.specs.Nibbles.{IsCoded, IsVector, code, entry_of, first_part, is_lookup_place, key_code};
ghost use Rattle.aes_block.specs.Nibbles.{last_key, last_of, once_of, second_part, twice_of};

use std::simd::prelude::*;

pub(crate) const INVERSES: [u8; 16] = [
    0x80, 0x01, 0x08, 0x0d, 0x0f, 0x06, 0x05, 0x0e, 0x02, 0x0c, 0x0b, 0x0a, 0x09, 0x03, 0x07, 0x04,
];

pub(crate) const SCALED: [u8; 16] = [
    0x80, 0x07, 0x0b, 0x0f, 0x06, 0x0a, 0x04, 0x01, 0x09, 0x08, 0x05, 0x02, 0x0c, 0x0e, 0x0d, 0x03,
];

pub(crate) const CODE_LOW: [u8; 16] = [
    0x00, 0x70, 0x2a, 0x5a, 0x98, 0xe8, 0xb2, 0xc2, 0x08, 0x78, 0x22, 0x52, 0x90, 0xe0, 0xba, 0xca,
];

pub(crate) const CODE_HIGH: [u8; 16] = [
    0x00, 0x4d, 0x7c, 0x31, 0x7d, 0x30, 0x01, 0x4c, 0x81, 0xcc, 0xfd, 0xb0, 0xfc, 0xb1, 0x80, 0xcd,
];

pub(crate) const ONCE_FIRST: [u8; 16] = [
    0x00, 0x3e, 0x50, 0xcb, 0x8f, 0xe1, 0x9b, 0xb1, 0x44, 0xf5, 0x2a, 0x14, 0x6e, 0x7a, 0xdf, 0xa5,
];

pub(crate) const ONCE_SECOND: [u8; 16] = [
    0x00, 0x23, 0xe2, 0xfa, 0x15, 0xd4, 0x18, 0x36, 0xef, 0xd9, 0x2e, 0x0d, 0xc1, 0xcc, 0xf7, 0x3b,
];

pub(crate) const TWICE_FIRST: [u8; 16] = [
    0x00, 0x24, 0x71, 0x0b, 0xc6, 0x93, 0x7a, 0xe2, 0xcd, 0x2f, 0x98, 0xbc, 0x55, 0xe9, 0xb7, 0x5e,
];

pub(crate) const TWICE_SECOND: [u8; 16] = [
    0x00, 0x29, 0xe1, 0x0a, 0x40, 0x88, 0xeb, 0x69, 0x4a, 0x23, 0x82, 0xab, 0xc8, 0x63, 0xa1, 0xc2,
];

pub(crate) const LAST_FIRST: [u8; 16] = [
    0x00, 0xc7, 0xbd, 0x6f, 0x17, 0x6d, 0xd2, 0xd0, 0x78, 0xa8, 0x02, 0xc5, 0x7a, 0xbf, 0xaa, 0x15,
];

pub(crate) const LAST_SECOND: [u8; 16] = [
    0x00, 0x6a, 0xbb, 0x5f, 0xa5, 0x74, 0xe4, 0xcf, 0xfa, 0x35, 0x2b, 0x41, 0xd1, 0x90, 0x1e, 0x8e,
];

// Entries of a table of 16, at places below 16; 0 at places from 128 on.
#[inline(always)]
fn look(table: [u8; 16], at: u8x16) -> u8x16
    requires { Each1 (λ j. T (is_lookup_place j)) at }
    ensures { result ≡ map (entry_of table) at }
{
    u8x16::from_array(table).swizzle_dyn(at)
}

/// The codes of bytes.
#[inline(always)]
pub fn coded(v: u8x16) -> u8x16
    ensures { result ≡ map code v }
{
    let high = v >> u8x16::splat(4);
    look(CODE_LOW, v & u8x16::splat(15)) ^ look(CODE_HIGH, high)
}

/// The two parts of the inverses of codes.
#[inline(always)]
fn parts(v: u8x16) -> (u8x16, u8x16)
    ensures first { result.0 ≡ map first_part v }
    ensures second { result.1 ≡ map second_part v }
{
    let high = v >> u8x16::splat(4);
    let low = v & u8x16::splat(15);
    let both = low ^ high;
    let scaled = look(SCALED, low);
    let first = look(INVERSES, high) ^ scaled;
    let second = look(INVERSES, both) ^ scaled;
    (look(INVERSES, first) ^ both, look(INVERSES, second) ^ high)
}

/// The S-box of codes, but for its constant, as bytes.
#[inline(always)]
pub fn last(v: u8x16) -> u8x16
    ensures { result ≡ map last_of v }
{
    let p = parts(v);
    look(LAST_FIRST, p.0) ^ look(LAST_SECOND, p.1)
}

/// The S-box of codes, but for its constant, as codes; and twice it.
#[inline(always)]
pub fn once_and_twice(v: u8x16) -> (u8x16, u8x16)
    ensures once { result.0 ≡ map once_of v }
    ensures twice { result.1 ≡ map twice_of v }
{
    let p = parts(v);
    (
        look(ONCE_FIRST, p.0) ^ look(ONCE_SECOND, p.1),
        look(TWICE_FIRST, p.0) ^ look(TWICE_SECOND, p.1),
    )
}

/// SubBytes (FIPS 197 section 5.1.1).
#[inline(always)]
pub fn sub_bytes(v: u8x16) -> u8x16
    ensures { result ≡ sub_bytes v }
{
    last(coded(v)) ^ u8x16::splat(0x63)
}

// The places, row by row of the state's columns, whose bytes a round adds up: those that ShiftRows brings to the row,
// and to the next rows of its column.
const ROW0: [u8; 16] = [0, 5, 10, 15, 4, 9, 14, 3, 8, 13, 2, 7, 12, 1, 6, 11];

const ROW1: [u8; 16] = [5, 10, 15, 0, 9, 14, 3, 4, 13, 2, 7, 8, 1, 6, 11, 12];

const ROW2: [u8; 16] = [10, 15, 0, 5, 14, 3, 4, 9, 2, 7, 8, 13, 6, 11, 12, 1];

const ROW3: [u8; 16] = [15, 0, 5, 10, 3, 4, 9, 14, 7, 8, 13, 2, 11, 12, 1, 6];

/// A block in codes, with the words of the first round added.
#[inline(always)]
pub fn first_round(block: u8x16, k: u8x16) -> u8x16
    ensures { (w : List ℕ) → IsVector block → k ≡ map code (spread w) → IsCoded (add_round_key w block) result }
{
    coded(block) ^ k
}

/// A round with MixColumns, on codes.
#[inline(always)]
pub fn round(v: u8x16, k: u8x16) -> u8x16
    ensures { (w s : List ℕ) → IsCoded s v → k ≡ map key_code (spread w) → IsCoded (after_round w s) result }
{
    let p = once_and_twice(v);
    let once = p.0;
    let twice = p.1;
    let thrice = once ^ twice;
    let upper = twice.swizzle_dyn(u8x16::from_array(ROW0))
        ^ thrice.swizzle_dyn(u8x16::from_array(ROW1));
    let lower = once.swizzle_dyn(u8x16::from_array(ROW2))
        ^ once.swizzle_dyn(u8x16::from_array(ROW3));
    upper ^ (lower ^ k)
}

/// The last round, from codes to bytes.
#[inline(always)]
pub fn last_round(v: u8x16, k: u8x16) -> u8x16
    ensures { (w s : List ℕ) → IsCoded s v → k ≡ map last_key (spread w)
        → result ≡ add_round_key w (shift_rows (sub_bytes s)) }
{
    last(v).swizzle_dyn(u8x16::from_array(ROW0)) ^ k
}
