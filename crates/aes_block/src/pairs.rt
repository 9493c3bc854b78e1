//! The same on two blocks at once, which stand in the halves of a vector of 32 bytes. Where vectors have 256 bits, one
//! shuffle looks up in both.

ghost use Rattle.std.specs.Prelude.{◌≡◌, ℕ, T, List, map, length, ◌++◌};
ghost use lib.Lanes.{Each1};
ghost use Rattle.aes_block.specs.Aes.{add_round_key, shift_rows, sub_bytes};
ghost use Rattle.aes_block.specs.Inside.{after_round, spread};
ghost use Rattle.aes_block.specs.Nibbles.{AreCoded, IsVector, code, entry_of, first_part, is_lookup_place, key_code};
ghost use Rattle.aes_block.specs.Nibbles.{last_key, last_of, once_of, second_part, twice_of};

use crate::lanes::{
    CODE_HIGH, CODE_LOW, INVERSES, LAST_FIRST, LAST_SECOND, ONCE_FIRST, ONCE_SECOND, SCALED,
    TWICE_FIRST, TWICE_SECOND,
};
use std::simd::prelude::*;

/// Two vectors as one, the first in its lower half.
#[inline(always)]
pub fn side_by_side(a: u8x16, b: u8x16) -> u8x32
    ensures both { result ≡ a ++ b }
    ensures long { (length a ≡ 16) × (length b ≡ 16) }
{
    a.shuffle(
        b,
        [
            0, 1, 2, 3, 4, 5, 6, 7, 8, 9, 10, 11, 12, 13, 14, 15, 16, 17, 18, 19, 20, 21, 22, 23,
            24, 25, 26, 27, 28, 29, 30, 31,
        ],
    )
}

// The halves of a vector.
#[inline(always)]
fn halves(v: u8x32) -> (u8x16, u8x16)
    ensures { (a b : List ℕ) → length a ≡ 16 → length b ≡ 16 → v ≡ a ++ b → (result.0 ≡ a) × (result.1 ≡ b) }
{
    (v.extract::<0, 16>(), v.extract::<16, 16>())
}

// Entries of a table of 16, at places below 16; 0 at places from 128 on.
#[inline(always)]
fn look(table: [u8; 16], at: u8x32) -> u8x32
    requires { Each1 (λ j. T (is_lookup_place j)) at }
    ensures { result ≡ map (entry_of table) at }
{
    let table = u8x16::from_array(table);
    side_by_side(table, table).swizzle_dyn_within::<16>(at)
}

// The codes of bytes.
#[inline(always)]
fn coded(v: u8x32) -> u8x32
    ensures { result ≡ map code v }
{
    let high = v >> u8x32::splat(4);
    look(CODE_LOW, v & u8x32::splat(15)) ^ look(CODE_HIGH, high)
}

// The two parts of the inverses of codes.
#[inline(always)]
fn parts(v: u8x32) -> (u8x32, u8x32)
    ensures first { result.0 ≡ map first_part v }
    ensures second { result.1 ≡ map second_part v }
{
    let high = v >> u8x32::splat(4);
    let low = v & u8x32::splat(15);
    let both = low ^ high;
    let scaled = look(SCALED, low);
    let first = look(INVERSES, high) ^ scaled;
    let second = look(INVERSES, both) ^ scaled;
    (look(INVERSES, first) ^ both, look(INVERSES, second) ^ high)
}

// The S-box of codes, but for its constant, as bytes.
#[inline(always)]
fn last(v: u8x32) -> u8x32
    ensures { result ≡ map last_of v }
{
    let p = parts(v);
    look(LAST_FIRST, p.0) ^ look(LAST_SECOND, p.1)
}

// The S-box of codes, but for its constant, as codes; and twice it.
#[inline(always)]
fn once_and_twice(v: u8x32) -> (u8x32, u8x32)
    ensures once { result.0 ≡ map once_of v }
    ensures twice { result.1 ≡ map twice_of v }
{
    let p = parts(v);
    (
        look(ONCE_FIRST, p.0) ^ look(ONCE_SECOND, p.1),
        look(TWICE_FIRST, p.0) ^ look(TWICE_SECOND, p.1),
    )
}

// The places whose bytes a round adds up, as in one block, in each half.
const ROW0: [u8; 32] = [
    0, 5, 10, 15, 4, 9, 14, 3, 8, 13, 2, 7, 12, 1, 6, 11, 0, 5, 10, 15, 4, 9, 14, 3, 8, 13, 2, 7,
    12, 1, 6, 11,
];

const ROW1: [u8; 32] = [
    5, 10, 15, 0, 9, 14, 3, 4, 13, 2, 7, 8, 1, 6, 11, 12, 5, 10, 15, 0, 9, 14, 3, 4, 13, 2, 7, 8,
    1, 6, 11, 12,
];

const ROW2: [u8; 32] = [
    10, 15, 0, 5, 14, 3, 4, 9, 2, 7, 8, 13, 6, 11, 12, 1, 10, 15, 0, 5, 14, 3, 4, 9, 2, 7, 8, 13,
    6, 11, 12, 1,
];

const ROW3: [u8; 32] = [
    15, 0, 5, 10, 3, 4, 9, 14, 7, 8, 13, 2, 11, 12, 1, 6, 15, 0, 5, 10, 3, 4, 9, 14, 7, 8, 13, 2,
    11, 12, 1, 6,
];

/// Two blocks in codes, with the words of the first round added.
#[inline(always)]
pub fn first_round(a: u8x16, b: u8x16, k: u8x16) -> u8x32
    ensures { (w : List ℕ) → IsVector a → IsVector b → k ≡ map code (spread w)
        → AreCoded (add_round_key w a) (add_round_key w b) result }
{
    coded(side_by_side(a, b)) ^ side_by_side(k, k)
}

/// A round with MixColumns, on the codes of two blocks.
#[inline(always)]
pub fn round(v: u8x32, k: u8x16) -> u8x32
    ensures { (w s t : List ℕ) → AreCoded s t v → k ≡ map key_code (spread w)
        → AreCoded (after_round w s) (after_round w t) result }
{
    let p = once_and_twice(v);
    let once = p.0;
    let twice = p.1;
    let thrice = once ^ twice;
    let upper = twice.swizzle_dyn_within::<16>(u8x32::from_array(ROW0))
        ^ thrice.swizzle_dyn_within::<16>(u8x32::from_array(ROW1));
    let lower = once.swizzle_dyn_within::<16>(u8x32::from_array(ROW2))
        ^ once.swizzle_dyn_within::<16>(u8x32::from_array(ROW3));
    upper ^ (lower ^ side_by_side(k, k))
}

/// The last round, from the codes of two blocks to their bytes.
#[inline(always)]
pub fn last_round(v: u8x32, k: u8x16) -> (u8x16, u8x16)
    ensures { (w s t : List ℕ) → AreCoded s t v → k ≡ map last_key (spread w)
        → (result.0 ≡ add_round_key w (shift_rows (sub_bytes s)))
        × (result.1 ≡ add_round_key w (shift_rows (sub_bytes t))) }
{
    halves(last(v).swizzle_dyn_within::<16>(u8x32::from_array(ROW0)) ^ side_by_side(k, k))
}
