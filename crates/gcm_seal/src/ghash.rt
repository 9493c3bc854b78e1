//! GHASH of blocks (SP 800-38D section 6.4) by look-ups of 4 bits within vectors: the code is written so that no
//! address in memory and no branch depends on the hash key or on a block.

ghost use Rattle.std.specs.Prelude.{◌≡◌, ℕ, List, T, ◌+◌, ◌*◌, ◌^◌, ◌<◌, ◌≤◌, ◌==◌, ◌||◌, ◌++◌, bit_xor, length, map};
ghost use Rattle.std.specs.Prelude.{◌/◌, slice_index, take, ◌∷◌};
ghost use Rattle.std.specs.Int.{div_ceil, from_be_bytes, to_be_bytes, w128};
ghost use lib.Lanes.{Each1, zip2};
ghost use Rattle.aes_block.specs.Nibbles.{IsVector, entry_of};
ghost use Rattle.gcm_seal.specs.Inside.{AreMultiples, AreRows, AreSteps, IsRow, IsTable, hash_after_blocks};
ghost use Rattle.gcm_seal.specs.Inside.{block_product, byte_product, joined_bytes, padded_block, padded_blocks};
ghost use Rattle.gcm_seal.specs.Inside.{raised_block, step_x, sum_of_four};

use crate::MAX_BYTES;
use aes_block::side_by_side;
use std::simd::prelude::*;

// x^128 modulo the polynomial, 1 + x + x^2 + x^7, as a block.
const REDUCTION: u128 = 0xe1000000000000000000000000000000;

fn times_x(b: u128) -> u128
    ensures { result ≡ step_x b }
{
    (b % 2 * REDUCTION) ^ b / 2
}

// x^4 • b.
fn times_x4(b: u128) -> u128
    ensures { result ≡ raised_block 4 b }
{
    times_x(times_x(times_x(times_x(b))))
}

/// The bytes of a block, as a number.
#[inline(always)]
pub fn vector_of(n: u128) -> u8x16
    ensures { result ≡ to_be_bytes w128 n }
{
    u64x2::from_array([(n & 0xffff_ffff_ffff_ffff) as u64, (n >> 64) as u64])
        .to_le_bytes()
        .reverse()
}

// The number of the bytes of a block.
#[inline(always)]
fn number_of(v: u8x16) -> u128
    ensures { result ≡ from_be_bytes w128 v }
{
    u128::from_be_bytes(v.to_array())
}

// The bytes of a block, and of its products by x, x^2 and x^3.
#[derive(Clone, Copy)]
struct Steps {
    once: u8x16,
    by_x: u8x16,
    by_x2: u8x16,
    by_x3: u8x16,
}

#[inline(always)]
fn steps_of(b: u128) -> Steps
    ensures { AreSteps b result }
{
    let x = times_x(b);
    let x2 = times_x(x);
    let x3 = times_x(x2);
    Steps {
        once: vector_of(b),
        by_x: vector_of(x),
        by_x2: vector_of(x2),
        by_x3: vector_of(x3),
    }
}

// For the bits of 8, 4, 2 and 1 in the numbers from 0 to 15: 0 if the bit is set, else 128, at which a look-up gives 0.
const EIGHT: [u8; 16] = [
    128, 128, 128, 128, 128, 128, 128, 128, 0, 0, 0, 0, 0, 0, 0, 0,
];

const FOUR: [u8; 16] = [
    128, 128, 128, 128, 0, 0, 0, 0, 128, 128, 128, 128, 0, 0, 0, 0,
];

const TWO: [u8; 16] = [
    128, 128, 0, 0, 128, 128, 0, 0, 128, 128, 0, 0, 128, 128, 0, 0,
];

const ONE: [u8; 16] = [
    128, 0, 128, 0, 128, 0, 128, 0, 128, 0, 128, 0, 128, 0, 128, 0,
];

// Byte `j` of `v` in the lanes in which `unset` is 0, and 0 in those in which it is 128; and the same of `w`.
#[inline(always)]
fn chosen(v: u8x16, w: u8x16, unset: u8x16, j: u8) -> u8x32
    requires index { j < 16 }
    requires places { Each1 (λ s. T (s == 0 || s == 128)) unset }
    ensures { result ≡ map (λ s. entry_of v (bit_xor s j)) unset ++ map (λ s. entry_of w (bit_xor s j)) unset }
{
    let at = side_by_side(unset, unset) ^ u8x32::splat(j);
    side_by_side(v, w).swizzle_dyn_within::<16>(at)
}

// A byte of the multiples of a block by the upper 4 bits of a byte, and by the lower.
#[derive(Clone, Copy)]
struct Row {
    upper: u8x16,
    lower: u8x16,
}

// Byte `j` of the multiples of two blocks by the polynomials of 4 bits.
#[inline(always)]
fn row_of(s: &Steps, t: &Steps, j: u8) -> Row
    requires { j < 16 }
    ensures { (b c : ℕ) → AreSteps b s.now → AreSteps c t.now → IsTable b j result.upper × IsTable c j result.lower }
{
    let first = chosen(s.once, t.once, u8x16::from_array(EIGHT), j)
        ^ chosen(s.by_x, t.by_x, u8x16::from_array(FOUR), j);
    let second = chosen(s.by_x2, t.by_x2, u8x16::from_array(TWO), j)
        ^ chosen(s.by_x3, t.by_x3, u8x16::from_array(ONE), j);
    let both = first ^ second;
    Row {
        upper: both.extract::<0, 16>(),
        lower: both.extract::<16, 16>(),
    }
}

fn rows(h: u128) -> [Row; 16]
    ensures { AreRows h result }
{
    let upper = steps_of(h);
    let lower = steps_of(times_x4(h));
    let none = Row {
        upper: u8x16::splat(0),
        lower: u8x16::splat(0),
    };
    let mut rows = [none; 16];
    for j in 0..16u8 {
        rows[j as usize] = row_of(&upper, &lower, j);
    }
    rows
}

/// The 16 bytes of the multiples of a hash key and of its powers up to the fourth, ready for products with four blocks
/// at once.
#[derive(Drop)]
pub struct Multiples {
    first: [Row; 16],
    second: [Row; 16],
    third: [Row; 16],
    fourth: [Row; 16],
}

/// The multiples of `h`, which take 2 KiB.
pub fn multiples_of(h: u128) -> Multiples
    ensures { AreMultiples h result }
{
    let first = rows(h);
    let square = product_of_number(&first, h);
    let second = rows(square);
    let cube = product_of_number(&second, h);
    let fourth = product_of_number(&second, square);
    Multiples {
        first,
        second,
        third: rows(cube),
        fourth: rows(fourth),
    }
}

// A byte of the products of each byte of a block.
#[inline(always)]
fn partial(row: &Row, v: u8x16) -> u8x16
    ensures { (h j : ℕ) → IsRow h j row.now → result ≡ map (byte_product h j) v }
{
    let upper = v >> u8x16::splat(4);
    let lower = v & u8x16::splat(15);
    row.upper.swizzle_dyn(upper) ^ row.lower.swizzle_dyn(lower)
}

// The same of two blocks, with a row for each.
#[inline(always)]
fn partial_two(a: &Row, b: &Row, v: u8x32) -> u8x32
    ensures { (g h j : ℕ) (x y : List ℕ) → IsVector x → IsVector y → v ≡ x ++ y → IsRow g j a.now → IsRow h j b.now
        → result ≡ map (byte_product g j) x ++ map (byte_product h j) y }
{
    let upper = v >> u8x32::splat(4);
    let lower = v & u8x32::splat(15);
    side_by_side(a.upper, b.upper).swizzle_dyn_within::<16>(upper)
        ^ side_by_side(a.lower, b.lower).swizzle_dyn_within::<16>(lower)
}

// The sum of the halves of a vector.
#[inline(always)]
fn folded(v: u8x32) -> u8x16
    ensures { (a b : List ℕ) → length a ≡ 16 → length b ≡ 16 → v ≡ a ++ b → result ≡ zip2 bit_xor a b }
{
    v.extract::<0, 16>() ^ v.extract::<16, 16>()
}

const UP: [usize; 16] = [
    15, 16, 17, 18, 19, 20, 21, 22, 23, 24, 25, 26, 27, 28, 29, 30,
];

// Moves a sum of 32 bytes up by one byte, and adds the next.
#[inline(always)]
fn moved(low: u8x16, high: u8x16, next: u8x16) -> (u8x16, u8x16)
    ensures sum { slice_index high 15 ≡ 0
        → joined_bytes (result.0 ++ result.1)
        ≡ bit_xor (joined_bytes next) (raised_block 8 (joined_bytes (low ++ high))) }
    ensures high { result.1 ≡ slice_index low 15 ∷ take 15 high }
{
    let none = u8x16::splat(0);
    (none.shuffle(low, UP) ^ next, low.shuffle(high, UP))
}

// z + x^128 w, reduced.
fn reduced(z: u128, w: u128) -> u128
    ensures { result ≡ bit_xor z (raised_block 128 w) }
{
    let d = w ^ (w << 127) ^ (w << 126) ^ (w << 121);
    z ^ (d ^ (d >> 1) ^ (d >> 2) ^ (d >> 7))
}

// A sum of 32 bytes, reduced.
#[inline(always)]
fn reduced_sum(low: u8x16, high: u8x16) -> u128
    ensures { result ≡ joined_bytes (low ++ high) }
{
    reduced(number_of(low), number_of(high))
}

// The product of a block with the one whose rows are given.
#[inline(always)]
fn product(rows: &[Row; 16], v: u8x16) -> u128
    ensures { (h : ℕ) → h < 2 ^ 128 → AreRows h rows.now → result ≡ block_product h (from_be_bytes w128 v) }
{
    let mut low = u8x16::splat(0);
    let mut high = u8x16::splat(0);
    for i in 0..16usize {
        let p = moved(low, high, partial(&rows[15 - i], v));
        low = p.0;
        high = p.1;
    }
    reduced_sum(low, high)
}

// The same, of the block as a number.
fn product_of_number(rows: &[Row; 16], x: u128) -> u128
    ensures { (h : ℕ) → h < 2 ^ 128 → AreRows h rows.now → result ≡ block_product h x }
{
    product(rows, vector_of(x))
}

/// The product of the hash key and a block.
pub fn times(m: &Multiples, x: u128) -> u128
    ensures { (h : ℕ) → h < 2 ^ 128 → AreMultiples h m.now → result ≡ block_product h x }
{
    product_of_number(&m.first, x)
}

// The sum of the products of `a`, `b`, `c` and `d` with the hash key to the powers of 4, 3, 2 and 1.
fn times_four(m: &Multiples, a: u8x16, b: u8x16, c: u8x16, d: u8x16) -> u128
    ensures { (h : ℕ) → h < 2 ^ 128 → AreMultiples h m.now
        → result ≡ sum_of_four h (from_be_bytes w128 a) (from_be_bytes w128 b) (from_be_bytes w128 c)
        (from_be_bytes w128 d) }
{
    let front = side_by_side(a, b);
    let back = side_by_side(c, d);
    let mut low = u8x16::splat(0);
    let mut high = u8x16::splat(0);
    for i in 0..16usize {
        let j = 15 - i;
        let next = partial_two(&m.fourth[j], &m.third[j], front)
            ^ partial_two(&m.second[j], &m.first[j], back);
        let p = moved(low, high, folded(next));
        low = p.0;
        high = p.1;
    }
    reduced_sum(low, high)
}

// Block `i` of `s`, with zeros past its end.
#[inline(always)]
fn block_at(s: &[u8], i: usize) -> u8x16
    requires { 16 * i < length s.now }
    ensures { from_be_bytes w128 result ≡ padded_block s.now i }
{
    let rest = &s[16 * i..];
    if rest.len() >= 16 {
        return u8x16::from_slice(&rest[..16]);
    }
    last_block(rest)
}

// The bytes of `rest`, with zeros past its end.
fn last_block(rest: &[u8]) -> u8x16
    ensures { from_be_bytes w128 result ≡ from_be_bytes w128 rest.now }
{
    let mut b = [0u8; 16];
    for k in 0..16 {
        b[k] = if k < rest.len() { rest[k] } else { 0 };
    }
    u8x16::from_array(b)
}

// The sum of a block, as a number, and another.
#[inline(always)]
fn added(y: u128, v: u8x16) -> u8x16
    ensures { from_be_bytes w128 result ≡ bit_xor y (from_be_bytes w128 v) }
{
    vector_of(y) ^ v
}

// The hash `y` after the four blocks of `s` from block `i` on.
#[inline(always)]
fn absorb_four(m: &Multiples, y: u128, s: &[u8], i: usize) -> u128
    requires { 16 * i + 48 < length s.now }
    ensures { (h : ℕ) → h < 2 ^ 128 → AreMultiples h m.now
        → result ≡ block_product h (bit_xor (block_product h (bit_xor (block_product h (bit_xor
        (block_product h (bit_xor y (padded_block s.now i))) (padded_block s.now (i + 1))))
        (padded_block s.now (i + 2)))) (padded_block s.now (i + 3))) }
{
    times_four(
        m,
        added(y, block_at(s, i)),
        block_at(s, i + 1),
        block_at(s, i + 2),
        block_at(s, i + 3),
    )
}

// The hash `y` after a block.
#[inline(always)]
fn absorb_one(m: &Multiples, y: u128, v: u8x16) -> u128
    ensures { (h : ℕ) → h < 2 ^ 128 → AreMultiples h m.now
        → result ≡ block_product h (bit_xor y (from_be_bytes w128 v)) }
{
    product(&m.first, added(y, v))
}

/// The hash `y` after the blocks of `s`.
pub fn absorb(m: &Multiples, y: u128, s: &[u8]) -> u128
    requires { length s.now ≤ MAX_BYTES }
    ensures { (h : ℕ) → h < 2 ^ 128 → AreMultiples h m.now
        → result ≡ hash_after_blocks h y (padded_blocks s.now (div_ceil (length s.now) 16)) }
{
    let n = (s.len() + 15) / 16;
    let mut x = y;
    'fours: for i in 0..n / 4 {
        x = absorb_four(m, x, s, 4 * i);
    }
    'rest: for i in 4 * (n / 4)..n {
        x = absorb_one(m, x, block_at(s, i));
    }
    x
}
