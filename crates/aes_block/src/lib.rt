//! The block cipher AES-256 (FIPS 197 of 2001, whose sections are cited).
//!
//! What the cipher computes is proved. Its code is written so that no branch and no address in memory depends on the
//! key or on the block: the S-box is looked up within vectors. That is no part of what is proved.
#![tactic(auto)]

ghost use Rattle.std.specs.Prelude.{◌≡◌, ℕ, List, [], ◌∷◌, ◌++◌, ◌+◌, ◌/◌, ◌%◌, ◌^◌, ◌<◌};
ghost use Rattle.std.specs.Int.{w32, to_be_bytes};
ghost use Rattle.aes_block.specs.Inside.{spread, words_of};
ghost use Rattle.aes_block.specs.Nibbles.{AreRoundKeys};
ghost use Rattle.aes_block.specs.Aes.{aes, round_key, round_words, sub_word, temp};

mod lanes;
mod pairs;

use lanes::{coded, first_round, last_round, round, sub_bytes};
pub use pairs::side_by_side;
use std::marker::Model;
use std::simd::prelude::*;

fn joined(a: u32, b: u32, c: u32, d: u32) -> u128
    ensures { words_of result ≡ a ∷ b ∷ c ∷ d ∷ [] }
{
    ((a as u128) << 96) + ((b as u128) << 64) + ((c as u128) << 32) + d as u128
}

fn sub_word(w: u32) -> u32
    ensures { result ≡ sub_word w }
{
    let v = u32x4::from_array([w, 0, 0, 0]).to_le_bytes();
    let s = u32x4::from_le_bytes(sub_bytes(v));
    s.to_array()[0]
}

// What is added to the word 8 back, in word `i`, after the word `t`.
fn temp(t: u32, i: usize) -> u32
    requires { i < 64 }
    ensures { result ≡ temp t i }
{
    if i % 8 == 0 {
        sub_word(t.rotate_left(8)) ^ (1 << (i / 8 + 23))
    } else if i % 8 == 4 {
        sub_word(t)
    } else {
        t
    }
}

fn expanded(key: &[u8; 32]) -> [u32; 60]
    ensures { result ≡ round_words key.now }
{
    let mut words = [0u32; 60];
    'load: for i in 0..8 {
        words[i] = u32::from_be_bytes([key[4 * i], key[4 * i + 1], key[4 * i + 2], key[4 * i + 3]]);
    }
    'expand: for i in 8..60 {
        words[i] = words[i - 8] ^ temp(words[i - 1], i);
    }
    words
}

// The bytes of the words of round `n`.
fn key_bytes(words: &[u32; 60], n: usize) -> u8x16
    requires { n < 15 }
    ensures { result ≡ spread (round_key words.now n) }
{
    vector([
        words[4 * n],
        words[4 * n + 1],
        words[4 * n + 2],
        words[4 * n + 3],
    ])
}

// The words of a round, as they are added.
#[derive(Clone, Copy)]
struct RoundKey {
    bytes: u8x16,
}

// The words of the rounds as they are added: to codes, and in the last round to bytes.
fn round_keys(words: &[u32; 60]) -> [RoundKey; 15]
    ensures { AreRoundKeys words.now result }
{
    let constant = u8x16::splat(0x63);
    let first = RoundKey {
        bytes: coded(key_bytes(words, 0)),
    };
    let mut keys = [first; 15];
    'keys: for n in 1..14 {
        keys[n] = RoundKey {
            bytes: coded(key_bytes(words, n) ^ constant),
        };
    }
    keys[14] = RoundKey {
        bytes: key_bytes(words, 14) ^ constant,
    };
    keys
}

/// A key of 32 bytes with its 15 round keys, ready to encrypt blocks (FIPS 197 section 5). Contracts see the key.
#[derive(Drop)]
pub struct Aes256 {
    key: [u8; 32],
    round_keys: [RoundKey; 15],
}

impl Model for Aes256 {
    ghost Value = { List ℕ };

    ghost view = { λ c. c.key };

    ghost invariant = { λ c. AreRoundKeys (round_words c.key) c.round_keys };
}

impl Aes256 {
    /// Expands a key of 32 bytes (FIPS 197 section 5.2). It is never refused and takes no memory.
    pub fn prepare(key: &[u8; 32]) -> Aes256
        ensures { result ≡ key.now }
    {
        let words = expanded(key);
        Aes256 {
            key: *key,
            round_keys: round_keys(&words),
        }
    }

    // The cipher's output at a block.
    #[inline(always)]
    fn output(&self, block: u8x16) -> u8x16
        ensures { result ≡ aes self.now block }
    {
        let mut s = first_round(block, self.round_keys[0].bytes);
        'rounds: for n in 1..14 {
            s = round(s, self.round_keys[n].bytes);
        }
        last_round(s, self.round_keys[14].bytes)
    }

    // The cipher's outputs at two blocks, in the halves of one vector.
    #[inline(always)]
    fn output_two(&self, a: u8x16, b: u8x16) -> (u8x16, u8x16)
        ensures first { result.0 ≡ aes self.now a }
        ensures second { result.1 ≡ aes self.now b }
    {
        let mut s = pairs::first_round(a, b, self.round_keys[0].bytes);
        'rounds: for n in 1..14 {
            s = pairs::round(s, self.round_keys[n].bytes);
        }
        pairs::last_round(s, self.round_keys[14].bytes)
    }

    // The same at four blocks, in two vectors.
    #[inline(always)]
    fn output_four(&self, a: u8x16, b: u8x16, c: u8x16, d: u8x16) -> (u8x16, u8x16, u8x16, u8x16)
        ensures first { result.0 ≡ aes self.now a }
        ensures second { result.1 ≡ aes self.now b }
        ensures third { result.2 ≡ aes self.now c }
        ensures fourth { result.3 ≡ aes self.now d }
    {
        let mut s = pairs::first_round(a, b, self.round_keys[0].bytes);
        let mut t = pairs::first_round(c, d, self.round_keys[0].bytes);
        'rounds: for n in 1..14 {
            let k = self.round_keys[n].bytes;
            s = pairs::round(s, k);
            t = pairs::round(t, k);
        }
        let k = self.round_keys[14].bytes;
        let s = pairs::last_round(s, k);
        let t = pairs::last_round(t, k);
        (s.0, s.1, t.0, t.1)
    }

    /// The cipher's output at a block of 16 bytes (FIPS 197 section 5.1).
    pub fn encrypt(&self, block: &[u8; 16]) -> [u8; 16]
        ensures { result ≡ aes self.now block.now }
    {
        self.output(u8x16::from_array(*block)).to_array()
    }

    /// The cipher's output at the block that begins with `front` and ends with the bytes of `n`, the highest
    /// first (FIPS 197 section 5.1).
    pub fn encrypt_counter(&self, front: &[u8; 12], n: u32) -> u8x16
        ensures { result ≡ aes self.now (front.now ++ to_be_bytes w32 n) }
    {
        self.output(with_counter(front, n))
    }

    /// The cipher's outputs at two blocks (FIPS 197 section 5.1): both blocks begin with `front`, and end with
    /// the bytes of `n` and of `n + 1`, the highest first.
    #[inline(never)]
    pub fn encrypt_counters(&self, front: &[u8; 12], n: u32) -> (u8x16, u8x16)
        requires { n < 0xffff_ffff }
        ensures first { result.0 ≡ aes self.now (front.now ++ to_be_bytes w32 n) }
        ensures second { result.1 ≡ aes self.now (front.now ++ to_be_bytes w32 (n + 1)) }
    {
        self.output_two(with_counter(front, n), with_counter(front, n + 1))
    }

    /// The cipher's outputs at four blocks (FIPS 197 section 5.1), in the same way, from `n` to `n + 3`.
    #[inline(never)]
    pub fn encrypt_four(&self, front: &[u8; 12], n: u32) -> (u8x16, u8x16, u8x16, u8x16)
        requires { n < 0xffff_fffd }
        ensures first { result.0 ≡ aes self.now (front.now ++ to_be_bytes w32 n) }
        ensures second { result.1 ≡ aes self.now (front.now ++ to_be_bytes w32 (n + 1)) }
        ensures third { result.2 ≡ aes self.now (front.now ++ to_be_bytes w32 (n + 2)) }
        ensures fourth { result.3 ≡ aes self.now (front.now ++ to_be_bytes w32 (n + 3)) }
    {
        self.output_four(
            with_counter(front, n),
            with_counter(front, n + 1),
            with_counter(front, n + 2),
            with_counter(front, n + 3),
        )
    }
}

// The bytes of four words.
fn vector(s: [u32; 4]) -> u8x16
    ensures { result ≡ spread s }
{
    let [a, b, c, d] = s;
    let n = joined(a, b, c, d);
    u64x2::from_array([(n & 0xffff_ffff_ffff_ffff) as u64, (n >> 64) as u64])
        .to_le_bytes()
        .reverse()
}

// The block that begins with `front` and ends with the bytes of `n`, the highest first.
fn with_counter(front: &[u8; 12], n: u32) -> u8x16
    ensures { result ≡ front.now ++ to_be_bytes w32 n }
{
    vector([
        u32::from_be_bytes([front[0], front[1], front[2], front[3]]),
        u32::from_be_bytes([front[4], front[5], front[6], front[7]]),
        u32::from_be_bytes([front[8], front[9], front[10], front[11]]),
        n,
    ])
}
