//! Sealing and opening by AES-256 in Galois/Counter Mode (FIPS 197, SP 800-38D), with an IV of 12
//! bytes and a tag of 12 bytes.
//!
//! What the functions compute is proved, and no more: not secrecy, and not how hard a tag is to forge. The code is
//! written so that no branch and no address in memory depends on the key or on what is sealed; whether a build has
//! one is looked for in its machine code. No key is erased. No call takes memory.
#![tactic(auto)]

ghost use Rattle.std.specs.Prelude.{◌≡◌, ℕ, List, ◌+◌, ◌-◌, ◌*◌, ◌^◌, ◌<◌, ◌≤◌, length};
ghost use Rattle.std.specs.Int.{w128, to_be_bytes};
ghost use Rattle.aes_block.specs.Aes.{aes};
ghost use Rattle.gcm_seal.specs.Gcm.{combined_bytes, counter, hash_key, masked_bytes, seal_of, tag_of, verifies};
ghost use Rattle.gcm_seal.specs.Inside.{AreMultiples};

mod ghash;

use aes_block::Aes256;
use ghash::{Multiples, absorb, multiples_of, times, vector_of};
use std::marker::Model;
use std::simd::prelude::*;

/// The most bytes that a call takes of additional data, of plaintext and of ciphertext: 1 MiB (this
/// profile).
pub const MAX_BYTES: usize = 1_048_576;

// Combines the bytes of `buf` with as many of `out`.
fn combine(buf: &mut [u8], out: &[u8])
    requires { length buf.old ≤ length out.now }
    ensures { buf.new ≡ combined_bytes buf.old out.now }
{
    for k in 0..buf.len() {
        buf[k] ^= out[k];
    }
}

// Combines the 16 bytes of `buf` with those of `out`.
#[inline(always)]
fn combine_block(buf: &mut [u8], out: u8x16)
    requires { length buf.old ≡ 16 }
    ensures { buf.new ≡ combined_bytes buf.old out }
{
    let block = u8x16::from_slice(buf) ^ out;
    block.copy_to_slice(buf);
}

// Combines two blocks of `buf` with `first` and `second`.
#[inline(always)]
fn combine_two(buf: &mut [u8], first: u8x16, second: u8x16)
    requires { length buf.old ≡ 32 }
    ensures { (key iv : List ℕ) → (block : ℕ) → first ≡ aes key (counter iv (block + 1))
        → second ≡ aes key (counter iv (block + 1 + 1)) → buf.new ≡ masked_bytes key iv (16 * block) buf.old }
{
    combine_block(&mut buf[..16], first);
    combine_block(&mut buf[16..], second);
}

/// A key of 32 bytes, prepared (SP 800-38D section 7.1, step 1): its key expansion, and what products with its hash
/// subkey and with the powers of that up to the fourth are looked up in. Contracts see the key.
#[derive(Drop)]
pub struct Gcm {
    cipher: Aes256,
    multiples: Multiples,
}

impl Model for Gcm {
    ghost Value = { List ℕ };

    ghost view = { λ g. g.cipher };

    ghost invariant = { λ g. (hash_key g.cipher < 2 ^ 128) × AreMultiples (hash_key g.cipher) g.multiples };
}

impl Gcm {
    /// Prepares a key of 32 bytes (SP 800-38D section 7.1, step 1). It is never refused.
    pub fn prepare(key: &[u8; 32]) -> Gcm
        ensures { result ≡ key.now }
    {
        let cipher = Aes256::prepare(key);
        let h = u128::from_be_bytes(cipher.encrypt(&[0; 16]));
        Gcm {
            cipher,
            multiples: multiples_of(h),
        }
    }

    // The cipher's output at the counter block after `n` increments.
    fn output(&self, iv: &[u8; 12], n: u32) -> u8x16
        requires { n < 0xffff_ffff }
        ensures { result ≡ aes self.now (counter iv.now n) }
    {
        self.cipher.encrypt_counter(iv, n + 1)
    }

    // The cipher's outputs at two counter blocks, after `n` increments and one more.
    #[inline(always)]
    fn outputs_two(&self, iv: &[u8; 12], n: u32) -> (u8x16, u8x16)
        requires { n < 0xffff_fffe }
        ensures first { result.0 ≡ aes self.now (counter iv.now n) }
        ensures second { result.1 ≡ aes self.now (counter iv.now (n + 1)) }
    {
        self.cipher.encrypt_counters(iv, n + 1)
    }

    // The same at four counter blocks.
    #[inline(always)]
    fn outputs_four(&self, iv: &[u8; 12], n: u32) -> (u8x16, u8x16, u8x16, u8x16)
        requires { n < 0xffff_fffc }
        ensures first { result.0 ≡ aes self.now (counter iv.now n) }
        ensures second { result.1 ≡ aes self.now (counter iv.now (n + 1)) }
        ensures third { result.2 ≡ aes self.now (counter iv.now (n + 2)) }
        ensures fourth { result.3 ≡ aes self.now (counter iv.now (n + 3)) }
    {
        self.cipher.encrypt_four(iv, n + 1)
    }

    // Masks bytes that lie within block `block` of the plaintext, from its byte `skip` on.
    fn mask_in_block(&self, iv: &[u8; 12], block: u32, skip: usize, buf: &mut [u8])
        requires block { block ≤ MAX_BYTES }
        requires within { skip + length buf.old ≤ 16 }
        ensures { buf.new ≡ masked_bytes self.now iv.now (16 * block + skip) buf.old }
    {
        if buf.is_empty() {
            return;
        }
        let out = self.output(iv, block + 1).to_array();
        combine(buf, &out[skip..]);
    }

    // Masks two blocks of the plaintext, `block` and the next.
    #[inline(always)]
    fn mask_two(&self, iv: &[u8; 12], block: u32, buf: &mut [u8])
        requires two { length buf.old ≡ 32 }
        requires block { block ≤ MAX_BYTES }
        ensures { buf.new ≡ masked_bytes self.now iv.now (16 * block) buf.old }
    {
        let out = self.outputs_two(iv, block + 1);
        combine_two(buf, out.0, out.1);
    }

    // Masks four blocks of the plaintext from `block` on.
    #[inline(always)]
    fn mask_four(&self, iv: &[u8; 12], block: u32, buf: &mut [u8])
        requires four { length buf.old ≡ 64 }
        requires block { block ≤ MAX_BYTES }
        ensures { buf.new ≡ masked_bytes self.now iv.now (16 * block) buf.old }
    {
        let out = self.outputs_four(iv, block + 1);
        combine_two(&mut buf[..32], out.0, out.1);
        combine_two(&mut buf[32..], out.2, out.3);
    }

    // Masks at most as many bytes as two blocks have, from block `block` of the plaintext on.
    fn mask_short(&self, iv: &[u8; 12], block: u32, buf: &mut [u8])
        requires short { length buf.old ≤ 32 }
        requires block { block + 1 ≤ MAX_BYTES }
        ensures { buf.new ≡ masked_bytes self.now iv.now (16 * block) buf.old }
    {
        let first = buf.len().min(16);
        self.mask_in_block(iv, block, 0, &mut buf[..first]);
        self.mask_in_block(iv, block + 1, 0, &mut buf[first..]);
    }

    // Masks at most as many bytes as four blocks have, from block `block` of the plaintext on.
    fn mask_last(&self, iv: &[u8; 12], block: u32, buf: &mut [u8])
        requires short { length buf.old ≤ 64 }
        requires block { block + 3 ≤ MAX_BYTES }
        ensures { buf.new ≡ masked_bytes self.now iv.now (16 * block) buf.old }
    {
        if buf.len() < 32 {
            self.mask_short(iv, block, buf);
        } else {
            self.mask_two(iv, block, &mut buf[..32]);
            self.mask_short(iv, block + 2, &mut buf[32..]);
        }
    }

    // Masks the bytes from block `block` of the plaintext on.
    fn mask_blocks(&self, iv: &[u8; 12], block: u32, buf: &mut [u8])
        requires { 16 * block + length buf.old ≤ MAX_BYTES + 15 }
        ensures { buf.new ≡ masked_bytes self.now iv.now (16 * block) buf.old }
    {
        let fours = buf.len() / 64;
        'fours: for i in 0..fours {
            self.mask_four(iv, block + 4 * i as u32, &mut buf[64 * i..64 * i + 64]);
        }
        self.mask_last(iv, block + 4 * fours as u32, &mut buf[64 * fours..]);
    }

    /// Combines `buf` with the key stream from byte `from` of the plaintext on: bytes of the plaintext
    /// become those of the ciphertext, and the other way round (GCTR of SP 800-38D section 6.5, for steps 3
    /// of section 7.1 and 4 of 7.2). A ciphertext is masked only once `verify` holds of it (7.2, step 8).
    pub fn mask(&self, iv: &[u8; 12], from: u32, buf: &mut [u8])
        requires { from + length buf.old ≤ MAX_BYTES }
        ensures { buf.new ≡ masked_bytes self.now iv.now from buf.old }
    {
        let skip = from as usize % 16;
        let first = ((16 - skip) % 16).min(buf.len());
        self.mask_in_block(iv, from / 16, skip, &mut buf[..first]);
        self.mask_blocks(iv, (from + 15) / 16, &mut buf[first..]);
    }

    /// The tag of additional data `a` and a ciphertext `c`: the first 12 bytes (SP 800-38D section 7.1,
    /// steps 4 to 6).
    pub fn tag(&self, iv: &[u8; 12], a: &[u8], c: &[u8]) -> [u8; 12]
        requires a_short { length a.now ≤ MAX_BYTES }
        requires c_short { length c.now ≤ MAX_BYTES }
        ensures { result ≡ tag_of self.now iv.now a.now c.now }
    {
        let lengths = ((8 * a.len() as u128) << 64) + 8 * c.len() as u128;
        let y = absorb(&self.multiples, absorb(&self.multiples, 0, a), c);
        // The cipher needs no hash: it runs while the processor waits for `y`.
        let mask = self.output(iv, 0);
        let s = vector_of(times(&self.multiples, y ^ lengths)) ^ mask;
        let t = s.to_array();
        [
            t[0], t[1], t[2], t[3], t[4], t[5], t[6], t[7], t[8], t[9], t[10], t[11],
        ]
    }

    /// Encrypts `buf` in place, and answers the tag of additional data `a` and the ciphertext (SP
    /// 800-38D section 7.1). It is never refused.
    pub fn seal(&self, iv: &[u8; 12], a: &[u8], buf: &mut [u8]) -> [u8; 12]
        requires a_short { length a.now ≤ MAX_BYTES }
        requires buf_short { length buf.old ≤ MAX_BYTES }
        ensures { seal_of self.now iv.now a.now buf.old ≡ (buf.new, result) }
    {
        self.mask(iv, 0, buf);
        self.tag(iv, a, buf)
    }

    /// Whether `tag` is the tag of additional data `a` and the ciphertext `c`, all 12 bytes of it (SP
    /// 800-38D section 7.2, steps 5 to 8).
    pub fn verify(&self, iv: &[u8; 12], a: &[u8], c: &[u8], tag: &[u8; 12]) -> bool
        requires a_short { length a.now ≤ MAX_BYTES }
        requires c_short { length c.now ≤ MAX_BYTES }
        ensures { result ≡ verifies self.now iv.now a.now c.now tag.now }
    {
        *tag == self.tag(iv, a, c)
    }
}
