//! Keys that are numbers.

ghost use Rattle.std.specs.Prelude.{◌≡◌, ◌≤◌, IfOk};
ghost use Rattle.history_events.specs.GeneratedTopology.{byte_of_weight, key_numbered, keys_below};

use ide_types::{Items, OutOfMemory};
use std::alloc::Global;

// A byte of a number, by its weight.
fn key_number_byte(n: u64, weight: u64) -> u8
    requires { 1 ≤ weight }
    ensures { result ≡ byte_of_weight n weight }
{
    (n / weight % 256) as u8
}

// The number in the last 8 bytes of 32.
fn key_numbered(n: u64) -> [u8; 32]
    ensures { result ≡ key_numbered n }
{
    let number = [
        key_number_byte(n, 72057594037927936),
        key_number_byte(n, 281474976710656),
        key_number_byte(n, 1099511627776),
        key_number_byte(n, 4294967296),
        key_number_byte(n, 16777216),
        key_number_byte(n, 65536),
        key_number_byte(n, 256),
        key_number_byte(n, 1),
    ];
    let mut key = [0; 32];
    key[24..].copy_from_slice(&number);
    key
}

/// The keys of the numbers from 0 on, so many of them: 24 zero bytes, and the number in 8 bytes, most significant first
/// (this profile).
#[tactic(auto, using(crate::proofs::NumberedKeys::next_key, crate::proofs::NumberedKeys::no_keys))]
pub fn numbered_keys(alloc: Global, count: u64) -> Result<Items<[u8; 32]>, OutOfMemory>
    ensures { IfOk result (λ keys. keys ≡ keys_below count) }
{
    let mut all = Vec::new(alloc);
    for n in 0..count {
        all.push(key_numbered(n))?;
    }
    Ok(Items::new(all))
}
