//! A key, which has one place.

ghost use Rattle.std.specs.Prelude.{◌≡◌};

use std::marker::Model;

/// A key of AES-256, 32 bytes (FIPS 197). It is neither `Copy` nor `Clone`, so it has one place, and a use of it
/// after it was moved does not compile; nor does it have `Debug`, which would print it.
#[derive(Drop)]
pub struct Key {
    bytes: [u8; 32],
}

impl Model for Key {
    ghost use Rattle.std.specs.Prelude.{List, ℕ};

    ghost Value = { List ℕ };

    ghost view = { λ k. k.bytes };
}

impl Key {
    /// The key of these 32 bytes, as KEY_PROG brings them.
    pub fn of(bytes: [u8; 32]) -> Key
        ensures { result ≡ bytes }
    {
        Key { bytes }
    }

    /// Its 32 bytes, lent.
    pub fn bytes(&self) -> &[u8; 32]
        ensures { result.now ≡ self.now }
    {
        &self.bytes
    }
}
