//! Keys in use: the draws that packets are sealed and units accepted under, what a stop and a refresh take away, how
//! many units a key seals, and what a forged tag is to the cipher.
#![tactic(auto)]

mod laws;

pub use laws::{forgeries_are_of_cipher, key_limits, keys_in_use, refresh_takes, stop_takes_keys};
