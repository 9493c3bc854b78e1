//! The keys of a draw on their way to the ends of a line.

ghost use Rattle.std.specs.Prelude.{◌≡◌, ◌++◌, None, length, slice_index_or, slice_set};
ghost use Rattle.std.specs.Option.{option_copied};

use crate::{Key, WireSix};
use std::marker::Model;

/// The keys of a draw in the order of their KEY_PROGs, each kept until it is spent: those of the far end, if a host's
/// port is at the near end, else those of the near end and then those of the far end (this profile).
#[derive(Drop)]
pub struct Wires {
    near: Option<WireSix>,
    far: WireSix,
}

impl Model for Wires {
    ghost use Rattle.key_slots.specs.Wires.{WireKeys, both_keys, SixEach};

    ghost Value = { WireKeys };

    ghost view = { λ w. both_keys w.near w.far };

    ghost invariant = { λ w. SixEach w.near w.far };
}

// The key of this number of six, if there is one.
fn key_of_six(six: &WireSix, i: u8) -> Option<&Key>
    requires { length six.now ≡ 6 }
    ensures { option_copied result ≡ slice_index_or six.now i None }
{
    if i < 6 { six.key(i) } else { None }
}

// Drops the key of this number of six, if there is one.
fn spend_of_six(six: &mut WireSix, i: u8)
    requires { length six.old ≡ 6 }
    ensures { six.new ≡ slice_set six.old i None }
{
    if i < 6 {
        six.spend(i);
    }
}

impl Wires {
    /// The keys of the far end alone.
    pub fn far(far: WireSix) -> Wires
        requires { length far ≡ 6 }
        ensures { result ≡ far }
    {
        Wires { near: None, far }
    }

    /// The keys of both ends.
    pub fn both(near: WireSix, far: WireSix) -> Wires
        requires near { length near ≡ 6 }
        requires far { length far ≡ 6 }
        ensures { result ≡ near ++ far }
    {
        Wires {
            near: Some(near),
            far,
        }
    }

    /// The key of this number; `None` if it was spent, or if there is no such number.
    pub fn key(&self, i: u8) -> Option<&Key>
        ensures { option_copied result ≡ slice_index_or self.now i None }
    {
        match &self.near {
            None => key_of_six(&self.far, i),
            Some(near) => {
                if i < 6 {
                    key_of_six(near, i)
                } else {
                    key_of_six(&self.far, i - 6)
                }
            }
        }
    }

    /// Drops the key of this number, if there is one.
    pub fn spend(&mut self, i: u8)
        ensures { self.new ≡ slice_set self.old i None }
    {
        match &mut self.near {
            None => spend_of_six(&mut self.far, i),
            Some(near) => {
                if i < 6 {
                    spend_of_six(near, i);
                } else {
                    spend_of_six(&mut self.far, i - 6);
                }
            }
        }
    }
}
