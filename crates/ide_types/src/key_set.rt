//! The key sets of a stream.

ghost use Rattle.std.specs.Prelude.{◌≡◌, not};
ghost use Rattle.ide_types.specs.KeySets.{is_one, key_set, set_number};

/// A key set of an IDE stream. Each sub-stream has a key slot for set 0 and one for set 1 in each direction, and the K
/// bit of a packet's prefix names the set of its key (PCI Express Base 6.0 section 6.33).
#[derive(Clone, Copy, PartialEq, Eq)]
pub enum KeySet {
    Zero,
    One,
}

impl KeySet {
    /// The key set that a K bit names: set 1 if it is 1.
    pub fn of_bit(k: bool) -> KeySet
        ensures set { result ≡ key_set k }
        ensures one { is_one result ≡ k }
    {
        if k { KeySet::One } else { KeySet::Zero }
    }

    /// Its number, 0 or 1.
    pub fn number(self) -> u8
        ensures { result ≡ set_number self }
    {
        match self {
            KeySet::Zero => 0,
            KeySet::One => 1,
        }
    }

    /// Whether it is set 1.
    pub fn is_one(self) -> bool
        ensures { result ≡ is_one self }
    {
        match self {
            KeySet::Zero => false,
            KeySet::One => true,
        }
    }

    /// The other key set.
    pub fn other(self) -> KeySet
        ensures { is_one result ≡ not (is_one self) }
    {
        match self {
            KeySet::Zero => KeySet::One,
            KeySet::One => KeySet::Zero,
        }
    }
}
