//! Why bytes are no TLP (this profile).

/// The first fault from the left, with its place, a byte offset from 0.
#[derive(Clone, Copy, PartialEq, Eq)]
pub enum TlpFault {
    /// The bytes end before the TLP does.
    Short(usize),
    /// Byte 0 is no Fmt and Type that is read here.
    Kind(usize),
    /// A bit that is 0 here is set: a reserved one, TH, TD, EP, or one of the two lowest of an
    /// address.
    Bit(usize),
    /// A configuration request's Length is not 1 double word.
    Length(usize),
    /// Bytes follow the TLP.
    Trailing(usize),
}

impl TlpFault {
    ghost use Rattle.std.specs.Prelude.{◌≡◌};
    ghost use Rattle.tlp_layout.specs.Faults.{place_in};

    /// The place that the fault names, a byte offset from 0.
    pub fn place(self) -> usize
        ensures { result ≡ place_in self }
    {
        match self {
            TlpFault::Short(place) => place,
            TlpFault::Kind(place) => place,
            TlpFault::Bit(place) => place,
            TlpFault::Length(place) => place,
            TlpFault::Trailing(place) => place,
        }
    }
}
