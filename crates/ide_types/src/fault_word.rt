//! The words of faults.

ghost use Rattle.std.specs.Prelude.{Some};
ghost use Rattle.ide_types.specs.Names.{fault_word};

use std::fmt;

/// Why bytes are no TLP or packet. Of a TLP: too few bytes, a set bit that has to be clear, no known kind, a wrong
/// length, bytes after the end. Of a packet besides: a reserved field, no such sub-stream, a TLP of another class than
/// the sub-stream, a wrong sync packet (PCI Express Base 6.0 section 2.2, and this profile).
#[derive(Clone, Copy, PartialEq, Eq)]
pub enum FaultWord {
    Short,
    Reserved,
    SubStream,
    Class,
    Kind,
    Bit,
    Length,
    Sync,
    Trailing,
}

impl fmt::Display for FaultWord {
    ghost output = { λ w. Some (fault_word w) };

    fn fmt<W: fmt::Write>(&self, f: &mut fmt::Formatter<W>) -> fmt::Result {
        f.write_str(match self {
            FaultWord::Short => "short",
            FaultWord::Reserved => "reserved",
            FaultWord::SubStream => "substream",
            FaultWord::Class => "class",
            FaultWord::Kind => "kind",
            FaultWord::Bit => "bit",
            FaultWord::Length => "length",
            FaultWord::Sync => "sync",
            FaultWord::Trailing => "trailing",
        })
    }
}
