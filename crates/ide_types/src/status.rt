//! The state of a stream at a port.

ghost use Rattle.std.specs.Prelude.{Some};
ghost use Rattle.ide_types.specs.Names.{status_word};

use std::fmt;

/// The state of an IDE stream at a port: none of its six sub-streams has a Live key, some have, each has, or a check
/// failed since it last had none (PCI Express Base 6.0 section 6.33, and this profile).
#[derive(Clone, Copy, PartialEq, Eq)]
pub enum StreamStatus {
    Idle,
    Partial,
    Secure,
    Insecure,
}

impl fmt::Display for StreamStatus {
    ghost output = { λ s. Some (status_word s) };

    fn fmt<W: fmt::Write>(&self, f: &mut fmt::Formatter<W>) -> fmt::Result {
        f.write_str(match self {
            StreamStatus::Idle => "idle",
            StreamStatus::Partial => "partial",
            StreamStatus::Secure => "secure",
            StreamStatus::Insecure => "insecure",
        })
    }
}
