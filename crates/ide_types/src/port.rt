//! Ends of lines, by which ports are named (this profile).

ghost use Rattle.std.specs.Prelude.{◌≡◌, ◌==◌, Some};
ghost use Rattle.std.specs.List.{list_any};
ghost use Rattle.ide_types.specs.Names.{side_word, port_word};

use std::fmt;

/// The near or the far end of a line: of a link its host's port or its device's.
#[derive(Clone, Copy, Default, PartialEq, Eq)]
pub enum Side {
    #[default]
    Host,
    Device,
}

/// The end of a line, by the line's number: line L below 8 is link L, from its host's port to its device's; 8 + L is
/// the hop of link L from its host to its switch, 16 + L from its switch to its device; 24 + P is stream P between two
/// devices. A port is named as an end: a host's and a device's as that of their link, a switch's as that
/// of a hop.
#[derive(Clone, Copy, Default, PartialEq, Eq)]
pub struct PortName {
    pub side: Side,
    pub line: u8,
}

/// Whether one of these ends is of the line.
pub fn has_end_of_line(ends: &[PortName], line: u8) -> bool
    ensures { result ≡ list_any (λ e. e.line == line) ends.now }
{
    ends.iter().any(|end| end.line == line)
}

impl fmt::Display for Side {
    ghost output = { λ s. Some (side_word s) };

    fn fmt<W: fmt::Write>(&self, f: &mut fmt::Formatter<W>) -> fmt::Result {
        f.write_str(match self {
            Side::Host => "h",
            Side::Device => "d",
        })
    }
}

impl fmt::Display for PortName {
    ghost output = { λ p. Some (port_word p) };

    fn fmt<W: fmt::Write>(&self, f: &mut fmt::Formatter<W>) -> fmt::Result {
        match self.line {
            8..=15 => write!(f, "u{}", self.line - 8),
            16..=23 => write!(f, "w{}", self.line - 16),
            _ => write!(f, "{}{}", self.side, self.line),
        }
    }
}
