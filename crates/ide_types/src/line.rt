//! The kinds of lines (this profile).

ghost use Rattle.std.specs.Prelude.{◌≡◌, Some};
ghost use Rattle.ide_types.specs.Lines.{line_kind};
ghost use Rattle.ide_types.specs.Names.{kind_word};

use std::fmt;

/// The line of the first stream between devices: that of stream P is P more.
pub const FIRST_PEER_LINE: u8 = 24;

/// What a line is: a link, one of the two segments of a link's hop, or a stream between two devices.
#[derive(Clone, Copy, PartialEq, Eq)]
pub enum LineKind {
    Link,
    Hop,
    Peer,
}

impl LineKind {
    /// That of a line by its number.
    pub fn of_line(line: u8) -> LineKind
        ensures { result ≡ line_kind line }
    {
        match line {
            0..=7 => LineKind::Link,
            8..=23 => LineKind::Hop,
            _ => LineKind::Peer,
        }
    }
}

impl fmt::Display for LineKind {
    ghost output = { λ k. Some (kind_word k) };

    fn fmt<W: fmt::Write>(&self, f: &mut fmt::Formatter<W>) -> fmt::Result {
        f.write_str(match self {
            LineKind::Link => "",
            LineKind::Hop => "h",
            LineKind::Peer => "p",
        })
    }
}
