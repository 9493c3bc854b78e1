//! Where the ends of lines are kept.

ghost use Rattle.std.specs.Prelude.{◌≡◌, ◌≤◌, ◌+◌, nat_lt, None, if◌then◌else◌};
ghost use Rattle.all_ends.specs.Ends.{line_place};
ghost use Rattle.all_ends.specs.Places.{small_number};

/// The first line of the segments of hops towards the hosts.
const FIRST_NEAR_LINE: u8 = 8;

/// The first line that is keyed by messages at both ends.
const FIRST_PAIR_LINE: u8 = 16;

/// The list that has the ends of a line, and the place there: those of links, those of the segments of their hops
/// towards the hosts, and those of lines that are keyed by messages at both ends.
#[derive(Clone, Copy)]
pub enum LinePlace {
    Link(usize),
    Near(usize),
    Pair(usize),
}

/// Where the ends of a line are.
pub fn line_place(line: u8) -> LinePlace
    ensures { result ≡ line_place line }
{
    if line < FIRST_NEAR_LINE {
        LinePlace::Link(line as usize)
    } else if line < FIRST_PAIR_LINE {
        LinePlace::Near((line - FIRST_NEAR_LINE) as usize)
    } else {
        LinePlace::Pair((line - FIRST_PAIR_LINE) as usize)
    }
}

/// The number of the interface at this place of `count`, behind so many others; `None` if there is none, or if the
/// number has no room in 8 bits.
pub fn number_behind(before: usize, count: usize, place: usize) -> Option<u8>
    requires { before ≤ 255 }
    ensures { result ≡ (if nat_lt place count then small_number (before + place) else None) }
{
    if place < count && place <= 255 - before {
        Some((before + place) as u8)
    } else {
        None
    }
}
