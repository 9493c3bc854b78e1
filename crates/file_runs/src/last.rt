//! The last line of a text.
ghost use Rattle.std.specs.Prelude.{◌≡◌};
ghost use Rattle.file_runs.specs.Judging.{last_line_of};

use script_events::split_at_byte;

/// The last line of a text, with its line feed if it has one.
pub fn last_line(text: &[u8]) -> &[u8]
    ensures { result.now ≡ last_line_of text.now }
{
    let mut rest = text;
    'lines: while let Some((_, later)) = split_at_byte(b'\n', rest) {
        if later.is_empty() {
            return rest;
        }
        rest = later;
    }
    rest
}
