//! What the host's manager makes of an interface.

ghost use Rattle.std.specs.Prelude.{Some};
ghost use Rattle.ide_types.specs.ViewNames.{view_word};

use std::fmt;

/// The manager's view of an interface (PCI Express Base 6.0 chapter 11, and this profile).
#[derive(Clone, Copy, PartialEq, Eq)]
pub enum View {
    /// Not locked, or halted.
    Unlocked,
    /// Locked, and not yet started.
    Locked,
    /// Started: its trusted writes are admitted.
    Running,
    /// A message was lost on the way, so that the device may be in one of two states.
    Doubt,
    /// Its lock is known to have ended.
    Broken,
}

impl fmt::Display for View {
    ghost output = { λ v. Some (view_word v) };

    fn fmt<W: fmt::Write>(&self, f: &mut fmt::Formatter<W>) -> fmt::Result {
        f.write_str(match self {
            View::Unlocked => "unlocked",
            View::Locked => "locked",
            View::Running => "running",
            View::Doubt => "doubt",
            View::Broken => "broken",
        })
    }
}
