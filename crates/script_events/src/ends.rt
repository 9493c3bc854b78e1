//! A short list of the ends of lines.

ghost use Rattle.std.specs.Prelude.{◌≡◌, ◌<◌, [], ◌∷◌, ◌++◌, length};

use arrayvec::ArrayVec;
use ide_types::PortName;
use std::marker::Model;

/// The ends that the reset of a link clears, in order: at most two of the link, four of its hop, and one of each of
/// eight streams between devices.
#[derive(Drop)]
pub struct Ends {
    ends: ArrayVec<PortName, 14>,
}

impl Model for Ends {
    ghost use Rattle.std.specs.Prelude.{List};
    ghost use Rattle.ide_types.specs.declared.port.PortName.{PortName};

    ghost Value = { List PortName };

    ghost view = { λ e. e.ends.items };
}

impl Ends {
    /// No ends.
    pub fn new() -> Ends
        ensures { result ≡ [] }
    {
        Ends {
            ends: ArrayVec::new(),
        }
    }

    /// Appends an end.
    pub fn push(&mut self, end: PortName)
        requires { length self.old < 14 }
        ensures { self.new ≡ self.old ++ end ∷ [] }
    {
        self.ends.push(end);
    }

    /// The ends, lent.
    pub fn as_slice(&self) -> &[PortName]
        ensures { result.now ≡ self.now }
    {
        &self.ends
    }
}
