//! The directions of a link.

ghost use Rattle.std.specs.Prelude.{◌≡◌};
ghost use Rattle.ide_types.specs.Sub.{upstream_if};

/// A direction of a link: downstream from the host to the device, or upstream from the device to the host (PCI Express
/// Base 6.0 section 1.2).
#[derive(Clone, Copy, PartialEq, Eq)]
pub enum Direction {
    Downstream,
    Upstream,
}

impl Direction {
    /// The direction that a bit names: upstream if it is 1.
    pub fn of_bit(up: bool) -> Direction
        ensures { result ≡ upstream_if up }
    {
        if up {
            Direction::Upstream
        } else {
            Direction::Downstream
        }
    }
}
