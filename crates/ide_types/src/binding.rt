//! The streams that interfaces are bound to.

ghost use Rattle.std.specs.Prelude.{◌≡◌};
ghost use Rattle.ide_types.specs.Bindings.{is_binding_on};

/// A stream that an interface is bound to (TDISP, PCI Express Base 6.0 chapter 11, in this profile).
#[derive(Clone, Copy, Default, PartialEq, Eq)]
pub struct Binding {
    /// Its ID.
    pub stream: u8,
    /// Its floor, the least draw under which trusted packets of the interface are admitted on it.
    pub floor: u32,
}

impl Binding {
    /// Whether it is to this stream.
    pub fn is_on(&self, stream: u8) -> bool
        ensures { result ≡ is_binding_on stream self.now }
    {
        self.stream == stream
    }
}
