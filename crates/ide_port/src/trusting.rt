//! Which TLPs a port marks as trusted.

ghost use Rattle.std.specs.Prelude.{◌≡◌, ℕ, Bool};
ghost use Rattle.tlp_layout.specs.declared.head.HeadView.{HeadView};

use tlp_layout::HeadView;

/// What says of the TLPs that a port sends whether T is set (PCI Express Base 6.0 section 6.33).
pub trait Trusting {
    /// T of a TLP with this header on a stream.
    ghost trusting: { Self → HeadView → ℕ → Bool };

    /// T of a TLP with this header on a stream.
    fn is_trusted(&self, head: &HeadView, stream: u8) -> bool
        ensures { result ≡ trusting self.now head.now stream };
}

/// T as it is asked, whatever the TLP and its stream.
#[derive(Clone, Copy, PartialEq, Eq)]
pub struct FixedTrust(pub bool);

impl Trusting for FixedTrust {
    ghost trusting = { λ asked head stream. asked.0 };

    fn is_trusted(&self, _: &HeadView, _: u8) -> bool {
        self.0
    }
}
