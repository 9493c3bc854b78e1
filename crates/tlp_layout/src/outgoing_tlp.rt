//! The bytes of a send, read once.

ghost use Rattle.std.specs.Prelude.{◌≡◌};
ghost use Rattle.tlp_layout.specs.Tlp.{viewed_result};
ghost use Rattle.tlp_layout.specs.Reading.{read_of, IsTlpWithHead};

use crate::fault::TlpFault;
use crate::head::HeadView;
use crate::reading::read;
use crate::tlp::TlpView;
use std::marker::Model;

/// The bytes of a send, with the TLP that they spell or their first fault (PCI Express Base 6.0 section 2.2). Contracts
/// see the bytes.
#[derive(Drop)]
pub struct OutgoingTlp<'a> {
    bytes: &'a [u8],
    tlp: Result<TlpView<'a>, TlpFault>,
}

impl<'a> Model for OutgoingTlp<'a> {
    ghost use Rattle.std.specs.Prelude.{◌≡◌, ℕ, List};
    ghost use Rattle.tlp_layout.specs.Tlp.{viewed_result};
    ghost use Rattle.tlp_layout.specs.Reading.{read_of};

    ghost Value = { List ℕ };

    ghost view = { λ o. o.bytes.now };

    ghost invariant = { λ o. viewed_result o.tlp ≡ read_of o.bytes.now };
}

impl<'a> OutgoingTlp<'a> {
    /// These bytes, which are read.
    pub fn of(bytes: &'a [u8]) -> OutgoingTlp<'a>
        ensures { result ≡ bytes.now }
    {
        let tlp = read(bytes);
        OutgoingTlp { bytes, tlp }
    }

    /// The bytes of a TLP that was written with this header.
    #[tactic(auto, using(crate::proofs::Written::parts_by_head))]
    pub fn written(bytes: &'a [u8], head: HeadView) -> OutgoingTlp<'a>
        requires { IsTlpWithHead head bytes.now }
        ensures { result ≡ bytes.now }
    {
        let (_, payload) = bytes.split_at(head.size());
        let tlp = Ok(TlpView { head, payload });
        OutgoingTlp { bytes, tlp }
    }

    /// The TLP, or the first fault of the bytes.
    pub fn tlp(&self) -> Result<TlpView<'a>, TlpFault>
        ensures { viewed_result result ≡ read_of self.now }
    {
        self.tlp
    }

    /// The bytes.
    pub fn bytes(&self) -> &'a [u8]
        ensures { result.now ≡ self.now }
    {
        self.bytes
    }
}
