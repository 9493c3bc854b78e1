//! The words that stand for faults of TLPs and of packets (this profile).

ghost use Rattle.std.specs.Prelude.{◌≡◌};
ghost use Rattle.ide_prefix.specs.FaultWords.{packet_word as packet_word_of, tlp_word as tlp_word_of};

use crate::PacketFault;
use ide_types::FaultWord;
use tlp_layout::TlpFault;

/// The word of a TLP's fault.
pub fn tlp_word(fault: TlpFault) -> FaultWord
    ensures { result ≡ tlp_word_of fault }
{
    match fault {
        TlpFault::Short(_) => FaultWord::Short,
        TlpFault::Kind(_) => FaultWord::Kind,
        TlpFault::Bit(_) => FaultWord::Bit,
        TlpFault::Length(_) => FaultWord::Length,
        TlpFault::Trailing(_) => FaultWord::Trailing,
    }
}

/// The word of a packet's fault, which is the TLP's if its header is at fault.
pub fn packet_word(fault: PacketFault) -> FaultWord
    ensures { result ≡ packet_word_of fault }
{
    match fault {
        PacketFault::Short(_) => FaultWord::Short,
        PacketFault::Reserved(_) => FaultWord::Reserved,
        PacketFault::SubStream(_) => FaultWord::SubStream,
        PacketFault::Class(_) => FaultWord::Class,
        PacketFault::Tlp(fault) => tlp_word(fault),
        PacketFault::Sync(_) => FaultWord::Sync,
        PacketFault::Trailing(_) => FaultWord::Trailing,
    }
}
