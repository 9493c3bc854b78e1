//! What a port answers (this profile).

use crate::{MeasuredPackets, SendRefusal};
use event_verdicts::UnitName;
use ide_prefix::PacketFault;
use ide_types::{FailCause, SubKind};
use tlp_layout::TlpFault;

/// What becomes of a send.
#[derive(Drop)]
pub enum Sent {
    /// The bytes are no TLP.
    Malformed(TlpFault),
    /// No stream takes the TLP; nothing is kept of it.
    Plain,
    /// It is not sealed, and nothing changes.
    Refused(SendRefusal),
    /// It is sealed, after the sync packets that went first.
    Sealed(MeasuredPackets),
}

/// What becomes of arriving bytes.
#[derive(Clone, Copy, PartialEq, Eq)]
pub enum Arrival {
    /// They are no packet.
    Malformed(PacketFault),
    /// They are no packet of a stream.
    Plain,
    /// The port has no such stream.
    Unknown(u8),
    /// The stream is insecure at the port.
    Insecure(u8),
    /// The sub-stream has no Live key.
    NotKeyed(u8, SubKind),
    /// A check failed, and the stream is insecure from now on.
    Fail(u8, SubKind, FailCause),
    /// A packet of a unit that goes on.
    Held(UnitName),
    /// The unit was accepted, with so many packets, from 1 to 8.
    Accepted(UnitName, u8),
}
