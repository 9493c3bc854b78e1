//! Sends at the ends of lines that are no links.

ghost use Rattle.std.specs.Prelude.{◌≡◌, ◌^◌, ℕ, option_map};
ghost use Rattle.ide_port.specs.{IsSealedAtPort, IsSentAtPort, PortUnitsAtMost};
ghost use Rattle.link_ends.specs.Ends.{port_in, with_port};
ghost use Rattle.interface_ends.specs.Replies.{DeviceTdis};
ghost use Rattle.all_ends.specs.Ends.{pair_port, with_pair_port, bound_on, far_hop_trust, bound_trust};

use ide_port::{FixedTrust, SendBuffer, Sent, Trusting};
use ide_types::{PeerPlan, Side};
use interface_ends::DeviceInterfaces;
use link_ends::{BoundOwners, LinkEnds, PairEnds};
use tlp_layout::OutgoingTlp;

/// Sends a TLP's bytes at the end of a side of a hop's segment towards the host, with T as it is asked. `out` is left
/// with what was sealed.
pub fn send_near(
    ends: &mut LinkEnds,
    side: Side,
    tlp: &OutgoingTlp,
    more: bool,
    trusted: bool,
    out: &mut SendBuffer,
) -> Sent
    requires { PortUnitsAtMost (2 ^ 40) (port_in side ends.old) }
    ensures sent { (number : ℕ) → IsSentAtPort (port_in side ends.old) tlp.now more
        (λ head stream. trusted) number result (port_in side ends.new) out.new }
    ensures ends { ends.new ≡ with_port side (port_in side ends.new) ends.old }
{
    match side {
        Side::Host => ends.host.send(tlp, more, &FixedTrust(trusted), out),
        Side::Device => ends.device.port.send(tlp, more, &FixedTrust(trusted), out),
    }
}

// Sends them at the end of a side of a line that is keyed by messages at both.
fn send_pair<T: Trusting>(
    ends: &mut PairEnds,
    side: Side,
    tlp: &OutgoingTlp,
    more: bool,
    trusting: &T,
    out: &mut SendBuffer,
) -> Sent
    requires { PortUnitsAtMost (2 ^ 40) (pair_port side ends.old) }
    ensures sent { (number : ℕ) → IsSentAtPort (pair_port side ends.old) tlp.now more
        (T.trusting trusting.now) number result (pair_port side ends.new) out.new }
    ensures ends { ends.new ≡ with_pair_port side (pair_port side ends.new) ends.old }
{
    match side {
        Side::Host => ends.near.port.send(tlp, more, trusting, out),
        Side::Device => ends.far.port.send(tlp, more, trusting, out),
    }
}

/// Sends them at the end of a side of a hop's segment towards the device: the switch sets T as it is asked, and the
/// device does not.
pub fn send_far(
    ends: &mut PairEnds,
    side: Side,
    tlp: &OutgoingTlp,
    more: bool,
    trusted: bool,
    out: &mut SendBuffer,
) -> Sent
    requires { PortUnitsAtMost (2 ^ 40) (pair_port side ends.old) }
    ensures sent { (number : ℕ) → IsSentAtPort (pair_port side ends.old) tlp.now more
        (far_hop_trust side trusted) number result (pair_port side ends.new) out.new }
    ensures ends { ends.new ≡ with_pair_port side (pair_port side ends.new) ends.old }
{
    match side {
        Side::Host => send_pair(ends, side, tlp, more, &FixedTrust(trusted), out),
        Side::Device => send_pair(ends, side, tlp, more, &FixedTrust(false), out),
    }
}

/// Sends them at the end of a side of a stream between devices, where T is set by these interfaces.
pub fn send_peer(
    ends: &mut PairEnds,
    side: Side,
    tlp: &OutgoingTlp,
    more: bool,
    interfaces: Option<&DeviceInterfaces>,
    out: &mut SendBuffer,
) -> Sent
    requires { PortUnitsAtMost (2 ^ 40) (pair_port side ends.old) }
    ensures sent { (number : ℕ) → IsSentAtPort (pair_port side ends.old) tlp.now more
        (bound_trust (option_map (λ d. d.now) interfaces.entry)) number result (pair_port side ends.new) out.new }
    ensures ends { ends.new ≡ with_pair_port side (pair_port side ends.new) ends.old }
{
    match interfaces {
        None => send_pair(ends, side, tlp, more, &FixedTrust(false), out),
        Some(interfaces) => send_pair(ends, side, tlp, more, &BoundOwners { interfaces }, out),
    }
}

/// Sends a TLP's bytes at the end of a side of a line that is keyed at a host, on the stream of this ID, with this T.
/// `out` is left with what was sealed.
pub fn seal_hosted(
    ends: &mut LinkEnds,
    side: Side,
    stream: u8,
    trusted: bool,
    tlp: &OutgoingTlp,
    out: &mut SendBuffer,
) -> Sent
    requires { PortUnitsAtMost (2 ^ 40) (port_in side ends.old) }
    ensures sent { (number : ℕ) → IsSealedAtPort (port_in side ends.old) tlp.now stream trusted number result
        (port_in side ends.new) out.new }
    ensures ends { ends.new ≡ with_port side (port_in side ends.new) ends.old }
{
    match side {
        Side::Host => ends.host.send_on(stream, tlp, trusted, out),
        Side::Device => ends.device.port.send_on(stream, tlp, trusted, out),
    }
}

/// So at the end of a side of a line that is keyed by messages at both.
pub fn seal_pair(
    ends: &mut PairEnds,
    side: Side,
    stream: u8,
    trusted: bool,
    tlp: &OutgoingTlp,
    out: &mut SendBuffer,
) -> Sent
    requires { PortUnitsAtMost (2 ^ 40) (pair_port side ends.old) }
    ensures sent { (number : ℕ) → IsSealedAtPort (pair_port side ends.old) tlp.now stream trusted number result
        (pair_port side ends.new) out.new }
    ensures ends { ends.new ≡ with_pair_port side (pair_port side ends.new) ends.old }
{
    match side {
        Side::Host => ends.near.port.send_on(stream, tlp, trusted, out),
        Side::Device => ends.far.port.send_on(stream, tlp, trusted, out),
    }
}

/// The interfaces of the device at the end of a side of the stream between devices of this number.
pub fn bound_on<'a>(
    links: &'a [LinkEnds],
    peers: &[PeerPlan],
    side: Side,
    number: usize,
) -> Option<&'a DeviceInterfaces>
    ensures { option_map (λ d. d.now) result ≡ bound_on links.now peers.now side number }
{
    let peer = peers.get(number)?;
    let link = match side {
        Side::Host => peer.near,
        Side::Device => peer.far,
    };
    let ends = links.get(link as usize)?;
    Some(&ends.device.interfaces)
}
