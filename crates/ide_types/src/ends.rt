//! At which port the end of a line is.

ghost use Rattle.std.specs.Prelude.{◌≡◌, ◌<◌, slice_get};
ghost use Rattle.ide_types.specs.Ends.{port_beside_end as port_of_end, near_hop_port, far_hop_port, peer_port};
ghost use Rattle.ide_types.specs.EndLaws.{EndsAreFound};

use crate::{PeerPlan, PortName, Side};

fn near_hop(side: Side, link: u8) -> PortName
    requires { link < 8 }
    ensures { result ≡ near_hop_port side link }
{
    match side {
        Side::Host => PortName { side, line: link },
        Side::Device => PortName {
            side,
            line: 8 + link,
        },
    }
}

fn far_hop(side: Side, link: u8) -> PortName
    requires { link < 8 }
    ensures { result ≡ far_hop_port side link }
{
    match side {
        Side::Host => PortName {
            side,
            line: 16 + link,
        },
        Side::Device => PortName { side, line: link },
    }
}

fn peer(peers: &[PeerPlan], end: PortName, number: usize) -> PortName
    ensures { result ≡ peer_port (slice_get peers.now number) end }
{
    match peers.get(number) {
        None => end,
        Some(peer) => PortName {
            side: Side::Device,
            line: match end.side {
                Side::Host => peer.near,
                Side::Device => peer.far,
            },
        },
    }
}

/// The port at which an end is: of a hop's line that of the link where it is not the switch's, of a stream between
/// these devices that of a device. A port is named as an end of its link, or as that end of a hop's line that is the
/// switch's (this profile).
pub fn port_at(peers: &[PeerPlan], end: PortName) -> PortName
    ensures { result ≡ port_of_end peers.now end }
{
    let PortName { side, line } = end;
    if line < 8 {
        end
    } else if line < 16 {
        near_hop(side, line - 8)
    } else if line < 24 {
        far_hop(side, line - 16)
    } else {
        peer(peers, end, (line - 24) as usize)
    }
}

/// An end is found again at its port by a stream of its line: no two lines have a stream ID at one port.
pub fn ends_are_found()
    ensures { EndsAreFound }
{}
