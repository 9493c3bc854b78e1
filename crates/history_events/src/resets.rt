//! The ends that the reset of a link clears.

ghost use Rattle.std.specs.Prelude.{◌≡◌, ◌≤◌, ◌<◌, ◌∷◌, ◌++◌, length, slice_get};
ghost use Rattle.ide_types.specs.Ports.{host_port, device_port};
ghost use Rattle.ide_types.specs.Ends.{link_hop, hop_ends, peer_ends, reset_ends as reset_ends_of};

use ide_types::{PeerPlan, Plan, PortName, Side, ValidPlan};
use script_events::Ends;

fn host(line: u8) -> PortName
    ensures { result ≡ host_port line }
{
    PortName {
        side: Side::Host,
        line,
    }
}

fn device(line: u8) -> PortName
    ensures { result ≡ device_port line }
{
    PortName {
        side: Side::Device,
        line,
    }
}

// Those of the link and of its hop.
fn link_ends(plan: &Plan, link: u8) -> Ends
    requires { link < 8 }
    ensures ends { result
        ≡ host_port link ∷ device_port link ∷ hop_ends (link_hop (slice_get plan.now.links link)) link }
    ensures few { length result ≤ 6 }
{
    let mut ends = Ends::new();
    ends.push(host(link));
    ends.push(device(link));
    match plan.hop(u64::from(link)) {
        None => ends,
        Some(_) => {
            ends.push(host(8 + link));
            ends.push(device(8 + link));
            ends.push(host(16 + link));
            ends.push(device(16 + link));
            ends
        }
    }
}

// Appends those of streams between devices at the link's device.
#[tactic(auto, unfolding(ide_types::specs::Ends::peer_ends))]
fn push_peer_ends(ends: &mut Ends, peers: &[PeerPlan], link: u8)
    requires room { length ends.old ≤ 6 }
    requires few { length peers.now ≤ 8 }
    ensures { ends.new ≡ ends.old ++ peer_ends peers.now 0 link }
{
    let mut line = 24;
    for peer in peers {
        if peer.near == link {
            ends.push(host(line));
        } else if peer.far == link {
            ends.push(device(line));
        }
        line += 1;
    }
}

/// The ends of the link, of its hop, and at its device those of streams between devices.
pub(crate) fn reset_ends(plan: &ValidPlan, link: u8) -> Ends
    requires { link < 8 }
    ensures { result ≡ reset_ends_of plan.now link }
{
    let plan = plan.plan();
    let mut ends = link_ends(plan, link);
    push_peer_ends(&mut ends, plan.peers.as_slice(), link);
    ends
}
