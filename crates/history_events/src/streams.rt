//! Streams that a script names, by their lines and their IDs.

ghost use Rattle.std.specs.Prelude.{◌≡◌, ◌<◌, Some, IfSome};
ghost use Rattle.ide_types.specs.Ends.{is_planned_port as has_port_in};
ghost use Rattle.ide_types.specs.Ends.{interface_link as link_of_interface};
ghost use Rattle.history_events.specs.Events.{own_stream as own_stream_of, peer_stream as peer_stream_of};
ghost use Rattle.history_events.specs.Events.{segment_stream, hop_stream as hop_stream_of, ends_at as ends_at_link};
ghost use Rattle.history_events.specs.Events.{bound_stream as bound_stream_of};

use ide_types::{HopPlan, LinkPlan, PeerPlan, Plan, PortName, ValidPlan};

// A stream of a link.
pub(crate) fn own_stream(plan: &Plan, link: u64, stream: u64) -> Option<(u64, u64)>
    ensures { result ≡ own_stream_of plan.now link stream }
{
    if plan.own_has(link, stream) {
        Some((link, stream))
    } else {
        None
    }
}

// A stream between devices, by its number.
pub(crate) fn peer_stream(plan: &ValidPlan, peer: u64) -> Option<(u64, u64)>
    ensures value { result ≡ peer_stream_of plan.now peer }
    ensures small { IfSome result (λ s. s.0 < 32) }
{
    match plan.plan().peers.as_slice().get(peer as usize) {
        None => None,
        Some(plan) => Some((24 + peer, u64::from(plan.id))),
    }
}

fn on_segment(hop: &HopPlan, link: u64, segment: u64) -> Option<(u64, u64)>
    requires { link < 8 }
    ensures { result ≡ segment_stream (Some hop.now) link segment }
{
    let id = u64::from(hop.id);
    match segment {
        0 => Some((8 + link, id)),
        1 => Some((16 + link, id)),
        _ => None,
    }
}

// The stream of a hop on a segment of its link.
pub(crate) fn hop_stream(plan: &ValidPlan, link: u64, segment: u64) -> Option<(u64, u64)>
    ensures { result ≡ hop_stream_of plan.now link segment }
{
    let plan = plan.plan();
    if link >= 8 {
        return None;
    }
    match plan.hop(link) {
        None => None,
        Some(hop) => on_segment(hop, link, segment),
    }
}

// The link of an interface, by its number over all links.
#[tactic(auto, unfolding(ide_types::specs::Ends::interface_link))]
fn interface_link(links: &[LinkPlan], interface: u64) -> Option<usize>
    ensures { result ≡ link_of_interface links.now 0 interface }
{
    let mut left = interface;
    for (i, link) in links.iter().enumerate() {
        let count = link.interfaces.as_slice().len() as u64;
        if left < count {
            return Some(i);
        }
        left -= count;
    }
    None
}

fn ends_at(peer: Option<PeerPlan>, link: Option<usize>) -> bool
    ensures { result ≡ ends_at_link peer link }
{
    match (peer, link) {
        (Some(peer), Some(link)) => peer.near as usize == link || peer.far as usize == link,
        _ => false,
    }
}

// A stream between devices that ends at the device of the interface.
pub(crate) fn bound_stream(plan: &ValidPlan, interface: u64, peer: u64) -> Option<(u64, u64)>
    ensures { result ≡ bound_stream_of plan.now interface peer }
{
    let topology = plan.plan();
    let link = interface_link(topology.links.as_slice(), interface);
    if ends_at(topology.peers.as_slice().get(peer as usize).copied(), link) {
        peer_stream(plan, peer)
    } else {
        None
    }
}

// Whether the topology has a port of a switch; one of a link is there or not, as its link is.
pub(crate) fn has_port(plan: &Plan, port: PortName) -> bool
    ensures { result ≡ has_port_in plan.now port }
{
    match port.line {
        0..=7 => true,
        8..=15 => plan.hop(u64::from(port.line - 8)).is_some(),
        _ => plan.hop(u64::from(port.line) - 16).is_some(),
    }
}
