//! Which ends arriving bytes meet (this profile).

ghost use Rattle.std.specs.Prelude.{◌≡◌, ◌≤◌, length, slice_get};
ghost use Rattle.ide_types.specs.Plans.{hop_has_id as hop_has_its};
ghost use Rattle.ide_types.specs.Ends.{end_at_port as end_on_port, peer_end as end_of_peer};
ghost use Rattle.ide_types.specs.Ends.{link_hop, peer_end_at_port as end_of_peer_at};
ghost use Rattle.spec_links.specs.Ports.{id_in as id_of, end_reached as reached_by, goes_through as is_through};
ghost use Rattle.line_routes.specs.Rows.{hop_line_has as hop_line_has_id, lacks_hop_stream};

use crate::ports::{at_switch, port_of};
use crate::sends::hop_end;
use ide_prefix::PACKET_FIRST;
use ide_types::{PeerPlan, Plan, PortName, Side, ValidPlan, port_at};

// The stream ID of a packet's bytes.
#[tactic(auto, unfolding(spec_links::specs::Ports::id_in))]
fn id_in(bytes: &[u8]) -> Option<u8>
    ensures { result ≡ id_of bytes.now }
{
    match bytes {
        [first, _, id, ..] => {
            if *first == PACKET_FIRST {
                Some(*id)
            } else {
                None
            }
        }
        _ => None,
    }
}

// Whether the hop of a link has the stream.
fn hop_has(plan: &Plan, link: u8, id: u8) -> bool
    ensures { result ≡ hop_has_its (link_hop (slice_get plan.now.links link)) id }
{
    match plan.hop(u64::from(link)) {
        None => false,
        Some(hop) => hop.id == id,
    }
}

// The end at the link's device of the first of these streams that has the ID and ends there.
#[tactic(auto, unfolding(ide_types::specs::Ends::peer_end))]
fn peer_end(peers: &[PeerPlan], link: u8, id: u8) -> Option<PortName>
    requires { length peers.now ≤ 8 }
    ensures { result ≡ end_of_peer peers.now 0 link id }
{
    let mut line = 24;
    for peer in peers {
        if peer.id == id && peer.near == link {
            let side = Side::Host;
            return Some(PortName { side, line });
        }
        if peer.id == id && peer.far == link {
            let side = Side::Device;
            return Some(PortName { side, line });
        }
        line += 1;
    }
    None
}

fn peer_end_at_port(peers: &[PeerPlan], port: PortName, id: u8) -> PortName
    requires { length peers.now ≤ 8 }
    ensures { result ≡ end_of_peer_at peers.now port id }
{
    match port.side {
        Side::Host => port,
        Side::Device => match peer_end(peers, port.line, id) {
            None => port,
            Some(end) => end,
        },
    }
}

// The end, at this port, of the line that has the stream; if none has it the port itself.
fn end_at_port(plan: &Plan, port: PortName, id: u8) -> PortName
    requires { length plan.now.peers ≤ 8 }
    ensures { result ≡ end_on_port plan.now port id }
{
    if port.line >= 8 {
        port
    } else if plan.own_has(u64::from(port.line), u64::from(id)) {
        port
    } else if hop_has(plan, port.line, id) {
        hop_end(port.side, port.line)
    } else {
        peer_end_at_port(plan.peers.as_slice(), port, id)
    }
}

/// The end that bytes meet which arrive at the port of this one: that of the line that has their stream, first of the
/// link, then of its hop, then of a stream between devices; the port if there is none. At a switch nothing is looked up
/// (PCI Express Base 6.0 section 6.33).
#[tactic(auto, unfolding(spec_links::specs::Ports::end_reached))]
pub fn reached(plan: &ValidPlan, end: PortName, bytes: &[u8]) -> PortName
    ensures { result ≡ reached_by plan.now end bytes.now }
{
    match id_in(bytes) {
        None => port_of(plan, end),
        Some(id) => {
            let plan = plan.plan();
            end_at_port(plan, port_at(plan.peers.as_slice(), end), id)
        }
    }
}

// Whether the line of a hop has the stream.
fn hop_line_has(plan: &Plan, line: u8, id: u8) -> bool
    requires { 8 ≤ line }
    ensures { result ≡ hop_line_has_id plan.now line id }
{
    if line < 16 {
        hop_has(plan, line - 8, id)
    } else {
        hop_has(plan, line - 16, id)
    }
}

fn lacks_stream(plan: &Plan, end: PortName, bytes: &[u8]) -> bool
    requires { 8 ≤ end.line }
    ensures { result ≡ lacks_hop_stream plan.now end (id_of bytes.now) }
{
    match id_in(bytes) {
        None => false,
        Some(id) => !hop_line_has(plan, end.line, id),
    }
}

/// Whether bytes that arrive at this end go through a switch unread: they are of another stream than the hop's (PCI
/// Express Base 6.0 section 6.33).
#[tactic(auto, using(crate::proofs::Rows::through), unfolding(spec_links::specs::Ports::goes_through))]
pub fn goes_through(plan: &ValidPlan, end: PortName, bytes: &[u8]) -> bool
    ensures { result ≡ is_through plan.now end bytes.now }
{
    if at_switch(plan, end) {
        lacks_stream(plan.plan(), end, bytes)
    } else {
        false
    }
}
