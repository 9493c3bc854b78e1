//! What a device says of the streams between it and others.

ghost use Rattle.std.specs.Prelude.{◌≡◌, ◌<◌, ◌^◌, IfSome, option_map};
ghost use Rattle.spec_interfaces.specs.Peers.{peer_end, has_peer, live_by_id};
ghost use Rattle.all_ends.specs.Ends.{live_at_port, live_of, end_named};

use ide_port::Port;
use ide_types::{FIRST_PEER_LINE, PeerPlan, Side, StreamStatus, SubKind};
use link_ends::{PairEnds, PeerStreams};

/// The first line that is keyed by messages at both ends.
const FIRST_PAIR_LINE: usize = 16;

/// The streams between a link's device and others, by their ends.
#[derive(Clone, Copy)]
pub struct DevicePeers<'a> {
    pub pairs: &'a [PairEnds],
    pub peers: &'a [PeerPlan],
    pub link: usize,
}

// The end at a link's device of the first of these streams that has the ID and ends there, with its number.
#[tactic(auto, unfolding(ide_types::specs::Ends::peer_end))]
fn peer_end(peers: &[PeerPlan], link: usize, stream: u64) -> Option<(Side, usize)>
    ensures end { option_map end_named result ≡ peer_end peers.now 0 link stream }
    ensures small { IfSome result (λ r. r.1 < 2 ^ 61) }
{
    let mut number = 0;
    for peer in peers {
        if peer.id as u64 == stream && peer.near as usize == link {
            return Some((Side::Host, number));
        }
        if peer.id as u64 == stream && peer.far as usize == link {
            return Some((Side::Device, number));
        }
        number += 1;
    }
    None
}

/// Whether the link's device has the stream between devices of this line and ID.
pub fn has_peer(peers: &[PeerPlan], link: u8, line: u64, stream: u64) -> bool
    ensures { result ≡ has_peer peers.now link line stream }
{
    match peer_end(peers, link as usize, stream) {
        None => false,
        Some((_, number)) => (FIRST_PEER_LINE as usize + number) as u64 == line,
    }
}

// The draw that is Live where a port receives posted requests on a stream, if the stream is Secure there.
fn live_at_port(port: &Port, stream: u8) -> Option<u32>
    ensures { result ≡ live_at_port port.now stream }
{
    match port.status(stream) {
        Some(StreamStatus::Secure) => match port.receiving_draw(stream, SubKind::Pr) {
            None => Some(0),
            Some(draw) => Some(draw),
        },
        _ => None,
    }
}

// That of the end of a stream between devices, by its side and the stream's number.
fn live_of(pairs: &[PairEnds], side: Side, number: usize, stream: u8) -> Option<u32>
    requires { number < 2 ^ 61 }
    ensures { result ≡ live_of pairs.now (end_named (side, number)) stream }
{
    match pairs.get(FIRST_PEER_LINE as usize + number - FIRST_PAIR_LINE) {
        None => None,
        Some(ends) => live_at_port(&ends.end(side).port, stream),
    }
}

impl PeerStreams for DevicePeers<'_> {
    ghost live = { λ s stream. live_by_id (live_of s.pairs.now) s.peers.now s.link stream };

    fn live(&self, stream: u8) -> Option<u32> {
        match peer_end(self.peers, self.link, stream as u64) {
            None => None,
            Some((side, number)) => live_of(self.pairs, side, number, stream),
        }
    }
}
