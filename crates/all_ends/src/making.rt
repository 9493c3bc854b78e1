//! The ends of all lines of a plan, as they are made.

ghost use Rattle.std.specs.Prelude.{◌≡◌, ◌+◌, ◌≤◌, ◌++◌, IfOk, All, length, map};
ghost use Rattle.ide_types.specs.Fits.{FitsLink, FitsStream};
ghost use Rattle.arrival_verdicts.specs.{lone_stream, hop_streams, in_eight};
ghost use Rattle.all_ends.specs.Requester.{requester_of};
ghost use Rattle.all_ends.specs.Ends.{ends_from, near_from, pairs_from, hop_row, peer_row};

use ide_types::{HopPlan, Items, LinkPlan, OutOfMemory, PeerPlan, Selector, StreamPlan};
use link_ends::{LinkEnds, PairEnds};
use std::alloc::Global;

/// The most links of a plan.
const MOST_LINKS: usize = 8;

/// The first line of the segments of hops towards the hosts.
const FIRST_NEAR_LINE: u8 = 8;

/// The first line that is keyed by messages at both ends.
const FIRST_PAIR_LINE: u8 = 16;

// The requester ID of the first interface of a link, 0 if it has none.
fn requester(link: &LinkPlan) -> u16
    ensures { result ≡ requester_of link.now.interfaces }
{
    match link.interfaces.as_slice().first() {
        None => 0,
        Some(interface) => interface.requester,
    }
}

/// The ends of links, without keys; a key seals at most `limit` units.
pub fn link_ends(
    alloc: Global,
    links: &[LinkPlan],
    limit: u64,
) -> Result<Vec<LinkEnds>, OutOfMemory>
    requires fit { All FitsLink links.now }
    requires few { length links.now ≤ 8 }
    ensures { IfOk result (λ r. r.items ≡ ends_from limit 0 links.now) }
{
    let mut made = Vec::new(alloc);
    let mut number = 0;
    for link in links {
        let ends = LinkEnds::make(
            alloc,
            number,
            link.streams.as_slice(),
            limit,
            requester(link),
            &link.interfaces,
            &link.nonces,
        )?;
        made.push(ends)?;
        number += 1;
    }
    Ok(made)
}

// A stream that is alone on its line takes each TLP that is sent there.
fn lone_stream(alloc: Global, id: u8, aggregation: u8) -> StreamPlan
    ensures { result ≡ lone_stream id aggregation }
{
    StreamPlan {
        id,
        aggregation,
        closed: false,
        selector: Selector::Selective {
            ids: None,
            addresses: Items::new(Vec::new(alloc)),
            default: true,
        },
    }
}

// The streams of a segment of a hop, if there is one.
fn hop_streams(alloc: Global, hop: &Option<HopPlan>) -> Result<Items<StreamPlan>, OutOfMemory>
    ensures { IfOk result (λ r. r ≡ hop_streams hop.now) }
{
    let mut streams = Vec::new(alloc);
    if let Some(hop) = hop {
        streams.push(lone_stream(alloc, hop.id, 1))?;
    }
    Ok(Items::new(streams))
}

// Rows without streams, up to that of the eighth link.
#[tactic(auto, using(crate::proofs::Rows::fill_one, crate::proofs::Rows::fill_done))]
fn fill(alloc: Global, rows: &mut Vec<Items<StreamPlan>>) -> Result<(), OutOfMemory>
    requires { length rows.old.items ≤ 8 }
    ensures { IfOk result (λ _. rows.new.items ≡ in_eight rows.old.items) }
{
    while rows.len() < MOST_LINKS {
        rows.push(Items::new(Vec::new(alloc)))?;
    }
    Ok(())
}

/// The streams of one segment of each link's hop, for each of eight links.
pub fn hop_rows(alloc: Global, links: &[LinkPlan]) -> Result<Vec<Items<StreamPlan>>, OutOfMemory>
    requires { length links.now ≤ 8 }
    ensures { IfOk result (λ r. r.items ≡ in_eight (map hop_row links.now)) }
{
    let mut rows = Vec::new(alloc);
    for link in links {
        rows.push(hop_streams(alloc, &link.hop)?)?;
    }
    fill(alloc, &mut rows)?;
    Ok(rows)
}

/// Adds those of streams between devices, each on a line of its own.
pub fn add_peer_rows(
    alloc: Global,
    rows: &mut Vec<Items<StreamPlan>>,
    peers: &[PeerPlan],
) -> Result<(), OutOfMemory>
    ensures { IfOk result (λ _. rows.new.items ≡ rows.old.items ++ map peer_row peers.now) }
{
    for peer in peers {
        let mut streams = Vec::new(alloc);
        streams.push(lone_stream(alloc, peer.id, peer.aggregation))?;
        rows.push(Items::new(streams))?;
    }
    Ok(())
}

/// The ends of hops' segments towards the hosts with these streams, without keys.
pub fn near_ends(
    alloc: Global,
    rows: &[Items<StreamPlan>],
    limit: u64,
) -> Result<Vec<LinkEnds>, OutOfMemory>
    requires fit { All (All FitsStream) rows.now }
    requires few { length rows.now ≤ 8 }
    ensures { IfOk result (λ r. r.items ≡ near_from limit 8 rows.now) }
{
    let mut made = Vec::new(alloc);
    let mut line = FIRST_NEAR_LINE;
    let none = Items::new(Vec::new(alloc));
    let no_nonces = Items::new(Vec::new(alloc));
    for streams in rows {
        let ends = LinkEnds::make(alloc, line, streams.as_slice(), limit, 0, &none, &no_nonces)?;
        made.push(ends)?;
        line += 1;
    }
    Ok(made)
}

/// The ends of lines that are keyed by messages at both, with these streams, without keys.
pub fn pair_ends(
    alloc: Global,
    rows: &[Items<StreamPlan>],
    limit: u64,
) -> Result<Vec<PairEnds>, OutOfMemory>
    requires fit { All (All FitsStream) rows.now }
    requires few { length rows.now ≤ 16 }
    ensures { IfOk result (λ r. r.items ≡ pairs_from limit 16 rows.now) }
{
    let mut made = Vec::new(alloc);
    let mut line = FIRST_PAIR_LINE;
    for streams in rows {
        made.push(PairEnds::make(alloc, line, streams.as_slice(), limit)?)?;
        line += 1;
    }
    Ok(made)
}
