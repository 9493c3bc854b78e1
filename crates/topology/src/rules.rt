//! The rules over several values.

ghost use Rattle.std.specs.Prelude.{◌≡◌, ◌&&◌, ◌==◌, ◌∷◌, [], Ok, Err, Some, if◌then◌else◌, nat_le, codes, find, sum_by};
ghost use Rattle.std.specs.List.{list_any};
ghost use Rattle.std.specs.Str.{bytes_eq};
ghost use Rattle.toml_walk.specs.Fault.{Gives, refused};
ghost use Rattle.toml_walk.specs.Paths.{Key};
ghost use Rattle.toml_walk.specs.declared.fault.KeyFault.TheVariants.{Limit};
ghost use Rattle.ide_types.specs.Plans.{interface_limit, is_selective, has_stream_id, lists_class};
ghost use Rattle.topology.specs.Rules.{refused_pair, no_clash, in_sixes, is_id, is_bound, each_bound, link_rules};
ghost use Rattle.topology.specs.Rules.{each_link, interface_count, allowed_or_range, link_has, is_id_taken, peer_rules};
ghost use Rattle.topology.specs.Rules.{each_peer, is_peer_with_id, refused_class, classes_apart, hop_rules_of_fields};
ghost use Rattle.topology.specs.Rules.{hop_rules, each_hop, rules};

use crate::draft::{InterfaceDraft, LinkDraft, PlanDraft};
use crate::pairs::{
    BothDefault, Clash, Overlap, SameId, SameRequester, ShareClass, classes, contains, equal_keys,
    first_pair,
};
use ide_types::{Items, PeerPlan, Region, Selector, StreamPlan};
use std::alloc::Global;
use toml_walk::{KeyFault, Path, PlanError};

fn refuse_pair(alloc: Global, path: &Path, pair: Option<(usize, usize)>) -> Result<(), PlanError>
    ensures { Gives (λ u. u) result (refused_pair path.now pair) }
{
    match pair {
        None => Ok(()),
        Some((i, j)) => Err(path.refuse(alloc, KeyFault::Repeated(i, j))),
    }
}

// Refuses elements of the list at the path that may not stand beside each other.
fn refuse_clash<C: Clash>(
    alloc: Global,
    path: &Path,
    clash: &C,
    items: &[C::Item],
) -> Result<(), PlanError>
    ensures { Gives (λ u. u) result (no_clash path.now (C.clashes clash.now) items.now) }
{
    refuse_pair(alloc, path, first_pair(clash, items))
}

// The pool has six keys for each draw.
fn check_sixes(alloc: Global, pool: &[[u8; 32]]) -> Result<(), PlanError>
    ensures { Gives (λ u. u) result (in_sixes pool.now) }
{
    if pool.len() % 6 == 0 {
        Ok(())
    } else {
        let top = Path::top();
        Err(
            top.key("pool")
                .refuse(alloc, KeyFault::Range(pool.len() as i64)),
        )
    }
}

// The pool's keys are different.
fn check_keys(alloc: Global, pool: &[[u8; 32]]) -> Result<(), PlanError>
    ensures { Gives (λ u. u) result (no_clash (Key (codes "pool") ∷ []) bytes_eq pool.now) }
{
    refuse_pair(alloc, &Path::top().key("pool"), equal_keys(alloc, pool)?)
}

fn is_selective_stream(stream: &StreamPlan, number: i64) -> bool
    ensures { result ≡ (is_selective stream.now.selector && is_id number stream.now.id) }
{
    match &stream.selector {
        Selector::Selective { .. } => number == i64::from(stream.id),
        Selector::Link { .. } => false,
    }
}

fn names_selective(streams: &[StreamPlan], number: i64) -> bool
    ensures { result ≡ is_bound streams.now number }
{
    streams
        .iter()
        .any(|stream| is_selective_stream(stream, number))
}

// Each interface is bound to a selective stream of its link.
fn check_bound(
    alloc: Global,
    path: &Path,
    streams: &[StreamPlan],
    interfaces: &[InterfaceDraft],
) -> Result<(), PlanError>
    ensures { Gives (λ u. u) result (each_bound path.now streams.now 0 interfaces.now) }
{
    for (i, interface) in interfaces.iter().enumerate() {
        if !names_selective(streams, interface.stream) {
            let place = path.place(i);
            let path = place.key("stream");
            return Err(path.refuse(alloc, KeyFault::Range(interface.stream)));
        }
    }
    Ok(())
}

// The rules of one link.
#[tactic(auto, unfolding(crate::specs::Rules::link_rules))]
fn check_link(alloc: Global, path: &Path, link: &LinkDraft) -> Result<(), PlanError>
    ensures { Gives (λ u. u) result (link_rules path.now link.now) }
{
    let streams = link.streams.as_slice();
    let interfaces = link.interfaces.as_slice();
    let at_streams = path.key("stream");
    let at_interfaces = path.key("interface");
    refuse_clash(alloc, &at_streams, &SameId, streams)?;
    refuse_clash(alloc, &at_streams, &BothDefault, streams)?;
    refuse_clash(alloc, &at_streams, &ShareClass, streams)?;
    refuse_clash(alloc, &at_interfaces, &SameRequester, interfaces)?;
    check_bound(alloc, &at_interfaces, streams, interfaces)
}

// The rules of each link.
fn check_links(alloc: Global, links: &[LinkDraft]) -> Result<(), PlanError>
    ensures { Gives (λ u. u) result (each_link 0 links.now) }
{
    let top = Path::top();
    let list = top.key("link");
    for (i, link) in links.iter().enumerate() {
        check_link(alloc, &list.place(i), link)?;
    }
    Ok(())
}

fn limit_of(version: u8) -> usize
    ensures { result ≡ interface_limit version }
{
    if version == 2 { 64 } else { 32 }
}

// Whether there are at most so many interfaces.
fn are_few(links: &[LinkDraft], limit: usize) -> bool
    ensures { result ≡ nat_le (interface_count links.now) limit }
{
    let mut room = limit;
    for link in links {
        let count = link.interfaces.as_slice().len();
        if count > room {
            return false;
        }
        room -= count;
    }
    true
}

// Whether the regions have at most 16,777,216 bytes.
fn are_small(regions: &[Region]) -> bool
    ensures { result ≡ nat_le (sum_by (λ r. r.size) regions.now) 16777216 }
{
    let mut room: u64 = 16777216;
    for region in regions {
        let size = region.size;
        if size > room {
            return false;
        }
        room -= size;
    }
    true
}

// The total of a list is within its limit.
fn refuse_past(alloc: Global, path: &Path, within: bool) -> Result<(), PlanError>
    ensures { Gives (λ u. u) result (if within then Ok tt else Err (refused path.now Limit)) }
{
    if within {
        Ok(())
    } else {
        Err(path.refuse(alloc, KeyFault::Limit))
    }
}

// The number at the path may be there.
fn refuse_number(alloc: Global, path: &Path, number: u8, may: bool) -> Result<(), PlanError>
    ensures { Gives (λ u. u) result (allowed_or_range path.now number may) }
{
    if may {
        Ok(())
    } else {
        Err(path.refuse(alloc, KeyFault::Range(i64::from(number))))
    }
}

fn has_id(streams: &[StreamPlan], id: u8) -> bool
    ensures { result ≡ has_stream_id streams.now id }
{
    streams.iter().any(|stream| stream.id == id)
}

fn link_has_id(links: &[LinkDraft], link: u8, id: u8) -> bool
    ensures { result ≡ link_has links.now link id }
{
    match links.get(link as usize) {
        None => false,
        Some(link) => has_id(link.streams.as_slice(), id),
    }
}

fn any_has_id(peers: &[PeerPlan], id: u8) -> bool
    ensures { result ≡ list_any (λ q. q.id == id) peers.now }
{
    peers.iter().any(|peer| peer.id == id)
}

fn has_taken_id(links: &[LinkDraft], earlier: &[PeerPlan], peer: &PeerPlan) -> bool
    ensures { result ≡ is_id_taken links.now earlier.now peer.now }
{
    link_has_id(links, peer.near, peer.id)
        || link_has_id(links, peer.far, peer.id)
        || any_has_id(earlier, peer.id)
}

// The rules of one stream between devices.
#[tactic(auto, unfolding(crate::specs::Rules::peer_rules))]
fn check_peer(
    alloc: Global,
    path: &Path,
    links: &[LinkDraft],
    earlier: &[PeerPlan],
    peer: &PeerPlan,
) -> Result<(), PlanError>
    ensures { Gives (λ u. u) result (peer_rules path.now links.now earlier.now peer.now) }
{
    let count = links.len();
    let near = (peer.near as usize) < count;
    refuse_number(alloc, &path.key("a"), peer.near, near)?;
    let far = (peer.far as usize) < count && peer.far != peer.near;
    refuse_number(alloc, &path.key("b"), peer.far, far)?;
    let taken = has_taken_id(links, earlier, peer);
    refuse_number(alloc, &path.key("id"), peer.id, !taken)
}

// The rules of each stream between devices.
fn check_peers(alloc: Global, links: &[LinkDraft], peers: &[PeerPlan]) -> Result<(), PlanError>
    ensures { Gives (λ u. u) result (each_peer links.now peers.now 0 peers.now) }
{
    let top = Path::top();
    let list = top.key("p2p");
    for (i, peer) in peers.iter().enumerate() {
        check_peer(alloc, &list.place(i), links, &peers[..i], peer)?;
    }
    Ok(())
}

fn does_end_with(peer: &PeerPlan, link: usize, id: u8) -> bool
    ensures { result ≡ is_peer_with_id link id peer.now }
{
    peer.id == id && (peer.near as usize == link || peer.far as usize == link)
}

fn any_ends_with(peers: &[PeerPlan], link: usize, id: u8) -> bool
    ensures { result ≡ list_any (is_peer_with_id link id) peers.now }
{
    peers.iter().any(|peer| does_end_with(peer, link, id))
}

fn takes_class(streams: &[StreamPlan], class: u8) -> bool
    ensures { result ≡ lists_class streams.now class }
{
    streams
        .iter()
        .any(|stream| contains(classes(&stream.selector), class))
}

// The first of these classes that a stream of the link lists.
fn first_taken(streams: &[StreamPlan], classes: &[u8]) -> Option<u8>
    ensures { result ≡ find (lists_class streams.now) classes.now }
{
    for class in classes {
        if takes_class(streams, *class) {
            return Some(*class);
        }
    }
    None
}

fn refuse_class(alloc: Global, path: &Path, class: Option<u8>) -> Result<(), PlanError>
    ensures { Gives (λ u. u) result (refused_class path.now class) }
{
    match class {
        None => Ok(()),
        Some(class) => Err(path.refuse(alloc, KeyFault::Range(i64::from(class)))),
    }
}

fn check_classes(
    alloc: Global,
    path: &Path,
    streams: &[StreamPlan],
    classes: &Option<Items<u8>>,
) -> Result<(), PlanError>
    ensures { Gives (λ u. u) result (classes_apart path.now streams.now classes.now) }
{
    match classes {
        None => Ok(()),
        Some(classes) => refuse_class(alloc, path, first_taken(streams, classes.as_slice())),
    }
}

// The rules of a hop that has an ID.
fn check_some_hop(
    alloc: Global,
    path: &Path,
    peers: &[PeerPlan],
    link: usize,
    draft: &LinkDraft,
    id: u8,
) -> Result<(), PlanError>
    ensures { Gives (λ u. u) result
        (hop_rules_of_fields path.now peers.now link draft.now.streams (Some id) draft.now.hop_classes) }
{
    let streams = draft.streams.as_slice();
    let taken = has_id(streams, id) || any_ends_with(peers, link, id);
    refuse_number(alloc, &path.key("hop"), id, !taken)?;
    check_classes(alloc, &path.key("hop_tcs"), streams, &draft.hop_classes)
}

// The rules of the hop of one link.
#[tactic(auto, unfolding(crate::specs::Rules::hop_rules))]
fn check_hop(
    alloc: Global,
    path: &Path,
    peers: &[PeerPlan],
    link: usize,
    draft: &LinkDraft,
) -> Result<(), PlanError>
    ensures { Gives (λ u. u) result (hop_rules path.now peers.now link draft.now) }
{
    match (draft.hop, &draft.hop_classes) {
        (None, None) => Ok(()),
        (None, Some(_)) => Err(path.key("hop").refuse(alloc, KeyFault::Missing)),
        (Some(id), _) => check_some_hop(alloc, path, peers, link, draft, id),
    }
}

// The rules of the hop of each link.
fn check_hops(alloc: Global, peers: &[PeerPlan], links: &[LinkDraft]) -> Result<(), PlanError>
    ensures { Gives (λ u. u) result (each_hop peers.now 0 links.now) }
{
    let top = Path::top();
    let list = top.key("link");
    for (i, link) in links.iter().enumerate() {
        check_hop(alloc, &list.place(i), peers, i, link)?;
    }
    Ok(())
}

/// The rules over several values of a topology.
#[tactic(auto, unfolding(crate::specs::Rules::rules))]
pub(crate) fn check(alloc: Global, draft: &PlanDraft) -> Result<(), PlanError>
    ensures { Gives (λ u. u) result (rules draft.now) }
{
    let pool = draft.pool.as_slice();
    let links = draft.links.as_slice();
    let memory = draft.memory.as_slice();
    check_sixes(alloc, pool)?;
    check_keys(alloc, pool)?;
    check_links(alloc, links)?;
    let few = are_few(links, limit_of(draft.version));
    let top = Path::top();
    refuse_past(alloc, &top.key("interface"), few)?;
    let at_memory = top.key("memory");
    refuse_past(alloc, &at_memory, are_small(memory))?;
    refuse_clash(alloc, &at_memory, &Overlap, memory)?;
    let peers = draft.peers.as_slice();
    check_peers(alloc, links, peers)?;
    check_hops(alloc, peers, links)
}
