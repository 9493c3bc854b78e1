//! The tables of links and of memory, and the table at the top.

ghost use Rattle.std.specs.Prelude.{◌≡◌, ◌≤◌, [], None, codes, map};
ghost use Rattle.toml.specs.View.{view, table_view};
ghost use Rattle.toml_walk.specs.Bounds.{greatest, within};
ghost use Rattle.toml_walk.specs.Fault.{Gives};
ghost use Rattle.toml_walk.specs.Values.{number};
ghost use Rattle.toml_walk.specs.Walk.{table, list, count_between, any_number, given_value, required_value, optional};
ghost use Rattle.topology.specs.Tables.{link_names, link_keys, region_within, region_keys, peer_keys, is_newer};
ghost use Rattle.topology.specs.Tables.{top_names, top_keys};

use crate::draft::{LinkDraft, PlanDraft};
use crate::interfaces::Interfaces;
use crate::streams::Streams;
use ide_types::{Items, PeerPlan, Region};
use std::alloc::Global;
use toml::{Table, Value};
use toml_walk::{
    Byte, CountRange, Form, Given, KeyBytes, KeyFault, Keys, ListOf, Path, PlanError, Reader, Wide,
    Word, found, table_of,
};

// The keys of a link in version 1.
const LINK_NAMES: &[&str] = &["nonces", "stream", "interface"];

// The keys of a link in version 2.
const NEWER_LINK_NAMES: &[&str] = &["hop", "hop_tcs", "nonces", "stream", "interface"];

fn link_names_of(version: u8) -> &'static [&'static str]
    ensures { map (λ s. s.now) result.now ≡ link_names version }
{
    if version == 2 {
        NEWER_LINK_NAMES
    } else {
        LINK_NAMES
    }
}

fn hop_in(keys: &Keys) -> Result<Option<u8>, PlanError>
    ensures { Gives (λ x. x) result (optional keys.now.path.now (table_view keys.now.table.now) (codes "hop") None
        (given_value (number (within 0 255)))) }
{
    let id = Given {
        element: Byte::within(0, 255),
    };
    keys.optional("hop", None, &id)
}

fn hop_classes_in(keys: &Keys) -> Result<Option<Items<u8>>, PlanError>
    ensures { Gives (λ x. x) result (optional keys.now.path.now (table_view keys.now.table.now) (codes "hop_tcs") None
        (given_value (list any_number (number (within 0 7))))) }
{
    let classes = Given {
        element: ListOf {
            span: CountRange::any_number(),
            element: Byte::within(0, 7),
        },
    };
    keys.optional("hop_tcs", None, &classes)
}

// The keys of a link's table.
#[tactic(auto, unfolding(crate::specs::Tables::link_keys))]
fn link_of(version: u8, keys: &Keys) -> Result<LinkDraft, PlanError>
    ensures { Gives (λ x. x) result (link_keys version keys.now.path.now (table_view keys.now.table.now)) }
{
    keys.only(link_names_of(version))?;
    let none = Items::new(Vec::new(keys.alloc));
    let nonces = keys.optional("nonces", none, &ListOf::between(0, 1024, KeyBytes))?;
    let streams = keys.required("stream", &ListOf::between(1, 16, Streams))?;
    let list = ListOf {
        span: CountRange::any_number(),
        element: Interfaces { version },
    };
    let interfaces = keys.optional("interface", Items::new(Vec::new(keys.alloc)), &list)?;
    let hop = hop_in(keys)?;
    let hop_classes = hop_classes_in(keys)?;
    Ok(LinkDraft {
        nonces,
        streams,
        interfaces,
        hop,
        hop_classes,
    })
}

#[derive(Clone, Copy)]
struct Links {
    version: u8,
}

impl Reader for Links {
    type Out = LinkDraft;

    ghost reads = { λ r. table (link_keys r.version) };

    fn read(&self, alloc: Global, path: &Path, value: &Value) -> Result<LinkDraft, PlanError> {
        let table = table_of(alloc, path, value)?;
        link_of(self.version, &Keys { alloc, path, table })
    }
}

// A region that ends at 2^63 or below.
fn bounded_region(keys: &Keys, base: u64, size: u64) -> Result<Region, PlanError>
    requires base { base ≤ greatest }
    requires size { size ≤ greatest }
    ensures { Gives (λ x. x) result (region_within keys.now.path.now base size) }
{
    if base + size <= 9223372036854775808 {
        return Ok(Region { base, size });
    }
    let path = keys.path.key("size");
    Err(path.refuse(keys.alloc, KeyFault::Range(size as i64)))
}

// The keys of a region's table.
#[tactic(auto, unfolding(crate::specs::Tables::region_keys))]
fn region_of(keys: &Keys) -> Result<Region, PlanError>
    ensures { Gives (λ x. x) result (region_keys keys.now.path.now (table_view keys.now.table.now)) }
{
    keys.only(&["base", "size"])?;
    let base = keys.required("base", &Wide::formed(0, Form::Pages))?;
    let size = keys.required("size", &Wide::formed(4096, Form::Pages))?;
    bounded_region(keys, base, size)
}

#[derive(Clone, Copy)]
struct Regions;

impl Reader for Regions {
    type Out = Region;

    ghost reads = { λ _. table region_keys };

    fn read(&self, alloc: Global, path: &Path, value: &Value) -> Result<Region, PlanError> {
        let table = table_of(alloc, path, value)?;
        region_of(&Keys { alloc, path, table })
    }
}

// The keys of the table of a stream between two devices.
#[tactic(auto, unfolding(crate::specs::Tables::peer_keys))]
fn peer_of(keys: &Keys) -> Result<PeerPlan, PlanError>
    ensures { Gives (λ x. x) result (peer_keys keys.now.path.now (table_view keys.now.table.now)) }
{
    keys.only(&["id", "a", "b", "mode"])?;
    let id = keys.required("id", &Byte::within(0, 255))?;
    let near = keys.required("a", &Byte::within(0, 7))?;
    let far = keys.required("b", &Byte::within(0, 7))?;
    let aggregation = keys.optional("mode", 1, &Byte::formed(1, 8, Form::UnitMode))?;
    Ok(PeerPlan {
        id,
        near,
        far,
        aggregation,
    })
}

#[derive(Clone, Copy)]
struct Peers;

impl Reader for Peers {
    type Out = PeerPlan;

    ghost reads = { λ _. table peer_keys };

    fn read(&self, alloc: Global, path: &Path, value: &Value) -> Result<PeerPlan, PlanError> {
        let table = table_of(alloc, path, value)?;
        peer_of(&Keys { alloc, path, table })
    }
}

fn units_in(keys: &Keys) -> Result<u64, PlanError>
    ensures { Gives (λ n. n) result (optional keys.now.path.now (table_view keys.now.table.now) (codes "units_per_key")
        4294967296
        (number (within 1 4294967296))) }
{
    keys.optional("units_per_key", 4294967296, &Wide::within(1, 4294967296))
}

fn links_in(version: u8, keys: &Keys) -> Result<Items<LinkDraft>, PlanError>
    ensures { Gives (λ xs. xs) result (required_value keys.now.path.now (table_view keys.now.table.now) (codes "link")
        (list (count_between 1 8) (table (link_keys version)))) }
{
    keys.required("link", &ListOf::between(1, 8, Links { version }))
}

fn memory_in(keys: &Keys) -> Result<Items<Region>, PlanError>
    ensures { Gives (λ xs. xs) result (optional keys.now.path.now (table_view keys.now.table.now) (codes "memory") []
        (list (count_between 0 16) (table region_keys))) }
{
    let none = Items::new(Vec::new(keys.alloc));
    keys.optional("memory", none, &ListOf::between(0, 16, Regions))
}

fn peers_in(keys: &Keys) -> Result<Items<PeerPlan>, PlanError>
    ensures { Gives (λ xs. xs) result (optional keys.now.path.now (table_view keys.now.table.now) (codes "p2p") []
        (list (count_between 0 8) (table peer_keys))) }
{
    let none = Items::new(Vec::new(keys.alloc));
    keys.optional("p2p", none, &ListOf::between(0, 8, Peers))
}

// The keys of the table at the top in version 1.
const TOP_NAMES: &[&str] = &[
    "version",
    "portion",
    "units_per_key",
    "pool",
    "link",
    "memory",
];

// The keys of the table at the top in version 2.
const NEWER_TOP_NAMES: &[&str] = &[
    "p2p",
    "version",
    "portion",
    "units_per_key",
    "pool",
    "link",
    "memory",
];

// Whether the number at `version` is 2.
fn is_newer_table(table: &Table) -> bool
    ensures { result ≡ is_newer (table_view table.now) }
{
    match found(table, "version") {
        Some(value) => value.as_integer() == Some(2),
        None => false,
    }
}

fn top_names_of(table: &Table) -> &'static [&'static str]
    ensures { map (λ s. s.now) result.now ≡ top_names (is_newer (table_view table.now)) }
{
    if is_newer_table(table) {
        NEWER_TOP_NAMES
    } else {
        TOP_NAMES
    }
}

/// The keys of the table at the top.
#[tactic(auto, unfolding(crate::specs::Tables::top_keys))]
pub(crate) fn top_of(keys: &Keys) -> Result<PlanDraft, PlanError>
    ensures { Gives (λ x. x) result (top_keys keys.now.path.now (table_view keys.now.table.now)) }
{
    keys.only(top_names_of(keys.table))?;
    let version = keys.required("version", &Byte::within(1, 2))?;
    let portion = keys.optional("portion", 64, &Word::within(16, 65535))?;
    let units_per_key = units_in(keys)?;
    let pool = keys.required("pool", &ListOf::between(6, 6144, KeyBytes))?;
    let links = links_in(version, keys)?;
    let memory = memory_in(keys)?;
    let peers = peers_in(keys)?;
    Ok(PlanDraft {
        version,
        portion,
        units_per_key,
        pool,
        links,
        memory,
        peers,
    })
}
