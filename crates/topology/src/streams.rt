//! The tables of streams.

ghost use Rattle.std.specs.Prelude.{◌≡◌, ◌≤◌, not, IfOk, codes};
ghost use Rattle.toml.specs.View.{view, table_view};
ghost use Rattle.toml_walk.specs.Bounds.{greatest, within, bounds_of_form};
ghost use Rattle.toml_walk.specs.Fault.{Gives};
ghost use Rattle.toml_walk.specs.Walk.{table, count_between, any_number};
ghost use Rattle.topology.specs.Tables.{kind_named, stream_kind, is_selective_kind, only_if, ids_in_order, id_range};
ghost use Rattle.topology.specs.Tables.{addresses_in_order, address_range, true_if, truth_if, selector_for};
ghost use Rattle.topology.specs.Tables.{stream_keys};

use crate::draft::StreamKind;
use ide_types::{AddressRange, IdRange, Items, Selector, StreamPlan};
use std::alloc::Global;
use toml::{Table, Value};
use toml_walk::{
    Bounds, Byte, CountRange, Form, GREATEST, KeyFault, Keys, ListOf, Path, PlanError, Reader,
    Truth, or_length, table_of, text_of, two_numbers,
};

fn kind_of(word: &str) -> Option<StreamKind>
    ensures { result ≡ kind_named word.now }
{
    match word {
        "selective" => Some(StreamKind::Selective),
        "link" => Some(StreamKind::Link),
        _ => None,
    }
}

// What a stream is chosen by.
#[derive(Clone, Copy)]
struct Kind;

impl Reader for Kind {
    type Out = StreamKind;

    ghost reads = { λ _. stream_kind };

    fn read(&self, alloc: Global, path: &Path, value: &Value) -> Result<StreamKind, PlanError> {
        let word = text_of(alloc, path, value)?;
        or_length(alloc, path, word, kind_of(word))
    }
}

fn is_selective(kind: StreamKind) -> bool
    ensures { result ≡ is_selective_kind kind }
{
    match kind {
        StreamKind::Selective => true,
        StreamKind::Link => false,
    }
}

// [base, limit] of IDs.
#[derive(Clone, Copy)]
struct Ids {
    allowed: bool,
}

fn ids_of(alloc: Global, path: &Path, base: u16, limit: u16) -> Result<Option<IdRange>, PlanError>
    ensures { Gives (λ x. x) result (ids_in_order path.now (base, limit)) }
{
    if base <= limit {
        Ok(Some(IdRange { base, limit }))
    } else {
        Err(
            path.place(1)
                .refuse(alloc, KeyFault::Range(i64::from(limit))),
        )
    }
}

impl Reader for Ids {
    type Out = Option<IdRange>;

    ghost reads = { λ r. id_range r.allowed };

    fn read(
        &self,
        alloc: Global,
        path: &Path,
        value: &Value,
    ) -> Result<Option<IdRange>, PlanError> {
        let bounds = Bounds::within(0, 65535);
        let (base, limit) = two_numbers(alloc, self.allowed, &bounds, &bounds, path, value)?;
        ids_of(alloc, path, base as u16, limit as u16)
    }
}

// [base, limit] of addresses.
#[derive(Clone, Copy)]
struct Addresses;

fn addresses_of(
    alloc: Global,
    path: &Path,
    base: u64,
    limit: u64,
) -> Result<AddressRange, PlanError>
    requires { limit ≤ greatest }
    ensures { Gives (λ x. x) result (addresses_in_order path.now (base, limit)) }
{
    if base < limit {
        Ok(AddressRange { base, limit })
    } else {
        Err(path.place(1).refuse(alloc, KeyFault::Range(limit as i64)))
    }
}

impl Reader for Addresses {
    type Out = AddressRange;

    ghost reads = { λ _. address_range };

    fn read(&self, alloc: Global, path: &Path, value: &Value) -> Result<AddressRange, PlanError> {
        let first = Bounds::formed(0, GREATEST, Form::Mebibytes);
        let last = Bounds::formed(0, GREATEST, Form::LastOfMebibyte);
        let (base, limit) = two_numbers(alloc, true, &first, &last, path, value)?;
        addresses_of(alloc, path, base, limit)
    }
}

// True if it is allowed, or false.
#[derive(Clone, Copy)]
struct TruthIf {
    allowed: bool,
}

fn truth_of(alloc: Global, allowed: bool, path: &Path, b: bool) -> Result<bool, PlanError>
    ensures { Gives (λ x. x) result (true_if allowed path.now b) }
{
    if b && !allowed {
        Err(path.refuse(alloc, KeyFault::Range(1)))
    } else {
        Ok(b)
    }
}

impl Reader for TruthIf {
    type Out = bool;

    ghost reads = { λ r. truth_if r.allowed };

    fn read(&self, alloc: Global, path: &Path, value: &Value) -> Result<bool, PlanError> {
        let b = Truth.read(alloc, path, value)?;
        truth_of(alloc, self.allowed, path, b)
    }
}

// Up to 8 ranges of addresses, or none if none are allowed.
fn ranges(allowed: bool) -> ListOf<Addresses>
    ensures { result.span ≡ only_if allowed (count_between 0 8) }
{
    let span = CountRange {
        least: 0,
        most: Some(8),
        allowed,
    };
    ListOf {
        span,
        element: Addresses,
    }
}

// Any number of traffic classes, or none if none are allowed.
fn class_list(allowed: bool) -> ListOf<Byte>
    ensures span { result.span ≡ only_if allowed any_number }
    ensures element { result.element.bounds ≡ within 0 7 }
{
    let span = CountRange {
        least: 0,
        most: None,
        allowed,
    };
    ListOf {
        span,
        element: Byte::within(0, 7),
    }
}

fn selector(
    kind: StreamKind,
    ids: Option<IdRange>,
    addresses: Items<AddressRange>,
    default: bool,
    classes: Items<u8>,
) -> Selector
    ensures { result ≡ selector_for kind ids addresses default classes }
{
    match kind {
        StreamKind::Selective => Selector::Selective {
            ids,
            addresses,
            default,
        },
        StreamKind::Link => Selector::Link { classes },
    }
}

// The keys of a stream's table.
#[tactic(auto, unfolding(crate::specs::Tables::stream_keys))]
fn stream_of(keys: &Keys) -> Result<StreamPlan, PlanError>
    ensures { Gives (λ x. x) result (stream_keys keys.now.path.now (table_view keys.now.table.now)) }
{
    keys.only(&[
        "id", "kind", "mode", "rid", "ranges", "default", "tcs", "closed",
    ])?;
    let id = keys.required("id", &Byte::within(0, 255))?;
    let kind = keys.required("kind", &Kind)?;
    let aggregation = keys.optional("mode", 1, &Byte::formed(1, 8, Form::UnitMode))?;
    let selective = is_selective(kind);
    let ids = keys.optional("rid", None, &Ids { allowed: selective })?;
    let none = Items::new(Vec::new(keys.alloc));
    let addresses = keys.optional("ranges", none, &ranges(selective))?;
    let default = keys.optional("default", false, &TruthIf { allowed: selective })?;
    let none = Items::new(Vec::new(keys.alloc));
    let classes = keys.optional("tcs", none, &class_list(!selective))?;
    let closed = keys.optional("closed", false, &Truth)?;
    Ok(StreamPlan {
        id,
        aggregation,
        closed,
        selector: selector(kind, ids, addresses, default, classes),
    })
}

/// The table of a stream.
#[derive(Clone, Copy)]
pub(crate) struct Streams;

impl Reader for Streams {
    type Out = StreamPlan;

    ghost reads = { λ _. table stream_keys };

    fn read(&self, alloc: Global, path: &Path, value: &Value) -> Result<StreamPlan, PlanError> {
        let table = table_of(alloc, path, value)?;
        stream_of(&Keys { alloc, path, table })
    }
}
