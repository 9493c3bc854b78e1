//! Elements of a list that may not stand beside each other.

ghost use Rattle.std.specs.Prelude.{◌≡◌, ◌+◌, ◌<◌, ◌^◌, nat_lt, Bool, IfOk, length, ℕ};
ghost use Rattle.std.specs.List.{position_from, list_any};
ghost use Rattle.std.specs.Str.{bytes_eq};
ghost use Rattle.ide_types.specs.Plans.{is_selective, is_default, classes_of, same_id, both_default, is_among};
ghost use Rattle.ide_types.specs.Plans.{share_class, overlap};
ghost use Rattle.topology.specs.Rules.{pair_from, same_requester};

use crate::draft::InterfaceDraft;
use ide_types::{Region, Selector, StreamPlan};
use std::alloc::{AllocError, Global};
use std::collections::BTreeMap;

/// When two elements of a list may not stand beside each other.
pub(crate) trait Clash {
    type Item;

    ghost clashes: { Self → Self.Item → Self.Item → Bool };

    /// Whether they may not.
    fn clash(&self, one: &Self::Item, other: &Self::Item) -> bool
        ensures { result ≡ clashes self.now one.now other.now };
}

// The place of the first element that may not stand beside one, the places counted from `from` on.
fn clash_from_place<C: Clash>(
    clash: &C,
    one: &C::Item,
    from: usize,
    items: &[C::Item],
) -> Option<usize>
    requires { from + length items.now < 2 ^ 64 }
    ensures { result ≡ position_from (C.clashes clash.now one.now) from items.now }
{
    for (i, other) in items.iter().enumerate() {
        if clash.clash(one, other) {
            return Some(from + i);
        }
    }
    None
}

/// The least pair of places of elements that may not stand beside each other, the first place first.
pub(crate) fn first_pair<C: Clash>(clash: &C, items: &[C::Item]) -> Option<(usize, usize)>
    ensures { result ≡ pair_from (C.clashes clash.now) 0 items.now }
{
    for (i, one) in items.iter().enumerate() {
        if let Some(j) = clash_from_place(clash, one, i + 1, &items[i + 1..]) {
            return Some((i, j));
        }
    }
    None
}

/// The least pair of places of equal keys, the first place first. Each key is looked up among the later ones, from
/// the last key to the first.
pub(crate) fn equal_keys(
    alloc: Global,
    keys: &[[u8; 32]],
) -> Result<Option<(usize, usize)>, AllocError>
    ensures { IfOk result (λ pair. pair ≡ pair_from bytes_eq 0 keys.now) }
{
    let mut places = BTreeMap::new(alloc);
    let mut pair = None;
    let mut i = keys.len();
    while i > 0 {
        i -= 1;
        if let Some(j) = places.insert(keys[i], i)? {
            pair = Some((i, j));
        }
    }
    Ok(pair)
}

/// Streams of one ID.
#[derive(Clone, Copy)]
pub(crate) struct SameId;

impl Clash for SameId {
    type Item = StreamPlan;

    ghost clashes = { λ _. same_id };

    fn clash(&self, one: &StreamPlan, other: &StreamPlan) -> bool {
        one.id == other.id
    }
}

fn is_default_stream(selector: &Selector) -> bool
    ensures { result ≡ is_default selector.now }
{
    match selector {
        Selector::Selective { default, .. } => *default,
        Selector::Link { .. } => false,
    }
}

/// Default streams.
#[derive(Clone, Copy)]
pub(crate) struct BothDefault;

impl Clash for BothDefault {
    type Item = StreamPlan;

    ghost clashes = { λ _. both_default };

    fn clash(&self, one: &StreamPlan, other: &StreamPlan) -> bool {
        is_default_stream(&one.selector) && is_default_stream(&other.selector)
    }
}

pub(crate) fn classes(selector: &Selector) -> &[u8]
    ensures { result.now ≡ classes_of selector.now }
{
    match selector {
        Selector::Selective { .. } => &[],
        Selector::Link { classes } => classes.as_slice(),
    }
}

pub(crate) fn contains(classes: &[u8], class: u8) -> bool
    ensures { result ≡ is_among class classes.now }
{
    classes.iter().any(|other| class == *other)
}

/// Streams that take one traffic class.
#[derive(Clone, Copy)]
pub(crate) struct ShareClass;

impl Clash for ShareClass {
    type Item = StreamPlan;

    ghost clashes = { λ _. share_class };

    fn clash(&self, one: &StreamPlan, other: &StreamPlan) -> bool {
        let others = classes(&other.selector);
        classes(&one.selector)
            .iter()
            .any(|class| contains(others, *class))
    }
}

/// Interfaces of one requester ID.
#[derive(Clone, Copy)]
pub(crate) struct SameRequester;

impl Clash for SameRequester {
    type Item = InterfaceDraft;

    ghost clashes = { λ _. same_requester };

    fn clash(&self, one: &InterfaceDraft, other: &InterfaceDraft) -> bool {
        one.interface.requester == other.interface.requester
    }
}

// Whether the region ends after the address.
fn ends_behind(region: &Region, address: u64) -> bool
    ensures { result ≡ nat_lt address (region.now.base + region.now.size) }
{
    address < region.base || address - region.base < region.size
}

/// Regions that have a byte in common.
#[derive(Clone, Copy)]
pub(crate) struct Overlap;

impl Clash for Overlap {
    type Item = Region;

    ghost clashes = { λ _. overlap };

    fn clash(&self, one: &Region, other: &Region) -> bool {
        ends_behind(one, other.base) && ends_behind(other, one.base)
    }
}
