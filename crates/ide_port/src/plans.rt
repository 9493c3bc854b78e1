//! Plans of streams: copies, and the places of streams among them.

ghost use Rattle.std.specs.Prelude.{◌≡◌, IfOk, map, All};
ghost use Rattle.ide_types.specs.Fits.{FitsStream};
ghost use Rattle.ide_prefix.specs.{sub_from};
ghost use Rattle.tlp_layout.specs.Choice.{plan_place};
ghost use Rattle.ide_port.specs.Kept.{place_and_sub, new_stream_ends};

use crate::Stream;
use ide_types::{Items, OutOfMemory, Selector, Side, StreamPlan, SubKind};
use std::alloc::Global;

fn copied_selector(alloc: Global, selector: &Selector) -> Result<Selector, OutOfMemory>
    ensures { IfOk result (λ s. s ≡ selector.now) }
{
    match selector {
        Selector::Selective {
            ids,
            addresses,
            default,
        } => Ok(Selector::Selective {
            ids: *ids,
            addresses: Items::new(Vec::from_slice(alloc, addresses.as_slice())?),
            default: *default,
        }),
        Selector::Link { classes } => Ok(Selector::Link {
            classes: Items::new(Vec::from_slice(alloc, classes.as_slice())?),
        }),
    }
}

fn copied_plan(alloc: Global, plan: &StreamPlan) -> Result<StreamPlan, OutOfMemory>
    ensures { IfOk result (λ s. s ≡ plan.now) }
{
    let selector = copied_selector(alloc, &plan.selector)?;
    Ok(StreamPlan {
        id: plan.id,
        aggregation: plan.aggregation,
        closed: plan.closed,
        selector,
    })
}

/// A copy of plans.
pub fn copied(alloc: Global, plans: &[StreamPlan]) -> Result<Items<StreamPlan>, OutOfMemory>
    ensures { IfOk result (λ p. p ≡ plans.now) }
{
    let mut copies = Vec::new(alloc);
    for plan in plans {
        copies.push(copied_plan(alloc, plan)?)?;
    }
    Ok(Items::new(copies))
}

/// The streams of these plans at a port of a side, without keys.
pub fn planned(
    alloc: Global,
    side: Side,
    plans: &[StreamPlan],
    limit: u64,
) -> Result<Vec<Stream>, OutOfMemory>
    requires { All FitsStream plans.now }
    ensures { IfOk result (λ v. v.items ≡ new_stream_ends side limit plans.now) }
{
    let mut streams = Vec::new(alloc);
    for plan in plans {
        streams.push(Stream::make(alloc, side, plan.id, plan.aggregation, plan.closed, limit)?)?;
    }
    Ok(streams)
}

/// The place of the stream of an ID.
pub fn place(plans: &[StreamPlan], id: u8) -> Option<usize>
    ensures { result ≡ plan_place plans.now id }
{
    plans.iter().position(|plan| plan.id == id)
}

fn sub_stream(number: u8) -> SubKind
    ensures { result ≡ sub_from number }
{
    match number {
        0 => SubKind::Pr,
        1 => SubKind::Npr,
        _ => SubKind::Cpl,
    }
}

/// The place of the stream of an ID, and the sub-stream of a number below 3.
pub fn lane(plans: &[StreamPlan], id: u8, sub: u8) -> Option<(usize, SubKind)>
    ensures { result ≡ place_and_sub plans.now id sub }
{
    if sub >= 3 {
        return None;
    }
    match place(plans, id) {
        None => None,
        Some(place) => Some((place, sub_stream(sub))),
    }
}
