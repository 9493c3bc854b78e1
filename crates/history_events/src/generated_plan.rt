//! The topology of generated events.

ghost use Rattle.std.specs.Prelude.{◌≡◌, IfOk, replicate};
ghost use Rattle.ide_types.specs.Fits.{FitsPlan};
ghost use Rattle.history_events.specs.GeneratedTopology.{the_interface, the_link, the_plan, the_stream};

use crate::keys::numbered_keys;
use ide_types::{
    AddressRange, BarPlan, Bytes, IdRange, InterfacePlan, Items, LinkPlan, OutOfMemory, Plan,
    Region, Selector, StreamPlan,
};
use std::alloc::Global;

// The one stream.
fn the_stream(alloc: Global) -> Result<StreamPlan, OutOfMemory>
    ensures { IfOk result (λ s. s ≡ the_stream) }
{
    let range = AddressRange {
        base: 0x4000_0000,
        limit: 0x400f_ffff,
    };
    let ids = IdRange {
        base: 0x100,
        limit: 0x100,
    };
    let addresses = Items::new(vec![in alloc; range]?);
    Ok(StreamPlan {
        id: 5,
        aggregation: 1,
        closed: false,
        selector: Selector::Selective {
            ids: Some(ids),
            addresses,
            default: false,
        },
    })
}

// The one interface.
fn the_interface(alloc: Global) -> Result<InterfacePlan, OutOfMemory>
    ensures { IfOk result (λ i. i ≡ the_interface) }
{
    let bar = BarPlan {
        base: 0x4000_0000,
        pages: 16,
        attributes: 0,
    };
    let info = Bytes::new(vec![in alloc; 0; 64]?);
    let bars = Items::new(vec![in alloc; bar]?);
    Ok(InterfacePlan {
        requester: 0x100,
        stream: 5,
        flags: 0,
        offset: 0,
        command: 6,
        cache_line: 16,
        msix: 0,
        lnr: 0,
        tph: 0,
        pasid: 0,
        ats: 0,
        reads: false,
        info,
        bars,
    })
}

fn the_link(alloc: Global) -> Result<LinkPlan, OutOfMemory>
    ensures { IfOk result (λ l. l ≡ the_link) }
{
    let nonces = numbered_keys(alloc, 1024)?;
    let streams = Items::new(vec![in alloc; the_stream(alloc)?]?);
    let interfaces = Items::new(vec![in alloc; the_interface(alloc)?]?);
    Ok(LinkPlan {
        nonces,
        streams,
        interfaces,
        hop: None,
    })
}

fn the_plan(alloc: Global) -> Result<Plan, OutOfMemory>
    ensures { IfOk result (λ p. p ≡ the_plan) }
{
    let pool = numbered_keys(alloc, 6144)?;
    let links = Items::new(vec![in alloc; the_link(alloc)?]?);
    let region = Region {
        base: 0x1000_0000,
        size: 0x10000,
    };
    let memory = Items::new(vec![in alloc; region]?);
    Ok(Plan {
        version: 1,
        portion: 64,
        units_per_key: 4294967296,
        pool,
        links,
        memory,
        peers: Items::new(Vec::new(alloc)),
    })
}

/// The topology of generated events: one link with a selective stream and an interface, a region of memory, 1,024
/// draws, and as many nonces (this profile).
pub fn topology(alloc: Global) -> Result<Plan, OutOfMemory>
    ensures plan { IfOk result (λ p. p ≡ the_plan) }
    ensures fits { IfOk result FitsPlan }
{
    the_plan(alloc)
}
