//! Facts of ranges of memory.

ghost use Rattle.std.specs.Prelude.{◌≡◌, ◌∷◌, ◌++◌, [], find, IfOk, option_map, slice_get};
ghost use Rattle.trusted_memory.specs.Regions.{holds_all};
ghost use Rattle.trusted_memory.specs.Spans.{span_byte_count};
ghost use Rattle.why_facts.specs.Forms.{bar_fact, bar_facts, bytes_fact, memory_facts, region_facts, span_facts};
ghost use Rattle.why_facts.specs.Forms.{requester_at, shown_facts, takes_facts};

use crate::appends::faces::push_of_interface;
use ide_types::{BarPlan, OutOfMemory, Region, ValidPlan};
use interface_state::{Binding, Interface};
use script_events::InterfaceEvent;
use told_facts::{Fact, InterfaceFact};
use trusted_memory::Span;

// Whether a region has all n bytes from an address on.
fn holds_all(region: &Region, at: u64, n: u64) -> bool
    ensures { result ≡ holds_all region.now at n }
{
    region.base <= at && at - region.base < region.size && n <= region.size - (at - region.base)
}

// The first region that has them all.
fn region_of(regions: &[Region], at: u64, n: u64) -> Option<&Region>
    ensures { option_map (λ r. r.now) result ≡ find (λ r. holds_all r at n) regions.now }
{
    regions.iter().find(|region| holds_all(region, at, n))
}

/// Appends the region of trusted memory that has all n bytes from an address on.
pub fn push_region(
    facts: &mut Vec<Fact>,
    plan: &ValidPlan,
    at: u64,
    n: u64,
) -> Result<(), OutOfMemory>
    ensures { IfOk result (λ _. facts.new.items ≡ facts.old.items ++ region_facts plan.now.memory at n) }
{
    match region_of(plan.plan().memory.as_slice(), at, n) {
        None => Ok(()),
        Some(region) => push_of_interface(
            facts,
            InterfaceFact::Region {
                base: region.base,
                size: region.size,
            },
        ),
    }
}

/// Appends which bytes a TLP names.
pub fn push_bytes(facts: &mut Vec<Fact>, span: Span) -> Result<(), OutOfMemory>
    ensures { IfOk result (λ _. facts.new.items ≡ facts.old.items ++ bytes_fact span.address (span_byte_count span)
        ∷ []) }
{
    let address = span.address;
    let count = span.bytes() as u64;
    push_of_interface(facts, InterfaceFact::Bytes { address, count })
}

/// Appends which bytes a TLP names, and the region of trusted memory that has them.
pub fn push_span(
    facts: &mut Vec<Fact>,
    plan: &ValidPlan,
    span: Option<Span>,
) -> Result<(), OutOfMemory>
    ensures { IfOk result (λ _. facts.new.items ≡ facts.old.items ++ span_facts plan.now span) }
{
    match span {
        None => Ok(()),
        Some(span) => {
            push_bytes(facts, span)?;
            push_region(facts, plan, span.address, span.bytes() as u64)
        }
    }
}

/// Appends the range of a BAR.
pub fn push_bar(facts: &mut Vec<Fact>, bar: u64, range: &BarPlan) -> Result<(), OutOfMemory>
    ensures { IfOk result (λ _. facts.new.items ≡ facts.old.items ++ bar_fact bar range.now ∷ []) }
{
    push_of_interface(
        facts,
        InterfaceFact::Bar {
            bar,
            base: range.base,
            pages: range.pages,
            is_open: (range.attributes >> 2) & 1 == 1,
        },
    )
}

// The range of a BAR.
fn range_of(bars: &[BarPlan], bar: u64) -> Option<BarPlan>
    ensures { result ≡ slice_get bars.now bar }
{
    if bar < bars.len() as u64 {
        Some(bars[bar as usize])
    } else {
        None
    }
}

// Appends the range of one of these BARs, if the interface has it.
fn push_bar_if_there(facts: &mut Vec<Fact>, bars: &[BarPlan], bar: u64) -> Result<(), OutOfMemory>
    ensures { IfOk result (λ _. facts.new.items ≡ facts.old.items ++ bar_facts bar (slice_get bars.now bar)) }
{
    match range_of(bars, bar) {
        None => Ok(()),
        Some(range) => {
            if range.pages == 0 {
                Ok(())
            } else {
                push_bar(facts, bar, &range)
            }
        }
    }
}

/// Appends the state of an interface at its device, and the range of one of its BARs.
pub fn push_shown(
    facts: &mut Vec<Fact>,
    number: u8,
    interface: &Interface,
    bar: u64,
) -> Result<(), OutOfMemory>
    ensures { IfOk result (λ _. facts.new.items ≡ facts.old.items ++ shown_facts number interface.now bar) }
{
    push_of_interface(
        facts,
        InterfaceFact::Interface {
            interface: number,
            state: interface.state(),
        },
    )?;
    push_bar_if_there(facts, &interface.bars(), bar)
}

/// The requester ID of the interface at a place of a link.
pub fn requester_at(plan: &ValidPlan, link: u8, place: usize) -> Option<u16>
    ensures { result ≡ requester_at plan.now link place }
{
    match plan.plan().links.as_slice().get(link as usize) {
        None => None,
        Some(link) => match link.interfaces.as_slice().get(place) {
            None => None,
            Some(interface) => Some(interface.requester),
        },
    }
}

/// Appends the streams that a device takes trusted requests to an interface on.
pub fn push_takes(facts: &mut Vec<Fact>, bindings: &[Binding]) -> Result<(), OutOfMemory>
    ensures { IfOk result (λ _. facts.new.items ≡ facts.old.items ++ takes_facts bindings.now) }
{
    for binding in bindings {
        push_of_interface(
            facts,
            InterfaceFact::Takes {
                stream: binding.stream,
                floor: binding.floor,
            },
        )?;
    }
    Ok(())
}

/// Appends the region of what an event asks of memory.
pub fn push_memory(
    facts: &mut Vec<Fact>,
    plan: &ValidPlan,
    event: &InterfaceEvent,
) -> Result<(), OutOfMemory>
    ensures { IfOk result (λ _. facts.new.items ≡ facts.old.items ++ memory_facts plan.now event.now) }
{
    match event {
        InterfaceEvent::Memory { address, length } => {
            push_region(facts, plan, *address, *length)
        }
        _ => Ok(()),
    }
}
