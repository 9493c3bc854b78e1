//! How large the ranges are.

ghost use Rattle.std.specs.Prelude.{◌≡◌, IfOk, map};
ghost use Rattle.guarded_memory.specs.Contents.{page_count, page_counts, fits_range};

use ide_types::{BarPlan, InterfacePlan, OutOfMemory};
use std::alloc::Global;

fn page_count(bars: &[BarPlan], n: usize) -> u32
    ensures { result ≡ page_count bars.now n }
{
    match bars.get(n) {
        Some(bar) => bar.pages,
        None => 0,
    }
}

// Of the six BARs of an interface, 0 of one that it has not.
fn page_counts(plan: &InterfacePlan) -> [u32; 6]
    ensures { result ≡ page_counts plan.now }
{
    let bars = plan.bars.as_slice();
    [
        page_count(bars, 0),
        page_count(bars, 1),
        page_count(bars, 2),
        page_count(bars, 3),
        page_count(bars, 4),
        page_count(bars, 5),
    ]
}

/// Whether a range of this size has the byte at the offset, and all `n` bytes from there on.
pub fn fits_range(size: u64, offset: u64, n: usize) -> bool
    ensures { result ≡ fits_range size offset n }
{
    offset < size && n as u64 <= size - offset
}

/// Of each interface how many pages each of its six BARs has.
pub fn sizes_of(alloc: Global, interfaces: &[InterfacePlan]) -> Result<Vec<[u32; 6]>, OutOfMemory>
    ensures { IfOk result (λ v. v.items ≡ map page_counts interfaces.now) }
{
    let mut sizes = Vec::new(alloc);
    for plan in interfaces {
        sizes.push(page_counts(plan))?;
    }
    Ok(sizes)
}
