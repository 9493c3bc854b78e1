//! The base address registers of a device interface, and the ranges that they map.

ghost use Rattle.std.specs.Prelude.{◌≡◌, ◌<◌, ◌+◌, ◌≤◌, ◌%◌, ◌++◌, All, length};
ghost use Rattle.std.specs.List.{list_any, flat_map};
ghost use Rattle.std.specs.Option.{option_to_list};
ghost use Rattle.arrayvec.specs.ArrayVec.{array_vec_len};
ghost use Rattle.tdisp_codec.specs.Ranges.{range_bytes, ranges_in};
ghost use Rattle.interface_state.specs.Bars.{FitsReported, bar_at, bars_of, bar_end, bars_overlap, any_overlap};
ghost use Rattle.interface_state.specs.Bars.{reported_range, reported_ranges};

use crate::register_set::Registers;
use arrayvec::ArrayVec;
use ide_types::{BarPlan, InterfacePlan};
use tdisp_codec::{ReportRange, ranges_again};

/// The bytes of six ranges in a report.
pub(crate) const RANGE_BYTES: usize = 96;

// The BAR of this number below 6: its base by the registers, without pages if the interface has none.
fn bar_at(bars: &[BarPlan], bases: &[u64; 6], n: usize) -> BarPlan
    requires { n < 6 }
    ensures { result ≡ bar_at bars.now bases.now n }
{
    let base = bases[n];
    match bars.get(n) {
        Some(bar) => BarPlan {
            base,
            pages: bar.pages,
            attributes: bar.attributes,
        },
        None => BarPlan {
            base,
            pages: 0,
            attributes: 0,
        },
    }
}

/// The six BARs of an interface by their number.
pub(crate) fn bars_of(plan: &InterfacePlan, registers: &Registers) -> [BarPlan; 6]
    ensures { result ≡ bars_of plan.now registers.now }
{
    let bars = plan.bars.as_slice();
    let bases = &registers.bars;
    [
        bar_at(bars, bases, 0),
        bar_at(bars, bases, 1),
        bar_at(bars, bases, 2),
        bar_at(bars, bases, 3),
        bar_at(bars, bases, 4),
        bar_at(bars, bases, 5),
    ]
}

// One past its last byte, which may pass 64 bits.
fn bar_end(bar: &BarPlan) -> u128
    ensures { result ≡ bar_end bar.now }
{
    bar.base as u128 + 4096 * bar.pages as u128
}

fn overlap(bar: &BarPlan, other: &BarPlan) -> bool
    ensures { result ≡ bars_overlap bar.now other.now }
{
    let first = bar.base.max(other.base) as u128;
    first < bar_end(bar).min(bar_end(other))
}

fn overlaps_any(bar: &BarPlan, others: &[BarPlan]) -> bool
    ensures { result ≡ list_any (bars_overlap bar.now) others.now }
{
    others.iter().any(|other| overlap(bar, other))
}

/// Whether the bytes of two of them overlap.
pub(crate) fn any_overlap(bars: &[BarPlan]) -> bool
    ensures { result ≡ any_overlap bars.now }
{
    for (i, bar) in bars.iter().enumerate() {
        if overlaps_any(bar, &bars[i + 1..]) {
            return true;
        }
    }
    false
}

// The range of a BAR with pages, moved by the MMIO reporting offset modulo 2^64.
fn reported_range(offset: u64, number: u16, bar: &BarPlan) -> Option<ReportRange>
    ensures { result ≡ reported_range offset (number, bar.now) }
{
    if bar.pages == 0 {
        return None;
    }
    Some(ReportRange {
        first_page: bar.base.wrapping_add(offset) / 4096,
        pages: bar.pages,
        attributes: bar.attributes as u16,
        id: number,
    })
}

// Appends the bytes of a BAR's range, if it has one.
fn append_range(out: &mut ArrayVec<u8, RANGE_BYTES>, offset: u64, number: u16, bar: &BarPlan)
    requires { array_vec_len out.old + 16 ≤ RANGE_BYTES }
    ensures items { out.new.items ≡ out.old.items ++ flat_map range_bytes
        (option_to_list (reported_range offset (number, bar.now))) }
    ensures len { array_vec_len out.new ≤ array_vec_len out.old + 16 }
{
    if let Some(range) = reported_range(offset, number, bar) {
        let _ = out.try_extend_from_slice(&range.to_bytes());
    }
}

/// The bytes of the ranges that a report names, of up to six BARs.
pub(crate) fn reported_bytes(bars: &[BarPlan], offset: u64) -> ArrayVec<u8, RANGE_BYTES>
    requires count { length bars.now ≤ 6 }
    requires fits { All FitsReported bars.now }
    ensures whole { length result.items % 16 ≡ 0 }
    ensures short { length result.items ≤ RANGE_BYTES }
    ensures ranges { ranges_in result.items ≡ reported_ranges offset bars.now }
{
    ranges_again();
    let mut out = ArrayVec::new();
    for (i, bar) in bars.iter().enumerate() {
        append_range(&mut out, offset, i as u16, bar);
    }
    out
}
