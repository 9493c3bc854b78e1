//! Which BAR claims a write (this profile).

ghost use Rattle.std.specs.Prelude.{◌≡◌, true, IfSome};
ghost use Rattle.guarded_memory.specs.Claims.{holds_span, holding_bar, claimed_bar, claim_of};

use crate::{InterfaceStatus, Statuses};
use ide_types::BarPlan;
use trusted_memory::Span;

/// The BAR that claims a write, and the interface that has it, by their numbers and as they stand (PCI Express Base 6.0
/// section 7.5.1.2.1).
#[derive(Drop)]
pub struct Claim {
    /// The interface's number among those of the device.
    pub interface: usize,
    /// How the interface stands.
    pub status: InterfaceStatus,
    /// The BAR's number.
    pub bar: usize,
    /// The BAR's range, with its base as it stands.
    pub range: BarPlan,
}

// Whether all bytes are in the range, whose end may pass 64 bits.
fn holds_span(range: &BarPlan, span: Span) -> bool
    ensures { result ≡ holds_span range.now span }
{
    let size = 4_096 * range.pages as u64;
    let bytes = span.bytes() as u64;
    range.base <= span.address && bytes <= size && span.address - range.base <= size - bytes
}

// The least BAR whose range holds all bytes, with its number.
fn holding_bar(bars: &[BarPlan], span: Span) -> Option<(usize, BarPlan)>
    ensures bar { result ≡ holding_bar bars.now span }
    ensures holds { IfSome result (λ r. holds_span r.1 span ≡ true) }
{
    for (i, range) in bars.iter().enumerate() {
        if holds_span(range, span) {
            return Some((i, *range));
        }
    }
    None
}

// The BAR by which an interface claims the bytes: none while its memory space is off.
fn claimed_bar(status: &InterfaceStatus, span: Span) -> Option<(usize, BarPlan)>
    ensures bar { result ≡ claimed_bar status.now span }
    ensures holds { IfSome result (λ r. holds_span r.1 span ≡ true) }
{
    if status.memory_space {
        holding_bar(&status.bars, span)
    } else {
        None
    }
}

/// The claim on a memory write over these bytes: that of the least interface with memory space on that has a BAR whose
/// range holds all of them, by the least such BAR; `None` if there is none.
pub fn claim_of<S: Statuses>(statuses: &S, span: Span) -> Option<Claim>
    ensures claim { result ≡ claim_of (S.stand statuses.now) span }
    ensures holds { IfSome result (λ c. holds_span c.range span ≡ true) }
{
    for i in 0..statuses.count() {
        let status = statuses.status(i);
        if let Some((bar, range)) = claimed_bar(&status, span) {
            return Some(Claim {
                interface: i,
                status,
                bar,
                range,
            });
        }
    }
    None
}
