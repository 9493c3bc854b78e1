//! What is shown of the memory behind a BAR.

ghost use Rattle.std.specs.Prelude.{◌≡◌, ◌+◌, ◌-◌, ◌*◌, ◌<◌, ◌^◌, ◌&&◌, nat_le, true};
ghost use Rattle.guarded_memory.specs.Claims.{holds_bytes};
ghost use Rattle.guarded_memory.specs.Contents.{mmio_byte};
ghost use Rattle.guarded_memory.specs.DeviceReads.{claimed_byte};

use crate::{Claim, Guarded};
use trusted_memory::ShownMemory;

/// The memory behind the BAR that claims a request, by the addresses of its range (this profile).
#[derive(Clone, Copy)]
pub struct ClaimedMemory<'a> {
    pub memory: &'a Guarded,
    pub claim: &'a Claim,
}

// The offset of an address in a range from this base on, of so many pages, which has `count` bytes from there on.
fn offset_in(base: u64, pages: u32, at: u64, count: usize) -> u64
    requires { (nat_le base at && nat_le (at + count) (base + 4096 * pages)) ≡ true }
    ensures offset { result ≡ at - base }
    ensures within { result + count < 2 ^ 64 }
{
    let _ = pages;
    at - base
}

/// It shows the bytes of the range.
impl ShownMemory for ClaimedMemory<'_> {
    ghost byte = { λ c. claimed_byte (mmio_byte c.memory.now) c.claim.now };

    ghost shows = { λ c at n. holds_bytes c.claim.now.range at n };

    fn show(&self, at: u64, buf: &mut [u8]) {
        let claim = self.claim;
        let offset = offset_in(claim.range.base, claim.range.pages, at, buf.len());
        self.memory.copy(claim.interface, claim.bar, offset, buf);
    }
}
