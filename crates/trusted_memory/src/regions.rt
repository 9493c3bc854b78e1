//! Which bytes regions hold.

ghost use Rattle.std.specs.Prelude.{◌≡◌};
ghost use Rattle.trusted_memory.specs.Regions.{is_inside, in_region, holds_all, in_one_region};

use ide_types::Region;

fn is_inside(region: &Region, at: u64) -> bool
    ensures { result ≡ is_inside region.now at }
{
    region.base <= at && at - region.base < region.size
}

/// Whether a region has the byte at the address.
pub fn in_region(regions: &[Region], at: u64) -> bool
    ensures { result ≡ in_region regions.now at }
{
    regions.iter().any(|region| is_inside(region, at))
}

fn holds_all(region: &Region, at: u64, n: usize) -> bool
    ensures { result ≡ holds_all region.now at n }
{
    is_inside(region, at) && n as u64 <= region.size - (at - region.base)
}

/// Whether one region has the byte at the address and all `n` bytes from there on.
pub fn in_one_region(regions: &[Region], at: u64, n: usize) -> bool
    ensures { result ≡ in_one_region regions.now at n }
{
    regions.iter().any(|region| holds_all(region, at, n))
}
