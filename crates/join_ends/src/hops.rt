//! TLPs that wait at switches, at a reset.

ghost use Rattle.std.specs.Prelude.{◌≡◌, ◌≤◌, length};
ghost use Rattle.join_ends.specs.Turns.{AccessesTurn, hops_cleared, nothing_happens, same_floors, same_reads};

use ide_types::PortName;
use line_routes::clears_hop;
use link_stores::Accesses;

/// Drops the TLPs that wait at the switches of the first links, so many, whose hops these ends cut (this profile).
pub fn clear_hops(accesses: &mut Accesses, ends: &[PortName], count: usize)
    requires here { count ≤ length accesses.old }
    requires few { count ≤ 8 }
    ensures { AccessesTurn same_reads same_floors nothing_happens (hops_cleared ends.now count) accesses.old
        accesses.new }
{
    for link in 0..count {
        let link = link as u8;
        if clears_hop(ends, link) {
            accesses.at_mut(link).clear_hop();
        }
    }
}
