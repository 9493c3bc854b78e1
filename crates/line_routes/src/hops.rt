//! Hops of links (this profile).

ghost use Rattle.std.specs.Prelude.{◌≡◌, ◌<◌};
ghost use Rattle.spec_links.specs.Hops.{has_hop as has_hop_in, leaving_end as leaving_end_of};
ghost use Rattle.spec_links.specs.Hops.{clears_hop as clears_hop_of};

use ide_types::{Direction, PortName, Side, ValidPlan, has_end_of_line};

/// Whether a link has a hop.
pub fn has_hop(plan: &ValidPlan, link: u64) -> bool
    ensures { result ≡ has_hop_in plan.now link }
{
    link < 8 && plan.plan().hop(link).is_some()
}

/// The end at the switch at which TLPs of a direction are sealed again (PCI Express Base 6.0 section 6.33).
pub fn leaving_end(link: u8, direction: Direction) -> PortName
    requires { link < 8 }
    ensures { result ≡ leaving_end_of link direction }
{
    match direction {
        Direction::Downstream => PortName {
            side: Side::Host,
            line: 16 + link,
        },
        Direction::Upstream => PortName {
            side: Side::Device,
            line: 8 + link,
        },
    }
}

/// Whether these ends that a reset clears are of both segments of the link's hop.
pub fn clears_hop(ends: &[PortName], link: u8) -> bool
    requires { link < 8 }
    ensures { result ≡ clears_hop_of ends.now link }
{
    has_end_of_line(ends, 8 + link) && has_end_of_line(ends, 16 + link)
}
