//! Bytes that arrive at a port of one of the links.

ghost use Rattle.std.specs.Prelude.{◌≡◌, ◌<◌, ◌^◌, IfOk, OnErr, length};
ghost use Rattle.join_ends.specs.{EndsUnitsAtMost};
ghost use Rattle.join_arrivals.specs.Accesses.{AccessesStay, Brings};

use event_verdicts::Verdict;
use ide_types::{OutOfMemory, PortName};
use interface_host::Interfaces;
use join_ends::AllEnds;
use link_stores::Accesses;
use trusted_memory::Trusted;

/// The most pages of trusted memory that the writes of a unit go to: it has at most 8 packets, each in one page.
const MOST_PAGES: u8 = 8;

/// Bytes arrive at an end that is at this port of a host or a device; if there is no such end nothing is taken. The
/// pages that a unit may need are taken first, so for want of memory nothing changes.
pub fn bytes_arrive(
    ends: &mut AllEnds,
    manager: &Interfaces,
    trusted: &mut Trusted,
    accesses: &mut Accesses,
    end: PortName,
    port: PortName,
    bytes: &[u8],
) -> Result<Verdict, OutOfMemory>
    requires link { port.line < length ends.old.links }
    requires few { EndsUnitsAtMost (2 ^ 40) ends.old }
    requires many { length accesses.old ≡ length ends.old.links }
    ensures brings { IfOk result (λ v. Brings manager.now end port bytes.now v ends.old trusted.old.contents
        accesses.old ends.new trusted.new.contents accesses.new) }
    ensures ends { OnErr result (ends.new ≡ ends.old) }
    ensures memory { OnErr result (trusted.new.contents ≡ trusted.old.contents) }
    ensures accesses { OnErr result (AccessesStay accesses.old accesses.new) }
{
    trusted.spare(MOST_PAGES)?;
    accesses.at_mut(port.line).spare()?;
    Ok(ends.arrive(end, port, bytes, manager, trusted, accesses))
}
