//! Where arriving bytes land (this profile).

ghost use Rattle.std.specs.Prelude.{◌≡◌, ◌<◌, ◌≤◌, ◌^◌, IfOk, IsSome, OnErr, Some, length};
ghost use Rattle.spec_links.specs.Ports.{port_of as port_of_end};
ghost use Rattle.join_arrivals.specs.{port_on, EndsUnitsAtMost, way_of};
ghost use Rattle.join_arrivals.specs.Accesses.{AccessesStay, Brings};
ghost use Rattle.line_arrivals.specs.Landing.{ComesTo, Lands};

use event_verdicts::Verdict;
use ide_types::{Direction, OutOfMemory, PortName, Side, ValidPlan};
use interface_host::Interfaces;
use join_arrivals::{AllEnds, bytes_arrive};
use line_routes::{goes_through, port_of, reached};
use link_stores::Accesses;
use std::alloc::Global;
use trusted_memory::Trusted;

/// Bytes that arrive at the port of an end, and what their verdict depends on beside the ends.
#[derive(Clone, Copy)]
pub struct Arriving<'a> {
    /// The topology.
    pub plan: &'a ValidPlan,
    /// What the manager says of interfaces.
    pub manager: &'a Interfaces,
    /// An end that is at the port.
    pub end: PortName,
    /// The bytes.
    pub bytes: &'a [u8],
}

// The link, and the direction of TLPs that come to this end, if it is at a switch.
fn way(end: PortName) -> Option<(u8, Direction)>
    ensures { result ≡ way_of end }
{
    match end.side {
        Side::Device if 8 <= end.line && end.line < 16 => {
            Some((end.line - 8, Direction::Downstream))
        }
        Side::Host if 16 <= end.line && end.line < 24 => Some((end.line - 16, Direction::Upstream)),
        _ => None,
    }
}

// At an end at the switch of this link's hop. The room for a TLP is taken first.
fn wait_at(
    alloc: Global,
    arriving: &Arriving,
    end: PortName,
    way: (u8, Direction),
    ends: &mut AllEnds,
    accesses: &mut Accesses,
) -> Result<Verdict, OutOfMemory>
    requires here { IsSome (port_on ends.old end) }
    requires few { EndsUnitsAtMost (2 ^ 40) ends.old }
    requires link { way.0 < length accesses.old }
    ensures comes { IfOk result (λ v. ComesTo ends.old end arriving.now.bytes.now way.0 way.1 v accesses.old ends.new
        accesses.new) }
    ensures ends { OnErr result (ends.new ≡ ends.old) }
    ensures accesses { OnErr result (AccessesStay accesses.old accesses.new) }
{
    let access = accesses.at_mut(way.0);
    access.room(alloc)?;
    Ok(ends.arrive_at_switch(end, arriving.bytes, &mut access.carried, way.1))
}

/// Bytes arrive at the port of an end: they meet the end of the line there that has their stream, or the port itself if
/// none has it; at a switch what is of another stream than the hop's goes through unread. The memory for what they may
/// write, and for a TLP that waits at a switch, is taken first, so for want of memory nothing changes (PCI Express Base
/// 6.0 section 6.33).
pub fn land(
    alloc: Global,
    arriving: &Arriving,
    ends: &mut AllEnds,
    trusted: &mut Trusted,
    accesses: &mut Accesses,
) -> Result<Verdict, OutOfMemory>
    requires few { EndsUnitsAtMost (2 ^ 40) ends.old }
    requires many { length accesses.old ≡ length ends.old.links }
    ensures lands { IfOk result (λ v. Lands arriving.now.plan.now arriving.now.manager.now arriving.now.end
        arriving.now.bytes.now v ends.old trusted.old.contents accesses.old ends.new trusted.new.contents
        accesses.new) }
    ensures ends { OnErr result (ends.new ≡ ends.old) }
    ensures memory { OnErr result (trusted.new.contents ≡ trusted.old.contents) }
    ensures accesses { OnErr result (AccessesStay accesses.old accesses.new) }
{
    let Arriving {
        plan,
        manager,
        end,
        bytes,
    } = *arriving;
    let end = reached(plan, end, bytes);
    let port = port_of(plan, end);
    if goes_through(plan, end, bytes) {
        return Ok(Verdict::Through { port });
    }
    match way(end) {
        Some(way) => {
            if !ends.has_end(end) {
                return Ok(Verdict::Nothing);
            }
            if way.0 as usize >= ends.count() {
                return Ok(Verdict::Nothing);
            }
            wait_at(alloc, arriving, end, way, ends, accesses)
        }
        None => {
            if port.line as usize >= ends.count() {
                return Ok(Verdict::Nothing);
            }
            bytes_arrive(ends, manager, trusted, accesses, end, port, bytes)
        }
    }
}
