//! Facts of packets that arrive.

ghost use Rattle.std.specs.Prelude.{◌≡◌, ◌<◌, ◌++◌, IfOk, bit_xor, length, slice_index, slice_set};
ghost use Rattle.ide_prefix.specs.Cut.{packet_of_view};
ghost use Rattle.why_facts.specs.Forms.{adds_facts, arrives_fact, packet_fact};

use ide_prefix::PacketView;
use ide_types::{OutOfMemory, PortName, SubKind, ValidPlan};
use line_routes::port_of;
use std::alloc::Global;
use told_facts::{Fact, InterfaceFact, StreamFact, push};

/// The fact of a packet at a place of its unit.
pub fn packet_fact(place: u64, t: bool) -> Fact
    ensures { result ≡ packet_fact place t }
{
    Fact::Interface {
        fact: InterfaceFact::Packet { place, t },
    }
}

/// The fact of a packet that arrives at an end.
pub fn arrives_fact(plan: &ValidPlan, end: PortName, packet: &PacketView) -> Fact
    ensures { result ≡ arrives_fact plan.now end (packet_of_view packet.now) }
{
    Fact::Stream {
        fact: StreamFact::Arrives {
            port: port_of(plan, end),
            stream: packet.prefix.stream,
            sub: packet.prefix.sub,
            k: packet.prefix.k,
        },
    }
}

/// Appends the sum of a unit's posted counts, if its sub-stream has any.
pub fn push_adds(facts: &mut Vec<Fact>, sub: SubKind, posted: u64) -> Result<(), OutOfMemory>
    ensures { IfOk result (λ _. facts.new.items ≡ facts.old.items ++ adds_facts sub posted) }
{
    match sub {
        SubKind::Pr => Ok(()),
        SubKind::Npr | SubKind::Cpl => push(
            facts,
            Fact::Stream {
                fact: StreamFact::Adds { posted },
            },
        ),
    }
}

/// A copy of the bytes, with the one at `at` combined with `mask`.
pub fn altered(alloc: Global, bytes: &[u8], at: usize, mask: u8) -> Result<Vec<u8>, OutOfMemory>
    requires { at < length bytes.now }
    ensures { IfOk result (λ copy. copy.items ≡ slice_set bytes.now at (bit_xor (slice_index bytes.now at) mask)) }
{
    let mut copy = Vec::from_slice(alloc, bytes)?;
    copy[at] ^= mask;
    Ok(copy)
}
