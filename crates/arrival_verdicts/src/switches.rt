//! Verdicts of arrivals at switches.

ghost use Rattle.std.specs.Prelude.{◌≡◌, ◌++◌};
ghost use Rattle.ide_prefix.specs.Cut.{packet_of_view};
ghost use Rattle.ide_prefix.specs.Packet.{HasTlp};
ghost use Rattle.arrival_verdicts.specs.Verdicts.{arrival_verdict, of_unit};
ghost use Rattle.arrival_verdicts.specs.Switches.{switched_as, switched_each, packet_tlps, tlps_in, unit_waits};
ghost use Rattle.arrival_verdicts.specs.Switches.{queues_after_offer, all_offered};

use crate::verdicts::verdict_with;
use event_verdicts::{Effect, Effects, UnitName, Verdict};
use hop_queues::{HopQueues, MOST_BYTES};
use ide_port::Arrival;
use ide_prefix::PacketView;
use ide_types::{Direction, PortName, SubKind};
use sub_stream::Delivered;

// Queues the TLP of a packet, if there is room for it and it is no longer than a TLP may be.
fn offer(queues: &mut HopQueues, direction: Direction, sub: SubKind, packet: &PacketView)
    ensures { queues.new ≡ queues_after_offer direction (record {
      sub = sub;
      bytes = packet.now.head.now ++ packet.now.body.now;
      t = packet.now.prefix.t;
    }) queues.old }
{
    if queues.has_room(direction) && packet.head.len() + packet.body.len() <= MOST_BYTES {
        queues.push(direction, sub, packet.head, packet.body, packet.prefix.t);
    }
}

// The effect of a packet at a switch, in a sub-stream: a TLP waits there.
fn switched(
    queues: &mut HopQueues,
    direction: Direction,
    sub: SubKind,
    packet: &PacketView,
) -> Effect
    requires { HasTlp (packet_of_view packet.now) packet.now.tlp }
    ensures effect { result ≡ switched_as (packet_of_view packet.now) }
    ensures queues { queues.new ≡ all_offered direction (packet_tlps sub (packet_of_view packet.now)) queues.old }
{
    match packet.tlp {
        None => Effect::Sync,
        Some(_) => {
            offer(queues, direction, sub, packet);
            Effect::Waiting
        }
    }
}

// The effect of each packet of the unit that was accepted at a switch.
fn switch_effects(
    unit: UnitName,
    packets: &Delivered,
    queues: &mut HopQueues,
    direction: Direction,
) -> Effects
    ensures effects { result ≡ switched_each packets.now }
    ensures queues { queues.new ≡ all_offered direction (tlps_in unit.sub packets.now) queues.old }
{
    let mut list = Effects::new();
    for i in 0..packets.count() {
        let packet = packets.packet(i);
        list.push(switched(queues, direction, unit.sub, &packet));
    }
    list
}

// The effects of the unit that an arrival ended at a switch, if it ended one.
fn unit_switched(
    arrival: Arrival,
    packets: &Delivered,
    queues: &mut HopQueues,
    direction: Direction,
) -> Effects
    ensures effects { result ≡ of_unit arrival (λ unit. switched_each packets.now) }
    ensures queues { queues.new ≡ all_offered direction (of_unit arrival (unit_waits packets.now)) queues.old }
{
    match arrival {
        Arrival::Accepted(unit, _) => switch_effects(unit, packets, queues, direction),
        _ => Effects::new(),
    }
}

/// The verdict of an arrival at a switch's end of a hop's segment, which is at this port; `packets` are those of the
/// unit, if one was accepted. Each of its TLPs waits to be forwarded in this direction: it is queued if there is room
/// for it and it is no longer than a TLP may be (this profile).
pub fn switch_verdict(
    end: PortName,
    port: PortName,
    arrival: Arrival,
    packets: &Delivered,
    queues: &mut HopQueues,
    direction: Direction,
) -> Verdict
    ensures verdict { result ≡ arrival_verdict end port arrival (λ unit. switched_each packets.now) }
    ensures queues { queues.new ≡ all_offered direction (of_unit arrival (unit_waits packets.now)) queues.old }
{
    let effects = unit_switched(arrival, packets, queues, direction);
    verdict_with(end, port, arrival, effects)
}
