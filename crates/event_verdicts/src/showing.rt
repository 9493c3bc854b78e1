//! Verdicts as they are shown.

ghost use Rattle.std.specs.Prelude.{◌≡◌, ◌≤◌, length, map};
ghost use Rattle.event_verdicts.specs.Shown.{verdict_by_ports as shown_of, shown_packet};

use crate::{SealedPacket, SealedPackets, Verdict};
use ide_types::{PeerPlan, port_at};

fn packet(peers: &[PeerPlan], packet: SealedPacket) -> SealedPacket
    ensures { result ≡ shown_packet peers.now packet }
{
    SealedPacket {
        port: port_at(peers, packet.port),
        ..packet
    }
}

fn packets(peers: &[PeerPlan], sealed: &[SealedPacket]) -> SealedPackets
    requires { length sealed.now ≤ 3 }
    ensures { result ≡ map (shown_packet peers.now) sealed.now }
{
    let mut all = SealedPackets::new();
    for sealed in sealed {
        all.push(packet(peers, *sealed));
    }
    all
}

fn shown_sealed(peers: &[PeerPlan], sealed: &SealedPackets) -> SealedPackets
    ensures { result ≡ map (shown_packet peers.now) sealed.now }
{
    let _few = sealed.len();
    packets(peers, sealed.as_slice())
}

/// The verdict with ports in place of ends, as its line has them; the streams between devices are these.
pub fn shown(peers: &[PeerPlan], verdict: Verdict) -> Verdict
    ensures { result ≡ shown_of peers.now verdict }
{
    match verdict {
        Verdict::Sealed { packets: sealed } => Verdict::Sealed {
            packets: shown_sealed(peers, &sealed),
        },
        Verdict::Insecure { port, stream } => Verdict::Insecure {
            port: port_at(peers, port),
            stream,
        },
        Verdict::NotKeyed { port, stream, sub } => Verdict::NotKeyed {
            port: port_at(peers, port),
            stream,
            sub,
        },
        Verdict::Fail {
            port,
            stream,
            sub,
            cause,
        } => Verdict::Fail {
            port: port_at(peers, port),
            stream,
            sub,
            cause,
        },
        Verdict::Held { port, unit } => Verdict::Held {
            port: port_at(peers, port),
            unit,
        },
        Verdict::Accepted {
            port,
            unit,
            effects,
        } => Verdict::Accepted {
            port: port_at(peers, port),
            unit,
            effects,
        },
        other => other,
    }
}
