//! The events that lines of a script spell (this profile).

use crate::{AccessEvent, InterfaceEvent, Loss};
use ide_types::{Bytes, PortName, Side};

/// What is asked of a stream between two devices, by its number in the topology.
#[derive(Clone, Copy, PartialEq, Eq)]
pub enum PeerEvent {
    /// `pestablish P`: the manager gives the stream its keys.
    Establish {
        peer: u64,
        lose: Option<Loss>,
    },
    /// `pstop P`: the manager takes the stream's keys away.
    Stop {
        peer: u64,
        lose: Option<Loss>,
    },
    /// `bind I P`: the manager binds the interface to the stream.
    Bind {
        interface: u64,
        peer: u64,
        lose: Option<Loss>,
    },
    /// `unbind I P`: the manager ends that binding.
    Unbind {
        interface: u64,
        peer: u64,
        lose: Option<Loss>,
    },
}

/// What is asked of the hop of a link. Segment 0 is towards the host, segment 1 towards the device.
#[derive(Clone, Copy, PartialEq, Eq)]
pub enum HopEvent {
    /// `hestablish LINK SEG`: the manager gives the hop's stream its keys on this segment.
    Establish {
        link: u64,
        segment: u64,
        lose: Option<Loss>,
    },
    /// `hstop LINK SEG`: the manager takes those keys away.
    Stop {
        link: u64,
        segment: u64,
        lose: Option<Loss>,
    },
    /// `forward LINK DIR`: the switch sends on the first TLP that waits in this direction, 0 towards the device.
    Forward {
        link: u64,
        direction: u64,
    },
}

/// What a line of a script asks for. Links, streams, interfaces and packets need not exist: a packet is
/// named by the number that it was sealed under, from 1.
#[derive(Drop)]
pub enum ScriptEvent {
    /// `establish LINK STREAM`: the manager gives the stream its first keys.
    Establish {
        link: u64,
        stream: u64,
        lose: Option<Loss>,
    },
    /// `refresh LINK STREAM`: the manager gives the stream the keys of the other set.
    Refresh {
        link: u64,
        stream: u64,
        lose: Option<Loss>,
    },
    /// `stop LINK STREAM`: the manager takes the stream's keys away.
    Stop {
        link: u64,
        stream: u64,
        lose: Option<Loss>,
    },
    /// `send PORT HEX`: the port, a host's or a device's, sends the TLP of these bytes; `more` lets its unit go on if
    /// it has room, `trusted` asks a host's port to set T.
    Send {
        port: PortName,
        bytes: Bytes,
        more: bool,
        trusted: bool,
    },
    /// `psend P a HEX` or `psend P b HEX`: the device of the first or the second link of a stream between devices sends
    /// the TLP of these bytes on it; `more` lets its unit go on if it has room.
    PeerSend {
        peer: u64,
        side: Side,
        bytes: Bytes,
        more: bool,
    },
    /// `pass N`: the packet arrives unchanged.
    Pass {
        packet: u64,
    },
    /// `alter N AT HH`: the packet arrives with its byte `at`, from 0, combined by exclusive or with `mask`.
    Alter {
        packet: u64,
        at: u64,
        mask: u8,
    },
    /// `cut N LEN`: the first `length` bytes of the packet arrive.
    Cut {
        packet: u64,
        length: u64,
    },
    /// `arrive PORT HEX`: bytes of anyone's making arrive at the port, which may be one of a switch.
    Arrive {
        port: PortName,
        bytes: Bytes,
    },
    /// `dump N`: shows the packet's bytes.
    Dump {
        packet: u64,
    },
    /// `reset LINK`: all ends at the ports of the link and of its switch lose all keys, units, counts and failures, the
    /// manager's operations there are dropped, and its device's interfaces are unlocked.
    Reset {
        link: u64,
    },
    /// `status LINK STREAM`: shows the states of the stream at both ports.
    Status {
        link: u64,
        stream: u64,
    },
    /// What concerns a device interface or trusted memory.
    Interface {
        event: InterfaceEvent,
    },
    /// What concerns a trusted read that waits, or a device's guarded memory.
    Access {
        event: AccessEvent,
    },
    /// What concerns a stream between two devices.
    Peer {
        event: PeerEvent,
    },
    /// What concerns the hop of a link.
    Hop {
        event: HopEvent,
    },
}
