//! The verdict of each event of a script (this profile).

use crate::{AccessVerdict, Effects, SealedPackets};
use ide_types::{
    Bytes, FailCause, FaultWord, InterfaceVerdict, LineKind, PortName, StreamStatus, SubKind,
};

/// A sealed packet: its number over the run, from 1, the end that sealed it, and what its prefix says: `posted` is the
/// posted count, `sync` marks a sync packet (PCI Express Base 6.0 section 6.33).
#[derive(Clone, Copy, Default, PartialEq, Eq)]
pub struct SealedPacket {
    pub number: u64,
    pub port: PortName,
    pub stream: u8,
    pub sub: SubKind,
    pub draw: u32,
    /// The unit's counter under its draw, from 1.
    pub unit: u64,
    /// Whether it is its unit's last packet, which carries the tag.
    pub m: bool,
    /// The key set: 1 if true.
    pub k: bool,
    /// Whether it is trusted.
    pub t: bool,
    pub posted: u8,
    pub sync: bool,
}

/// A unit: its stream and sub-stream, the draw of its key, and its counter under that draw, from 1 (PCI Express Base
/// 6.0 section 6.33).
#[derive(Clone, Copy, PartialEq, Eq)]
pub struct UnitName {
    pub stream: u8,
    pub sub: SubKind,
    pub draw: u32,
    pub unit: u64,
}

/// Why a memory request was blocked. Of a write or a trusted read at a host's port it is the first that holds: it is
/// not trusted; its requester is no running interface; it came on another stream than that interface's own; its key is
/// from before the interface started; its bytes are not in one region of the trusted memory; they cross a 4 KiB
/// boundary; 64 reads wait. Of a write to a BAR of an interface it is the first of `Crosses`, `NotTrusted`,
/// `NotRunning`, `WrongStream` and `Stale` that holds, of that interface; of a read of such a BAR at a device that
/// answers them these, and then `Full`. `Moved`, of a read that is dropped alone: that interface and BAR claim its
/// bytes no more.
#[derive(Clone, Copy, PartialEq, Eq)]
pub enum BlockCause {
    NotTrusted,
    NotRunning,
    WrongStream,
    Stale,
    Outside,
    Crosses,
    Full,
    Moved,
}

/// The effect of a packet of an accepted unit: `Sync` of a sync packet, `Applied` or `Blocked` of a memory write at a
/// host's port, `Queued` or `Blocked` of a trusted read there, `Stored` or `Blocked` of a memory write to a BAR at a
/// device's port, `Waiting` of any TLP at a switch, `Delivered` of any other TLP.
#[derive(Clone, Copy, Default, PartialEq, Eq)]
pub enum Effect {
    #[default]
    Sync,
    Delivered,
    Applied,
    Queued,
    Stored,
    Waiting,
    Blocked(BlockCause),
}

/// The manager's operations on a stream.
#[derive(Clone, Copy, PartialEq, Eq)]
pub enum Operation {
    Establish,
    Refresh,
    Stop,
}

/// The verdict of an event. `place` is the first byte, from 0, at which no spelling goes on. A link is
/// named by the number of its line, and so is a stream between two devices or of a hop; `port` is the end of a line,
/// and of `Malformed`, `Plain`, `Unknown` and `Through` a port's name.
#[derive(Drop)]
pub enum Verdict {
    /// The event names what does not exist.
    Nothing,
    /// The bytes that were sent or that arrived are no TLP or packet.
    Malformed {
        port: PortName,
        fault: FaultWord,
        place: usize,
    },
    /// A TLP that no stream takes, or bytes that are no packet of a stream.
    Plain {
        port: PortName,
    },
    /// Not sealed: the stream is insecure.
    RefusedInsecure,
    /// Not sealed: no Live key of the sub-stream.
    RefusedNoKey {
        sub: SubKind,
    },
    /// Not sealed: the posted unit is unfinished.
    RefusedUnfinished,
    /// Not sealed: the key has sealed as many units as it may.
    RefusedWorn {
        sub: SubKind,
        units: u64,
    },
    /// Sealed: the sync packets that went first, and the TLP's packet.
    Sealed {
        packets: SealedPackets,
    },
    /// The port has no such stream.
    Unknown {
        port: PortName,
        stream: u8,
    },
    /// The stream is insecure at the port.
    Insecure {
        port: PortName,
        stream: u8,
    },
    /// The sub-stream has no Live key at the port.
    NotKeyed {
        port: PortName,
        stream: u8,
        sub: SubKind,
    },
    /// A check failed, and the stream is insecure at the port from now on.
    Fail {
        port: PortName,
        stream: u8,
        sub: SubKind,
        cause: FailCause,
    },
    /// A packet of a unit that goes on.
    Held {
        port: PortName,
        unit: UnitName,
    },
    /// The unit's tag verified; one effect for each of its packets, in order.
    Accepted {
        port: PortName,
        unit: UnitName,
        effects: Effects,
    },
    /// The stream has the keys of the draw, its first.
    Established {
        line: u8,
        stream: u8,
        draw: u32,
    },
    /// The stream has the keys of the draw besides or in place of the older ones.
    Refreshed {
        line: u8,
        stream: u8,
        draw: u32,
    },
    /// The stream has no keys.
    Stopped {
        line: u8,
        stream: u8,
    },
    /// The request of this exchange was lost: an operation on a stream stays there, one on an interface is over.
    LostRequest {
        exchange: u32,
    },
    /// The reply of this exchange was lost: an operation on a stream stays there, one on an interface is over.
    LostReply {
        exchange: u32,
    },
    /// Of an establish: the stream has keys.
    RefusedNotIdle,
    /// Of a refresh, and of a lock or a start of an interface: the stream is not Secure at the host's port, but in this
    /// state.
    RefusedNotSecure {
        status: StreamStatus,
    },
    /// All draws of the pool were made: this many.
    RefusedPoolEmpty {
        draws: u32,
    },
    /// The device refused this exchange with the code: an operation on a stream stays there, one on an interface is
    /// over.
    RefusedDevice {
        exchange: u32,
        code: u32,
    },
    /// Another operation on the stream is unfinished, whose line is of this kind.
    RefusedBusy {
        kind: LineKind,
        operation: Operation,
    },
    /// Of a refresh: the key set that is to be given still seals an unfinished unit of the sub-stream at the host's
    /// port.
    RefusedUnitOpen {
        sub: SubKind,
    },
    /// The bytes of a sealed packet.
    Packet {
        packet: u64,
        bytes: Bytes,
    },
    /// The link was reset.
    Reset {
        link: u8,
    },
    /// The states of a stream at the host's port and at the device's.
    Status {
        line: u8,
        stream: u8,
        host: StreamStatus,
        device: StreamStatus,
    },
    /// The verdict of an event on a device interface or on trusted memory.
    Interface {
        verdict: InterfaceVerdict,
    },
    /// The verdict of an event on a trusted read or on a device's guarded memory.
    Access {
        verdict: AccessVerdict,
    },
    /// Bytes of another stream than the hop's arrived at a port of a switch, and are left unread.
    Through {
        port: PortName,
    },
}

/// The counts of a run: packets sealed, packets of accepted units, checks that failed, and blocked effects.
#[derive(Clone, Copy, PartialEq, Eq)]
pub struct Totals {
    pub sealed: u64,
    pub accepted: u64,
    pub failed: u64,
    pub blocked: u64,
}
