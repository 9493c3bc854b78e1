//! The events of a history (this profile).

use crate::Ends;
use ide_types::{Bytes, Direction, PortName, Register};

/// What is lost of an exchange: its request, or its reply.
#[derive(Clone, Copy, PartialEq, Eq)]
pub enum Lost {
    Request,
    Reply,
}

/// The exchange that is lost if the event gets that far, by its number from 1, and which message of it.
#[derive(Clone, Copy, PartialEq, Eq)]
pub struct Loss {
    pub exchange: u64,
    pub lost: Lost,
}

/// What is asked of a device interface, by its number over all links, or of trusted memory.
#[derive(Drop)]
pub enum InterfaceEvent {
    /// The manager locks the interface.
    Lock {
        interface: u64,
        lose: Option<Loss>,
    },
    /// The manager reads the interface's report.
    Report {
        interface: u64,
        lose: Option<Loss>,
    },
    /// The manager starts the interface.
    Start {
        interface: u64,
        lose: Option<Loss>,
    },
    /// The manager halts the interface.
    Halt {
        interface: u64,
        lose: Option<Loss>,
    },
    /// The manager asks for the interface's state.
    State {
        interface: u64,
        lose: Option<Loss>,
    },
    /// The manager binds the interface to a stream between two devices, by the number of its line and its stream ID.
    Bind {
        interface: u64,
        line: u64,
        stream: u64,
        lose: Option<Loss>,
    },
    /// The manager ends that binding.
    Unbind {
        interface: u64,
        line: u64,
        stream: u64,
        lose: Option<Loss>,
    },
    /// Shows the manager's view of the interface.
    View {
        interface: u64,
    },
    /// A register of the interface is written.
    Write {
        interface: u64,
        register: Register,
        value: u64,
    },
    /// A function level reset of the interface.
    Flr {
        interface: u64,
    },
    /// A firmware update of the interface.
    Firmware {
        interface: u64,
    },
    /// Shows bytes of trusted memory from an address on.
    Memory {
        address: u64,
        length: u64,
    },
}

/// A read that a host or a device answers, or bytes of a device's guarded memory that are shown.
#[derive(Drop)]
pub enum AccessEvent {
    /// `answer LINK`: the host answers the oldest trusted read of the link that waits.
    Answer {
        link: u64,
    },
    /// `respond LINK`: the device of the link answers the oldest read that waits at its port.
    Respond {
        link: u64,
    },
    /// `mmio INTERFACE BAR OFFSET LEN`: shows bytes of the range of a BAR of an interface, 1 to 256 of them from the
    /// offset on.
    Mmio {
        interface: u64,
        bar: u64,
        offset: u64,
        length: u64,
    },
}

/// What happens, of what the topology has. A link is named by the number of its line, and so is a stream
/// between two devices or of a hop; a port is the end of a line. Streams and packets need not exist: a packet is named
/// by the number that it was sealed under, from 1.
#[derive(Drop)]
pub enum Event {
    /// The manager gives the stream of a line its first keys.
    Establish {
        line: u64,
        stream: u64,
        lose: Option<Loss>,
    },
    /// The manager gives the stream the keys of the other set.
    Refresh {
        line: u64,
        stream: u64,
        lose: Option<Loss>,
    },
    /// The manager takes the stream's keys away.
    Stop {
        line: u64,
        stream: u64,
        lose: Option<Loss>,
    },
    /// The end sends the TLP of these bytes; `more` lets its unit go on if it has room, `trusted` asks a host's port to
    /// set T.
    Send {
        port: PortName,
        bytes: Bytes,
        more: bool,
        trusted: bool,
    },
    /// The packet arrives unchanged.
    Pass {
        packet: u64,
    },
    /// The packet arrives with its byte `at`, from 0, combined by exclusive or with `mask`.
    Alter {
        packet: u64,
        at: u64,
        mask: u8,
    },
    /// The first `length` bytes of the packet arrive.
    Cut {
        packet: u64,
        length: u64,
    },
    /// Bytes of anyone's making arrive at the port: at a host's or a device's, or at one of a switch.
    Arrive {
        port: PortName,
        bytes: Bytes,
    },
    /// Shows the packet's bytes.
    Dump {
        packet: u64,
    },
    /// These ends lose all keys, units, counts and failures: of the link, of its hop, and of streams between its device
    /// and others. The manager's operations on streams of the link and its hop are dropped, those between devices are
    /// to be stopped, and the interfaces of the link's device are unlocked.
    Reset {
        link: u64,
        ends: Ends,
    },
    /// Shows the states of the stream at both ports.
    Status {
        line: u64,
        stream: u64,
    },
    /// What concerns a device interface or trusted memory.
    Interface {
        event: InterfaceEvent,
    },
    /// What concerns a trusted read that waits, or a device's guarded memory.
    Access {
        event: AccessEvent,
    },
    /// The switch of the link seals the first TLP that waits there in this direction on the other segment.
    Forward {
        link: u64,
        direction: Direction,
    },
    /// What the topology does not have was asked for.
    Absent,
}
