//! Facts of the state before an event (this profile). Each has one line.

ghost use Rattle.std.specs.Prelude.{◌≡◌, ◌∷◌, ◌++◌, [], IfOk};

use ide_types::{Bytes, OutOfMemory, PortName, StreamStatus, SubKind, View};

/// What a key set of a sub-stream holds at a port (PCI Express Base 6.0 section 6.33).
#[derive(Clone, Copy, PartialEq, Eq)]
pub enum SetState {
    /// `none`: no key.
    Empty,
    /// `kept draw J`: a key without its GO.
    Kept { draw: u32 },
    /// `waits draw J`: a sender's key that waits for the end of a unit under the older one.
    Waits { draw: u32 },
    /// `on draw J unit U packets P`: a Live key, under which so many units are finished. U is the unit that comes next,
    /// from 1, of which P packets are there.
    On { draw: u32, units: u64, packets: u64 },
}

/// What the manager knows of a stream; `next` is the exchange that an unfinished operation goes on with, from 1.
#[derive(Clone, Copy, PartialEq, Eq)]
pub enum ManagerState {
    /// `idle`: it has no keys.
    Idle,
    /// `establishing draw J next N`
    Establishing { draw: u32, next: u64 },
    /// `up set K draw J`
    Up { set: bool, draw: u32 },
    /// `refreshing set K draw J next N`
    Refreshing { set: bool, draw: u32, next: u64 },
    /// `stopping next N`
    Stopping { next: u64 },
}

/// A fact of packets, or of a stream at a port (PCI Express Base 6.0 section 6.33).
#[derive(Clone, Copy, PartialEq, Eq)]
pub enum StreamFact {
    /// `at PORT`: the port at which bytes are sent or arrive.
    At {
        port: PortName,
    },
    /// `packets N`: so many packets were sealed.
    Packets {
        packets: u64,
    },
    /// `arrives PORT STREAM SUB kK`: a packet arrives there under key set K.
    Arrives {
        port: PortName,
        stream: u8,
        sub: SubKind,
        k: bool,
    },
    /// `sends PORT STREAM SUB`: a TLP goes out there.
    Sends {
        port: PortName,
        stream: u8,
        sub: SubKind,
    },
    /// `stream STATUS`: the stream's state at the port.
    State {
        status: StreamStatus,
    },
    /// `posted SUB P`: the posted count of the next packet that the port seals in the sub-stream. What its key sets
    /// hold follows.
    Posted {
        sub: SubKind,
        posted: u64,
    },
    /// `set K ..`: what a key set holds.
    Set {
        set: bool,
        state: SetState,
    },
    /// `counts S of G`: the posted counts of the sub-stream's accepted packets have the sum S, and G posted packets
    /// were accepted.
    Counts {
        sum: u64,
        posted: u64,
    },
    /// `adds P`: the posted counts of the unit so far, with the packet that arrives, have the sum P.
    Adds {
        posted: u64,
    },
    /// `total T`: so many units were finished there on a closed stream, under all draws since the last establish.
    Total {
        units: u64,
    },
}

/// A fact of an operation on a stream.
#[derive(Clone, Copy, PartialEq, Eq)]
pub enum OperationFact {
    /// `manager ..`: what the manager knows of the stream.
    Manager {
        state: ManagerState,
    },
    /// `draws M of D`: so many of the pool's draws were made.
    Draws {
        made: u64,
        pool: u64,
    },
    /// `exchanges F to L`: those that are left to the operation.
    Exchanges {
        first: u64,
        last: u64,
    },
    /// `refuses N PORT sends SUB`, or `receives`: the first of them that an end refuses, and the place that does.
    Refuses {
        exchange: u64,
        port: PortName,
        sends: bool,
        sub: SubKind,
    },
    /// `open SUB`: the host's sender of the sub-stream is in use in the key set that a refresh would program.
    Open {
        sub: SubKind,
    },
    /// `clears PORT STREAM STATUS`: a reset clears the stream at the port, where it has this state. What the manager
    /// knows of it follows.
    Clears {
        port: PortName,
        stream: u8,
        status: StreamStatus,
    },
}

/// A fact of a device interface, of the manager's view of it, or of what waits (PCI Express Base 6.0 chapter 11).
/// Interfaces are numbered from 0 over all links.
#[derive(Clone, Copy, PartialEq, Eq)]
pub enum InterfaceFact {
    /// `interface I state N`: an interface, and its state at its device: 0 unlocked, 1 locked, 2 run, 3 error.
    Interface {
        interface: u8,
        state: u8,
    },
    /// `view VIEW`: the manager's view of it.
    View {
        view: View,
    },
    /// `reported B`: 1 if its report was read since it was locked.
    Reported {
        reported: bool,
    },
    /// `started B`: 1 if its start was asked since it was last asked to be locked.
    Started {
        started: bool,
    },
    /// `bound STREAM floor J`: while the view is Running, the stream that it is bound to, and the draw of its start.
    Bound {
        stream: u8,
        floor: u32,
    },
    /// `needs J`: the least draw that it may be started under.
    Needs {
        needs: u32,
    },
    /// `draw J`: the draw of the stream that it is bound to.
    Draw {
        draw: u32,
    },
    /// `packet I tT`: packet I of the unit, from 1, and its T. What it asks of follows.
    Packet {
        place: u64,
        t: bool,
    },
    /// `bytes A N`: N bytes of memory are asked for, from address A on.
    Bytes {
        address: u64,
        count: u64,
    },
    /// `region A N`: the region of trusted memory that has all of them: N bytes, from address A on.
    Region {
        base: u64,
        size: u64,
    },
    /// `bar B base A pages P open O`: the BAR that has all of them, with its base as it stands; 1 if it is open to
    /// requests without T.
    Bar {
        bar: u64,
        base: u64,
        pages: u32,
        is_open: bool,
    },
    /// `takes STREAM floor J`: the device takes trusted requests to the interface on the stream, under draws from J on.
    Takes {
        stream: u8,
        floor: u32,
    },
    /// `live J`: the stream between devices is Secure at the interface's device, where posted requests come under J.
    Live {
        draw: u32,
    },
    /// `waiting N`: so many reads wait at a port of the link, or TLPs at its switch.
    Waiting {
        waiting: u64,
    },
    /// `read draw J`: the oldest read that waits came under this draw.
    Read {
        draw: u32,
    },
    /// `asks I bar B tT`: the interface and the BAR that claimed the oldest read that waits at a device when it was
    /// queued, and its T.
    Asks {
        interface: u8,
        bar: u64,
        t: bool,
    },
}

/// The reply to a request, as it is known before its event.
#[derive(Drop)]
pub enum Answer {
    /// These bytes, or these if the end that is asked refuses.
    Known { done: Bytes, refused: Bytes },
    /// That of an interface which the verdict shows; `function` is the function ID of the request.
    Shown { function: u32 },
}

/// A fact of the state before an event.
#[derive(Drop)]
pub enum Fact {
    Stream {
        fact: StreamFact,
    },
    Operation {
        fact: OperationFact,
    },
    Interface {
        fact: InterfaceFact,
    },
    /// `exchange N request HEX`, `exchange N reply HEX`, `exchange N lost request` or `exchange N lost reply`: an
    /// exchange that is left to an operation, by its number from 1. The verdict says how far it came, and an exchange
    /// that did not come is not told. No bytes stand for a request that is not known.
    Exchange {
        exchange: u64,
        request: Bytes,
        answer: Answer,
    },
}

/// Appends a fact.
pub fn push(facts: &mut Vec<Fact>, fact: Fact) -> Result<(), OutOfMemory>
    ensures { IfOk result (λ _. facts.new.items ≡ facts.old.items ++ fact ∷ []) }
{
    facts.push(fact)?;
    Ok(())
}
