//! The manager of all lines.

ghost use Rattle.std.specs.Prelude.{◌≡◌, ℕ, ◌+◌, ◌++◌, ◌≤◌, ◌<◌, IsSome, IfSome, IfOk, is_some, Some, [], length, map};
ghost use Rattle.std.specs.Prelude.{slice_get, vec_len, vec_capacity};
ghost use Rattle.key_messages.specs.{object_spelling};
ghost use Rattle.spec_keys.specs.Operations.{work_of};
ghost use Rattle.std.specs.Option.{option_map};
ghost use Rattle.key_host.specs.Facts.{op_seen};
ghost use Rattle.key_host.specs.Local.{CallsMove};
ghost use Rattle.key_host.specs.Operations.{op_name};
ghost use Rattle.key_host.specs.Streams.{reset_stream, has_host, end_asked, request_asked, host_view, ok_unless};
ghost use Rattle.key_host.specs.Managers.{new_streams, streams_from, new_hop, hops_from, peers_from, asking_begun};
ghost use Rattle.key_host.specs.Managers.{asking_after, named_stream, op_named};

use crate::facts::StageFacts;
use crate::operation::{ExchangeReply, NamedOperation, StreamOutcome, StreamRefusal};
use crate::port::HostPort;
use crate::stage::NextExchange;
use crate::stream::StreamKeys;
use ide_types::{
    HopPlan, LinkPlan, OutOfMemory, PeerPlan, PortName, Side, StreamPlan, StreamStatus, ValidPlan,
};
use key_messages::km_write;
use key_slots::KeyPool;
use std::alloc::Global;
use std::marker::Model;

/// The host's manager of key management, for all lines (PCI Express Base 6.0 section 6.33, in this profile). It has at
/// most one exchange under way: that of the operation which `begin` began last or went on with.
#[derive(Drop)]
pub struct Manager {
    streams: Vec<StreamKeys>,
    asking: Option<usize>,
}

impl Model for Manager {
    ghost use Rattle.key_host.specs.Managers.{ManagerView};

    ghost Value = { ManagerView };

    ghost view = { λ m. record { streams = m.streams.items; asking = m.asking } };
}

/// Adds a link's streams.
fn add_streams(
    streams: &mut Vec<StreamKeys>,
    line: u8,
    plans: &[StreamPlan],
) -> Result<(), OutOfMemory>
    ensures { IfOk result (λ _. streams.new.items ≡ streams.old.items ++ new_streams line plans.now) }
{
    for plan in plans {
        streams.push(StreamKeys::new(line, plan.id))?;
    }
    Ok(())
}

/// Adds the streams of links.
fn add_links(streams: &mut Vec<StreamKeys>, links: &[LinkPlan]) -> Result<(), OutOfMemory>
    requires { length links.now ≤ 8 }
    ensures { IfOk result (λ _. streams.new.items ≡ streams.old.items ++ streams_from 0 links.now) }
{
    let mut line = 0;
    for link in links {
        add_streams(streams, line, link.streams.as_slice())?;
        line += 1;
    }
    Ok(())
}

/// Adds the stream of a hop, if there is one.
fn add_hop(
    streams: &mut Vec<StreamKeys>,
    line: u8,
    hop: &Option<HopPlan>,
) -> Result<(), OutOfMemory>
    ensures { IfOk result (λ _. streams.new.items ≡ streams.old.items ++ new_hop line hop.now) }
{
    match hop {
        None => Ok(()),
        Some(plan) => {
            streams.push(StreamKeys::new(line, plan.id))?;
            Ok(())
        }
    }
}

/// Adds the streams of the hops of links, one segment of each, from this line on.
fn add_hops(streams: &mut Vec<StreamKeys>, first: u8, links: &[LinkPlan]) -> Result<(), OutOfMemory>
    requires links { length links.now ≤ 8 }
    requires first { first ≤ 16 }
    ensures { IfOk result (λ _. streams.new.items ≡ streams.old.items ++ hops_from first links.now) }
{
    let mut line = first;
    for link in links {
        add_hop(streams, line, &link.hop)?;
        line += 1;
    }
    Ok(())
}

/// Adds the streams between devices.
fn add_peers(streams: &mut Vec<StreamKeys>, peers: &[PeerPlan]) -> Result<(), OutOfMemory>
    requires { length peers.now ≤ 8 }
    ensures { IfOk result (λ _. streams.new.items ≡ streams.old.items ++ peers_from 24 peers.now) }
{
    let mut line = 24;
    for plan in peers {
        streams.push(StreamKeys::new(line, plan.id))?;
        line += 1;
    }
    Ok(())
}

impl Manager {
    ghost use Rattle.key_host.specs.Managers.{new_manager, stream_place, named_stream, status_named, current};
    ghost use Rattle.key_host.specs.Managers.{begin_refusal, begun_manager, pool_begun, calls_begun, outcome_now};
    ghost use Rattle.key_host.specs.Managers.{manager_after_reply, calls_taken, reset_manager, asked_now};

    /// A manager of all lines of a topology; no stream has keys. Returns `OutOfMemory` for want of memory.
    pub fn make(alloc: Global, plan: &ValidPlan) -> Result<Manager, OutOfMemory>
        ensures { IfOk result (λ m. m ≡ new_manager plan.now.links plan.now.peers) }
    {
        let plan = plan.plan();
        let mut streams = Vec::new(alloc);
        add_links(&mut streams, plan.links.as_slice())?;
        add_hops(&mut streams, 8, plan.links.as_slice())?;
        add_hops(&mut streams, 16, plan.links.as_slice())?;
        add_peers(&mut streams, plan.peers.as_slice())?;
        Ok(Manager {
            streams,
            asking: None,
        })
    }

    fn place(&self, line: u8, stream: u8) -> Option<usize>
        ensures { result ≡ stream_place self.now line stream }
    {
        self.streams.iter().position(|s| s.is_named(line, stream))
    }

    /// Whether the line has the stream.
    pub fn has_stream(&self, line: u8, stream: u8) -> bool
        ensures { result ≡ is_some (named_stream self.now line stream) }
    {
        self.place(line, stream).is_some()
    }

    /// What it says of a stream by its operations alone: Secure if the stream has keys, Idle if it has none or the line
    /// has no such stream, Partial while an operation is unfinished.
    pub fn status(&self, line: u8, stream: u8) -> StreamStatus
        ensures { result ≡ status_named (named_stream self.now line stream) }
    {
        match self.place(line, stream) {
            None => StreamStatus::Idle,
            Some(place) => self.streams[place].status(),
        }
    }

    /// Whether an operation on a stream that its line has would begin, and not go on.
    pub fn begins(&self, op: NamedOperation) -> bool
        requires { IsSome (named_stream self.now (op_name op).line (op_name op).stream) }
        ensures { let name = op_name op in IfSome (named_stream self.now name.line name.stream) (λ n.
            result ≡ (work_of name.operation n.stream.op 0).begins) }
    {
        let Some(place) = self.place(op.line(), op.stream()) else {
            unreachable!()
        };
        let stream = &self.streams[place];
        stream.begins(op.operation())
    }

    /// Begins an operation on a stream that its line has, or goes on with it if it is unfinished; `port` is that of the
    /// line's near end. An establish or a refresh that begins draws from the pool and, at a host's port, programs the
    /// six slots of its key set; a stop that begins empties all slots of the stream there, and drops what is
    /// unfinished. One that goes on does none of this. Refused, in this order: of establish NotIdle if the stream has
    /// keys, Busy if another operation is unfinished, PoolEmpty; of refresh Busy, NotSecure unless the stream has keys
    /// and is Secure at the host's port, UnitOpen, PoolEmpty; a stop never. A refusal changes nothing.
    pub fn begin<P: HostPort>(
        &mut self,
        port: &mut P,
        pool: &mut KeyPool,
        op: NamedOperation,
    ) -> Result<(), StreamRefusal>
        requires { IsSome (named_stream self.old (op_name op).line (op_name op).stream) }
        ensures answer { let name = op_name op in IfSome (named_stream self.old name.line name.stream) (λ n.
            let host = host_view P.status_of P.live_of port.old n.stream.id in
            result ≡ ok_unless (begin_refusal name.operation host pool.old n)) }
        ensures manager { let name = op_name op in IfSome (named_stream self.old name.line name.stream) (λ n.
            let host = host_view P.status_of P.live_of port.old n.stream.id in
            self.new ≡ begun_manager self.old name.operation host pool.old n) }
        ensures pool { let name = op_name op in IfSome (named_stream self.old name.line name.stream) (λ n.
            let host = host_view P.status_of P.live_of port.old n.stream.id in
            pool.new ≡ pool_begun name.operation host pool.old n) }
        ensures calls { let name = op_name op in IfSome (named_stream self.old name.line name.stream) (λ n.
            let host = host_view P.status_of P.live_of port.old n.stream.id in
            CallsMove P.slots P.unfinished P.moves port.old (calls_begun name.operation host pool.old n) port.new) }
    {
        let Some(place) = self.place(op.line(), op.stream()) else {
            unreachable!()
        };
        let stream = &mut self.streams[place];
        let answer = stream.begin(port, pool, op.operation());
        self.asking = asking_begun(self.asking, place, answer);
        answer
    }

    // The exchange that is next of the operation that is under way.
    fn asked(&self) -> Option<NextExchange>
        ensures { result ≡ asked_now (current self.now) }
    {
        match self.asking {
            None => None,
            Some(place) => match self.streams.get(place) {
                None => None,
                Some(stream) => stream.asked(),
            },
        }
    }

    /// Whether an exchange is to be asked and taken: from a `begin` that answered `Ok` on, until the operation is done
    /// or refused, or a link is reset.
    pub fn is_asking(&self) -> bool
        ensures { result ≡ is_some (current self.now) }
    {
        self.asked().is_some()
    }

    /// The number of the exchange that `ask` writes, from 1.
    pub fn exchange(&self) -> u32
        requires { IsSome (current self.now) }
        ensures { IfSome (current self.now) (λ c. result ≡ c.asked.exchange) }
    {
        let Some(asked) = self.asked() else {
            unreachable!()
        };
        u32::from(asked.exchange)
    }

    /// The end of the line that it is carried to.
    pub fn end(&self) -> Side
        requires { IsSome (current self.now) }
        ensures { IfSome (current self.now) (λ c. result ≡ end_asked (has_host c.stream) c.asked) }
    {
        let Some(place) = self.asking else {
            unreachable!()
        };
        let stream = &self.streams[place];
        let Some(asked) = stream.asked() else {
            unreachable!()
        };
        stream.end(asked)
    }

    /// Appends the request of the exchange that is next, for which `out` has 49 bytes of room, and answers the
    /// operation's draw, 0 if it has none. It takes no memory.
    pub fn ask(&self, out: &mut Vec<u8>) -> u32
        requires asking { IsSome (current self.now) }
        requires room { vec_len out.old + 49 ≤ vec_capacity out.old }
        ensures items { IfSome (current self.now) (λ c. out.new.items ≡ out.old.items
            ++ object_spelling (request_asked (has_host c.stream) c.asked c.stream)) }
        ensures draw { IfSome (current self.now) (λ c. result ≡ c.asked.draw) }
        ensures capacity { vec_capacity out.old ≤ vec_capacity out.new }
    {
        let Some(place) = self.asking else {
            unreachable!()
        };
        let stream = &self.streams[place];
        let Some(asked) = stream.asked() else {
            unreachable!()
        };
        km_write(&stream.request(asked), out);
        asked.draw
    }

    /// Takes what was carried in answer to the request of the exchange that is next; `port` is that of the line's near
    /// end. If the reply is the expected one, the operation goes on, and after the last GO of the device's receivers
    /// the six slots of a host's port get theirs; anything else leaves the operation at that exchange, and is answered
    /// by its refusal.
    pub fn take<P: HostPort>(&mut self, port: &mut P, carried: ExchangeReply) -> StreamOutcome
        requires { IsSome (current self.old) }
        ensures outcome { IfSome (current self.old) (λ c. result ≡ outcome_now c carried.entry) }
        ensures manager { IfSome (current self.old) (λ c. self.new ≡ manager_after_reply self.old c carried.entry) }
        ensures calls { IfSome (current self.old) (λ c. CallsMove P.slots P.unfinished P.moves port.old
            (calls_taken c carried.entry) port.new) }
    {
        let Some(place) = self.asking else {
            unreachable!()
        };
        let stream = &mut self.streams[place];
        let Some(asked) = stream.asked() else {
            unreachable!()
        };
        let outcome = stream.take(port, asked, carried);
        self.asking = still_asking(place, outcome);
        outcome
    }

    /// Notes a reset that clears these ends: the streams of their lines are without keys again, and their operations
    /// are dropped; those between devices are to be stopped. No exchange is under way.
    pub fn reset(&mut self, ends: &[PortName])
        ensures { self.new ≡ reset_manager ends.now self.old }
    {
        reset_streams(&mut self.streams, ends);
        self.asking = None;
    }
}

// The place of the stream that is asked, after a `begin`.
fn asking_begun(
    asking: Option<usize>,
    place: usize,
    answer: Result<(), StreamRefusal>,
) -> Option<usize>
    ensures { result ≡ asking_begun asking place answer }
{
    match answer {
        Ok(()) => Some(place),
        Err(_) => asking,
    }
}

// The place of the stream whose operation goes on.
fn still_asking(place: usize, outcome: StreamOutcome) -> Option<usize>
    ensures { result ≡ asking_after place outcome }
{
    match outcome {
        StreamOutcome::Next => Some(place),
        StreamOutcome::Done(_) | StreamOutcome::Refused(_) => None,
    }
}

fn reset_streams(streams: &mut Vec<StreamKeys>, ends: &[PortName])
    ensures { streams.new.items ≡ map (reset_stream ends.now) streams.old.items }
{
    for stream in streams.iter_mut() {
        stream.reset(ends);
    }
}

// ---- what is seen of it

impl Manager {
    /// The state of a stream's operations; `None` if the line has no such stream.
    pub fn facts(&self, line: u8, stream: u8) -> Option<StageFacts>
        ensures { option_map op_seen result ≡ op_named (named_stream self.now line stream) }
    {
        match self.place(line, stream) {
            None => None,
            Some(place) => Some(self.streams[place].facts()),
        }
    }
}
