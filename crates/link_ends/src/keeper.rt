//! The host's manager of key management, and the exchanges that it asks.

ghost use Rattle.std.specs.Prelude.{◌≡◌, ◌+◌, ◌<◌, ◌≤◌, ℕ, [], Some, None, IfOk, IfSome, IsSome, is_some, length};
ghost use Rattle.std.specs.Prelude.{vec_len, vec_capacity};
ghost use Rattle.key_messages.specs.{object_spelling};
ghost use Rattle.spec_keys.specs.Operations.{work_of};
ghost use Rattle.key_messages.specs.declared.object.KmView.{KmView};
ghost use Rattle.std.specs.Option.{option_map};
ghost use Rattle.key_host.specs.Facts.{op_seen};
ghost use Rattle.key_host.specs.Judging.{judged_exchange};
ghost use Rattle.key_host.specs.Operations.{op_name};
ghost use Rattle.key_host.specs.Streams.{has_host, end_asked, request_asked};
ghost use Rattle.link_ends.specs.LineEnds.{answered_end, end_reply, line_end_in, with_end};
ghost use Rattle.key_host.specs.Managers.{new_manager, named_stream, op_named, status_named, current, reset_manager};
ghost use Rattle.key_slots.specs.{new_pool};
ghost use Rattle.link_ends.specs.DeviceEnds.{asked_device, reply_given};
ghost use Rattle.join_keys.specs.Walks.{judged_bytes};
ghost use Rattle.spec_keys.specs.Due.{lost_message};

use crate::ends::LinkEnds;
use crate::{Device, PairEnds, PeerStreams};
use ide_types::{OutOfMemory, PortName, StreamStatus, ValidPlan};
use interface_ends::TDISP_REPLY_ROOM;
use key_host::{ExchangeReply, Manager, NamedOperation, StageFacts, StreamOutcome};
use key_slots::KeyPool;
use script_events::{Loss, Lost};
use std::alloc::Global;
use std::marker::Model;

/// The room that a request needs, in bytes.
const REQUEST_ROOM: usize = 49;

/// The most exchanges of an operation.
const MOST_EXCHANGES: u8 = 13;

/// The most exchanges of an operation on a line that is keyed by messages at both ends.
const MOST_PAIR_EXCHANGES: u8 = 24;

/// The manager of all lines with the keys that it draws, and room for one exchange (PCI Express Base 6.0 section 6.33,
/// in this profile).
#[derive(Drop)]
pub struct KeyKeeper {
    manager: Manager,
    pool: KeyPool,
    request: Vec<u8>,
    reply: Vec<u8>,
}

impl Model for KeyKeeper {
    ghost use Rattle.std.specs.Prelude.{◌≤◌, vec_capacity};
    ghost use Rattle.link_ends.specs.Keepers.{KeeperView};

    ghost Value = { KeeperView };

    ghost view = { λ k. record { manager = k.manager; pool = k.pool } };

    ghost invariant = { λ k. (49 ≤ vec_capacity k.request) × (1200 ≤ vec_capacity k.reply) };
}

/// What is lost of the exchange of this number; `None` if nothing is.
pub fn lost_at(loss: Option<Loss>, exchange: u32) -> Option<Lost>
    ensures { result ≡ lost_message loss exchange }
{
    match loss {
        Some(loss) if loss.exchange == exchange as u64 => Some(loss.lost),
        _ => None,
    }
}

// A reply as it is carried; one without bytes is none.
fn carried(reply: &[u8]) -> ExchangeReply<'_>
    ensures { (request : KmView) → judged_exchange request result ≡ judged_bytes request reply.now }
{
    if reply.is_empty() {
        ExchangeReply::Reply(None)
    } else {
        ExchangeReply::Reply(Some(reply))
    }
}

// Gives the device the request of the exchange that is next; `reply` holds what it answers.
fn deliver<P: PeerStreams>(
    manager: &Manager,
    device: &mut Device,
    peers: &P,
    request: &mut Vec<u8>,
    reply: &mut Vec<u8>,
)
    requires asking { IsSome (current manager.now) }
    requires request_room { 49 ≤ vec_capacity request.old }
    requires reply_room { 1200 ≤ vec_capacity reply.old }
    ensures device { IfSome (current manager.now) (λ c. device.new ≡ asked_device device.old
        (object_spelling (request_asked (has_host c.stream) c.asked c.stream)) c.asked.draw) }
    ensures reply { IfSome (current manager.now) (λ c. reply.new.items ≡ reply_given device.old
        (object_spelling (request_asked (has_host c.stream) c.asked c.stream)) c.asked.draw) }
    ensures request_room { 49 ≤ vec_capacity request.new }
    ensures reply_room { 1200 ≤ vec_capacity reply.new }
{
    request.clear();
    let draw = manager.ask(request);
    reply.clear();
    device.answer(peers, request, draw, reply);
}

// Gives the end of a line that it is for the request of the exchange that is next; `reply` holds what it answers.
fn deliver_to_end(
    manager: &Manager,
    ends: &mut PairEnds,
    request: &mut Vec<u8>,
    reply: &mut Vec<u8>,
)
    requires asking { IsSome (current manager.now) }
    requires request_room { 49 ≤ vec_capacity request.old }
    requires reply_room { 1200 ≤ vec_capacity reply.old }
    ensures ends { IfSome (current manager.now) (λ c.
        let side = end_asked (has_host c.stream) c.asked in
        let bytes = object_spelling (request_asked (has_host c.stream) c.asked c.stream) in
        ends.new ≡ with_end side (answered_end (line_end_in side ends.old) bytes c.asked.draw) ends.old) }
    ensures reply { IfSome (current manager.now) (λ c.
        let side = end_asked (has_host c.stream) c.asked in
        let bytes = object_spelling (request_asked (has_host c.stream) c.asked c.stream) in
        reply.new.items ≡ end_reply (line_end_in side ends.old) bytes c.asked.draw) }
    ensures request_room { 49 ≤ vec_capacity request.new }
    ensures reply_room { 1200 ≤ vec_capacity reply.new }
{
    request.clear();
    let draw = manager.ask(request);
    reply.clear();
    ends.answer(manager.end(), request, draw, reply);
}

impl KeyKeeper {
    ghost use Rattle.link_ends.specs.Keepers.{Exchanges, Walks, Operates, KeysAlone};
    ghost use Rattle.link_ends.specs.PairKeepers.{PairExchanges, PairWalks, PairOperates, NoMorePairUnits};

    /// A manager of the plan's lines, and the plan's keys, none of them drawn. Returns `OutOfMemory` for want of
    /// memory.
    pub fn make(alloc: Global, plan: &ValidPlan) -> Result<KeyKeeper, OutOfMemory>
        ensures { IfOk result (λ k. k ≡ record {
          manager = new_manager plan.now.links plan.now.peers;
          pool = new_pool plan.now.pool;
        }) }
    {
        let manager = Manager::make(alloc, plan)?;
        let pool = KeyPool::make(alloc, plan.plan().pool.as_slice())?;
        let request = Vec::with_capacity(alloc, REQUEST_ROOM)?;
        let reply = Vec::with_capacity(alloc, TDISP_REPLY_ROOM)?;
        Ok(KeyKeeper {
            manager,
            pool,
            request,
            reply,
        })
    }

    /// Whether the line has the stream.
    pub fn has_stream(&self, line: u8, stream: u8) -> bool
        ensures { result ≡ is_some (named_stream self.now.manager line stream) }
    {
        self.manager.has_stream(line, stream)
    }

    /// What the manager says of a stream by its operations alone.
    pub fn status(&self, line: u8, stream: u8) -> StreamStatus
        ensures { result ≡ status_named (named_stream self.now.manager line stream) }
    {
        self.manager.status(line, stream)
    }

    /// How many draws were made.
    pub fn draws(&self) -> u32
        ensures { result ≡ self.now.pool.draws }
    {
        self.pool.draws()
    }

    /// Whether an operation on a stream would begin, and not go on.
    pub fn begins(&self, op: NamedOperation) -> bool
        requires { IsSome (named_stream self.now.manager (op_name op).line (op_name op).stream) }
        ensures { IfSome (named_stream self.now.manager (op_name op).line (op_name op).stream) (λ n.
            result ≡ (work_of (op_name op).operation n.stream.op 0).begins) }
    {
        self.manager.begins(op)
    }

    // Carries the exchange that is next, but for the message of it that `loss` loses, if any.
    fn exchange<P: PeerStreams>(
        &mut self,
        ends: &mut LinkEnds,
        peers: &P,
        loss: Option<Loss>,
    ) -> StreamOutcome
        requires { IsSome (current self.old.manager) }
        ensures units { KeysAlone ends.old ends.new }
        ensures exchange { Exchanges loss self.old.manager ends.old result self.new.manager ends.new }
        ensures pool { self.new.pool ≡ self.old.pool }
    {
        match lost_at(loss, self.manager.exchange()) {
            None => {
                deliver(
                    &self.manager,
                    &mut ends.device,
                    peers,
                    &mut self.request,
                    &mut self.reply,
                );
                self.manager.take(&mut ends.host, carried(&self.reply))
            }
            Some(Lost::Request) => self.manager.take(&mut ends.host, ExchangeReply::Lost),
            Some(Lost::Reply) => {
                deliver(
                    &self.manager,
                    &mut ends.device,
                    peers,
                    &mut self.request,
                    &mut self.reply,
                );
                self.manager.take(&mut ends.host, ExchangeReply::Lost)
            }
        }
    }

    // Up to so many exchanges of the operation that is asked.
    fn walk<P: PeerStreams>(
        &mut self,
        more: u8,
        ends: &mut LinkEnds,
        peers: &P,
        loss: Option<Loss>,
    ) -> StreamOutcome
        ensures units { KeysAlone ends.old ends.new }
        ensures walk { Walks more loss self.old.manager ends.old result self.new.manager ends.new }
        ensures pool { self.new.pool ≡ self.old.pool }
    {
        if more == 0 {
            return StreamOutcome::Next;
        }
        if !self.manager.is_asking() {
            return StreamOutcome::Next;
        }
        match self.exchange(ends, peers, loss) {
            StreamOutcome::Next => self.walk(more - 1, ends, peers, loss),
            outcome => outcome,
        }
    }

    /// Begins an operation on a stream of the line with these ends, or goes on with it, and carries its exchanges until
    /// it is done or refused, or `loss` loses one. `peers` says what stands at the device's ends of streams between it
    /// and others.
    pub fn operate<P: PeerStreams>(
        &mut self,
        ends: &mut LinkEnds,
        peers: &P,
        op: NamedOperation,
        loss: Option<Loss>,
    ) -> StreamOutcome
        requires { IsSome (named_stream self.old.manager (op_name op).line (op_name op).stream) }
        ensures operates { Operates self.old ends.old op loss result self.new ends.new }
        ensures units { KeysAlone ends.old ends.new }
    {
        match self.manager.begin(&mut ends.host, &mut self.pool, op) {
            Err(refusal) => StreamOutcome::Refused(refusal),
            Ok(()) => self.walk(MOST_EXCHANGES, ends, peers, loss),
        }
    }

    // The same at the ends of a line that is keyed by messages at both.
    fn pair_exchange(&mut self, ends: &mut PairEnds, loss: Option<Loss>) -> StreamOutcome
        requires { IsSome (current self.old.manager) }
        ensures units { NoMorePairUnits ends.old ends.new }
        ensures exchange { PairExchanges loss self.old.manager ends.old result self.new.manager ends.new }
        ensures pool { self.new.pool ≡ self.old.pool }
    {
        match lost_at(loss, self.manager.exchange()) {
            None => {
                deliver_to_end(&self.manager, ends, &mut self.request, &mut self.reply);
                self.manager.take(&mut ends.near.port, carried(&self.reply))
            }
            Some(Lost::Request) => self.manager.take(&mut ends.near.port, ExchangeReply::Lost),
            Some(Lost::Reply) => {
                deliver_to_end(&self.manager, ends, &mut self.request, &mut self.reply);
                self.manager.take(&mut ends.near.port, ExchangeReply::Lost)
            }
        }
    }

    fn pair_walk(&mut self, more: u8, ends: &mut PairEnds, loss: Option<Loss>) -> StreamOutcome
        ensures units { NoMorePairUnits ends.old ends.new }
        ensures walk { PairWalks more loss self.old.manager ends.old result self.new.manager ends.new }
        ensures pool { self.new.pool ≡ self.old.pool }
    {
        if more == 0 {
            return StreamOutcome::Next;
        }
        if !self.manager.is_asking() {
            return StreamOutcome::Next;
        }
        match self.pair_exchange(ends, loss) {
            StreamOutcome::Next => self.pair_walk(more - 1, ends, loss),
            outcome => outcome,
        }
    }

    /// Begins an operation on the stream of the line with these ends, which is keyed by messages at both, or goes on
    /// with it, and carries its exchanges until it is done or refused, or `loss` loses one.
    pub fn operate_pair(
        &mut self,
        ends: &mut PairEnds,
        op: NamedOperation,
        loss: Option<Loss>,
    ) -> StreamOutcome
        requires { IsSome (named_stream self.old.manager (op_name op).line (op_name op).stream) }
        ensures operates { PairOperates self.old ends.old op loss result self.new ends.new }
        ensures units { NoMorePairUnits ends.old ends.new }
    {
        match self.manager.begin(&mut ends.near.port, &mut self.pool, op) {
            Err(refusal) => StreamOutcome::Refused(refusal),
            Ok(()) => self.pair_walk(MOST_PAIR_EXCHANGES, ends, loss),
        }
    }

    /// Notes a reset that clears these ends: the streams of their lines are without keys again, and their operations
    /// are dropped; those between devices are to be stopped.
    pub fn reset(&mut self, ends: &[PortName])
        ensures { self.new ≡ record self.old { manager = reset_manager ends.now self.old.manager } }
    {
        self.manager.reset(ends);
    }
}

// ---- what is seen of it

impl KeyKeeper {
    /// The state of a stream's operations; `None` if the line has no such stream.
    pub fn facts(&self, line: u8, stream: u8) -> Option<StageFacts>
        ensures { option_map op_seen result ≡ op_named (named_stream self.now.manager line stream) }
    {
        self.manager.facts(line, stream)
    }
}
