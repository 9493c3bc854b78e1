//! A stream of a line.

ghost use Rattle.std.specs.Prelude.{◌≡◌, ◌≤◌, true, [], Some, if◌then◌else◌};
ghost use Rattle.ide_types.specs.{is_one};
ghost use Rattle.spec_keys.specs.Operations.{work_of, last_exchange_of, makes_draw, op_ended, Idle, Stopping};
ghost use Rattle.spec_keys.specs.Places.{is_between_devices};
ghost use Rattle.key_host.specs.declared.judge.Judged.TheVariants.{Expected};
ghost use Rattle.ide_types.specs.Lines.{is_hosted};
ghost use Rattle.key_host.specs.Exchanges.{wire_keys};
ghost use Rattle.key_host.specs.Facts.{op_seen};
ghost use Rattle.key_host.specs.Local.{CallsMove, programs, stream_stop_calls};
ghost use Rattle.key_host.specs.Streams.{key_status, op_of_stage, stage_keys, work_asked, StageHolds, keyed_stage};
ghost use Rattle.key_host.specs.Streams.{taken_calls};

use crate::exchange::{Exchange, selector};
use crate::facts::StageFacts;
use crate::judge::{Judged, judge};
use crate::local::{go_six, program_six, stop_all};
use crate::operation::{ExchangeReply, StreamOutcome, StreamRefusal};
use crate::port::HostPort;
use crate::stage::{NextExchange, Stage};
use event_verdicts::Operation;
use ide_types::{KeySet, PortName, Side, StreamStatus, has_end_of_line};
use key_messages::{KmView, km_write};
use key_slots::{KeyPool, KeySix, PoolEmpty, Wires};
use std::marker::Model;
use std::mem;

/// A stream of a line, and its operations.
#[derive(Drop)]
pub struct StreamKeys {
    line: u8,
    id: u8,
    stage: Stage,
}

impl Model for StreamKeys {
    ghost use Rattle.ide_types.specs.Lines.{is_hosted};
    ghost use Rattle.key_host.specs.Streams.{StreamView, op_of_stage, stage_keys, StageHolds};

    ghost Value = { StreamView };

    ghost view = { λ s. record { line = s.line; id = s.id; op = op_of_stage s.stage; keys = stage_keys s.stage } };

    ghost invariant = { λ s. StageHolds (is_hosted s.line) s.stage };
}

/// Whether a host's port is at the near end of a line.
fn is_hosted(line: u8) -> bool
    ensures { result ≡ is_hosted line }
{
    line < 16
}

impl StreamKeys {
    ghost use Rattle.key_host.specs.Exchanges.{request_of};
    ghost use Rattle.key_host.specs.Judging.{judged_exchange};
    ghost use Rattle.key_host.specs.Streams.{new_stream, has_host, is_named, reset_stream, asked_of_unfinished};
    ghost use Rattle.key_host.specs.Streams.{exchange_asked, host_view, refusal_of, ok_unless, unless, begun_stream};
    ghost use Rattle.key_host.specs.Streams.{begun_pool, begun_calls, outcome_of, taken_stream, stream_acknowledged};
    ghost use Rattle.key_host.specs.Streams.{end_asked, request_asked, pool_refusal};

    /// A stream without keys.
    pub fn new(line: u8, id: u8) -> StreamKeys
        ensures { result ≡ new_stream line id }
    {
        StreamKeys {
            line,
            id,
            stage: Stage::Idle,
        }
    }

    /// Whether it is this stream of this line.
    pub fn is_named(&self, line: u8, id: u8) -> bool
        ensures { result ≡ is_named line id self.now }
    {
        self.line == line && self.id == id
    }

    /// After a reset that clears these ends, a stream of their lines has no keys on their way; one between devices is
    /// to be stopped.
    pub fn reset(&mut self, ends: &[PortName])
        ensures { self.new ≡ reset_stream ends.now self.old }
    {
        if has_end_of_line(ends, self.line) {
            self.stage = reset_stage(self.line);
        }
    }

    /// The exchange that is next, if an operation is unfinished.
    pub fn asked(&self) -> Option<NextExchange>
        ensures { result ≡ asked_of_unfinished self.now.op }
    {
        self.stage.asked()
    }

    /// Whether it has keys, or none, or some.
    pub fn status(&self) -> StreamStatus
        ensures { result ≡ key_status self.now.op }
    {
        key_status(&self.stage)
    }

    /// Whether an operation would begin, and not go on.
    pub fn begins(&self, operation: Operation) -> bool
        ensures { result ≡ (work_of operation self.now.op 0).begins }
    {
        self.stage.begins(operation)
    }

    /// Begins an operation, or goes on with it if it is unfinished; refused as `Manager::begin` says.
    pub fn begin<P: HostPort>(
        &mut self,
        port: &mut P,
        pool: &mut KeyPool,
        operation: Operation,
    ) -> Result<(), StreamRefusal>
        ensures answer { let host = host_view P.status_of P.live_of port.old self.old.id in
            result ≡ ok_unless (refusal_of operation self.old.op host pool.old) }
        ensures stream { let host = host_view P.status_of P.live_of port.old self.old.id in
            let w = work_of operation self.old.op pool.old.draws in
            self.new ≡ unless (refusal_of operation self.old.op host pool.old) self.old
            (begun_stream (has_host self.old) w pool.old self.old) }
        ensures pool { let host = host_view P.status_of P.live_of port.old self.old.id in
            let w = work_of operation self.old.op pool.old.draws in
            pool.new ≡ unless (refusal_of operation self.old.op host pool.old) pool.old (begun_pool w pool.old) }
        ensures calls { let host = host_view P.status_of P.live_of port.old self.old.id in
            let w = work_of operation self.old.op pool.old.draws in
            let refusal = refusal_of operation self.old.op host pool.old in
            let calls = unless refusal [] (begun_calls (has_host self.old) w pool.old self.old.id) in
            CallsMove P.slots P.unfinished P.moves port.old calls port.new }
    {
        if let Some(refusal) = self.stage.refusal(port, self.id, operation) {
            return Err(refusal);
        }
        if !self.stage.begins(operation) {
            return Ok(());
        }
        match operation {
            Operation::Establish | Operation::Refresh => self.give_keys(port, pool, operation),
            Operation::Stop => {
                empty_host(port, is_hosted(self.line), self.id);
                self.stage = Stage::Stopping { next: 1 };
                Ok(())
            }
        }
    }

    // Draws, programs the host's slots, and stands at the first exchange.
    fn give_keys<P: HostPort>(
        &mut self,
        port: &mut P,
        pool: &mut KeyPool,
        operation: Operation,
    ) -> Result<(), StreamRefusal>
        requires draws { makes_draw operation ≡ true }
        requires begins { (work_of operation self.old.op 0).begins ≡ true }
        ensures answer { let w = work_of operation self.old.op pool.old.draws in
            result ≡ ok_unless (pool_refusal w pool.old) }
        ensures stream { let w = work_of operation self.old.op pool.old.draws in
            self.new ≡ unless (pool_refusal w pool.old) self.old (begun_stream
            (has_host self.old) w pool.old self.old) }
        ensures pool { let w = work_of operation self.old.op pool.old.draws in
            pool.new ≡ unless (pool_refusal w pool.old) pool.old (begun_pool w pool.old) }
        ensures calls { let w = work_of operation self.old.op pool.old.draws in
            let calls = unless (pool_refusal w pool.old) [] (begun_calls (has_host self.old) w pool.old self.old.id) in
            CallsMove P.slots P.unfinished P.moves port.old calls port.new }
    {
        let set = self.stage.next_set(operation);
        let six = match pool.draw() {
            Ok(six) => six,
            Err(PoolEmpty { draws }) => return Err(StreamRefusal::PoolEmpty(draws)),
        };
        let draw = six.draw();
        let keys = split_keys(port, is_hosted(self.line), self.id, set, six);
        self.stage = keyed(operation, set, draw, keys);
        Ok(())
    }

    /// The end of the line that the exchange is carried to.
    pub fn end(&self, asked: NextExchange) -> Side
        ensures { result ≡ end_asked (has_host self.now) asked }
    {
        asked.end(is_hosted(self.line))
    }

    /// The request of the exchange that is next.
    pub fn request(&self, asked: NextExchange) -> KmView
        requires { asked_of_unfinished self.now.op ≡ Some asked }
        ensures { result ≡ request_asked (has_host self.now) asked self.now }
    {
        let stream = self.id;
        let hosted = is_hosted(self.line);
        match asked.exchange(hosted) {
            Exchange::Query => KmView::Query { port: 0 },
            Exchange::Program { set, lane } => KmView::KeyProg {
                stream,
                selector: selector(set, lane),
                port: 0,
                key: self.stage.key(asked.wire(hosted)),
                counter: 1,
            },
            Exchange::Go { set, lane } => KmView::SetGo {
                stream,
                selector: selector(set, lane),
                port: 0,
            },
            Exchange::Stop { set, lane } => KmView::SetStop {
                stream,
                selector: selector(set, lane),
                port: 0,
            },
        }
    }

    /// Takes what was carried in answer to the request of the exchange that is next.
    pub fn take<P: HostPort>(
        &mut self,
        port: &mut P,
        asked: NextExchange,
        carried: ExchangeReply,
    ) -> StreamOutcome
        requires { asked_of_unfinished self.old.op ≡ Some asked }
        ensures outcome { result ≡ outcome_of (has_host self.old) asked (judged_exchange (request_asked
            (has_host self.old) asked self.old) carried.entry) }
        ensures stream { self.new ≡ taken_stream (has_host self.old) asked (judged_exchange (request_asked
            (has_host self.old) asked self.old) carried.entry) self.old }
        ensures calls { let calls = taken_calls (has_host self.old) asked (judged_exchange (request_asked
            (has_host self.old) asked self.old) carried.entry)
            self.old.id in
            CallsMove P.slots P.unfinished P.moves port.old calls port.new }
    {
        let exchange = u32::from(asked.exchange);
        match judge(self.request(asked), carried) {
            Judged::Expected => self.acknowledge(port, asked),
            Judged::Lost => StreamOutcome::Refused(StreamRefusal::SessionLost(exchange)),
            Judged::Refused(code) => {
                StreamOutcome::Refused(StreamRefusal::DeviceRefused(exchange, u32::from(code)))
            }
            Judged::Bad => StreamOutcome::Refused(StreamRefusal::BadReply(exchange)),
        }
    }

    // Goes on after an exchange that was acknowledged.
    fn acknowledge<P: HostPort>(&mut self, port: &mut P, asked: NextExchange) -> StreamOutcome
        requires { asked_of_unfinished self.old.op ≡ Some asked }
        ensures outcome { result ≡ outcome_of (has_host self.old) asked Expected }
        ensures stream { self.new ≡ stream_acknowledged (has_host self.old) asked self.old }
        ensures calls { CallsMove P.slots P.unfinished P.moves port.old
            (taken_calls (has_host self.old) asked Expected self.old.id) port.new }
    {
        go_on(port, is_hosted(self.line), self.id, asked);
        self.advance(asked);
        if asked.is_last(is_hosted(self.line)) {
            StreamOutcome::Done(asked.shown())
        } else {
            StreamOutcome::Next
        }
    }

    fn advance(&mut self, asked: NextExchange)
        requires { asked_of_unfinished self.old.op ≡ Some asked }
        ensures { self.new ≡ stream_acknowledged (has_host self.old) asked self.old }
    {
        let stage = mem::replace(&mut self.stage, Stage::Idle);
        let hosted = is_hosted(self.line);
        self.stage = if asked.is_last(hosted) {
            ended(hosted, asked)
        } else {
            stage.advanced(asked.exchange(hosted), asked.wire(hosted))
        };
    }
}

/// What a state says of a stream's keys.
fn key_status(stage: &Stage) -> StreamStatus
    ensures { result ≡ key_status (op_of_stage stage.now) }
{
    match stage {
        Stage::Idle => StreamStatus::Idle,
        Stage::Up { .. } => StreamStatus::Secure,
        Stage::Establishing { .. } | Stage::Refreshing { .. } | Stage::Stopping { .. } => {
            StreamStatus::Partial
        }
    }
}

/// The state of a stream of a line that a reset cut.
fn reset_stage(line: u8) -> Stage
    ensures op { op_of_stage result ≡ (if is_between_devices line then Stopping 1 else Idle) }
    ensures keys { stage_keys result ≡ [] }
    ensures holds { StageHolds (is_hosted line) result }
{
    if line < 24 {
        Stage::Idle
    } else {
        Stage::Stopping { next: 1 }
    }
}

/// Splits the keys of a draw: a host's port at the near end is programmed with them.
fn split_keys<P: HostPort>(
    port: &mut P,
    hosted: bool,
    stream: u8,
    set: KeySet,
    six: KeySix,
) -> Wires
    ensures keys { result ≡ wire_keys hosted six.keys }
    ensures calls { CallsMove P.slots P.unfinished P.moves port.old
        (if hosted then programs stream (is_one set) six.keys six.draw else []) port.new }
{
    let draw = six.draw();
    if hosted {
        let (host, wire) = six.split();
        program_six(port, stream, set, host, draw);
        Wires::far(wire)
    } else {
        let (near, far) = six.split_wire();
        Wires::both(near, far)
    }
}

/// Empties all slots of a stream at a host's port.
fn empty_host<P: HostPort>(port: &mut P, hosted: bool, stream: u8)
    ensures { CallsMove P.slots P.unfinished P.moves port.old (if hosted then stream_stop_calls stream else [])
        port.new }
{
    if hosted {
        stop_all(port, stream);
    }
}

/// Gives a host's port its GOs, if the last of the device's receivers acknowledged its own.
fn go_on<P: HostPort>(port: &mut P, hosted: bool, stream: u8, asked: NextExchange)
    requires first { 1 ≤ asked.exchange }
    requires last { asked.exchange ≤ last_exchange_of hosted asked.operation }
    ensures { CallsMove P.slots P.unfinished P.moves port.old (taken_calls hosted asked Expected stream) port.new }
{
    if hosted && asked.exchange(hosted).is_last_receiver_go() {
        go_six(port, stream, asked.set);
    }
}

/// The state at the first exchange of an operation that gives keys.
fn keyed(operation: Operation, set: KeySet, draw: u32, keys: Wires) -> Stage
    ensures { result ≡ keyed_stage operation set draw keys }
{
    match operation {
        Operation::Refresh => Stage::Refreshing {
            set,
            draw,
            next: 1,
            keys,
        },
        Operation::Establish | Operation::Stop => Stage::Establishing {
            draw,
            next: 1,
            keys,
        },
    }
}

/// The state at the end of an operation.
fn ended(hosted: bool, asked: NextExchange) -> Stage
    ensures op { op_of_stage result ≡ op_ended (work_asked asked) }
    ensures keys { stage_keys result ≡ [] }
    ensures holds { StageHolds hosted result }
{
    match asked.operation {
        Operation::Establish | Operation::Refresh => Stage::Up {
            set: asked.set,
            draw: asked.draw,
        },
        Operation::Stop => Stage::Idle,
    }
}

// ---- what is seen of it

impl StreamKeys {
    /// The state of its operations.
    pub fn facts(&self) -> StageFacts
        ensures { op_seen result ≡ self.now.op }
    {
        self.stage.facts()
    }
}
