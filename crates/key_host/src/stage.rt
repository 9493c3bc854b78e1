//! The state of a stream for the manager.

ghost use Rattle.std.specs.Prelude.{◌≡◌, ◌+◌, ◌<◌, ◌≤◌, IsSome, IsTrue, true, not, if◌then◌else◌, [], slice_index_or};
ghost use Rattle.ide_types.specs.{is_one};
ghost use Rattle.spec_keys.specs.Operations.{work_of, last_exchange_of, op_after_reach, new_reach};
ghost use Rattle.key_host.specs.Exchanges.{exchange_of, exchange_lane, kept_key, key_or_none};
ghost use Rattle.key_host.specs.Facts.{op_seen};
ghost use Rattle.key_host.specs.Streams.{op_of_stage, stage_keys, StageHolds, asked_of_unfinished, exchange_asked};
ghost use Rattle.key_host.specs.Streams.{work_asked, host_view, operation_refusal, open_unit_refusal, status_or_idle};
ghost use Rattle.key_host.specs.Streams.{unless_secure, is_set, wire_keys_after, establish_refusal, refresh_refusal};
ghost use Rattle.key_host.specs.Streams.{current_set, next_in, op_advanced};

use crate::exchange::{Exchange, end_at, exchange_at, last, wire_number};
use crate::facts::StageFacts;
use crate::operation::{StreamRefusal, StreamResult};
use crate::port::HostPort;
use event_verdicts::Operation;
use ide_types::{KeySet, Side, StreamStatus, SubKind};
use key_slots::Wires;

/// The state of a stream for the manager. `next` is the number of the exchange that is to be asked next, from 1; the
/// keys are those that the device has not acknowledged yet.
#[derive(Drop)]
pub enum Stage {
    Idle,
    Establishing {
        draw: u32,
        next: u8,
        keys: Wires,
    },
    Up {
        set: KeySet,
        draw: u32,
    },
    Refreshing {
        set: KeySet,
        draw: u32,
        next: u8,
        keys: Wires,
    },
    Stopping {
        next: u8,
    },
}

/// The exchange that is next of an unfinished operation: its key set, its draw (0 if it has none), and the number of
/// the exchange, from 1.
#[derive(Clone, Copy, PartialEq, Eq)]
pub struct NextExchange {
    pub operation: Operation,
    pub set: KeySet,
    pub draw: u32,
    pub exchange: u8,
}

impl NextExchange {
    ghost use Rattle.key_host.specs.Streams.{exchange_asked, end_asked, wire_asked, is_last, shown_at_end};

    /// The exchange, on a line with a host's port at its near end or with none.
    pub fn exchange(&self, hosted: bool) -> Exchange
        requires first { 1 ≤ self.now.exchange }
        requires last { self.now.exchange ≤ last_exchange_of hosted self.now.operation }
        ensures exchange { result ≡ exchange_asked hosted self.now }
        ensures lane { exchange_lane result < 6 }
    {
        exchange_at(hosted, self.operation, self.set, self.exchange)
    }

    /// The end of the line that it is carried to.
    pub fn end(&self, hosted: bool) -> Side
        ensures { result ≡ end_asked hosted self.now }
    {
        end_at(hosted, self.operation, self.exchange)
    }

    /// The number of the key that it brings, if it brings one.
    pub fn wire(&self, hosted: bool) -> u8
        requires first { 1 ≤ self.now.exchange }
        requires last { self.now.exchange ≤ last_exchange_of hosted self.now.operation }
        ensures { result ≡ wire_asked hosted self.now }
    {
        wire_number(hosted, self.end(hosted), self.exchange(hosted).lane())
    }

    /// Whether it is the operation's last.
    pub fn is_last(&self, hosted: bool) -> bool
        ensures { result ≡ is_last hosted self.now }
    {
        self.exchange == last(hosted, self.operation)
    }

    /// What the operation shows at its end.
    pub fn shown(&self) -> StreamResult
        ensures { result ≡ shown_at_end self.now }
    {
        match self.operation {
            Operation::Establish | Operation::Refresh => StreamResult::Draw(self.draw),
            Operation::Stop => StreamResult::Stopped,
        }
    }
}

/// The first sub-stream, PR first, whose Live key at the host's sender is in this set.
fn open_unit<P: HostPort>(port: &P, stream: u8, set: KeySet) -> Option<StreamRefusal>
    ensures { result ≡ open_unit_refusal (host_view P.status_of P.live_of port.now stream) (is_one set) }
{
    if port.live_set(stream, SubKind::Pr) == Some(set) {
        Some(StreamRefusal::UnitOpen(SubKind::Pr))
    } else if port.live_set(stream, SubKind::Npr) == Some(set) {
        Some(StreamRefusal::UnitOpen(SubKind::Npr))
    } else if port.live_set(stream, SubKind::Cpl) == Some(set) {
        Some(StreamRefusal::UnitOpen(SubKind::Cpl))
    } else {
        None
    }
}

/// The state of a stream at the host's port.
fn status<P: HostPort>(port: &P, stream: u8) -> StreamStatus
    ensures { result ≡ status_or_idle (P.status_of port.now stream) }
{
    match port.status(stream) {
        None => StreamStatus::Idle,
        Some(status) => status,
    }
}

/// Why a refresh of a keyed stream may not begin with keys in this set.
fn not_ready<P: HostPort>(port: &P, stream: u8, set: KeySet) -> Option<StreamRefusal>
    ensures { let host = host_view P.status_of P.live_of port.now stream in
        result ≡ unless_secure (status_or_idle host.status) (open_unit_refusal host (is_one set)) }
{
    match status(port, stream) {
        StreamStatus::Secure => open_unit(port, stream, set),
        status => Some(StreamRefusal::NotSecure(status)),
    }
}

/// The keys without the one that the exchange brought, which has this number.
fn spent(mut keys: Wires, exchange: Exchange, wire: u8) -> Wires
    ensures { result ≡ wire_keys_after exchange wire keys }
{
    if let Exchange::Program { .. } = exchange {
        keys.spend(wire);
    }
    keys
}

impl Stage {
    /// Why an operation may neither begin nor go on, but for an empty pool.
    pub fn refusal<P: HostPort>(
        &self,
        port: &P,
        stream: u8,
        operation: Operation,
    ) -> Option<StreamRefusal>
        ensures { result ≡ operation_refusal operation (op_of_stage self.now)
            (host_view P.status_of P.live_of port.now stream) }
    {
        match operation {
            Operation::Establish => self.establish_refusal(),
            Operation::Refresh => self.refresh_refusal(port, stream),
            Operation::Stop => None,
        }
    }

    fn establish_refusal(&self) -> Option<StreamRefusal>
        ensures { result ≡ establish_refusal (op_of_stage self.now) }
    {
        match self {
            Stage::Idle | Stage::Establishing { .. } => None,
            Stage::Up { .. } => Some(StreamRefusal::NotIdle),
            Stage::Refreshing { .. } => Some(StreamRefusal::Busy(Operation::Refresh)),
            Stage::Stopping { .. } => Some(StreamRefusal::Busy(Operation::Stop)),
        }
    }

    fn refresh_refusal<P: HostPort>(&self, port: &P, stream: u8) -> Option<StreamRefusal>
        ensures { result ≡ refresh_refusal (op_of_stage self.now) (host_view P.status_of P.live_of port.now stream) }
    {
        match self {
            Stage::Idle => Some(StreamRefusal::NotSecure(status(port, stream))),
            Stage::Establishing { .. } => Some(StreamRefusal::Busy(Operation::Establish)),
            Stage::Up { set, .. } => not_ready(port, stream, set.other()),
            Stage::Refreshing { .. } => None,
            Stage::Stopping { .. } => Some(StreamRefusal::Busy(Operation::Stop)),
        }
    }

    /// Whether the operation begins, and does not go on.
    pub fn begins(&self, operation: Operation) -> bool
        ensures { result ≡ (work_of operation (op_of_stage self.now) 0).begins }
    {
        match (operation, self) {
            (Operation::Establish, Stage::Establishing { .. }) => false,
            (Operation::Refresh, Stage::Refreshing { .. }) => false,
            (Operation::Stop, Stage::Stopping { .. }) => false,
            _ => true,
        }
    }

    /// The key set that a refresh of a keyed stream gives keys in; set 0 for an establish.
    pub fn next_set(&self, operation: Operation) -> KeySet
        requires { (work_of operation (op_of_stage self.now) 0).begins ≡ true }
        ensures { is_one result ≡ (work_of operation (op_of_stage self.now) 0).set }
    {
        match operation {
            Operation::Refresh => self.current_set().other(),
            Operation::Establish | Operation::Stop => KeySet::Zero,
        }
    }

    fn current_set(&self) -> KeySet
        ensures { is_one result ≡ current_set (op_of_stage self.now) }
    {
        match self {
            Stage::Up { set, .. } => *set,
            _ => KeySet::Zero,
        }
    }

    /// The exchange that is next, if an operation is unfinished.
    #[tactic(auto, using(ide_types::proofs::KeySets::set_of_one))]
    pub fn asked(&self) -> Option<NextExchange>
        ensures { result ≡ asked_of_unfinished (op_of_stage self.now) }
    {
        match self {
            Stage::Establishing { draw, next, .. } => Some(NextExchange {
                operation: Operation::Establish,
                set: KeySet::Zero,
                draw: *draw,
                exchange: *next,
            }),
            Stage::Refreshing {
                set,
                draw,
                next,
                ..
            } => Some(NextExchange {
                operation: Operation::Refresh,
                set: *set,
                draw: *draw,
                exchange: *next,
            }),
            Stage::Stopping { next } => Some(NextExchange {
                operation: Operation::Stop,
                set: KeySet::Zero,
                draw: 0,
                exchange: *next,
            }),
            Stage::Idle | Stage::Up { .. } => None,
        }
    }

    /// The bytes of the key of this number, which is not acknowledged yet.
    pub fn key(&self, wire: u8) -> [u8; 32]
        requires { IsSome (kept_key (stage_keys self.now) wire) }
        ensures { result ≡ key_or_none (kept_key (stage_keys self.now) wire) }
    {
        match self {
            Stage::Establishing { keys, .. } | Stage::Refreshing { keys, .. } => {
                match keys.key(wire) {
                    Some(key) => *key.bytes(),
                    None => unreachable!(),
                }
            }
            _ => unreachable!(),
        }
    }

    /// The state after the exchange that is next was acknowledged, which is not the last.
    pub fn advanced(self, exchange: Exchange, wire: u8) -> Stage
        requires { next_in self < 24 }
        ensures op { op_of_stage result ≡ op_advanced (op_of_stage self) }
        ensures keys { stage_keys result ≡ wire_keys_after exchange wire (stage_keys self) }
    {
        match self {
            Stage::Establishing { draw, next, keys } => Stage::Establishing {
                draw,
                next: next + 1,
                keys: spent(keys, exchange, wire),
            },
            Stage::Refreshing {
                set,
                draw,
                next,
                keys,
            } => Stage::Refreshing {
                set,
                draw,
                next: next + 1,
                keys: spent(keys, exchange, wire),
            },
            Stage::Stopping { next } => Stage::Stopping { next: next + 1 },
            stage => stage,
        }
    }
}

// ---- what is seen of it

impl Stage {
    /// Its state without its keys.
    pub fn facts(&self) -> StageFacts
        ensures { op_seen result ≡ op_of_stage self.now }
    {
        match self {
            Stage::Idle => StageFacts::Idle,
            Stage::Establishing { draw, next, .. } => StageFacts::Establishing {
                draw: *draw,
                next: *next,
            },
            Stage::Up { set, draw } => StageFacts::Up {
                set: *set,
                draw: *draw,
            },
            Stage::Refreshing {
                set,
                draw,
                next,
                ..
            } => StageFacts::Refreshing {
                set: *set,
                draw: *draw,
                next: *next,
            },
            Stage::Stopping { next } => StageFacts::Stopping { next: *next },
        }
    }
}
