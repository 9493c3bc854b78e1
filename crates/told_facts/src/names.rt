//! The words of facts.

ghost use Rattle.std.specs.Prelude.{Some, ◌≡◌};
ghost use Rattle.told_facts.specs.Words.{set_word, manager_word, stream_fact_word, operation_fact_word};
ghost use Rattle.told_facts.specs.Words.{interface_fact_word, fact_word, way_word};

use crate::fact::{Fact, InterfaceFact, ManagerState, OperationFact, SetState, StreamFact};
use std::fmt;

impl fmt::Display for SetState {
    ghost output = { λ s. Some (set_word s) };

    fn fmt<W: fmt::Write>(&self, f: &mut fmt::Formatter<W>) -> fmt::Result {
        match self {
            SetState::Empty => f.write_str("none"),
            SetState::Kept { draw } => write!(f, "kept draw {draw}"),
            SetState::Waits { draw } => write!(f, "waits draw {draw}"),
            SetState::On {
                draw,
                units,
                packets,
            } => {
                let unit = u128::from(*units) + 1;
                write!(f, "on draw {draw} unit {unit} packets {packets}")
            }
        }
    }
}

impl fmt::Display for ManagerState {
    ghost output = { λ s. Some (manager_word s) };

    fn fmt<W: fmt::Write>(&self, f: &mut fmt::Formatter<W>) -> fmt::Result {
        match self {
            ManagerState::Idle => f.write_str("idle"),
            ManagerState::Establishing { draw, next } => {
                write!(f, "establishing draw {draw} next {next}")
            }
            ManagerState::Up { set, draw } => {
                let set = u8::from(*set);
                write!(f, "up set {set} draw {draw}")
            }
            ManagerState::Refreshing { set, draw, next } => {
                let set = u8::from(*set);
                write!(f, "refreshing set {set} draw {draw} next {next}")
            }
            ManagerState::Stopping { next } => write!(f, "stopping next {next}"),
        }
    }
}

impl fmt::Display for StreamFact {
    ghost output = { λ x. Some (stream_fact_word x) };

    fn fmt<W: fmt::Write>(&self, f: &mut fmt::Formatter<W>) -> fmt::Result {
        match self {
            StreamFact::At { port } => write!(f, "at {port}"),
            StreamFact::Packets { packets } => write!(f, "packets {packets}"),
            StreamFact::Arrives {
                port,
                stream,
                sub,
                k,
            } => {
                let k = u8::from(*k);
                write!(f, "arrives {port} {stream} {sub} k{k}")
            }
            StreamFact::Sends { port, stream, sub } => write!(f, "sends {port} {stream} {sub}"),
            StreamFact::State { status } => write!(f, "stream {status}"),
            StreamFact::Posted { sub, posted } => write!(f, "posted {sub} {posted}"),
            StreamFact::Set { set, state } => {
                let set = u8::from(*set);
                write!(f, "set {set} {state}")
            }
            StreamFact::Counts { sum, posted } => write!(f, "counts {sum} of {posted}"),
            StreamFact::Adds { posted } => write!(f, "adds {posted}"),
            StreamFact::Total { units } => write!(f, "total {units}"),
        }
    }
}

// Which way a place goes.
fn way(sends: bool) -> &'static str
    ensures { result.now ≡ way_word sends }
{
    if sends { "sends" } else { "receives" }
}

impl fmt::Display for OperationFact {
    ghost output = { λ x. Some (operation_fact_word x) };

    fn fmt<W: fmt::Write>(&self, f: &mut fmt::Formatter<W>) -> fmt::Result {
        match self {
            OperationFact::Manager { state } => write!(f, "manager {state}"),
            OperationFact::Draws { made, pool } => write!(f, "draws {made} of {pool}"),
            OperationFact::Exchanges { first, last } => write!(f, "exchanges {first} to {last}"),
            OperationFact::Refuses {
                exchange,
                port,
                sends,
                sub,
            } => {
                let way = way(*sends);
                write!(f, "refuses {exchange} {port} {way} {sub}")
            }
            OperationFact::Open { sub } => write!(f, "open {sub}"),
            OperationFact::Clears {
                port,
                stream,
                status,
            } => write!(f, "clears {port} {stream} {status}"),
        }
    }
}

impl fmt::Display for InterfaceFact {
    ghost output = { λ x. Some (interface_fact_word x) };

    fn fmt<W: fmt::Write>(&self, f: &mut fmt::Formatter<W>) -> fmt::Result {
        match self {
            InterfaceFact::Interface { interface, state } => {
                write!(f, "interface {interface} state {state}")
            }
            InterfaceFact::View { view } => write!(f, "view {view}"),
            InterfaceFact::Reported { reported } => {
                let reported = u8::from(*reported);
                write!(f, "reported {reported}")
            }
            InterfaceFact::Started { started } => {
                let started = u8::from(*started);
                write!(f, "started {started}")
            }
            InterfaceFact::Bound { stream, floor } => write!(f, "bound {stream} floor {floor}"),
            InterfaceFact::Needs { needs } => write!(f, "needs {needs}"),
            InterfaceFact::Draw { draw } => write!(f, "draw {draw}"),
            InterfaceFact::Packet { place, t } => {
                let t = u8::from(*t);
                write!(f, "packet {place} t{t}")
            }
            InterfaceFact::Bytes { address, count } => write!(f, "bytes {address} {count}"),
            InterfaceFact::Region { base, size } => write!(f, "region {base} {size}"),
            InterfaceFact::Bar {
                bar,
                base,
                pages,
                is_open,
            } => {
                let is_open = u8::from(*is_open);
                write!(f, "bar {bar} base {base} pages {pages} open {is_open}")
            }
            InterfaceFact::Takes { stream, floor } => write!(f, "takes {stream} floor {floor}"),
            InterfaceFact::Live { draw } => write!(f, "live {draw}"),
            InterfaceFact::Waiting { waiting } => write!(f, "waiting {waiting}"),
            InterfaceFact::Read { draw } => write!(f, "read draw {draw}"),
            InterfaceFact::Asks { interface, bar, t } => {
                let t = u8::from(*t);
                write!(f, "asks {interface} bar {bar} t{t}")
            }
        }
    }
}

impl fmt::Display for Fact {
    ghost output = { λ x. Some (fact_word x) };

    fn fmt<W: fmt::Write>(&self, f: &mut fmt::Formatter<W>) -> fmt::Result {
        match self {
            Fact::Stream { fact } => write!(f, "{fact}"),
            Fact::Operation { fact } => write!(f, "{fact}"),
            Fact::Interface { fact } => write!(f, "{fact}"),
            Fact::Exchange { exchange, .. } => write!(f, "exchange {exchange}"),
        }
    }
}
