//! Facts of the exchanges that are left to an operation on a stream.

ghost use Rattle.std.specs.Prelude.{◌≡◌, ◌+◌, ◌*◌, ◌<◌, ◌≤◌, ◌++◌, [], IfOk, false, true};
ghost use Rattle.ide_types.specs.{is_hosted, key_set};
ghost use Rattle.key_slots.specs.{pool_key, six_keys};
ghost use Rattle.key_host.specs.Exchanges.{end_of, exchange_lane, exchange_of, key_or_none, kept_key, selector_of};
ghost use Rattle.key_host.specs.Exchanges.{wire_keys, wire_number};
ghost use Rattle.key_host.specs.Facts.{op_seen};
ghost use Rattle.event_verdicts.specs.declared.verdict.Operation.TheVariants.{Establish, Stop};
ghost use Rattle.ide_types.specs.declared.key_set.KeySet.TheVariants.{Zero};
ghost use Rattle.spec_keys.specs.Operations.{last_exchange_of, work_of};
ghost use Rattle.told_facts.specs.Asked.{asked_request, exchange_of_asked, asked_lane, asked_reply, pool_place};
ghost use Rattle.told_facts.specs.Asked.{program_bytes};
ghost use Rattle.told_facts.specs.Exchanges.{first_requester, key_exchange, key_exchanges, named_requester};

use crate::fact::{Answer, Fact, push};
use event_verdicts::Operation;
use ide_types::{Bytes, KeySet, OutOfMemory, Side, ValidPlan};
use key_host::StageFacts;
use std::alloc::Global;

/// What an exchange asks of an end of a line. A lane is one of six: the end's receivers of posted requests, non-posted
/// requests and completions, then its senders of the same.
#[derive(Clone, Copy)]
pub enum Asked {
    Query,
    Program { set: KeySet, lane: u8 },
    Go { set: KeySet, lane: u8 },
    Stop { set: KeySet, lane: u8 },
}

/// The exchanges that are left to an operation on a stream, from one on; `set` and `draw` are those of the keys that it
/// gives.
#[derive(Clone, Copy)]
pub struct ExchangesLeft {
    pub line: u8,
    pub stream: u8,
    pub operation: Operation,
    pub set: bool,
    pub draw: u32,
    pub first: u8,
}

/// The draw whose keys an operation gives, if `next` is the one that is made next.
pub fn key_draw(operation: Operation, stage: StageFacts, next: u32) -> u32
    ensures { result ≡ (work_of operation (op_seen stage) next).draw }
{
    match (operation, stage) {
        (Operation::Establish, StageFacts::Establishing { draw, .. }) => draw,
        (Operation::Refresh, StageFacts::Refreshing { draw, .. }) => draw,
        (Operation::Establish | Operation::Refresh, _) => next,
        (Operation::Stop, _) => 0,
    }
}

// ---- what is asked

// With a host's port at the near end.
fn hosted_asked(operation: Operation, set: KeySet, n: u8) -> Asked
    requires first { 1 ≤ n }
    requires last { n ≤ last_exchange_of true operation }
    ensures exchange { exchange_of_asked result ≡ exchange_of true operation set n }
    ensures lane { asked_lane result < 6 }
{
    match operation {
        Operation::Establish => {
            if n == 1 {
                Asked::Query
            } else if n < 8 {
                Asked::Program { set, lane: n - 2 }
            } else {
                Asked::Go { set, lane: n - 8 }
            }
        }
        Operation::Refresh => {
            if n < 7 {
                Asked::Program { set, lane: n - 1 }
            } else {
                Asked::Go { set, lane: n - 7 }
            }
        }
        Operation::Stop => stopping_asked(n),
    }
}

// The STOPs of an end, from 1 to 12.
fn stopping_asked(n: u8) -> Asked
    requires first { 1 ≤ n }
    requires last { n ≤ 12 }
    ensures exchange { exchange_of_asked result ≡ exchange_of true Stop Zero n }
    ensures lane { asked_lane result < 6 }
{
    if n < 7 {
        Asked::Stop {
            set: KeySet::Zero,
            lane: n - 1,
        }
    } else {
        Asked::Stop {
            set: KeySet::One,
            lane: n - 7,
        }
    }
}

// If both ends are keyed by messages.
fn paired_asked(operation: Operation, set: KeySet, n: u8) -> Asked
    requires first { 1 ≤ n }
    requires last { n ≤ 24 }
    ensures exchange { exchange_of_asked result ≡ exchange_of false operation set n }
    ensures lane { asked_lane result < 6 }
{
    match operation {
        Operation::Stop => {
            if n < 13 {
                stopping_asked(n)
            } else {
                stopping_asked(n - 12)
            }
        }
        Operation::Establish | Operation::Refresh => paired_keying(set, n),
    }
}

// The exchanges that give keys to both ends.
fn paired_keying(set: KeySet, n: u8) -> Asked
    requires first { 1 ≤ n }
    requires last { n ≤ 24 }
    ensures exchange { exchange_of_asked result ≡ exchange_of false Establish set n }
    ensures lane { asked_lane result < 6 }
{
    if n < 7 {
        Asked::Program { set, lane: n - 1 }
    } else if n < 13 {
        Asked::Program { set, lane: n - 7 }
    } else if n < 16 {
        Asked::Go { set, lane: n - 13 }
    } else if n < 22 {
        Asked::Go { set, lane: n - 16 }
    } else {
        Asked::Go { set, lane: n - 19 }
    }
}

// What exchange n asks of an operation that gives keys in this set.
fn asked_at(hosted: bool, operation: Operation, set: KeySet, n: u8) -> Asked
    requires first { 1 ≤ n }
    requires last { n ≤ last_exchange_of hosted operation }
    ensures exchange { exchange_of_asked result ≡ exchange_of hosted operation set n }
    ensures lane { asked_lane result < 6 }
{
    if hosted {
        hosted_asked(operation, set, n)
    } else {
        paired_asked(operation, set, n)
    }
}

fn keying_end(n: u8) -> Side
    ensures { result ≡ end_of false Establish n }
{
    if n < 7 {
        Side::Host
    } else if n < 13 {
        Side::Device
    } else if n < 16 {
        Side::Host
    } else if n < 19 {
        Side::Device
    } else if n < 22 {
        Side::Host
    } else {
        Side::Device
    }
}

// The end of the line that exchange n is carried to.
fn end_at(hosted: bool, operation: Operation, n: u8) -> Side
    ensures { result ≡ end_of hosted operation n }
{
    if hosted {
        return Side::Device;
    }
    match operation {
        Operation::Stop => { if n < 13 { Side::Host } else { Side::Device } }
        Operation::Establish | Operation::Refresh => keying_end(n),
    }
}

fn lane(asked: Asked) -> u8
    ensures { result ≡ asked_lane asked }
{
    match asked {
        Asked::Query => 0,
        Asked::Program { lane, .. } | Asked::Go { lane, .. } | Asked::Stop { lane, .. } => lane,
    }
}

// ---- keys

// The place of a lane's key among the six of a draw: a near end that is keyed by messages receives direction 1 and
// sends direction 0.
fn pool_place(hosted: bool, end: Side, lane: u8) -> u8
    requires { lane < 6 }
    ensures { result ≡ pool_place hosted end lane }
{
    match (hosted, end) {
        (false, Side::Host) => { if lane < 3 { lane + 3 } else { lane - 3 } }
        _ => lane,
    }
}

// The key of a draw at a place, no bytes if the pool has none.
fn pool_key(pool: &[[u8; 32]], draw: u32, place: u8) -> &[u8]
    ensures { result.now ≡ pool_key pool.now draw place }
{
    match pool.get(6 * draw as usize + place as usize) {
        Some(key) => key.as_slice(),
        None => &[],
    }
}

// ---- bytes

fn selector(set: KeySet, lane: u8) -> u8
    requires { lane < 6 }
    ensures { result ≡ selector_of set lane }
{
    set.number() + 2 * (lane / 3) + 16 * (lane % 3)
}

// A KEY_PROG of a key, with the initial counter 1.
fn program(alloc: Global, stream: u8, selector: u8, key: &[u8]) -> Result<Vec<u8>, OutOfMemory>
    ensures { IfOk result (λ b. b.items ≡ program_bytes stream selector key.now) }
{
    let mut bytes = Vec::from_slice(alloc, &[0, 2, 0, 0, stream, 0, selector, 0])?;
    bytes.extend_from_slice(key)?;
    bytes.extend_from_slice(&[1, 0, 0, 0, 0, 0, 0, 0])?;
    Ok(bytes)
}

// The request.
fn asked_request(
    alloc: Global,
    stream: u8,
    key: &[u8],
    asked: Asked,
) -> Result<Vec<u8>, OutOfMemory>
    requires { asked_lane asked < 6 }
    ensures { IfOk result (λ b. b.items ≡ asked_request stream key.now asked) }
{
    match asked {
        Asked::Query => Ok(Vec::from_slice(alloc, &[0, 0, 0, 0])?),
        Asked::Program { set, lane } => program(alloc, stream, selector(set, lane), key),
        Asked::Go { set, lane } => {
            let selector = selector(set, lane);
            Ok(Vec::from_slice(alloc, &[0, 4, 0, 0, stream, 0, selector, 0])?)
        }
        Asked::Stop { set, lane } => {
            let selector = selector(set, lane);
            Ok(Vec::from_slice(alloc, &[0, 5, 0, 0, stream, 0, selector, 0])?)
        }
    }
}

// The reply of an end that gives this requester ID, if it takes the call, or refuses it.
fn reply_bytes(
    alloc: Global,
    requester: u16,
    stream: u8,
    asked: Asked,
    done: bool,
) -> Result<Vec<u8>, OutOfMemory>
    requires { asked_lane asked < 6 }
    ensures { IfOk result (λ b. b.items ≡ asked_reply requester stream asked done) }
{
    match asked {
        Asked::Query => {
            let [bus, device_function] = requester.to_be_bytes();
            Ok(Vec::from_slice(alloc, &[0, 1, 0, 0, device_function, bus, 0, 0])?)
        }
        Asked::Program { set, lane } => {
            let selector = selector(set, lane);
            let status = if done { 0 } else { 3 };
            Ok(Vec::from_slice(alloc, &[0, 3, 0, 0, stream, status, selector, 0])?)
        }
        Asked::Go { set, lane } | Asked::Stop { set, lane } => {
            if !done {
                return Ok(Vec::new(alloc));
            }
            let selector = selector(set, lane);
            Ok(Vec::from_slice(alloc, &[0, 6, 0, 0, stream, 0, selector, 0])?)
        }
    }
}

// ---- facts

// The requester ID that the end of a line gives.
fn named_requester(plan: &ValidPlan, line: u8) -> u16
    ensures { result ≡ named_requester plan.now line }
{
    match plan.plan().links.as_slice().get(line as usize) {
        None => 0,
        Some(link) => match link.interfaces.as_slice().first() {
            None => 0,
            Some(interface) => interface.requester,
        },
    }
}

// An exchange of keys.
fn key_exchange(
    alloc: Global,
    plan: &ValidPlan,
    left: ExchangesLeft,
    n: u8,
) -> Result<Fact, OutOfMemory>
    requires first { 1 ≤ n }
    requires last { n ≤ last_exchange_of (is_hosted left.line) left.operation }
    ensures { IfOk result (λ x. x ≡ key_exchange plan.now left.line left.stream left.operation left.set left.draw n) }
{
    let hosted = left.line < 16;
    let asked = asked_at(hosted, left.operation, KeySet::of_bit(left.set), n);
    let end = end_at(hosted, left.operation, n);
    let place = pool_place(hosted, end, lane(asked));
    let key = pool_key(plan.plan().pool.as_slice(), left.draw, place);
    let requester = named_requester(plan, left.line);
    let request = asked_request(alloc, left.stream, key, asked)?;
    let done = reply_bytes(alloc, requester, left.stream, asked, true)?;
    let refused = reply_bytes(alloc, requester, left.stream, asked, false)?;
    Ok(Fact::Exchange {
        exchange: u64::from(n),
        request: Bytes::new(request),
        answer: Answer::Known {
            done: Bytes::new(done),
            refused: Bytes::new(refused),
        },
    })
}

// The number of the last exchange.
fn last_number(left: ExchangesLeft) -> u8
    ensures number { result ≡ last_exchange_of (is_hosted left.line) left.operation }
    ensures most { result ≤ 24 }
{
    match left.operation {
        _ if left.line >= 16 => 24,
        Operation::Establish => 13,
        Operation::Refresh | Operation::Stop => 12,
    }
}

/// Appends the exchanges that are left to an operation on a stream.
pub fn push_key_exchanges(
    alloc: Global,
    facts: &mut Vec<Fact>,
    plan: &ValidPlan,
    left: ExchangesLeft,
) -> Result<(), OutOfMemory>
    ensures { IfOk result (λ _. facts.new.items ≡ facts.old.items ++ key_exchanges plan.now left.line left.stream
        left.operation left.set left.draw left.first) }
{
    for past in left.first.saturating_sub(1)..last_number(left) {
        push(facts, key_exchange(alloc, plan, left, past + 1)?)?;
    }
    Ok(())
}
