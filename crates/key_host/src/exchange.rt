//! The exchanges of the operations (this profile).

ghost use Rattle.std.specs.Prelude.{◌≡◌, ◌≤◌, ◌<◌, true, false};
ghost use Rattle.ide_types.specs.declared.key_set.KeySet.TheVariants.{Zero};
ghost use Rattle.event_verdicts.specs.declared.verdict.Operation.TheVariants.{Establish, Stop};
ghost use Rattle.spec_keys.specs.Operations.{last_exchange_of};
ghost use Rattle.key_host.specs.Exchanges.{selector_of, exchange_of, exchange_lane, end_of, wire_number};
ghost use Rattle.key_host.specs.Streams.{key_count};

use event_verdicts::Operation;
use ide_types::{KeySet, Side};

/// An exchange with one end of a line. A lane is one of six: the receivers of posted requests, non-posted requests and
/// completions at that end are lanes 0 to 2, its senders lanes 3 to 5.
#[derive(Clone, Copy, PartialEq, Eq)]
pub enum Exchange {
    Query,
    Program { set: KeySet, lane: u8 },
    Go { set: KeySet, lane: u8 },
    Stop { set: KeySet, lane: u8 },
}

/// The number of the operation's last exchange, on a line with a host's port at its near end or with none.
pub fn last(hosted: bool, operation: Operation) -> u8
    ensures { result ≡ last_exchange_of hosted operation }
{
    match (hosted, operation) {
        (true, Operation::Establish) => 13,
        (true, Operation::Refresh | Operation::Stop) => 12,
        (false, _) => 24,
    }
}

/// The selector of a slot at an end.
pub fn selector(set: KeySet, lane: u8) -> u8
    requires { lane < 6 }
    ensures { result ≡ selector_of set lane }
{
    set.number() + 2 * (lane / 3) + 16 * (lane % 3)
}

/// Exchange `n` of an operation that gives keys in this set, on a line with a host's port at its near end or with none.
pub fn exchange_at(hosted: bool, operation: Operation, set: KeySet, n: u8) -> Exchange
    requires first { 1 ≤ n }
    requires last { n ≤ last_exchange_of hosted operation }
    ensures exchange { result ≡ exchange_of hosted operation set n }
    ensures lane { exchange_lane result < 6 }
{
    if hosted {
        hosted_exchange(operation, set, n)
    } else {
        paired_exchange(operation, set, n)
    }
}

// With a host's port at the near end.
fn hosted_exchange(operation: Operation, set: KeySet, n: u8) -> Exchange
    requires first { 1 ≤ n }
    requires last { n ≤ last_exchange_of true operation }
    ensures exchange { result ≡ exchange_of true operation set n }
    ensures lane { exchange_lane result < 6 }
{
    match operation {
        Operation::Establish => {
            if n == 1 {
                Exchange::Query
            } else if n < 8 {
                Exchange::Program { set, lane: n - 2 }
            } else {
                Exchange::Go { set, lane: n - 8 }
            }
        }
        Operation::Refresh => {
            if n < 7 {
                Exchange::Program { set, lane: n - 1 }
            } else {
                Exchange::Go { set, lane: n - 7 }
            }
        }
        Operation::Stop => stopping_exchange(n),
    }
}

// The STOPs of an end, from 1 to 12.
fn stopping_exchange(n: u8) -> Exchange
    requires first { 1 ≤ n }
    requires last { n ≤ 12 }
    ensures exchange { result ≡ exchange_of true Stop Zero n }
    ensures lane { exchange_lane result < 6 }
{
    if n < 7 {
        Exchange::Stop {
            set: KeySet::Zero,
            lane: n - 1,
        }
    } else {
        Exchange::Stop {
            set: KeySet::One,
            lane: n - 7,
        }
    }
}

// If both ends are keyed by messages.
fn paired_exchange(operation: Operation, set: KeySet, n: u8) -> Exchange
    requires first { 1 ≤ n }
    requires last { n ≤ 24 }
    ensures exchange { result ≡ exchange_of false operation set n }
    ensures lane { exchange_lane result < 6 }
{
    match operation {
        Operation::Stop => {
            if n < 13 {
                stopping_exchange(n)
            } else {
                stopping_exchange(n - 12)
            }
        }
        Operation::Establish | Operation::Refresh => paired_keying(set, n),
    }
}

// The exchanges that give keys to both ends.
fn paired_keying(set: KeySet, n: u8) -> Exchange
    requires first { 1 ≤ n }
    requires last { n ≤ 24 }
    ensures exchange { result ≡ exchange_of false Establish set n }
    ensures lane { exchange_lane result < 6 }
{
    if n < 7 {
        Exchange::Program { set, lane: n - 1 }
    } else if n < 13 {
        Exchange::Program { set, lane: n - 7 }
    } else if n < 16 {
        Exchange::Go { set, lane: n - 13 }
    } else if n < 22 {
        Exchange::Go { set, lane: n - 16 }
    } else {
        Exchange::Go { set, lane: n - 19 }
    }
}

/// The end of the line that exchange `n` is carried to.
pub fn end_at(hosted: bool, operation: Operation, n: u8) -> Side
    ensures { result ≡ end_of hosted operation n }
{
    if hosted {
        return Side::Device;
    }
    match operation {
        Operation::Stop => { if n < 13 { Side::Host } else { Side::Device } }
        Operation::Establish | Operation::Refresh => keying_end(n),
    }
}

// Of an exchange that gives keys to both ends.
fn keying_end(n: u8) -> Side
    ensures { result ≡ end_of false Establish n }
{
    if n < 7 {
        Side::Host
    } else if n < 13 {
        Side::Device
    } else if n < 16 {
        Side::Host
    } else if n < 19 {
        Side::Device
    } else if n < 22 {
        Side::Host
    } else {
        Side::Device
    }
}

/// The number of a lane's key among those of a draw, in the order of their KEY_PROGs.
pub fn wire_number(hosted: bool, end: Side, lane: u8) -> u8
    requires { lane < 6 }
    ensures number { result ≡ wire_number hosted end lane }
    ensures count { result < key_count hosted }
{
    match (hosted, end) {
        (false, Side::Device) => 6 + lane,
        _ => lane,
    }
}

impl Exchange {
    ghost use Rattle.key_host.specs.Exchanges.{is_last_receiver_go};

    /// Its lane, 0 if it speaks of no slot.
    pub fn lane(self) -> u8
        ensures { result ≡ exchange_lane self }
    {
        match self {
            Exchange::Query => 0,
            Exchange::Program { lane, .. }
            | Exchange::Go { lane, .. }
            | Exchange::Stop { lane, .. } => lane,
        }
    }

    /// Whether it is the GO of the last of its end's three receivers.
    pub fn is_last_receiver_go(self) -> bool
        ensures { result ≡ is_last_receiver_go self }
    {
        match self {
            Exchange::Go { lane, .. } => lane == 2,
            _ => false,
        }
    }
}
