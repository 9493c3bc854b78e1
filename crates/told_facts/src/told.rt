//! What the verdict tells of the exchanges of an operation.

ghost use Rattle.std.specs.Prelude.{◌≡◌, ◌++◌, [], IfOk, OnOk, string_bytes};
ghost use Rattle.std.specs.Prelude.{codes};
ghost use Rattle.tdisp_codec.specs.Replies.{LockInterface, reply_shown, reply_spelling};
ghost use Rattle.interface_ends.specs.Replies.{IsShortReply, refused_reply};
ghost use Rattle.told_facts.specs.Told.{answered_reply, exchange_lines, fate_by, fate_of, interface_fate, lost_line};
ghost use Rattle.told_facts.specs.Told.{refusing_reply, reply_line, reply_shown_by, request_line, shown_reply};

use crate::fact::Answer;
use event_verdicts::Verdict;
use ide_types::InterfaceVerdict;
use std::alloc::{AllocError, Global};
use tdisp_codec::{ReplyView, reply_write};

/// The room that a reply of an interface needs, in bytes.
const REPLY_ROOM: usize = 1_200;

/// What became of an exchange (this profile).
#[derive(Clone, Copy, PartialEq, Eq)]
pub enum Fate {
    /// The operation did not come so far.
    NotCome,
    /// Its request was lost.
    RequestLost,
    /// Its reply was lost.
    ReplyLost,
    /// The end that was asked refused it with this code.
    Refused(u32),
    /// It was answered.
    Answered,
}

// Of exchange n of an operation that ended at the exchange `last`.
fn fate_by(n: u64, last: u32, ended: Fate) -> Fate
    ensures { result ≡ fate_by n last ended }
{
    let last = u64::from(last);
    if n == last {
        ended
    } else if n < last {
        Fate::Answered
    } else {
        Fate::NotCome
    }
}

fn interface_fate(verdict: &InterfaceVerdict) -> Fate
    ensures { result ≡ interface_fate verdict.now }
{
    match verdict {
        InterfaceVerdict::RefusedWrongState { .. }
        | InterfaceVerdict::RefusedNotReported
        | InterfaceVerdict::RefusedRefreshFirst { .. } => Fate::NotCome,
        InterfaceVerdict::Locked { .. }
        | InterfaceVerdict::Reported { .. }
        | InterfaceVerdict::Started { .. }
        | InterfaceVerdict::Halted { .. }
        | InterfaceVerdict::Bound { .. }
        | InterfaceVerdict::Unbound { .. }
        | InterfaceVerdict::State { .. }
        | InterfaceVerdict::View { .. }
        | InterfaceVerdict::Written { .. }
        | InterfaceVerdict::Flr { .. }
        | InterfaceVerdict::Firmware { .. }
        | InterfaceVerdict::Memory { .. } => Fate::Answered,
    }
}

// Of exchange n of an event with this verdict.
fn fate_of(verdict: &Verdict, n: u64) -> Fate
    ensures { result ≡ fate_of verdict.now n }
{
    match verdict {
        Verdict::LostRequest { exchange } => fate_by(n, *exchange, Fate::RequestLost),
        Verdict::LostReply { exchange } => fate_by(n, *exchange, Fate::ReplyLost),
        Verdict::RefusedDevice { exchange, code } => fate_by(n, *exchange, Fate::Refused(*code)),
        Verdict::Established { .. } | Verdict::Refreshed { .. } | Verdict::Stopped { .. } => {
            Fate::Answered
        }
        Verdict::Interface { verdict } => interface_fate(verdict),
        _ => Fate::NotCome,
    }
}

// ---- replies

// The bytes of a reply.
fn written(alloc: Global, reply: &ReplyView<'_>) -> Result<Vec<u8>, AllocError>
    requires { IsShortReply (reply_shown reply.now) }
    ensures { IfOk result (λ bytes. bytes.items ≡ reply_spelling (reply_shown reply.now)) }
{
    let mut bytes = Vec::with_capacity(alloc, REPLY_ROOM)?;
    reply_write(reply, &mut bytes);
    Ok(bytes)
}

// That of an accepted lock.
fn locked(alloc: Global, function: u32, nonce: [u8; 32]) -> Result<Vec<u8>, AllocError>
    ensures { IfOk result (λ bytes. bytes.items ≡ reply_spelling (LockInterface function nonce)) }
{
    written(alloc, &ReplyView::LockInterface { function, nonce })
}

// That of an interface which the verdict shows.
fn shown_reply(
    alloc: Global,
    function: u32,
    verdict: &InterfaceVerdict,
) -> Result<Vec<u8>, AllocError>
    ensures { IfOk result (λ bytes. bytes.items ≡ shown_reply function verdict.now) }
{
    match verdict {
        InterfaceVerdict::Locked { nonce, .. } => locked(alloc, function, *nonce),
        InterfaceVerdict::Started { .. } => written(alloc, &ReplyView::StartInterface { function }),
        InterfaceVerdict::Halted { .. } => written(alloc, &ReplyView::StopInterface { function }),
        InterfaceVerdict::State { state, .. } => {
            let state = *state;
            written(alloc, &ReplyView::DeviceInterfaceState { function, state })
        }
        InterfaceVerdict::Bound { .. } => written(alloc, &ReplyView::BindP2p { function }),
        InterfaceVerdict::Unbound { .. } => written(alloc, &ReplyView::UnbindP2p { function }),
        InterfaceVerdict::Reported { .. }
        | InterfaceVerdict::View { .. }
        | InterfaceVerdict::Written { .. }
        | InterfaceVerdict::Flr { .. }
        | InterfaceVerdict::Firmware { .. }
        | InterfaceVerdict::Memory { .. }
        | InterfaceVerdict::RefusedWrongState { .. }
        | InterfaceVerdict::RefusedNotReported
        | InterfaceVerdict::RefusedRefreshFirst { .. } => Ok(Vec::new(alloc)),
    }
}

fn reply_shown_by(alloc: Global, function: u32, verdict: &Verdict) -> Result<Vec<u8>, AllocError>
    ensures { IfOk result (λ bytes. bytes.items ≡ reply_shown_by function verdict.now) }
{
    match verdict {
        Verdict::Interface { verdict } => shown_reply(alloc, function, verdict),
        _ => Ok(Vec::new(alloc)),
    }
}

// ---- lines

fn push_request_line(
    alloc: Global,
    text: &mut String,
    n: u64,
    bytes: &[u8],
) -> Result<(), AllocError>
    ensures { OnOk result (string_bytes text.new ≡ string_bytes text.old ++ request_line n bytes.now) }
{
    if bytes.is_empty() {
        return Ok(());
    }
    let bytes = hex::encode(alloc, bytes)?;
    write!(text, " exchange {n} request {bytes}\n")
}

fn push_reply_line(alloc: Global, text: &mut String, n: u64, bytes: &[u8]) -> Result<(), AllocError>
    ensures { OnOk result (string_bytes text.new ≡ string_bytes text.old ++ reply_line n bytes.now) }
{
    let bytes = hex::encode(alloc, bytes)?;
    write!(text, " exchange {n} reply {bytes}\n")
}

fn push_lost_request(text: &mut String, n: u64) -> Result<(), AllocError>
    ensures { OnOk result (string_bytes text.new ≡ string_bytes text.old ++ lost_line n (codes "request")) }
{
    write!(text, " exchange {n} lost request\n")
}

fn push_lost_reply(text: &mut String, n: u64) -> Result<(), AllocError>
    ensures { OnOk result (string_bytes text.new ≡ string_bytes text.old ++ lost_line n (codes "reply")) }
{
    write!(text, " exchange {n} lost reply\n")
}

// The reply of an exchange that was answered.
fn push_answered(
    alloc: Global,
    text: &mut String,
    verdict: &Verdict,
    n: u64,
    answer: &Answer,
) -> Result<(), AllocError>
    ensures { OnOk result (string_bytes text.new ≡ string_bytes text.old
        ++ reply_line n (answered_reply verdict.now answer.now)) }
{
    match answer {
        Answer::Known { done, .. } => push_reply_line(alloc, text, n, done.as_slice()),
        Answer::Shown { function } => {
            let reply = reply_shown_by(alloc, *function, verdict)?;
            push_reply_line(alloc, text, n, &reply)
        }
    }
}

// The reply of an exchange that was refused.
fn push_refusing(
    alloc: Global,
    text: &mut String,
    code: u32,
    n: u64,
    answer: &Answer,
) -> Result<(), AllocError>
    ensures { OnOk result (string_bytes text.new ≡ string_bytes text.old
        ++ reply_line n (refusing_reply code answer.now)) }
{
    match answer {
        Answer::Known { refused, .. } => push_reply_line(alloc, text, n, refused.as_slice()),
        Answer::Shown { function } => {
            let function = *function;
            let value = 0;
            let reply = written(
                alloc,
                &ReplyView::Error {
                    function,
                    code,
                    value,
                },
            )?;
            push_reply_line(alloc, text, n, &reply)
        }
    }
}

/// Appends the lines of an exchange, as far as the verdict says that it came.
pub fn push_exchange(
    alloc: Global,
    text: &mut String,
    verdict: &Verdict,
    n: u64,
    request: &[u8],
    answer: &Answer,
) -> Result<(), AllocError>
    ensures { OnOk result (string_bytes text.new ≡ string_bytes text.old
        ++ exchange_lines verdict.now n request.now answer.now (fate_of verdict.now n)) }
{
    match fate_of(verdict, n) {
        Fate::NotCome => Ok(()),
        Fate::RequestLost => push_lost_request(text, n),
        Fate::ReplyLost => {
            push_request_line(alloc, text, n, request)?;
            push_lost_reply(text, n)
        }
        Fate::Refused(code) => {
            push_request_line(alloc, text, n, request)?;
            push_refusing(alloc, text, code, n, answer)
        }
        Fate::Answered => {
            push_request_line(alloc, text, n, request)?;
            push_answered(alloc, text, verdict, n, answer)
        }
    }
}
