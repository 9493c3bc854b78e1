//! How a reply is judged (this profile).

ghost use Rattle.std.specs.Prelude.{◌≡◌, ◌+◌, ◌≤◌, length};
ghost use Rattle.tdisp_codec.specs.Replies.{reply_shown, reply_answer, reply_reading};
ghost use Rattle.interface_host.specs.Judging.{answer_shown, if_same, error_judged, is_portion, if_portion};
ghost use Rattle.interface_host.specs.Judging.{portion_in_reply};
ghost use Rattle.interface_host.specs.Judging.{step_judged, interface_reply_judged, interface_judged, HasRoom};

use crate::step::Step;
use key_host::ExchangeReply;
use tdisp_codec::{ReplyView, reply_read};

/// What was carried in answer to a request: the expected reply with its value, a refusal with its code, nothing at all,
/// or anything else.
#[derive(Clone, Copy, PartialEq, Eq)]
pub(crate) enum Answer<'a> {
    Passed,
    Nonce([u8; 32]),
    Portion { bytes: &'a [u8], remainder: u16 },
    State(u8),
    Refused(u32),
    Lost,
    Bad,
}

// The answer of a reply that gives back the function ID, and of no other.
fn if_same<'a>(function: u32, back: u32, answer: Answer<'a>) -> Answer<'a>
    ensures { answer_shown result ≡ if_same function back (answer_shown answer.entry) }
{
    if back == function {
        answer
    } else {
        Answer::Bad
    }
}

fn refusal<'a>(reply: ReplyView<'a>) -> Answer<'a>
    ensures { answer_shown result ≡ error_judged (reply_shown reply.entry) }
{
    match reply {
        ReplyView::Error { code, .. } => Answer::Refused(code),
        _ => Answer::Bad,
    }
}

// Whether a portion has 1 to the asked number of bytes and makes at most 1,140 bytes with what was read before and what
// follows it.
fn is_portion(asked: u16, read: usize, size: usize, remainder: u16) -> bool
    requires read { read ≤ 1140 }
    ensures { result ≡ is_portion asked read size remainder }
{
    (1 <= size && size <= usize::from(asked)) && read + size + usize::from(remainder) <= 1_140
}

fn if_portion<'a>(fits: bool, bytes: &'a [u8], remainder: u16) -> Answer<'a>
    ensures { answer_shown result ≡ if_portion fits bytes.now remainder }
{
    if fits {
        Answer::Portion { bytes, remainder }
    } else {
        Answer::Bad
    }
}

fn portion<'a>(asked: u16, read: usize, function: u32, reply: ReplyView<'a>) -> Answer<'a>
    requires { read ≤ 1140 }
    ensures { answer_shown result ≡ portion_in_reply asked read function (reply_shown reply.entry) }
{
    match reply {
        ReplyView::DeviceInterfaceReport {
            function: back,
            remainder,
            portion,
        } => {
            let fits = is_portion(asked, read, portion.len(), remainder);
            if_same(function, back, if_portion(fits, portion, remainder))
        }
        _ => refusal(reply),
    }
}

fn of_step<'a>(
    step: Step,
    function: u32,
    asked: u16,
    read: usize,
    reply: ReplyView<'a>,
) -> Answer<'a>
    requires { read ≤ 1140 }
    ensures { answer_shown result ≡ step_judged step function asked read (reply_shown reply.entry) }
{
    match (step, reply) {
        (Step::Version, ReplyView::Version { function: back, .. })
        | (Step::Capabilities, ReplyView::Capabilities { function: back, .. })
        | (Step::Start, ReplyView::StartInterface { function: back })
        | (Step::Halt, ReplyView::StopInterface { function: back })
        | (Step::Bind(_), ReplyView::BindP2p { function: back })
        | (Step::Unbind(_), ReplyView::UnbindP2p { function: back }) => {
            if_same(function, back, Answer::Passed)
        }
        (
            Step::Lock,
            ReplyView::LockInterface {
                function: back,
                nonce,
            },
        ) => { if_same(function, back, Answer::Nonce(nonce)) }
        (Step::Report, reply) => portion(asked, read, function, reply),
        (
            Step::State,
            ReplyView::DeviceInterfaceState {
                function: back,
                state,
            },
        ) => { if_same(function, back, Answer::State(state)) }
        (_, reply) => refusal(reply),
    }
}

fn of_bytes<'a>(step: Step, function: u32, asked: u16, read: usize, bytes: &'a [u8]) -> Answer<'a>
    requires { read ≤ 1140 }
    ensures { answer_shown result ≡ interface_reply_judged step function asked read (reply_reading bytes.now) }
{
    match reply_read(bytes) {
        Ok(reply) => of_step(step, function, asked, read, reply),
        Err(_) => Answer::Bad,
    }
}

/// Judges what was carried in answer to a request of this exchange with the interface of this function ID: `asked` is
/// the number of bytes that were asked for of a report, `read` how many were read before.
pub(crate) fn judge<'a>(
    step: Step,
    function: u32,
    asked: u16,
    read: usize,
    carried: ExchangeReply<'a>,
) -> Answer<'a>
    requires { read ≤ 1140 }
    ensures answer { answer_shown result ≡ interface_judged step function asked read carried.entry }
    ensures room { HasRoom read (answer_shown result) }
{
    match carried {
        ExchangeReply::Lost => Answer::Lost,
        ExchangeReply::Reply(None) => Answer::Bad,
        ExchangeReply::Reply(Some(bytes)) => of_bytes(step, function, asked, read, bytes),
    }
}
