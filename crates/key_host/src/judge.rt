//! How a reply is judged (this profile).

ghost use Rattle.std.specs.Prelude.{◌≡◌};
ghost use Rattle.key_host.specs.Judging.{is_description, is_key_acknowledgement, is_acknowledgement, is_expected};
ghost use Rattle.key_host.specs.Judging.{judged_refusal, judged_reply, judged_exchange};
ghost use Rattle.key_messages.specs.{object_reading};

use crate::operation::ExchangeReply;
use key_messages::{KmView, km_read};

/// What was carried in answer to a request: the expected reply, nothing at all, a refusal with its code, or anything
/// else.
#[derive(Clone, Copy, PartialEq, Eq)]
pub enum Judged {
    Expected,
    Lost,
    Refused(u8),
    Bad,
}

fn is_description(reply: KmView, port: u8) -> bool
    ensures { result ≡ is_description port reply }
{
    match reply {
        KmView::QueryResp { port: back, .. } => back == port,
        _ => false,
    }
}

fn is_key_acknowledgement(reply: KmView, stream: u8, selector: u8, port: u8) -> bool
    ensures { result ≡ is_key_acknowledgement stream selector port reply }
{
    match reply {
        KmView::KpAck {
            stream: s,
            status,
            selector: x,
            port: p,
        } => ((s == stream && x == selector) && p == port) && status == 0,
        _ => false,
    }
}

fn is_acknowledgement(reply: KmView, stream: u8, selector: u8, port: u8) -> bool
    ensures { result ≡ is_acknowledgement stream selector port reply }
{
    match reply {
        KmView::GoStopAck {
            stream: s,
            selector: x,
            port: p,
        } => (s == stream && x == selector) && p == port,
        _ => false,
    }
}

/// Whether the reply is paired with the request and gives back what it carries.
fn is_expected(request: KmView, reply: KmView) -> bool
    ensures { result ≡ is_expected request reply }
{
    match request {
        KmView::Query { port } => is_description(reply, port),
        KmView::KeyProg {
            stream,
            selector,
            port,
            ..
        } => is_key_acknowledgement(reply, stream, selector, port),
        KmView::SetGo {
            stream,
            selector,
            port,
        } => is_acknowledgement(reply, stream, selector, port),
        KmView::SetStop {
            stream,
            selector,
            port,
        } => is_acknowledgement(reply, stream, selector, port),
        _ => false,
    }
}

fn refusal(reply: KmView) -> Judged
    ensures { result ≡ judged_refusal reply }
{
    match reply {
        KmView::KpAck { status, .. } => {
            if status == 0 {
                Judged::Bad
            } else {
                Judged::Refused(status)
            }
        }
        _ => Judged::Bad,
    }
}

fn reply(request: KmView, bytes: &[u8]) -> Judged
    ensures { result ≡ judged_reply request (object_reading bytes.now) }
{
    match km_read(bytes) {
        Err(_) => Judged::Bad,
        Ok(reply) => {
            if is_expected(request, reply) {
                Judged::Expected
            } else {
                refusal(reply)
            }
        }
    }
}

/// Judges what was carried in answer to a request.
pub fn judge(request: KmView, carried: ExchangeReply) -> Judged
    ensures { result ≡ judged_exchange request carried.entry }
{
    match carried {
        ExchangeReply::Lost => Judged::Lost,
        ExchangeReply::Reply(None) => Judged::Bad,
        ExchangeReply::Reply(Some(bytes)) => reply(request, bytes),
    }
}
