//! Replies, and how they are written.

ghost use Rattle.std.specs.Prelude.{◌≡◌, ◌+◌, ◌≤◌, ◌++◌, length, vec_len, vec_capacity, IfOk};
ghost use Rattle.tdisp_codec.specs.Replies.{reply_shown, reply_spelling};
ghost use Rattle.interface_state.specs.Kept.{IsShortReport};
ghost use Rattle.interface_state.specs.Machine.{portion_shown};
ghost use Rattle.interface_ends.specs.Replies.{refused_reply, lock_reply, portion_reply, start_reply, version_reply};
ghost use Rattle.interface_ends.specs.Replies.{capabilities_reply, bind_reply, unbind_reply, IsShortReply};

use tdisp_codec::{ReplyView, reply_write};

/// The versions that are spoken: 1.0 alone.
const VERSIONS: [u8; 1] = [0x10];

/// Requests 0x81 to 0x89.
const REQUESTS: [u8; 16] = [0xfe, 0x03, 0, 0, 0, 0, 0, 0, 0, 0, 0, 0, 0, 0, 0, 0];

pub(crate) fn refused<'a>(function: u32, code: u32) -> ReplyView<'a>
    ensures reply { reply_shown result ≡ refused_reply function code }
    ensures short { IsShortReply (reply_shown result) }
{
    ReplyView::Error {
        function,
        code,
        value: 0,
    }
}

pub(crate) fn capabilities<'a>(function: u32) -> ReplyView<'a>
    ensures reply { reply_shown result ≡ capabilities_reply function }
    ensures short { IsShortReply (reply_shown result) }
{
    ReplyView::Capabilities {
        function,
        device: 0,
        requests: REQUESTS,
        lock_flags: 0x001f,
        width: 64,
        num_req_this: 1,
        num_req_all: 1,
    }
}

pub(crate) fn locked<'a>(function: u32, answer: Result<[u8; 32], u32>) -> ReplyView<'a>
    ensures reply { reply_shown result ≡ lock_reply function answer }
    ensures short { IsShortReply (reply_shown result) }
{
    match answer {
        Ok(nonce) => ReplyView::LockInterface { function, nonce },
        Err(code) => refused(function, code),
    }
}

pub(crate) fn reported<'a>(function: u32, answer: Result<(&'a [u8], u16), u32>) -> ReplyView<'a>
    requires { IfOk answer (λ portion. IsShortReport portion.0.now) }
    ensures reply { reply_shown result ≡ portion_reply function (portion_shown answer.entry) }
    ensures short { IsShortReply (reply_shown result) }
{
    match answer {
        Ok((portion, remainder)) => ReplyView::DeviceInterfaceReport {
            function,
            remainder,
            portion,
        },
        Err(code) => refused(function, code),
    }
}

pub(crate) fn started<'a>(function: u32, answer: Result<(), u32>) -> ReplyView<'a>
    ensures reply { reply_shown result ≡ start_reply function answer }
    ensures short { IsShortReply (reply_shown result) }
{
    match answer {
        Ok(()) => ReplyView::StartInterface { function },
        Err(code) => refused(function, code),
    }
}

pub(crate) fn bound<'a>(function: u32, answer: Result<(), u32>) -> ReplyView<'a>
    ensures reply { reply_shown result ≡ bind_reply function answer }
    ensures short { IsShortReply (reply_shown result) }
{
    match answer {
        Ok(()) => ReplyView::BindP2p { function },
        Err(code) => refused(function, code),
    }
}

pub(crate) fn unbound<'a>(function: u32, answer: Result<(), u32>) -> ReplyView<'a>
    ensures reply { reply_shown result ≡ unbind_reply function answer }
    ensures short { IsShortReply (reply_shown result) }
{
    match answer {
        Ok(()) => ReplyView::UnbindP2p { function },
        Err(code) => refused(function, code),
    }
}

/// Appends a reply, for which there is room.
pub(crate) fn append(reply: &ReplyView<'_>, out: &mut Vec<u8>)
    requires short { IsShortReply (reply_shown reply.now) }
    requires room { vec_len out.old + 1200 ≤ vec_capacity out.old }
    ensures items { out.new.items ≡ out.old.items ++ reply_spelling (reply_shown reply.now) }
    ensures capacity { vec_capacity out.old ≤ vec_capacity out.new }
{
    reply_write(reply, out);
}

/// Appends the versions that are spoken.
pub(crate) fn append_versions(function: u32, out: &mut Vec<u8>)
    requires { vec_len out.old + 1200 ≤ vec_capacity out.old }
    ensures items { out.new.items ≡ out.old.items ++ reply_spelling (version_reply function) }
    ensures capacity { vec_capacity out.old ≤ vec_capacity out.new }
{
    append(
        &ReplyView::Version {
            function,
            versions: &VERSIONS,
        },
        out,
    );
}
