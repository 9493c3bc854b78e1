//! What one interface answers.

ghost use Rattle.std.specs.Prelude.{◌≡◌, ◌+◌, ◌≤◌, ◌++◌, true, IsSome, vec_len, vec_capacity};
ghost use Rattle.tdisp_codec.specs.Replies.{reply_spelling};
ghost use Rattle.interface_ends.specs.Replies.{interface_call, interface_called, interface_reply, takes_nonce};

use crate::StreamSaid;
use crate::replies::{
    append, append_versions, bound, capabilities, locked, reported, started, unbound,
};
use interface_state::Interface;
use tdisp_codec::{ReplyView, RequestView};

/// Answers a request to an interface, for which `nonce` is the next of the device's list, and says whether it was
/// given. `said` is what the device says of the stream that the request names.
pub(crate) fn answer_one(
    interface: &mut Interface,
    nonce: Option<[u8; 32]>,
    request: RequestView,
    said: StreamSaid,
    reply: &mut Vec<u8>,
) -> bool
    requires { vec_len reply.old + 1200 ≤ vec_capacity reply.old }
    ensures interface { interface.new ≡ interface_called interface.old (interface_call request said nonce) }
    ensures reply { reply.new.items ≡ reply.old.items
        ++ reply_spelling (interface_reply interface.old request said nonce) }
    ensures capacity { vec_capacity reply.old ≤ vec_capacity reply.new }
    ensures taken { result ≡ takes_nonce interface.old request said nonce }
{
    match request {
        RequestView::GetVersion { function } => {
            append_versions(function, reply);
            false
        }
        RequestView::GetCapabilities { function } => {
            append(&capabilities(function), reply);
            false
        }
        RequestView::LockInterface {
            function,
            flags,
            stream,
            offset,
            ..
        } => {
            let answer = interface.lock(flags, stream, offset, said.secure, nonce.as_ref());
            append(&locked(function, answer), reply);
            answer.is_ok()
        }
        RequestView::GetDeviceInterfaceReport {
            function,
            offset,
            length,
        } => {
            append(&reported(function, interface.report(offset, length)), reply);
            false
        }
        RequestView::GetDeviceInterfaceState { function } => {
            let state = interface.state();
            append(&ReplyView::DeviceInterfaceState { function, state }, reply);
            false
        }
        RequestView::StartInterface { function, nonce } => {
            let answer = interface.start(&nonce);
            append(&started(function, answer), reply);
            false
        }
        RequestView::StopInterface { function } => {
            interface.stop_interface();
            append(&ReplyView::StopInterface { function }, reply);
            false
        }
        RequestView::BindP2p { function, stream } => {
            let answer = interface.bind(stream, said.live);
            append(&bound(function, answer), reply);
            false
        }
        RequestView::UnbindP2p { function, stream } => {
            let answer = interface.unbind(stream);
            append(&unbound(function, answer), reply);
            false
        }
    }
}
