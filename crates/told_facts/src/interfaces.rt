//! Facts of the exchanges that are left to an operation on a device interface.

ghost use Rattle.std.specs.Prelude.{◌≡◌, ◌∷◌, ◌++◌, [], IfOk, if◌then◌else◌, option_map, slice_get};
ghost use Rattle.interface_ends.specs.Replies.{IsShortReply, capabilities_reply, version_reply};
ghost use Rattle.tdisp_codec.specs.Replies.{reply_shown};
ghost use Rattle.tdisp_codec.specs.Requests.{request_spelling};
ghost use Rattle.tdisp_codec.specs.Replies.{reply_spelling};
ghost use Rattle.told_facts.specs.Exchanges.{exchanges_by_peer, interface_planned, known_exchange, lock_exchanges};
ghost use Rattle.told_facts.specs.Exchanges.{most_portions, peer_exchange, report_from, shown_exchange, start_exchange};

use crate::fact::{Answer, Fact, push};
use ide_types::{Bytes, InterfacePlan, LinkPlan, OutOfMemory};
use interface_state::{Interface, TdiState};
use script_events::InterfaceEvent;
use std::alloc::Global;
use tdisp_codec::{ReplyView, RequestView, reply_write, request_write};

/// The room that a request needs, in bytes.
const REQUEST_ROOM: usize = 49;

/// The room that a reply needs, in bytes.
const REPLY_ROOM: usize = 1_200;

/// The versions that a device speaks: 1.0 alone.
const VERSIONS: [u8; 1] = [0x10];

/// Requests 0x81 to 0x89.
const REQUESTS: [u8; 16] = [0xfe, 0x03, 0, 0, 0, 0, 0, 0, 0, 0, 0, 0, 0, 0, 0, 0];

/// The most portions of a report, which has at most 1,140 bytes.
const MOST_PORTIONS: u64 = 1_140;

// ---- messages

fn request_bytes(alloc: Global, request: RequestView) -> Result<Bytes, OutOfMemory>
    ensures { IfOk result (λ b. b ≡ request_spelling request) }
{
    let mut bytes = Vec::with_capacity(alloc, REQUEST_ROOM)?;
    request_write(&request, &mut bytes);
    Ok(Bytes::new(bytes))
}

fn reply_bytes(alloc: Global, reply: &ReplyView<'_>) -> Result<Bytes, OutOfMemory>
    requires { IsShortReply (reply_shown reply.now) }
    ensures { IfOk result (λ b. b ≡ reply_spelling (reply_shown reply.now)) }
{
    let mut bytes = Vec::with_capacity(alloc, REPLY_ROOM)?;
    reply_write(reply, &mut bytes);
    Ok(Bytes::new(bytes))
}

// Appends an exchange whose reply is known.
fn push_known(
    alloc: Global,
    facts: &mut Vec<Fact>,
    exchange: u64,
    request: RequestView,
    reply: &ReplyView<'_>,
) -> Result<(), OutOfMemory>
    requires { IsShortReply (reply_shown reply.now) }
    ensures { IfOk result (λ _. facts.new.items ≡ facts.old.items ++ known_exchange exchange request
        (reply_shown reply.now) ∷ []) }
{
    let request = request_bytes(alloc, request)?;
    let done = reply_bytes(alloc, reply)?;
    let refused = Bytes::new(Vec::new(alloc));
    push(
        facts,
        Fact::Exchange {
            exchange,
            request,
            answer: Answer::Known { done, refused },
        },
    )
}

// Appends an exchange whose reply the verdict shows.
fn push_shown(
    alloc: Global,
    facts: &mut Vec<Fact>,
    exchange: u64,
    request: RequestView,
    function: u32,
) -> Result<(), OutOfMemory>
    ensures { IfOk result (λ _. facts.new.items ≡ facts.old.items ++ shown_exchange exchange request function) }
{
    let request = request_bytes(alloc, request)?;
    push(
        facts,
        Fact::Exchange {
            exchange,
            request,
            answer: Answer::Shown { function },
        },
    )
}

// ---- operations

// Appends the first exchange of a lock.
fn push_version(alloc: Global, facts: &mut Vec<Fact>, function: u32) -> Result<(), OutOfMemory>
    ensures { IfOk result (λ _. facts.new.items ≡ facts.old.items ++ known_exchange 1
        (RequestView.GetVersion function) (version_reply function) ∷ []) }
{
    push_known(
        alloc,
        facts,
        1,
        RequestView::GetVersion { function },
        &ReplyView::Version {
            function,
            versions: &VERSIONS,
        },
    )
}

// Appends the second exchange of a lock.
fn push_capabilities(alloc: Global, facts: &mut Vec<Fact>, function: u32) -> Result<(), OutOfMemory>
    ensures { IfOk result (λ _. facts.new.items ≡ facts.old.items ++ known_exchange 2
        (RequestView.GetCapabilities function) (capabilities_reply function) ∷ []) }
{
    push_known(
        alloc,
        facts,
        2,
        RequestView::GetCapabilities { function },
        &ReplyView::Capabilities {
            function,
            device: 0,
            requests: REQUESTS,
            lock_flags: 0x001f,
            width: 64,
            num_req_this: 1,
            num_req_all: 1,
        },
    )
}

// Appends the exchanges of a lock.
fn push_lock(alloc: Global, facts: &mut Vec<Fact>, plan: &InterfacePlan) -> Result<(), OutOfMemory>
    ensures { IfOk result (λ _. facts.new.items ≡ facts.old.items ++ lock_exchanges plan.now) }
{
    let function = u32::from(plan.requester);
    push_version(alloc, facts, function)?;
    push_capabilities(alloc, facts, function)?;
    let lock = RequestView::LockInterface {
        function,
        flags: plan.flags,
        stream: plan.stream,
        offset: plan.offset,
        mask: 0,
    };
    push_shown(alloc, facts, 3, lock, function)
}

// Appends the exchanges that read a report, portion by portion.
fn push_report(
    alloc: Global,
    facts: &mut Vec<Fact>,
    interface: &Interface,
    function: u32,
    size: u16,
) -> Result<(), OutOfMemory>
    ensures { IfOk result (λ _. facts.new.items ≡ facts.old.items ++ report_from function size interface.now 1 0
        most_portions) }
{
    let mut read: usize = 0;
    for n in 1..MOST_PORTIONS + 1 {
        if read > 65_535 {
            return Ok(());
        }
        let offset = read as u16;
        let length = size;
        let request = RequestView::GetDeviceInterfaceReport {
            function,
            offset,
            length,
        };
        let Ok((portion, remainder)) = interface.report(offset, size) else {
            return push_shown(alloc, facts, n, request, function);
        };
        let reply = ReplyView::DeviceInterfaceReport {
            function,
            remainder,
            portion,
        };
        push_known(alloc, facts, n, request, &reply)?;
        if remainder == 0 {
            return Ok(());
        }
        read += portion.len();
    }
    Ok(())
}

// Appends the exchange of a start.
fn push_start(
    alloc: Global,
    facts: &mut Vec<Fact>,
    interface: &Interface,
    function: u32,
) -> Result<(), OutOfMemory>
    ensures { IfOk result (λ _. facts.new.items ≡ facts.old.items ++ start_exchange function interface.now.state) }
{
    match interface.state_with_lock() {
        TdiState::ConfigLocked { nonce, .. } => {
            let nonce = *nonce;
            push_shown(
                alloc,
                facts,
                1,
                RequestView::StartInterface { function, nonce },
                function,
            )
        }
        _ => push(
            facts,
            Fact::Exchange {
                exchange: 1,
                request: Bytes::new(Vec::new(alloc)),
                answer: Answer::Shown { function },
            },
        ),
    }
}

// ---- an event

// Appends an exchange on a stream between devices, if the device has it.
fn push_peer(
    alloc: Global,
    facts: &mut Vec<Fact>,
    binds: bool,
    function: u32,
    peer: Option<u8>,
) -> Result<(), OutOfMemory>
    ensures { IfOk result (λ _. facts.new.items ≡ facts.old.items ++ peer_exchange
        (if binds then RequestView.BindP2p function else RequestView.UnbindP2p function) function peer) }
{
    match peer {
        None => Ok(()),
        Some(stream) if binds => {
            push_shown(
                alloc,
                facts,
                1,
                RequestView::BindP2p { function, stream },
                function,
            )
        }
        Some(stream) => {
            push_shown(
                alloc,
                facts,
                1,
                RequestView::UnbindP2p { function, stream },
                function,
            )
        }
    }
}

/// Appends the exchanges of an event on an interface, which is laid out so and stands so at its device; `size` is that
/// of a portion of a report, and `peer` the stream between devices that the event names, if the device has it.
pub fn push_interface_exchanges(
    alloc: Global,
    facts: &mut Vec<Fact>,
    size: u16,
    peer: Option<u8>,
    plan: &InterfacePlan,
    interface: &Interface,
    event: &InterfaceEvent,
) -> Result<(), OutOfMemory>
    ensures { IfOk result (λ _. facts.new.items ≡ facts.old.items ++ exchanges_by_peer size peer plan.now
        interface.now event.now) }
{
    let function = u32::from(plan.requester);
    match event {
        InterfaceEvent::Lock { .. } => push_lock(alloc, facts, plan),
        InterfaceEvent::Report { .. } => push_report(alloc, facts, interface, function, size),
        InterfaceEvent::Start { .. } => push_start(alloc, facts, interface, function),
        InterfaceEvent::Halt { .. } => {
            push_shown(
                alloc,
                facts,
                1,
                RequestView::StopInterface { function },
                function,
            )
        }
        InterfaceEvent::State { .. } => {
            let request = RequestView::GetDeviceInterfaceState { function };
            push_shown(alloc, facts, 1, request, function)
        }
        InterfaceEvent::Bind { .. } => push_peer(alloc, facts, true, function, peer),
        InterfaceEvent::Unbind { .. } => push_peer(alloc, facts, false, function, peer),
        _ => Ok(()),
    }
}

// ---- as a topology lays it out

fn interface_at(interfaces: &[InterfacePlan], i: usize) -> Option<&InterfacePlan>
    ensures { option_map (λ p. p.now) result ≡ slice_get interfaces.now i }
{
    interfaces.get(i)
}

/// The interface of a number over these links.
pub fn interface_planned(links: &[LinkPlan], number: usize) -> Option<&InterfacePlan>
    ensures { option_map (λ p. p.now) result ≡ interface_planned links.now number }
{
    let mut behind = number;
    for link in links {
        let interfaces = link.interfaces.as_slice();
        if behind < interfaces.len() {
            return interface_at(interfaces, behind);
        }
        behind -= interfaces.len();
    }
    None
}
