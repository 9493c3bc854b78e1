//! An interface, for the manager.

ghost use Rattle.std.specs.Prelude.{◌≡◌, Some, None, slice_set, true};
ghost use Rattle.interface_host.specs.Facts.{interface_facts, reported_if_locked};
ghost use Rattle.interface_host.specs.Judging.{answer_shown};
ghost use Rattle.interface_host.specs.Views.{interface_unless_secure, key_refusal, refused_outcome, peer_number};
ghost use Rattle.interface_host.specs.Views.{asked_peers, was_started_after, needs_after};

use crate::facts::InterfaceFacts;
use crate::judge::Answer;
use crate::managed::ManagedTdi;
use crate::operation::{InterfaceOperation, InterfaceOutcome, InterfaceRefusal, InterfaceResult};
use crate::step::Step;
use ide_types::{Binding, InterfacePlan, StreamStatus, View};
use std::marker::Model;
use tdisp_codec::RequestView;

/// An interface of a link, and the manager's view of it.
#[derive(Drop)]
pub(crate) struct HostInterface {
    link: u8,
    requester: u16,
    stream: u8,
    flags: u16,
    offset: u64,
    draw: u32,
    needs: u32,
    was_started: bool,
    // `None` only while a move has it
    managed: Option<ManagedTdi>,
    asked: [bool; 8],
}

impl Model for HostInterface {
    ghost use Rattle.std.specs.Prelude.{IsSome};
    ghost use Rattle.interface_host.specs.Views.{HostTdi, seen_of_held};

    ghost Value = { HostTdi };

    ghost view = { λ i. record {
      link = i.link;
      requester = i.requester;
      stream = i.stream;
      flags = i.flags;
      offset = i.offset;
      draw = i.draw;
      needs = i.needs;
      was_started = i.was_started;
      seen = seen_of_held i.managed;
      asked = i.asked;
    } };

    ghost invariant = { λ i. IsSome i.managed };
}

// `NotSecure` unless the stream is Secure, else what else refuses.
fn unless_secure(
    status: StreamStatus,
    refusal: Option<InterfaceRefusal>,
) -> Option<InterfaceRefusal>
    ensures { result ≡ interface_unless_secure status refusal }
{
    match status {
        StreamStatus::Secure => refusal,
        status => Some(InterfaceRefusal::NotSecure(status)),
    }
}

fn key_refusal(draw: u32, needs: u32) -> Option<InterfaceRefusal>
    ensures { result ≡ key_refusal draw needs }
{
    if draw < needs {
        Some(InterfaceRefusal::RefreshFirst(draw, needs))
    } else {
        None
    }
}

// The operation is over at this exchange.
fn refused_outcome(exchange: u32, answer: Answer) -> InterfaceOutcome
    ensures { result ≡ refused_outcome exchange (answer_shown answer.entry) }
{
    match answer {
        Answer::Lost => InterfaceOutcome::Refused(InterfaceRefusal::SessionLost(exchange)),
        Answer::Refused(code) => InterfaceOutcome::Refused(InterfaceRefusal::DeviceRefused(
            exchange, code,
        )),
        _ => InterfaceOutcome::Refused(InterfaceRefusal::BadReply(exchange)),
    }
}

// The number of a stream between devices, by its line.
fn peer_number(line: u8) -> u8
    ensures { result ≡ peer_number line }
{
    line.saturating_sub(24)
}

// Notes that this one is true, if there is such a one.
fn set(asked: &mut [bool; 8], number: u8)
    ensures { asked.new ≡ slice_set asked.old number true }
{
    if (number as usize) < asked.len() {
        asked[number as usize] = true;
    }
}

// Of which streams between devices BIND_P2P was asked since LOCK_INTERFACE was, after this exchange.
fn ask(step: Step, asked: &mut [bool; 8])
    ensures { asked.new ≡ asked_peers step asked.old }
{
    match step {
        Step::Lock => *asked = [false; 8],
        Step::Bind(peer) => set(asked, peer_number(peer.line)),
        _ => {}
    }
}

// Whether START_INTERFACE was asked since LOCK_INTERFACE was, after this exchange.
fn was_started_after(step: Step, was_started: bool) -> bool
    ensures { result ≡ was_started_after step was_started }
{
    match step {
        Step::Lock => false,
        Step::Start => true,
        _ => was_started,
    }
}

// The least draw that a start wants, after this exchange.
fn needs_after(step: Step, draws: u32, answer: Answer, was_started: bool, needs: u32) -> u32
    ensures { result ≡ needs_after step draws (answer_shown answer.entry) was_started needs }
{
    match (step, answer) {
        (Step::Halt, Answer::Passed) => { if was_started { draws } else { needs } }
        _ => needs,
    }
}

impl HostInterface {
    ghost use Rattle.interface_host.specs.Views.{new_interface, lock_refusal, report_refusal, start_refusal};
    ghost use Rattle.interface_host.specs.Views.{bind_refusal, interface_refusal_of, step_request, taken_interface};
    ghost use Rattle.interface_host.specs.Views.{interface_outcome, view_of, floor_of, nonce_of, is_bound_to};
    ghost use Rattle.interface_host.specs.Views.{left_by_stop};
    ghost use Rattle.interface_host.specs.Views.{left_by_peer_stop, is_asked, keyed_by, left_by_reset, is_requester};
    ghost use Rattle.interface_host.specs.Views.{is_granted, interface_grant, broken_view};

    /// An interface of a link, not locked.
    pub(crate) fn new(link: u8, plan: &InterfacePlan) -> HostInterface
        ensures { result ≡ new_interface link plan.now }
    {
        HostInterface {
            link,
            requester: plan.requester,
            stream: plan.stream,
            flags: plan.flags,
            offset: plan.offset,
            draw: 0,
            needs: 0,
            was_started: false,
            managed: Some(ManagedTdi::new()),
            asked: [false; 8],
        }
    }

    /// Its requester ID.
    pub(crate) fn requester(&self) -> u16
        ensures { result ≡ self.now.requester }
    {
        self.requester
    }

    /// The ID of its bound stream.
    pub(crate) fn stream(&self) -> u8
        ensures { result ≡ self.now.stream }
    {
        self.stream
    }

    /// The view of it.
    pub(crate) fn view(&self) -> View
        ensures { result ≡ view_of self.now.seen }
    {
        match &self.managed {
            Some(managed) => managed.view(),
            None => View::Broken,
        }
    }

    // The floor of a run.
    fn floor(&self) -> Option<u32>
        ensures { result ≡ floor_of self.now.seen }
    {
        match &self.managed {
            Some(managed) => managed.floor(),
            None => None,
        }
    }

    // The nonce of a lock; 32 zero bytes stand for none.
    fn nonce(&self) -> [u8; 32]
        ensures { result ≡ nonce_of self.now.seen }
    {
        match &self.managed {
            Some(managed) => managed.nonce(),
            None => [0; 32],
        }
    }

    fn lock_refusal(&self, status: StreamStatus) -> Option<InterfaceRefusal>
        ensures { result ≡ lock_refusal status self.now.seen }
    {
        match &self.managed {
            Some(ManagedTdi::Unlocked(_)) => unless_secure(status, None),
            _ => Some(InterfaceRefusal::WrongState(self.view())),
        }
    }

    fn report_refusal(&self) -> Option<InterfaceRefusal>
        ensures { result ≡ report_refusal self.now.seen }
    {
        match &self.managed {
            Some(ManagedTdi::Locked(_) | ManagedTdi::Running(_)) => None,
            _ => Some(InterfaceRefusal::WrongState(self.view())),
        }
    }

    fn bind_refusal(&self, status: StreamStatus, draw: u32) -> Option<InterfaceRefusal>
        ensures { result ≡ bind_refusal status draw self.now.needs self.now.seen }
    {
        match &self.managed {
            Some(ManagedTdi::Locked(_) | ManagedTdi::Running(_)) => {
                unless_secure(status, key_refusal(draw, self.needs))
            }
            _ => Some(InterfaceRefusal::WrongState(self.view())),
        }
    }

    fn start_refusal(&self, status: StreamStatus) -> Option<InterfaceRefusal>
        ensures { result ≡ start_refusal status self.now.draw self.now.needs self.now.seen }
    {
        match &self.managed {
            Some(ManagedTdi::Locked(tdi)) => {
                if tdi.is_reported() {
                    unless_secure(status, key_refusal(self.draw, self.needs))
                } else {
                    Some(InterfaceRefusal::NotReported)
                }
            }
            _ => Some(InterfaceRefusal::WrongState(self.view())),
        }
    }

    /// Why an operation does not begin, if the bound stream has this status at the host's port, or of bind the stream
    /// between devices as the manager of keys has it; `None` if it begins.
    pub(crate) fn refusal(
        &self,
        op: InterfaceOperation,
        status: StreamStatus,
    ) -> Option<InterfaceRefusal>
        ensures { result ≡ interface_refusal_of op status self.now }
    {
        match op {
            InterfaceOperation::Lock => self.lock_refusal(status),
            InterfaceOperation::Report => self.report_refusal(),
            InterfaceOperation::Start => self.start_refusal(status),
            InterfaceOperation::Halt | InterfaceOperation::State => None,
            InterfaceOperation::Bind(peer) => self.bind_refusal(status, peer.draw),
            InterfaceOperation::Unbind(_) => self.report_refusal(),
        }
    }

    /// The outcome after an exchange with this number.
    pub(crate) fn outcome(&self, step: Step, exchange: u32, answer: Answer) -> InterfaceOutcome
        ensures { result ≡ interface_outcome step exchange (answer_shown answer.entry) self.now }
    {
        match (step, answer) {
            (Step::Version | Step::Capabilities, Answer::Passed) => InterfaceOutcome::Next,
            (Step::Lock, Answer::Nonce(nonce)) => InterfaceOutcome::Done(InterfaceResult::Nonce(
                nonce,
            )),
            (Step::Report, Answer::Portion { remainder, .. }) => {
                if remainder == 0 {
                    InterfaceOutcome::Done(InterfaceResult::Report)
                } else {
                    InterfaceOutcome::Next
                }
            }
            (Step::Start, Answer::Passed) => InterfaceOutcome::Done(InterfaceResult::Draw(
                self.draw,
            )),
            (Step::Halt, Answer::Passed) => InterfaceOutcome::Done(InterfaceResult::Needs(
                self.needs,
            )),
            (Step::State, Answer::State(code)) => InterfaceOutcome::Done(InterfaceResult::State(
                code,
            )),
            (Step::Bind(peer), Answer::Passed) => InterfaceOutcome::Done(InterfaceResult::Bound(
                peer.line,
            )),
            (Step::Unbind(peer), Answer::Passed) => InterfaceOutcome::Done(InterfaceResult::Unbound(
                peer.line,
            )),
            (_, answer) => refused_outcome(exchange, answer),
        }
    }

    /// Takes the answer to an exchange; `draws` were made so far.
    pub(crate) fn take(&mut self, step: Step, draws: u32, answer: Answer)
        ensures { self.new ≡ taken_interface step draws (answer_shown answer.entry) self.old }
    {
        if let Some(managed) = self.managed.take() {
            self.managed = Some(managed.after(step, self.draw, answer));
        }
        self.needs = needs_after(step, draws, answer, self.was_started, self.needs);
        self.was_started = was_started_after(step, self.was_started);
        ask(step, &mut self.asked);
    }

    fn is_bound(&self, link: u8, stream: u8) -> bool
        ensures { result ≡ is_bound_to link stream self.now }
    {
        self.link == link && self.stream == stream
    }

    fn leave(&mut self)
        ensures { self.new ≡ record self.old { seen = broken_view self.old.seen } }
    {
        if let Some(managed) = self.managed.take() {
            self.managed = Some(managed.broken());
        }
    }

    /// A stop of this stream began.
    pub(crate) fn stop_begun(&mut self, link: u8, stream: u8)
        ensures { self.new ≡ left_by_stop link stream self.old }
    {
        if self.is_bound(link, stream) {
            self.leave();
        }
    }

    fn is_asked(&self, number: u8) -> bool
        ensures { result ≡ is_asked number self.now.asked }
    {
        self.asked.get(number as usize).copied().unwrap_or(false)
    }

    /// An event of a stop of the stream between devices of this number.
    pub(crate) fn peer_stop(&mut self, number: u8)
        ensures { self.new ≡ left_by_peer_stop number self.old }
    {
        if self.is_asked(number) {
            self.leave();
        }
    }

    /// This stream has this draw from now on.
    pub(crate) fn stream_keyed(&mut self, link: u8, stream: u8, draw: u32)
        ensures { self.new ≡ keyed_by link stream draw self.old }
    {
        if self.is_bound(link, stream) {
            self.draw = draw;
        }
    }

    /// The link was reset.
    pub(crate) fn link_reset(&mut self, link: u8)
        ensures { self.new ≡ left_by_reset link self.old }
    {
        if self.link == link {
            self.leave();
        }
    }

    /// Whether it is the interface of this link with this requester ID.
    pub(crate) fn is_requester(&self, link: u8, requester: u16) -> bool
        ensures { result ≡ is_requester link requester self.now }
    {
        self.link == link && self.requester == requester
    }

    /// Whether it is, and running.
    pub(crate) fn is_granted(&self, link: u8, requester: u16) -> bool
        ensures { result ≡ is_granted link requester self.now }
    {
        self.is_requester(link, requester) && self.view() == View::Running
    }

    /// The bound stream and the floor of a run.
    pub(crate) fn grant(&self) -> Option<Binding>
        ensures { result ≡ interface_grant self.now }
    {
        match self.floor() {
            Some(floor) => Some(Binding {
                stream: self.stream,
                floor,
            }),
            None => None,
        }
    }

    /// The request of an exchange: of a report, `asked` bytes after the `read` bytes that were read before.
    pub(crate) fn request(&self, step: Step, asked: u16, read: u16) -> RequestView
        ensures { result ≡ step_request step asked read self.now }
    {
        let function = u32::from(self.requester);
        match step {
            Step::Version => RequestView::GetVersion { function },
            Step::Capabilities => RequestView::GetCapabilities { function },
            Step::Lock => RequestView::LockInterface {
                function,
                flags: self.flags,
                stream: self.stream,
                offset: self.offset,
                mask: 0,
            },
            Step::Report => RequestView::GetDeviceInterfaceReport {
                function,
                offset: read,
                length: asked,
            },
            Step::Start => RequestView::StartInterface {
                function,
                nonce: self.nonce(),
            },
            Step::Halt => RequestView::StopInterface { function },
            Step::State => RequestView::GetDeviceInterfaceState { function },
            Step::Bind(peer) => RequestView::BindP2p {
                function,
                stream: peer.id,
            },
            Step::Unbind(peer) => RequestView::UnbindP2p {
                function,
                stream: peer.id,
            },
        }
    }
}

// ---- what is seen of it

impl HostInterface {
    // Whether the report of a lock was read; `None` if it is no lock.
    fn reported_if_locked(&self) -> Option<bool>
        ensures { result ≡ reported_if_locked self.now.seen }
    {
        match &self.managed {
            Some(managed) => managed.reported_if_locked(),
            None => None,
        }
    }

    /// What the manager keeps of it.
    pub(crate) fn facts(&self) -> InterfaceFacts
        ensures { result ≡ interface_facts self.now }
    {
        InterfaceFacts {
            link: self.link,
            stream: self.stream,
            view: self.view(),
            draw: self.draw,
            needs: self.needs,
            started: self.was_started,
            reported: self.reported_if_locked(),
            floor: self.floor(),
        }
    }
}
