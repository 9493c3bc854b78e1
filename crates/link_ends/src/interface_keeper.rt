//! The host's manager of device interfaces, and the exchanges that it asks.

ghost use Rattle.std.specs.Prelude.{◌≡◌, ◌<◌, ◌≤◌, IfOk, IfSome, IsSome, length, slice_get, vec_capacity};
ghost use Rattle.tdisp_codec.specs.Requests.{request_spelling};
ghost use Rattle.interface_host.specs.Managers.{new_interface_manager, current_interface, interface_request};
ghost use Rattle.interface_host.specs.Managers.{begun_interface_manager};
ghost use Rattle.interface_host.specs.Views.{interface_refusal_of};
ghost use Rattle.interface_ends.specs.Replies.{interfaces_after_answer, answer_bytes};
ghost use Rattle.interface_ends.specs.Keepers.{IsInterfaceExchanged, manager_walk, interface_operated};
ghost use Rattle.interface_ends.specs.declared.said.StreamSaid.{StreamSaid};
ghost use Rattle.link_ends.specs.DeviceEnds.{secure_at};
ghost use Rattle.link_ends.specs.Hosts.{live_for_operation};
ghost use Rattle.link_ends.specs.InterfaceKeepers.{said_at, ended_with, InterfaceWalks};

use crate::keeper::lost_at;
use crate::{Device, PeerStreams};
use ide_types::{Items, LinkPlan, OutOfMemory, StreamStatus};
use interface_ends::TDISP_REPLY_ROOM;
use interface_host::{InterfaceOperation, InterfaceOutcome, Interfaces};
use key_host::ExchangeReply;
use script_events::{Loss, Lost};
use std::alloc::Global;
use std::marker::Model;

/// The room that a request needs, in bytes.
const REQUEST_ROOM: usize = 49;

/// The most exchanges of an operation: a report has at most 1,140 bytes.
const MOST_EXCHANGES: u16 = 1_140;

/// The manager of interfaces, with room for one exchange (TDISP, in this profile).
#[derive(Drop)]
pub struct InterfaceKeeper {
    interfaces: Interfaces,
    request: Vec<u8>,
    reply: Vec<u8>,
}

impl Model for InterfaceKeeper {
    ghost use Rattle.std.specs.Prelude.{◌≤◌, vec_capacity};
    ghost use Rattle.interface_host.specs.Managers.{InterfaceManagerView};

    ghost Value = { InterfaceManagerView };

    ghost view = { λ k. k.interfaces };

    ghost invariant = { λ k. (49 ≤ vec_capacity k.request) × (1200 ≤ vec_capacity k.reply) };
}

// Gives the device the request of the exchange that is next; `reply` holds what it answers.
fn deliver<P: PeerStreams>(
    manager: &Interfaces,
    device: &mut Device,
    peers: &P,
    request: &mut Vec<u8>,
    reply: &mut Vec<u8>,
)
    requires asking { IsSome (current_interface manager.now) }
    requires request_room { 49 ≤ vec_capacity request.old }
    requires reply_room { 1200 ≤ vec_capacity reply.old }
    ensures device { IfSome (current_interface manager.now) (λ c. device.new ≡ record device.old {
      interfaces = interfaces_after_answer device.old.interfaces (request_spelling (interface_request manager.now c))
          (said_at (P.live peers.now) device.old.port c);
    }) }
    ensures reply { IfSome (current_interface manager.now) (λ c. reply.new.items ≡ answer_bytes device.old.interfaces
        (request_spelling (interface_request manager.now c)) (said_at (P.live peers.now) device.old.port c)) }
    ensures request_room { 49 ≤ vec_capacity request.new }
    ensures reply_room { 1200 ≤ vec_capacity reply.new }
{
    request.clear();
    manager.ask(request);
    reply.clear();
    // no key comes with it
    device.answer(peers, request, 0, reply);
}

impl InterfaceKeeper {
    ghost use Rattle.interface_host.specs.Managers.{stop_begun, peer_stop, stream_keyed, reset_interface_manager};

    /// A manager of the interfaces of these links, which are asked for `portion` bytes of a report at a time.
    pub fn make(
        alloc: Global,
        links: &Items<LinkPlan>,
        portion: u16,
    ) -> Result<InterfaceKeeper, OutOfMemory>
        requires { length links.now ≤ 8 }
        ensures { IfOk result (λ k. k ≡ new_interface_manager links.now portion) }
    {
        let interfaces = Interfaces::make(alloc, links, portion)?;
        let request = Vec::with_capacity(alloc, REQUEST_ROOM)?;
        let reply = Vec::with_capacity(alloc, TDISP_REPLY_ROOM)?;
        Ok(InterfaceKeeper {
            interfaces,
            request,
            reply,
        })
    }

    /// The manager.
    pub fn manager(&self) -> &Interfaces
        ensures { result.now ≡ self.now }
    {
        &self.interfaces
    }

    /// Notes that a stop of a stream began: views of its interfaces that are Locked, Running or Doubt become Broken.
    pub fn stop_begun(&mut self, link: u8, stream: u8)
        ensures { self.new ≡ stop_begun link stream self.old }
    {
        self.interfaces.stop_begun(link, stream);
    }

    /// Notes an event of a stop of the stream between devices of this number: views that are Locked, Running or Doubt
    /// of interfaces of which BIND_P2P to it was asked since LOCK_INTERFACE was become Broken.
    pub fn peer_stop(&mut self, number: u8)
        ensures { self.new ≡ peer_stop number self.old }
    {
        self.interfaces.peer_stop(number);
    }

    /// Notes that an establish of a stream began with this draw, or that a refresh ended with it.
    pub fn stream_keyed(&mut self, link: u8, stream: u8, draw: u32)
        ensures { self.new ≡ stream_keyed link stream draw self.old }
    {
        self.interfaces.stream_keyed(link, stream, draw);
    }

    /// Notes that a link was reset: views of its interfaces that are Locked, Running or Doubt become Broken.
    pub fn link_reset(&mut self, link: u8)
        ensures { self.new ≡ reset_interface_manager link self.old }
    {
        self.interfaces.link_reset(link);
    }

    // Carries the exchange that is next, but for the message of it that `loss` loses, if any.
    fn exchange<P: PeerStreams>(
        &mut self,
        device: &mut Device,
        peers: &P,
        loss: Option<Loss>,
    ) -> InterfaceOutcome
        requires { IsSome (current_interface self.old) }
        ensures exchange { IfSome (current_interface self.old) (λ c. IsInterfaceExchanged
            (said_at (P.live peers.now) device.old.port c) loss self.old device.old.interfaces c
            (ended_with result self.new device.new.interfaces)) }
        ensures device { device.new ≡ record device.old { interfaces = device.new.interfaces } }
    {
        match lost_at(loss, self.interfaces.exchange()) {
            None => {
                deliver(
                    &self.interfaces,
                    device,
                    peers,
                    &mut self.request,
                    &mut self.reply,
                );
                self.interfaces
                    .take(ExchangeReply::Reply(Some(&self.reply)))
            }
            Some(Lost::Request) => self.interfaces.take(ExchangeReply::Lost),
            Some(Lost::Reply) => {
                deliver(
                    &self.interfaces,
                    device,
                    peers,
                    &mut self.request,
                    &mut self.reply,
                );
                self.interfaces.take(ExchangeReply::Lost)
            }
        }
    }

    // Up to so many exchanges of the operation that is asked.
    fn walk<P: PeerStreams>(
        &mut self,
        more: u16,
        device: &mut Device,
        peers: &P,
        loss: Option<Loss>,
    ) -> InterfaceOutcome
        ensures walk { InterfaceWalks more loss (P.live peers.now) device.old.port self.old device.old.interfaces
            (ended_with result self.new device.new.interfaces) }
        ensures device { device.new ≡ record device.old { interfaces = device.new.interfaces } }
    {
        if more == 0 {
            return InterfaceOutcome::Next;
        }
        if !self.interfaces.is_asking() {
            return InterfaceOutcome::Next;
        }
        match self.exchange(device, peers, loss) {
            InterfaceOutcome::Next => self.walk(more - 1, device, peers, loss),
            outcome => outcome,
        }
    }

    /// Begins an operation on an interface of the link with this device, and carries its exchanges until it is over, or
    /// `loss` loses one. `status` is that of its bound stream at the host's port, or of bind and unbind that of
    /// the stream between devices as the manager of keys has it; `peers` says what stands at the device's ends of
    /// streams between it and others, and `draws` were made so far.
    pub fn operate<P: PeerStreams>(
        &mut self,
        device: &mut Device,
        peers: &P,
        interface: usize,
        op: InterfaceOperation,
        status: StreamStatus,
        draws: u32,
        loss: Option<Loss>,
    ) -> InterfaceOutcome
        requires { interface < length self.old.interfaces }
        ensures operated { IfSome (slice_get self.old.interfaces interface) (λ i.
            let said : StreamSaid = record {
              secure = secure_at device.old.port i.stream;
              live = live_for_operation (P.live peers.now) op;
            } in
            ended_with result self.new device.new.interfaces
            ≡ interface_operated interface op status draws said loss self.old device.old.interfaces i) }
        ensures device { device.new ≡ record device.old { interfaces = device.new.interfaces } }
    {
        match self.interfaces.begin(interface, op, status, draws) {
            Err(refusal) => InterfaceOutcome::Refused(refusal),
            Ok(()) => self.walk(MOST_EXCHANGES, device, peers, loss),
        }
    }
}
