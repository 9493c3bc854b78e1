//! The manager of the interfaces of all links.

ghost use Rattle.std.specs.Prelude.{◌≡◌, ℕ, ◌+◌, ◌++◌, ◌≤◌, ◌<◌, IsSome, IfSome, IfOk, Option, is_some, length, map};
ghost use Rattle.std.specs.Prelude.{position, slice_get, vec_len, vec_capacity};
ghost use Rattle.tdisp_codec.specs.Requests.{request_spelling};
ghost use Rattle.interface_host.specs.Views.{view_of, interface_ok_unless, interface_refusal_of, left_by_stop};
ghost use Rattle.interface_host.specs.Views.{left_by_peer_stop, keyed_by, left_by_reset};
ghost use Rattle.interface_host.specs.Facts.{interface_facts};
ghost use Rattle.interface_host.specs.Views.{is_granted, is_requester};
ghost use Rattle.interface_host.specs.Managers.{new_interfaces, interface_asking_after};

use crate::facts::InterfaceFacts;
use crate::interface::HostInterface;
use crate::judge::judge;
use crate::operation::{InterfaceOperation, InterfaceOutcome, InterfaceRefusal};
use crate::portions::Portions;
use crate::step::{Step, first_step};
use ide_types::{Binding, InterfacePlan, Items, LinkPlan, OutOfMemory, StreamStatus, View};
use key_host::ExchangeReply;
use std::alloc::Global;
use std::marker::Model;
use tdisp_codec::request_write;

/// The exchange that is to be asked and taken: of the interface at this place; so many draws were made as its operation
/// began.
#[derive(Clone, Copy, PartialEq, Eq)]
pub struct Asking {
    place: usize,
    step: Step,
    draws: u32,
}

/// The host's manager of the interfaces of all links, which are numbered in the order of the links and of each link's
/// interfaces, from 0 (TDISP section 11.3, in this profile). It has at most one exchange under way: that of the
/// operation which `begin` began last.
#[derive(Drop)]
pub struct Interfaces {
    interfaces: Vec<HostInterface>,
    portion: u16,
    asking: Option<Asking>,
    read: Portions,
}

impl Model for Interfaces {
    ghost use Rattle.interface_host.specs.Managers.{InterfaceManagerView};

    ghost Value = { InterfaceManagerView };

    ghost view = { λ m. record {
      interfaces = m.interfaces.items;
      portion = m.portion;
      asking = m.asking;
      read = m.read;
    } };
}

// Adds a link's interfaces.
fn add_interfaces(
    interfaces: &mut Vec<HostInterface>,
    link: u8,
    plans: &[InterfacePlan],
) -> Result<(), OutOfMemory>
    ensures { IfOk result (λ _. interfaces.new.items ≡ interfaces.old.items ++ new_interfaces link plans.now) }
{
    for plan in plans {
        interfaces.push(HostInterface::new(link, plan))?;
    }
    Ok(())
}

// The exchange that is next, if the operation goes on.
fn still_asking(asking: Asking, outcome: InterfaceOutcome) -> Option<Asking>
    ensures { result ≡ interface_asking_after asking outcome }
{
    match outcome {
        InterfaceOutcome::Next => Some(Asking {
            place: asking.place,
            step: asking.step.next(),
            draws: asking.draws,
        }),
        InterfaceOutcome::Done(_) | InterfaceOutcome::Refused(_) => None,
    }
}

fn stop_all(interfaces: &mut Vec<HostInterface>, link: u8, stream: u8)
    ensures { interfaces.new.items ≡ map (left_by_stop link stream) interfaces.old.items }
{
    for interface in interfaces.iter_mut() {
        interface.stop_begun(link, stream);
    }
}

fn stop_peer(interfaces: &mut Vec<HostInterface>, number: u8)
    ensures { interfaces.new.items ≡ map (left_by_peer_stop number) interfaces.old.items }
{
    for interface in interfaces.iter_mut() {
        interface.peer_stop(number);
    }
}

fn key_all(interfaces: &mut Vec<HostInterface>, link: u8, stream: u8, draw: u32)
    ensures { interfaces.new.items ≡ map (keyed_by link stream draw) interfaces.old.items }
{
    for interface in interfaces.iter_mut() {
        interface.stream_keyed(link, stream, draw);
    }
}

fn reset_all(interfaces: &mut Vec<HostInterface>, link: u8)
    ensures { interfaces.new.items ≡ map (left_by_reset link) interfaces.old.items }
{
    for interface in interfaces.iter_mut() {
        interface.link_reset(link);
    }
}

impl Interfaces {
    ghost use Rattle.interface_host.specs.Managers.{new_interface_manager, nothing_read, current_interface};
    ghost use Rattle.interface_host.specs.Managers.{current_exchange, begun_interface_manager, interface_request};
    ghost use Rattle.interface_host.specs.Managers.{judged_now, outcome_by, taken_interface_manager, stop_begun};
    ghost use Rattle.interface_host.specs.Managers.{peer_stop, stream_keyed, reset_interface_manager, running_grant};
    ghost use Rattle.interface_host.specs.Managers.{interface_of_requester};

    /// A manager of the interfaces of these links, up to 8 links; no interface is locked. It asks for a report in
    /// portions of `portion` bytes. Returns `OutOfMemory` for want of memory.
    pub fn make(
        alloc: Global,
        links: &Items<LinkPlan>,
        portion: u16,
    ) -> Result<Interfaces, OutOfMemory>
        requires { length links.now ≤ 8 }
        ensures { IfOk result (λ m. m ≡ new_interface_manager links.now portion) }
    {
        let mut interfaces = Vec::new(alloc);
        let mut number = 0;
        for link in links.as_slice() {
            add_interfaces(&mut interfaces, number, link.interfaces.as_slice())?;
            number += 1;
        }
        let read = Portions::make(alloc)?;
        Ok(Interfaces {
            interfaces,
            portion,
            asking: None,
            read,
        })
    }

    /// How many interfaces there are.
    pub fn count(&self) -> usize
        ensures { result ≡ length self.now.interfaces }
    {
        self.interfaces.len()
    }

    /// The manager's view of an interface.
    pub fn view(&self, interface: usize) -> View
        requires { interface < length self.now.interfaces }
        ensures { IfSome (slice_get self.now.interfaces interface) (λ i. result ≡ view_of i.seen) }
    {
        self.interfaces[interface].view()
    }

    /// The number of the interface of this link with this requester ID; `None` if there is none.
    pub fn number(&self, link: u8, requester: u16) -> Option<usize>
        ensures { result ≡ interface_of_requester self.now link requester }
    {
        self.interfaces
            .iter()
            .position(|i| i.is_requester(link, requester))
    }

    fn granted_place(&self, link: u8, requester: u16) -> Option<usize>
        ensures { result ≡ position (is_granted link requester) self.now.interfaces }
    {
        self.interfaces
            .iter()
            .position(|i| i.is_granted(link, requester))
    }

    /// The bound stream of the interface of this link with this requester ID, and its floor, the least draw under which
    /// its requests are admitted; `None` if the manager's view of it is not Running.
    pub fn grant(&self, link: u8, requester: u16) -> Option<Binding>
        ensures { result ≡ running_grant self.now link requester }
    {
        match self.granted_place(link, requester) {
            None => None,
            Some(place) => match self.interfaces.get(place) {
                None => None,
                Some(interface) => interface.grant(),
            },
        }
    }

    /// The ID of an interface's bound stream.
    pub fn stream(&self, interface: usize) -> u8
        requires { interface < length self.now.interfaces }
        ensures { IfSome (slice_get self.now.interfaces interface) (λ i. result ≡ i.stream) }
    {
        self.interfaces[interface].stream()
    }

    /// Begins an operation on an interface; `status` is that of its bound stream at the host's port of its link, Idle
    /// if the port has no such stream, or of bind and unbind that of the stream between devices, Secure if the manager
    /// of keys has it up, Idle if it has no keys, else Partial; and `draws` were made so far. Refused, in this order:
    /// of lock WrongState unless Unlocked, NotSecure; of report WrongState unless Locked or Running; of start
    /// WrongState unless Locked, NotReported, NotSecure, RefreshFirst; of bind WrongState unless Locked or Running,
    /// NotSecure, RefreshFirst; of unbind WrongState unless Locked or Running. A refusal changes nothing.
    pub fn begin(
        &mut self,
        interface: usize,
        op: InterfaceOperation,
        status: StreamStatus,
        draws: u32,
    ) -> Result<(), InterfaceRefusal>
        requires { interface < length self.old.interfaces }
        ensures answer { IfSome (slice_get self.old.interfaces interface) (λ i.
            result ≡ interface_ok_unless (interface_refusal_of op status i)) }
        ensures manager { IfSome (slice_get self.old.interfaces interface) (λ i.
            self.new ≡ begun_interface_manager self.old interface op status draws i) }
    {
        match self.interfaces[interface].refusal(op, status) {
            Some(refusal) => Err(refusal),
            None => {
                self.read.clear();
                self.asking = Some(Asking {
                    place: interface,
                    step: first_step(op),
                    draws,
                });
                Ok(())
            }
        }
    }

    /// Whether an exchange is to be asked and taken: from a `begin` that answered `Ok` on, until the operation is over,
    /// a stop begins, a stream is keyed or a link is reset.
    pub fn is_asking(&self) -> bool
        ensures { result ≡ is_some (current_interface self.now) }
    {
        match self.asking {
            None => false,
            Some(asking) => self.interfaces.get(asking.place).is_some(),
        }
    }

    /// The number of the exchange that `ask` writes, from 1.
    pub fn exchange(&self) -> u32
        requires { IsSome (current_interface self.now) }
        ensures { IfSome (current_interface self.now) (λ c. result ≡ current_exchange self.now c) }
    {
        let Some(asking) = self.asking else {
            unreachable!()
        };
        self.read.exchange(asking.step)
    }

    /// Appends the request of the exchange that is next, for which `out` has 49 bytes of room. It takes no memory.
    pub fn ask(&self, out: &mut Vec<u8>)
        requires asking { IsSome (current_interface self.now) }
        requires room { vec_len out.old + 49 ≤ vec_capacity out.old }
        ensures items { IfSome (current_interface self.now) (λ c. out.new.items ≡ out.old.items
            ++ request_spelling (interface_request self.now c)) }
        ensures capacity { vec_capacity out.old ≤ vec_capacity out.new }
    {
        let Some(asking) = self.asking else {
            unreachable!()
        };
        let interface = &self.interfaces[asking.place];
        let read = self.read.len() as u16;
        request_write(&interface.request(asking.step, self.portion, read), out);
    }

    /// Takes what was carried in answer to the request of the exchange that is next.
    pub fn take(&mut self, carried: ExchangeReply) -> InterfaceOutcome
        requires { IsSome (current_interface self.old) }
        ensures outcome { IfSome (current_interface self.old) (λ c.
            result ≡ outcome_by self.old c (judged_now self.old c carried.entry)) }
        ensures manager { IfSome (current_interface self.old) (λ c.
            self.new ≡ taken_interface_manager self.old c (judged_now self.old c carried.entry)) }
    {
        let Some(asking) = self.asking else {
            unreachable!()
        };
        let read = self.read.len();
        let exchange = self.read.exchange(asking.step);
        let interface = &mut self.interfaces[asking.place];
        let function = u32::from(interface.requester());
        let answer = judge(asking.step, function, self.portion, read, carried);
        interface.take(asking.step, asking.draws, answer);
        let outcome = interface.outcome(asking.step, exchange, answer);
        self.read.take(answer);
        self.asking = still_asking(asking, outcome);
        outcome
    }

    /// The bytes of the report that the last operation read, if that was a report and ended.
    pub fn report(&self) -> &[u8]
        ensures value { result.now ≡ self.now.read.bytes }
        ensures short { length result.now ≤ 1140 }
    {
        self.read.as_slice()
    }

    /// Notes that a stop of a stream began: views of its interfaces that are Locked, Running or Doubt become Broken.
    pub fn stop_begun(&mut self, link: u8, stream: u8)
        ensures { self.new ≡ stop_begun link stream self.old }
    {
        stop_all(&mut self.interfaces, link, stream);
        self.asking = None;
    }

    /// Notes an event of a stop of the stream between devices of this number: views that are Locked, Running or Doubt
    /// of interfaces of which BIND_P2P to it was asked since LOCK_INTERFACE was become Broken.
    pub fn peer_stop(&mut self, number: u8)
        ensures { self.new ≡ peer_stop number self.old }
    {
        stop_peer(&mut self.interfaces, number);
        self.asking = None;
    }

    /// Notes that an establish of a stream began with this draw, or that a refresh ended with it.
    pub fn stream_keyed(&mut self, link: u8, stream: u8, draw: u32)
        ensures { self.new ≡ stream_keyed link stream draw self.old }
    {
        key_all(&mut self.interfaces, link, stream, draw);
        self.asking = None;
    }

    /// Notes that a link was reset: views of its interfaces that are Locked, Running or Doubt become Broken.
    pub fn link_reset(&mut self, link: u8)
        ensures { self.new ≡ reset_interface_manager link self.old }
    {
        reset_all(&mut self.interfaces, link);
        self.asking = None;
    }
}

// ---- what is seen of them

impl Interfaces {
    /// What is kept of an interface.
    pub fn facts(&self, interface: usize) -> InterfaceFacts
        requires { interface < length self.now.interfaces }
        ensures { IfSome (slice_get self.now.interfaces interface) (λ i. result ≡ interface_facts i) }
    {
        self.interfaces[interface].facts()
    }
}
