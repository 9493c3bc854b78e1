//! The interfaces of a device (this profile).

ghost use Rattle.std.specs.Prelude.{◌≡◌, ◌+◌, ◌<◌, ◌≤◌, ◌^◌, ◌++◌, ℕ, Bool, IfOk, IfSome, IsSome, All, Some, true};
ghost use Rattle.std.specs.Prelude.{length, map, position, slice_get, slice_set, slice_index, vec_len, vec_capacity};
ghost use Rattle.tdisp_codec.specs.Requests.{request_function};
ghost use Rattle.tdisp_codec.specs.Replies.{reply_spelling};
ghost use Rattle.interface_state.specs.Held.{FitsTdi};
ghost use Rattle.ide_types.specs.RegisterNames.{has_register, width_of};
ghost use Rattle.interface_state.specs.Machine.{new_device_interface, interface_after_call, LinkReset, state_code};
ghost use Rattle.interface_state.specs.Machine.{LevelReset, FirmwareUpdate};
ghost use Rattle.interface_state.specs.Machine.{WriteRegister};
ghost use Rattle.interface_ends.specs.Replies.{new_device_interfaces, is_elsewhere, is_left, any_left};
ghost use Rattle.interface_ends.specs.Replies.{settled_interface, is_owner};
ghost use Rattle.interface_ends.specs.Replies.{runs_on, runs_bound, is_bound_owner};

use crate::StreamSaid;
use crate::answer::answer_one;
use crate::front::{function, request_asked};
use crate::replies::{append, refused};
use ide_types::{InterfacePlan, Items, OutOfMemory};
use interface_state::{Binding, Bindings, ErrorCode, Interface, Register, TdiState};
use std::alloc::Global;
use std::marker::Model;
use tdisp_codec::RequestView;

/// The room that a reply needs, in bytes.
pub const TDISP_REPLY_ROOM: usize = 1_200;

/// The interfaces of a link's device, by their place on the link, and the nonces that it gives to locks, in order
/// (TDISP section 11.3).
#[derive(Drop)]
pub struct DeviceInterfaces {
    interfaces: Vec<Interface>,
    nonces: Vec<[u8; 32]>,
    used: usize,
}

impl Model for DeviceInterfaces {
    ghost use Rattle.interface_ends.specs.Replies.{DeviceTdis};

    ghost Value = { DeviceTdis };

    ghost view = { λ d. record { interfaces = d.interfaces.items; nonces = d.nonces.items; used = d.used } };
}

// Whether the function ID names a segment, and not segment 0.
fn is_elsewhere(function: u32) -> bool
    ensures { result ≡ is_elsewhere function }
{
    function / 0x100_0000 % 2 == 1 && function / 0x1_0000 % 256 != 0
}

// The interfaces that are laid out.
fn made(alloc: Global, plans: &[InterfacePlan]) -> Result<Vec<Interface>, OutOfMemory>
    requires { All FitsTdi plans.now }
    ensures { IfOk result (λ interfaces. interfaces.items ≡ map new_device_interface plans.now) }
{
    let mut interfaces = Vec::new(alloc);
    for plan in plans {
        interfaces.push(Interface::make(alloc, plan)?)?;
    }
    Ok(interfaces)
}

/// What the interfaces of a device ask of it: whether its streams are Secure there, those of its link and those between
/// it and others.
pub trait StreamStates {
    /// Whether the device has the stream, and it is Secure there.
    ghost is_secure: { Self → ℕ → Bool };

    /// Whether the device has the stream, and it is Secure there.
    fn is_secure(&self, stream: u8) -> bool
        ensures { result ≡ is_secure self.now stream };
}

// Whether it is bound to a stream that is not Secure.
fn is_left<P: StreamStates>(streams: &P, bound: Option<u8>) -> bool
    ensures { result ≡ is_left (P.is_secure streams.now) bound }
{
    match bound {
        None => false,
        Some(stream) => !streams.is_secure(stream),
    }
}

// Whether one of these is to a stream that is not Secure.
fn any_left<P: StreamStates>(streams: &P, bindings: &[Binding]) -> bool
    ensures { result ≡ any_left (P.is_secure streams.now) bindings.now }
{
    bindings
        .iter()
        .any(|binding| !streams.is_secure(binding.stream))
}

fn settle_one<P: StreamStates>(interface: &mut Interface, streams: &P)
    ensures { interface.new ≡ settled_interface (P.is_secure streams.now) interface.old }
{
    if is_left(streams, interface.bound()) || any_left(streams, interface.peers().as_slice()) {
        interface.stream_left();
    }
}

fn settle_all<P: StreamStates>(interfaces: &mut Vec<Interface>, streams: &P)
    ensures { interfaces.new.items ≡ map (settled_interface (P.is_secure streams.now)) interfaces.old.items }
{
    for interface in interfaces.iter_mut() {
        settle_one(interface, streams);
    }
}

// Whether it has this requester ID, and runs on this stream of its link.
fn is_owner(interface: &Interface, requester: u16, stream: u8) -> bool
    ensures { result ≡ is_owner requester stream interface.now }
{
    requester == interface.requester() && runs_on(interface.state_with_lock(), stream)
}

fn runs_on(state: &TdiState, stream: u8) -> bool
    ensures { result ≡ runs_on stream state.now }
{
    match state {
        TdiState::Run { lock } => lock.stream == stream,
        _ => false,
    }
}

// Whether it has this requester ID, and runs bound to this stream between two devices.
fn is_bound_owner(interface: &Interface, requester: u16, stream: u8) -> bool
    ensures { result ≡ is_bound_owner requester stream interface.now }
{
    requester == interface.requester()
        && runs_bound(interface.state_with_lock(), interface.peers(), stream)
}

fn runs_bound(state: &TdiState, peers: &Bindings, stream: u8) -> bool
    ensures { result ≡ runs_bound stream state.now peers.now }
{
    match state {
        TdiState::Run { .. } => peers.binds(stream),
        _ => false,
    }
}

fn reset_all(interfaces: &mut Vec<Interface>)
    ensures { interfaces.new.items ≡ map (λ tdi. interface_after_call tdi LinkReset) interfaces.old.items }
{
    for interface in interfaces.iter_mut() {
        interface.reset();
    }
}

impl DeviceInterfaces {
    ghost use Rattle.interface_ends.specs.Replies.{interface_place, has_requester, requester_in, next_nonce};
    ghost use Rattle.interface_ends.specs.Replies.{interface_reply, interfaces_after_call, asked_interfaces};
    ghost use Rattle.interface_ends.specs.Replies.{request_reply, interfaces_after_answer, answer_bytes};
    ghost use Rattle.interface_ends.specs.Replies.{settled_interfaces, reset_device_interfaces, called_at};
    ghost use Rattle.interface_ends.specs.Replies.{interfaces_set_t};
    ghost use Rattle.interface_ends.specs.Replies.{interfaces_set_peer_t};

    /// The interfaces of a link's device in CONFIG_UNLOCKED, and its nonces, none of them given.
    pub fn make(
        alloc: Global,
        plans: &Items<InterfacePlan>,
        nonces: &Items<[u8; 32]>,
    ) -> Result<DeviceInterfaces, OutOfMemory>
        requires { All FitsTdi plans.now }
        ensures { IfOk result (λ d. d ≡ new_device_interfaces plans.now nonces.now) }
    {
        let interfaces = made(alloc, plans.as_slice())?;
        let nonces = Vec::from_slice(alloc, nonces.as_slice())?;
        Ok(DeviceInterfaces {
            interfaces,
            nonces,
            used: 0,
        })
    }

    // The nonce that is given next.
    fn next_nonce(&self) -> Option<[u8; 32]>
        ensures value { result ≡ next_nonce self.now }
        ensures left { IsSome result → self.now.used < length self.now.nonces }
    {
        self.nonces.get(self.used).copied()
    }

    fn with_requester(&self, requester: u16) -> Option<usize>
        ensures { result ≡ position (has_requester requester) self.now.interfaces }
    {
        self.interfaces
            .iter()
            .position(|i| requester == i.requester())
    }

    // The place of the interface that a function ID names.
    fn place(&self, function: u32) -> Option<usize>
        ensures { result ≡ interface_place self.now function }
    {
        if is_elsewhere(function) {
            None
        } else {
            self.with_requester((function % 0x1_0000) as u16)
        }
    }

    // Answers a request to the interface at this place.
    fn answer_at_place(
        &mut self,
        place: usize,
        request: RequestView,
        said: StreamSaid,
        reply: &mut Vec<u8>,
    )
        requires exists { place < length self.old.interfaces }
        requires room { vec_len reply.old + TDISP_REPLY_ROOM ≤ vec_capacity reply.old }
        ensures device { IfSome (slice_get self.old.interfaces place) (λ tdi.
            self.new ≡ interfaces_after_call self.old (record { place = place; tdi = tdi }) request said) }
        ensures reply { IfSome (slice_get self.old.interfaces place) (λ tdi.
            reply.new.items ≡ reply.old.items
            ++ reply_spelling (interface_reply tdi request said (next_nonce self.old))) }
        ensures capacity { vec_capacity reply.old ≤ vec_capacity reply.new }
    {
        let nonce = self.next_nonce();
        let interface = &mut self.interfaces[place];
        if answer_one(interface, nonce, request, said, reply) {
            self.used += 1;
        }
    }

    // Answers a request that is read.
    fn answer_read(&mut self, request: RequestView, said: StreamSaid, reply: &mut Vec<u8>)
        requires { vec_len reply.old + TDISP_REPLY_ROOM ≤ vec_capacity reply.old }
        ensures device { self.new ≡ asked_interfaces self.old request said }
        ensures reply { reply.new.items ≡ reply.old.items ++ reply_spelling (request_reply self.old request said) }
        ensures capacity { vec_capacity reply.old ≤ vec_capacity reply.new }
    {
        let function = request_function(request);
        match self.place(function) {
            Some(place) => self.answer_at_place(place, request, said, reply),
            None => append(
                &refused(function, ErrorCode::InvalidInterface.code()),
                reply,
            ),
        }
    }

    /// Answers a message of TDISP, whose first byte says so: makes at most one call of one interface, and appends the
    /// reply. `said` is what the device says of the stream that the request names. `reply` has room for
    /// `TDISP_REPLY_ROOM` bytes, so it takes no memory. Refused in the order of `request_asked`, then INVALID_INTERFACE
    /// if no interface has the function ID, and then as the interface refuses the request.
    pub fn answer(&mut self, request: &[u8], said: StreamSaid, reply: &mut Vec<u8>)
        requires { vec_len reply.old + TDISP_REPLY_ROOM ≤ vec_capacity reply.old }
        ensures device { self.new ≡ interfaces_after_answer self.old request.now said }
        ensures reply { reply.new.items ≡ reply.old.items ++ answer_bytes self.old request.now said }
        ensures capacity { vec_capacity reply.old ≤ vec_capacity reply.new }
    {
        match request_asked(request) {
            Ok(request) => self.answer_read(request, said, reply),
            Err(code) => append(&refused(function(request), code.code()), reply),
        }
    }

    /// To be called after each call of the device's port: each interface in CONFIG_LOCKED or RUN goes to ERROR if one
    /// of the streams that it is bound to is not Secure there.
    pub fn settle<P: StreamStates>(&mut self, streams: &P)
        ensures { self.new ≡ settled_interfaces (P.is_secure streams.now) self.old }
    {
        settle_all(&mut self.interfaces, streams);
    }

    /// Whether a TLP with this owner (the requester of a request, the completer of a completion) has T on this stream
    /// of the link: it has if the owner is an interface in RUN that is locked with it.
    pub fn sets_t(&self, requester: u16, stream: u8) -> bool
        ensures { result ≡ interfaces_set_t self.now requester stream }
    {
        self.owner_place(requester, stream).is_some()
    }

    /// Whether it has T on this stream between two devices: it has if the owner is an interface in RUN that is bound to
    /// it.
    pub fn sets_peer_t(&self, requester: u16, stream: u8) -> bool
        ensures { result ≡ interfaces_set_peer_t self.now requester stream }
    {
        self.bound_owner_place(requester, stream).is_some()
    }

    fn bound_owner_place(&self, requester: u16, stream: u8) -> Option<usize>
        ensures { result ≡ position (is_bound_owner requester stream) self.now.interfaces }
    {
        self.interfaces
            .iter()
            .position(|i| is_bound_owner(i, requester, stream))
    }

    fn owner_place(&self, requester: u16, stream: u8) -> Option<usize>
        ensures { result ≡ position (is_owner requester stream) self.now.interfaces }
    {
        self.interfaces
            .iter()
            .position(|i| is_owner(i, requester, stream))
    }

    /// How many interfaces there are.
    pub fn count(&self) -> usize
        ensures { result ≡ length self.now.interfaces }
    {
        self.interfaces.len()
    }

    /// The interface at this place, lent.
    pub fn interface(&self, place: usize) -> &Interface
        requires { place < length self.now.interfaces }
        ensures { slice_get self.now.interfaces place ≡ Some result.now }
    {
        &self.interfaces[place]
    }

    /// The code of an interface's state: CONFIG_UNLOCKED 0, CONFIG_LOCKED 1, RUN 2, ERROR 3.
    pub fn state(&self, place: usize) -> u8
        requires { place < length self.now.interfaces }
        ensures { IfSome (slice_get self.now.interfaces place) (λ tdi. result ≡ state_code tdi.state) }
    {
        self.interfaces[place].state()
    }

    /// Whether an interface has this register.
    pub fn has_register(&self, place: usize, register: Register) -> bool
        requires { place < length self.now.interfaces }
        ensures { IfSome (slice_get self.now.interfaces place) (λ tdi. result ≡ has_register tdi.plan register) }
    {
        self.interfaces[place].has_register(register)
    }

    /// Writes a register that an interface has, with a value of its width.
    pub fn write_register(&mut self, place: usize, register: Register, value: u64)
        requires place { place < length self.old.interfaces }
        requires exists { IfSome (slice_get self.old.interfaces place) (λ tdi. has_register tdi.plan register ≡ true) }
        requires width { value < 2 ^ width_of register }
        ensures { IfSome (slice_get self.old.interfaces place) (λ tdi.
            self.new ≡ called_at self.old place tdi (WriteRegister register value)) }
    {
        let interface = &mut self.interfaces[place];
        interface.write_register(register, value);
    }

    /// Makes a function level reset of the interface at this place.
    pub fn flr(&mut self, place: usize)
        requires { place < length self.old.interfaces }
        ensures { IfSome (slice_get self.old.interfaces place) (λ tdi.
            self.new ≡ called_at self.old place tdi LevelReset) }
    {
        let interface = &mut self.interfaces[place];
        interface.flr();
    }

    /// Makes a firmware update at the interface at this place.
    pub fn firmware(&mut self, place: usize)
        requires { place < length self.old.interfaces }
        ensures { IfSome (slice_get self.old.interfaces place) (λ tdi.
            self.new ≡ called_at self.old place tdi FirmwareUpdate) }
    {
        let interface = &mut self.interfaces[place];
        interface.firmware();
    }

    /// Resets all interfaces, as a reset of the link does: each is in CONFIG_UNLOCKED, with the topology's registers.
    /// No nonce that was given is given again.
    pub fn reset(&mut self)
        ensures { self.new ≡ reset_device_interfaces self.old }
    {
        reset_all(&mut self.interfaces);
    }
}

// The function ID of a request.
fn request_function(request: RequestView) -> u32
    ensures { result ≡ request_function request }
{
    match request {
        RequestView::GetVersion { function }
        | RequestView::GetCapabilities { function }
        | RequestView::LockInterface { function, .. }
        | RequestView::GetDeviceInterfaceReport { function, .. }
        | RequestView::GetDeviceInterfaceState { function }
        | RequestView::StartInterface { function, .. }
        | RequestView::StopInterface { function }
        | RequestView::BindP2p { function, .. }
        | RequestView::UnbindP2p { function, .. } => function,
    }
}
