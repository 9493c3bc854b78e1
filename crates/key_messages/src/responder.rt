//! The device's responder.

ghost use Rattle.std.specs.Prelude.{◌≡◌, ◌+◌, ◌<◌, ◌≤◌, ◌++◌, Some, None, length, slice_index, if◌then◌else◌, vec_len};
ghost use Rattle.std.specs.Prelude.{vec_capacity};
ghost use Rattle.key_slots.specs.{is_one};
ghost use Rattle.key_messages.specs.Replies.{set_of, selected_place, object_call, call_of, HasMoved, HasKept};
ghost use Rattle.key_messages.specs.Replies.{key_status_of, is_done, description, object_reply, fault_reply};
ghost use Rattle.key_messages.specs.Replies.{reply_bytes, object_bytes};

use crate::object::KmView;
use crate::place::Place;
use crate::port::SlotPort;
use crate::reading::km_read;
use crate::status::KeyStatus;
use crate::writing::km_write;
use ide_types::{Direction, KeySet};
use key_slots::Key;

/// The responder of a device's port: it answers requests of key management (PCI Express Base 6.0 section 6.33, in
/// this profile's layout).
#[derive(Clone, Copy)]
pub struct Responder {
    rid: u16,
}

// The key set that a selector names, and the place.
fn selected_set(selector: u8) -> KeySet
    ensures { is_one result ≡ set_of selector }
{
    KeySet::of_bit(selector % 2 == 1)
}

fn selected_place(stream: u8, selector: u8) -> Place
    ensures { result ≡ selected_place stream selector }
{
    Place {
        stream,
        direction: Direction::of_bit(selector / 2 % 2 == 1),
        sub: selector / 16,
    }
}

/// Programs a key, if the port index is 0 and the initial counter is 1.
fn program<P: SlotPort>(
    port: &mut P,
    stream: u8,
    selector: u8,
    index: u8,
    key: [u8; 32],
    counter: u64,
    draw: u32,
) -> KeyStatus
    ensures moved { let call = object_call draw (KmView.KeyProg stream selector index key counter) in
        HasMoved P.moves port.old call port.new }
    ensures slots { let call = object_call draw (KmView.KeyProg stream selector index key counter) in
        HasKept (P.slots port.old) (P.unfinished port.old) call (P.slots port.new) }
    ensures status { let call = object_call draw (KmView.KeyProg stream selector index key counter) in
        result ≡ key_status_of index (is_done (P.slots port.old) call) }
{
    if index != 0 {
        return KeyStatus::Port;
    }
    if counter != 1 {
        return KeyStatus::Refused;
    }
    match port.program(
        selected_place(stream, selector),
        selected_set(selector),
        Key::of(key),
        draw,
    ) {
        Ok(()) => KeyStatus::Success,
        Err(_) => KeyStatus::Refused,
    }
}

/// Starts or stops a slot, if the port index is 0, and answers whether it did.
fn go<P: SlotPort>(port: &mut P, stream: u8, selector: u8, index: u8, draw: u32) -> bool
    ensures moved { let call = object_call draw (KmView.SetGo stream selector index) in
        HasMoved P.moves port.old call port.new }
    ensures slots { let call = object_call draw (KmView.SetGo stream selector index) in
        HasKept (P.slots port.old) (P.unfinished port.old) call (P.slots port.new) }
    ensures done { result ≡ is_done (P.slots port.old) (object_call draw (KmView.SetGo stream selector index)) }
{
    index == 0 && port.go(selected_place(stream, selector), selected_set(selector))
}

fn stop<P: SlotPort>(port: &mut P, stream: u8, selector: u8, index: u8, draw: u32) -> bool
    ensures moved { let call = object_call draw (KmView.SetStop stream selector index) in
        HasMoved P.moves port.old call port.new }
    ensures slots { let call = object_call draw (KmView.SetStop stream selector index) in
        HasKept (P.slots port.old) (P.unfinished port.old) call (P.slots port.new) }
    ensures done { result ≡ is_done (P.slots port.old) (object_call draw (KmView.SetStop stream selector index)) }
{
    index == 0 && port.stop(selected_place(stream, selector), selected_set(selector))
}

/// Acknowledges what was done.
fn acknowledgement(done: bool, stream: u8, selector: u8, port: u8) -> Option<KmView>
    ensures { result ≡ (if done then Some (KmView.GoStopAck stream selector port) else None) }
{
    done.then_some(KmView::GoStopAck {
        stream,
        selector,
        port,
    })
}

/// The byte at a place, 0 if it is missing.
fn byte(bytes: &[u8], place: usize) -> u8
    ensures { result ≡ slice_index bytes.now place }
{
    match bytes.get(place) {
        Some(byte) => *byte,
        None => 0,
    }
}

/// The reply to a request that is no object.
fn refusal(request: &[u8]) -> Option<KmView>
    ensures { result ≡ fault_reply request.now }
{
    if request.len() < 2 || request[0] != 0 || request[1] != 2 {
        return None;
    }
    Some(KmView::KpAck {
        stream: byte(request, 4),
        status: KeyStatus::Length.code(),
        selector: byte(request, 6),
        port: byte(request, 7),
    })
}

/// Appends the reply, if there is one.
fn append(object: Option<KmView>, reply: &mut Vec<u8>)
    requires { vec_len reply.old + length (object_bytes object) ≤ vec_capacity reply.old }
    ensures items { reply.new.items ≡ reply.old.items ++ object_bytes object }
    ensures capacity { vec_capacity reply.old ≤ vec_capacity reply.new }
{
    if let Some(object) = object {
        km_write(&object, reply);
    }
}

impl Responder {
    /// The responder of a device whose first interface has this requester ID, 0 if there is none.
    pub fn make(rid: u16) -> Responder
        ensures { result ≡ record { rid = rid } }
    {
        Responder { rid }
    }

    /// What the port is.
    fn describe(&self) -> KmView
        ensures { result ≡ description self.now.rid }
    {
        let [bus, device_function] = self.rid.to_be_bytes();
        KmView::QueryResp {
            port: 0,
            device_function,
            bus,
            segment: 0,
            highest: 0,
        }
    }

    /// Makes the call of the port that the object asks for, and answers the reply.
    fn respond<P: SlotPort>(&self, port: &mut P, object: KmView, draw: u32) -> Option<KmView>
        ensures moved { HasMoved P.moves port.old (object_call draw object) port.new }
        ensures slots { let call = object_call draw object in
            HasKept (P.slots port.old) (P.unfinished port.old) call (P.slots port.new) }
        ensures reply { result ≡ object_reply self.now.rid object (is_done (P.slots port.old)
            (object_call draw object)) }
        ensures short { length (object_bytes result) ≤ 8 }
    {
        match object {
            KmView::Query { port: 0 } => Some(self.describe()),
            KmView::KeyProg {
                stream,
                selector,
                port: index,
                key,
                counter,
            } => {
                let status = program(port, stream, selector, index, key, counter, draw);
                Some(KmView::KpAck {
                    stream,
                    status: status.code(),
                    selector,
                    port: index,
                })
            }
            KmView::SetGo {
                stream,
                selector,
                port: index,
            } => {
                let done = go(port, stream, selector, index, draw);
                acknowledgement(done, stream, selector, index)
            }
            KmView::SetStop {
                stream,
                selector,
                port: index,
            } => {
                let done = stop(port, stream, selector, index, draw);
                acknowledgement(done, stream, selector, index)
            }
            _ => None,
        }
    }

    /// Answers a request: makes at most one call of the port, and appends the reply, or nothing. `draw` is the
    /// number under which a KEY_PROG's key is kept. `reply` has 8 bytes of room, so it takes no memory (this
    /// profile).
    pub fn answer<P: SlotPort>(
        &mut self,
        port: &mut P,
        request: &[u8],
        draw: u32,
        reply: &mut Vec<u8>,
    )
        requires { vec_len reply.old + 8 ≤ vec_capacity reply.old }
        ensures same { self.new ≡ self.old }
        ensures moved { HasMoved P.moves port.old (call_of request.now draw) port.new }
        ensures slots { let call = call_of request.now draw in
            HasKept (P.slots port.old) (P.unfinished port.old) call (P.slots port.new) }
        ensures reply { let done = is_done (P.slots port.old) (call_of request.now draw) in
            reply.new.items ≡ reply.old.items ++ reply_bytes self.old.rid request.now done }
        ensures capacity { vec_capacity reply.old ≤ vec_capacity reply.new }
    {
        let object = match km_read(request) {
            Ok(object) => self.respond(port, object, draw),
            Err(_) => refusal(request),
        };
        append(object, reply);
    }
}
