//! A device (this profile).

ghost use Rattle.std.specs.Prelude.{◌≡◌, ◌+◌, ◌<◌, ◌≤◌, ◌^◌, ◌++◌, ℕ, true, IfOk, IfSome, All, length};
ghost use Rattle.std.specs.Prelude.{slice_get, vec_len, vec_capacity};
ghost use Rattle.ide_types.specs.Fits.{FitsStream};
ghost use Rattle.interface_state.specs.Held.{FitsTdi};
ghost use Rattle.ide_types.specs.RegisterNames.{has_register, width_of};
ghost use Rattle.interface_state.specs.Machine.{state_code, LevelReset, FirmwareUpdate, WriteRegister};
ghost use Rattle.interface_ends.specs.Replies.{called_at};
ghost use Rattle.ide_port.specs.{IsSentAtPort, PortUnitsAtMost};
ghost use Rattle.interface_ends.specs.Replies.{interfaces_after_answer, answer_bytes, stream_named};
ghost use Rattle.link_ends.specs.DeviceEnds.{secure_at, protocol_of};

use crate::wiring::{Owners, PeerStreams, SecureStreams, is_secure_at_port};
use ide_port::{Port, SendBuffer, Sent};
use ide_types::{InterfacePlan, Items, OutOfMemory, PortName, Side, StreamPlan};
use interface_ends::{DeviceInterfaces, StreamSaid, stream_named};
use interface_state::Register;
use key_messages::Responder;
use std::alloc::Global;
use tlp_layout::OutgoingTlp;

// What a request is of, by its first byte.
enum Protocol {
    KeyManagement,
    Interfaces,
}

fn protocol_of(request: &[u8]) -> Option<Protocol>
    ensures { result ≡ protocol_of request.now }
{
    match request.first().copied() {
        Some(0) => Some(Protocol::KeyManagement),
        Some(1) => Some(Protocol::Interfaces),
        _ => None,
    }
}

/// The device of a link: its port with the link's streams, whose keys its responder moves, and its interfaces (PCI
/// Express Base 6.0 section 6.33 and chapter 11).
#[derive(Drop)]
pub struct Device {
    /// The port, whose keys are moved by `answer` alone. After an arrival there the caller calls `settle`.
    pub port: Port,
    /// The requester ID that the responder gives in its answer to QUERY.
    pub requester: u16,
    /// The interfaces, by their place on the link.
    pub interfaces: DeviceInterfaces,
}

impl Device {
    ghost use Rattle.link_ends.specs.DeviceEnds.{new_device, settled_device, asked_device, reply_given};
    ghost use Rattle.link_ends.specs.DeviceEnds.{device_trusting, said_of, answered_device, device_answer};

    /// The device of a line with these streams, without keys, and these interfaces, whose locks get these nonces; a key
    /// seals at most `limit` units. `requester` is the requester ID that it gives in its answer to QUERY, 0 if it has
    /// no interface.
    pub fn make(
        alloc: Global,
        line: u8,
        plans: &[StreamPlan],
        limit: u64,
        requester: u16,
        interfaces: &Items<InterfacePlan>,
        nonces: &Items<[u8; 32]>,
    ) -> Result<Device, OutOfMemory>
        requires streams { All FitsStream plans.now }
        requires interfaces { All FitsTdi interfaces.now }
        ensures { IfOk result (λ d. d ≡ new_device line plans.now limit requester interfaces.now nonces.now) }
    {
        let name = PortName {
            side: Side::Device,
            line,
        };
        let port = Port::make(alloc, name, plans, limit)?;
        let interfaces = DeviceInterfaces::make(alloc, interfaces, nonces)?;
        Ok(Device {
            port,
            requester,
            interfaces,
        })
    }

    /// Sends each interface in CONFIG_LOCKED or RUN to ERROR if a stream that it is bound to is not Secure at the
    /// device. `peers` says what stands at its ends of streams between it and others.
    pub fn settle<P: PeerStreams>(&mut self, peers: &P)
        ensures { self.new ≡ settled_device (P.live peers.now) self.old }
    {
        let streams = SecureStreams {
            port: &self.port,
            peers,
        };
        self.interfaces.settle(&streams);
    }

    // Answers a message of key management.
    fn answer_of_keys(&mut self, request: &[u8], draw: u32, reply: &mut Vec<u8>)
        requires { vec_len reply.old + 8 ≤ vec_capacity reply.old }
        ensures device { self.new ≡ asked_device self.old request.now draw }
        ensures reply { reply.new.items ≡ reply.old.items ++ reply_given self.old request.now draw }
        ensures capacity { vec_capacity reply.old ≤ vec_capacity reply.new }
    {
        let mut responder = Responder::make(self.requester);
        responder.answer(&mut self.port, request, draw, reply);
    }

    // What it says of the stream that a request names.
    fn said<P: PeerStreams>(&self, peers: &P, stream: Option<u8>) -> StreamSaid
        ensures { result ≡ said_of (P.live peers.now) self.now.port stream }
    {
        match stream {
            None => StreamSaid {
                secure: false,
                live: None,
            },
            Some(stream) => StreamSaid {
                secure: self.is_secure(stream),
                live: peers.live(stream),
            },
        }
    }

    // Answers a message of TDISP.
    fn answer_of_interfaces<P: PeerStreams>(
        &mut self,
        peers: &P,
        request: &[u8],
        reply: &mut Vec<u8>,
    )
        requires { vec_len reply.old + 1200 ≤ vec_capacity reply.old }
        ensures device { self.new ≡ record self.old {
          interfaces = interfaces_after_answer self.old.interfaces request.now
              (said_of (P.live peers.now) self.old.port (stream_named request.now));
        } }
        ensures reply { reply.new.items ≡ reply.old.items ++ answer_bytes self.old.interfaces request.now
            (said_of (P.live peers.now) self.old.port (stream_named request.now)) }
        ensures capacity { vec_capacity reply.old ≤ vec_capacity reply.new }
    {
        let said = self.said(peers, stream_named(request));
        self.interfaces.answer(request, said, reply);
    }

    /// Answers a request of any bytes. By its first byte it is of key management (00h) or of interfaces (01h); of any
    /// other, and of no bytes, nothing comes and nothing changes. `draw` is the number under which a
    /// KEY_PROG's key is kept; `peers` says what stands at its ends of streams between it and others. After the last
    /// request of an event that is of keys the caller calls `settle`. `reply` has 1,200 bytes of room, so it takes no
    /// memory.
    pub fn answer<P: PeerStreams>(
        &mut self,
        peers: &P,
        request: &[u8],
        draw: u32,
        reply: &mut Vec<u8>,
    )
        requires { vec_len reply.old + 1200 ≤ vec_capacity reply.old }
        ensures device { self.new ≡ answered_device (P.live peers.now) self.old request.now draw }
        ensures reply { reply.new.items ≡ reply.old.items
            ++ device_answer (P.live peers.now) self.old request.now draw }
        ensures capacity { vec_capacity reply.old ≤ vec_capacity reply.new }
    {
        match protocol_of(request) {
            Some(Protocol::KeyManagement) => self.answer_of_keys(request, draw, reply),
            Some(Protocol::Interfaces) => self.answer_of_interfaces(peers, request, reply),
            None => {}
        }
    }

    /// Whether the port has the stream, and it is Secure there.
    pub fn is_secure(&self, stream: u8) -> bool
        ensures { result ≡ secure_at self.now.port stream }
    {
        is_secure_at_port(&self.port, stream)
    }

    /// Sends a TLP's bytes, as its port does; T is set if the TLP's owner is an interface in RUN and the TLP takes the
    /// stream that the interface is bound to. `out` is left with what was sealed.
    pub fn send(&mut self, tlp: &OutgoingTlp, more: bool, out: &mut SendBuffer) -> Sent
        requires { PortUnitsAtMost (2 ^ 40) self.old.port }
        ensures sent { (number : ℕ) → IsSentAtPort self.old.port tlp.now more (device_trusting self.old.interfaces)
            number result self.new.port out.new }
        ensures others { self.new ≡ record self.old { port = self.new.port } }
    {
        let owners = Owners {
            interfaces: &self.interfaces,
        };
        self.port.send(tlp, more, &owners, out)
    }

    /// How many interfaces it has.
    pub fn count(&self) -> usize
        ensures { result ≡ length self.now.interfaces.interfaces }
    {
        self.interfaces.count()
    }

    /// The code of the state of the interface at this place: CONFIG_UNLOCKED 0, CONFIG_LOCKED 1, RUN 2, ERROR 3.
    pub fn state(&self, place: usize) -> u8
        requires { place < length self.now.interfaces.interfaces }
        ensures { IfSome (slice_get self.now.interfaces.interfaces place) (λ tdi. result ≡ state_code tdi.state) }
    {
        self.interfaces.state(place)
    }

    /// Whether the interface at this place has this register.
    pub fn has_register(&self, place: usize, register: Register) -> bool
        requires { place < length self.now.interfaces.interfaces }
        ensures { IfSome (slice_get self.now.interfaces.interfaces place)
            (λ tdi. result ≡ has_register tdi.plan register) }
    {
        self.interfaces.has_register(place, register)
    }

    /// Writes a register that the interface at this place has, with a value of its width.
    pub fn write_register(&mut self, place: usize, register: Register, value: u64)
        requires place { place < length self.old.interfaces.interfaces }
        requires exists { IfSome (slice_get self.old.interfaces.interfaces place)
            (λ tdi. has_register tdi.plan register ≡ true) }
        requires width { value < 2 ^ width_of register }
        ensures { IfSome (slice_get self.old.interfaces.interfaces place) (λ tdi. self.new ≡ record self.old {
          interfaces = called_at self.old.interfaces place tdi (WriteRegister register value);
        }) }
    {
        self.interfaces.write_register(place, register, value)
    }

    /// Makes a function level reset of the interface at this place.
    pub fn flr(&mut self, place: usize)
        requires { place < length self.old.interfaces.interfaces }
        ensures { IfSome (slice_get self.old.interfaces.interfaces place) (λ tdi. self.new ≡ record self.old {
          interfaces = called_at self.old.interfaces place tdi LevelReset;
        }) }
    {
        self.interfaces.flr(place)
    }

    /// Makes a firmware update at the interface at this place.
    pub fn firmware(&mut self, place: usize)
        requires { place < length self.old.interfaces.interfaces }
        ensures { IfSome (slice_get self.old.interfaces.interfaces place) (λ tdi. self.new ≡ record self.old {
          interfaces = called_at self.old.interfaces place tdi FirmwareUpdate;
        }) }
    {
        self.interfaces.firmware(place)
    }
}
