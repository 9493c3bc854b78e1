//! What the port and the interfaces of a device tell one another.

ghost use Rattle.std.specs.Prelude.{◌≡◌, ◌||◌, ℕ, Option, None, is_some};
ghost use Rattle.link_ends.specs.DeviceEnds.{says_secure, secure_at, secure_or_live, owner_sets, device_trusting};
ghost use Rattle.link_ends.specs.DeviceEnds.{bound_owner_sets, peer_trusting};

use ide_port::{Port, Trusting};
use ide_types::StreamStatus;
use interface_ends::{DeviceInterfaces, StreamStates};
use tlp_layout::{HeadView, owner};

/// What a device says of the streams between it and others, each by its own end of it (this profile).
pub trait PeerStreams {
    /// The draw that is Live where the device receives posted requests on a stream, if it is one between it and another
    /// device, and Secure at its end.
    ghost live: { Self → ℕ → Option ℕ };

    /// That draw.
    fn live(&self, stream: u8) -> Option<u32>
        ensures { result ≡ live self.now stream };
}

/// Of a device that has no stream between it and another: the port of a switch towards the host.
pub struct NoPeers {}

impl PeerStreams for NoPeers {
    ghost live = { λ s stream. None };

    fn live(&self, stream: u8) -> Option<u32> {
        let _ = stream;
        None
    }
}

/// The streams of a device, as its interfaces see them: those of its port, and those between it and others.
#[derive(Drop)]
pub struct SecureStreams<'a, P> {
    pub port: &'a Port,
    pub peers: &'a P,
}

fn says_secure(status: Option<StreamStatus>) -> bool
    ensures { result ≡ says_secure status }
{
    matches!(status, Some(StreamStatus::Secure))
}

/// Whether the port has the stream, and it is Secure there.
pub fn is_secure_at_port(port: &Port, stream: u8) -> bool
    ensures { result ≡ secure_at port.now stream }
{
    says_secure(port.status(stream))
}

// Whether it is Secure at the port, or at an end between devices.
fn is_either(secure: bool, live: Option<u32>) -> bool
    ensures { result ≡ secure || is_some live }
{
    secure || live.is_some()
}

impl<P: PeerStreams> StreamStates for SecureStreams<'_, P> {
    ghost is_secure = { λ s stream. secure_or_live s.port.now (P.live s.peers.now) stream };

    fn is_secure(&self, stream: u8) -> bool {
        is_either(
            is_secure_at_port(self.port, stream),
            self.peers.live(stream),
        )
    }
}

/// The interfaces of a device, by which its port sets T.
#[derive(Clone, Copy)]
pub struct Owners<'a> {
    pub interfaces: &'a DeviceInterfaces,
}

impl Trusting for Owners<'_> {
    ghost trusting = { λ o head stream. device_trusting o.interfaces.now head stream };

    fn is_trusted(&self, head: &HeadView, stream: u8) -> bool {
        match owner(head) {
            None => false,
            Some(requester) => self.interfaces.sets_t(requester, stream),
        }
    }
}

/// The interfaces of a device, by which its ends of streams between it and others set T.
#[derive(Clone, Copy)]
pub struct BoundOwners<'a> {
    pub interfaces: &'a DeviceInterfaces,
}

impl Trusting for BoundOwners<'_> {
    ghost trusting = { λ o head stream. peer_trusting o.interfaces.now head stream };

    fn is_trusted(&self, head: &HeadView, stream: u8) -> bool {
        match owner(head) {
            None => false,
            Some(requester) => self.interfaces.sets_peer_t(requester, stream),
        }
    }
}
