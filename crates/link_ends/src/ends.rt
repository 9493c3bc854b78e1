//! The two ends of a link.

ghost use Rattle.std.specs.Prelude.{◌≡◌, ◌^◌, ℕ, IfOk, All};
ghost use Rattle.ide_types.specs.Fits.{FitsStream};
ghost use Rattle.interface_state.specs.Held.{FitsTdi};
ghost use Rattle.ide_prefix.specs.Reading.{cut_of};
ghost use Rattle.ide_port.specs.{IsSentAtPort, PortUnitsAtMost, take_step};

use crate::Device;
use ide_port::{Arrival, FixedTrust, Port, SendBuffer, Sent};
use ide_types::{InterfacePlan, Items, OutOfMemory, PortName, Side, StreamPlan};
use std::alloc::Global;
use tlp_layout::OutgoingTlp;

/// A link: its host's port, and its device (PCI Express Base 6.0 section 6.33 and chapter 11, in this profile).
#[derive(Drop)]
pub struct LinkEnds {
    pub host: Port,
    pub device: Device,
}

impl LinkEnds {
    ghost use Rattle.link_ends.specs.Ends.{new_ends, port_in, with_port, trusting_at};

    /// The ends of a line, a link or a hop's segment towards the host, with these streams, without keys; a key seals at
    /// most `limit` units. `requester` is the requester ID that the device gives in its answer to QUERY, 0 if it has no
    /// interface; it has these interfaces, whose locks get these nonces. Returns `OutOfMemory` for want of memory.
    pub fn make(
        alloc: Global,
        line: u8,
        plans: &[StreamPlan],
        limit: u64,
        requester: u16,
        interfaces: &Items<InterfacePlan>,
        nonces: &Items<[u8; 32]>,
    ) -> Result<LinkEnds, OutOfMemory>
        requires streams { All FitsStream plans.now }
        requires interfaces { All FitsTdi interfaces.now }
        ensures { IfOk result (λ l. l ≡ new_ends line plans.now limit requester interfaces.now nonces.now) }
    {
        let name = PortName {
            side: Side::Host,
            line,
        };
        let host = Port::make(alloc, name, plans, limit)?;
        let device = Device::make(alloc, line, plans, limit, requester, interfaces, nonces)?;
        Ok(LinkEnds { host, device })
    }

    /// Sends a TLP's bytes at the port of this side. A host's port sets T as it is asked. A device's port sets T if the
    /// TLP's owner is an interface in RUN and the TLP takes the stream that the interface is bound to. `out` is left
    /// with what was sealed.
    pub fn send(
        &mut self,
        side: Side,
        tlp: &OutgoingTlp,
        more: bool,
        trusted: bool,
        out: &mut SendBuffer,
    ) -> Sent
        requires few { PortUnitsAtMost (2 ^ 40) (port_in side self.old) }
        ensures sent { (number : ℕ) → IsSentAtPort (port_in side self.old) tlp.now more
            (trusting_at side self.old trusted) number result (port_in side self.new) out.new }
        ensures ends { self.new ≡ with_port side (port_in side self.new) self.old }
    {
        match side {
            Side::Host => self.host.send(tlp, more, &FixedTrust(trusted), out),
            Side::Device => self.device.send(tlp, more, out),
        }
    }

    /// The port of this side, lent.
    pub fn port(&self, side: Side) -> &Port
        ensures { result.now ≡ port_in side self.now }
    {
        match side {
            Side::Host => &self.host,
            Side::Device => &self.device.port,
        }
    }

    /// Takes bytes that arrive at the port of this side. What an accepted unit carries is lent by the port until the
    /// next arrival. At the device's port the caller then settles the device.
    pub fn take(&mut self, side: Side, bytes: &[u8]) -> Arrival
        requires { PortUnitsAtMost (2 ^ 40) (port_in side self.old) }
        ensures answer { result ≡ (take_step (port_in side self.old) (cut_of bytes.now)).answer }
        ensures ends { self.new ≡ with_port side (take_step (port_in side self.old) (cut_of bytes.now)).port self.old }
    {
        match side {
            Side::Host => self.host.take(bytes),
            Side::Device => self.device.port.take(bytes),
        }
    }
}
