//! The ends of all lines.

ghost use Rattle.std.specs.Prelude.{◌≡◌, ◌==◌, ◌<◌, ◌≤◌, ◌^◌, ◌-◌, ℕ, Some, true, false, not, IfOk, IfSome};
ghost use Rattle.std.specs.Prelude.{IsSome, is_some, length, option_map, slice_get, slice_set};
ghost use Rattle.ide_types.specs.Ports.{host_port};
ghost use Rattle.ide_prefix.specs.Reading.{cut_of};
ghost use Rattle.ide_port.specs.{PortEnd, PortUnitsAtMost, take_step};
ghost use Rattle.arrival_verdicts.specs.Verdicts.{grants_in};
ghost use Rattle.key_host.specs.Operations.{op_name};
ghost use Rattle.key_host.specs.Managers.{named_stream};
ghost use Rattle.spec_keys.specs.Operations.{work_of};
ghost use Rattle.spec_interfaces.specs.Peers.{has_peer};
ghost use Rattle.std.specs.Option.{option_and_then};
ghost use Rattle.all_ends.specs.Places.{number_on_links, place_on_links, small_number};
ghost use Rattle.all_ends.specs.Ends.{pair_port, with_pair_port, changed_at, cleared_ends, cleared_pair, settled_ends};
ghost use Rattle.all_ends.specs.Ends.{unlocked_ends, line_place, peer_live};
ghost use Rattle.all_ends.specs.declared.places.LinePlace.TheVariants.{Pair};
ghost use Rattle.ide_types.specs.RegisterNames.{has_register, width_of};
ghost use Rattle.interface_state.specs.Machine.{WriteRegister, LevelReset, FirmwareUpdate, state_code};

use crate::making::{add_peer_rows, hop_rows, link_ends, near_ends, pair_ends};
use crate::peers::{DevicePeers, has_peer};
use crate::places::{LinePlace, line_place, number_behind};
use crate::sending::{bound_on, seal_hosted, seal_pair, send_far, send_near, send_peer};
use arrival_verdicts::{ReceivingPort, switch_verdict, taken_verdict};
use event_verdicts::Verdict;
use hop_queues::HopQueues;
use ide_port::{Arrival, Port, SendBuffer, Sent};
use ide_types::{
    BarPlan, Direction, OutOfMemory, PeerPlan, PortName, Register, Side, StreamStatus, SubKind,
    ValidPlan,
};
use interface_host::{InterfaceOperation, Interfaces};
use key_host::{NamedOperation, StreamOutcome};
use link_ends::{HostKeeper, LinkEnds, PairEnds, PeerStreams};
use link_stores::{Accesses, LinkAccesses};
use script_events::Loss;
use std::alloc::Global;
use std::marker::Model;
use tlp_layout::OutgoingTlp;
use trusted_memory::Trusted;

/// How many lines of hops come before those of streams between devices, among those that are keyed by messages at both
/// ends.
const HOPS: usize = 8;

/// The ends of all lines, by number (PCI Express Base 6.0 section 6.33 and chapter 11, in this profile). A port is an
/// end of its link, or of a hop's segment if it is a switch's.
#[derive(Drop)]
pub struct AllEnds {
    links: Vec<LinkEnds>,
    near: Vec<LinkEnds>,
    pairs: Vec<PairEnds>,
    peers: Vec<PeerPlan>,
}

impl Model for AllEnds {
    ghost use Rattle.all_ends.specs.Ends.{EndsView};

    ghost Value = { EndsView };

    ghost view = { λ a. record {
      links = a.links.items;
      near = a.near.items;
      pairs = a.pairs.items;
      peers = a.peers.items;
    } };
}

impl AllEnds {
    ghost use Rattle.all_ends.specs.Ends.{new_all_ends, port_on, settled_link, settled_first_links, cleared_on};
    ghost use Rattle.all_ends.specs.Ends.{all_cleared, unlocked_link, settled_place};
    ghost use Rattle.all_ends.specs.AllEnds.{SealsAtEnd, SendsAtEnd, TakesAt, ComesAtEnd, ArrivesAtEnd, Leaves};
    ghost use Rattle.all_ends.specs.AllEnds.{has_stream_at, sealing_draw_on};
    ghost use Rattle.all_ends.specs.AllEnds.{WaitsAtEnd};
    ghost use Rattle.all_ends.specs.AllEnds.{OperatesAt};
    ghost use Rattle.all_ends.specs.AllEnds.{told_by_line, drawn_on_line, AsksAtLink, CallsAtLink, IsThere, ResetsAt};
    ghost use Rattle.all_ends.specs.AllEnds.{settled_by_side, statuses_of};
    ghost use Rattle.all_ends.specs.States.{EndsUnitsAtMost};

    /// The ends of the plan's lines, without keys. Returns `OutOfMemory` for want of memory.
    pub fn make(alloc: Global, plan: &ValidPlan) -> Result<AllEnds, OutOfMemory>
        ensures { IfOk result (λ a. a ≡ new_all_ends plan.now) }
    {
        let plan = plan.plan();
        let limit = plan.units_per_key;
        let links = link_ends(alloc, plan.links.as_slice(), limit)?;
        let mut rows = hop_rows(alloc, plan.links.as_slice())?;
        let near = near_ends(alloc, &rows, limit)?;
        add_peer_rows(alloc, &mut rows, plan.peers.as_slice())?;
        let pairs = pair_ends(alloc, &rows, limit)?;
        let mut peers = Vec::new(alloc);
        peers.extend_from_slice(plan.peers.as_slice())?;
        Ok(AllEnds {
            links,
            near,
            pairs,
            peers,
        })
    }

    /// How many links there are.
    pub fn count(&self) -> usize
        ensures value { result ≡ length self.now.links }
        ensures small { result < 2 ^ 63 }
    {
        self.links.len()
    }

    /// The two ends of a link, lent.
    pub fn link(&self, link: u8) -> &LinkEnds
        requires { link < length self.now.links }
        ensures { slice_get self.now.links link ≡ Some result.now }
    {
        &self.links[link as usize]
    }

    /// What stands at an end, lent; `None` if there is no such end.
    pub fn port(&self, end: PortName) -> Option<&Port>
        ensures { option_map (λ e. e.now) result ≡ port_on self.now end }
    {
        match line_place(end.line) {
            LinePlace::Link(i) => Some(self.links.get(i)?.port(end.side)),
            LinePlace::Near(i) => Some(self.near.get(i)?.port(end.side)),
            LinePlace::Pair(i) => Some(&self.pairs.get(i)?.end(end.side).port),
        }
    }

    /// Whether there is such an end.
    pub fn has_end(&self, end: PortName) -> bool
        ensures { result ≡ is_some (port_on self.now end) }
    {
        self.port(end).is_some()
    }

    /// The draw that is Live where the link's device receives posted requests on the stream between devices that has
    /// this ID, if that stream is Secure there; `None` also if there is none.
    pub fn live(&self, link: u8, stream: u8) -> Option<u32>
        ensures { result ≡ peer_live self.now link stream }
    {
        let peers = DevicePeers {
            pairs: &self.pairs,
            peers: &self.peers,
            link: link as usize,
        };
        peers.live(stream)
    }

    /// Whether the link's device has the stream between devices of this line and ID.
    pub fn has_peer(&self, link: u8, line: u64, stream: u64) -> bool
        ensures { result ≡ has_peer self.now.peers link line stream }
    {
        has_peer(&self.peers, link, line, stream)
    }

    // Sends at an end of a line that is keyed by messages at both and is kept at this place.
    fn send_pair(
        &mut self,
        end: PortName,
        i: usize,
        tlp: &OutgoingTlp,
        more: bool,
        trusted: bool,
        out: &mut SendBuffer,
    ) -> Sent
        requires place { Pair i ≡ line_place end.line }
        requires here { IsSome (port_on self.old end) }
        requires few { EndsUnitsAtMost (2 ^ 40) self.old }
        ensures { SendsAtEnd self.old end tlp.now more trusted result self.new out.new }
    {
        if i < HOPS {
            send_far(&mut self.pairs[i], end.side, tlp, more, trusted, out)
        } else {
            let interfaces = bound_on(&self.links, &self.peers, end.side, i - HOPS);
            send_peer(&mut self.pairs[i], end.side, tlp, more, interfaces, out)
        }
    }

    /// Sends a TLP's bytes at an end. At a host's port and at a switch T is set as it is asked. A device's port sets T
    /// if the TLP's owner is an interface in RUN, on its link if the TLP takes the stream that the interface's lock
    /// names, on a stream between devices if the interface is bound to it; it sets none on a hop's segment. `out` is
    /// left with what was sealed.
    pub fn send(
        &mut self,
        end: PortName,
        tlp: &OutgoingTlp,
        more: bool,
        trusted: bool,
        out: &mut SendBuffer,
    ) -> Sent
        requires here { IsSome (port_on self.old end) }
        requires few { EndsUnitsAtMost (2 ^ 40) self.old }
        ensures { SendsAtEnd self.old end tlp.now more trusted result self.new out.new }
    {
        match line_place(end.line) {
            LinePlace::Link(i) => self.links[i].send(end.side, tlp, more, trusted, out),
            LinePlace::Near(i) => {
                send_near(&mut self.near[i], end.side, tlp, more, trusted, out)
            }
            LinePlace::Pair(i) => self.send_pair(end, i, tlp, more, trusted, out),
        }
    }

    /// Whether an end has a stream.
    pub fn has_stream(&self, end: PortName, stream: u8) -> bool
        ensures { result ≡ has_stream_at self.now end stream }
    {
        match self.port(end) {
            None => false,
            Some(port) => port.status(stream).is_some(),
        }
    }

    /// The draw that an end seals a sub-stream of a stream under; `None` if it has no key for it.
    pub fn sealing_draw(&self, end: PortName, stream: u8, sub: SubKind) -> Option<u32>
        ensures { result ≡ sealing_draw_on self.now end stream sub }
    {
        self.port(end)?.sealing_draw(stream, sub)
    }

    /// Sends a completion at an end, on the stream of this ID, with this T, whatever stream association gives it. `out`
    /// is left with what was sealed.
    pub fn complete(
        &mut self,
        end: PortName,
        stream: u8,
        trusted: bool,
        tlp: &OutgoingTlp,
        out: &mut SendBuffer,
    ) -> Sent
        requires here { IsSome (port_on self.old end) }
        requires few { EndsUnitsAtMost (2 ^ 40) self.old }
        ensures { SealsAtEnd self.old end tlp.now stream trusted result self.new out.new }
    {
        match line_place(end.line) {
            LinePlace::Link(i) => {
                seal_hosted(&mut self.links[i], end.side, stream, trusted, tlp, out)
            }
            LinePlace::Near(i) => {
                seal_hosted(&mut self.near[i], end.side, stream, trusted, tlp, out)
            }
            LinePlace::Pair(i) => {
                seal_pair(&mut self.pairs[i], end.side, stream, trusted, tlp, out)
            }
        }
    }

    // Takes bytes that arrive at an end.
    fn take(&mut self, end: PortName, bytes: &[u8]) -> Arrival
        requires here { IsSome (port_on self.old end) }
        requires few { EndsUnitsAtMost (2 ^ 40) self.old }
        ensures { TakesAt self.old end bytes.now result self.new }
    {
        match line_place(end.line) {
            LinePlace::Link(i) => self.links[i].take(end.side, bytes),
            LinePlace::Near(i) => self.near[i].take(end.side, bytes),
            LinePlace::Pair(i) => take_pair(&mut self.pairs[i], end.side, bytes),
        }
    }

    // The interfaces of a link's device that are bound to a stream that is not Secure there leave their lock.
    fn settle_link(&mut self, link: usize)
        ensures { self.new ≡ settled_link self.old link }
    {
        let peers = DevicePeers {
            pairs: &self.pairs,
            peers: &self.peers,
            link,
        };
        settle_one(&mut self.links, link, &peers);
    }

    // So at a device's port.
    fn settle_port(&mut self, port: PortName)
        ensures { self.new ≡ settled_by_side port self.old }
    {
        match port.side {
            Side::Host => {}
            Side::Device => self.settle_link(port.line as usize),
        }
    }

    // So at both devices of a stream between them, by its place among the lines that are keyed by messages at both
    // ends.
    fn settle_pair(&mut self, i: usize)
        ensures { self.new ≡ settled_place (Pair i) self.old }
    {
        if i >= HOPS {
            if let Some(peer) = self.peers.get(i - HOPS) {
                let PeerPlan { near, far, .. } = *peer;
                self.settle_link(near as usize);
                self.settle_link(far as usize);
            }
        }
    }

    // So at the devices of so many links.
    fn settle_first(&mut self, count: usize)
        ensures { self.new ≡ settled_first_links count self.old }
    {
        if count > 0 {
            self.settle_first(count - 1);
            self.settle_link(count - 1);
        }
    }

    // The verdict of an arrival at an end that is at this port of a host or a device, before the device's interfaces
    // settle.
    fn arrived(
        &self,
        end: PortName,
        port: PortName,
        arrival: Arrival,
        manager: &Interfaces,
        memory: &mut Trusted,
        access: &mut LinkAccesses,
    ) -> Verdict
        requires here { IsSome (port_on self.now end) }
        requires link { port.line < length self.now.links }
        requires spare { 8 ≤ memory.old.spare }
        requires pages { 16 ≤ access.old.guarded.spare }
        ensures comes { ComesAtEnd self.now memory.old.contents.regions (grants_in manager.now) end port arrival result
            memory.old.contents memory.new.contents access.old access.new }
        ensures regions { memory.new.contents.regions ≡ memory.old.contents.regions }
    {
        let at = ReceivingPort {
            end,
            port,
            manager,
            interfaces: &self.links[port.line as usize].device.interfaces,
        };
        let packets = self.port(end).unwrap().delivered();
        taken_verdict(&at, arrival, &packets, memory, access)
    }

    /// Takes bytes that arrive at an end which is at this port of a host or a device, and answers the verdict. Of a
    /// unit that is accepted at a host's port, the writes that the manager of interfaces admits go to trusted memory,
    /// and reads with T wait for their answer. Of a unit that is accepted at a device's port, writes go to the memory
    /// of the device's interfaces, and reads of it wait, as these stood before it. If there is no such end nothing
    /// changes.
    pub fn arrive(
        &mut self,
        end: PortName,
        port: PortName,
        bytes: &[u8],
        manager: &Interfaces,
        memory: &mut Trusted,
        accesses: &mut Accesses,
    ) -> Verdict
        requires link { port.line < length self.old.links }
        requires few { EndsUnitsAtMost (2 ^ 40) self.old }
        requires spare { 8 ≤ memory.old.spare }
        requires access { port.line < length accesses.old }
        requires pages { IfSome (slice_get accesses.old port.line) (λ a. 16 ≤ a.guarded.spare) }
        ensures arrives { ArrivesAtEnd self.old accesses.old memory.old.contents.regions (grants_in manager.now) end
            port bytes.now result memory.old.contents memory.new.contents self.new accesses.new }
        ensures absent { is_some (port_on self.old end) ≡ false → Leaves result self.old memory.old.contents
            accesses.old self.new memory.new.contents accesses.new }
        ensures regions { memory.new.contents.regions ≡ memory.old.contents.regions }
    {
        if !self.has_end(end) {
            return Verdict::Nothing;
        }
        let access = accesses.at_mut(port.line);
        let arrival = self.take(end, bytes);
        let verdict = self.arrived(end, port, arrival, manager, memory, access);
        self.settle_port(port);
        verdict
    }

    /// Takes bytes that arrive at an end at a switch, and answers the verdict. Each TLP of a unit that is accepted
    /// waits to be forwarded in this direction, if there is room for it and it is no longer than a TLP may be.
    pub fn arrive_at_switch(
        &mut self,
        end: PortName,
        bytes: &[u8],
        queues: &mut HopQueues,
        direction: Direction,
    ) -> Verdict
        requires here { IsSome (port_on self.old end) }
        requires few { EndsUnitsAtMost (2 ^ 40) self.old }
        ensures { WaitsAtEnd self.old end bytes.now direction result queues.old self.new queues.new }
    {
        let arrival = self.take(end, bytes);
        let packets = self.port(end).unwrap().delivered();
        switch_verdict(end, end, arrival, &packets, queues, direction)
    }

    /// The states of a stream at the near end of its line and at the far end; `None` if the line has no such stream.
    pub fn status(&self, line: u8, stream: u8) -> Option<(StreamStatus, StreamStatus)>
        ensures { result ≡ statuses_of self.now line stream }
    {
        let near = PortName {
            side: Side::Host,
            line,
        };
        let far = PortName {
            side: Side::Device,
            line,
        };
        let near = self.port(near)?.status(stream)?;
        let far = self.port(far)?.status(stream)?;
        Some((near, far))
    }

    /// Whether the interface at this place on the link is in RUN.
    pub fn runs(&self, link: u8, place: usize) -> bool
        requires here { IsThere self.now link place }
        ensures { IfSome (slice_get self.now.links link) (λ l. IfSome (slice_get l.device.interfaces.interfaces place)
            (λ tdi. result ≡ (state_code tdi.state == 2))) }
    {
        self.links[link as usize].device.state(place) == 2
    }

    /// The base address registers that the topology lays out for the interface at this place on the link, by number.
    pub fn bars(&self, link: u8, place: usize) -> &[BarPlan]
        requires here { IsThere self.now link place }
        ensures { IfSome (slice_get self.now.links link) (λ l. IfSome (slice_get l.device.interfaces.interfaces place)
            (λ tdi. result.now ≡ tdi.plan.bars)) }
    {
        self.links[link as usize]
            .device
            .interfaces
            .interface(place)
            .planned_bars()
    }

    /// Begins an operation of the manager on a stream of this line, or goes on with it, and carries its exchanges until
    /// it is done or refused, or `loss` loses one. Interfaces of the devices at its ends that are bound to a stream
    /// that is then not Secure there leave their lock.
    pub fn operate(
        &mut self,
        line: u8,
        keeper: &mut HostKeeper,
        op: NamedOperation,
        loss: Option<Loss>,
    ) -> StreamOutcome
        requires here { IsSome (port_on self.old (host_port line)) }
        requires stream { IsSome (named_stream keeper.old.keys.manager (op_name op).line (op_name op).stream) }
        ensures operates { OperatesAt self.old line keeper.old.keys op loss result self.new keeper.new.keys }
        ensures interfaces { IfSome (named_stream keeper.old.keys.manager (op_name op).line (op_name op).stream) (λ n.
            let begins = (work_of (op_name op).operation n.stream.op 0).begins in
            let draw = keeper.old.keys.pool.draws in
            let drew = not (keeper.new.keys.pool.draws == draw) in
            keeper.new.interfaces ≡ told_by_line line op begins drew draw result keeper.old.interfaces) }
        ensures peer_draws { let draw = keeper.old.keys.pool.draws in
            let drew = not (keeper.new.keys.pool.draws == draw) in
            keeper.new.peer_draws ≡ drawn_on_line line op drew draw keeper.old.peer_draws }
    {
        match line_place(line) {
            LinePlace::Link(i) => {
                let peers = DevicePeers {
                    pairs: &self.pairs,
                    peers: &self.peers,
                    link: i,
                };
                keeper.operate(&mut self.links[i], &peers, op, loss)
            }
            LinePlace::Near(i) => keeper.operate_near(&mut self.near[i], op, loss),
            LinePlace::Pair(i) => {
                let outcome = keeper.operate_pair(&mut self.pairs[i], op, loss);
                self.settle_pair(i);
                outcome
            }
        }
    }

    /// The link and the place on it of the interface of this number over all links, counted from 0; `None` if there are
    /// fewer interfaces.
    pub fn interface(&self, number: u64) -> Option<(u8, usize)>
        requires { length self.now.links ≤ 8 }
        ensures { result ≡ place_on_links 0 number self.now.links }
    {
        let mut left = number;
        let mut link = 0;
        for ends in &self.links {
            let count = ends.device.count() as u64;
            if left < count {
                return Some((link, left as usize));
            }
            left -= count;
            link += 1;
        }
        None
    }

    /// The number over all links, counted from 0, of the interface at this place on the link; `None` if there is none, or
    /// if the number has no room in 8 bits.
    pub fn number(&self, link: u8, place: usize) -> Option<u8>
        ensures { result ≡ option_and_then small_number (number_on_links self.now.links link place) }
    {
        // how many interfaces are on the links before
        let mut before = 0;
        let mut left = link;
        for ends in &self.links {
            let count = ends.device.count();
            if left == 0 {
                return number_behind(before, count, place);
            }
            if count > 255 - before {
                return None;
            }
            before += count;
            left -= 1;
        }
        None
    }

    /// Begins an operation of the manager on an interface of this link, and carries its exchanges until it is over, or
    /// `loss` loses one.
    pub fn operate_interface(
        &mut self,
        link: u8,
        keeper: &mut HostKeeper,
        interface: usize,
        op: InterfaceOperation,
        loss: Option<Loss>,
    ) -> interface_host::InterfaceOutcome
        requires here { link < length self.old.links }
        requires interface { interface < length keeper.old.interfaces.interfaces }
        ensures { AsksAtLink self.old link keeper.old interface op loss result self.new keeper.new }
    {
        let peers = DevicePeers {
            pairs: &self.pairs,
            peers: &self.peers,
            link: link as usize,
        };
        let ends = &mut self.links[link as usize];
        keeper.operate_interface(ends, &peers, interface, op, loss)
    }

    /// Writes a register that the interface at this place on the link has, and answers the interface's state after the
    /// write.
    pub fn write_register(&mut self, link: u8, place: usize, register: Register, value: u64) -> u8
        requires tdi { IfSome (slice_get self.old.links link) (λ l. IfSome
            (slice_get l.device.interfaces.interfaces place) (λ tdi. has_register tdi.plan register ≡ true)) }
        requires here { IsThere self.old link place }
        requires width { value < 2 ^ width_of register }
        ensures { CallsAtLink self.old link place (WriteRegister register value) result self.new }
    {
        let ends = &mut self.links[link as usize];
        ends.device.write_register(place, register, value);
        ends.device.state(place)
    }

    /// Whether the interface at this place on the link has the register.
    pub fn has_register(&self, link: u8, place: usize, register: Register) -> bool
        requires here { IsThere self.now link place }
        ensures { IfSome (slice_get self.now.links link) (λ l. IfSome (slice_get l.device.interfaces.interfaces place)
            (λ tdi. result ≡ has_register tdi.plan register)) }
    {
        self.links[link as usize]
            .device
            .has_register(place, register)
    }

    /// Makes a function level reset of the interface at this place on the link, and answers its state after the reset.
    pub fn flr(&mut self, link: u8, place: usize) -> u8
        requires here { IsThere self.old link place }
        ensures { CallsAtLink self.old link place LevelReset result self.new }
    {
        let ends = &mut self.links[link as usize];
        ends.device.flr(place);
        ends.device.state(place)
    }

    /// Makes a firmware update at the interface at this place on the link, and answers its state after the update.
    pub fn firmware(&mut self, link: u8, place: usize) -> u8
        requires here { IsThere self.old link place }
        ensures { CallsAtLink self.old link place FirmwareUpdate result self.new }
    {
        let ends = &mut self.links[link as usize];
        ends.device.firmware(place);
        ends.device.state(place)
    }

    // Both ports of a line drop all keys, open units, held packets, counts and failures; of a stream between devices
    // that of this end alone.
    fn clear(&mut self, end: PortName)
        ensures { self.new ≡ cleared_on self.old end }
    {
        match line_place(end.line) {
            LinePlace::Link(i) => clear_hosted(&mut self.links, i),
            LinePlace::Near(i) => clear_hosted(&mut self.near, i),
            LinePlace::Pair(i) => clear_paired(&mut self.pairs, end.side, i),
        }
    }

    // So at each of these ends.
    fn clear_all(&mut self, ends: &[PortName])
        ensures { self.new ≡ all_cleared self.old ends.now }
    {
        for end in ends {
            self.clear(*end);
        }
    }

    // Each interface of a link's device is in CONFIG_UNLOCKED with the topology's registers. No nonce that was given is
    // given again.
    fn unlock(&mut self, link: u8)
        ensures { self.new ≡ unlocked_link self.old link }
    {
        unlock_one(&mut self.links, link as usize);
    }

    /// Resets the link, which clears these ends: both ports of each line that is cut drop all keys, open units, held
    /// packets, counts and failures, of a stream between devices those at the link's device alone; each interface of
    /// the link's device is in CONFIG_UNLOCKED. Interfaces of other devices that are bound to a stream that is then not
    /// Secure there leave their lock.
    pub fn reset(&mut self, link: u8, ends: &[PortName])
        ensures { ResetsAt self.old link ends.now self.new }
    {
        self.clear_all(ends);
        self.unlock(link);
        let count = self.count();
        self.settle_first(count);
    }
}

// Takes bytes that arrive at the end of a side of a line that is keyed by messages at both.
fn take_pair(ends: &mut PairEnds, side: Side, bytes: &[u8]) -> Arrival
    requires { PortUnitsAtMost (2 ^ 40) (pair_port side ends.old) }
    ensures answer { result ≡ (take_step (pair_port side ends.old) (cut_of bytes.now)).answer }
    ensures ends { ends.new ≡ with_pair_port side (take_step (pair_port side ends.old) (cut_of bytes.now)).port
        ends.old }
{
    match side {
        Side::Host => ends.near.port.take(bytes),
        Side::Device => ends.far.port.take(bytes),
    }
}

// The interfaces of a link's device settle, if there is such a link.
#[tactic(auto, using(crate::proofs::Lent::put_changed, crate::proofs::Lent::none_changed))]
fn settle_one<P: PeerStreams>(links: &mut Vec<LinkEnds>, i: usize, peers: &P)
    ensures { links.new.items ≡ changed_at links.old.items i (settled_ends (P.live peers.now)) }
{
    if i >= links.len() {
        return;
    }
    links[i].device.settle(peers);
}

// They are as they were made, but for the nonces that were given.
#[tactic(auto, using(crate::proofs::Lent::put_changed, crate::proofs::Lent::none_changed))]
fn unlock_one(links: &mut Vec<LinkEnds>, i: usize)
    ensures { links.new.items ≡ changed_at links.old.items i unlocked_ends }
{
    if i >= links.len() {
        return;
    }
    links[i].device.interfaces.reset();
}

// The ends of a line that is keyed at a host are cleared, if there is such a line.
#[tactic(auto, using(crate::proofs::Lent::put_changed, crate::proofs::Lent::none_changed))]
fn clear_hosted(lines: &mut Vec<LinkEnds>, i: usize)
    ensures { lines.new.items ≡ changed_at lines.old.items i cleared_ends }
{
    if i >= lines.len() {
        return;
    }
    clear_ends(&mut lines[i]);
}

// So are those of one that is keyed by messages at both, by the side of the end.
#[tactic(auto, using(crate::proofs::Lent::put_changed, crate::proofs::Lent::none_changed))]
fn clear_paired(lines: &mut Vec<PairEnds>, side: Side, i: usize)
    ensures { lines.new.items ≡ changed_at lines.old.items i (cleared_pair side i) }
{
    if i >= lines.len() {
        return;
    }
    clear_pair(&mut lines[i], side, i);
}

// Both ports of a line that is keyed at a host.
fn clear_ends(ends: &mut LinkEnds)
    ensures { ends.new ≡ cleared_ends ends.old }
{
    ends.host.reset();
    ends.device.port.reset();
}

// Both ends of a hop's segment, or that of this side of a stream between devices.
fn clear_pair(ends: &mut PairEnds, side: Side, i: usize)
    ensures { ends.new ≡ cleared_pair side i ends.old }
{
    if i < HOPS {
        ends.reset(Side::Host);
        ends.reset(Side::Device);
    } else {
        ends.reset(side);
    }
}
