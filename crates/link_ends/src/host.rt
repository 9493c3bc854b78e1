//! What the host keeps of all links, and its operations.

ghost use Rattle.std.specs.Prelude.{◌≡◌, ◌==◌, ◌-◌, ◌<◌, ◌≤◌, not, IfOk, IfSome, IsSome, is_some, length, replicate};
ghost use Rattle.std.specs.Prelude.{slice_get, slice_set};
ghost use Rattle.key_slots.specs.{new_pool};
ghost use Rattle.spec_keys.specs.Operations.{work_of};
ghost use Rattle.key_host.specs.Operations.{op_name};
ghost use Rattle.key_host.specs.Managers.{named_stream, new_manager, reset_manager};
ghost use Rattle.key_host.specs.Streams.{status_or_idle};
ghost use Rattle.interface_host.specs.Managers.{new_interface_manager as new_interfaces};
ghost use Rattle.interface_host.specs.Managers.{reset_interface_manager as reset_interfaces};
ghost use Rattle.interface_ends.specs.Replies.{settled_interfaces};
ghost use Rattle.interface_ends.specs.Keepers.{Ended};
ghost use Rattle.link_ends.specs.DeviceEnds.{secure_or_live};
ghost use Rattle.link_ends.specs.Hosts.{manager_told, keyed_if, keyed_at_end, stopped_if};
ghost use Rattle.link_ends.specs.Hosts.{status_for_operation};
ghost use Rattle.link_ends.specs.Hosts.{pair_told, peer_drawn};

use crate::ends::LinkEnds;
use crate::interface_keeper::InterfaceKeeper;
use crate::keeper::KeyKeeper;
use crate::wiring::NoPeers;
use crate::{PairEnds, PeerStreams};
use ide_types::{FIRST_PEER_LINE, OutOfMemory, PortName, StreamStatus, ValidPlan};
use interface_host::InterfaceOperation;
use key_host::{NamedOperation, StreamOutcome, StreamResult};
use script_events::Loss;
use std::alloc::Global;

/// The host's manager of all lines: of keys, and of device interfaces (PCI Express Base 6.0 section 6.33 and chapter
/// 11, in this profile).
#[derive(Drop)]
pub struct HostKeeper {
    pub keys: KeyKeeper,
    pub interfaces: InterfaceKeeper,
    /// Of each stream between devices, by its number: the draw of the last establish of it that drew, 0 before the
    /// first.
    pub peer_draws: [u32; 8],
}

fn status_or_idle(status: Option<StreamStatus>) -> StreamStatus
    ensures { result ≡ status_or_idle status }
{
    match status {
        None => StreamStatus::Idle,
        Some(status) => status,
    }
}

// Tells the manager of interfaces that a stream has the keys of this draw, if it was made.
fn keyed_if(interfaces: &mut InterfaceKeeper, drew: bool, line: u8, stream: u8, draw: u32)
    ensures { interfaces.new ≡ keyed_if drew line stream draw interfaces.old }
{
    if drew {
        interfaces.stream_keyed(line, stream, draw);
    }
}

// Tells it the draw of a refresh that ended.
fn keyed_at_end(interfaces: &mut InterfaceKeeper, outcome: StreamOutcome, line: u8, stream: u8)
    ensures { interfaces.new ≡ keyed_at_end outcome line stream interfaces.old }
{
    if let StreamOutcome::Done(StreamResult::Draw(draw)) = outcome {
        interfaces.stream_keyed(line, stream, draw);
    }
}

fn stopped_if(interfaces: &mut InterfaceKeeper, begins: bool, line: u8, stream: u8)
    ensures { interfaces.new ≡ stopped_if begins line stream interfaces.old }
{
    if begins {
        interfaces.stop_begun(line, stream);
    }
}

// What an operation on a stream tells the manager of interfaces.
fn tell(
    interfaces: &mut InterfaceKeeper,
    op: NamedOperation,
    begins: bool,
    drew: bool,
    draw: u32,
    outcome: StreamOutcome,
)
    ensures { interfaces.new ≡ manager_told op begins drew draw outcome interfaces.old }
{
    match op {
        NamedOperation::Establish(line, stream) => keyed_if(interfaces, drew, line, stream, draw),
        NamedOperation::Refresh(line, stream) => keyed_at_end(interfaces, outcome, line, stream),
        NamedOperation::Stop(line, stream) => stopped_if(interfaces, begins, line, stream),
    }
}

// Tells it of an operation on a line that is keyed by messages at both ends.
fn tell_of_pair(interfaces: &mut InterfaceKeeper, op: NamedOperation)
    ensures { interfaces.new ≡ pair_told op interfaces.old }
{
    match op {
        NamedOperation::Stop(line, _) if line >= FIRST_PEER_LINE => {
            interfaces.peer_stop(line - FIRST_PEER_LINE);
        }
        _ => {}
    }
}

// Notes the draw of the stream between devices of this number, if there is such a one.
fn set_draw(draws: &mut [u32; 8], number: u8, draw: u32)
    ensures { draws.new ≡ slice_set draws.old number draw }
{
    if (number as usize) < draws.len() {
        draws[number as usize] = draw;
    }
}

// Notes the draw of an operation on such a line, if it is an establish of a stream between devices that drew.
fn note_draw(draws: &mut [u32; 8], op: NamedOperation, drew: bool, draw: u32)
    ensures { draws.new ≡ peer_drawn op drew draw draws.old }
{
    match op {
        NamedOperation::Establish(line, _) if line >= FIRST_PEER_LINE && drew => {
            set_draw(draws, line - FIRST_PEER_LINE, draw);
        }
        _ => {}
    }
}

impl HostKeeper {
    ghost use Rattle.link_ends.specs.Keepers.{Operates, NoMoreUnits, KeysAlone};
    ghost use Rattle.link_ends.specs.PairKeepers.{PairOperates, NoMorePairUnits};
    ghost use Rattle.link_ends.specs.Hosts.{operated_on};

    /// A manager of the plan's lines, and the plan's keys, none of them drawn; no interface is locked. Returns
    /// `OutOfMemory` for want of memory.
    pub fn make(alloc: Global, plan: &ValidPlan) -> Result<HostKeeper, OutOfMemory>
        ensures { IfOk result (λ k. k ≡ record {
          keys = record { manager = new_manager plan.now.links plan.now.peers; pool = new_pool plan.now.pool };
          interfaces = new_interfaces plan.now.links plan.now.portion;
          peer_draws = replicate 8 0;
        }) }
    {
        let keys = KeyKeeper::make(alloc, plan)?;
        let plan = plan.plan();
        let interfaces = InterfaceKeeper::make(alloc, &plan.links, plan.portion)?;
        Ok(HostKeeper {
            keys,
            interfaces,
            peer_draws: [0; 8],
        })
    }

    /// Begins an operation on a stream of the line with these ends, or goes on with it, and carries its exchanges until
    /// it is done or refused, or `loss` loses one. If a stop begins, views of the stream's interfaces that are Locked,
    /// Running or Doubt become Broken. At the end, each of the device's interfaces in CONFIG_LOCKED or RUN goes to
    /// ERROR if a stream that it is bound to is not Secure at the device; `peers` says what stands at its ends of
    /// streams between it and others.
    pub fn operate<P: PeerStreams>(
        &mut self,
        ends: &mut LinkEnds,
        peers: &P,
        op: NamedOperation,
        loss: Option<Loss>,
    ) -> StreamOutcome
        requires { IsSome (named_stream self.old.keys.manager (op_name op).line (op_name op).stream) }
        ensures operates { Operates self.old.keys ends.old op loss result self.new.keys ends.new }
        ensures units { NoMoreUnits ends.old ends.new }
        ensures settles { ends.new.device.interfaces ≡ settled_interfaces
            (secure_or_live ends.new.device.port (P.live peers.now)) ends.old.device.interfaces }
        ensures interfaces { IfSome (named_stream self.old.keys.manager (op_name op).line (op_name op).stream) (λ n.
            let begins = (work_of (op_name op).operation n.stream.op 0).begins in
            let draw = self.old.keys.pool.draws in
            let drew = not (self.new.keys.pool.draws == draw) in
            self.new.interfaces ≡ manager_told op begins drew draw result self.old.interfaces) }
        ensures peer_draws { self.new.peer_draws ≡ self.old.peer_draws }
    {
        let begins = self.keys.begins(op);
        let draw = self.keys.draws();
        let outcome = self.keys.operate(ends, peers, op, loss);
        ends.device.settle(peers);
        let drew = self.keys.draws() != draw;
        tell(&mut self.interfaces, op, begins, drew, draw, outcome);
        outcome
    }

    /// The same on the segment of a hop towards the host, whose ends these are. It is of no interface's stream: the
    /// manager of interfaces is told nothing.
    pub fn operate_near(
        &mut self,
        ends: &mut LinkEnds,
        op: NamedOperation,
        loss: Option<Loss>,
    ) -> StreamOutcome
        requires { IsSome (named_stream self.old.keys.manager (op_name op).line (op_name op).stream) }
        ensures operates { Operates self.old.keys ends.old op loss result self.new.keys ends.new }
        ensures units { KeysAlone ends.old ends.new }
        ensures kept { self.new ≡ record self.old { keys = self.new.keys } }
    {
        self.keys.operate(ends, &NoPeers {}, op, loss)
    }

    /// The same on a line that is keyed by messages at both ends: the segment of a hop towards the device, or a stream
    /// between devices. At each event of a stop of a stream between devices views of the interfaces that it was to be
    /// bound to, and that are Locked, Running or Doubt, become Broken.
    pub fn operate_pair(
        &mut self,
        ends: &mut PairEnds,
        op: NamedOperation,
        loss: Option<Loss>,
    ) -> StreamOutcome
        requires { IsSome (named_stream self.old.keys.manager (op_name op).line (op_name op).stream) }
        ensures operates { PairOperates self.old.keys ends.old op loss result self.new.keys ends.new }
        ensures units { NoMorePairUnits ends.old ends.new }
        ensures interfaces { self.new.interfaces ≡ pair_told op self.old.interfaces }
        ensures peer_draws { let draw = self.old.keys.pool.draws in
            let drew = not (self.new.keys.pool.draws == draw) in
            self.new.peer_draws ≡ peer_drawn op drew draw self.old.peer_draws }
    {
        let draw = self.keys.draws();
        let outcome = self.keys.operate_pair(ends, op, loss);
        let drew = self.keys.draws() != draw;
        tell_of_pair(&mut self.interfaces, op);
        note_draw(&mut self.peer_draws, op, drew, draw);
        outcome
    }

    // The status of the stream that an operation on an interface asks for: of its own at the host's port; of one
    // between devices as the manager of keys has it.
    fn status_for_operation(
        &self,
        op: InterfaceOperation,
        host: Option<StreamStatus>,
    ) -> StreamStatus
        ensures { result ≡ status_for_operation self.now.keys.manager host op }
    {
        match op {
            InterfaceOperation::Bind(peer) | InterfaceOperation::Unbind(peer) => {
                self.keys.status(peer.line, peer.id)
            }
            _ => status_or_idle(host),
        }
    }

    /// Begins an operation on an interface of the link with these ends, and carries its exchanges until it is over, or
    /// `loss` loses one.
    pub fn operate_interface<P: PeerStreams>(
        &mut self,
        ends: &mut LinkEnds,
        peers: &P,
        interface: usize,
        op: InterfaceOperation,
        loss: Option<Loss>,
    ) -> interface_host::InterfaceOutcome
        requires { interface < length self.old.interfaces.interfaces }
        ensures operated { IfSome (slice_get self.old.interfaces.interfaces interface) (λ i.
            let e : Ended = record {
              outcome = result;
              manager = self.new.interfaces;
              device = ends.new.device.interfaces;
            } in
            e ≡ operated_on interface op loss self.old.keys (P.live peers.now) self.old.interfaces ends.old i) }
        ensures keys { self.new.keys ≡ self.old.keys }
        ensures peer_draws { self.new.peer_draws ≡ self.old.peer_draws }
        ensures ends { ends.new ≡ record ends.old {
          device = record ends.old.device { interfaces = ends.new.device.interfaces };
        } }
    {
        let stream = self.interfaces.manager().stream(interface);
        let status = self.status_for_operation(op, ends.host.status(stream));
        let draws = self.keys.draws();
        let device = &mut ends.device;
        self.interfaces
            .operate(device, peers, interface, op, status, draws, loss)
    }

    /// Notes a reset of a link, which clears these ends: the streams of their lines are without keys again and their
    /// operations are dropped, those between devices are to be stopped; views of the link's interfaces that are Locked,
    /// Running or Doubt become Broken.
    pub fn reset(&mut self, link: u8, ends: &[PortName])
        ensures { self.new ≡ record {
          keys = record self.old.keys { manager = reset_manager ends.now self.old.keys.manager };
          interfaces = reset_interfaces link self.old.interfaces;
          peer_draws = self.old.peer_draws;
        } }
    {
        self.keys.reset(ends);
        self.interfaces.link_reset(link);
    }
}
