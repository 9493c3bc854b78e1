//! What stands at one link.

ghost use Rattle.std.specs.Prelude.{◌≡◌, ◌+◌, ◌≤◌, ◌<◌, [], ◌∷◌, None, Some, IfOk, OnOk, drop, length};
ghost use Rattle.tlp_layout.specs.Head.{FitsHead};
ghost use Rattle.tlp_layout.specs.Tlp.{viewed_tlp};
ghost use Rattle.trusted_memory.specs.{FitsRead, Leads, admitted_write, write_of_tlp, write_span, request_effect};
ghost use Rattle.trusted_memory.specs.{waiting_after};
ghost use Rattle.guarded_memory.specs.{claim_of, claimed_read_effect, device_request_effect, mmio_effect, target_of};
ghost use Rattle.guarded_memory.specs.{write_happened, AllReset, MmioLeads};
ghost use Rattle.hop_queues.specs.{all_roomy};
ghost use Rattle.link_stores.specs.Accesses.{new_link_accesses, reads_after, trusted_read, device_statuses};
ghost use Rattle.link_stores.specs.Accesses.{reads_on, with_reads, without_tlps};

use crate::floors::Floors;
use event_verdicts::Effect;
use guarded_memory::{Claim, Guarded, InterfaceStatus, Statuses, claim_of, offer_read};
use hop_queues::HopQueues;
use ide_types::{InterfacePlan, OutOfMemory, Side};
use interface_ends::DeviceInterfaces;
use std::alloc::Global;
use tlp_layout::{HeadView, TlpView};
use trusted_memory::{Grant, MemReadView, ReadArrival, Reads, Span, Trusted};

/// Pages that are spare before a unit arrives at a device's port: it has at most 8 packets, each of whose writes needs
/// two pages at most.
const UNIT_PAGES: u8 = 16;

/// What stands at a link beside its ports and its device's interfaces (this profile).
#[derive(Drop)]
pub struct LinkAccesses {
    /// The trusted reads of trusted memory that wait at the host's port for their answer.
    pub host_reads: Reads,
    /// The reads of the memory of the device's interfaces that wait at the device's port.
    pub device_reads: Reads,
    /// The memory behind the base address registers of the device's interfaces, which are named by their place.
    pub guarded: Guarded,
    /// The floors of the device's interfaces, by their place.
    pub floors: Floors,
    /// The TLPs that wait at the switch of the link's hop; none on a link without one.
    pub carried: HopQueues,
}

/// The interfaces of a device with their floors.
#[derive(Clone, Copy)]
pub struct Floored<'a> {
    pub interfaces: &'a DeviceInterfaces,
    pub floors: &'a Floors,
}

impl Statuses for Floored<'_> {
    ghost stand = { λ d. device_statuses d.floors.now d.interfaces.now };

    fn count(&self) -> usize {
        self.interfaces.count()
    }

    fn status(&self, place: usize) -> InterfaceStatus {
        InterfaceStatus::of(self.interfaces.interface(place), self.floors.floor(place))
    }
}

// The memory read with T that a TLP with this header is, if its packet has this T.
fn trusted_read(head: &HeadView, trusted: bool) -> Option<MemReadView>
    ensures { result ≡ trusted_read trusted head.now }
{
    if trusted { MemReadView::of(head) } else { None }
}

impl LinkAccesses {
    /// No reads; the memory of a device's interfaces, all 0, and their floors, all 0; no TLPs at a switch, and no room
    /// for one.
    pub fn make(alloc: Global, interfaces: &[InterfacePlan]) -> Result<LinkAccesses, OutOfMemory>
        ensures { IfOk result (λ a. a ≡ new_link_accesses interfaces.now) }
    {
        let host_reads = Reads::make(alloc)?;
        let device_reads = Reads::make(alloc)?;
        let guarded = Guarded::make(alloc, interfaces)?;
        let floors = Floors::make(alloc, interfaces.len())?;
        Ok(LinkAccesses {
            host_reads,
            device_reads,
            guarded,
            floors,
            carried: HopQueues::new(alloc),
        })
    }

    /// Takes memory for what a unit stores that arrives at the device's port. For want of memory nothing changes but
    /// the number of spare pages.
    pub fn spare(&mut self) -> Result<(), OutOfMemory>
        ensures reads { self.new ≡ record self.old { guarded = self.new.guarded } }
        ensures sizes { self.new.guarded.sizes ≡ self.old.guarded.sizes }
        ensures leads { MmioLeads self.old.guarded [] self.new.guarded }
        ensures ok { OnOk result (16 ≤ self.new.guarded.spare) }
    {
        self.guarded.spare(UNIT_PAGES)
    }

    /// Takes memory for one more TLP in each direction at the switch of the link's hop. For want of memory those that
    /// wait stay.
    pub fn room(&mut self, alloc: Global) -> Result<(), OutOfMemory>
        ensures kept { self.new ≡ record self.old { carried = self.new.carried } }
        ensures room { OnOk result (self.new.carried ≡ all_roomy self.old.carried) }
        ensures downstream { self.new.carried.downstream.tlps ≡ self.old.carried.downstream.tlps }
        ensures upstream { self.new.carried.upstream.tlps ≡ self.old.carried.upstream.tlps }
    {
        self.carried.room(alloc)
    }

    /// Gives a TLP of a unit that was accepted at the host's port its effect: a memory read with T waits for its answer
    /// or is blocked, a memory write is applied to trusted memory or blocked, any other TLP is delivered. It takes no
    /// memory, and at most one spare page of trusted memory.
    pub fn request(
        &mut self,
        memory: &mut Trusted,
        tlp: &TlpView<'_>,
        came: ReadArrival,
        grant: Grant,
    ) -> Effect
        requires spare { 1 ≤ memory.old.spare }
        requires fits { FitsHead tlp.now.head }
        ensures effect { result ≡ request_effect memory.old.contents.regions came.trusted grant
            (length self.old.host_reads) tlp.now.head }
        ensures reads { self.new ≡ record self.old {
          host_reads = reads_after (λ s. None) result came tlp.now.head self.old.host_reads;
        } }
        ensures regions { memory.new.contents.regions ≡ memory.old.contents.regions }
        ensures leads { Leads memory.old.contents
            (admitted_write memory.old.contents.regions came.trusted grant (write_of_tlp (viewed_tlp tlp.now)) ∷ [])
            memory.new.contents }
        ensures spare { memory.old.spare ≤ memory.new.spare + 1 }
    {
        match trusted_read(&tlp.head, came.trusted) {
            Some(read) => self.host_reads.offer(memory, &read, came, grant),
            None => memory.deliver(tlp, came.trusted, grant),
        }
    }

    /// Gives a TLP of a unit that was accepted at the device's port its effect, by how the device's interfaces stand: a
    /// memory read that one of them claims, whose reads the device answers, waits for its answer or is blocked; a memory
    /// write that one of them claims is stored or blocked; any other TLP is delivered. It takes no memory, and at most
    /// two spare pages.
    pub fn deliver(
        &mut self,
        interfaces: &DeviceInterfaces,
        tlp: &TlpView<'_>,
        came: ReadArrival,
    ) -> Effect
        requires pages { 2 ≤ self.old.guarded.spare }
        requires fits { FitsHead tlp.now.head }
        ensures effect { let statuses = device_statuses self.old.floors interfaces.now in
            result ≡ device_request_effect statuses came.trusted came.stream came.draw (length self.old.device_reads)
            tlp.now.head }
        ensures reads { let statuses = device_statuses self.old.floors interfaces.now in
            self.new.device_reads ≡ reads_after (target_of statuses) result came tlp.now.head self.old.device_reads }
        ensures leads { let statuses = device_statuses self.old.floors interfaces.now in
            MmioLeads self.old.guarded
            (write_happened statuses came.trusted came.stream came.draw (write_of_tlp (viewed_tlp tlp.now)) ∷ [])
            self.new.guarded }
        ensures kept { self.new
            ≡ record self.old { device_reads = self.new.device_reads; guarded = self.new.guarded } }
        ensures sizes { self.new.guarded.sizes ≡ self.old.guarded.sizes }
        ensures spare { self.old.guarded.spare ≤ self.new.guarded.spare + 2 }
    {
        match MemReadView::of(&tlp.head) {
            Some(read) => self.request_read(interfaces, &read, came),
            None => self.deliver_other(interfaces, tlp, came),
        }
    }

    // A memory read at the device's port.
    fn request_read(
        &mut self,
        interfaces: &DeviceInterfaces,
        read: &MemReadView,
        came: ReadArrival,
    ) -> Effect
        requires { FitsRead read.now }
        ensures effect { let statuses = device_statuses self.old.floors interfaces.now in
            result ≡ claimed_read_effect (claim_of statuses read.now.span) read.now.span came.trusted came.stream
            came.draw (length self.old.device_reads) }
        ensures reads { let statuses = device_statuses self.old.floors interfaces.now in
            self.new ≡ record self.old {
              device_reads = waiting_after result
                  (record { read = read.now; came = came; target = target_of statuses read.now.span })
                  self.old.device_reads;
            } }
    {
        let claim = self.claim(interfaces, read.span);
        offer_read(&mut self.device_reads, &claim, read, came)
    }

    // Any other TLP there.
    fn deliver_other(
        &mut self,
        interfaces: &DeviceInterfaces,
        tlp: &TlpView<'_>,
        came: ReadArrival,
    ) -> Effect
        requires { 2 ≤ self.old.guarded.spare }
        ensures effect { let statuses = device_statuses self.old.floors interfaces.now in
            result ≡ mmio_effect statuses came.trusted came.stream came.draw (write_span tlp.now.head) }
        ensures leads { let statuses = device_statuses self.old.floors interfaces.now in
            MmioLeads self.old.guarded
            (write_happened statuses came.trusted came.stream came.draw (write_of_tlp (viewed_tlp tlp.now)) ∷ [])
            self.new.guarded }
        ensures kept { self.new ≡ record self.old { guarded = self.new.guarded } }
        ensures sizes { self.new.guarded.sizes ≡ self.old.guarded.sizes }
        ensures spare { self.old.guarded.spare ≤ self.new.guarded.spare + 2 }
    {
        let device = Floored {
            interfaces,
            floors: &self.floors,
        };
        self.guarded.deliver(&device, tlp, came)
    }

    /// The claim of the device's interfaces, as they stand, on a memory request over these bytes; `None` if none claims
    /// it.
    pub fn claim(&self, interfaces: &DeviceInterfaces, span: Span) -> Option<Claim>
        ensures { result ≡ claim_of (device_statuses self.now.floors interfaces.now) span }
    {
        let device = Floored {
            interfaces,
            floors: &self.floors,
        };
        claim_of(&device, span)
    }

    /// The reads that wait at the port of a side.
    pub fn reads(&self, side: Side) -> &Reads
        ensures { result.now ≡ reads_on side self.now }
    {
        match side {
            Side::Host => &self.host_reads,
            Side::Device => &self.device_reads,
        }
    }

    /// Takes the oldest read from those that wait at the port of a side. That one waits is the caller's condition.
    pub fn remove_first(&mut self, side: Side)
        requires { 1 ≤ length (reads_on side self.old) }
        ensures { self.new ≡ with_reads side (drop 1 (reads_on side self.old)) self.old }
    {
        match side {
            Side::Host => self.host_reads.remove_first(),
            Side::Device => self.device_reads.remove_first(),
        }
    }

    /// Notes a reset of the link: no read waits, and the memory of the device's interfaces is 0.
    pub fn reset(&mut self)
        ensures kept { self.new ≡ record self.old {
          host_reads = [];
          device_reads = [];
          guarded = self.new.guarded;
        } }
        ensures sizes { self.new.guarded.sizes ≡ self.old.guarded.sizes }
        ensures leads { MmioLeads self.old.guarded (Some AllReset ∷ []) self.new.guarded }
    {
        self.host_reads.clear();
        self.device_reads.clear();
        self.guarded.reset_all();
    }

    /// Notes a reset of the link's hop: no TLP waits at its switch.
    pub fn clear_hop(&mut self)
        ensures { self.new ≡ record self.old { carried = without_tlps self.old.carried } }
    {
        self.carried.clear();
    }
}
