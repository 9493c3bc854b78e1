//! A device interface and its calls (this profile).

ghost use Rattle.std.specs.Prelude.{◌≡◌, ◌<◌, ◌≤◌, ◌^◌, ◌%◌, ◌&&◌, not, IfOk, IfSome, Some, [], false, length, true};
ghost use Rattle.std.specs.Option.{option_copied, option_map};
ghost use Rattle.tdisp_codec.specs.Ranges.{ranges_in};
ghost use Rattle.tdisp_codec.specs.Reports.{report_shown};
ghost use Rattle.ide_types.specs.RegisterNames.{has_register, width_of};
ghost use Rattle.interface_state.specs.RegisterValues.{value_in};
ghost use Rattle.interface_state.specs.Bars.{any_overlap, bars_of};
ghost use Rattle.interface_state.specs.Kept.{interface_info, kept_report, IsShortReport};
ghost use Rattle.interface_state.specs.Machine.{are_lock_flags, bindings_left, is_page, portion_of, portion_shown};
ghost use Rattle.interface_state.specs.Held.{FitsTdi};

use crate::bars::{any_overlap, bars_of, reported_bytes};
use crate::bindings::Bindings;
use crate::error_codes::ErrorCode;
use crate::register_set::{Registers, has_bit};
use crate::report_buffer::ReportBuffer;
use crate::states::{Lock, TdiState};
use ide_types::{BarPlan, Binding, Bytes, InterfacePlan, Items, OutOfMemory, Register};
use std::alloc::Global;
use std::marker::Model;
use tdisp_codec::{Ranges, ReportView};

/// The flags that a lock may have: bits 0 to 4.
const LOCK_FLAGS: u16 = 0x001f;

/// How many streams between two devices an interface can be bound to, as many as a topology has.
const MOST_BINDINGS: usize = 8;

/// A device interface (TDISP, PCI Express Base 6.0 chapter 11): its registers, its state, the report
/// of the lock that stands, for which it has room from the start, and the streams between its device and others that it
/// is bound to. No call but `make` takes memory.
#[derive(Drop)]
pub struct Interface {
    plan: InterfacePlan,
    registers: Registers,
    state: TdiState,
    report: ReportBuffer,
    bindings: Bindings,
}

impl Model for Interface {
    ghost use Rattle.interface_state.specs.Machine.{DeviceTdi};
    ghost use Rattle.interface_state.specs.Held.{IsHeld};

    ghost Value = { DeviceTdi };

    ghost view = { λ i. record {
      plan = i.plan;
      registers = i.registers;
      state = i.state;
      bindings = i.bindings;
    } };

    ghost invariant = { λ i. IsHeld i.plan i.registers i.state i.bindings i.report };
}

fn copied(alloc: Global, plan: &InterfacePlan) -> Result<InterfacePlan, OutOfMemory>
    ensures { IfOk result (λ copy. copy ≡ plan.now) }
{
    let info = Bytes::copied(alloc, plan.info.as_slice())?;
    let bars = Vec::from_slice(alloc, plan.bars.as_slice())?;
    Ok(InterfacePlan {
        requester: plan.requester,
        stream: plan.stream,
        flags: plan.flags,
        offset: plan.offset,
        command: plan.command,
        cache_line: plan.cache_line,
        msix: plan.msix,
        lnr: plan.lnr,
        tph: plan.tph,
        pasid: plan.pasid,
        ats: plan.ats,
        reads: plan.reads,
        info,
        bars: Items::new(bars),
    })
}

// Whether a lock may have these flags and this MMIO reporting offset.
fn may_lock_with(flags: u16, offset: u64) -> bool
    ensures { result ≡ (are_lock_flags flags && is_page offset) }
{
    LOCK_FLAGS & flags == flags && offset % 4_096 == 0
}

// DMA without PASID, and whether firmware updates are not permitted.
fn interface_info(flags: u16) -> u16
    ensures { result ≡ interface_info flags }
{
    2 + (flags & 1)
}

// The report of a lock, with the bytes of its ranges and the device's own information lent.
fn report_view<'a>(lock: &Lock, ranges: &'a [u8], device: &'a [u8]) -> ReportView<'a>
    requires { length ranges.now % 16 ≡ 0 }
    ensures ranges { result.ranges.bytes.now ≡ ranges.now }
    ensures device { result.device.now ≡ device.now }
    ensures report { report_shown result ≡ record {
      info = interface_info lock.now.flags;
      msix = lock.now.registers.msix;
      lnr = lock.now.registers.lnr;
      tph = lock.now.registers.tph;
      ranges = ranges_in ranges.now;
      device = device.now;
    } }
{
    ReportView {
        info: interface_info(lock.flags),
        msix: lock.registers.msix,
        lnr: lock.registers.lnr,
        tph: lock.registers.tph,
        ranges: Ranges::new(ranges),
        device,
    }
}

// Writes the report of a lock into the buffer.
fn write_report(buffer: &mut ReportBuffer, plan: &InterfacePlan, lock: &Lock)
    requires { FitsTdi plan.now }
    ensures { buffer.new ≡ kept_report plan.now lock.now }
{
    let bytes = reported_bytes(&bars_of(plan, &lock.registers), lock.offset);
    let view = report_view(lock, bytes.as_slice(), plan.info.as_slice());
    buffer.write(&view);
}

// Enters a state; bindings end with the lock that stands.
fn enter(state: &mut TdiState, bindings: &mut Bindings, next: TdiState)
    ensures state { state.new ≡ next }
    ensures bindings { bindings.new ≡ bindings_left state.old next bindings.old }
{
    if !next.is_locked() && state.is_locked() {
        bindings.clear();
    }
    *state = next;
}

// At most `size` bytes of a report from an offset on, and how many bytes follow them.
fn portion(report: &[u8], offset: u16, size: u16) -> Result<(&[u8], u16), u32>
    requires { IsShortReport report.now }
    ensures answer { portion_shown result ≡ portion_of (Some report.now) offset size }
    ensures short { IfOk result (λ portion. IsShortReport portion.0.now) }
{
    let offset = offset as usize;
    let size = size as usize;
    if size == 0 || report.len() <= offset {
        return Err(ErrorCode::InvalidRequest.code());
    }
    let rest = &report[offset..];
    let size = size.min(rest.len());
    Ok((&rest[..size], (rest.len() - size) as u16))
}

impl Interface {
    ghost use Rattle.interface_state.specs.declared.states.TdiState.TheVariants.{ConfigUnlocked, ConfigLocked};
    ghost use Rattle.interface_state.specs.Machine.{DeviceTdi, new_device_interface, with_state, lock_of};
    ghost use Rattle.interface_state.specs.Machine.{bound_link_stream, state_code};
    ghost use Rattle.interface_state.specs.Machine.{KeepsListed, lock_answer, locked_interface, new_lock};
    ghost use Rattle.interface_state.specs.Machine.{portion_answer};
    ghost use Rattle.interface_state.specs.Machine.{all_bindings, bind_answer, bound_interface, is_answered, is_locked};
    ghost use Rattle.interface_state.specs.Machine.{unbind_answer, interface_after_unbind, start_answer, after_start};
    ghost use Rattle.interface_state.specs.Machine.{after_failure, after_write, level_reset, firmware_updated};

    /// An interface of this layout in CONFIG_UNLOCKED, with the registers that it gives; it takes the memory for all
    /// reports.
    pub fn make(alloc: Global, plan: &InterfacePlan) -> Result<Interface, OutOfMemory>
        requires { FitsTdi plan.now }
        ensures { IfOk result (λ i. i ≡ new_device_interface plan.now) }
    {
        let registers = Registers::planned(plan);
        let plan = copied(alloc, plan)?;
        let report = ReportBuffer::make(alloc)?;
        Ok(Interface {
            plan,
            registers,
            state: TdiState::ConfigUnlocked,
            report,
            bindings: Bindings::new(),
        })
    }

    fn may_bind(&self, secure: bool) -> bool
        ensures { result ≡ (secure && not (any_overlap (bars_of self.now.plan self.now.registers))) }
    {
        secure && !any_overlap(&bars_of(&self.plan, &self.registers))
    }

    fn lock_answer(
        &self,
        flags: u16,
        offset: u64,
        secure: bool,
        nonce: Option<&[u8; 32]>,
    ) -> Result<[u8; 32], u32>
        ensures { result ≡ lock_answer self.now flags offset secure (option_copied nonce.entry) }
    {
        if !self.state.is_unlocked() {
            return Err(ErrorCode::InvalidInterfaceState.code());
        }
        if !may_lock_with(flags, offset) {
            return Err(ErrorCode::InvalidRequest.code());
        }
        if !self.may_bind(secure) {
            return Err(ErrorCode::InvalidDeviceConfiguration.code());
        }
        match nonce {
            Some(nonce) => Ok(*nonce),
            None => Err(ErrorCode::InsufficientEntropy.code()),
        }
    }

    // CONFIG_LOCKED, with the report of the registers as they stand.
    fn keep(&mut self, flags: u16, stream: u8, offset: u64, nonce: [u8; 32])
        ensures { self.new ≡ with_state self.old (ConfigLocked (new_lock self.old flags stream offset) nonce) }
    {
        let lock = Lock {
            flags,
            stream,
            offset,
            registers: self.registers,
        };
        write_report(&mut self.report, &self.plan, &lock);
        self.state = TdiState::ConfigLocked { lock, nonce };
    }

    /// LOCK_INTERFACE with these flags, default stream and MMIO reporting offset in bytes: the answer is the lock's
    /// nonce. `secure` says that the stream is known and Secure at the device; `nonce` is the next of the device's
    /// list, none if the list is used up. Refused, in this order: INVALID_INTERFACE_STATE unless in CONFIG_UNLOCKED;
    /// INVALID_REQUEST at another flag than 0 to 4 or an offset that is no multiple of 4,096;
    /// INVALID_DEVICE_CONFIGURATION if the stream is not Secure or the bytes of two BARs overlap; INSUFFICIENT_ENTROPY
    /// without a nonce. A refusal changes nothing.
    pub fn lock(
        &mut self,
        flags: u16,
        stream: u8,
        offset: u64,
        secure: bool,
        nonce: Option<&[u8; 32]>,
    ) -> Result<[u8; 32], u32>
        ensures answer { result ≡ lock_answer self.old flags offset secure (option_copied nonce.entry) }
        ensures interface { self.new ≡ locked_interface self.old flags stream offset secure
            (option_copied nonce.entry) }
    {
        match self.lock_answer(flags, offset, secure, nonce) {
            Ok(nonce) => {
                self.keep(flags, stream, offset, nonce);
                Ok(nonce)
            }
            Err(code) => Err(code),
        }
    }

    // The report of the lock that stands.
    fn kept(&self) -> Option<&[u8]>
        ensures report { option_copied result ≡ option_map (kept_report self.now.plan) (lock_of self.now.state) }
        ensures short { IfSome result (λ report. IsShortReport report.now) }
    {
        match self.state {
            TdiState::ConfigLocked { .. } => Some(self.report.as_slice()),
            TdiState::Run { .. } => Some(self.report.as_slice()),
            _ => None,
        }
    }

    /// GET_DEVICE_INTERFACE_REPORT: at most `length` bytes of the report that the lock kept, from `offset` on, and how
    /// many bytes of it follow them. Refused, in this order: INVALID_INTERFACE_STATE unless in CONFIG_LOCKED or RUN;
    /// INVALID_REQUEST if the length is 0 or the offset at or past the report's end.
    pub fn report(&self, offset: u16, length: u16) -> Result<(&[u8], u16), u32>
        ensures answer { portion_shown result ≡ portion_answer self.now offset length }
        ensures short { IfOk result (λ portion. IsShortReport portion.0.now) }
    {
        match self.kept() {
            Some(report) => portion(report, offset, length),
            None => Err(ErrorCode::InvalidInterfaceState.code()),
        }
    }

    /// START_INTERFACE with this nonce: RUN under the lock. Refused, in this order: INVALID_INTERFACE_STATE unless in
    /// CONFIG_LOCKED; INVALID_NONCE at another nonce than the lock's. A refusal changes nothing.
    pub fn start(&mut self, nonce: &[u8; 32]) -> Result<(), u32>
        ensures answer { result ≡ start_answer self.old.state nonce.now }
        ensures interface { self.new ≡ with_state self.old (after_start self.old.state nonce.now) }
    {
        let answer = self.state.start_answer(nonce);
        let next = self.state.started(nonce);
        enter(&mut self.state, &mut self.bindings, next);
        answer
    }

    /// STOP_INTERFACE: CONFIG_UNLOCKED, bound to no stream.
    pub fn stop_interface(&mut self)
        ensures { self.new ≡ with_state self.old ConfigUnlocked }
    {
        enter(
            &mut self.state,
            &mut self.bindings,
            TdiState::ConfigUnlocked,
        );
    }

    // The draw under which a stream is bound.
    fn bind_answer(&self, stream: u8, live: Option<u32>) -> Result<u32, u32>
        ensures { result ≡ bind_answer self.now stream live }
    {
        if !self.state.is_locked() {
            return Err(ErrorCode::InvalidInterfaceState.code());
        }
        if !(has_bit(3, self.state.flags()) && !self.bindings.binds(stream)) {
            return Err(ErrorCode::InvalidRequest.code());
        }
        match live {
            Some(draw) if self.bindings.len() < MOST_BINDINGS => Ok(draw),
            _ => Err(ErrorCode::InvalidDeviceConfiguration.code()),
        }
    }

    /// BIND_P2P with this stream: the interface is bound to it, and `live` is its floor. `live` is the draw that is
    /// Live where the device receives posted requests on the stream, if that is between this device and another, and
    /// Secure here. Refused, in this order: INVALID_INTERFACE_STATE unless in CONFIG_LOCKED or RUN; INVALID_REQUEST
    /// without lock flag 3, or if it is bound to the stream already; INVALID_DEVICE_CONFIGURATION without a draw. It
    /// has room for eight streams, as many as a topology has between devices. A refusal changes nothing.
    pub fn bind(&mut self, stream: u8, live: Option<u32>) -> Result<(), u32>
        ensures answer { result ≡ is_answered (bind_answer self.old stream live) }
        ensures interface { self.new ≡ bound_interface self.old stream live }
    {
        match self.bind_answer(stream, live) {
            Ok(floor) => {
                self.bindings.push(Binding { stream, floor });
                Ok(())
            }
            Err(code) => Err(code),
        }
    }

    fn unbind_answer(&self, stream: u8) -> Result<(), u32>
        ensures { result ≡ unbind_answer self.now stream }
    {
        if !self.state.is_locked() {
            return Err(ErrorCode::InvalidInterfaceState.code());
        }
        if !self.bindings.binds(stream) {
            return Err(ErrorCode::InvalidRequest.code());
        }
        Ok(())
    }

    /// UNBIND_P2P with this stream: the interface is no longer bound to it. Refused, in this order:
    /// INVALID_INTERFACE_STATE unless in CONFIG_LOCKED or RUN; INVALID_REQUEST if it is not bound to the stream. A
    /// refusal changes nothing.
    pub fn unbind(&mut self, stream: u8) -> Result<(), u32>
        ensures answer { result ≡ unbind_answer self.old stream }
        ensures interface { self.new ≡ interface_after_unbind self.old stream }
    {
        match self.unbind_answer(stream) {
            Ok(()) => {
                self.bindings.remove(stream);
                Ok(())
            }
            Err(code) => Err(code),
        }
    }

    /// Writes a register that the interface has, with a value of its width. In CONFIG_LOCKED and RUN a listed change
    /// also sends the interface to ERROR: another value of command bit 1 or 2, of a BAR, of TPH, LNR, PASID or ATS
    /// control, of MSI-X control under lock flag 2, of the cache line size under flag 1.
    pub fn write_register(&mut self, register: Register, value: u64)
        requires exists { has_register self.old.plan register ≡ true }
        requires width { value < 2 ^ width_of register }
        ensures { self.new ≡ after_write self.old register value }
    {
        let is_listed = self
            .registers
            .changes_listed(self.state.flags(), register, value);
        self.registers.write(register, value);
        let next = self.state.after_change(is_listed);
        enter(&mut self.state, &mut self.bindings, next);
    }

    /// A function level reset: the registers have the topology's values again, and CONFIG_LOCKED and RUN go to ERROR.
    pub fn flr(&mut self)
        ensures { self.new ≡ level_reset self.old }
    {
        self.registers = Registers::planned(&self.plan);
        let next = self.state.failed();
        enter(&mut self.state, &mut self.bindings, next);
    }

    /// A firmware update: CONFIG_LOCKED and RUN go to ERROR if lock flag 0 is set.
    pub fn firmware(&mut self)
        ensures { self.new ≡ with_state self.old (firmware_updated self.old.state) }
    {
        let is_forbidden = has_bit(0, self.state.flags());
        let next = self.state.after_change(is_forbidden);
        enter(&mut self.state, &mut self.bindings, next);
    }

    /// Notes that a bound stream ceased to be Secure at the device: CONFIG_LOCKED and RUN go to ERROR.
    pub fn stream_left(&mut self)
        ensures { self.new ≡ with_state self.old (after_failure self.old.state) }
    {
        let next = self.state.failed();
        enter(&mut self.state, &mut self.bindings, next);
    }

    /// A reset of the link: CONFIG_UNLOCKED, with the topology's registers.
    pub fn reset(&mut self)
        ensures { self.new ≡ new_device_interface self.old.plan }
    {
        self.registers = Registers::planned(&self.plan);
        self.state = TdiState::ConfigUnlocked;
        self.bindings.clear();
    }

    /// The state's code: CONFIG_UNLOCKED 0, CONFIG_LOCKED 1, RUN 2, ERROR 3.
    pub fn state(&self) -> u8
        ensures code { result ≡ state_code self.now.state }
        // While a lock stands, the listed registers are those that it kept.
        ensures listed { KeepsListed self.now.registers self.now.state }
    {
        self.state.code()
    }

    /// The state, with what the lock that stands kept.
    pub fn state_with_lock(&self) -> &TdiState
        ensures { result.now ≡ self.now.state }
    {
        &self.state
    }

    /// The ID of the stream of its link that the interface is bound to; `None` unless in CONFIG_LOCKED or RUN.
    pub fn bound(&self) -> Option<u8>
        ensures { result ≡ bound_link_stream self.now.state }
    {
        self.state.bound()
    }

    /// The streams between its device and others that the interface is bound to.
    pub fn peers(&self) -> &Bindings
        ensures { result.now ≡ self.now.bindings }
    {
        &self.bindings
    }

    /// The streams that the interface is bound to: that of its link, with this floor, and then those between its device
    /// and others.
    pub fn bindings(&self, floor: u32) -> Bindings
        ensures value { result ≡ all_bindings floor self.now }
        // Without a lock there are none.
        ensures locked { is_locked self.now.state ≡ false → result ≡ [] }
    {
        let mut bindings = Bindings::new();
        if let Some(stream) = self.state.bound() {
            bindings.push(Binding { stream, floor });
        }
        bindings.append(&self.bindings);
        bindings
    }

    /// The requester ID of the interface.
    pub fn requester(&self) -> u16
        ensures { result ≡ self.now.plan.requester }
    {
        self.plan.requester
    }

    /// Whether its device answers memory reads of its base address registers.
    pub fn answers_reads(&self) -> bool
        ensures { result ≡ self.now.plan.reads }
    {
        self.plan.reads
    }

    /// The six base address registers by their number, each with its base as it stands; one that the interface has not
    /// has no pages.
    pub fn bars(&self) -> [BarPlan; 6]
        ensures { result ≡ bars_of self.now.plan self.now.registers }
    {
        bars_of(&self.plan, &self.registers)
    }

    /// The base address registers that the topology lays out, by their number.
    pub fn planned_bars(&self) -> &[BarPlan]
        ensures { result.now ≡ self.now.plan.bars }
    {
        self.plan.bars.as_slice()
    }

    /// Whether the interface has this register: all but the BARs that its layout leaves out.
    pub fn has_register(&self, register: Register) -> bool
        ensures { result ≡ has_register self.now.plan register }
    {
        register.is_of(&self.plan)
    }

    /// The value of a register that the interface has.
    pub fn register(&self, register: Register) -> u64
        requires { has_register self.now.plan register ≡ true }
        ensures { result ≡ value_in self.now.registers register }
    {
        self.registers.value(register)
    }
}
