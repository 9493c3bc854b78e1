//! The ranges of a device's interfaces, and their pages.

ghost use Rattle.std.specs.Prelude.{◌≡◌, ◌+◌, ◌-◌, ◌^◌, ◌≤◌, ◌<◌, ◌==◌, ◌&&◌, ◌||◌, ℕ, List, [], ◌∷◌, true, false};
ghost use Rattle.std.specs.Prelude.{Some, IfOk, IsOk, OnOk, length, max, slice_get, slice_index, if◌then◌else◌};
ghost use Rattle.std.specs.Bool.{OnTrue, OnFalse};
ghost use Rattle.tlp_layout.specs.Tlp.{viewed_tlp};
ghost use Rattle.trusted_memory.specs.Spans.{span_byte_count, is_enabled, crosses, write_span};
ghost use Rattle.trusted_memory.specs.Writes.{write_of_tlp, write_of};
ghost use Rattle.trusted_memory.specs.Memory.{bytes_from};
ghost use Rattle.guarded_memory.specs.declared.status.InterfaceStatus.{InterfaceStatus};

use crate::causes::mmio_cause;
use crate::claims::claim_of;
use crate::names::{PageName, name_at, outlives_stop, put};
use crate::sizes::{fits_range, sizes_of};
use crate::{Claim, Statuses};
use event_verdicts::Effect;
use ide_types::{BarPlan, InterfacePlan, OutOfMemory};
use std::alloc::Global;
use std::collections::HashMap;
use std::marker::Model;
use tlp_layout::TlpView;
use trusted_memory::{MemWriteView, PAGE_BYTES, Page, ReadArrival, fill};

/// The memory behind the base address registers of a device's interfaces (PCI Express Base 6.0 chapter 11, in this
/// profile). Contracts see the byte at each offset of each BAR of each interface; and beside that how large the BARs
/// are, and the number of spare pages of 4,096 bytes, whose memory is taken already.
#[derive(Drop)]
pub struct Guarded {
    alloc: Global,
    // pages of each BAR of each interface
    sizes: Vec<[u32; 6]>,
    // there is room in it for each spare page
    pages: HashMap<PageName, Page>,
    blanks: Vec<Page>,
}

impl Model for Guarded {
    ghost use Rattle.std.specs.Prelude.{length};
    ghost use Rattle.std.specs.HashMap as hash;
    ghost use Rattle.guarded_memory.specs.Contents.{GuardedMemory, IsGuardedKept};

    ghost Value = { GuardedMemory };

    ghost view = { λ g. record {
      sizes = g.sizes.items;
      pages = g.pages.entries;
      spare = length g.blanks.items;
    } };

    ghost invariant = { λ g. IsGuardedKept g.blanks.items (hash.spare g.pages) };
}

impl Guarded {
    ghost use Rattle.guarded_memory.specs.Claims.{holds_span};
    ghost use Rattle.guarded_memory.specs.Causes.{mmio_cause, cause_effect, mmio_effect, is_stored};
    ghost use Rattle.guarded_memory.specs.Happenings.{Happened, WriteStored, InterfaceReset, AllReset};
    ghost use Rattle.guarded_memory.specs.Happenings.{InterfaceStopped};
    ghost use Rattle.guarded_memory.specs.Happenings.{byte_shown, contents_after, contents_if_happened};
    ghost use Rattle.guarded_memory.specs.Stored.{with_address, write_from_base, stored_unless, write_happened};
    ghost use Rattle.guarded_memory.specs.Contents.{GuardedMemory, new_guarded, range_size, has_bytes, is_page_name};
    ghost use Rattle.guarded_memory.specs.Contents.{name_at, mmio_byte, keeps_page, IsMmioLeftBy, MmioLeads};
    ghost use Rattle.guarded_memory.specs.Laws.{is_guarded, is_admitted};

    /// The ranges of the interfaces of a device, with 0 in every byte, and no page.
    pub fn make(alloc: Global, interfaces: &[InterfacePlan]) -> Result<Guarded, OutOfMemory>
        ensures new { IfOk result (λ memory. memory ≡ new_guarded interfaces.now) }
        ensures stands { IfOk result (λ memory. IsMmioLeftBy memory []) }
    {
        let sizes = sizes_of(alloc, interfaces)?;
        Ok(Guarded {
            alloc,
            sizes,
            pages: HashMap::new(alloc),
            blanks: Vec::new(alloc),
        })
    }

    /// Makes sure that at least `pages` pages are spare, so that half as many writes need no memory. The contents are
    /// as before, also after `OutOfMemory`.
    pub fn spare(&mut self, pages: u8) -> Result<(), OutOfMemory>
        ensures bytes { (i b offset : ℕ) → mmio_byte self.new i b offset ≡ mmio_byte self.old i b offset }
        ensures sizes { self.new.sizes ≡ self.old.sizes }
        ensures ok { OnOk result (self.new.spare ≡ max self.old.spare pages) }
        // If as many are spare already it takes no memory.
        ensures enough { pages ≤ self.old.spare → IsOk result }
        ensures least { self.old.spare ≤ self.new.spare }
        ensures most { self.new.spare ≤ max self.old.spare pages }
    {
        self.pages.reserve(pages as usize)?;
        fill(self.alloc, &mut self.blanks, pages as usize)
    }

    fn keeps_page(&self, name: PageName) -> bool
        ensures { result ≡ keeps_page self.now name }
    {
        self.pages.contains_key(&name)
    }

    // Puts a spare page there, unless there is one.
    fn bring_page(&mut self, name: PageName)
        requires { 1 ≤ self.old.spare }
        ensures bytes { (i b offset : ℕ) → mmio_byte self.new i b offset ≡ mmio_byte self.old i b offset }
        ensures pages { (q : PageName) → keeps_page self.new q ≡ (keeps_page self.old q || is_page_name name q) }
        ensures sizes { self.new.sizes ≡ self.old.sizes }
        ensures spare { self.old.spare ≤ self.new.spare + 1 }
    {
        if self.keeps_page(name) {
            return;
        }
        if let Some(page) = self.blanks.pop() {
            put(&mut self.pages, name, page);
        }
    }

    // Sets the byte at an offset, whose page is there.
    fn set(&mut self, interface: usize, bar: usize, offset: u64, value: u8)
        requires { keeps_page self.old (name_at interface bar offset) ≡ true }
        ensures bytes { (i b at : ℕ) → mmio_byte self.new i b at
            ≡ (if ((interface == i) && (bar == b)) && (offset == at) then value else mmio_byte self.old i b at) }
        ensures pages { (q : PageName) → keeps_page self.new q ≡ keeps_page self.old q }
        ensures kept { self.new ≡ record self.old { pages = self.new.pages } }
    {
        if let Some(page) = self.pages.get_mut(&name_at(interface, bar, offset)) {
            page.set((offset % PAGE_BYTES as u64) as usize, value);
        }
    }

    // Sets it to byte `k` of the payload, if that is enabled.
    fn set_enabled(
        &mut self,
        interface: usize,
        bar: usize,
        offset: u64,
        write: &MemWriteView<'_>,
        k: usize,
    )
        requires { keeps_page self.old (name_at interface bar offset) ≡ true }
        ensures bytes { (i b at : ℕ) → mmio_byte self.new i b at
            ≡ (if (((interface == i) && (bar == b)) && (offset == at)) && is_enabled write.now.span k
            then slice_index write.now.payload.now k else mmio_byte self.old i b at) }
        ensures pages { (q : PageName) → keeps_page self.new q ≡ keeps_page self.old q }
        ensures kept { self.new ≡ record self.old { pages = self.new.pages } }
    {
        if write.span.is_enabled(k) {
            self.set(interface, bar, offset, write.byte(k));
        }
    }

    // Writes the enabled bytes of the payload from an offset on; the pages of the first and of the last byte are there.
    fn set_all(&mut self, interface: usize, bar: usize, offset: u64, write: &MemWriteView<'_>)
        requires short { span_byte_count write.now.span ≤ 4096 }
        requires fits { offset + span_byte_count write.now.span < 2 ^ 64 }
        requires first { keeps_page self.old (name_at interface bar offset) ≡ true }
        requires last { keeps_page self.old
            (name_at interface bar ((offset + span_byte_count write.now.span) - 1)) ≡ true }
        ensures bytes { (i b at : ℕ) → mmio_byte self.new i b at ≡ contents_after
            (WriteStored interface bar (with_address offset (write_of write.now))) (mmio_byte self.old) i b at }
        ensures kept { self.new ≡ record self.old { pages = self.new.pages } }
    {
        for k in 0..write.span.bytes() {
            self.set_enabled(interface, bar, offset + k as u64, write, k);
        }
    }

    fn store(&mut self, claim: &Claim, write: &MemWriteView<'_>)
        requires spare { 2 ≤ self.old.spare }
        requires holds { holds_span claim.now.range write.now.span ≡ true }
        requires whole { crosses write.now.span ≡ false }
        ensures bytes { (i b at : ℕ) → mmio_byte self.new i b at ≡ contents_after
            (WriteStored claim.now.interface claim.now.bar
            (write_from_base claim.now.range.base (write_of write.now))) (mmio_byte self.old) i b at }
        ensures sizes { self.new.sizes ≡ self.old.sizes }
        ensures spare { self.old.spare ≤ self.new.spare + 2 }
    {
        let range = claim.range;
        let offset = write.span.address - range.base;
        let end = offset + write.span.bytes() as u64;
        self.bring_page(name_at(claim.interface, claim.bar, offset));
        self.bring_page(name_at(claim.interface, claim.bar, end.saturating_sub(1)));
        self.set_all(claim.interface, claim.bar, offset, write);
    }

    // Stores a claimed write, unless something blocks it.
    fn admit(&mut self, claim: &Claim, write: &MemWriteView<'_>, came: ReadArrival) -> Effect
        requires spare { 2 ≤ self.old.spare }
        requires holds { holds_span claim.now.range write.now.span ≡ true }
        ensures effect { result ≡ cause_effect
            (mmio_cause claim.now.status claim.now.range write.now.span came.trusted came.stream came.draw) }
        ensures bytes { (i b at : ℕ) → mmio_byte self.new i b at ≡ contents_if_happened (stored_unless
            (mmio_cause claim.now.status claim.now.range write.now.span came.trusted came.stream came.draw)
            claim.now (write_of write.now)) (mmio_byte self.old) i b at }
        ensures as_before { is_stored result ≡ false → self.new ≡ self.old }
        ensures sizes { self.new.sizes ≡ self.old.sizes }
        ensures spare { self.old.spare ≤ self.new.spare + 2 }
    {
        match mmio_cause(claim, write.span, came.trusted, came.stream, came.draw) {
            Some(cause) => Effect::Blocked(cause),
            None => {
                self.store(claim, write);
                Effect::Stored
            }
        }
    }

    // A memory write, which is delivered if nothing claims it.
    fn deliver_write<S: Statuses>(
        &mut self,
        statuses: &S,
        write: &MemWriteView<'_>,
        came: ReadArrival,
    ) -> Effect
        requires { 2 ≤ self.old.spare }
        ensures effect { result ≡ mmio_effect (S.stand statuses.now) came.trusted came.stream came.draw
            (Some write.now.span) }
        ensures bytes { (i b at : ℕ) → mmio_byte self.new i b at ≡ contents_if_happened
            (write_happened (S.stand statuses.now) came.trusted came.stream came.draw (Some (write_of write.now)))
            (mmio_byte self.old) i b at }
        ensures as_before { is_stored result ≡ false → self.new ≡ self.old }
        ensures sizes { self.new.sizes ≡ self.old.sizes }
        ensures spare { self.old.spare ≤ self.new.spare + 2 }
    {
        match claim_of(statuses, write.span) {
            None => Effect::Delivered,
            Some(claim) => self.admit(&claim, write, came),
        }
    }

    /// Gives a TLP of a unit that was accepted at the device's port its effect, by how its interfaces stand: a memory
    /// write that one of them claims is stored, or blocked for the first cause that holds (`BlockCause`); any other TLP
    /// is delivered and changes nothing here. `came` says how its packet came. The payload's enabled bytes are written to
    /// ascending offsets in the range. It takes no memory, and at most two spare pages.
    pub fn deliver<S: Statuses>(
        &mut self,
        statuses: &S,
        tlp: &TlpView<'_>,
        came: ReadArrival,
    ) -> Effect
        requires { 2 ≤ self.old.spare }
        ensures effect { result ≡ mmio_effect (S.stand statuses.now) came.trusted came.stream came.draw
            (write_span tlp.now.head) }
        ensures bytes { (i b at : ℕ) → mmio_byte self.new i b at ≡ contents_if_happened
            (write_happened (S.stand statuses.now) came.trusted came.stream came.draw (write_of_tlp (viewed_tlp tlp.now)))
            (mmio_byte self.old) i b at }
        ensures leads { MmioLeads self.old
            (write_happened (S.stand statuses.now) came.trusted came.stream came.draw (write_of_tlp (viewed_tlp tlp.now))
            ∷ []) self.new }
        // A byte of a range that is not open, of an interface in CONFIG_LOCKED or RUN, changes only by a trusted write
        // in RUN, on a bound stream, under a draw from its floor on.
        ensures guarded { (i b at : ℕ) (x : InterfaceStatus) → slice_get (S.stand statuses.now) i ≡ Some x
            → is_guarded x b ≡ true → is_admitted x came.trusted came.stream came.draw ≡ false
            → mmio_byte self.new i b at ≡ mmio_byte self.old i b at }
        ensures as_before { is_stored result ≡ false → self.new ≡ self.old }
        ensures sizes { self.new.sizes ≡ self.old.sizes }
        ensures spare { self.old.spare ≤ self.new.spare + 2 }
    {
        match MemWriteView::of(tlp) {
            Some(write) => self.deliver_write(statuses, &write, came),
            None => Effect::Delivered,
        }
    }

    /// Sets all ranges of an interface to 0: a function level reset (PCI Express Base 6.0 section 6.6.2).
    pub fn reset(&mut self, interface: usize)
        ensures bytes { (i b at : ℕ) → mmio_byte self.new i b at
            ≡ contents_after (InterfaceReset interface) (mmio_byte self.old) i b at }
        ensures leads { MmioLeads self.old (Some (InterfaceReset interface) ∷ []) self.new }
        ensures kept { self.new ≡ record self.old { pages = self.new.pages } }
    {
        self.pages.retain(|name, _| interface != name.interface);
    }

    /// Sets all ranges of all interfaces to 0: a reset of the link.
    pub fn reset_all(&mut self)
        ensures bytes { (i b at : ℕ) → mmio_byte self.new i b at ≡ 0 }
        ensures leads { MmioLeads self.old (Some AllReset ∷ []) self.new }
        ensures kept { self.new ≡ record self.old { pages = self.new.pages } }
    {
        self.pages.clear();
    }

    /// Sets the ranges of an interface that are not open to 0: it accepted a STOP_INTERFACE, and these are its base
    /// address registers (PCI Express Base 6.0 chapter 11, in this profile).
    pub fn stop_interface(&mut self, interface: usize, bars: &[BarPlan])
        ensures bytes { (i b at : ℕ) → mmio_byte self.new i b at
            ≡ contents_after (InterfaceStopped interface bars.now) (mmio_byte self.old) i b at }
        ensures leads { MmioLeads self.old (Some (InterfaceStopped interface bars.now) ∷ []) self.new }
        ensures kept { self.new ≡ record self.old { pages = self.new.pages } }
    {
        self.pages
            .retain(|name, _| outlives_stop(name, interface, bars));
    }

    // The bytes of a range, none if there is no such BAR.
    fn range_size(&self, interface: usize, bar: usize) -> u64
        ensures { result ≡ range_size self.now.sizes interface bar }
    {
        match self.sizes.get(interface) {
            Some(pages) => 4_096 * pages.get(bar).copied().unwrap_or(0) as u64,
            None => 0,
        }
    }

    fn byte(&self, interface: usize, bar: usize, offset: u64) -> u8
        ensures { result ≡ mmio_byte self.now interface bar offset }
    {
        match self.pages.get(&name_at(interface, bar, offset)) {
            Some(page) => page.byte((offset % PAGE_BYTES as u64) as usize),
            None => 0,
        }
    }

    // Copies the bytes if they lie in one page that is there; else it is false.
    fn copy_page(&self, interface: usize, bar: usize, offset: u64, buf: &mut [u8]) -> bool
        ensures bytes { OnTrue result
            (buf.new ≡ bytes_from (mmio_byte self.now interface bar) offset (length buf.old)) }
        ensures others { OnFalse result (buf.new ≡ buf.old) }
    {
        let start = (offset % PAGE_BYTES as u64) as usize;
        if buf.len() > PAGE_BYTES - start {
            return false;
        }
        match self.pages.get(&name_at(interface, bar, offset)) {
            None => false,
            Some(page) => {
                page.read(start, buf);
                true
            }
        }
    }

    // Copies them one by one.
    fn copy_bytes(&self, interface: usize, bar: usize, offset: u64, buf: &mut [u8])
        requires { offset + length buf.old < 2 ^ 64 }
        ensures { buf.new ≡ bytes_from (mmio_byte self.now interface bar) offset (length buf.old) }
    {
        for (i, byte) in buf.iter_mut().enumerate() {
            *byte = self.byte(interface, bar, offset + i as u64);
        }
    }

    /// Copies the bytes from an offset in the range of a BAR on into `buf`, which does not pass 2^64.
    pub(crate) fn copy(&self, interface: usize, bar: usize, offset: u64, buf: &mut [u8])
        requires { offset + length buf.old < 2 ^ 64 }
        ensures { buf.new ≡ bytes_from (mmio_byte self.now interface bar) offset (length buf.old) }
    {
        if !self.copy_page(interface, bar, offset, buf) {
            self.copy_bytes(interface, bar, offset, buf);
        }
    }

    /// Copies the bytes from an offset in the range of a BAR on into `buf`. It is false exactly if there is no such
    /// interface or BAR, or its range has not the byte at the offset and all that follow; `buf` is then as before.
    pub fn peek(&self, interface: usize, bar: usize, offset: u64, buf: &mut [u8]) -> bool
        ensures answer { result ≡ has_bytes self.now.sizes interface bar offset (length buf.old) }
        ensures bytes { OnTrue result
            (buf.new ≡ bytes_from (mmio_byte self.now interface bar) offset (length buf.old)) }
        // That is, at each offset, the byte of the last stored write that enables it since the range was last set to 0,
        // else 0.
        ensures last { (happened : List Happened) → IsMmioLeftBy self.now happened
            → OnTrue result (buf.new ≡ bytes_from (byte_shown happened interface bar) offset (length buf.old)) }
        ensures missing { OnFalse result (buf.new ≡ buf.old) }
    {
        let size = self.range_size(interface, bar);
        if !fits_range(size, offset, buf.len()) {
            return false;
        }
        self.copy(interface, bar, offset, buf);
        true
    }
}
