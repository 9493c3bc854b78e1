//! The regions and their pages (this profile).

ghost use Rattle.std.specs.Prelude.{◌≡◌, ◌+◌, ◌/◌, ◌^◌, ◌≤◌, ◌==◌, ◌&&◌, ◌||◌, ℕ, List, [], ◌∷◌, true, false, All};
ghost use Rattle.std.specs.Prelude.{Some, IfOk, IsOk, OnOk, length, max, if◌then◌else◌};
ghost use Rattle.std.specs.Bool.{OnTrue, OnFalse};
ghost use Rattle.ide_types.specs.Fits.{FitsRegion};
ghost use Rattle.tlp_layout.specs.Tlp.{viewed_tlp};
ghost use Rattle.trusted_memory.specs.Spans.{span_byte_count, crosses, write_span};
ghost use Rattle.trusted_memory.specs.Writes.{Write, byte_written, byte_last_written, write_of_tlp, write_of};

use crate::blanks::{fill, put};
use crate::causes::block_cause;
use crate::page::{PAGE_BYTES, Page};
use crate::regions::{in_one_region, in_region};
use crate::{Grant, MemWriteView, Span};
use event_verdicts::{BlockCause, Effect};
use ide_types::{OutOfMemory, Region};
use std::alloc::Global;
use std::collections::HashMap;
use std::marker::Model;
use tlp_layout::TlpView;

/// The memory of a confidential guest at the host (PCI Express Base 6.0 chapter 11). Contracts see its
/// contents, that is its regions and the bytes that stand in them; and beside them which pages of 4,096 bytes are
/// there, and the number of spare pages, whose memory is taken already.
#[derive(Drop)]
pub struct Trusted {
    alloc: Global,
    regions: Vec<Region>,
    // by number; there is room in it for each spare page
    pages: HashMap<u64, Page>,
    blanks: Vec<Page>,
}

impl Model for Trusted {
    ghost use Rattle.std.specs.Prelude.{length};
    ghost use Rattle.std.specs.HashMap as hash;
    ghost use Rattle.trusted_memory.specs.Memory.{TrustedMemory};
    ghost use Rattle.trusted_memory.specs.Pages.{memory_seen, IsMemoryKept};

    ghost Value = { TrustedMemory };

    ghost view = { λ t. memory_seen t.regions.items t.pages.entries (length t.blanks.items) };

    ghost invariant = { λ t. IsMemoryKept t.regions.items t.blanks.items (hash.spare t.pages) };
}

impl Trusted {
    ghost use Rattle.trusted_memory.specs.Regions.{is_inside, in_one_region};
    ghost use Rattle.trusted_memory.specs.Causes.{block_cause, block_effect, is_applied, write_effect};
    ghost use Rattle.trusted_memory.specs.Admitted.{admitted_write};
    ghost use Rattle.trusted_memory.specs.Memory.{MemoryContents, TrustedMemory, new_memory, byte_at, bytes_from};
    ghost use Rattle.trusted_memory.specs.Memory.{has_page, takes_page, pages_taken, HasPagesOf, byte_after_effect};
    ghost use Rattle.trusted_memory.specs.Memory.{IsLeftBy, Leads};
    ghost use Rattle.trusted_memory.specs.Writes.{newest_first};

    /// The regions of a plan, with 0 in every byte, and no page.
    pub fn make(alloc: Global, regions: &[Region]) -> Result<Trusted, OutOfMemory>
        requires { All FitsRegion regions.now }
        ensures new { IfOk result (λ memory. memory ≡ new_memory regions.now) }
        ensures stands { IfOk result (λ memory. IsLeftBy memory.contents []) }
        ensures count { IfOk result (HasPagesOf []) }
    {
        let regions = Vec::from_slice(alloc, regions)?;
        Ok(Trusted {
            alloc,
            regions,
            pages: HashMap::new(alloc),
            blanks: Vec::new(alloc),
        })
    }

    /// Makes sure that at least `pages` pages are spare, so that as many writes need no memory. The contents are as
    /// before, also after `OutOfMemory`.
    pub fn spare(&mut self, pages: u8) -> Result<(), OutOfMemory>
        ensures contents { self.new.contents ≡ self.old.contents }
        ensures pages { (n : ℕ) → has_page self.new n ≡ has_page self.old n }
        ensures count { length self.new.pages ≡ length self.old.pages }
        ensures ok { OnOk result (self.new.spare ≡ max self.old.spare pages) }
        // If as many are spare already it takes no memory.
        ensures enough { pages ≤ self.old.spare → IsOk result }
        ensures least { self.old.spare ≤ self.new.spare }
        ensures most { self.new.spare ≤ max self.old.spare pages }
    {
        self.pages.reserve(pages as usize)?;
        fill(self.alloc, &mut self.blanks, pages as usize)
    }

    fn has_page(&self, number: u64) -> bool
        ensures { result ≡ has_page self.now number }
    {
        self.pages.contains_key(&number)
    }

    // Puts a spare page there, unless there is one.
    fn bring_page(&mut self, number: u64)
        requires { 1 ≤ self.old.spare }
        ensures contents { self.new.contents ≡ self.old.contents }
        ensures pages { (n : ℕ) → has_page self.new n ≡ (has_page self.old n || number == n) }
        ensures count { length self.new.pages ≡ length self.old.pages + (if has_page self.old number then 0 else 1) }
        ensures spare { self.new.spare + (if has_page self.old number then 0 else 1) ≡ self.old.spare }
    {
        if self.has_page(number) {
            return;
        }
        if let Some(page) = self.blanks.pop() {
            put(&mut self.pages, number, page);
        }
    }

    fn store(&mut self, write: &MemWriteView<'_>)
        requires inside { in_one_region self.old.contents.regions write.now.span.address
            (span_byte_count write.now.span) ≡ true }
        requires in_page { crosses write.now.span ≡ false }
        requires there { has_page self.old (write.now.span.address / 4096) ≡ true }
        ensures bytes { (a : ℕ) → byte_at self.new.contents a ≡ byte_written (write_of write.now)
            (byte_at self.old.contents) a }
        ensures regions { self.new.contents.regions ≡ self.old.contents.regions }
        ensures kept { self.new ≡ record self.old { contents = self.new.contents } }
    {
        let at = write.span.address;
        if let Some(page) = self.pages.get_mut(&(at / PAGE_BYTES as u64)) {
            page.write((at % PAGE_BYTES as u64) as usize, write);
        }
    }

    /// The first cause for which a request over these bytes would be blocked; `None` if nothing blocks it.
    pub fn block_cause(&self, span: Span, trusted: bool, grant: Grant) -> Option<BlockCause>
        ensures { result ≡ block_cause self.now.contents.regions span trusted grant }
    {
        block_cause(&self.regions, span, trusted, grant)
    }

    /// Applies a memory write that was accepted at a host's port, or tells the first cause that blocks it: it is not
    /// trusted (T is clear); its requester is no running interface; it came on another stream than the bound one; its
    /// draw is less than the floor; the bytes of its double words are not all in one region; they cross a 4 KiB
    /// boundary. The payload's enabled bytes are written to ascending addresses. It takes no memory, and
    /// a spare page only if the write is applied and its page is not there.
    pub fn apply(&mut self, write: &MemWriteView<'_>, trusted: bool, grant: Grant) -> Effect
        requires { 1 ≤ self.old.spare }
        ensures effect { result ≡ block_effect
            (block_cause self.old.contents.regions write.now.span trusted grant) }
        ensures bytes { (a : ℕ) → byte_at self.new.contents a ≡ byte_after_effect result (write_of write.now)
            (byte_at self.old.contents) a }
        ensures regions { self.new.contents.regions ≡ self.old.contents.regions }
        ensures as_before { is_applied result ≡ false → self.new ≡ self.old }
        ensures leads { Leads self.old.contents
            (admitted_write self.old.contents.regions trusted grant (Some (write_of write.now)) ∷ [])
            self.new.contents }
        ensures spare { self.new.spare + pages_taken self.old (Some write.now.span) result ≡ self.old.spare }
        ensures count { length self.new.pages
            ≡ length self.old.pages + pages_taken self.old (Some write.now.span) result }
        ensures pages { (n : ℕ) → has_page self.new n ≡ (has_page self.old n
            || (takes_page self.old (Some write.now.span) result && write.now.span.address / 4096 == n)) }
    {
        match self.block_cause(write.span, trusted, grant) {
            Some(cause) => Effect::Blocked(cause),
            None => {
                self.bring_page(write.span.address / PAGE_BYTES as u64);
                self.store(write);
                Effect::Applied
            }
        }
    }

    /// Gives a TLP of a unit that was accepted at a host's port its effect: a memory write is applied or blocked, any
    /// other TLP is delivered and changes nothing here. It takes no memory, and a spare page only if it is a write that
    /// is applied and whose page is not there; so no more pages are there than writes were applied.
    pub fn deliver(&mut self, tlp: &TlpView<'_>, trusted: bool, grant: Grant) -> Effect
        requires { 1 ≤ self.old.spare }
        ensures effect { result ≡ write_effect self.old.contents.regions trusted grant (write_span tlp.now.head) }
        ensures regions { self.new.contents.regions ≡ self.old.contents.regions }
        ensures leads { Leads self.old.contents
            (admitted_write self.old.contents.regions trusted grant (write_of_tlp (viewed_tlp tlp.now)) ∷ [])
            self.new.contents }
        ensures as_before { is_applied result ≡ false → self.new ≡ self.old }
        ensures spare { self.new.spare + pages_taken self.old (write_span tlp.now.head) result ≡ self.old.spare }
        ensures count { length self.new.pages
            ≡ length self.old.pages + pages_taken self.old (write_span tlp.now.head) result }
        ensures few { (writes : List Write) → HasPagesOf writes self.old → HasPagesOf (newest_first
            (admitted_write self.old.contents.regions trusted grant (write_of_tlp (viewed_tlp tlp.now)) ∷ []) writes)
            self.new }
    {
        match MemWriteView::of(tlp) {
            Some(write) => self.apply(&write, trusted, grant),
            None => Effect::Delivered,
        }
    }

    fn byte(&self, at: u64) -> u8
        ensures { result ≡ byte_at self.now.contents at }
    {
        if !in_region(&self.regions, at) {
            return 0;
        }
        match self.pages.get(&(at / PAGE_BYTES as u64)) {
            Some(page) => page.byte((at % PAGE_BYTES as u64) as usize),
            None => 0,
        }
    }

    // The byte that is `i` bytes behind an address, which may be past the last.
    fn byte_behind(&self, at: u64, i: usize) -> u8
        ensures { result ≡ byte_at self.now.contents (at + i) }
    {
        // what always holds of the regions: none has a byte from 2^63 on
        let _ = &self.regions;
        match at.checked_add(i as u64) {
            Some(at) => self.byte(at),
            None => 0,
        }
    }

    // Copies the bytes if they lie in one region and in one page that is there; else it is false.
    fn copy_page(&self, at: u64, buf: &mut [u8]) -> bool
        ensures bytes { OnTrue result (buf.new ≡ bytes_from (byte_at self.now.contents) at (length buf.old)) }
        ensures others { OnFalse result (buf.new ≡ buf.old) }
    {
        let start = (at % PAGE_BYTES as u64) as usize;
        if buf.len() > PAGE_BYTES - start || !in_one_region(&self.regions, at, buf.len()) {
            return false;
        }
        match self.pages.get(&(at / PAGE_BYTES as u64)) {
            None => false,
            Some(page) => {
                page.read(start, buf);
                true
            }
        }
    }

    // Copies them one by one.
    fn copy_bytes(&self, at: u64, buf: &mut [u8])
        ensures { buf.new ≡ bytes_from (byte_at self.now.contents) at (length buf.old) }
    {
        for (i, byte) in buf.iter_mut().enumerate() {
            *byte = self.byte_behind(at, i);
        }
    }

    /// Copies the bytes from an address on into `buf`, 0 of each that no region has.
    pub fn copy(&self, at: u64, buf: &mut [u8])
        ensures { buf.new ≡ bytes_from (byte_at self.now.contents) at (length buf.old) }
    {
        if !self.copy_page(at, buf) {
            self.copy_bytes(at, buf);
        }
    }

    /// Copies the bytes from an address on into `buf`. It is false exactly if no one region has the address and all the
    /// bytes; `buf` is then as before.
    pub fn peek(&self, at: u64, buf: &mut [u8]) -> bool
        ensures answer { result ≡ in_one_region self.now.contents.regions at (length buf.old) }
        ensures bytes { OnTrue result (buf.new ≡ bytes_from (byte_at self.now.contents) at (length buf.old)) }
        // That is, at each address, the byte of the last applied write that enables it, else 0.
        ensures last { (writes : List Write) → IsLeftBy self.now.contents writes
            → OnTrue result (buf.new ≡ bytes_from (byte_last_written writes) at (length buf.old)) }
        ensures outside { OnFalse result (buf.new ≡ buf.old) }
    {
        if !in_one_region(&self.regions, at, buf.len()) {
            return false;
        }
        self.copy(at, buf);
        true
    }
}
