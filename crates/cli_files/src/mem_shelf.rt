//! Files in memory: chosen reads fail, or none.
ghost use Rattle.std.specs.Prelude.{◌≡◌, ◌≤◌, ◌||◌, None, Some, is_err, is_none, option_map, length, max, IfOk};
ghost use Rattle.cli_files.specs.Memory.{IsNew, calls_after, contents_of, fails_now, file_contents, reads_of};
ghost use Rattle.cli_files.specs.Outside.{AsksFor, IsLastName, IsGiven, ReadAt, ReadIfTold, ReadOrRefused, ShelfCause};
ghost use Rattle.cli_files.specs.Outside.{given_by};

use crate::calls::Calls;
use crate::{Shelf, ShelfFault};

/// A file of a shelf in memory: its name and its bytes.
#[derive(Drop)]
pub struct NamedFile {
    pub name: String,
    pub bytes: Vec<u8>,
}

// The bytes of the first file of this name.
fn file_named<'a>(files: &'a [NamedFile], name: &str) -> Option<&'a [u8]>
    ensures { option_map (λ b. b.now) result ≡ file_contents files.now name.now }
{
    files
        .iter()
        .find(|f| f.name.as_str() == name)
        .map(|f| f.bytes.as_slice())
}

// Copies what fits from a place on.
fn copy_from(file: &[u8], at: u64, buf: &mut [u8]) -> usize
    ensures { ReadAt file.now at result buf.new }
{
    if at >= file.len() as u64 {
        return 0;
    }
    let rest = &file[at as usize..];
    let n = rest.len().min(buf.len());
    buf[..n].copy_from_slice(&rest[..n]);
    n
}

// Reads the first file of this name, and counts what it gives.
fn read_file(
    files: &[NamedFile],
    given: &mut u64,
    latest: &mut usize,
    name: &str,
    at: u64,
    buf: &mut [u8],
) -> Result<usize, ShelfFault>
    ensures bound { IfOk result (λ n. n ≤ length buf.new) }
    ensures bytes { ReadOrRefused (file_contents files.now name.now) at result buf.new }
    ensures counted { IsGiven given.old given.new result }
    ensures latest { latest.new ≡ given_by result }
    ensures fails { is_err result ≡ is_none (file_contents files.now name.now) }
{
    match file_named(files, name) {
        None => {
            *latest = 0;
            Err(ShelfFault)
        }
        Some(file) => {
            let n = copy_from(file, at, buf);
            *given = given.saturating_add(n as u64);
            *latest = n;
            Ok(n)
        }
    }
}

/// Files in memory, which it tells. The reads with the listed numbers, from 0, fail and are counted; of two
/// files of one name it gives the first.
#[derive(Drop)]
pub struct MemShelf {
    files: Vec<NamedFile>,
    calls: Calls,
    given: u64,
    latest: usize,
    longest: usize,
}

impl MemShelf {
    /// The files, and the numbers of the reads that fail.
    pub fn new(files: Vec<NamedFile>, failing: Vec<u64>) -> MemShelf
        ensures contents { (⟦<MemShelf as Shelf>⟧.seen result).contents ≡ Some (file_contents files.items) }
        ensures given { (⟦<MemShelf as Shelf>⟧.seen result).given ≡ 0 }
        ensures latest { (⟦<MemShelf as Shelf>⟧.seen result).latest ≡ 0 }
        ensures longest { (⟦<MemShelf as Shelf>⟧.seen result).longest ≡ 0 }
        ensures faults { (⟦<MemShelf as Shelf>⟧.seen result).faults ≡ 0 }
        ensures calls { IsNew (reads_of result) failing.items }
    {
        MemShelf {
            files,
            calls: Calls::new(failing),
            given: 0,
            latest: 0,
            longest: 0,
        }
    }
}

impl Shelf for MemShelf {
    ghost seen = { λ s. record {
      contents = Some (contents_of s);
      asked = None;
      given = s.given;
      latest = s.latest;
      longest = s.longest;
      faults = s.calls.faults;
    } };

    fn read(&mut self, name: &str, at: u64, buf: &mut [u8]) -> Result<usize, ShelfFault>
        ensures same { (⟦<MemShelf as Shelf>⟧.seen self.new).contents ≡ (⟦<MemShelf as Shelf>⟧.seen self.old).contents }
        ensures file_names { AsksFor name.now (⟦<MemShelf as Shelf>⟧.seen self.old).asked
            (⟦<MemShelf as Shelf>⟧.seen self.new).asked }
        ensures told { IfOk result (λ n. IsLastName name.now (⟦<MemShelf as Shelf>⟧.seen self.new).asked) }
        ensures bound { IfOk result (λ n. n ≤ length buf.new) }
        ensures bytes { ReadIfTold (⟦<MemShelf as Shelf>⟧.seen self.old).contents name.now at result buf.new }
        ensures counted { IsGiven (⟦<MemShelf as Shelf>⟧.seen self.old).given
            (⟦<MemShelf as Shelf>⟧.seen self.new).given
            result }
        ensures latest { (⟦<MemShelf as Shelf>⟧.seen self.new).latest ≡ given_by result }
        ensures asked { (⟦<MemShelf as Shelf>⟧.seen self.new).longest
            ≡ max (⟦<MemShelf as Shelf>⟧.seen self.old).longest (length buf.new) }
        ensures cause { ShelfCause (⟦<MemShelf as Shelf>⟧.seen self.old).faults
            (⟦<MemShelf as Shelf>⟧.seen self.new).faults
            (⟦<MemShelf as Shelf>⟧.seen self.old).contents name.now result }
        ensures calls { reads_of self.new ≡ calls_after (reads_of self.old) }
        ensures fails { is_err result ≡ fails_now (reads_of self.old) || is_none (contents_of self.old name.now) }
    {
        self.longest = self.longest.max(buf.len());
        if self.calls.next_fails() {
            self.latest = 0;
            return Err(ShelfFault);
        }
        read_file(
            &self.files,
            &mut self.given,
            &mut self.latest,
            name,
            at,
            buf,
        )
    }
}

/// Files in memory, which it tells. No read fails but one of a name that has no file.
#[derive(Drop)]
pub struct TrueShelf {
    files: Vec<NamedFile>,
    given: u64,
    latest: usize,
    longest: usize,
}

impl TrueShelf {
    /// The files.
    pub fn new(files: Vec<NamedFile>) -> TrueShelf
        ensures contents { (⟦<TrueShelf as Shelf>⟧.seen result).contents ≡ Some (file_contents files.items) }
        ensures given { (⟦<TrueShelf as Shelf>⟧.seen result).given ≡ 0 }
        ensures latest { (⟦<TrueShelf as Shelf>⟧.seen result).latest ≡ 0 }
        ensures longest { (⟦<TrueShelf as Shelf>⟧.seen result).longest ≡ 0 }
    {
        TrueShelf {
            files,
            given: 0,
            latest: 0,
            longest: 0,
        }
    }
}

impl Shelf for TrueShelf {
    ghost seen = { λ s. record {
      contents = Some (file_contents s.files.items);
      asked = None;
      given = s.given;
      latest = s.latest;
      longest = s.longest;
      faults = 0;
    } };

    fn read(&mut self, name: &str, at: u64, buf: &mut [u8]) -> Result<usize, ShelfFault> {
        self.longest = self.longest.max(buf.len());
        read_file(
            &self.files,
            &mut self.given,
            &mut self.latest,
            name,
            at,
            buf,
        )
    }
}
