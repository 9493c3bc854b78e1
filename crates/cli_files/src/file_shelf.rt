//! Files of the system.
ghost use Rattle.std.specs.Prelude.{◌≡◌, [], true, Some, None, IfOk, IfSome, map, string_bytes};
ghost use Rattle.std.specs.Io.{ReadsAtMost};
ghost use Rattle.cli_files.specs.Files.{IsNoted};
ghost use Rattle.cli_files.specs.Outside.{AsksFor, IsLastName};

use crate::{Shelf, ShelfFault};
use std::alloc::Global;
use std::fs::File;
use std::io;
use std::io::{Read, Seek, SeekFrom};
use std::rt::Files;

// A file that was read, and the place where its next read goes on, unless a read or seek has failed.
#[derive(Drop)]
pub(crate) struct OpenFile<F> {
    pub(crate) file: F,
    pub(crate) place: Option<u64>,
}

/// Files of the system by path. It tells no contents, but the names of the files that it opened, and counts each read
/// that fails. The file that was read last stays open, and is sought only if a read does not go on from the place where
/// the last one ended: so a pipe can be read from its beginning to its end.
#[derive(Drop)]
pub struct FileShelf<R: Files> {
    alloc: Global,
    files: R,
    asked: Vec<String>,
    last: Option<OpenFile<R::File>>,
    given: u64,
    latest: usize,
    longest: usize,
    faults: u64,
    failed: Option<io::Error>,
}

impl<R: Files> FileShelf<R> {
    /// Over the files of the system; none is open yet.
    pub fn new(alloc: Global, files: R) -> FileShelf<R>
        ensures asked { (⟦<FileShelf<R> as Shelf>⟧.seen result).asked ≡ Some [] }
        ensures given { (⟦<FileShelf<R> as Shelf>⟧.seen result).given ≡ 0 }
        ensures latest { (⟦<FileShelf<R> as Shelf>⟧.seen result).latest ≡ 0 }
        ensures longest { (⟦<FileShelf<R> as Shelf>⟧.seen result).longest ≡ 0 }
        ensures faults { (⟦<FileShelf<R> as Shelf>⟧.seen result).faults ≡ 0 }
    {
        FileShelf {
            alloc,
            files,
            asked: Vec::new(alloc),
            last: None,
            given: 0,
            latest: 0,
            longest: 0,
            faults: 0,
            failed: None,
        }
    }

    /// The name that was asked for last, unless there was no memory to note it.
    pub fn last_name(&self) -> Option<&str>
        ensures { IfSome result (λ name. IsLastName name.now (⟦<FileShelf<R> as Shelf>⟧.seen self.now).asked) }
    {
        last_of(&self.asked)
    }

    /// Why the last read failed, if it did: the system's error of the file that was asked for last. None too if there
    /// was no memory to note that name.
    pub fn failure(&self) -> Option<io::Error> {
        self.failed
    }
}

// Reads from a place on.
pub(crate) fn read_at<F: Read + Seek>(
    open: &mut OpenFile<F>,
    at: u64,
    buf: &mut [u8],
) -> io::Result<usize>
    ensures { ReadsAtMost result buf.new }
{
    let goes_on = open.place == Some(at);
    open.place = None;
    if !goes_on {
        open.file.seek(SeekFrom::Start(at))?;
    }
    let n = open.file.read(buf)?;
    open.place = at.checked_add(n as u64);
    Ok(n)
}

// The name that was asked for last.
fn last_of(asked: &[String]) -> Option<&str>
    ensures { IfSome result (λ name. IsLastName name.now (Some (map string_bytes asked.now))) }
{
    match asked.last() {
        Some(last) => Some(last.as_str()),
        None => None,
    }
}

// Whether this name was asked for last.
fn is_last(asked: &[String], name: &str) -> bool
    ensures { result ≡ true → IsLastName name.now (Some (map string_bytes asked.now)) }
{
    match asked.last() {
        Some(last) => last.as_str() == name,
        None => false,
    }
}

// Why a read of this name failed, if it is the one that was asked for last.
fn failed_under(asked: &[String], name: &str, error: io::Error) -> Option<io::Error> {
    if is_last(asked, name) {
        Some(error)
    } else {
        None
    }
}

// Notes a name that is asked for, unless there is no memory.
fn note(alloc: Global, asked: &mut Vec<String>, name: &str) -> io::Result<()>
    ensures { IsNoted name.now (map string_bytes asked.old.items) (map string_bytes asked.new.items) result }
{
    let name = String::from_str(alloc, name)?;
    asked.push(name)?;
    Ok(())
}

// Reads the file of this name, which then stays open: it is the one that was asked for last. Its name is noted before
// it is opened.
fn read_named<R: Files>(
    alloc: Global,
    files: &R,
    asked: &mut Vec<String>,
    last: &mut Option<OpenFile<R::File>>,
    name: &str,
    at: u64,
    buf: &mut [u8],
) -> io::Result<usize>
    ensures bound { ReadsAtMost result buf.new }
    ensures file_names { AsksFor name.now (Some (map string_bytes asked.old.items))
        (Some (map string_bytes asked.new.items)) }
    ensures told { IfOk result (λ n. IsLastName name.now (Some (map string_bytes asked.new.items))) }
{
    if is_last(asked, name) {
        if let Some(open) = last {
            return read_at(open, at, buf);
        }
    }
    *last = None;
    note(alloc, asked, name)?;
    let file = File::open(files, name)?;
    let mut open = OpenFile {
        file,
        place: Some(0),
    };
    let n = read_at(&mut open, at, buf)?;
    *last = Some(open);
    Ok(n)
}

impl<R: Files> Shelf for FileShelf<R> {
    ghost seen = { λ s. record {
      contents = None;
      asked = Some (map string_bytes s.asked.items);
      given = s.given;
      latest = s.latest;
      longest = s.longest;
      faults = s.faults;
    } };

    fn read(&mut self, name: &str, at: u64, buf: &mut [u8]) -> Result<usize, ShelfFault> {
        self.longest = self.longest.max(buf.len());
        match read_named(
            self.alloc,
            &self.files,
            &mut self.asked,
            &mut self.last,
            name,
            at,
            buf,
        ) {
            Ok(n) => {
                self.given = self.given.saturating_add(n as u64);
                self.latest = n;
                self.failed = None;
                Ok(n)
            }
            Err(error) => {
                self.latest = 0;
                self.failed = failed_under(&self.asked, name, error);
                self.faults = self.faults.saturating_add(1);
                Err(ShelfFault)
            }
        }
    }
}
