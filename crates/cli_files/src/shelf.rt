//! A shelf of files.
ghost use Rattle.std.specs.Prelude.{◌≡◌, ◌≤◌, length, max, IfOk};
ghost use Rattle.cli_files.specs.Outside.{AsksFor, IsLastName, IsGiven, ReadIfTold, ShelfCause, ShelfSeen, given_by};

/// A read gave nothing: the file cannot be read now, or there is no file of this name.
#[derive(Clone, Copy, Debug, PartialEq, Eq)]
pub struct ShelfFault;

/// Files that are read by name, in pieces (this profile).
pub trait Shelf {
    /// The contents by name, and the names that the shelf was asked for, neither of which it need tell; how many bytes
    /// its last read gave; how many one read asked for at most; and up to the last value of 64 bits how many bytes the
    /// shelf gave, and how many reads failed.
    ghost seen: { Self → ShelfSeen };

    /// Reads bytes of the file of this name from place `at` (in bytes, from 0) on into the first bytes of `buf`, and
    /// answers how many. If `buf` is not empty, 0 means the end of the file. Returns `ShelfFault` only if the count of
    /// faults rose, or stands at its last value, or the contents are told and lack the name.
    fn read(&mut self, name: &str, at: u64, buf: &mut [u8]) -> Result<usize, ShelfFault>
        ensures same { (seen self.new).contents ≡ (seen self.old).contents }
        ensures file_names { AsksFor name.now (seen self.old).asked (seen self.new).asked }
        ensures told { IfOk result (λ n. IsLastName name.now (seen self.new).asked) }
        ensures bound { IfOk result (λ n. n ≤ length buf.new) }
        ensures bytes { ReadIfTold (seen self.old).contents name.now at result buf.new }
        ensures counted { IsGiven (seen self.old).given (seen self.new).given result }
        ensures latest { (seen self.new).latest ≡ given_by result }
        ensures asked { (seen self.new).longest ≡ max (seen self.old).longest (length buf.new) }
        ensures cause { ShelfCause (seen self.old).faults (seen self.new).faults (seen self.old).contents name.now
            result };
}
