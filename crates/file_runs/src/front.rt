//! The first bytes of a file.
ghost use Rattle.std.specs.Prelude.{◌≡◌, ◌≤◌, ◌<◌, ◌+◌, ◌^◌, length, IfOk, OnErr};
ghost use Rattle.cli_files.specs.Outside.{AsksFor, capped_count};
ghost use Rattle.file_runs.specs.Front.{AskedPieces, FrontIfTold, Gave, GaveRestIfTold, GaveIfTold, IsReadIfTold};
ghost use Rattle.file_runs.specs.Front.{ReadCause, ReadsOn};

use crate::Fault;
use cli_files::Shelf;
use std::alloc::Global;

/// How much of a file is read at once, in bytes (this profile).
pub(crate) const PIECE: usize = 4096;

// Reads on after what was read, at most a piece, and answers how many bytes; none at the end of the file.
fn read_on<S: Shelf>(
    shelf: &mut S,
    name: &str,
    bytes: &mut Vec<u8>,
    piece: &mut [u8],
) -> Result<usize, Fault>
    requires room { 0 < length piece.old }
    requires piece { length piece.old ≤ 4096 }
    ensures same { (S.seen shelf.new).contents ≡ (S.seen shelf.old).contents }
    ensures kept { OnErr result (bytes.new.items ≡ bytes.old.items) }
    ensures bound { IfOk result (λ n. n ≤ length piece.old) }
    ensures more { IfOk result (λ n. length bytes.new.items ≡ length bytes.old.items + n) }
    ensures bytes { IsReadIfTold (S.seen shelf.old).contents name.now bytes.old.items
        → ReadsOn (S.seen shelf.old).contents name.now bytes.new.items result }
    ensures given { IfOk result (λ n. (S.seen shelf.new).given ≡ capped_count (S.seen shelf.old).given n) }
    ensures read_limit { (S.seen shelf.new).given ≤ (S.seen shelf.old).given + length piece.old }
    ensures file_names { AsksFor name.now (S.seen shelf.old).asked (S.seen shelf.new).asked }
    ensures read_pieces { AskedPieces (S.seen shelf.old).longest (S.seen shelf.new).longest }
    ensures within { IsReadIfTold (S.seen shelf.old).contents name.now bytes.old.items → GaveRestIfTold
        (S.seen shelf.old).contents name.now (length bytes.old.items) (S.seen shelf.old).given
        (S.seen shelf.new).given }
    ensures cause { ReadCause (S.seen shelf.old).faults (S.seen shelf.new).faults (S.seen shelf.old).contents name.now
        result }
{
    match shelf.read(name, bytes.len() as u64, piece) {
        Err(_) => Err(Fault::Read),
        Ok(n) => match bytes.extend_from_slice(&piece[..n]) {
            Ok(()) => Ok(n),
            Err(_) => Err(Fault::Memory),
        },
    }
}

/// Reads the first bytes of a file, at most `most` of them, and all if it has no more. No byte after them is asked for.
/// Returns a `Fault` if a read failed or there was no memory.
pub fn read_front<S: Shelf>(
    alloc: Global,
    shelf: &mut S,
    name: &str,
    most: usize,
) -> Result<Vec<u8>, Fault>
    requires some { 0 < most }
    requires size { most < 2 ^ 32 }
    ensures same { (S.seen shelf.new).contents ≡ (S.seen shelf.old).contents }
    ensures bytes { IfOk result (λ v. FrontIfTold (S.seen shelf.old).contents name.now most v.items) }
    ensures length { IfOk result (λ v. length v.items ≤ most) }
    ensures given { IfOk result (λ v. Gave (S.seen shelf.old).given (length v.items) (S.seen shelf.new).given) }
    ensures read_limit { (S.seen shelf.new).given ≤ (S.seen shelf.old).given + most }
    ensures file_names { AsksFor name.now (S.seen shelf.old).asked (S.seen shelf.new).asked }
    ensures read_pieces { AskedPieces (S.seen shelf.old).longest (S.seen shelf.new).longest }
    ensures within { GaveIfTold (S.seen shelf.old).contents name.now (S.seen shelf.old).given (S.seen shelf.new).given }
    ensures cause { ReadCause (S.seen shelf.old).faults (S.seen shelf.new).faults (S.seen shelf.old).contents name.now
        result }
{
    let mut buf = [0u8; PIECE];
    let mut bytes = Vec::new(alloc);
    while bytes.len() < most {
        let room = (most - bytes.len()).min(PIECE);
        let n = read_on(shelf, name, &mut bytes, &mut buf[..room])?;
        if n == 0 {
            return Ok(bytes);
        }
    }
    Ok(bytes)
}
