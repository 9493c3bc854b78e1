//! A file that is read and run line by line, over a shelf and a sink in memory.
ghost use Rattle.std.specs.Prelude.{◌≡◌, ◌∷◌, [], ◌++◌, codes, IfOk};
ghost use Rattle.file_runs.specs.declared.ends.End.TheVariants as end;
ghost use Rattle.layer_tests.specs.Copies.{copied_line as copied_of, long_copy, whole_copy};

use cli_files::{MemShelf, MemSink, NamedFile};
use file_runs::{End, Fault, LineWork, run_file};
use ide_types::{Bytes, OutOfMemory};
use script_events::{LINE_LIMIT, LineError, LineFault};
use std::alloc::Global;
use std::process::Abort;
use std::test::Fail;

// Writes each line again.
#[derive(Drop)]
struct Copies(Global);

impl LineWork for Copies {
    ghost Past = { Unit {0} };

    ghost follows = { λ s past. Unit {0} };

    ghost fits = { λ s n. Unit {0} };

    ghost advance = { λ past n line. copied_of past n line };

    ghost closing = { λ past. (end.Done, codes "end") };

    ghost may_lack = { ⊥ };

    ghost long_lines = { λ s n line long. long_copy s n line long };

    ghost whole_lines = { λ s n line. whole_copy s n line };

    fn line(&mut self, _number: u64, line: &[u8]) -> Result<Bytes, LineError> {
        if line.len() > LINE_LIMIT {
            return Err(LineError::Fault(LineFault::TooLong));
        }
        copied(self.0, line).map_err(|_| LineError::Memory)
    }

    fn end(&self) -> End {
        End::Done
    }

    fn closing(&self) -> Result<Bytes, OutOfMemory> {
        Bytes::copied(self.0, b"end")
    }
}

fn copied(alloc: Global, line: &[u8]) -> Result<Bytes, OutOfMemory>
    ensures { IfOk result (λ b. b ≡ line.now ++ 10 ∷ []) }
{
    let mut text = Vec::from_slice(alloc, line)?;
    text.push(b'\n')?;
    Ok(Bytes::new(text))
}

// The end of a run over a file of these bytes, if the reads and the puts of these numbers fail.
fn ran(
    alloc: Global,
    bytes: &[u8],
    reads: &[u64],
    puts: &[u64],
) -> Result<(Result<End, Fault>, MemSink), Fail> {
    let name = String::from_str(alloc, "a")?;
    let bytes = bytes.to_vec(alloc)?;
    let files = vec![in alloc; NamedFile { name, bytes }]?;
    let mut shelf = MemShelf::new(files, Vec::from_slice(alloc, reads)?);
    let mut out = MemSink::new(alloc, Vec::from_slice(alloc, puts)?);
    let end = run_file(alloc, &mut Copies(alloc), "a", &mut shelf, &mut out);
    Ok((end, out))
}

// Reads and puts that fail, the end that is due then, and how many bytes are written.
type Row<'a> = (&'a [u64], &'a [u64], Result<End, Fault>, usize);

// What is due to the lines that ended before a fault is written, and put before the next read, which would fail in the
// rows of puts.
fn check(rt: &impl Abort, alloc: Global, bytes: &[u8], rows: &[Row]) -> Result<(), Fail> {
    for &(reads, puts, end, written) in rows {
        let (got, out) = ran(alloc, bytes, reads, puts)?;
        assert_eq!(rt; got, end, "at {written}");
        let due = bytes.get(..written).unwrap_or(&[]);
        if end.is_ok() {
            assert!(rt; out.bytes().starts_with(due), "at {written}");
        } else {
            assert!(rt; out.bytes() == due, "at {written}");
        }
    }
    Ok(())
}

#[test]
fn each_read_fails(rt: HostRuntime) -> Result<(), Fail> {
    let alloc = rt.alloc();
    // Two lines in the first piece, a third in the next two, and a last one that no line feed ends.
    let mut long = Vec::from_slice(alloc, b"a\nb\n")?;
    long.resize(9000, b'c')?;
    long.extend_from_slice(b"\nd")?;
    let rows: [Row; 5] = [
        (&[0], &[], Err(Fault::Read), 0),
        (&[1], &[], Err(Fault::Read), 4),
        (&[2], &[], Err(Fault::Read), 4),
        (&[3], &[], Err(Fault::Read), 9001),
        (&[4], &[], Ok(End::Done), 9002),
    ];
    check(&rt, alloc, long.as_slice(), &rows)
}

#[test]
fn each_put_fails(rt: HostRuntime) -> Result<(), Fail> {
    let alloc = rt.alloc();
    // 4,096 lines in the first piece, one in the second.
    let mut many = vec![in alloc; b'\n'; 4096]?;
    many.extend_from_slice(b"a\n")?;
    let rows: [Row; 4] = [
        (&[1], &[0], Err(Fault::Write), 0),
        (&[2], &[1], Err(Fault::Write), 4096),
        (&[3], &[2], Err(Fault::Write), 4098),
        (&[3], &[3], Ok(End::Done), 4098),
    ];
    check(&rt, alloc, many.as_slice(), &rows)
}

#[test]
fn long_line_ends_reading(rt: HostRuntime) -> Result<(), Fail> {
    let alloc = rt.alloc();
    // A line that is too long by the fifth piece: no further one is read.
    let mut wide = Vec::from_slice(alloc, b"a\n")?;
    wide.resize(40_000, b' ')?;
    let rows: [Row; 2] = [
        (&[4], &[], Err(Fault::Read), 2),
        (&[5], &[], Ok(End::Script), 2),
    ];
    check(&rt, alloc, wide.as_slice(), &rows)
}
