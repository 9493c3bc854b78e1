//! `run` over files in memory: in one test each read and each put fails in turn, in the other each moves one byte.
ghost use Rattle.std.specs.Prelude.{None};

use cli_files::{MemShelf, MemSink, NamedFile, OutSink, Shelf, ShelfFault, Sink};
use ide_cli::{End, Fault, run};
use std::alloc::Global;
use std::io;
use std::process::Abort;
use std::test::Fail;

// A link with a stream, and keys for one draw.
const TOPOLOGY: &[u8] = b"version = 1\n\
    pool = [\n\
    '0000000000000000000000000000000000000000000000000000000000000000',\n\
    '0000000000000000000000000000000000000000000000000000000000000001',\n\
    '0000000000000000000000000000000000000000000000000000000000000002',\n\
    '0000000000000000000000000000000000000000000000000000000000000003',\n\
    '0000000000000000000000000000000000000000000000000000000000000004',\n\
    '0000000000000000000000000000000000000000000000000000000000000005',\n\
    ]\n\
    [[link]]\n\
    [[link.stream]]\n\
    id = 5\n\
    kind = 'selective'\n\
    rid = [256, 256]\n\
    ranges = []\n";

// What is due to the script.
const DUE: &[u8] = b"1 established 0 5 draw 0\n\
    2 sealed 1 d0 5 pr draw 0 unit 1 m1 k0 t0 p0\n\
    3 accepted h0 5 pr draw 0 unit 1 blocked:nottrusted\n\
    total sealed 1 accepted 1 failed 0 blocked 1\n";

// The places in the due text at which its lines end.
const SECOND: usize = 70;

const THIRD: usize = 122;

const WHOLE: usize = 167;

// A script of two pieces: two events and a comment in the first, the end of that comment and an event in the second.
fn script(alloc: Global) -> Result<Vec<u8>, Fail> {
    let mut text = Vec::from_slice(
        alloc,
        b"establish 0 5\nsend d0 400000010100000f1000000011223344\n#",
    )?;
    text.resize(5000, b' ')?;
    text.extend_from_slice(b"\npass 1\n")?;
    Ok(text)
}

// The words that run a topology and a script.
fn words(alloc: Global) -> Result<Vec<String>, Fail> {
    let mut words = Vec::new(alloc);
    for word in ["ide", "run", "topology", "script"] {
        words.push(String::from_str(alloc, word)?)?;
    }
    Ok(words)
}

// The end of a run in which the reads and the puts of these numbers fail, and the text that it wrote.
fn ran(alloc: Global, reads: &[u64], puts: &[u64]) -> Result<(Result<End, Fault>, MemSink), Fail> {
    let topology = NamedFile {
        name: String::from_str(alloc, "topology")?,
        bytes: Vec::from_slice(alloc, TOPOLOGY)?,
    };
    let script = NamedFile {
        name: String::from_str(alloc, "script")?,
        bytes: script(alloc)?,
    };
    let files = vec![in alloc; topology, script]?;
    let mut shelf = MemShelf::new(files, Vec::from_slice(alloc, reads)?);
    let mut out = MemSink::new(alloc, Vec::from_slice(alloc, puts)?);
    let end = run(alloc, &words(alloc)?, &mut shelf, &mut out);
    Ok((end, out))
}

// Reads and puts that fail, the end that is due then, and how many bytes of the due text are written.
type Row<'a> = (&'a [u64], &'a [u64], Result<End, Fault>, usize);

#[test]
fn each_read_and_each_put_fails(rt: HostRuntime) -> Result<(), Fail> {
    // The topology is a piece and its end, the script two pieces and its end. What is due to the lines of a piece is
    // put before the next read; the totals come last.
    let rows: [Row; 10] = [
        (&[0], &[], Err(Fault::Read), 0),
        (&[1], &[], Err(Fault::Read), 0),
        (&[2], &[], Err(Fault::Read), 0),
        (&[3], &[], Err(Fault::Read), SECOND),
        (&[4], &[], Err(Fault::Read), THIRD),
        (&[5], &[], Ok(End::Done), WHOLE),
        (&[3], &[0], Err(Fault::Write), 0),
        (&[4], &[1], Err(Fault::Write), SECOND),
        (&[5], &[2], Err(Fault::Write), THIRD),
        (&[5], &[3], Ok(End::Done), WHOLE),
    ];
    for (reads, puts, end, written) in rows {
        let (got, out) = ran(rt.alloc(), reads, puts)?;
        assert_eq!(rt; got, end, "at {written}");
        let due = DUE.get(..written).unwrap_or(&[]);
        assert_eq!(rt; out.bytes(), due, "at {written}");
    }
    Ok(())
}

// Two files, of which a read gives one byte at most.
#[derive(Drop)]
struct OneByteShelf {
    script: Vec<u8>,
    given: u64,
    latest: usize,
    longest: usize,
}

impl Shelf for OneByteShelf {
    ghost seen = { λ s. record {
      contents = None;
      asked = None;
      given = s.given;
      latest = s.latest;
      longest = s.longest;
      faults = 0;
    } };

    fn read(&mut self, name: &str, at: u64, buf: &mut [u8]) -> Result<usize, ShelfFault> {
        self.longest = self.longest.max(buf.len());
        let file = match name {
            "topology" => TOPOLOGY,
            _ => self.script.as_slice(),
        };
        let mut n = 0;
        if !buf.is_empty() && at < file.len() as u64 {
            buf[0] = file[at as usize];
            n = 1;
        }
        self.given = self.given.saturating_add(n as u64);
        self.latest = n;
        Ok(n)
    }
}

// A writer that takes one byte at a time.
#[derive(Drop)]
struct OneByteWriter<'a> {
    taken: &'a mut Vec<u8>,
}

impl io::Write for OneByteWriter<'_> {
    fn write(&mut self, buf: &[u8]) -> io::Result<usize> {
        let n = buf.len().min(1);
        self.taken.extend_from_slice(&buf[..n])?;
        Ok(n)
    }

    fn flush(&mut self) -> io::Result<()> {
        Ok(())
    }
}

#[test]
fn one_byte_at_a_time(rt: HostRuntime) -> Result<(), Fail> {
    let alloc = rt.alloc();
    let mut taken = Vec::new(alloc);
    let end = {
        let mut shelf = OneByteShelf {
            script: script(alloc)?,
            given: 0,
            latest: 0,
            longest: 0,
        };
        let mut out = OutSink::new(OneByteWriter { taken: &mut taken });
        run(alloc, &words(alloc)?, &mut shelf, &mut out)
    };
    assert_eq!(rt; end, Ok(End::Done));
    assert_eq!(rt; taken.as_slice(), DUE);
    Ok(())
}
