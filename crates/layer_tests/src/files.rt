//! Files of the system, and a writer, which no clause tells of.

use cli_files::{FileShelf, OutSink, Shelf, ShelfFault, Sink, SinkFault};
use std::test::Fail;
use std::{fs, io};

// The file that was read last can still be read after its name is gone, and no other.
#[test]
fn files_of_the_system(rt: HostRuntime) -> Result<(), Fail> {
    let mut buf = [0u8; 4];
    fs::write(&rt, "digits", b"0123456789".as_slice())?;
    fs::write(&rt, "letters", b"abc".as_slice())?;
    let mut shelf = FileShelf::new(rt.alloc(), &rt);
    assert_eq!(rt; shelf.read("digits", 8, &mut buf), Ok(2));
    assert_eq!(rt; buf, [b'8', b'9', 0, 0]);
    fs::remove_file(&rt, "digits")?;
    assert_eq!(rt; shelf.read("digits", 0, &mut buf), Ok(4), "it stays open");
    assert_eq!(rt; buf, *b"0123");
    assert_eq!(rt; shelf.read("digits", 10, &mut buf), Ok(0));
    assert_eq!(rt; shelf.read("letters", 0, &mut buf), Ok(3));
    assert!(rt; shelf.failure().is_none());
    assert_eq!(rt;
        shelf.read("digits", 0, &mut buf),
        Err(ShelfFault),
        "it was closed"
    );
    assert_eq!(rt; shelf.last_name(), Some("digits"));
    let kind = shelf.failure().map(|error| error.kind());
    assert_eq!(rt; kind, Some(io::ErrorKind::NotFound));
    assert_eq!(rt; shelf.read("letters", 1, &mut buf), Ok(2));
    assert_eq!(rt; shelf.last_name(), Some("letters"));
    assert!(rt; shelf.failure().is_none());
    Ok(())
}

// A writer that takes at most two bytes at a time, and none at its third call.
#[derive(Drop)]
struct Narrow<'a> {
    taken: &'a mut Vec<u8>,
    flushed: &'a mut u32,
    calls: u32,
}

impl io::Write for Narrow<'_> {
    fn write(&mut self, buf: &[u8]) -> io::Result<usize> {
        self.calls = self.calls.saturating_add(1);
        if self.calls == 3 {
            return Ok(0);
        }
        let n = buf.len().min(2);
        self.taken.extend_from_slice(&buf[..n])?;
        Ok(n)
    }

    fn flush(&mut self) -> io::Result<()> {
        *self.flushed = self.flushed.saturating_add(1);
        Ok(())
    }
}

#[test]
fn writer_as_sink(rt: HostRuntime) -> Result<(), Fail> {
    let mut taken = Vec::new(rt.alloc());
    let mut flushed = 0;
    {
        let mut sink = OutSink::new(Narrow {
            taken: &mut taken,
            flushed: &mut flushed,
            calls: 0,
        });
        assert_eq!(rt; sink.put(b"abc"), Ok(2));
        assert_eq!(rt; sink.put(b"c"), Ok(1));
        assert_eq!(rt;
            sink.put(b"d"),
            Err(SinkFault::Failed),
            "the writer took nothing"
        );
        assert_eq!(rt; sink.put(b"e"), Ok(1));
    }
    assert_eq!(rt; taken.as_slice(), b"abce".as_slice());
    assert_eq!(rt; flushed, 4);
    Ok(())
}
