//! The command `show`: the lines of a packet file.

ghost use Rattle.std.specs.Prelude.{◌≡◌, ◌≢◌};
ghost use Rattle.file_runs.specs.FileRuns.{FileRun};
ghost use Rattle.ide_cli.specs.Meaning.{show_task};
ghost use Rattle.ide_cli.specs.Packets.{long_packet, nothing_due, shown_line, whole_packet};

use cli_files::{Shelf, Sink};
use file_runs::{End, Fault, LineWork, parse_packet, run_file, show};
use ide_types::{Bytes, OutOfMemory};
use script_events::LineError;
use std::alloc::Global;
use std::marker::Model;

/// Nothing is kept from one packet to the next.
#[derive(Drop)]
pub(crate) struct PacketWork {
    alloc: Global,
}

impl Model for PacketWork {
    ghost Value = { Unit {0} };

    ghost view = { λ w. tt };
}

impl PacketWork {
    pub(crate) fn new(alloc: Global) -> PacketWork {
        PacketWork { alloc }
    }
}

impl LineWork for PacketWork {
    ghost Past = { Unit {0} };

    ghost follows = { λ w past. Unit {0} };

    ghost fits = { λ w n. Unit {0} };

    ghost advance = { λ past n line. shown_line past n line };

    ghost closing = { λ past. nothing_due past };

    ghost may_lack = { ⊥ };

    ghost long_lines = { λ past n line long. long_packet past n line long };

    ghost whole_lines = { λ past n line. whole_packet past n line };

    fn line(&mut self, number: u64, line: &[u8]) -> Result<Bytes, LineError> {
        match parse_packet(self.alloc, line) {
            Err(e) => Err(e),
            Ok(None) => Ok(Bytes::new(Vec::new(self.alloc))),
            Ok(Some(bytes)) => match show(self.alloc, number, bytes.as_slice()) {
                Ok(text) => Ok(text),
                Err(_) => Err(LineError::Memory),
            },
        }
    }

    fn end(&self) -> End {
        End::Done
    }

    fn closing(&self) -> Result<Bytes, OutOfMemory> {
        Ok(Bytes::new(Vec::new(self.alloc)))
    }
}

/// `show PACKETS`: a line for each packet or plain TLP of a file.
#[inline(never)]
pub(crate) fn show_packets<S: Shelf, O: Sink>(
    alloc: Global,
    packets: &str,
    shelf: &mut S,
    out: &mut O,
) -> Result<End, Fault>
    ensures { FileRun (show_task packets.now) (S.seen shelf.old) (S.seen shelf.new) (O.seen out.old) (O.seen out.new)
        result }
{
    let mut work = PacketWork::new(alloc);
    run_file(alloc, &mut work, packets, shelf, out)
}
