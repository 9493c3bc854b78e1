//! The script and the topology of generated events, as texts.

ghost use Rattle.file_runs.specs.Outcome.{Ran};
ghost use Rattle.ide_cli.specs.Meaning.{script_text_due, topology_text_due};

use cli_files::Sink;
use file_runs::{End, Fault, finish};
use history_events::{script_text, topology_text};
use std::alloc::Global;

/// `generate SEED COUNT --script`: the script of the events of a seed and a number of rounds.
#[inline(never)]
pub(crate) fn generate_script<O: Sink>(
    alloc: Global,
    seed: u32,
    count: u32,
    out: &mut O,
) -> Result<End, Fault>
    ensures { Ran (script_text_due seed count) (O.seen out.old) (O.seen out.new) result }
{
    match script_text(alloc, seed, count) {
        Ok(text) => finish(out, End::Done, &text),
        Err(_) => Err(Fault::Memory),
    }
}

/// `generate SEED COUNT --topology`: the topology that they run on, which is the same for all.
#[inline(never)]
pub(crate) fn generate_topology<O: Sink>(alloc: Global, out: &mut O) -> Result<End, Fault>
    ensures { Ran topology_text_due (O.seen out.old) (O.seen out.new) result }
{
    match topology_text(alloc) {
        Ok(text) => finish(out, End::Done, &text),
        Err(_) => Err(Fault::Memory),
    }
}
