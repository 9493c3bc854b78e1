//! A topology that is read and checked, or migrated (this profile).

ghost use Rattle.std.specs.Prelude.{◌≡◌, ◌≢◌, ◌+◌, ◌<◌, ◌≤◌, IfOk, IfErr, length};
ghost use Rattle.cli_files.specs.Outside.{AsksFor};
ghost use Rattle.file_runs.specs.FileRuns.{FileRun};
ghost use Rattle.file_runs.specs.Front.{AskedPieces, Gave, GaveAtMost, GaveIfTold, ReadCause};
ghost use Rattle.file_runs.specs.Outcome.{Ran};
ghost use Rattle.script_runs.specs.Loading.{GaveAllOf, Loads, topology_limit};
ghost use Rattle.script_runs.specs.Migrating.{WritesMigrated};
ghost use Rattle.script_runs.specs.Tasks.{check_task, migrate_task};
ghost use Rattle.script_runs.specs.Topologies.{loaded_topology, plan_refusal as refusal_of};
ghost use Rattle.script_runs.specs.Topologies.{report as report_of, HasFitting};

use cli_files::{Shelf, Sink};
use file_runs::{End, Fault, finish, read_front};
use ide_types::{OutOfMemory, Plan};
use std::alloc::Global;
use topology::{PlanError, PlanFault};

/// How many bytes of a topology count.
const TOPOLOGY_LIMIT: usize = 1_048_576;

/// What a topology's bytes give: its plan, its first fault, or too many of them.
#[derive(Drop)]
pub enum Loaded {
    /// The plan that they mean.
    Sound(Plan),
    /// Their first fault.
    Faulty(PlanFault),
    /// There are too many of them.
    Long,
}

/// What the first bytes of a topology give; one byte more than those that count was read.
pub fn load_bytes(alloc: Global, front: &[u8]) -> Result<Loaded, Fault>
    ensures loaded { IfOk result (λ l. l ≡ loaded_topology front.now) }
    ensures memory { IfErr result (λ e. e ≡ Fault.Memory) }
    ensures fits { IfOk result HasFitting }
    ensures long { IfOk result (λ l. l ≡ Loaded.Long → topology_limit < length front.now) }
    ensures few { IfOk result (λ l. l ≢ Loaded.Long → length front.now ≤ topology_limit) }
{
    if front.len() > TOPOLOGY_LIMIT {
        return Ok(Loaded::Long);
    }
    match topology::read(alloc, front) {
        Ok(plan) => Ok(Loaded::Sound(plan)),
        Err(PlanError::Fault(fault)) => Ok(Loaded::Faulty(fault)),
        Err(PlanError::Memory) => Err(Fault::Memory),
    }
}

/// Reads a topology.
pub fn load<S: Shelf>(alloc: Global, shelf: &mut S, name: &str) -> Result<Loaded, Fault>
    ensures same { (S.seen shelf.new).contents ≡ (S.seen shelf.old).contents }
    ensures loads { Loads loaded_topology (S.seen shelf.old).contents name.now result }
    ensures cause { ReadCause (S.seen shelf.old).faults (S.seen shelf.new).faults (S.seen shelf.old).contents name.now
        result }
    ensures fits { IfOk result HasFitting }
    ensures within { GaveIfTold (S.seen shelf.old).contents name.now (S.seen shelf.old).given (S.seen shelf.new).given }
    ensures all { IfOk result (λ l. l ≢ Loaded.Long → GaveAllOf (S.seen shelf.old).contents name.now
        (S.seen shelf.old).given (S.seen shelf.new).given) }
    ensures file_names { AsksFor name.now (S.seen shelf.old).asked (S.seen shelf.new).asked }
    ensures read_limit { (S.seen shelf.new).given ≤ (S.seen shelf.old).given + (topology_limit + 1) }
    ensures read_pieces { AskedPieces (S.seen shelf.old).longest (S.seen shelf.new).longest }
    ensures long { IfOk result (λ l. l ≡ Loaded.Long → Gave (S.seen shelf.old).given (topology_limit + 1)
        (S.seen shelf.new).given) }
    ensures few { IfOk result (λ l. l ≢ Loaded.Long → GaveAtMost (S.seen shelf.old).given topology_limit
        (S.seen shelf.new).given) }
{
    match read_front(alloc, shelf, name, TOPOLOGY_LIMIT + 1) {
        Err(e) => Err(e),
        Ok(front) => load_bytes(alloc, &front),
    }
}

/// The line of a topology's first fault, with its line feed.
pub fn refusal(alloc: Global, fault: &PlanFault) -> Result<Vec<u8>, OutOfMemory>
    ensures { IfOk result (λ line. line.items ≡ refusal_of fault.now) }
{
    let mut line = topology::fault_line(alloc, fault)?.into_vec();
    line.push(b'\n')?;
    Ok(line)
}

/// Writes the first fault of a topology.
pub fn refuse<O: Sink>(alloc: Global, fault: &PlanFault, out: &mut O) -> Result<End, Fault>
    ensures end { IfOk result (λ e. e ≡ End.Topology) }
    ensures ran { Ran (End.Topology, refusal_of fault.now) (O.seen out.old) (O.seen out.new) result }
{
    match refusal(alloc, fault) {
        Ok(line) => finish(out, End::Topology, &line),
        Err(_) => Err(Fault::Memory),
    }
}

// Writes what a topology gives.
fn report<O: Sink>(alloc: Global, loaded: &Loaded, out: &mut O) -> Result<End, Fault>
    ensures { Ran (report_of loaded.now) (O.seen out.old) (O.seen out.new) result }
{
    match loaded {
        Loaded::Sound(_) => finish(out, End::Done, b"ok\n"),
        Loaded::Faulty(fault) => refuse(alloc, fault, out),
        Loaded::Long => Ok(End::TooLong),
    }
}

/// `check TOPOLOGY`: whether a topology is a plan, or its first fault.
#[inline(never)]
pub fn check_topology<S: Shelf, O: Sink>(
    alloc: Global,
    topology: &str,
    shelf: &mut S,
    out: &mut O,
) -> Result<End, Fault>
    ensures { FileRun (check_task topology.now) (S.seen shelf.old) (S.seen shelf.new) (O.seen out.old)
        (O.seen out.new) result }
{
    match load(alloc, shelf, topology) {
        Ok(loaded) => report(alloc, &loaded, out),
        Err(e) => Err(e),
    }
}

// Writes the first bytes of a topology in version 2; one byte more than those that count was read.
fn write_migrated<O: Sink>(alloc: Global, front: &[u8], out: &mut O) -> Result<End, Fault>
    ensures { WritesMigrated front.now (O.seen out.old) (O.seen out.new) result }
{
    if front.len() > TOPOLOGY_LIMIT {
        return Ok(End::TooLong);
    }
    match topology::migrate(alloc, front) {
        Ok(text) => finish(out, End::Done, text.as_slice()),
        Err(PlanError::Fault(fault)) => refuse(alloc, &fault, out),
        Err(PlanError::Memory) => Err(Fault::Memory),
    }
}

/// `check TOPOLOGY --migrate`: the text of a topology in version 2, or its first fault.
#[inline(never)]
pub fn migrate_topology<S: Shelf, O: Sink>(
    alloc: Global,
    topology: &str,
    shelf: &mut S,
    out: &mut O,
) -> Result<End, Fault>
    ensures { FileRun (migrate_task topology.now) (S.seen shelf.old) (S.seen shelf.new) (O.seen out.old)
        (O.seen out.new) result }
{
    match read_front(alloc, shelf, topology, TOPOLOGY_LIMIT + 1) {
        Err(e) => Err(e),
        Ok(front) => write_migrated(alloc, &front, out),
    }
}
