//! The command `run --packets`: a script that is run, with the bytes of each packet that is sealed.

ghost use Rattle.std.specs.Prelude.{◌≡◌, ◌<◌, ◌+◌, ◌++◌, ◌^◌, IfErr, IfOk, OnOk, option_map, string_bytes};
ghost use Rattle.ide_types.specs.Fits.{FitsPlan};
ghost use Rattle.file_runs.specs.FileRuns.{FileRun};
ghost use Rattle.script_events.specs.Spells.{IsAllowed, IsAllowedInScript};
ghost use Rattle.event_verdicts.specs.Lines.{bytes_word};
ghost use Rattle.spec_keys.specs.History.{History};
ghost use Rattle.world.specs.{WorldStandsFor};
ghost use Rattle.script_runs.specs.LineLaws.{long_packets, whole_packets};
ghost use Rattle.script_runs.specs.Packets.{bytes_numbered, packet_line as line_of_packet, packet_line_if_there};
ghost use Rattle.script_runs.specs.Packets.{packet_lines, packets_due, packets_line, packets_ran, packets_script_ran};
ghost use Rattle.script_runs.specs.Packets.{packets_so_far, sealed_lines};
ghost use Rattle.script_runs.specs.Tasks.{on_plan_task, packets_task};
ghost use Rattle.script_runs.specs.Works.{EventCame, Follows, IsEarly, ScriptPast, closing_due};

use crate::script::{Running, asked};
use crate::topologies::{Loaded, load, refuse};
use cli_files::{Shelf, Sink};
use event_verdicts::{SealedPacket, Verdict, totals_line};
use file_runs::{End, Fault, LineWork, run_file};
use history_events::{event_of, events_are_allowed};
use ide_types::{Bytes, OutOfMemory, Plan};
use script_events::{Event, LineError, ScriptEvent};
use std::alloc::{AllocError, Global};
use std::marker::Model;
use world::World;

// The bytes of the packet of a number; `None` if no such packet was sealed.
fn packet_bytes(world: &World, number: u64) -> Option<&[u8]>
    ensures { (h : History) → WorldStandsFor world.now h → option_map (λ b. b.now) result
        ≡ bytes_numbered world.now.plan h number }
{
    match world.links().links.packets.get(number) {
        None => None,
        Some((_, bytes)) => Some(bytes),
    }
}

// Bytes as a verdict shows them.
fn bytes_text(alloc: Global, bytes: &[u8]) -> Result<String, AllocError>
    ensures { IfOk result (λ s. string_bytes s ≡ bytes_word bytes.now) }
{
    match bytes {
        [] => String::from_str(alloc, "-"),
        bytes => hex::encode(alloc, bytes),
    }
}

// The line of a packet.
fn packet_line(alloc: Global, number: u64, bytes: &[u8]) -> Result<Vec<u8>, OutOfMemory>
    ensures { IfOk result (λ text. text.items ≡ line_of_packet number bytes.now) }
{
    let bytes = bytes_text(alloc, bytes)?;
    let text = format!(in alloc; "{number} bytes {bytes}\n")?;
    Ok(text.into_bytes())
}

// Appends the line of the packet of a number, if such a packet was sealed.
fn push_packet(
    alloc: Global,
    world: &World,
    number: u64,
    text: &mut Vec<u8>,
) -> Result<(), OutOfMemory>
    ensures { (h : History) → WorldStandsFor world.now h → OnOk result (text.new.items ≡ text.old.items
        ++ packet_line_if_there number (bytes_numbered world.now.plan h number)) }
{
    if let Some(bytes) = packet_bytes(world, number) {
        text.extend_from_slice(&packet_line(alloc, number, bytes)?)?;
    }
    Ok(())
}

// Appends the lines of packets of a verdict.
fn push_packets(
    alloc: Global,
    world: &World,
    packets: &[SealedPacket],
    text: &mut Vec<u8>,
) -> Result<(), OutOfMemory>
    ensures { (h : History) → WorldStandsFor world.now h → OnOk result (text.new.items ≡ text.old.items
        ++ packet_lines world.now.plan h packets.now) }
{
    for packet in packets {
        push_packet(alloc, world, packet.number, text)?;
    }
    Ok(())
}

// The lines of the packets that a verdict seals.
fn packets_of(alloc: Global, world: &World, verdict: &Verdict) -> Result<Vec<u8>, OutOfMemory>
    ensures { (h : History) → WorldStandsFor world.now h → IfOk result (λ text. text.items
        ≡ sealed_lines world.now.plan h verdict.now) }
{
    let mut text = Vec::new(alloc);
    if let Verdict::Sealed { packets } = verdict {
        push_packets(alloc, world, packets.as_slice(), &mut text)?;
    }
    Ok(text)
}

// The world that runs, and the memory for its lines.
#[derive(Drop)]
struct PacketsWork {
    alloc: Global,
    running: Running,
}

impl Model for PacketsWork {
    ghost use Rattle.script_runs.specs.Works.{RunningView};

    ghost Value = { RunningView };

    ghost view = { λ w. w.running };
}

impl PacketsWork {
    // The world before the first event.
    fn new(alloc: Global, world: World) -> PacketsWork
        ensures { result ≡ record {
          world = world;
          totals = record {
            sealed = 0;
            accepted = 0;
            failed = 0;
            blocked = 0;
          };
        } }
    {
        PacketsWork {
            alloc,
            running: Running::new(world),
        }
    }

    // The line of an event's verdict, and those of the packets that it seals.
    fn run_event(&mut self, event: &Event, number: u64) -> Result<Bytes, OutOfMemory>
        requires number { number < 2 ^ 26 }
        requires early { IsEarly self.old number }
        requires allowed { IsAllowed event.now }
        ensures came { (past : ScriptPast) → Follows self.old past → IfOk result (EventCame
            (packets_ran past event.now) self.new) }
        ensures early { OnOk result (IsEarly self.new (number + 1)) }
    {
        let verdict = self.running.step(event, number)?;
        let packets = packets_of(self.alloc, self.running.world(), &verdict)?;
        let mut text = self.running.verdict_line(self.alloc, verdict)?;
        text.extend_from_slice(&packets)?;
        Ok(Bytes::new(text))
    }

    // The same of an event of a script.
    fn run_script_event(&mut self, event: ScriptEvent, number: u64) -> Result<Bytes, LineError>
        requires number { number < 2 ^ 26 }
        requires early { IsEarly self.old number }
        requires allowed { IsAllowedInScript event }
        ensures came { (past : ScriptPast) → Follows self.old past → IfOk result (EventCame
            (packets_script_ran past event) self.new) }
        ensures early { OnOk result (IsEarly self.new (number + 1)) }
        ensures memory { IfErr result (λ e. e ≡ LineError.Memory) }
    {
        events_are_allowed();
        let event = event_of(self.running.plan(), event);
        match self.run_event(&event, number) {
            Ok(text) => Ok(text),
            Err(_) => Err(LineError::Memory),
        }
    }
}

impl LineWork for PacketsWork {
    ghost Past = { ScriptPast };

    ghost follows = { λ r past. Follows r past };

    ghost fits = { λ r n. IsEarly r n };

    ghost advance = { λ past n line. packets_line past n line };

    ghost closing = { λ past. closing_due past };

    ghost may_lack = { ⊥ };

    ghost long_lines = { λ past n line long. long_packets past n line long };

    ghost whole_lines = { λ past n line. whole_packets past n line };

    fn line(&mut self, number: u64, line: &[u8]) -> Result<Bytes, LineError> {
        match asked(self.alloc, line) {
            Err(e) => Err(e),
            Ok(None) => Ok(Bytes::new(Vec::new(self.alloc))),
            Ok(Some(event)) => self.run_script_event(event, number),
        }
    }

    fn end(&self) -> End {
        End::Done
    }

    fn closing(&self) -> Result<Bytes, OutOfMemory> {
        let text = totals_line(self.alloc, &self.running.totals())?;
        Ok(Bytes::new(text))
    }
}

// Runs a script on the links of a plan, and shows the packets that are sealed.
fn run_script<S: Shelf, O: Sink>(
    alloc: Global,
    plan: Plan,
    script: &str,
    shelf: &mut S,
    out: &mut O,
) -> Result<End, Fault>
    requires { FitsPlan plan }
    ensures { FileRun (on_plan_task packets_due packets_so_far ⊥ plan script.now) (S.seen shelf.old)
        (S.seen shelf.new) (O.seen out.old) (O.seen out.new) result }
{
    match World::make(alloc, plan) {
        Err(_) => Err(Fault::Memory),
        Ok(world) => {
            let mut work = PacketsWork::new(alloc, world);
            run_file(alloc, &mut work, script, shelf, out)
        }
    }
}

/// `run TOPOLOGY SCRIPT --packets`: the text of `run`, in which after the line of a `sealed` verdict a line with its
/// number and its bytes comes for each packet of it.
#[inline(never)]
pub fn run_packets<S: Shelf, O: Sink>(
    alloc: Global,
    topology: &str,
    script: &str,
    shelf: &mut S,
    out: &mut O,
) -> Result<End, Fault>
    ensures { FileRun (packets_task topology.now script.now) (S.seen shelf.old) (S.seen shelf.new)
        (O.seen out.old) (O.seen out.new) result }
{
    match load(alloc, shelf, topology) {
        Err(e) => Err(e),
        Ok(Loaded::Sound(plan)) => run_script(alloc, plan, script, shelf, out),
        Ok(Loaded::Faulty(fault)) => refuse(alloc, &fault, out),
        Ok(Loaded::Long) => Ok(End::TooLong),
    }
}
