//! Bytes that arrive: those of an event, and those of packets that were sealed (this profile).

ghost use Rattle.std.specs.Prelude.{◌≡◌, ◌<◌, ◌^◌, IfOk, option_map};
ghost use Rattle.std.specs.Cow.{cow_slice_items};
ghost use Rattle.all_links.specs.BesideAfter.{BesideBytes};
ghost use Rattle.whole_links.specs.Packets.{bytes_left, incoming_bytes, incoming_event, packet_event};

use crate::whole::WholeLinks;
use all_links::{Arriving, Packets, land};
use event_verdicts::Verdict;
use ide_types::{OutOfMemory, PortName, ValidPlan};
use line_routes::{has_port, partner};
use script_events::Event;
use std::alloc::Global;
use std::borrow::CowSlice;

/// What becomes of a packet on its way to the other end of its line.
#[derive(Clone, Copy)]
pub enum Passage {
    /// It arrives as it was sealed.
    Whole,
    /// Its byte at `at` is combined with `mask`.
    Altered { at: u64, mask: u8 },
    /// Its first `length` bytes arrive.
    Cut { length: u64 },
}

/// Bytes that arrive, and where.
#[derive(Clone, Copy)]
pub enum Incoming<'a> {
    /// These bytes, at this port.
    Given { port: PortName, bytes: &'a [u8] },
    /// A packet by its number, as its passage leaves it, at the port of the other end of its line.
    Sent { packet: u64, passage: Passage },
}

// The bytes of a packet that arrive; `None` if it ends before the byte that is altered, or before it is cut.
fn bytes_left<'a>(
    alloc: Global,
    bytes: &'a [u8],
    passage: Passage,
) -> Result<Option<CowSlice<'a, u8, Global>>, OutOfMemory>
    ensures { IfOk result (λ o. option_map cow_slice_items o ≡ bytes_left passage bytes.now) }
{
    match passage {
        Passage::Whole => Ok(Some(CowSlice::Borrowed(bytes))),
        Passage::Altered { at, mask } => {
            if at >= bytes.len() as u64 {
                return Ok(None);
            }
            let mut copy = Vec::from_slice(alloc, bytes)?;
            copy[at as usize] ^= mask;
            Ok(Some(CowSlice::Owned(copy)))
        }
        Passage::Cut { length } => {
            if length > bytes.len() as u64 {
                return Ok(None);
            }
            Ok(Some(CowSlice::Borrowed(&bytes[..length as usize])))
        }
    }
}

// The bytes that arrive, with an end at their port; `None` if there is no such port or packet, or if the packet ends
// before the byte that is altered, or before it is cut.
fn incoming_bytes<'a>(
    alloc: Global,
    plan: &ValidPlan,
    packets: &'a Packets,
    incoming: Incoming<'a>,
) -> Result<Option<(PortName, CowSlice<'a, u8, Global>)>, OutOfMemory>
    ensures { IfOk result (λ o. option_map (λ p. record { port = p.0; bytes = cow_slice_items p.1 }) o ≡ incoming_bytes
        plan.now packets.now.packets incoming.entry) }
{
    match incoming {
        Incoming::Given { port, bytes } => {
            if has_port(plan, port) {
                Ok(Some((port, CowSlice::Borrowed(bytes))))
            } else {
                Ok(None)
            }
        }
        Incoming::Sent { packet, passage } => match packets.get(packet) {
            None => Ok(None),
            Some((end, bytes)) => match bytes_left(alloc, bytes, passage)? {
                None => Ok(None),
                Some(bytes) => Ok(Some((partner(end), bytes))),
            },
        },
    }
}

impl WholeLinks {
    ghost use Rattle.whole_links.specs.Accesses.{AccessesArriveInState};
    ghost use Rattle.whole_links.specs.Whole.{IsBoundedWhole, WholeEndsOrStays};

    // Bytes arrive: they meet the end of the line that has their stream. The memory for them, for what they may write,
    // and for a TLP that waits at a switch, is taken first.
    fn land_incoming(
        &mut self,
        alloc: Global,
        plan: &ValidPlan,
        incoming: Incoming,
    ) -> Result<Verdict, OutOfMemory>
        requires steps { self.old.links.steps < 2 ^ 28 }
        requires bounded { IsBoundedWhole self.old }
        ensures ends { WholeEndsOrStays plan.now result self.old self.new (incoming_event incoming.entry) }
        ensures sides { IfOk result (λ v.
            BesideBytes plan.now (incoming_event incoming.entry) v self.old.links self.new.links) }
        ensures accesses { IfOk result (λ v.
            AccessesArriveInState plan.now (incoming_event incoming.entry) v self.old self.new) }
    {
        match incoming_bytes(alloc, plan, &self.links.packets, incoming)? {
            None => Ok(self.links.only(Verdict::Nothing)),
            Some((end, bytes)) => {
                let arriving = Arriving {
                    plan,
                    manager: self.links.keeper.interfaces.manager(),
                    end,
                    bytes: bytes.as_slice(),
                };
                let verdict = land(
                    alloc,
                    &arriving,
                    &mut self.links.ends,
                    &mut self.links.trusted,
                    &mut self.accesses,
                )?;
                self.links.steps += 1;
                Ok(verdict)
            }
        }
    }

    /// Bytes arrive at a port: they meet the end of the line that has their stream. For want of memory nothing changes.
    pub fn arrive(
        &mut self,
        alloc: Global,
        plan: &ValidPlan,
        port: PortName,
        bytes: &[u8],
    ) -> Result<Verdict, OutOfMemory>
        requires steps { self.old.links.steps < 2 ^ 28 }
        requires bounded { IsBoundedWhole self.old }
        ensures ends { WholeEndsOrStays plan.now result self.old self.new (Event.Arrive port bytes.now) }
        ensures sides { IfOk result (λ v.
            BesideBytes plan.now (Event.Arrive port bytes.now) v self.old.links self.new.links) }
        ensures accesses { IfOk result (λ v.
            AccessesArriveInState plan.now (Event.Arrive port bytes.now) v self.old self.new) }
    {
        self.land_incoming(alloc, plan, Incoming::Given { port, bytes })
    }

    /// A packet by its number arrives, as its passage leaves it, at the port of the other end of its line. For want of
    /// memory nothing changes.
    pub fn pass(
        &mut self,
        alloc: Global,
        plan: &ValidPlan,
        packet: u64,
        passage: Passage,
    ) -> Result<Verdict, OutOfMemory>
        requires steps { self.old.links.steps < 2 ^ 28 }
        requires bounded { IsBoundedWhole self.old }
        ensures ends { WholeEndsOrStays plan.now result self.old self.new (packet_event packet passage) }
        ensures sides { IfOk result (λ v.
            BesideBytes plan.now (packet_event packet passage) v self.old.links self.new.links) }
        ensures accesses { IfOk result (λ v.
            AccessesArriveInState plan.now (packet_event packet passage) v self.old self.new) }
    {
        self.land_incoming(alloc, plan, Incoming::Sent { packet, passage })
    }
}
