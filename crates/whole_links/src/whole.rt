//! All links with the accesses that stand at each: the first state, resets, and events as a whole (this profile).

ghost use Rattle.std.specs.Prelude.{◌≡◌, ◌<◌, ◌^◌, IfOk, IfSome};
ghost use Rattle.script_events.specs.Spells.{IsAllowed};
ghost use Rattle.script_events.specs.Accesses.{IsAllowedAccess};
ghost use Rattle.all_links.specs.Events.{operation_event};
ghost use Rattle.all_links.specs.BesideAfter.{BesideStays, BesideOperation, BesideReset, BesideAfter};

use crate::packets::Passage;
use all_links::Links;
use event_verdicts::{Operation, Verdict};
use ide_types::{OutOfMemory, PortName, Side, ValidPlan};
use join_ends::clear_hops;
use link_stores::Accesses;
use script_events::{AccessEvent, Event, Loss};
use std::alloc::Global;

/// All links of a topology, the reads that wait at each port for their answer, the memory of each device's interfaces
/// with the least draws that they take trusted requests under, and the TLPs that wait at the switches of hops
/// (PCI Express Base 6.0 section 6.33 and chapter 11).
#[derive(Drop)]
pub struct WholeLinks {
    pub links: Links,
    pub accesses: Accesses,
}

impl WholeLinks {
    ghost use Rattle.ide_types.specs.declared.plan.Plan.{Plan as PlanView};
    ghost use Rattle.whole_links.specs.Whole.{IsFirstWhole, IsBoundedWhole, WholeEnds, WholeEndsOrHasNone};
    ghost use Rattle.whole_links.specs.Whole.{WholeEndsOrStays, WholeEndsOrHasNoneOrStays};
    ghost use Rattle.whole_links.specs.Accesses.{AccessesAfter};

    /// The links of the plan before the first event, with no read and no TLP that waits, and 0 in all ranges of its
    /// devices.
    /// Returns `OutOfMemory` for want of memory.
    pub fn make(alloc: Global, plan: &ValidPlan) -> Result<WholeLinks, OutOfMemory>
        ensures { IfOk result (λ s. IsFirstWhole plan.now s) }
    {
        let links = Links::make(alloc, plan)?;
        let accesses = Accesses::make(alloc, plan.plan())?;
        Ok(WholeLinks { links, accesses })
    }

    #[inline(never)]
    fn reset(&mut self, link: u64, ends: &[PortName]) -> Verdict
        requires steps { self.old.links.steps < 2 ^ 28 }
        requires bounded { IsBoundedWhole self.old }
        ensures ends { (plan : PlanView) → WholeEnds plan result self.old self.new (Event.Reset link ends.now) }
        ensures sides { BesideReset link self.old.links self.new.links }
        ensures accesses { (plan : PlanView) → AccessesAfter plan (Event.Reset link ends.now) result self.old self.new }
    {
        let verdict = self.links.reset(link, ends);
        if self.links.has_link(link) {
            self.accesses.at_mut(link as u8).reset();
            let count = self.links.ends.count();
            clear_hops(&mut self.accesses, ends, count);
        }
        verdict
    }

    #[inline(never)]
    fn access(
        &mut self,
        alloc: Global,
        plan: &ValidPlan,
        event: &AccessEvent,
    ) -> Result<Verdict, OutOfMemory>
        requires steps { self.old.links.steps < 2 ^ 28 }
        requires bounded { IsBoundedWhole self.old }
        requires allowed { IsAllowedAccess event.now }
        ensures ends { WholeEndsOrStays plan.now result self.old self.new (Event.Access event.now) }
        ensures sides { IfOk result (λ v. BesideStays self.old.links self.new.links) }
        ensures accesses { IfOk result (λ v. AccessesAfter plan.now (Event.Access event.now) v self.old self.new) }
    {
        match event {
            AccessEvent::Answer { link } => self.answer_read(alloc, plan, Side::Host, *link),
            AccessEvent::Respond { link } => self.answer_read(alloc, plan, Side::Device, *link),
            AccessEvent::Mmio {
                interface,
                bar,
                offset,
                length,
            } => self.mmio(alloc, *interface, *bar, *offset, *length),
        }
    }

    fn operate(
        &mut self,
        operation: Operation,
        line: u64,
        stream: u64,
        loss: Option<Loss>,
    ) -> Option<Verdict>
        requires steps { self.old.links.steps < 2 ^ 28 }
        requires bounded { IsBoundedWhole self.old }
        ensures ends { (plan : PlanView) → WholeEndsOrHasNone plan result self.old self.new
            (operation_event operation line stream loss) }
        ensures sides { IfSome result (λ v. BesideOperation operation line stream v self.old.links self.new.links) }
        ensures accesses { self.new.accesses ≡ self.old.accesses }
    {
        self.links.operate(operation, line, stream, loss)
    }

    /// The verdict of an event, and what it makes of the links. For want of memory nothing changes.
    ///
    /// An operation has no verdict if a reply is bad, or if an exchange is lost none of whose messages is lost, and
    /// none is made up for it. `ends` says that this does not come while the links stand for some history, and, on an
    /// interface, while its device answers as the machine does; `World` shows both of every event.
    pub fn answer(
        &mut self,
        alloc: Global,
        plan: &ValidPlan,
        event: &Event,
    ) -> Result<Option<Verdict>, OutOfMemory>
        requires steps { self.old.links.steps < 2 ^ 28 }
        requires bounded { IsBoundedWhole self.old }
        requires allowed { IsAllowed event.now }
        ensures ends { WholeEndsOrHasNoneOrStays plan.now result self.old self.new event.now }
        ensures sides { IfOk result (λ o. IfSome o (λ v.
            BesideAfter plan.now event.now v self.old.links self.new.links)) }
        ensures accesses { IfOk result (λ o. IfSome o (λ v. AccessesAfter plan.now event.now v self.old self.new)) }
    {
        match event {
            Event::Establish { line, stream, lose } => {
                Ok(self.operate(Operation::Establish, *line, *stream, *lose))
            }
            Event::Refresh { line, stream, lose } => {
                Ok(self.operate(Operation::Refresh, *line, *stream, *lose))
            }
            Event::Stop { line, stream, lose } => {
                Ok(self.operate(Operation::Stop, *line, *stream, *lose))
            }
            Event::Interface { event } => self.ask(alloc, event),
            Event::Access { event } => Ok(Some(self.access(alloc, plan, event)?)),
            Event::Reset { link, ends } => Ok(Some(self.reset(*link, ends.as_slice()))),
            Event::Forward { link, direction } => Ok(Some(self.forward(plan, *link, *direction)?)),
            Event::Send {
                port,
                bytes,
                more,
                trusted,
            } => {
                let bytes = bytes.as_slice();
                Ok(Some(self.links.send(plan, *port, bytes, *more, *trusted)?))
            }
            Event::Pass { packet } => { Ok(Some(self.pass(alloc, plan, *packet, Passage::Whole)?)) }
            Event::Alter { packet, at, mask } => {
                let (at, mask) = (*at, *mask);
                let passage = Passage::Altered { at, mask };
                Ok(Some(self.pass(alloc, plan, *packet, passage)?))
            }
            Event::Cut { packet, length } => {
                let passage = Passage::Cut { length: *length };
                Ok(Some(self.pass(alloc, plan, *packet, passage)?))
            }
            Event::Arrive { port, bytes } => {
                let bytes = bytes.as_slice();
                Ok(Some(self.arrive(alloc, plan, *port, bytes)?))
            }
            Event::Dump { packet } => Ok(Some(self.links.dump(alloc, *packet)?)),
            Event::Status { line, stream } => Ok(Some(self.links.status(*line, *stream))),
            Event::Absent => Ok(Some(self.links.only(Verdict::Nothing))),
        }
    }
}
