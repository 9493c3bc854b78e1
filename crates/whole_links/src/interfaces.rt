//! Events on interfaces.

ghost use Rattle.std.specs.Prelude.{◌≡◌, ◌<◌, ◌^◌, ◌&&◌, not, IfOk, IfSome, length};
ghost use Rattle.script_events.specs.Interfaces.{IsAllowedInterface};
ghost use Rattle.spec_interfaces.specs.Exchanges.{changes_device};
ghost use Rattle.guarded_memory.specs.Happenings.{InterfaceReset};
ghost use Rattle.all_links.specs.Accesses.{runs_in, same_reads, same_floors, nothing_happens};
ghost use Rattle.all_links.specs.Accesses.{AccessesTurn, same_carried};
ghost use Rattle.all_links.specs.BesideAfter.{BesideInterface};
ghost use Rattle.all_links.specs.Interfaces.{interface_named};

use crate::verdicts::{changes_device, reaches};
use crate::whole::WholeLinks;
use event_verdicts::Verdict;
use ide_types::OutOfMemory;
use interface_host::InterfaceOperation;
use script_events::{Event, InterfaceEvent, Loss};
use std::alloc::Global;

impl WholeLinks {
    ghost use Rattle.ide_types.specs.declared.plan.Plan.{Plan as PlanView};
    ghost use Rattle.whole_links.specs.Whole.{IsBoundedWhole, WholeEnds, WholeEndsOrHasNone, WholeEndsOrHasNoneOrStays};
    ghost use Rattle.whole_links.specs.Accesses.{floors_if, halted_in, happens_at, AccessesInterface};

    // Of an interface, which is found at this place, that was not in RUN, and is now: its device takes trusted writes
    // to it from the draw on under which it now opens posted requests of its stream.
    fn note_start(&mut self, interface: u64, at: Option<(u8, usize)>, ran: bool)
        requires bounded { IsBoundedWhole self.old }
        requires here { at ≡ interface_named self.old.links.keeper.interfaces self.old.links.ends.links interface }
        ensures links { self.new.links ≡ self.old.links }
        ensures accesses { AccessesTurn same_reads (floors_if (not ran && runs_in self.old.links interface)
            self.old.links interface) nothing_happens same_carried self.old.accesses self.new.accesses }
    {
        if ran || !self.links.runs(at) {
            return;
        }
        match at {
            None => {}
            Some((link, place)) => {
                let draw = self.links.device_draw(link, interface);
                self.accesses.at_mut(link).floors.start(place, draw);
            }
        }
    }

    fn start(&mut self, alloc: Global, interface: u64, loss: Option<Loss>) -> Option<Verdict>
        requires steps { self.old.links.steps < 2 ^ 28 }
        requires bounded { IsBoundedWhole self.old }
        ensures ends { (plan : PlanView) → WholeEndsOrHasNone plan result self.old self.new
            (Event.Interface (InterfaceEvent.Start interface loss)) }
        ensures sides { IfSome result (λ v. BesideInterface (InterfaceEvent.Start interface loss) self.old.links
            self.new.links) }
        ensures accesses { IfSome result (λ v. AccessesInterface (InterfaceEvent.Start interface loss)
            v self.old self.new) }
    {
        let at = self.links.interface(interface);
        let ran = self.links.runs(at);
        let verdict = self
            .links
            .operate_interface(alloc, InterfaceOperation::Start, interface, at, loss)?;
        self.note_start(interface, at, ran);
        Some(verdict)
    }

    // Of an interface, which is found at this place, that was asked to halt with this verdict: its ranges that are not
    // open are 0 once it took the request.
    fn note_halt(&mut self, interface: u64, at: Option<(u8, usize)>, verdict: &Verdict)
        requires bounded { IsBoundedWhole self.old }
        requires here { at ≡ interface_named self.old.links.keeper.interfaces self.old.links.ends.links interface }
        ensures links { self.new.links ≡ self.old.links }
        ensures accesses { AccessesTurn same_reads same_floors (halted_in self.old.links interface verdict.now)
            same_carried self.old.accesses self.new.accesses }
    {
        if !reaches(verdict) {
            return;
        }
        match at {
            None => {}
            Some((link, place)) => {
                let bars = self.links.ends.bars(link, place);
                self.accesses
                    .at_mut(link)
                    .guarded
                    .stop_interface(place, bars);
            }
        }
    }

    fn halt(&mut self, alloc: Global, interface: u64, loss: Option<Loss>) -> Option<Verdict>
        requires steps { self.old.links.steps < 2 ^ 28 }
        requires bounded { IsBoundedWhole self.old }
        ensures ends { (plan : PlanView) → WholeEndsOrHasNone plan result self.old self.new
            (Event.Interface (InterfaceEvent.Halt interface loss)) }
        ensures sides { IfSome result (λ v. BesideInterface (InterfaceEvent.Halt interface loss) self.old.links
            self.new.links) }
        ensures accesses { IfSome result (λ v. AccessesInterface (InterfaceEvent.Halt interface loss)
            v self.old self.new) }
    {
        let at = self.links.interface(interface);
        let verdict = self
            .links
            .operate_interface(alloc, InterfaceOperation::Halt, interface, at, loss)?;
        self.note_halt(interface, at, &verdict);
        Some(verdict)
    }

    // Of an interface at this place whose level reset has this verdict: all its ranges are 0.
    fn note_flr(&mut self, at: Option<(u8, usize)>, verdict: &Verdict)
        requires { IfSome at (λ p. p.0 < length self.old.accesses) }
        ensures links { self.new.links ≡ self.old.links }
        ensures accesses { AccessesTurn same_reads same_floors
            (happens_at (changes_device verdict.now) at InterfaceReset)
            same_carried self.old.accesses self.new.accesses }
    {
        if !changes_device(verdict) {
            return;
        }
        match at {
            None => {}
            Some((link, place)) => self.accesses.at_mut(link).guarded.reset(place),
        }
    }

    fn flr(&mut self, interface: u64) -> Verdict
        requires steps { self.old.links.steps < 2 ^ 28 }
        requires bounded { IsBoundedWhole self.old }
        ensures ends { (plan : PlanView) → WholeEnds plan result self.old self.new
            (Event.Interface (InterfaceEvent.Flr interface)) }
        ensures sides { BesideInterface (InterfaceEvent.Flr interface) self.old.links self.new.links }
        ensures accesses { AccessesInterface (InterfaceEvent.Flr interface) result self.old self.new }
    {
        let at = self.links.interface(interface);
        let verdict = self.links.flr(interface, at);
        self.note_flr(at, &verdict);
        verdict
    }

    #[inline(never)]
    pub(crate) fn ask(
        &mut self,
        alloc: Global,
        event: &InterfaceEvent,
    ) -> Result<Option<Verdict>, OutOfMemory>
        requires steps { self.old.links.steps < 2 ^ 28 }
        requires bounded { IsBoundedWhole self.old }
        requires allowed { IsAllowedInterface event.now }
        ensures ends { (plan : PlanView) → WholeEndsOrHasNoneOrStays plan result self.old self.new
            (Event.Interface event.now) }
        ensures sides { IfOk result (λ o. IfSome o (λ v. BesideInterface event.now self.old.links self.new.links)) }
        ensures accesses { IfOk result (λ o. IfSome o (λ v. AccessesInterface event.now v self.old self.new)) }
    {
        match event {
            InterfaceEvent::Lock { interface, lose } => {
                Ok(self.links.lock(alloc, *interface, *lose))
            }
            InterfaceEvent::Report { interface, lose } => {
                self.links.report(alloc, *interface, *lose)
            }
            InterfaceEvent::Start { interface, lose } => Ok(self.start(alloc, *interface, *lose)),
            InterfaceEvent::Halt { interface, lose } => Ok(self.halt(alloc, *interface, *lose)),
            InterfaceEvent::State { interface, lose } => {
                Ok(self.links.state(alloc, *interface, *lose))
            }
            InterfaceEvent::Bind {
                interface,
                line,
                stream,
                lose,
            } => Ok(self.links.bind(alloc, *interface, *line, *stream, *lose)),
            InterfaceEvent::Unbind {
                interface,
                line,
                stream,
                lose,
            } => Ok(self.links.unbind(alloc, *interface, *line, *stream, *lose)),
            InterfaceEvent::View { interface } => Ok(Some(self.links.view(*interface))),
            InterfaceEvent::Write {
                interface,
                register,
                value,
            } => Ok(Some(self.links.write(*interface, *register, *value))),
            InterfaceEvent::Flr { interface } => Ok(Some(self.flr(*interface))),
            InterfaceEvent::Firmware { interface } => Ok(Some(self.links.firmware(*interface))),
            InterfaceEvent::Memory { address, length } => {
                Ok(Some(self.links.memory(alloc, *address, *length)?))
            }
        }
    }
}
