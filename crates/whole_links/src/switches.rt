//! What waits at switches, and is forwarded.

ghost use Rattle.std.specs.Prelude.{◌≡◌, ◌≤◌, ◌<◌, ◌^◌, true, IfOk, length};
ghost use Rattle.all_links.specs.Accesses.{is_sending, carried_on_link};
ghost use Rattle.all_links.specs.BesideAfter.{BesideStays};
ghost use Rattle.spec_links.specs.Hops.{has_hop as has_hop_in};

use crate::verdicts::{empty, is_sealed};
use crate::whole::WholeLinks;
use event_verdicts::Verdict;
use ide_types::{Direction, OutOfMemory, ValidPlan};
use line_routes::{has_hop, leaving_end};
use script_events::Event;
use tlp_layout::OutgoingTlp;

impl WholeLinks {
    ghost use Rattle.whole_links.specs.Whole.{IsBoundedWhole, WholeEndsOrStays};
    ghost use Rattle.whole_links.specs.Accesses.{is_sealed, AccessesForward};

    // Seals the first TLP that waits in a direction at the switch of a link behind it, as it came.
    fn forwarded(
        &mut self,
        plan: &ValidPlan,
        link: u8,
        direction: Direction,
    ) -> Result<Verdict, OutOfMemory>
        requires steps { self.old.links.steps < 2 ^ 28 }
        requires bounded { IsBoundedWhole self.old }
        requires here { link < length self.old.links.ends.links }
        requires hop { has_hop_in plan.now link ≡ true }
        ensures ends { WholeEndsOrStays plan.now result self.old self.new (Event.Forward link direction) }
        ensures sides { IfOk result (λ v. BesideStays self.old.links self.new.links) }
        ensures accesses { self.new.accesses ≡ self.old.accesses }
        ensures kind { IfOk result (λ v. is_sending v ≡ true) }
        ensures waits { IfOk result (λ v. is_sealed v ≡ true
            → 1 ≤ length (carried_on_link self.old.accesses link direction)) }
    {
        match self.accesses.at(link).carried.first(direction) {
            None => Ok(self.links.only(empty(link))),
            Some(tlp) => {
                let end = leaving_end(link, direction);
                let sent = OutgoingTlp::of(tlp.bytes.as_slice());
                self.links.send_at_end(plan, end, &sent, false, tlp.t)
            }
        }
    }

    // Forwards the first TLP that waits in a direction at the switch of a link. Once it is sealed it waits no more.
    pub(crate) fn forward(
        &mut self,
        plan: &ValidPlan,
        link: u64,
        direction: Direction,
    ) -> Result<Verdict, OutOfMemory>
        requires steps { self.old.links.steps < 2 ^ 28 }
        requires bounded { IsBoundedWhole self.old }
        ensures ends { WholeEndsOrStays plan.now result self.old self.new (Event.Forward link direction) }
        ensures sides { IfOk result (λ v. BesideStays self.old.links self.new.links) }
        ensures accesses { IfOk result (λ v. AccessesForward (Event.Forward link direction) v self.old self.new) }
    {
        if !has_hop(plan, link) {
            return Ok(self.links.only(Verdict::Nothing));
        }
        if !self.links.has_link(link) {
            return Ok(self.links.only(Verdict::Nothing));
        }
        let link = link as u8;
        let verdict = self.forwarded(plan, link, direction)?;
        if is_sealed(&verdict) {
            self.accesses.at_mut(link).carried.remove_first(direction);
        }
        Ok(verdict)
    }
}
