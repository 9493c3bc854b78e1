//! The world of a run.

ghost use Rattle.std.specs.Prelude.{◌≡◌, ◌<◌, ◌+◌, ◌^◌, IfOk, OnErr};
ghost use Rattle.ide_types.specs.Fits.{FitsPlan};
ghost use Rattle.script_events.specs.Spells.{IsAllowed};

use event_verdicts::Verdict;
use ide_types::{OutOfMemory, Plan, ValidPlan};
use join_accesses::WholeLinks;
use join_interfaces::interface_operations_join;
use machine_operations::points_stand;
use machine_whole::{whole_begins, whole_steps};
use script_events::Event;
use std::alloc::Global;
use std::marker::Model;

/// All links of a topology with their devices' interfaces, their hops and the streams between devices: the keys, the
/// packets that were sealed, what waits, what the managers know, and trusted memory (PCI Express Base 6.0 section 6.33
/// and chapter 11, in this profile).
pub struct World {
    alloc: Global,
    plan: ValidPlan,
    links: WholeLinks,
}

// All that a world owns is let go here, once, so that no crate above proves again how its parts are.
impl Drop for World {
    fn drop(self) {
        let World {
            alloc: _,
            plan,
            links,
        } = self;
    }
}

impl Model for World {
    ghost use Rattle.join_accesses.specs.{WorldView, world_of, IsWorld};

    ghost Value = { WorldView };

    ghost view = { λ w. world_of w.plan w.links };

    ghost invariant = { λ w. IsWorld w.plan w.links };
}

impl World {
    ghost use Rattle.join_accesses.specs.{IsAsBefore, IsNewWorld, IsStep};

    /// The world before the first event: no stream of the plan has keys, no interface is locked, and trusted memory is
    /// 0.
    pub fn make(alloc: Global, plan: Plan) -> Result<World, OutOfMemory>
        requires { FitsPlan plan }
        ensures { IfOk result (λ w. IsNewWorld plan w) }
    {
        let plan = ValidPlan::new(plan);
        let links = WholeLinks::make(alloc, &plan)?;
        whole_begins();
        Ok(World { alloc, plan, links })
    }

    /// The topology, which meets every bound and rule.
    pub fn plan(&self) -> &ValidPlan
        ensures plan { result.now ≡ self.now.plan }
        ensures fits { FitsPlan self.now.plan }
    {
        &self.plan
    }

    /// How many events got a verdict.
    pub fn calls(&self) -> u64
        ensures { result ≡ self.now.steps }
    {
        self.links.links.steps
    }

    /// The verdict of an event that a script's line spells: the one that is due after the events before it. For want of
    /// memory nothing changes, but pages and room at switches that were taken ahead may stay. Fewer than 2^28 events
    /// came before.
    pub fn step(&mut self, event: &Event) -> Result<Verdict, OutOfMemory>
        requires few { self.old.steps < 2 ^ 28 }
        requires allowed { IsAllowed event.now }
        ensures step { IfOk result (λ v. IsStep self.old event.now v self.new) }
        ensures memory { OnErr result (IsAsBefore self.old self.new) }
    {
        whole_steps();
        points_stand();
        interface_operations_join();
        let verdict = self.links.answer(self.alloc, &self.plan, event)?;
        Ok(verdict.unwrap())
    }
}

// ---- what is seen of it

impl World {
    ghost use Rattle.join_accesses.specs.{IsWorld, world_of};

    /// What is kept of all links and the managers, lent.
    pub fn links(&self) -> &WholeLinks
        ensures kept { self.now ≡ world_of self.now.plan result.now }
        ensures world { IsWorld self.now.plan result.now }
    {
        &self.links
    }
}
