//! All links: what they keep, the first state, and resets.

ghost use Rattle.std.specs.Prelude.{◌≡◌, ◌+◌, ◌<◌, ◌^◌, IfOk, length, nat_lt, if◌then◌else◌};

use event_verdicts::Verdict;
use ide_port::SendBuffer;
use ide_types::{OutOfMemory, PortName, ValidPlan};
use line_arrivals::{AllEnds, HostKeeper, Packets};
use script_events::Event;
use std::alloc::Global;
use trusted_memory::Trusted;

/// The ends of all lines, the manager, the packets that were sealed, trusted memory, and how many events came (PCI
/// Express Base 6.0 section 6.33 and chapter 11, in this profile).
#[derive(Drop)]
pub struct Links {
    pub ends: AllEnds,
    pub keeper: HostKeeper,
    pub packets: Packets,
    /// What the last send sealed.
    pub sealed: SendBuffer,
    pub trusted: Trusted,
    pub steps: u64,
}

impl Links {
    ghost use Rattle.ide_types.specs.declared.plan.Plan.{Plan as PlanView};
    ghost use Rattle.line_arrivals.specs.{IsBounded};
    ghost use Rattle.all_links.specs.Links.{IsFirst, EndsIfAnswered};
    ghost use Rattle.all_links.specs.BesideAfter.{BesideReset};

    /// The lines of the plan before the first event: no stream has keys, no interface is locked, and memory is 0.
    /// Returns `OutOfMemory` for want of memory.
    pub fn make(alloc: Global, plan: &ValidPlan) -> Result<Links, OutOfMemory>
        ensures { IfOk result (λ s. IsFirst plan.now s) }
    {
        let ends = AllEnds::make(alloc, plan)?;
        let keeper = HostKeeper::make(alloc, plan)?;
        let trusted = Trusted::make(alloc, plan.plan().memory.as_slice())?;
        let packets = Packets::new(alloc);
        let sealed = SendBuffer::make(alloc)?;
        Ok(Links {
            ends,
            keeper,
            packets,
            sealed,
            trusted,
            steps: 0,
        })
    }

    /// Counts an event, whose verdict changes nothing.
    pub fn only(&mut self, verdict: Verdict) -> Verdict
        requires { self.old.steps < 2 ^ 28 }
        ensures value { result ≡ verdict }
        ensures links { self.new ≡ record self.old { steps = self.old.steps + 1 } }
    {
        self.steps += 1;
        verdict
    }

    /// Whether there is this link.
    pub fn has_link(&self, link: u64) -> bool
        ensures { result ≡ nat_lt link (length self.now.ends.links) }
    {
        link < self.ends.count() as u64
    }

    /// Resets a link, which clears these ends.
    pub fn reset(&mut self, link: u64, ends: &[PortName]) -> Verdict
        requires steps { self.old.steps < 2 ^ 28 }
        requires bounded { IsBounded self.old.ends self.old.packets.packets self.old.steps }
        ensures ends { (plan : PlanView) → EndsIfAnswered plan result self.old self.new (Event.Reset link ends.now) }
        ensures verdict { result ≡ (if nat_lt link (length self.old.ends.links) then Verdict.Reset link
            else Verdict.Nothing) }
        ensures sides { BesideReset link self.old self.new }
    {
        if !self.has_link(link) {
            return self.only(Verdict::Nothing);
        }
        let link = link as u8;
        self.ends.reset(link, ends);
        self.keeper.reset(link, ends);
        self.steps += 1;
        Verdict::Reset { link }
    }
}
