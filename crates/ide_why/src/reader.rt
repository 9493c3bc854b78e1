//! A world as it is read.

ghost use Rattle.std.specs.Prelude.{◌≡◌, IfSome};
ghost use Rattle.std.specs.Option.{option_map};
ghost use Rattle.machine_operations.specs.{find_op};
ghost use Rattle.key_host.specs.Facts.{op_seen};
ghost use Rattle.world.specs.{IsWorld, links_state};
ghost use Rattle.ide_why.specs.Reading.{face_read, owner_face, requester_read, stream_read};

use ide_types::{PortName, ValidPlan};
use key_host::StageFacts;
use sub_stream::StreamFacts;
use tlp_layout::{HeadView, owner};
use why_facts::FaceSeen;
use world::WholeLinks;

/// A topology, and what is kept of its links and managers.
#[derive(Clone, Copy)]
pub struct Reader<'a> {
    pub plan: &'a ValidPlan,
    pub links: &'a WholeLinks,
}

/// A stream that the manager has, with the state of its operations.
#[derive(Clone, Copy)]
pub struct StageSeen {
    pub line: u8,
    pub stream: u8,
    pub stage: StageFacts,
}

impl Reader<'_> {
    /// A stream at an end; `None` if the end has no such stream.
    pub fn stream(&self, end: PortName, stream: u8) -> Option<StreamFacts>
        requires { IsWorld self.now.plan.now self.now.links.now }
        ensures { result ≡ stream_read self.now.plan.now self.now.links.now end stream }
    {
        match self.links.links.ends.port(end) {
            None => None,
            Some(port) => port.facts(stream),
        }
    }

    /// The state of a stream's operations; `None` if there is no such stream.
    pub fn stage(&self, line: u64, stream: u64) -> Option<StageSeen>
        requires { IsWorld self.now.plan.now self.now.links.now }
        ensures op { option_map (λ x. op_seen x.stage) result ≡ find_op self.now.plan.now
            (links_state self.now.plan.now self.now.links.now.links) line stream }
        ensures line { IfSome result (λ x. x.line ≡ line) }
        ensures stream { IfSome result (λ x. x.stream ≡ stream) }
    {
        if line > 31 || stream > 255 {
            return None;
        }
        let (line, stream) = (line as u8, stream as u8);
        match self.links.links.keeper.keys.facts(line, stream) {
            None => None,
            Some(stage) => Some(StageSeen {
                line,
                stream,
                stage,
            }),
        }
    }

    /// How many draws were made.
    pub fn draws(&self) -> u32
        ensures { result ≡ (links_state self.now.plan.now self.now.links.now.links).draws }
    {
        self.links.links.keeper.keys.draws()
    }

    /// The interface of a number; `None` if there is none.
    pub fn face(&self, number: u64) -> Option<FaceSeen>
        requires { IsWorld self.now.plan.now self.now.links.now }
        ensures { result ≡ face_read self.now.links.now number }
    {
        match self.links.links.interface(number) {
            None => None,
            Some((link, place)) => {
                let manager = self.links.links.keeper.interfaces.manager();
                Some(FaceSeen {
                    number: number as u8,
                    state: self.links.links.ends.link(link).device.state(place),
                    manager: manager.facts(number as usize),
                })
            }
        }
    }

    /// The interface of a link that has this requester ID; `None` if there is none.
    pub fn of_requester(&self, link: u8, requester: u16) -> Option<FaceSeen>
        requires { IsWorld self.now.plan.now self.now.links.now }
        ensures { result ≡ requester_read self.now.links.now link requester }
    {
        let manager = self.links.links.keeper.interfaces.manager();
        match manager.number(link, requester) {
            None => None,
            Some(number) => self.face(number as u64),
        }
    }

    /// The interface at a link that owns a TLP with this header; `None` if none does.
    pub fn owner(&self, link: u8, head: &HeadView) -> Option<FaceSeen>
        requires { IsWorld self.now.plan.now self.now.links.now }
        ensures { result ≡ owner_face self.now.links.now link head.now }
    {
        match owner(head) {
            None => None,
            Some(requester) => self.of_requester(link, requester),
        }
    }
}
