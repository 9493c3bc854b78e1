//! Answers to the reads that wait, and the memory of devices that is shown.

ghost use Rattle.std.specs.Prelude.{◌≡◌, ◌≤◌, ◌<◌, ◌^◌, true, [], Ok, Some, IfOk, length, slice_get};
ghost use Rattle.std.specs.Prelude.{◌+◌, vec_len, vec_capacity};
ghost use Rattle.std.specs.Bool.{OnTrue};
ghost use Rattle.trusted_memory.specs.{FitsRead};
ghost use Rattle.std.specs.Option.{option_map_or};
ghost use Rattle.tlp_layout.specs.Reading.{IsTlpWithHead};
ghost use Rattle.machine_ports.specs.Machine.{port_at};
ghost use Rattle.link_stores.specs.declared.link.LinkAccesses.{LinkAccesses};
ghost use Rattle.all_links.specs.{LinkEnds, sealing_draw_on};
ghost use Rattle.whole_links.specs.Besides.{draw_below};
ghost use Rattle.all_links.specs.Accesses.{is_sending, reads_at};
ghost use Rattle.all_links.specs.BesideAfter.{BesideStays};

use crate::reply::{Reply, draw_below, judged, responded, small_number};
use crate::verdicts::{dropped, empty, takes_read};
use crate::whole::WholeLinks;
use event_verdicts::{AccessVerdict, BlockCause, Verdict};
use guarded_memory::judge_read;
use ide_types::{Bytes, InterfaceVerdict, OutOfMemory, Side, SubKind, ValidPlan};
use interface_ends::DeviceInterfaces;
use script_events::{AccessEvent, Event};
use std::alloc::Global;
use tlp_layout::OutgoingTlp;
use trusted_memory::{COMPLETION_BYTES, ReadTarget, WaitingRead, complete};

/// The completer ID of a host (this profile).
const HOST_COMPLETER: u16 = 0;

// The requester ID of the interface at this place of a device, 0 if there is none.
fn requester_at(interfaces: &DeviceInterfaces, place: usize) -> u16
    ensures { result ≡ option_map_or (λ t. t.plan.requester) (slice_get interfaces.now.interfaces place) 0 }
{
    if place < interfaces.count() {
        interfaces.interface(place).requester()
    } else {
        0
    }
}

impl WholeLinks {
    ghost use Rattle.ide_types.specs.declared.plan.Plan.{Plan as PlanView};
    ghost use Rattle.whole_links.specs.Besides.{answer_event, completion_of_reply, host_reply, port_reply, reader_of};
    ghost use Rattle.whole_links.specs.Besides.{reply_numbered, response_numbered, target_reply};
    ghost use Rattle.whole_links.specs.Besides.{has_shown, bytes_shown};
    ghost use Rattle.whole_links.specs.Whole.{HasAllAccesses, IsBoundedWhole, WholeEndsOrStays};
    ghost use Rattle.whole_links.specs.Accesses.{takes_read, AccessesAfter};

    // Of this read of an interface at a host: appends its completion, and says what it is to be sealed by, by what the
    // manager says of its requester. There is room for it.
    fn granted(
        &self,
        link: u8,
        interface: u8,
        waiting: &WaitingRead,
        bytes: &mut Vec<u8>,
    ) -> Result<Reply, Verdict>
        requires here { link < length self.now.links.ends.links }
        requires fits { FitsRead waiting.now.read }
        requires empty { bytes.old.items ≡ [] }
        requires room { vec_len bytes.old + 4108 ≤ vec_capacity bytes.old }
        ensures due { (l : LinkEnds) → slice_get self.now.links.ends.links link ≡ Some l →
            completion_of_reply result bytes.new.items
            ≡ reply_numbered self.now.links.keeper.interfaces l link self.now.links.trusted.contents waiting.now
            (Some interface) }
        ensures made { IfOk result (λ r. IsTlpWithHead r.head bytes.new.items) }
    {
        let requester = waiting.read.requester;
        match self
            .links
            .keeper
            .interfaces
            .manager()
            .grant(link, requester)
        {
            None => Err(dropped(interface, BlockCause::NotRunning)),
            Some(bound) => {
                let trusted = &self.links.trusted;
                let head = complete(trusted, HOST_COMPLETER, &waiting.read, bytes);
                let tlp = OutgoingTlp::written(bytes.as_slice(), head);
                let stream = self.links.ends.link(link).host.choose(&tlp);
                judged(link, stream, head, interface, waiting.came.draw, bound)
            }
        }
    }

    // The number of the interface of a link with this requester ID.
    fn reader(&self, link: u8, requester: u16) -> Option<u8>
        ensures { result ≡ reader_of self.now.links.keeper.interfaces link requester }
    {
        match self
            .links
            .keeper
            .interfaces
            .manager()
            .number(link, requester)
        {
            None => None,
            Some(number) => small_number(number),
        }
    }

    // Of this read at a host.
    fn host_reply(
        &self,
        link: u8,
        waiting: &WaitingRead,
        bytes: &mut Vec<u8>,
    ) -> Result<Reply, Verdict>
        requires here { link < length self.now.links.ends.links }
        requires fits { FitsRead waiting.now.read }
        requires empty { bytes.old.items ≡ [] }
        requires room { vec_len bytes.old + 4108 ≤ vec_capacity bytes.old }
        ensures due { (l : LinkEnds) → slice_get self.now.links.ends.links link ≡ Some l →
            completion_of_reply result bytes.new.items
            ≡ host_reply self.now.links.keeper.interfaces l link self.now.links.trusted.contents waiting.now }
        ensures made { IfOk result (λ r. IsTlpWithHead r.head bytes.new.items) }
    {
        match self.reader(link, waiting.read.requester) {
            None => Err(Verdict::Nothing),
            Some(interface) => self.granted(link, interface, waiting, bytes),
        }
    }

    // Of this read of an interface at its device, whose target is this: appends its completion, and says what it is to be
    // sealed by, by how the device's interfaces stand. There is room for it.
    fn claimed(
        &self,
        link: u8,
        interface: u8,
        waiting: &WaitingRead,
        target: ReadTarget,
        bytes: &mut Vec<u8>,
    ) -> Result<Reply, Verdict>
        requires here { link < length self.now.links.ends.links }
        requires whole { HasAllAccesses self.now }
        requires fits { FitsRead waiting.now.read }
        requires empty { bytes.old.items ≡ [] }
        requires room { vec_len bytes.old + 4108 ≤ vec_capacity bytes.old }
        ensures due { (l : LinkEnds) (a : LinkAccesses) → slice_get self.now.links.ends.links link ≡ Some l
            → slice_get self.now.accesses link ≡ Some a → completion_of_reply result bytes.new.items
            ≡ response_numbered l a waiting.now target (Some interface) }
        ensures made { IfOk result (λ r. IsTlpWithHead r.head bytes.new.items) }
    {
        let access = self.accesses.at(link);
        let interfaces = &self.links.ends.link(link).device.interfaces;
        let claim = access.claim(interfaces, waiting.read.span);
        match judge_read(claim, target, waiting.came) {
            Err(cause) => Err(dropped(interface, cause)),
            Ok(claim) => {
                let completer = requester_at(interfaces, claim.interface);
                Ok(responded(&access.guarded, &claim, completer, waiting, bytes))
            }
        }
    }

    // Of this read at a device.
    fn device_reply(
        &self,
        link: u8,
        waiting: &WaitingRead,
        bytes: &mut Vec<u8>,
    ) -> Result<Reply, Verdict>
        requires here { link < length self.now.links.ends.links }
        requires whole { HasAllAccesses self.now }
        requires fits { FitsRead waiting.now.read }
        requires empty { bytes.old.items ≡ [] }
        requires room { vec_len bytes.old + 4108 ≤ vec_capacity bytes.old }
        ensures due { (l : LinkEnds) (a : LinkAccesses) → slice_get self.now.links.ends.links link ≡ Some l
            → slice_get self.now.accesses link ≡ Some a → completion_of_reply result bytes.new.items
            ≡ target_reply self.now.links.ends.links l a link waiting.now waiting.now.target }
        ensures made { IfOk result (λ r. IsTlpWithHead r.head bytes.new.items) }
    {
        let Some(target) = waiting.target else {
            return Err(Verdict::Nothing);
        };
        match self.links.ends.number(link, target.interface) {
            None => Err(Verdict::Nothing),
            Some(interface) => self.claimed(link, interface, waiting, target, bytes),
        }
    }

    // Appends the completion of the oldest read at the port of a side of the link, or gives the verdict without one. There
    // is room for it.
    fn reply(&self, side: Side, link: u8, bytes: &mut Vec<u8>) -> Result<Reply, Verdict>
        requires here { link < length self.now.links.ends.links }
        requires whole { HasAllAccesses self.now }
        requires empty { bytes.old.items ≡ [] }
        requires room { vec_len bytes.old + 4108 ≤ vec_capacity bytes.old }
        ensures due { completion_of_reply result bytes.new.items ≡ port_reply self.now (port_at side link) }
        ensures made { IfOk result (λ r. IsTlpWithHead r.head bytes.new.items) }
    {
        match self.accesses.at(link).reads(side).first() {
            None => Err(empty(link)),
            Some(waiting) => match side {
                Side::Host => self.host_reply(link, &waiting, bytes),
                Side::Device => self.device_reply(link, &waiting, bytes),
            },
        }
    }

    // The draw that completions are sealed under where this one goes out, if it is less than the reply's floor.
    fn older_draw(&self, reply: &Reply) -> Option<u32>
        ensures { result
            ≡ draw_below (sealing_draw_on self.now.links.ends reply.now.end reply.now.stream SubKind.Cpl)
            reply.now.floor }
    {
        let draw = self
            .links
            .ends
            .sealing_draw(reply.end, reply.stream, SubKind::Cpl);
        draw_below(draw, reply.floor)
    }

    // Sends the completion, unless that would be under too old a draw.
    fn send_reply(
        &mut self,
        plan: &ValidPlan,
        side: Side,
        link: u8,
        reply: &Reply,
        bytes: &[u8],
    ) -> Result<Verdict, OutOfMemory>
        requires steps { self.old.links.steps < 2 ^ 28 }
        requires bounded { IsBoundedWhole self.old }
        requires due { port_reply self.old (port_at side link) ≡ completion_of_reply (Ok reply.now) bytes.now }
        requires made { IsTlpWithHead reply.now.head bytes.now }
        ensures ends { WholeEndsOrStays plan.now result self.old self.new (answer_event side link) }
        ensures sides { IfOk result (λ v. BesideStays self.old.links self.new.links) }
        ensures accesses { self.new.accesses ≡ self.old.accesses }
        ensures kind { IfOk result (λ v. is_sending v ≡ true) }
    {
        match self.older_draw(reply) {
            Some(draw) => {
                let needed = reply.floor;
                let verdict = InterfaceVerdict::RefusedRefreshFirst { draw, needed };
                Ok(self.links.only(Verdict::Interface { verdict }))
            }
            None => {
                let tlp = OutgoingTlp::written(bytes, reply.head);
                self.links
                    .complete(plan, reply.end, reply.stream, reply.trusted, &tlp)
            }
        }
    }

    // The answer to the oldest read at the port of a side of a link that exists.
    fn answered(
        &mut self,
        alloc: Global,
        plan: &ValidPlan,
        side: Side,
        link: u8,
    ) -> Result<Verdict, OutOfMemory>
        requires steps { self.old.links.steps < 2 ^ 28 }
        requires bounded { IsBoundedWhole self.old }
        requires here { link < length self.old.links.ends.links }
        ensures ends { WholeEndsOrStays plan.now result self.old self.new (answer_event side link) }
        ensures sides { IfOk result (λ v. BesideStays self.old.links self.new.links) }
        ensures accesses { self.new.accesses ≡ self.old.accesses }
        ensures kind { IfOk result (λ v. is_sending v ≡ true) }
        ensures waits { IfOk result (λ v. takes_read v ≡ true
            → 1 ≤ length (reads_at self.old.accesses (port_at side link))) }
    {
        let mut bytes = Vec::with_capacity(alloc, COMPLETION_BYTES)?;
        match self.reply(side, link, &mut bytes) {
            Err(verdict) => Ok(self.links.only(verdict)),
            Ok(reply) => self.send_reply(plan, side, link, &reply, &bytes),
        }
    }

    // Answers the oldest read that waits at the port of a side of a link. Once its completion is sealed, or it is dropped,
    // it waits no more.
    pub(crate) fn answer_read(
        &mut self,
        alloc: Global,
        plan: &ValidPlan,
        side: Side,
        link: u64,
    ) -> Result<Verdict, OutOfMemory>
        requires steps { self.old.links.steps < 2 ^ 28 }
        requires bounded { IsBoundedWhole self.old }
        ensures ends { WholeEndsOrStays plan.now result self.old self.new (answer_event side link) }
        ensures sides { IfOk result (λ v. BesideStays self.old.links self.new.links) }
        ensures accesses { IfOk result (λ v. AccessesAfter plan.now (answer_event side link) v self.old self.new) }
    {
        if !self.links.has_link(link) {
            return Ok(self.links.only(Verdict::Nothing));
        }
        let link = link as u8;
        let verdict = self.answered(alloc, plan, side, link)?;
        if takes_read(&verdict) {
            self.accesses.at_mut(link).remove_first(side);
        }
        Ok(verdict)
    }

    // Copies bytes of the range of a BAR of an interface; false if it has not all of them.
    fn peek(&self, interface: u64, bar: u64, offset: u64, buf: &mut [u8]) -> bool
        requires bounded { IsBoundedWhole self.now }
        ensures answer { result ≡ has_shown self.now interface bar offset (length buf.old) }
        ensures bytes { OnTrue result (buf.new ≡ bytes_shown self.now interface bar offset (length buf.old)) }
    {
        match self.links.interface(interface) {
            None => false,
            Some((link, place)) => self
                .accesses
                .at(link)
                .guarded
                .peek(place, bar as usize, offset, buf),
        }
    }

    // Shows bytes of the range of a BAR of an interface, if it has them all.
    pub(crate) fn mmio(
        &mut self,
        alloc: Global,
        interface: u64,
        bar: u64,
        offset: u64,
        length: u64,
    ) -> Result<Verdict, OutOfMemory>
        requires steps { self.old.links.steps < 2 ^ 28 }
        requires bounded { IsBoundedWhole self.old }
        ensures ends { (plan : PlanView) → WholeEndsOrStays plan result self.old self.new
            (Event.Access (AccessEvent.Mmio interface bar offset length)) }
        ensures sides { IfOk result (λ v. BesideStays self.old.links self.new.links) }
        ensures accesses { IfOk result (λ v. self.new.accesses ≡ self.old.accesses) }
    {
        let mut bytes = vec![in alloc; 0; length as usize]?;
        if self.peek(interface, bar, offset, &mut bytes) {
            let bytes = Bytes::new(bytes);
            Ok(
                self.links.only(Verdict::Access {
                    verdict: AccessVerdict::Mmio { bytes },
                }),
            )
        } else {
            Ok(self.links.only(Verdict::Nothing))
        }
    }
}
