//! Operations and events on the interfaces of all links, and reads of trusted memory (this profile).

ghost use Rattle.std.specs.Prelude.{◌≡◌, ◌+◌, ◌<◌, ◌≤◌, ◌^◌, ◌&&◌, ℕ, Some, None, [], IfOk, IfSome, IsSome};
ghost use Rattle.std.specs.Prelude.{true, List, length, nat_lt, if◌then◌else◌};
ghost use Rattle.ide_types.specs.Lines.{is_peer_line};
ghost use Rattle.ide_types.specs.RegisterNames.{width_of};

use crate::links::Links;
use event_verdicts::Verdict;
use ide_types::{Bytes, FIRST_PEER_LINE, InterfaceVerdict, OutOfMemory, Register, SubKind};
use interface_host::{InterfaceOperation, PeerStream};
use line_arrivals::asked_verdict;
use script_events::{Event, InterfaceEvent, Loss};
use std::alloc::Global;

/// The most bytes of a report.
const MOST_REPORT: usize = 1_140;

impl Links {
    ghost use Rattle.ide_types.specs.declared.plan.Plan.{Plan as PlanView};
    ghost use Rattle.line_arrivals.specs.{IsBounded, IsThere, AsksAtLink, report_of, outcome_verdict};
    ghost use Rattle.line_arrivals.specs.{NoBadInterfaceReply};
    ghost use Rattle.all_links.specs.Links.{EndsIfAnswered, EndsOrStays, EndsOrHasNone, EndsOrHasNoneOrStays};
    ghost use Rattle.all_links.specs.Accesses.{place_runs, device_draw};
    ghost use Rattle.all_links.specs.BesideAfter.{BesideStays, BesideAsking, BesideInterface};
    ghost use Rattle.all_links.specs.Besides.{answer_of_links, op_verdict};
    ghost use Rattle.all_links.specs.Interfaces.{interface_named, has_peer_if_there, managed_peer_stream};

    fn shows(&mut self, verdict: InterfaceVerdict) -> Verdict
        requires { self.old.steps < 2 ^ 28 }
        ensures value { result ≡ Verdict.Interface verdict }
        ensures links { self.new ≡ record self.old { steps = self.old.steps + 1 } }
    {
        self.only(Verdict::Interface { verdict })
    }

    /// The link and the place on it of the interface of a number, if there is one.
    pub fn interface(&self, number: u64) -> Option<(u8, usize)>
        requires { length self.now.ends.links ≤ 8 }
        ensures place { result ≡ interface_named self.now.keeper.interfaces self.now.ends.links number }
        ensures there { IfSome result (λ p. IsThere self.now.ends p.0 p.1) }
    {
        if number >= self.keeper.interfaces.manager().count() as u64 {
            return None;
        }
        if number > 255 {
            return None;
        }
        self.ends.interface(number)
    }

    /// Whether the interface at a place is in RUN; false if there is none.
    pub fn runs(&self, at: Option<(u8, usize)>) -> bool
        requires { IfSome at (λ p. IsThere self.now.ends p.0 p.1) }
        ensures { result ≡ place_runs self.now at }
    {
        match at {
            None => false,
            Some((link, place)) => self.ends.runs(link, place),
        }
    }

    /// The greatest draw under which the device of a link opens posted requests on the stream of the interface of a
    /// number, 0 if there is none.
    pub fn device_draw(&self, link: u8, number: u64) -> u32
        requires here { link < length self.now.ends.links }
        requires interface { number < length self.now.keeper.interfaces.interfaces }
        ensures { result ≡ device_draw self.now number link }
    {
        let stream = self.keeper.interfaces.manager().stream(number as usize);
        let port = &self.ends.link(link).device.port;
        match port.receiving_draw(stream, SubKind::Pr) {
            None => 0,
            Some(draw) => draw,
        }
    }

    // Carries an operation on the interface of this number at this place. If it has a verdict no reply is bad.
    fn carry_interface(
        &mut self,
        number: u64,
        at: (u8, usize),
        op: InterfaceOperation,
        loss: Option<Loss>,
    ) -> interface_host::InterfaceOutcome
        requires here { Some at ≡ interface_named self.old.keeper.interfaces self.old.ends.links number }
        ensures links { self.new ≡ record self.old { ends = self.new.ends; keeper = self.new.keeper } }
        ensures asks { AsksAtLink self.old.ends at.0 self.old.keeper number op loss result self.new.ends
            self.new.keeper }
        ensures answered { IsSome (op_verdict self.old number op loss)
            → (report : List ℕ) → IsSome (outcome_verdict number loss report result) }
        ensures no_bad_reply { IsSome (op_verdict self.old number op loss) → NoBadInterfaceReply loss result }
    {
        let interface = number as usize;
        self.ends
            .operate_interface(at.0, &mut self.keeper, interface, op, loss)
    }

    /// An operation on an interface, which is found at this place, and stays there, that reads no report, of any event
    /// that has its verdict. It has none if a reply is bad, or if an exchange is lost none of whose messages is lost.
    pub fn operate_interface(
        &mut self,
        alloc: Global,
        op: InterfaceOperation,
        number: u64,
        at: Option<(u8, usize)>,
        loss: Option<Loss>,
    ) -> Option<Verdict>
        requires steps { self.old.steps < 2 ^ 28 }
        requires bounded { IsBounded self.old.ends self.old.packets.packets self.old.steps }
        requires here { at ≡ interface_named self.old.keeper.interfaces self.old.ends.links number }
        requires short { report_of op ≡ (λ e. []) }
        ensures ends { (plan : PlanView) (event : InterfaceEvent)
            → answer_of_links self.old event ≡ op_verdict self.old number op loss
            → EndsOrHasNone plan result self.old self.new (Event.Interface event) }
        ensures sides { IfSome result (λ v. BesideAsking number op loss self.old self.new) }
        ensures place { interface_named self.new.keeper.interfaces self.new.ends.links number ≡ at }
    {
        match at {
            None => Some(self.only(Verdict::Nothing)),
            Some(at) => {
                let outcome = self.carry_interface(number, at, op, loss);
                let none = Bytes::new(Vec::new(alloc));
                self.steps += 1;
                asked_verdict(number as u8, loss, outcome, none)
            }
        }
    }

    /// Locks the interface of a number (TDISP section 11.3). It has no verdict where
    /// `operate_interface` has none.
    pub fn lock(&mut self, alloc: Global, number: u64, loss: Option<Loss>) -> Option<Verdict>
        requires steps { self.old.steps < 2 ^ 28 }
        requires bounded { IsBounded self.old.ends self.old.packets.packets self.old.steps }
        ensures ends { (plan : PlanView) → EndsOrHasNone plan result self.old self.new
            (Event.Interface (InterfaceEvent.Lock number loss)) }
        ensures sides { IfSome result (λ v. BesideInterface (InterfaceEvent.Lock number loss) self.old self.new) }
    {
        let at = self.interface(number);
        self.operate_interface(alloc, InterfaceOperation::Lock, number, at, loss)
    }

    /// Asks for the state of the interface of a number (TDISP section 11.3). It has no verdict where
    /// `operate_interface` has none.
    pub fn state(&mut self, alloc: Global, number: u64, loss: Option<Loss>) -> Option<Verdict>
        requires steps { self.old.steps < 2 ^ 28 }
        requires bounded { IsBounded self.old.ends self.old.packets.packets self.old.steps }
        ensures ends { (plan : PlanView) → EndsOrHasNone plan result self.old self.new
            (Event.Interface (InterfaceEvent.State number loss)) }
        ensures sides { IfSome result (λ v. BesideInterface (InterfaceEvent.State number loss) self.old self.new) }
    {
        let at = self.interface(number);
        self.operate_interface(alloc, InterfaceOperation::State, number, at, loss)
    }

    // The stream between devices as the manager has it, by its line and its ID, if the device of the interface at this
    // place has it.
    fn peer(&self, at: Option<(u8, usize)>, line: u64, stream: u64) -> Option<PeerStream>
        requires { is_peer_line line ≡ true }
        ensures { result ≡ (if nat_lt stream 256 && has_peer_if_there self.now.ends line stream at
            then Some (managed_peer_stream self.now.keeper line stream) else None) }
    {
        if stream > 255 {
            return None;
        }
        match at {
            None => None,
            Some((link, _)) => {
                if self.ends.has_peer(link, line, stream) {
                    let number = (line - u64::from(FIRST_PEER_LINE)) as usize;
                    let draw = self.keeper.peer_draws[number];
                    let line = line as u8;
                    let id = stream as u8;
                    Some(PeerStream { line, id, draw })
                } else {
                    None
                }
            }
        }
    }

    /// Binds the interface of a number to a stream between devices, which is named by its line, 24 to 31, and its ID
    /// (TDISP section 11.3). It has no verdict where `operate_interface` has none.
    pub fn bind(
        &mut self,
        alloc: Global,
        number: u64,
        line: u64,
        stream: u64,
        loss: Option<Loss>,
    ) -> Option<Verdict>
        requires steps { self.old.steps < 2 ^ 28 }
        requires bounded { IsBounded self.old.ends self.old.packets.packets self.old.steps }
        requires peer { is_peer_line line ≡ true }
        ensures ends { (plan : PlanView) → EndsOrHasNone plan result self.old self.new
            (Event.Interface (InterfaceEvent.Bind number line stream loss)) }
        ensures sides { IfSome result (λ v. BesideInterface (InterfaceEvent.Bind number line stream loss) self.old
            self.new) }
    {
        let at = self.interface(number);
        match self.peer(at, line, stream) {
            None => Some(self.only(Verdict::Nothing)),
            Some(peer) => self.operate_interface(
                alloc,
                InterfaceOperation::Bind(peer),
                number,
                at,
                loss,
            ),
        }
    }

    /// Ends the binding of the interface of a number to a stream between devices, which is named as in `bind` (TDISP
    /// section 11.3). It has no verdict where `operate_interface` has none.
    pub fn unbind(
        &mut self,
        alloc: Global,
        number: u64,
        line: u64,
        stream: u64,
        loss: Option<Loss>,
    ) -> Option<Verdict>
        requires steps { self.old.steps < 2 ^ 28 }
        requires bounded { IsBounded self.old.ends self.old.packets.packets self.old.steps }
        requires peer { is_peer_line line ≡ true }
        ensures ends { (plan : PlanView) → EndsOrHasNone plan result self.old self.new
            (Event.Interface (InterfaceEvent.Unbind number line stream loss)) }
        ensures sides { IfSome result (λ v. BesideInterface (InterfaceEvent.Unbind number line stream loss) self.old
            self.new) }
    {
        let at = self.interface(number);
        match self.peer(at, line, stream) {
            None => Some(self.only(Verdict::Nothing)),
            Some(peer) => self.operate_interface(
                alloc,
                InterfaceOperation::Unbind(peer),
                number,
                at,
                loss,
            ),
        }
    }

    /// Reads the report of the interface of a number (TDISP section 11.3). It has no verdict where
    /// `operate_interface` has none. Room for the longest report, 1,140 bytes, is taken first: for want of memory
    /// nothing changes.
    pub fn report(
        &mut self,
        alloc: Global,
        number: u64,
        loss: Option<Loss>,
    ) -> Result<Option<Verdict>, OutOfMemory>
        requires steps { self.old.steps < 2 ^ 28 }
        requires bounded { IsBounded self.old.ends self.old.packets.packets self.old.steps }
        ensures ends { (plan : PlanView) → EndsOrHasNoneOrStays plan result self.old self.new
            (Event.Interface (InterfaceEvent.Report number loss)) }
        ensures sides { IfOk result (λ o. IfSome o (λ v.
            BesideAsking number InterfaceOperation.Report loss self.old self.new)) }
    {
        match self.interface(number) {
            None => Ok(Some(self.only(Verdict::Nothing))),
            Some(at) => {
                let mut report = Vec::with_capacity(alloc, MOST_REPORT)?;
                let outcome = self.carry_interface(number, at, InterfaceOperation::Report, loss);
                report
                    .extend_from_slice(self.keeper.interfaces.manager().report())
                    .unwrap();
                let report = Bytes::new(report);
                self.steps += 1;
                Ok(asked_verdict(number as u8, loss, outcome, report))
            }
        }
    }

    /// The manager's view of the interface of a number.
    pub fn view(&mut self, number: u64) -> Verdict
        requires steps { self.old.steps < 2 ^ 28 }
        requires bounded { IsBounded self.old.ends self.old.packets.packets self.old.steps }
        ensures ends { (plan : PlanView) → EndsIfAnswered plan result self.old self.new
            (Event.Interface (InterfaceEvent.View number)) }
        ensures sides { BesideStays self.old self.new }
    {
        match self.interface(number) {
            None => self.only(Verdict::Nothing),
            Some(_) => {
                let interface = number as u8;
                let view = self.keeper.interfaces.manager().view(number as usize);
                self.shows(InterfaceVerdict::View { interface, view })
            }
        }
    }

    /// Writes a value, of the register's width in bits, to a register of the interface of a number.
    pub fn write(&mut self, number: u64, register: Register, value: u64) -> Verdict
        requires steps { self.old.steps < 2 ^ 28 }
        requires bounded { IsBounded self.old.ends self.old.packets.packets self.old.steps }
        requires width { value < 2 ^ width_of register }
        ensures ends { (plan : PlanView) → EndsIfAnswered plan result self.old self.new
            (Event.Interface (InterfaceEvent.Write number register value)) }
        ensures sides { BesideInterface (InterfaceEvent.Write number register value) self.old self.new }
    {
        match self.interface(number) {
            None => self.only(Verdict::Nothing),
            Some((link, place)) => {
                if self.ends.has_register(link, place, register) {
                    let interface = number as u8;
                    let state = self.ends.write_register(link, place, register, value);
                    self.shows(InterfaceVerdict::Written { interface, state })
                } else {
                    self.only(Verdict::Nothing)
                }
            }
        }
    }

    /// A function level reset of an interface, which is found at this place, and stays there.
    pub fn flr(&mut self, number: u64, at: Option<(u8, usize)>) -> Verdict
        requires steps { self.old.steps < 2 ^ 28 }
        requires bounded { IsBounded self.old.ends self.old.packets.packets self.old.steps }
        requires here { at ≡ interface_named self.old.keeper.interfaces self.old.ends.links number }
        ensures ends { (plan : PlanView) → EndsIfAnswered plan result self.old self.new
            (Event.Interface (InterfaceEvent.Flr number)) }
        ensures sides { BesideInterface (InterfaceEvent.Flr number) self.old self.new }
        ensures place { interface_named self.new.keeper.interfaces self.new.ends.links number ≡ at }
    {
        match at {
            None => self.only(Verdict::Nothing),
            Some((link, place)) => {
                let interface = number as u8;
                let state = self.ends.flr(link, place);
                self.shows(InterfaceVerdict::Flr { interface, state })
            }
        }
    }

    /// A firmware update of the interface of a number.
    pub fn firmware(&mut self, number: u64) -> Verdict
        requires steps { self.old.steps < 2 ^ 28 }
        requires bounded { IsBounded self.old.ends self.old.packets.packets self.old.steps }
        ensures ends { (plan : PlanView) → EndsIfAnswered plan result self.old self.new
            (Event.Interface (InterfaceEvent.Firmware number)) }
        ensures sides { BesideInterface (InterfaceEvent.Firmware number) self.old self.new }
    {
        match self.interface(number) {
            None => self.only(Verdict::Nothing),
            Some((link, place)) => {
                let interface = number as u8;
                let state = self.ends.firmware(link, place);
                self.shows(InterfaceVerdict::Firmware { interface, state })
            }
        }
    }

    /// Shows so many bytes of trusted memory from an address on, if one region has them all. For want of
    /// memory nothing changes.
    pub fn memory(
        &mut self,
        alloc: Global,
        address: u64,
        length: u64,
    ) -> Result<Verdict, OutOfMemory>
        requires steps { self.old.steps < 2 ^ 28 }
        requires bounded { IsBounded self.old.ends self.old.packets.packets self.old.steps }
        ensures ends { (plan : PlanView) → EndsOrStays plan result self.old self.new
            (Event.Interface (InterfaceEvent.Memory address length)) }
        ensures sides { IfOk result (λ v. BesideStays self.old self.new) }
    {
        let mut bytes = vec![in alloc; 0; length as usize]?;
        if self.trusted.peek(address, &mut bytes) {
            let bytes = Bytes::new(bytes);
            Ok(self.shows(InterfaceVerdict::Memory { bytes }))
        } else {
            Ok(self.only(Verdict::Nothing))
        }
    }
}
