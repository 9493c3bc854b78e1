//! The rule that answers an event, by the names of docs/RULES.md (this profile).

ghost use Rattle.std.specs.Prelude.{◌≡◌, ◌<◌, ◌^◌};
ghost use Rattle.why_facts.specs.Rules.{access_rule, answer_rule, arriving_rule, asked_rule, by_side, cause_rule};
ghost use Rattle.why_facts.specs.Rules.{class_of_first, class_of_second, class_of_fact, device_dropped_rule};
ghost use Rattle.why_facts.specs.Rules.{effect_rule_of, fail_rule, host_cause_rule, host_dropped_rule, interface_rule};
ghost use Rattle.why_facts.specs.Rules.{is_host_end, key_rule, line_rule, refused_rule};
ghost use Rattle.why_facts.specs.Rules.{mmio_cause_rule, operation_rule, read_cause_rule, rule_of, rule_of_none};
ghost use Rattle.why_facts.specs.Rules.{refreshed_rule, sending_rule, unanswered_rule, unless_none, unnamed_rule};
ghost use Rattle.why_facts.specs.Rules.{write_cause_rule};

use event_verdicts::{AccessVerdict, BlockCause, Effect, Verdict};
use ide_types::{FailCause, InterfaceVerdict, PortName, Side, SubKind};
use script_events::{AccessEvent, Event, InterfaceEvent};
use told_facts::{Fact, StreamFact};

fn key_rule(class: Option<SubKind>, sub: SubKind) -> &'static str
    ensures { result.now ≡ key_rule class sub }
{
    match class {
        None => "sending.key",
        Some(class) if class == sub => "sending.key",
        Some(_) => "sending.sync",
    }
}

fn sending_rule(class: Option<SubKind>, verdict: &Verdict, other: &'static str) -> &'static str
    ensures { result.now ≡ sending_rule class verdict.now other.now }
{
    match verdict {
        Verdict::Malformed { .. } => "sending.malformed",
        Verdict::Plain { .. } => "sending.plain",
        Verdict::RefusedInsecure => "sending.insecure",
        Verdict::RefusedNoKey { sub } => key_rule(class, *sub),
        Verdict::RefusedUnfinished => "sending.unfinished",
        Verdict::RefusedWorn { .. } => "sending.worn",
        Verdict::Sealed { .. } => "sending.sealed",
        Verdict::Nothing
        | Verdict::Unknown { .. }
        | Verdict::Insecure { .. }
        | Verdict::NotKeyed { .. }
        | Verdict::Fail { .. }
        | Verdict::Held { .. }
        | Verdict::Accepted { .. }
        | Verdict::Through { .. }
        | Verdict::Established { .. }
        | Verdict::Refreshed { .. }
        | Verdict::Stopped { .. }
        | Verdict::LostRequest { .. }
        | Verdict::LostReply { .. }
        | Verdict::RefusedNotIdle
        | Verdict::RefusedNotSecure { .. }
        | Verdict::RefusedPoolEmpty { .. }
        | Verdict::RefusedDevice { .. }
        | Verdict::RefusedBusy { .. }
        | Verdict::RefusedUnitOpen { .. }
        | Verdict::Packet { .. }
        | Verdict::Reset { .. }
        | Verdict::Status { .. }
        | Verdict::Interface { .. }
        | Verdict::Access { .. } => other,
    }
}

fn fail_rule(cause: FailCause) -> &'static str
    ensures { result.now ≡ fail_rule cause }
{
    match cause {
        FailCause::Key => "arriving.key",
        FailCause::Unit => "arriving.unit",
        FailCause::Tag => "arriving.tag",
        FailCause::Order => "arriving.order",
    }
}

fn arriving_rule(verdict: &Verdict) -> &'static str
    ensures { result.now ≡ arriving_rule verdict.now }
{
    match verdict {
        Verdict::Malformed { .. } => "arriving.malformed",
        Verdict::Plain { .. } => "arriving.plain",
        Verdict::Through { .. } => "hops.through",
        Verdict::Unknown { .. } => "arriving.stream",
        Verdict::Insecure { .. } => "arriving.insecure",
        Verdict::NotKeyed { .. } => "arriving.keyed",
        Verdict::Held { .. } => "arriving.held",
        Verdict::Accepted { .. } => "arriving.accepted",
        Verdict::Fail { cause, .. } => fail_rule(*cause),
        Verdict::Nothing
        | Verdict::RefusedInsecure
        | Verdict::RefusedNoKey { .. }
        | Verdict::RefusedUnfinished
        | Verdict::RefusedWorn { .. }
        | Verdict::Sealed { .. }
        | Verdict::Established { .. }
        | Verdict::Refreshed { .. }
        | Verdict::Stopped { .. }
        | Verdict::LostRequest { .. }
        | Verdict::LostReply { .. }
        | Verdict::RefusedNotIdle
        | Verdict::RefusedNotSecure { .. }
        | Verdict::RefusedPoolEmpty { .. }
        | Verdict::RefusedDevice { .. }
        | Verdict::RefusedBusy { .. }
        | Verdict::RefusedUnitOpen { .. }
        | Verdict::Packet { .. }
        | Verdict::Reset { .. }
        | Verdict::Status { .. }
        | Verdict::Interface { .. }
        | Verdict::Access { .. } => "lines.none",
    }
}

// Of an operation on a line; `rule` is that of a link's.
fn line_rule(line: u64, rule: &'static str) -> &'static str
    ensures { result.now ≡ line_rule line rule.now }
{
    match line {
        0..=7 => rule,
        8..=23 => "hops.operations",
        24.. => "peers.operations",
    }
}

fn operation_rule(line: u64, refusal: &'static str, verdict: &Verdict) -> &'static str
    ensures { result.now ≡ operation_rule line refusal.now verdict.now }
{
    match verdict {
        Verdict::Nothing => "lines.none",
        Verdict::LostRequest { .. } | Verdict::LostReply { .. } => "operations.lost",
        Verdict::RefusedDevice { .. } => "operations.device",
        Verdict::RefusedBusy { .. } => line_rule(line, "operations.busy"),
        Verdict::Established { .. } | Verdict::Refreshed { .. } | Verdict::Stopped { .. } => {
            line_rule(line, "operations.begin")
        }
        Verdict::Malformed { .. }
        | Verdict::Plain { .. }
        | Verdict::RefusedInsecure
        | Verdict::RefusedNoKey { .. }
        | Verdict::RefusedUnfinished
        | Verdict::RefusedWorn { .. }
        | Verdict::Sealed { .. }
        | Verdict::Unknown { .. }
        | Verdict::Insecure { .. }
        | Verdict::NotKeyed { .. }
        | Verdict::Fail { .. }
        | Verdict::Held { .. }
        | Verdict::Accepted { .. }
        | Verdict::Through { .. }
        | Verdict::RefusedNotIdle
        | Verdict::RefusedNotSecure { .. }
        | Verdict::RefusedPoolEmpty { .. }
        | Verdict::RefusedUnitOpen { .. }
        | Verdict::Packet { .. }
        | Verdict::Reset { .. }
        | Verdict::Status { .. }
        | Verdict::Interface { .. }
        | Verdict::Access { .. } => line_rule(line, refusal),
    }
}

fn asked_rule(event: &InterfaceEvent) -> &'static str
    ensures { result.now ≡ asked_rule event.now }
{
    match event {
        InterfaceEvent::Lock { .. } => "views.lock",
        InterfaceEvent::Report { .. } => "views.report",
        InterfaceEvent::Start { .. } => "views.start",
        InterfaceEvent::Halt { .. } => "views.halt",
        InterfaceEvent::State { .. } => "views.state",
        InterfaceEvent::Bind { .. } => "views.bind",
        InterfaceEvent::Unbind { .. } => "views.unbind",
        InterfaceEvent::View { .. } => "views.shown",
        InterfaceEvent::Write { .. } => "interfaces.write",
        InterfaceEvent::Flr { .. } => "interfaces.flr",
        InterfaceEvent::Firmware { .. } => "interfaces.firmware",
        InterfaceEvent::Memory { .. } => "memory.shown",
    }
}

fn unnamed_rule(event: &InterfaceEvent) -> &'static str
    ensures { result.now ≡ unnamed_rule event.now }
{
    match event {
        InterfaceEvent::Memory { .. } => "memory.shown",
        InterfaceEvent::Bind { .. }
        | InterfaceEvent::Unbind { .. }
        | InterfaceEvent::Lock { .. }
        | InterfaceEvent::Report { .. }
        | InterfaceEvent::Start { .. }
        | InterfaceEvent::Halt { .. }
        | InterfaceEvent::State { .. }
        | InterfaceEvent::View { .. }
        | InterfaceEvent::Write { .. }
        | InterfaceEvent::Flr { .. }
        | InterfaceEvent::Firmware { .. } => "lines.none",
    }
}

fn interface_rule(event: &InterfaceEvent, verdict: &Verdict) -> &'static str
    ensures { result.now ≡ interface_rule event.now verdict.now }
{
    match verdict {
        Verdict::Nothing => unnamed_rule(event),
        Verdict::LostRequest { .. } | Verdict::LostReply { .. } => "views.lost",
        Verdict::RefusedDevice { .. } => "views.device",
        Verdict::Malformed { .. }
        | Verdict::Plain { .. }
        | Verdict::RefusedInsecure
        | Verdict::RefusedNoKey { .. }
        | Verdict::RefusedUnfinished
        | Verdict::RefusedWorn { .. }
        | Verdict::Sealed { .. }
        | Verdict::Unknown { .. }
        | Verdict::Insecure { .. }
        | Verdict::NotKeyed { .. }
        | Verdict::Fail { .. }
        | Verdict::Held { .. }
        | Verdict::Accepted { .. }
        | Verdict::Through { .. }
        | Verdict::Established { .. }
        | Verdict::Refreshed { .. }
        | Verdict::Stopped { .. }
        | Verdict::RefusedNotIdle
        | Verdict::RefusedNotSecure { .. }
        | Verdict::RefusedPoolEmpty { .. }
        | Verdict::RefusedBusy { .. }
        | Verdict::RefusedUnitOpen { .. }
        | Verdict::Packet { .. }
        | Verdict::Reset { .. }
        | Verdict::Status { .. }
        | Verdict::Interface { .. }
        | Verdict::Access { .. } => asked_rule(event),
    }
}

// ---- answers to reads that wait, at a host's port or at a device's

fn by_side(side: Side, host: &'static str, device: &'static str) -> &'static str
    ensures { result.now ≡ by_side side host.now device.now }
{
    match side {
        Side::Host => host,
        Side::Device => device,
    }
}

fn host_dropped_rule(cause: BlockCause) -> &'static str
    ensures { result.now ≡ host_dropped_rule cause }
{
    match cause {
        BlockCause::NotRunning => "answers.running",
        BlockCause::WrongStream => "answers.stream",
        BlockCause::Stale
        | BlockCause::NotTrusted
        | BlockCause::Outside
        | BlockCause::Crosses
        | BlockCause::Full
        | BlockCause::Moved => "answers.floor",
    }
}

fn device_dropped_rule(cause: BlockCause) -> &'static str
    ensures { result.now ≡ device_dropped_rule cause }
{
    match cause {
        BlockCause::NotTrusted => "responses.trusted",
        BlockCause::NotRunning => "responses.running",
        BlockCause::WrongStream => "responses.stream",
        BlockCause::Moved => "responses.moved",
        BlockCause::Stale | BlockCause::Outside | BlockCause::Crosses | BlockCause::Full => {
            "responses.floor"
        }
    }
}

fn refused_rule(side: Side) -> &'static str
    ensures { result.now ≡ refused_rule side }
{
    by_side(side, "answers.refused", "responses.refused")
}

fn unanswered_rule(side: Side, verdict: &AccessVerdict) -> &'static str
    ensures { result.now ≡ unanswered_rule side verdict.now }
{
    match verdict {
        AccessVerdict::Empty { .. } => by_side(side, "answers.empty", "responses.empty"),
        AccessVerdict::Dropped { cause, .. } => {
            by_side(side, host_dropped_rule(*cause), device_dropped_rule(*cause))
        }
        AccessVerdict::Mmio { .. } => refused_rule(side),
    }
}

fn refreshed_rule(side: Side, verdict: &InterfaceVerdict) -> &'static str
    ensures { result.now ≡ refreshed_rule side verdict.now }
{
    match verdict {
        InterfaceVerdict::RefusedRefreshFirst { .. } => {
            by_side(side, "answers.refresh", "responses.refresh")
        }
        InterfaceVerdict::Locked { .. }
        | InterfaceVerdict::Reported { .. }
        | InterfaceVerdict::Started { .. }
        | InterfaceVerdict::Halted { .. }
        | InterfaceVerdict::Bound { .. }
        | InterfaceVerdict::Unbound { .. }
        | InterfaceVerdict::State { .. }
        | InterfaceVerdict::View { .. }
        | InterfaceVerdict::Written { .. }
        | InterfaceVerdict::Flr { .. }
        | InterfaceVerdict::Firmware { .. }
        | InterfaceVerdict::Memory { .. }
        | InterfaceVerdict::RefusedWrongState { .. }
        | InterfaceVerdict::RefusedNotReported => refused_rule(side),
    }
}

fn answer_rule(side: Side, verdict: &Verdict) -> &'static str
    ensures { result.now ≡ answer_rule side verdict.now }
{
    match verdict {
        Verdict::Nothing => by_side(side, "answers.link", "responses.link"),
        Verdict::Access { verdict } => unanswered_rule(side, verdict),
        Verdict::Interface { verdict } => refreshed_rule(side, verdict),
        Verdict::Sealed { .. } => by_side(side, "answers.sealed", "responses.sealed"),
        Verdict::Malformed { .. }
        | Verdict::Plain { .. }
        | Verdict::RefusedInsecure
        | Verdict::RefusedNoKey { .. }
        | Verdict::RefusedUnfinished
        | Verdict::RefusedWorn { .. }
        | Verdict::Unknown { .. }
        | Verdict::Insecure { .. }
        | Verdict::NotKeyed { .. }
        | Verdict::Fail { .. }
        | Verdict::Held { .. }
        | Verdict::Accepted { .. }
        | Verdict::Through { .. }
        | Verdict::Established { .. }
        | Verdict::Refreshed { .. }
        | Verdict::Stopped { .. }
        | Verdict::LostRequest { .. }
        | Verdict::LostReply { .. }
        | Verdict::RefusedNotIdle
        | Verdict::RefusedNotSecure { .. }
        | Verdict::RefusedPoolEmpty { .. }
        | Verdict::RefusedDevice { .. }
        | Verdict::RefusedBusy { .. }
        | Verdict::RefusedUnitOpen { .. }
        | Verdict::Packet { .. }
        | Verdict::Reset { .. }
        | Verdict::Status { .. } => refused_rule(side),
    }
}

fn access_rule(event: &AccessEvent, verdict: &Verdict) -> &'static str
    ensures { result.now ≡ access_rule event.now verdict.now }
{
    match event {
        AccessEvent::Answer { .. } => answer_rule(Side::Host, verdict),
        AccessEvent::Respond { .. } => answer_rule(Side::Device, verdict),
        AccessEvent::Mmio { .. } => "mmio.shown",
    }
}

fn unless_none(rule: &'static str, verdict: &Verdict) -> &'static str
    ensures { result.now ≡ unless_none rule.now verdict.now }
{
    if matches!(verdict, Verdict::Nothing) {
        "lines.none"
    } else {
        rule
    }
}

// The sub-stream of a fact that a TLP goes out.
fn class_of(fact: &Fact) -> Option<SubKind>
    ensures { result ≡ class_of_fact fact.now }
{
    match fact {
        Fact::Stream {
            fact: StreamFact::Sends { sub, .. },
        } => Some(*sub),
        _ => None,
    }
}

// Of the first of these facts.
fn class_of_first(facts: &[Fact]) -> Option<SubKind>
    ensures { result ≡ class_of_first facts.now }
{
    match facts {
        [] => None,
        [first, ..] => class_of(first),
    }
}

// Of the first fact behind that of how many TLPs wait.
fn class_of_second(facts: &[Fact]) -> Option<SubKind>
    ensures { result ≡ class_of_second facts.now }
{
    match facts {
        [] => None,
        [_, rest @ ..] => class_of_first(rest),
    }
}

/// The rule that answers an event, by the names of docs/RULES.md. The facts of a send or a forward say the TLP's
/// sub-stream.
pub fn rule(event: &Event, verdict: &Verdict, facts: &[Fact]) -> &'static str
    ensures { result.now ≡ rule_of event.now verdict.now facts.now }
{
    match event {
        Event::Establish { line, .. } => operation_rule(*line, "operations.establish", verdict),
        Event::Refresh { line, .. } => operation_rule(*line, "operations.refresh", verdict),
        Event::Stop { line, .. } => operation_rule(*line, "operations.begin", verdict),
        Event::Send { .. } => sending_rule(class_of_first(facts), verdict, "lines.none"),
        Event::Forward { .. } => sending_rule(class_of_second(facts), verdict, "hops.forward"),
        Event::Pass { .. } | Event::Alter { .. } | Event::Cut { .. } | Event::Arrive { .. } => {
            arriving_rule(verdict)
        }
        Event::Dump { .. } => unless_none("packets.shown", verdict),
        Event::Reset { .. } => unless_none("reset", verdict),
        Event::Status { .. } => unless_none("slots.status", verdict),
        Event::Interface { event } => interface_rule(event, verdict),
        Event::Access { event } => access_rule(event, verdict),
        Event::Absent => "lines.none",
    }
}

fn write_cause_rule(cause: BlockCause) -> &'static str
    ensures { result.now ≡ write_cause_rule cause }
{
    match cause {
        BlockCause::NotTrusted => "memory.trusted",
        BlockCause::NotRunning => "memory.running",
        BlockCause::WrongStream => "memory.stream",
        BlockCause::Stale => "memory.floor",
        BlockCause::Outside => "memory.region",
        BlockCause::Crosses | BlockCause::Moved => "memory.page",
        BlockCause::Full => "reads.full",
    }
}

fn read_cause_rule(cause: BlockCause) -> &'static str
    ensures { result.now ≡ read_cause_rule cause }
{
    match cause {
        BlockCause::Outside | BlockCause::Crosses => "reads.placed",
        BlockCause::Full => "reads.full",
        BlockCause::NotTrusted
        | BlockCause::NotRunning
        | BlockCause::WrongStream
        | BlockCause::Stale
        | BlockCause::Moved => "reads.granted",
    }
}

fn mmio_cause_rule(cause: BlockCause) -> &'static str
    ensures { result.now ≡ mmio_cause_rule cause }
{
    match cause {
        BlockCause::NotTrusted => "mmio.trusted",
        BlockCause::NotRunning => "mmio.running",
        BlockCause::WrongStream => "mmio.stream",
        BlockCause::Stale => "mmio.floor",
        BlockCause::Full => "reads.full",
        BlockCause::Crosses | BlockCause::Outside | BlockCause::Moved => "mmio.page",
    }
}

// A host's port: the near end of a link, or of a segment towards the host.
fn is_host_end(port: PortName) -> bool
    ensures { result ≡ is_host_end port }
{
    port.side == Side::Host && port.line < 16
}

// A write is posted, a read is not.
fn host_cause_rule(sub: SubKind, cause: BlockCause) -> &'static str
    ensures { result.now ≡ host_cause_rule sub cause }
{
    match sub {
        SubKind::Npr => read_cause_rule(cause),
        SubKind::Pr | SubKind::Cpl => write_cause_rule(cause),
    }
}

fn cause_rule(port: PortName, sub: SubKind, cause: BlockCause) -> &'static str
    ensures { result.now ≡ cause_rule port sub cause }
{
    if is_host_end(port) {
        host_cause_rule(sub, cause)
    } else {
        mmio_cause_rule(cause)
    }
}

/// The rule of the effect of a packet of a unit that an end accepted in a sub-stream.
pub fn effect_rule(port: PortName, sub: SubKind, effect: Effect) -> &'static str
    ensures { result.now ≡ effect_rule_of port sub effect }
{
    match effect {
        Effect::Applied => "memory.bytes",
        Effect::Queued => "reads.queued",
        Effect::Stored => "mmio.bytes",
        Effect::Waiting => "hops.waiting",
        Effect::Blocked(cause) => cause_rule(port, sub, cause),
        Effect::Sync | Effect::Delivered => "arriving.effects",
    }
}
