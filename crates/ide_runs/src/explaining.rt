//! Events of a script that are run, each with what its verdict came from.

ghost use Rattle.std.specs.Prelude.{◌≡◌, ◌<◌, ◌+◌, ◌^◌, IfOk, OnOk};
ghost use Rattle.script_events.specs.Spells.{IsAllowed, IsAllowedInScript};
ghost use Rattle.history_events.specs.{event_of as event_in};
ghost use Rattle.ide_runs.specs.Explaining.{IsExplainedEvent};
ghost use Rattle.script_runs.specs.Works.{Follows, IsEarly, ScriptPast};

use history_events::{event_of, events_are_allowed};
use ide_types::{Bytes, OutOfMemory};
use ide_why::{facts, why_text};
use script_events::{Event, ScriptEvent};
use script_runs::ScriptWork;
use std::alloc::Global;

/// The line of the verdict of an event, and what the verdict came from: the rule that answers, and facts of the state
/// before the event, one a line (this profile).
#[derive(Drop)]
pub struct Explained {
    pub line: Bytes,
    pub reasons: Bytes,
}

// Runs an event of a history. What its verdict comes from is looked up before it is run.
fn explain_event(
    alloc: Global,
    work: &mut ScriptWork,
    event: &Event,
    number: u64,
) -> Result<Explained, OutOfMemory>
    requires number { number < 2 ^ 26 }
    requires early { IsEarly work.old number }
    requires allowed { IsAllowed event.now }
    ensures came { (past : ScriptPast) → Follows work.old past → IfOk result
        (IsExplainedEvent past event.now work.new) }
    ensures early { OnOk result (IsEarly work.new (number + 1)) }
{
    let facts = facts(alloc, work.world(), event)?;
    let verdict = work.step(event, number)?;
    let reasons = why_text(alloc, event, &verdict, &facts)?;
    let line = work.verdict_line(alloc, verdict)?;
    Ok(Explained {
        line: Bytes::new(line),
        reasons: Bytes::new(reasons),
    })
}

/// The line of the verdict of an event of a script that is run next, and what the verdict came from.
pub fn explain_script_event(
    alloc: Global,
    work: &mut ScriptWork,
    event: ScriptEvent,
    number: u64,
) -> Result<Explained, OutOfMemory>
    requires number { number < 2 ^ 26 }
    requires early { IsEarly work.old number }
    requires allowed { IsAllowedInScript event }
    ensures came { (past : ScriptPast) → Follows work.old past → IfOk result
        (IsExplainedEvent past (event_in past.plan event) work.new) }
    ensures early { OnOk result (IsEarly work.new (number + 1)) }
{
    events_are_allowed();
    let event = event_of(work.plan(), event);
    explain_event(alloc, work, &event, number)
}
