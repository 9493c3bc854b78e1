//! What a line of a script, or a packet, gives.

ghost use Rattle.std.specs.Prelude.{◌≡◌, ◌<◌, ◌+◌, ◌^◌, ◌∷◌, ◌++◌, IfOk, OnOk, Some, []};
ghost use Rattle.hex.specs.Hex.{encode_lower};
ghost use Rattle.script_events.specs.Spells.{IsAllowedInScript};
ghost use Rattle.script_runs.specs.Works.{IsEarly};
ghost use Rattle.ide_session.specs.Sessions.{MeaningGave, MeaningTold, kept_if};

use ide_runs::explain_script_event;
use ide_types::{Bytes, OutOfMemory};
use script_events::ScriptEvent;
use script_runs::ScriptWork;
use std::alloc::Global;

/// What a line gave: its text, and what its verdict came from, if that is kept.
#[derive(Drop)]
pub struct Given {
    pub(crate) text: Bytes,
    pub(crate) reasons: Option<Bytes>,
}

/// The hex digits of bytes, and a line feed.
pub(crate) fn hex_line(alloc: Global, bytes: &[u8]) -> Result<Vec<u8>, OutOfMemory>
    ensures { IfOk result (λ line. line.items ≡ encode_lower bytes.now ++ 10 ∷ []) }
{
    let mut line = hex::encode(alloc, bytes)?.into_bytes();
    line.push(b'\n')?;
    Ok(line)
}

/// What a line gives that asks for no event.
pub(crate) fn no_event(alloc: Global, explains: bool) -> Given
    ensures text { result.text ≡ [] }
    ensures reasons { result.reasons ≡ kept_if explains [] }
{
    Given {
        text: Bytes::new(Vec::new(alloc)),
        reasons: if explains {
            Some(Bytes::new(Vec::new(alloc)))
        } else {
            None
        },
    }
}

/// What an event gives.
pub(crate) fn event_given(
    alloc: Global,
    work: &mut ScriptWork,
    event: ScriptEvent,
    number: u64,
    explains: bool,
) -> Result<Given, OutOfMemory>
    requires number { number < 2 ^ 26 }
    requires early { IsEarly work.old number }
    requires allowed { IsAllowedInScript event }
    ensures gave { IfOk result (λ given. MeaningGave work.old (Some event) work.new given.text) }
    ensures told { IfOk result (λ given. MeaningTold work.old explains (Some event) given.reasons) }
    ensures early { OnOk result (IsEarly work.new (number + 1)) }
{
    if explains {
        let explained = explain_script_event(alloc, work, event, number)?;
        return Ok(Given {
            text: explained.line,
            reasons: Some(explained.reasons),
        });
    }
    match work.run_script_event(event, number) {
        Err(_) => Err(OutOfMemory),
        Ok(text) => Ok(Given {
            text,
            reasons: None,
        }),
    }
}
