//! Facts of a stream at a port.

ghost use Rattle.std.specs.Prelude.{◌≡◌, ◌∷◌, ◌++◌, [], IfOk};
ghost use Rattle.why_facts.specs.Forms.{counts_facts, posted_fact, facts_of_sets, state_fact, total_facts};
ghost use Rattle.why_facts.specs.Streams.{completion_seen, is_live_seen, receiver_seen, sender_seen, senders_seen};
ghost use Rattle.why_facts.specs.Streams.{set_seen, sets_seen, state_seen};

use ide_types::{OutOfMemory, StreamStatus, SubKind};
use sub_stream::{SetFacts, SlotFacts, StreamFacts};
use told_facts::{Fact, SetState, StreamFact, push};

// What a key set holds.
fn set_state(slot: SlotFacts) -> SetState
    ensures { result ≡ state_seen slot }
{
    match slot {
        SlotFacts::Empty => SetState::Empty,
        SlotFacts::Programmed { draw } => SetState::Kept { draw },
        SlotFacts::Armed { draw } => SetState::Waits { draw },
        SlotFacts::Live {
            draw,
            units,
            packets,
        } => SetState::On {
            draw,
            units,
            packets: u64::from(packets),
        },
    }
}

fn set_fact(set: bool, slot: SlotFacts) -> Fact
    ensures { result ≡ Fact.Stream (StreamFact.Set set (state_seen slot)) }
{
    Fact::Stream {
        fact: StreamFact::Set {
            set,
            state: set_state(slot),
        },
    }
}

/// Appends what both key sets hold.
pub fn push_sets(facts: &mut Vec<Fact>, sets: SetFacts) -> Result<(), OutOfMemory>
    ensures { IfOk result (λ _. facts.new.items ≡ facts.old.items ++ sets_seen sets) }
{
    push(facts, set_fact(false, sets.zero))?;
    push(facts, set_fact(true, sets.one))
}

/// Whether a key set has a Live key.
pub fn is_live(sets: SetFacts, k: bool) -> bool
    ensures { result ≡ is_live_seen (set_seen k sets) }
{
    matches!(if k { sets.one } else { sets.zero }, SlotFacts::Live { .. })
}

/// Appends the stream's status.
pub fn push_status(facts: &mut Vec<Fact>, status: StreamStatus) -> Result<(), OutOfMemory>
    ensures { IfOk result (λ _. facts.new.items ≡ facts.old.items ++ state_fact status ∷ []) }
{
    push(
        facts,
        Fact::Stream {
            fact: StreamFact::State { status },
        },
    )
}

// Appends the posted counts, if the sub-stream has any.
fn push_counts(
    facts: &mut Vec<Fact>,
    sub: SubKind,
    sum: u64,
    posted: u64,
) -> Result<(), OutOfMemory>
    ensures { IfOk result (λ _. facts.new.items ≡ facts.old.items ++ counts_facts sub sum posted) }
{
    match sub {
        SubKind::Pr => Ok(()),
        SubKind::Npr | SubKind::Cpl => push(
            facts,
            Fact::Stream {
                fact: StreamFact::Counts { sum, posted },
            },
        ),
    }
}

// Appends the total of a closed stream.
fn push_total(facts: &mut Vec<Fact>, closed: bool, units: u64) -> Result<(), OutOfMemory>
    ensures { IfOk result (λ _. facts.new.items ≡ facts.old.items ++ total_facts closed units) }
{
    if closed {
        push(
            facts,
            Fact::Stream {
                fact: StreamFact::Total { units },
            },
        )
    } else {
        Ok(())
    }
}

/// Appends what a receiver keeps.
pub fn push_receiver(
    facts: &mut Vec<Fact>,
    seen: &StreamFacts,
    sub: SubKind,
) -> Result<(), OutOfMemory>
    ensures { IfOk result (λ _. facts.new.items ≡ facts.old.items ++ receiver_seen seen.now sub) }
{
    let receiver = seen.at(sub).receiver;
    push_sets(facts, receiver.sets)?;
    push_counts(facts, sub, receiver.sum, seen.pr.receiver.got)?;
    push_total(facts, seen.closed, receiver.total)
}

// Appends what a sender keeps.
fn push_sender(facts: &mut Vec<Fact>, seen: &StreamFacts, sub: SubKind) -> Result<(), OutOfMemory>
    ensures { IfOk result (λ _. facts.new.items ≡ facts.old.items ++ sender_seen seen.now sub) }
{
    let sender = seen.at(sub).sender;
    let posted = u64::from(sender.posted);
    push(
        facts,
        Fact::Stream {
            fact: StreamFact::Posted { sub, posted },
        },
    )?;
    push_sets(facts, sender.sets)?;
    push_total(facts, seen.closed, sender.total)
}

/// Appends the stream's status and what the senders keep that the rules of sealing a TLP of a sub-stream look at.
pub fn push_senders(
    facts: &mut Vec<Fact>,
    seen: &StreamFacts,
    class: SubKind,
) -> Result<(), OutOfMemory>
    ensures { IfOk result (λ _. facts.new.items ≡ facts.old.items ++ senders_seen seen.now class) }
{
    push_status(facts, seen.status)?;
    push_sender(facts, seen, class)?;
    match class {
        SubKind::Pr => {
            push_sender(facts, seen, SubKind::Npr)?;
            push_sender(facts, seen, SubKind::Cpl)
        }
        SubKind::Npr | SubKind::Cpl => push_sender(facts, seen, SubKind::Pr),
    }
}

/// Appends the stream's status and what the sender of completions keeps.
pub fn push_completion(facts: &mut Vec<Fact>, seen: &StreamFacts) -> Result<(), OutOfMemory>
    ensures { IfOk result (λ _. facts.new.items ≡ facts.old.items ++ completion_seen seen.now) }
{
    push_status(facts, seen.status)?;
    push_sender(facts, seen, SubKind::Cpl)
}
