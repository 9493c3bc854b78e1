//! Memory reads at a device's port.

ghost use Rattle.std.specs.Prelude.{◌≡◌, IfOk, Some, length};
ghost use Rattle.std.specs.Option.{option_map};
ghost use Rattle.trusted_memory.specs.Requests.{FitsRead};
ghost use Rattle.trusted_memory.specs.Waiting.{waiting_after};
ghost use Rattle.guarded_memory.specs.DeviceReads.{claimed_read_effect, claimed_target, judged_claim, least_draw};

use crate::causes::access_cause;
use crate::{Claim, mmio_cause};
use event_verdicts::{BlockCause, Effect};
use trusted_memory::{MemReadView, ReadArrival, ReadTarget, Reads, WaitingRead};

// What is read under a claim.
fn target_of(claim: &Claim) -> ReadTarget
    ensures { result ≡ claimed_target claim.now }
{
    ReadTarget {
        interface: claim.interface,
        bar: claim.bar,
    }
}

// Offers a read that is claimed so.
fn offer_claimed(reads: &mut Reads, claim: &Claim, read: &MemReadView, came: ReadArrival) -> Effect
    requires { FitsRead read.now }
    ensures effect { result ≡ claimed_read_effect (Some claim.now) read.now.span came.trusted came.stream came.draw
        (length reads.old) }
    ensures reads { reads.new ≡ waiting_after result
        (record { read = read.now; came = came; target = Some (claimed_target claim.now) }) reads.old }
{
    if !claim.status.reads {
        return Effect::Delivered;
    }
    match mmio_cause(claim, read.span, came.trusted, came.stream, came.draw) {
        Some(cause) => Effect::Blocked(cause),
        None => reads.push(WaitingRead {
            read: *read,
            came,
            target: Some(target_of(claim)),
        }),
    }
}

/// Offers a memory read that a device's port accepted, by what claims its bytes: if nothing does, or the device answers
/// no reads of the interface, it is delivered; else it waits as the last, or is blocked by the first cause that holds.
/// The causes are those of a write to the same bytes (`mmio_cause`), and then that 64 reads wait (this profile). A read
/// that does not wait changes nothing. That the fields of the read are in range is the caller's condition. It takes no
/// memory.
pub fn offer_read(
    reads: &mut Reads,
    claim: &Option<Claim>,
    read: &MemReadView,
    came: ReadArrival,
) -> Effect
    requires { FitsRead read.now }
    ensures effect { result ≡ claimed_read_effect claim.now read.now.span came.trusted came.stream came.draw
        (length reads.old) }
    ensures reads { reads.new ≡ waiting_after result
        (record { read = read.now; came = came; target = option_map claimed_target claim.now }) reads.old }
{
    match claim {
        None => Effect::Delivered,
        Some(claim) => offer_claimed(reads, claim, read, came),
    }
}

/// The claim under which a read is answered that was queued of this target and came so, by what claims its bytes now;
/// or why it is dropped: that interface and BAR claim them no more, or what would now block a write to the same bytes
/// for its T, its stream and its draw (this profile).
pub fn judge_read(
    claim: Option<Claim>,
    target: ReadTarget,
    came: ReadArrival,
) -> Result<Claim, BlockCause>
    ensures judged { result ≡ judged_claim claim target came }
    ensures same { IfOk result (λ c. claim ≡ Some c) }
{
    match claim {
        None => Err(BlockCause::Moved),
        Some(claim) => judge_claimed(claim, target, came),
    }
}

fn judge_claimed(claim: Claim, target: ReadTarget, came: ReadArrival) -> Result<Claim, BlockCause>
    ensures judged { result ≡ judged_claim (Some claim) target came }
    ensures same { IfOk result (λ c. claim ≡ c) }
{
    if target_of(&claim) != target {
        return Err(BlockCause::Moved);
    }
    match access_cause(&claim, came.trusted, came.stream, came.draw) {
        Some(cause) => Err(cause),
        None => Ok(claim),
    }
}

/// The least draw that the completion of a read may be sealed under which came so and is answered under this claim: of
/// a read with T the interface's floor on its stream (this profile).
pub fn least_draw(claim: &Claim, came: ReadArrival) -> u32
    ensures { result ≡ least_draw claim.now came }
{
    if came.trusted {
        claim.status.bound.floor_on(came.stream).unwrap_or(0)
    } else {
        0
    }
}
