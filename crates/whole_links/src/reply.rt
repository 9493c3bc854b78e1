//! What an answer to the oldest read that waits at a port comes to beside the ports.

ghost use Rattle.std.specs.Prelude.{◌≡◌, ◌<◌, ◌≤◌, ◌+◌, ◌++◌, ◌^◌, ℕ, List, [], Some, IfOk, true, vec_len, vec_capacity};
ghost use Rattle.ide_types.specs.Ports.{host_port};
ghost use Rattle.tlp_layout.specs.Choice.{choice_of_stream, chosen_stream};
ghost use Rattle.tlp_layout.specs.Reading.{IsTlpWithHead};
ghost use Rattle.trusted_memory.specs.{FitsRead};
ghost use Rattle.guarded_memory.specs.{claimed_byte, holds_span, least_draw, mmio_byte};
ghost use Rattle.trusted_memory.specs.{completion_bytes};
ghost use Rattle.whole_links.specs.Besides.{bound_completion, claimed_completion, completion_of_reply, draw_below};
ghost use Rattle.whole_links.specs.Besides.{judged_bound, small_number};

use crate::verdicts::dropped;
use event_verdicts::{Verdict, binding_cause};
use guarded_memory::{Claim, ClaimedMemory, Guarded, least_draw};
use ide_port::stream_id;
use ide_types::{Binding, PortName, Side};
use tlp_layout::{ChosenStream, HeadView};
use trusted_memory::{WaitingRead, complete};

/// What the completion of a read is to be sealed by (this profile).
#[derive(Clone, Copy)]
pub struct Reply {
    /// The end that seals it.
    pub end: PortName,
    /// The ID of the stream that it goes out on there.
    pub stream: u8,
    /// Its T.
    pub trusted: bool,
    /// The least draw that it may be sealed under.
    pub floor: u32,
    /// The header that it was written with.
    pub head: HeadView,
}

/// The reply at a link's host to a read of an interface that is bound so, if its completion, which was written with this
/// header and takes this stream, takes the bound one, and if its read came under a draw from the floor on; else the
/// verdict that drops the read.
pub fn judged(
    link: u8,
    stream: Option<ChosenStream>,
    head: HeadView,
    interface: u8,
    draw: u32,
    binding: Binding,
) -> Result<Reply, Verdict>
    ensures reply { (bytes : List ℕ) → completion_of_reply result bytes ≡ bound_completion (host_port link) bytes
        (judged_bound (chosen_stream (choice_of_stream stream)) interface draw (Some binding)) }
    ensures head { IfOk result (λ x. x.head ≡ head) }
{
    match binding_cause(binding, stream_id(stream), draw) {
        Some(cause) => Err(dropped(interface, cause)),
        None => Ok(Reply {
            end: PortName {
                side: Side::Host,
                line: link,
            },
            stream: binding.stream,
            trusted: true,
            floor: binding.floor,
            head,
        }),
    }
}

/// Appends the completion that an interface with this requester ID makes of a read under the claim that stands, from
/// this memory, and gives the reply: at the end and on the stream that the read came on, with its T.
pub fn responded(
    memory: &Guarded,
    claim: &Claim,
    completer: u16,
    waiting: &WaitingRead,
    bytes: &mut Vec<u8>,
) -> Reply
    requires holds { holds_span claim.now.range waiting.now.read.span ≡ true }
    requires fits { FitsRead waiting.now.read }
    requires room { vec_len bytes.old + 4108 ≤ vec_capacity bytes.old }
    ensures bytes { bytes.new.items ≡ bytes.old.items ++ completion_bytes completer
        (claimed_byte (mmio_byte memory.now) claim.now) waiting.now.read }
    ensures reply { result ≡ record {
      end = waiting.now.came.end;
      stream = waiting.now.came.stream;
      trusted = waiting.now.came.trusted;
      floor = least_draw claim.now waiting.now.came;
      head = result.head;
    } }
    ensures made { bytes.old.items ≡ [] → IsTlpWithHead result.head bytes.new.items }
{
    let came = waiting.came;
    let head = complete(
        &ClaimedMemory { memory, claim },
        completer,
        &waiting.read,
        bytes,
    );
    Reply {
        end: came.end,
        stream: came.stream,
        trusted: came.trusted,
        floor: least_draw(claim, came),
        head,
    }
}

/// The draw, if it is less than the floor.
pub fn draw_below(draw: Option<u32>, floor: u32) -> Option<u32>
    ensures { result ≡ draw_below draw floor }
{
    match draw {
        None => None,
        Some(draw) => { if draw < floor { Some(draw) } else { None } }
    }
}

/// The number of an interface, if it has room in 8 bits.
pub fn small_number(number: usize) -> Option<u8>
    ensures { result ≡ small_number number }
{
    if number <= 255 {
        Some(number as u8)
    } else {
        None
    }
}
