//! Both ends of a line that is keyed by messages at both.

ghost use Rattle.std.specs.Prelude.{◌≡◌, ◌+◌, ◌≤◌, ◌++◌, IfOk, All, vec_len, vec_capacity};
ghost use Rattle.ide_types.specs.Fits.{FitsStream};

use crate::end::LineEnd;
use ide_port::Port;
use ide_types::{OutOfMemory, PortName, Side, StreamPlan};
use std::alloc::Global;

/// The two ends of a line that is keyed by messages at both (this profile).
#[derive(Drop)]
pub struct PairEnds {
    pub near: LineEnd,
    pub far: LineEnd,
}

impl PairEnds {
    ghost use Rattle.link_ends.specs.LineEnds.{new_pair, line_end_in, with_end, answered_end, end_reply, reset_pair};

    /// The ends of a line with this stream, without keys; a key seals at most `limit` units. Returns `OutOfMemory` for
    /// want of memory.
    pub fn make(
        alloc: Global,
        line: u8,
        plans: &[StreamPlan],
        limit: u64,
    ) -> Result<PairEnds, OutOfMemory>
        requires { All FitsStream plans.now }
        ensures { IfOk result (λ l. l ≡ new_pair line plans.now limit) }
    {
        let near = PortName {
            side: Side::Host,
            line,
        };
        let far = PortName {
            side: Side::Device,
            line,
        };
        let near = Port::make(alloc, near, plans, limit)?;
        let far = Port::make(alloc, far, plans, limit)?;
        Ok(PairEnds {
            near: LineEnd {
                side: Side::Host,
                port: near,
            },
            far: LineEnd {
                side: Side::Device,
                port: far,
            },
        })
    }

    /// The end of a side, lent.
    pub fn end(&self, side: Side) -> &LineEnd
        ensures { result.now ≡ line_end_in side self.now }
    {
        match side {
            Side::Host => &self.near,
            Side::Device => &self.far,
        }
    }

    /// Answers a message of key management to the end of a side, and appends the reply, or nothing. `draw` is the
    /// number under which a KEY_PROG's key is kept. `reply` has 8 bytes of room.
    pub fn answer(&mut self, side: Side, request: &[u8], draw: u32, reply: &mut Vec<u8>)
        requires { vec_len reply.old + 8 ≤ vec_capacity reply.old }
        ensures ends { self.new ≡ with_end side (answered_end (line_end_in side self.old) request.now draw) self.old }
        ensures reply { reply.new.items ≡ reply.old.items ++ end_reply (line_end_in side self.old) request.now draw }
        ensures capacity { vec_capacity reply.old ≤ vec_capacity reply.new }
    {
        match side {
            Side::Host => self.near.answer(request, draw, reply),
            Side::Device => self.far.answer(request, draw, reply),
        }
    }

    /// Resets the end of a side: drops all keys, open units, held packets, counts and failures there.
    pub fn reset(&mut self, side: Side)
        ensures { self.new ≡ reset_pair side self.old }
    {
        match side {
            Side::Host => self.near.port.reset(),
            Side::Device => self.far.port.reset(),
        }
    }
}
