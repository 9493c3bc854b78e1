//! The portions of a report.

ghost use Rattle.std.specs.Prelude.{◌≡◌, ◌+◌, ◌≤◌, ◌++◌, [], IfOk, length};
ghost use Rattle.interface_host.specs.Steps.{exchange_number};
ghost use Rattle.interface_host.specs.Judging.{answer_shown, HasRoom};
ghost use Rattle.interface_host.specs.Managers.{report_after_reply};

use crate::judge::Answer;
use crate::step::Step;
use ide_types::OutOfMemory;
use std::alloc::Global;
use std::marker::Model;

/// The most bytes of a report (this profile).
pub(crate) const REPORT_BYTES: usize = 1_140;

/// What was read of a report, portion by portion; it has room for the whole of it from the start.
#[derive(Drop)]
pub(crate) struct Portions {
    bytes: Vec<u8>,
    count: u32,
}

impl Model for Portions {
    ghost use Rattle.std.specs.Prelude.{◌≤◌, length, vec_capacity};
    ghost use Rattle.interface_host.specs.Steps.{Read};

    ghost Value = { Read };

    ghost view = { λ p. record { bytes = p.bytes.items; portions = p.count } };

    ghost invariant = { λ p. (1140 ≤ vec_capacity p.bytes) × (length p.bytes.items ≤ 1140)
        × (p.count ≤ length p.bytes.items) };
}

impl Portions {
    /// Nothing, with room for a report.
    pub(crate) fn make(alloc: Global) -> Result<Portions, OutOfMemory>
        ensures { IfOk result (λ p. p ≡ record { bytes = []; portions = 0 }) }
    {
        let bytes = Vec::with_capacity(alloc, REPORT_BYTES)?;
        Ok(Portions { bytes, count: 0 })
    }

    /// Nothing is read.
    pub(crate) fn clear(&mut self)
        ensures { self.new ≡ record { bytes = []; portions = 0 } }
    {
        self.bytes.clear();
        self.count = 0;
    }

    /// How many bytes were read.
    pub(crate) fn len(&self) -> usize
        ensures value { result ≡ length self.now.bytes }
        ensures short { result ≤ 1140 }
    {
        self.bytes.len()
    }

    /// The bytes, lent.
    pub(crate) fn as_slice(&self) -> &[u8]
        ensures value { result.now ≡ self.now.bytes }
        ensures short { length result.now ≤ 1140 }
    {
        &self.bytes
    }

    // One portion more.
    fn append(&mut self, portion: &[u8])
        requires some { 1 ≤ length portion.now }
        requires room { length self.old.bytes + length portion.now ≤ 1140 }
        ensures { self.new ≡ record {
          bytes = self.old.bytes ++ portion.now;
          portions = self.old.portions + 1;
        } }
    {
        let _ = self.bytes.extend_from_slice(portion);
        self.count += 1;
    }

    /// Takes a portion, if it is one; there is room for it. It takes no memory.
    pub(crate) fn take(&mut self, answer: Answer)
        requires { HasRoom (length self.old.bytes) (answer_shown answer) }
        ensures { self.new ≡ report_after_reply (answer_shown answer.entry) self.old }
    {
        match answer {
            Answer::Portion { bytes, .. } => self.append(bytes),
            _ => {}
        }
    }

    /// The number of an exchange, from 1.
    pub(crate) fn exchange(&self, step: Step) -> u32
        ensures { result ≡ exchange_number step self.now }
    {
        match step {
            Step::Version => 1,
            Step::Capabilities => 2,
            Step::Lock => 3,
            Step::Report => self.count + 1,
            Step::Start | Step::Halt | Step::State | Step::Bind(_) | Step::Unbind(_) => 1,
        }
    }
}
