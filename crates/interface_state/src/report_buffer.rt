//! The buffer of a report.

ghost use Rattle.std.specs.Prelude.{◌≡◌, ◌+◌, ◌≤◌, List, ℕ, [], IfOk, length};
ghost use Rattle.tdisp_codec.specs.Reports.{report_shown, report_spelling};

use ide_types::OutOfMemory;
use std::alloc::Global;
use std::marker::Model;
use tdisp_codec::{ReportView, report_write};

/// The most bytes of a report in this profile: 20, 16 for each of six ranges, and 1,024 of the device's own
/// information.
pub const REPORT_BYTES: usize = 1_140;

/// The bytes of the last report that was written into it, for which there is room from the start.
#[derive(Drop)]
pub(crate) struct ReportBuffer {
    bytes: Vec<u8>,
}

impl Model for ReportBuffer {
    ghost use Rattle.std.specs.Prelude.{◌≤◌, List, ℕ, vec_capacity};

    ghost Value = { List ℕ };

    ghost view = { λ b. b.bytes.items };

    ghost invariant = { λ b. 1140 ≤ vec_capacity b.bytes };
}

impl ReportBuffer {
    /// A buffer without a report.
    pub(crate) fn make(alloc: Global) -> Result<ReportBuffer, OutOfMemory>
        ensures { IfOk result (λ buffer. buffer ≡ []) }
    {
        let bytes = Vec::with_capacity(alloc, REPORT_BYTES)?;
        Ok(ReportBuffer { bytes })
    }

    /// Writes a report in the place of the one before. It takes no memory.
    pub(crate) fn write(&mut self, report: &ReportView<'_>)
        requires { 20 + length report.now.ranges.bytes.now + length report.now.device.now ≤ REPORT_BYTES }
        ensures { self.new ≡ report_spelling (report_shown report.now) }
    {
        self.bytes.clear();
        report_write(report, &mut self.bytes);
    }

    /// The bytes of the report, lent.
    pub(crate) fn as_slice(&self) -> &[u8]
        ensures { result.now ≡ self.now }
    {
        &self.bytes
    }
}
