//! What the definitions of messages and reports imply.

ghost use Rattle.std.specs.Prelude.{◌≡◌, ◌<◌, ◌↔◌, ℕ, List, Ok, Err, All};
ghost use Rattle.std.specs.List.{flat_map};
ghost use Rattle.tdisp_codec.specs.declared.fault.TdispFault.{TdispFault};
ghost use Rattle.tdisp_codec.specs.declared.request.RequestView.{RequestView};
ghost use Rattle.tdisp_codec.specs.declared.report.ReportRange.{ReportRange};
ghost use Rattle.tdisp_codec.specs.Messages.{message_fault_at_place, IsFirstFault};
ghost use Rattle.tdisp_codec.specs.Requests.{FitsRequest, SpellsRequest, request_spelling, request_reading};
ghost use Rattle.tdisp_codec.specs.Replies.{Reply, FitsReply, SpellsReply, reply_spelling, reply_reading};
ghost use Rattle.tdisp_codec.specs.Ranges.{range_bytes, FitsRange, ranges_in};
ghost use Rattle.tdisp_codec.specs.Reports.{Report, FitsReport, SpellsReport, report_spelling, report_reading};
ghost use Rattle.tdisp_codec.specs.Reports.{report_fault_at};

/// `request_reading` reads exactly the bytes that spell a request, as that request, whatever the reserved bytes hold,
/// and refuses all others at the first byte with which no spelling goes on, or at their end if they end too early.
pub fn request_is_grammar()
    ensures reads { (request : RequestView) (bytes : List ℕ) → All (λ b. b < 256) bytes
        → (SpellsRequest request bytes) ↔ (request_reading bytes ≡ Ok request) }
    ensures refuses { (bytes : List ℕ) (fault : TdispFault) → All (λ b. b < 256) bytes
        → (IsFirstFault SpellsRequest message_fault_at_place bytes fault) ↔ (request_reading bytes ≡ Err fault) }
{}

/// What is written spells the request, and is read as it.
pub fn request_read_again()
    ensures spells { (request : RequestView) → FitsRequest request → SpellsRequest request (request_spelling request) }
    ensures reads { (request : RequestView) → FitsRequest request → request_reading (request_spelling request)
        ≡ Ok request }
{}

/// `reply_reading` reads exactly the bytes that spell a reply, as that reply, whatever the reserved bytes hold, and
/// refuses all others at the first byte with which no spelling goes on, or at their end if they end too early.
pub fn reply_is_grammar()
    ensures reads { (reply : Reply) (bytes : List ℕ) → All (λ b. b < 256) bytes
        → (SpellsReply reply bytes) ↔ (reply_reading bytes ≡ Ok reply) }
    ensures refuses { (bytes : List ℕ) (fault : TdispFault) → All (λ b. b < 256) bytes
        → (IsFirstFault SpellsReply message_fault_at_place bytes fault) ↔ (reply_reading bytes ≡ Err fault) }
{}

/// What is written spells the reply, and is read as it.
pub fn reply_read_again()
    ensures spells { (reply : Reply) → FitsReply reply → SpellsReply reply (reply_spelling reply) }
    ensures reads { (reply : Reply) → FitsReply reply → reply_reading (reply_spelling reply) ≡ Ok reply }
{}

/// `report_reading` reads exactly the bytes that spell a report, as that report, whatever the reserved bytes hold, and
/// refuses all others at their end if they end too early, or at the first byte after the report.
pub fn report_is_grammar()
    ensures reads { (report : Report) (bytes : List ℕ) → All (λ b. b < 256) bytes
        → (SpellsReport report bytes) ↔ (report_reading bytes ≡ Ok report) }
    ensures refuses { (bytes : List ℕ) (fault : TdispFault) → All (λ b. b < 256) bytes
        → (IsFirstFault SpellsReport report_fault_at bytes fault) ↔ (report_reading bytes ≡ Err fault) }
{}

/// What is written spells the report, and is read as it.
pub fn report_read_again()
    ensures spells { (report : Report) → FitsReport report → SpellsReport report (report_spelling report) }
    ensures reads { (report : Report) → FitsReport report → report_reading (report_spelling report) ≡ Ok report }
{}

/// The bytes of ranges are read as those ranges.
pub fn ranges_again()
    ensures { (ranges : List ReportRange) → All FitsRange ranges → ranges_in (flat_map range_bytes ranges) ≡ ranges }
{}
