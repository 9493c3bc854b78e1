//! The order of reads, and of TLPs that wait at switches.

ghost use Rattle.law_reads.specs.Order.{ReadsInOrder};
ghost use Rattle.law_reads.specs.Waiting.{WaitingFollows};

/// In every history in which each verdict is the one that is due: what answers took of a link's reads since its last
/// reset are the first of those that were queued there since then, and no more than 64 wait.
pub fn reads_in_order()
    ensures { ReadsInOrder }
{}

/// Each pair of such a history changes what waits at a switch by one step: a unit that was accepted at the entering end
/// adds its TLPs behind, a forward that sealed takes the first, a reset of the hop takes all, and no other pair changes
/// it.
pub fn waiting_follows()
    ensures { WaitingFollows }
{}
