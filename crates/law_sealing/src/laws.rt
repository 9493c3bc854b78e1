//! Laws of what is sealed.

ghost use Rattle.law_sealing.specs.Statements.{NumbersFreshHolds, TotalsFitHolds};

/// In a history of at most 2 to the 32 events no total passes 8 bytes.
pub fn totals_fit()
    ensures { TotalsFitHolds }
{}

/// No key is used twice with one IV (SP 800-38D section 8): packets that have both are of one unit, and the
/// number of a packet's unit is one more than the units that were finished before it in its sub-stream and draw.
pub fn numbers_fresh()
    ensures { NumbersFreshHolds }
{}
