//! Cases of hops, whose verdicts were worked out by hand.

ghost use Rattle.case_runs.specs.HopCases.{HopCases};

/// Each of these events has the verdict that was worked out by hand.
pub fn hop_cases()
    ensures { HopCases }
{}
