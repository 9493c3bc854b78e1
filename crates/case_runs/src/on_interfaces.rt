//! Cases of device interfaces, whose verdicts were worked out by hand.

ghost use Rattle.case_runs.specs.InterfaceCases.{InterfaceCases};

/// Each of these events has the verdict that was worked out by hand.
pub fn interface_cases()
    ensures { InterfaceCases }
{}
