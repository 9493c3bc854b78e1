//! The machine stands for the whole history.

ghost use Rattle.machine_ports.specs.Stands.{FirstStands, StepStands};
ghost use Rattle.machine_operations.specs.Cases.{WorkedCases};
ghost use Rattle.machine_operations.specs.Points.{PointsStand};
ghost use Rattle.machine_operations.specs.Operations.{OperationStands, OperationSteps};

/// The state before the first event stands for the empty history.
pub fn first_stands()
    ensures { FirstStands }
{}

/// If a state stands for a history, the machine answers each event with the verdict that is due, and the state after it
/// stands for the history with that pair.
pub fn step_stands()
    ensures { StepStands }
{}

/// If a state stands for a history, a slot holds the key of a draw exactly if the draw is kept there. A stream of which
/// no operation was asked has no key in any slot, and an unfinished operation has made its draw On at the places that
/// its GO reached.
pub fn points_stand()
    ensures { PointsStand }
{}

/// If an operation's pair touches the keys of a stream at a port, and each touch is allowed, the same touches of the
/// slots leave what stands for the history with that pair.
pub fn operation_stands()
    ensures { OperationStands }
{}

/// If a state stands for a history, the state after an operation on one stream stands for the history with its pair:
/// slots change at both ports, and nothing else does.
pub fn operation_steps()
    ensures { OperationSteps }
{}

/// Operations among sends, losses, refusals and a reset give the verdicts that were worked out by hand.
pub fn worked_cases()
    ensures { WorkedCases }
{}
