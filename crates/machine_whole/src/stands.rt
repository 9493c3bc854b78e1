//! The machine stands for the whole history.

ghost use Rattle.machine_whole.specs.Stands.{WholeBegins, WholeSteps};

/// The first state stands for the empty history.
pub fn whole_begins()
    ensures { WholeBegins }
{}

/// If a state stands for a history, the machine answers each event with the verdict that is due, and the state after it
/// stands for the history with that pair.
pub fn whole_steps()
    ensures { WholeSteps }
{}
