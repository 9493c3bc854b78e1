//! What the calls on one handle come to, one after another.

ghost use Rattle.ide_session.specs.Runs.{SessionsAreRuns};

use ide_cli::laws_hold;

/// The texts of the lines of a script, one after another and with the totals, are the text of `ide run`, and the laws
/// hold of the history of these lines. This follows from what each call says.
pub fn sessions_are_runs()
    ensures { SessionsAreRuns }
{
    laws_hold();
}
