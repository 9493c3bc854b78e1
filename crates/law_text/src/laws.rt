//! Laws of the lines of a run.

ghost use Rattle.law_text.specs.Statements.{AreTold, DueFits, LinesTell};

/// What is due of events that a script may ask for has numbers and bytes that the types hold, in a history of fewer
/// than 2^28 events.
pub fn due_fits()
    ensures { DueFits }
{}

/// If the text of events begins with the lines of a history of the first of them, each verdict of that history is the
/// one that is due. The history of events with the verdicts that are due has the text of the events for its lines.
pub fn lines_tell()
    ensures tell { LinesTell }
    ensures told { AreTold }
{}
