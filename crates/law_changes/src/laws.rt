//! Laws of what changes, of every history in which each verdict is the one that is due.

ghost use Rattle.law_changes.specs.Statements.{ApartLawHolds, ExactThroughLawHolds, InertLawHolds};
ghost use Rattle.law_changes.specs.Statements.{ResetLawHolds};

/// A refusal, and a verdict that finds nothing, takes nothing or shows what stands, leaves everything as it was.
pub fn inert_law()
    ensures { InertLawHolds }
{}

/// A reset of a link leaves nothing at the ends that it clears, those of the link, of its hop, and at its device of
/// streams between devices: no key, no failure, nothing held, no read and no TLP that waits. Its interfaces are
/// unlocked as the topology has them, with all bytes 0, and each view of them is Unlocked or Broken. All other ends and
/// links keep theirs.
pub fn reset_law()
    ensures { ResetLawHolds }
{}

/// A verdict is `through` exactly if the event brings bytes to a port of a switch, at least three, of which the first
/// is 92h and the third is not the ID of the hop's stream; and it names that port.
pub fn exact_through_law()
    ensures { ExactThroughLawHolds }
{}

/// An event that is no operation on a stream, resets no end of its line, and neither sends on the stream (a response
/// sends on that on which its read came) nor brings bytes of it, leaves its keys and failures at both ends, and what
/// was sealed, held and accepted in it.
pub fn streams_apart()
    ensures { ApartLawHolds }
{}
