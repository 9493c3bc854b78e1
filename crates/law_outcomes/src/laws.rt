//! Laws of outcomes, of every history in which each verdict is the one that is due.

ghost use Rattle.law_outcomes.specs.Statements.{BlockLawHolds, FailLawHolds, OperationLawHolds};
ghost use Rattle.law_outcomes.specs.Statements.{RecoveryLawHolds, ShownLawHolds};

/// If no message of it is lost: an establish that the manager does not refuse is established, and a refresh refreshed
/// if no sender has an unfinished unit in the set to be given; a stop is stopped, and a halt halted, whatever stands; a
/// lock of an Unlocked view whose stream is Secure at both ends, with a nonce left and BARs that do not overlap, is
/// locked; a report of a view that is Locked or Running, of an interface with a lock, is reported; a start that the
/// manager asks the device for is started exactly in CONFIG_LOCKED.
pub fn operation_law()
    ensures { OperationLawHolds }
{}

/// After any history, exactly if a draw and a nonce are left and by the topology no BARs of the interface overlap,
/// halt, stop, establish, level reset, lock, report and start, with no message lost, bring an interface to RUN. A stop
/// and an establish leave a stream of any line Secure at both ends, if a draw is left.
pub fn recovery_law()
    ensures { RecoveryLawHolds }
{}

/// A status, a dump, a view, a state, the needs of a halt, the state after a write, a level reset and a firmware
/// update, the nonce of a lock, and the draws of an establish, a refresh and a start are those that the history gives.
pub fn shown_law()
    ensures { ShownLawHolds }
{}

/// Of each packet of an accepted unit the effect is `blocked` exactly if a cause holds, and by the first that does; and
/// an answer drops the oldest read exactly if a cause holds, of the interface of its requester ID, by the first.
pub fn block_law()
    ensures { BlockLawHolds }
{}

/// A verdict says that a check failed exactly if one fails of the packet that arrived, and names the first that does,
/// of a stream of the port on which no failure stands, with a Live key in one of the two key sets of the sub-stream.
pub fn fail_law()
    ensures { FailLawHolds }
{}
