//! Laws of the states of interfaces and of the manager's views of them, of every history in which each verdict is the
//! one that is due.

ghost use Rattle.law_states.specs.Statements.{ErrorLawHolds, LeavingLawHolds, NonceLawHolds, ShownStateLawHolds};
ghost use Rattle.law_states.specs.Statements.{StateLawHolds, ViewLawHolds};

/// The state of an interface changes just so. A LOCK_INTERFACE takes it from CONFIG_UNLOCKED to CONFIG_LOCKED, with
/// the next nonce of the link's list, if its flags and its offset are in order, its stream is Secure at the device, no
/// two BARs overlap and a nonce is left. A START_INTERFACE takes it from CONFIG_LOCKED to RUN, and has the nonce of
/// the last lock. What its lock forbids takes it from both to ERROR, and so does a stream that it is bound to, once
/// that leaves Secure at the device. A STOP_INTERFACE and a reset of its link take it to CONFIG_UNLOCKED. Requests
/// that did not reach the device change nothing.
pub fn state_law()
    ensures { StateLawHolds }
{}

/// A verdict that shows the state of an interface shows the one after the event.
pub fn shown_state_law()
    ensures { ShownStateLawHolds }
{}

/// Once a stream leaves Secure at a device, each interface there that is in CONFIG_LOCKED or RUN and bound to it is in
/// ERROR, and in CONFIG_UNLOCKED if the event is a reset of its link.
pub fn leaving_law()
    ensures { LeavingLawHolds }
{}

/// Two locks of interfaces of one link took two places of its nonces, the later lock a later one. A verdict `locked`
/// shows the nonce of its lock's place.
pub fn nonce_law()
    ensures { NonceLawHolds }
{}

/// The manager's view of an interface changes just so: to Locked, Running and Unlocked at the verdicts `locked`,
/// `started` and `halted` of it; to Doubt where LOCK_INTERFACE, START_INTERFACE or STOP_INTERFACE or the reply is lost;
/// to Broken where the device refuses to start it, or tells another state than that of a view Locked or Running, and,
/// unless it is Unlocked, where a stop of its stream begins, at each event of a stop of a stream between devices to
/// which BIND_P2P was asked since LOCK_INTERFACE last was, and at a reset of its link.
pub fn view_law()
    ensures { ViewLawHolds }
{}

/// In ERROR an interface is bound to no stream, no send of it and no completion of a read of its memory is sealed with
/// T, no write with T is stored in a range of it, and none at all in one without attribute bit 2. It leaves ERROR by a
/// STOP_INTERFACE or a reset of its link alone.
pub fn error_law()
    ensures { ErrorLawHolds }
{}
