//! Laws of locks, of every history in which each verdict is the one that is due.

ghost use Rattle.law_locks.specs.Statements.{AnswersLawHolds, AttestedHolds, LockLawHolds, OneLockPerKeyHolds};
ghost use Rattle.law_locks.specs.Statements.{ScrubbedHolds, ViewsAreTrueHolds};

/// An interface is in CONFIG_LOCKED or RUN only while its lock's stream is Secure at its device's port, and bound to a
/// stream between its device and another only while that is Secure at its end at the device: a stream that leaves
/// Secure there ends the lock in the same event.
pub fn lock_law()
    ensures { LockLawHolds }
{}

/// An interface in RUN was reported since its lock: an earlier verdict under the same lock shows the report of exactly
/// the registers that are locked.
pub fn reports_are_shown()
    ensures { AttestedHolds }
{}

/// The manager's view Unlocked means that the interface is in CONFIG_UNLOCKED, Locked that it is in CONFIG_LOCKED or
/// ERROR, Running that it is in RUN or ERROR.
pub fn views_are_true()
    ensures { ViewsAreTrueHolds }
{}

/// Whatever takes an interface back to CONFIG_UNLOCKED leaves each byte of its ranges without attribute bit 2 at 0.
pub fn unlocked_is_scrubbed()
    ensures { ScrubbedHolds }
{}

/// Two packets of one interface whose write is applied or whose read is queued, at a host's port, and that came under
/// one draw, are admitted under one lock.
pub fn one_lock_per_key()
    ensures { OneLockPerKeyHolds }
{}

/// The read that an answer takes was queued under the lock of its interface that stands.
pub fn answers_law()
    ensures { AnswersLawHolds }
{}
