//! Laws of keys in use, of every history in which each verdict is the one that is due.

ghost use Rattle.law_key_use.specs.Statements.{ForgeriesAreOfCipherHold, KeyLimitsHold, KeysInUseHolds};
ghost use Rattle.law_key_use.specs.Statements.{RefreshTakesHolds, StopTakesKeysHolds};

/// Each packet is sealed under the least draw that is On at its sender just before it, in the set that its K names;
/// each unit is held or accepted under a draw that is On at its receiver before the event, in the set that K names.
pub fn keys_in_use()
    ensures { KeysInUseHolds }
{}

/// While a stream is being stopped, a host's port keeps no key of it, and any other end none in a set whose exchange
/// was acknowledged; no place gains one, and nothing is sealed, held or accepted where they are gone; and a reset
/// leaves none at the ends that it clears.
pub fn stop_takes_keys()
    ensures { StopTakesKeysHolds }
{}

/// When a refresh has ended its draw is On at each place of the stream, no other is kept but what is On, and a lesser
/// one is On at a sender for an unfinished unit alone. A unit begins under the greatest draw that is On at its sender;
/// so until a stop of the stream or a reset of that end, a packet under a draw below the refresh's goes on with such a
/// unit.
pub fn refresh_takes()
    ensures { RefreshTakesHolds }
{}

/// Under each key no more units are finished than the plan's limit, and one begins only below it; a unit that was
/// sealed or accepted has at most as many packets as the mode of its stream says, and one that is open or held fewer.
pub fn key_limits()
    ensures { KeyLimitsHold }
{}

/// Where a tag verifies, a finished unit that was sealed under the same bytes of a key, with the same IV, authenticated
/// bytes and ciphertext is the one that `NotForgedUnder` asks for. So a tag of a sub-stream is forged under a draw
/// exactly where the cipher is: a key, an IV, authenticated bytes and a ciphertext with a tag that verifies, which were
/// never sealed (SP 800-38D).
pub fn forgeries_are_of_cipher()
    ensures { ForgeriesAreOfCipherHold }
{}
