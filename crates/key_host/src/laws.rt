//! What the calls of the manager do, one after another.

ghost use Rattle.key_host.specs.Fits.{PairsFit};
ghost use Rattle.key_host.specs.Walk.{WalksAreDue};

/// An operation that begins or goes on, and whose exchanges are then taken one after another, each lost, refused by the
/// device or acknowledged, gives the verdict that is due after the history, and leaves the stream in the state that
/// this verdict says.
pub fn walks_are_due()
    ensures { WalksAreDue }
{}

/// If the slots of a place at the host's port fit the state of the stream, each local call of an establish, a refresh
/// or a stop is one that the port takes, and leaves slots that fit the state after it.
pub fn pairs_fit()
    ensures { PairsFit }
{}
