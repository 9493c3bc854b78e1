//! Laws of bindings, of every history in which each verdict is the one that is due.

ghost use Rattle.law_bindings.specs.Statements.{BindingsAreAskedHolds, BindingsHoldKeysHolds, OneLockPerPeerKeyHolds};
ghost use Rattle.law_bindings.specs.Statements.{OneLockPerStoredKeyHolds, PeerOriginHolds, PeerStoreHolds};
ghost use Rattle.law_bindings.specs.Statements.{BindingsLastHolds, PeersNeverStaleHolds};
ghost use Rattle.law_bindings.specs.Statements.{StopsBreakViewsHolds, TrustedOnAllStreamsHolds, VerdictsTellHolds};
ghost use Rattle.law_bindings.specs.StreamAlone.{StreamsStandAloneHolds};

/// Each stream between devices that an interface is bound to was asked for: a bind of it came to the interface under
/// the lock that stands, which has flag 3, while the stream was Secure there, and no unbind of it came since. The
/// manager counts it among those that were asked since the lock.
pub fn bindings_are_asked()
    ensures { BindingsAreAskedHolds }
{}

/// From a `bound` verdict on an interface is bound to the stream, as long as the lock stands and no unbind of that
/// stream comes to it. So a bind or an unbind whose message is lost leaves doubt of its own stream alone.
pub fn bindings_last()
    ensures { BindingsLastHolds }
{}

/// A `bound` verdict binds the interface to the stream, to which it was not bound, and an `unbound` verdict ends that.
pub fn verdicts_tell_bindings()
    ensures { VerdictsTellHolds }
{}

/// An exchange of a stop of a stream between devices leaves the view of each interface that is bound to it Broken.
pub fn stops_break_views()
    ensures { StopsBreakViewsHolds }
{}

/// While an interface is bound to a stream between devices, the floor of the binding is the draw of the stream's last
/// establish. It is On where the device receives posted requests on the stream, and no place of the stream keeps
/// another.
pub fn bindings_hold_keys()
    ensures { BindingsHoldKeysHolds }
{}

/// A packet with T that an interface sealed at its device, of a send or of a response to a read, on any stream, was
/// sealed in RUN. While the view is Unlocked or Locked, or no START was asked since the lock, its draw is below the one
/// that the interface needs; while the view is Running it was sealed under this lock, or its draw is below that.
pub fn trusted_on_all_streams()
    ensures { TrustedOnAllStreamsHolds }
{}

/// Two packets with T that an interface sealed on streams between devices under one draw were sealed under one lock.
pub fn one_lock_per_peer_key()
    ensures { OneLockPerPeerKeyHolds }
{}

/// Two packets with T whose writes are stored in the memory of one interface, and that came under one draw, are stored
/// under one lock of it.
pub fn one_lock_per_stored_key()
    ensures { OneLockPerStoredKeyHolds }
{}

/// Provided no tag of the sub-stream and key under which it came verified on a unit that its partner had not sealed:
/// each packet with T that an end of a stream between devices accepts was sealed, by a send or a response to a read,
/// for an owner that was in RUN and bound to the stream, and that was bound to it in no other lock since. The owner is
/// the requester of a request, the completer of a completion. The packet came under the draw of the stream's last
/// establish, and since it was sealed no other one began. While the view of the owner is Unlocked or Locked the draw
/// is below the one that the owner needs, and while it is Running and the draw is not, the packet was sealed under the
/// lock that stands. That the owner is still in RUN, bound or locked is not said, since it may not be.
pub fn peer_origin_law()
    ensures { PeerOriginHolds }
{}

/// Under the same proviso, if the write of such a packet is stored, its target is in RUN, bound to the stream, and was
/// in no other RUN since it was sealed.
pub fn peer_store_law()
    ensures { PeerStoreHolds }
{}

/// No packet of a unit that an end of a stream between devices accepts is blocked as stale.
pub fn peers_are_never_stale()
    ensures { PeersNeverStaleHolds }
{}

/// What supposes that no tag was forged stands of each stream of a line of which none was, whatever verified on other
/// streams, links, hops and streams between devices: what its sub-streams got and delivered are prefixes of what was
/// sealed and sent, in their order, and what was admitted at a host, queued there, stored and shown of it, and what
/// came with T on it between devices, has its origin.
pub fn streams_stand_alone()
    ensures { StreamsStandAloneHolds }
{}
