//! Laws of interfaces.

ghost use Rattle.spec_interfaces.specs.Laws.{BindLawHolds, InterfaceRunLawHolds, PeerSealsBound, ViewsHold};

/// In RUN and CONFIG_LOCKED the listed registers of an interface are those at its lock. A report shows the registers at
/// the lock. A listed change, a level reset and a firmware update that lock flag 0 forbids show state 3 (ERROR) in
/// their own verdict.
pub fn interface_run_law()
    ensures { InterfaceRunLawHolds }
{}

/// An interface is bound to a stream between its device and another only in CONFIG_LOCKED and RUN: bindings end with
/// UNBIND_P2P, STOP_INTERFACE, ERROR and a reset of the link.
/// A packet with T on such a stream is sealed while the owner of its TLP is in RUN and bound to that stream.
pub fn bind_law()
    ensures law { BindLawHolds }
    ensures sealed { PeerSealsBound }
{}

/// While the manager's view of an interface is Unlocked or Locked, or no START_INTERFACE was asked since LOCK_INTERFACE
/// was last asked, the interface is not in RUN, and each packet with T that its device's port sealed on its stream for
/// it has a draw below the one that it needs. While the view is Running, each such packet of a draw from the floor on
/// was sealed in RUN under the present lock.
pub fn views_hold()
    ensures { ViewsHold }
{}
