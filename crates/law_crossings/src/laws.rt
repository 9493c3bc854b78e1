//! Laws of what crosses hops, of every history in which each verdict is the one that is due.

ghost use Rattle.law_crossings.specs.Statements.{HopOrderLawHolds, HopPostedLawHolds, HopTrustLawHolds};

/// No packet that comes on a segment of a hop is applied to trusted memory or queued for its host, or stored or queued
/// with T by a device, and no answer is sealed there. At the end of a hop at a device no packet with T is sealed.
pub fn hop_trust_law()
    ensures { HopTrustLawHolds }
{}

/// If no tag of a sub-stream, where it enters the switch and behind it, verified on a unit that its partner had not
/// sealed, under the draws that the two segments were given since their link's last reset: what was accepted behind the
/// hop in this sub-stream since then is, under however many keys, what was sealed before it, in that order and with
/// header, payload and T, but for some that were lost.
pub fn hop_order_law()
    ensures { HopOrderLawHolds }
{}

/// With one draw on each segment of a hop since its link's last reset, if no total passes 8 bytes: a TLP of a
/// sub-stream that is not posted was accepted behind the hop only after each posted TLP that was sealed before it,
/// provided no tag of this sub-stream and of the posted one, where they enter the switch and behind it, verified under
/// these draws on a unit that its partner had not sealed: whatever verified of others.
pub fn hop_posted_law()
    ensures { HopPostedLawHolds }
{}
