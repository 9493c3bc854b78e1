//! Laws of what is delivered, of the order between sub-streams, and of posted counts.

ghost use Rattle.law_delivery.specs.LocalLaws.{LocalDeliveryLawHolds, LocalOrderLawHolds, LocalPrefixLawHolds};
ghost use Rattle.law_delivery.specs.LocalLaws.{NoForgeryIsOfEach};
ghost use Rattle.law_delivery.specs.PostedCounts.{CountLawHolds};
ghost use Rattle.law_delivery.specs.Statements.{DrawsNeverFallHolds, OrderIsNoForgeryHolds, WholeLawHolds};

/// No tag verified on a unit that its partner had not sealed exactly if none did of any sub-stream under any draw; and
/// a tag that is looked at is of one sub-stream and draw: if it is forged, nothing is lost of any other.
pub fn no_forgery_is_of_each()
    ensures { NoForgeryIsOfEach }
{}

/// In every history in which each verdict is the one that is due and the totals fit in 8 bytes: each sub-stream got
/// under each draw a prefix of what was sealed, provided no tag of this sub-stream under this draw verified on a unit
/// that its partner had not sealed, whatever verified of others; and on a closed stream a unit was accepted after all
/// that was sealed under smaller draws since the stream was last established, provided no tag of its sub-stream, under
/// a draw since then, verified on such a unit.
pub fn prefix_law()
    ensures { LocalPrefixLawHolds }
{}

/// In every history in which each verdict is the one that is due, each sub-stream delivered under each draw a prefix of
/// the TLPs that were sent in it, provided no tag of this sub-stream under this draw verified on a unit that its
/// partner had not sealed.
pub fn delivery_law()
    ensures { LocalDeliveryLawHolds }
{}

/// In every history in which each verdict is the one that is due and the totals fit in 8 bytes: a non-posted packet or
/// a completion is accepted after the posted packets that were sealed before it since the stream was last established:
/// on a closed stream always, on an open one if nothing of an overtaken key is missing; provided no tag of its
/// sub-stream and of the posted one, under a draw since then, verified on a unit that its partner had not sealed.
pub fn order_law()
    ensures { LocalOrderLawHolds }
{}

/// In every history in which each verdict is the one that is due, each packet that arrives unchanged and in order is
/// taken, held or accepted, if its key is Live, nothing of another draw is held, the stream has not failed, the posted
/// counts are met, and on a closed stream nothing of an older draw since the stream was last established is missing.
pub fn whole_law()
    ensures { WholeLawHolds }
{}

/// In every history in which each verdict is the one that is due, what arrives unchanged and in order is never a
/// forgery.
pub fn order_is_no_forgery()
    ensures { OrderIsNoForgeryHolds }
{}

/// In every history in which each verdict is the one that is due, the draws of successive accepted units of a
/// sub-stream never fall.
pub fn draws_never_fall()
    ensures { DrawsNeverFallHolds }
{}

/// Since the stream was last established, the sums of posted counts never pass the posted packets that were got, in
/// every history in which each verdict is the one that is due.
pub fn count_law()
    ensures { CountLawHolds }
{}
