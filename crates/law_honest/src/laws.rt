//! Laws of what arrives in the order in which it was sealed.

ghost use Rattle.law_honest.specs.Statements.{FreshLawHolds, HonestDeliveryHolds, HonestLawHolds, PassLawHolds};
ghost use Rattle.law_honest.specs.Statements.{WholeLawByOrderHolds};

/// In every history in which each verdict is the one that is due, each packet that arrives unchanged and in order is
/// taken, held or accepted, and is no forgery, if its key is Live, nothing of another draw is held, the stream has not
/// failed, and on a closed stream nothing of an older draw since the stream was last established is missing. Of posted
/// counts nothing is supposed: a request or a completion that ends its unit comes after the posted packets that were
/// sealed before it, and what was accepted of smaller draws since the stream was last established was sealed.
pub fn whole_law_by_order()
    ensures { WholeLawByOrderHolds }
{}

/// In every history in which each verdict is the one that is due: if a stream was just established, and since then no
/// reset and no operation touched it but refreshes that began and ended at one event, when all that had not come yet
/// was of the current draw, and each packet of it that came to an end was the next that the other end had sealed, in
/// the order of sealing over the three sub-streams, then each was held, or ended its unit and was accepted, none was a
/// forgery, and the stream has not failed there.
pub fn honest_law()
    ensures { HonestLawHolds }
{}

/// If on such a link all came that was sealed, what was accepted of each sub-stream under each draw, with what is held
/// for its next unit, is what was sealed; and if no unit is open, what was accepted alone, and the TLPs that were
/// delivered are those that were sent.
pub fn honest_delivery()
    ensures { HonestDeliveryHolds }
{}

/// An establish of an idle stream that ends at the event at which it begins leaves the stream just established, as
/// `honest_law` supposes, at both ends.
pub fn fresh_law()
    ensures { FreshLawHolds }
{}

/// A pass brings the packet that it names, unaltered, to the other end of the line on which it was sealed.
pub fn pass_law()
    ensures { PassLawHolds }
{}
