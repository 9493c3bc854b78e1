//! What switches forward.

ghost use Rattle.law_hops.specs.LocalLaws.{LocalHopLawHolds};
ghost use Rattle.law_hops.specs.Sends.{ForwardSends};

/// In every history in which each verdict is the one that is due: what a hop sealed at one side since its link's last
/// reset are the first of the TLPs that it accepted at the other since then, over all sub-streams and in each, in their
/// order, with their payload and T. If each segment had one draw since then, what was accepted behind the hop since
/// then is, in each sub-stream, a prefix of what was sealed before it, provided no tag of this sub-stream of the hop's
/// two segments, under the draw of each, verified on a unit that the partner had not sealed: whatever verified of
/// others.
pub fn hop_law()
    ensures { LocalHopLawHolds }
{}

/// A forward that finds a TLP after such a history gets the verdict of a send of it on the hop's stream, in its own
/// sub-stream, with its T and as a unit of its own: it is refused as a send is, or sealed.
pub fn forward_sends()
    ensures { ForwardSends }
{}
