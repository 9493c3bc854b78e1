//! Laws of what goes out of a port, of every history in which each verdict is the one that is due.

ghost use Rattle.law_sending.specs.Statements.{ChoiceLawHolds, CoverLawHolds, ExactTrustLawHolds};
ghost use Rattle.law_sending.specs.Statements.{SealedComesFromHolds, SendLawHolds};

/// A TLP that is sent goes out in clear exactly if no stream of its end's line takes it, and its link's hop does not
/// list its traffic class. Else what is sealed for it is sealed on the stream that takes it: the least-numbered
/// selective stream with a range for it, then the default stream, then the link stream of its traffic class; and then
/// at its link's hop. An answer, a response and a forward never go out in clear.
pub fn choice_law()
    ensures { ChoiceLawHolds }
{}

/// Of the TLPs that are sent at a link's host's port none goes out in clear exactly if one of the link's streams is the
/// default stream, or each traffic class is listed by a link stream or by the hop; of those that are sent at the
/// device's port with an owner of a requester ID, exactly if that is so, or a stream has a requester range with the ID.
/// `trusted` and RUN do not matter for that.
pub fn cover_law()
    ensures { CoverLawHolds }
{}

/// A sealed packet that carries a TLP has T exactly so: at a host's end, of a link or of its hop, if its event is a
/// trusted `send` or an answer; at a device's end of a link if the TLP's owner is in RUN and its lock names the stream;
/// on a stream between devices if the owner is in RUN and bound to it; at a device's end of a hop never; at a switch if
/// the TLP that is forwarded came with it; but of a response, on whatever line, if its read has it. A sync packet has
/// no T.
pub fn exact_trust_law()
    ensures { ExactTrustLawHolds }
{}

/// A send whose TLP goes on a stream is sealed exactly if the stream has not failed at that end, each sub-stream in
/// which it seals has a Live key (its own, and those that need a sync packet), it overtakes no unfinished posted unit,
/// and no unit that would begin is one too many under its key; else the first of these that does not hold refuses it.
/// Bytes that are no TLP are malformed. A forward is empty exactly if all that was accepted at the one side was sealed
/// at the other, since the link's last reset, else it sends the first that waits. An answer is empty exactly if no read
/// waits; else the oldest is dropped exactly if its interface may not have the completion, which is sent if it may. A
/// response is empty exactly if no read waits at the device; else the completion of the oldest, if that is neither
/// dropped nor refused until a refresh, is sent where it came.
/// What is sealed are the sync packets that are needed and the TLP's packet, each under the Live key of its sub-stream.
pub fn send_law()
    ensures { SendLawHolds }
{}

/// Each sealed packet, as `dump` shows it, is a sync packet, which carries nothing, or carries one TLP, its header in
/// clear and its payload masked: that which a `send` or `psend` was given, and that goes out where the choice has it;
/// or the first that waits at a switch; or the completion of the oldest read that waits on a link, of an interface
/// whose view is Running, at the host's port, with T, on the bound stream, both under draws from the floor on: a header
/// by the read alone, and the bytes that the read enables. So bytes of trusted memory leave in such completions alone.
/// Or it is the completion of the oldest read that waits at a device, by the interface that claims it, with the bytes
/// that its BAR shows, where the read came and with its T: with T while the interface is in RUN and bound there, both
/// under draws from the floor on. What a forward seals is on the hop's stream, behind the switch; no event but these
/// seals anything.
pub fn sealed_comes_from()
    ensures { SealedComesFromHolds }
{}
