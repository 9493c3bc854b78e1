//! Laws of verdicts, of every history in which each verdict is the one that is due.

ghost use Rattle.law_verdicts.specs.Statements.{AnswerLawHolds, EffectLawHolds, FailedLawHolds, NamedLawHolds};

/// While a stream is failed at a port, nothing of it is sealed, held, accepted or failed there.
pub fn failed_law()
    ensures { FailedLawHolds }
{}

/// A verdict is `none` exactly if something that its event names does not exist: a line or its stream, a link, a hop, a
/// port or an interface, a register, bytes of memory, or a packet that was sealed.
pub fn named_law()
    ensures { NamedLawHolds }
{}

/// Of an accepted unit exactly those packets are queued that are memory reads with T which the manager grants, and
/// whose bytes lie in one region and cross no 4 KiB boundary, while fewer than 64 reads wait at the host's port; while
/// 64 wait, exactly those are blocked as `full`. That is not said of a device's port where an interface answers reads.
/// Exactly those packets are stored whose write an interface's range claims, and crosses no 4 KiB boundary, and which
/// come either with T in RUN, on a stream that the interface is bound to, under a draw from its floor there on; or
/// without T to a range with attribute bit 2, or in CONFIG_UNLOCKED. Exactly the TLPs that come to a switch wait there.
pub fn effect_law()
    ensures { EffectLawHolds }
{}

/// An answer that seals seals the completion of the oldest read that waits, from memory as it is then: the last of its
/// packets, which is no sync packet and ends its unit, has the completion's header in clear and its payload masked.
pub fn answer_law()
    ensures { AnswerLawHolds }
{}
