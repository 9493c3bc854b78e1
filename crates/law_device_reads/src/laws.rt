//! The laws, each of every history in which each verdict is the one that is due.

ghost use Rattle.law_device_reads.specs.Cases.{AnswerCases, ArrivalCases};
ghost use Rattle.law_device_reads.specs.Statements.{DeviceEffectLawHolds, DeviceReadLawHolds, DeviceReadOriginLawHolds};
ghost use Rattle.law_device_reads.specs.Statements.{ExposureLawHolds, RespondLawHolds, ResponseOriginLawHolds};

/// Responses take the reads of a device in the order in which they were queued since its link's last reset, and no more
/// than 64 wait. What a response seals is one packet: the completion of the oldest read, by the requester ID of its
/// interface, with the bytes that `mmio` would show of its double words just before. It is sealed on the stream and at
/// the end on which the read came, with T as the read had it.
pub fn device_read_law()
    ensures { DeviceReadLawHolds }
{}

/// A memory read at a device's port, on any line that ends there, is queued, blocked by each cause, or delivered,
/// exactly as what claims it, how its interface stands, and how many reads wait there say; nothing else is queued there.
pub fn device_effect_law()
    ensures { DeviceEffectLawHolds }
{}

/// A response finds no such link, no read that waits, or the oldest. It drops that by each cause, is refused until a
/// refresh, by draw and floor, or is refused as a completion that is sent is, exactly as its claim and the keys now say;
/// else its completion is sealed.
pub fn respond_law()
    ensures { RespondLawHolds }
{}

/// If a response seals a byte of a range that is not open, of an interface that is not in CONFIG_UNLOCKED, its packet
/// has T, the interface is in RUN and bound to the packet's stream, the packet comes under a draw from its floor there
/// on, and the read was queued under the lock that stands.
pub fn exposure_law()
    ensures { ExposureLawHolds }
{}

/// Each read with T that a device queues was given to a trusted send at the host's port of its link, and came on the
/// stream of the lock, or to a send at another device, whose owner was in RUN and bound to the stream, as the interface
/// is. From before that until it is answered the interface was in no other RUN. So it is provided no tag of the
/// sub-stream and draw under which the read came verified, up to its unit, on a unit that the partner had not sealed.
pub fn device_read_origin_law()
    ensures { DeviceReadOriginLawHolds }
{}

/// A completion with T that a host's port accepts on the stream of an interface's lock, and that a response of the
/// interface sealed, has the bytes that `mmio` would have shown just before the response, when the interface was in the
/// very RUN in which the read was asked for. So it is provided no tag of the sub-stream and draw under which it came
/// verified, up to its unit, on a unit that the partner had not sealed.
pub fn response_origin_law()
    ensures { ResponseOriginLawHolds }
{}

/// Each of these reads has the effect, or is dropped or kept, as was worked out by hand.
pub fn device_read_cases()
    ensures arrivals { ArrivalCases }
    ensures answers { AnswerCases }
{}
