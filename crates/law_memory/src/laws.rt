//! Laws of interfaces and of trusted memory.

ghost use Rattle.law_memory.specs.LocalLaws.{LocalOriginLawHolds, LocalReadOriginLawHolds};
ghost use Rattle.law_memory.specs.Statements.{InterfacesHaveCauses, MemoryLawHolds, ReadLawHolds, RunLawHolds};

/// What is due of events on interfaces is due by the interfaces alone, and T is set as they say.
pub fn interfaces_have_causes()
    ensures { InterfacesHaveCauses }
{}

/// In every history in which each verdict is the one that is due: in RUN and CONFIG_LOCKED the listed registers of an
/// interface are those at its lock; a report shows the registers at the lock; a listed change, a level reset and a
/// firmware update that lock flag 0 forbids show state 3 (ERROR) in their own verdict.
pub fn run_law()
    ensures { RunLawHolds }
{}

/// In every history in which each verdict is the one that is due, exactly the admitted writes are applied, and what is
/// shown of trusted memory is what they left, else 0.
pub fn memory_law()
    ensures { MemoryLawHolds }
{}

/// In every history in which each verdict is the one that is due, reads are taken at each port in the order in which
/// they were queued there since the last reset of its link, and no more than 64 wait at a port. What an answer seals is
/// the completion of the oldest read at the host's port, from trusted memory as it is then. It has T, and is sealed on
/// its interface's bound stream under a draw from its floor on, while the manager's view of the interface is Running.
pub fn read_law()
    ensures { ReadLawHolds }
{}

/// In every history in which each verdict is the one that is due, each admitted write was sealed while its interface
/// was in the very RUN, under the very lock, that it is admitted for, provided no tag of the sub-stream and draw under
/// which its packet came verified, up to its unit, on a unit that the partner had not sealed: whatever verified of
/// others.
pub fn origin_law()
    ensures { LocalOriginLawHolds }
{}

/// So it is of each read that is queued at a host's port.
pub fn read_origin_law()
    ensures { LocalReadOriginLawHolds }
{}
