//! What the definitions of a device interface imply.

ghost use Rattle.interface_state.specs.Laws.{ChangesAreListed, ChangeIsError, OverlapIsShared, OverlapsArePairs};
ghost use Rattle.interface_state.specs.Laws.{ListedIsKept, LockIsEntered, RunIsEntered, ReportIsShort, ReportIsSpelled};
ghost use Rattle.interface_state.specs.Laws.{BindingsEnd, WidthsAreKept};

use tdisp_codec::report_read_again;

/// A listed change of a register is a write that changes the listed part of the registers; in CONFIG_LOCKED and RUN it
/// sends the interface to ERROR with the very write.
pub fn listed_changes()
    ensures exact { ChangesAreListed }
    ensures error { ChangeIsError }
{}

/// In CONFIG_LOCKED and RUN the listed registers are those that the lock kept: each call keeps that.
pub fn listed_is_kept()
    ensures { ListedIsKept }
{}

/// In CONFIG_UNLOCKED and ERROR an interface is bound to no stream between two devices: each call keeps that.
pub fn bindings_end()
    ensures { BindingsEnd }
{}

/// Registers have their widths and there are six BARs, as the laws on reports and on listed changes suppose: of an
/// interface as the topology lays it out, and after each call whose value has room in its register.
pub fn widths_are_kept()
    ensures { WidthsAreKept }
{}

/// A lock stands from an accepted LOCK_INTERFACE on, which kept the registers as they stood; RUN is entered from
/// CONFIG_LOCKED by START_INTERFACE with that lock's nonce alone.
pub fn states_are_entered()
    ensures lock { LockIsEntered }
    ensures run { RunIsEntered }
{}

/// BARs overlap if some byte is in two of them.
pub fn overlaps_are_shared()
    ensures bytes { OverlapIsShared }
    ensures pairs { OverlapsArePairs }
{}

/// The report of a lock has at most 1,140 bytes; they spell it.
pub fn reports_are_spelled()
    ensures short { ReportIsShort }
    ensures spelled { ReportIsSpelled }
{
    report_read_again();
}
