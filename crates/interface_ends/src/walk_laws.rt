//! What the exchanges of an operation do.

ghost use Rattle.interface_ends.specs.Exchanges.{ExchangesAreDue, RepliesAreNeverBad, ReportsFit};
ghost use Rattle.interface_ends.specs.Operations.{OperationsAreStated};
ghost use Rattle.interface_ends.specs.Reports.{ReportsAreRead, ReportsAreRefused};

use tdisp_codec::{reply_read_again, request_read_again};

/// Carried to the device that has the interface, a request of the manager makes the call of the interface that is due,
/// and its reply is judged as is due: the expected one with its value, or a refusal with its code.
pub fn exchanges_are_due()
    ensures { ExchangesAreDue }
{
    request_read_again();
    reply_read_again();
}

/// No reply of the device is a bad one.
pub fn replies_are_never_bad()
    ensures { RepliesAreNeverBad }
{
    exchanges_are_due();
}

/// Lock, start, halt and state, carried exchange by exchange, make one stated step. Each exchange may be lost.
pub fn operations_are_stated()
    ensures { OperationsAreStated }
{
    exchanges_are_due();
}

/// A report is carried portion by portion, and each exchange may be lost. It is read whole, and is the one that the
/// lock kept; or it is cut short by the loss, or refused by a device that is in no lock. It changes no device.
pub fn reports_are_read()
    ensures read { ReportsAreRead }
    ensures refused { ReportsAreRefused }
{
    exchanges_are_due();
}

/// The report that a lock keeps has 1 to 1,140 bytes, so the manager takes it.
pub fn reports_fit()
    ensures { ReportsFit }
{}
