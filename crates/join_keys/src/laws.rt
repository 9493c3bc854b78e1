//! Operations, exchange by exchange, and the calls that they make.

ghost use Rattle.join_keys.specs.Joined.{OperationsJoin};
ghost use Rattle.join_keys.specs.Paired.{PairOperationsJoin};
ghost use Rattle.join_keys.specs.Touches.{CallsAreTouches, CallsAreTold};

/// If the state of the machine of ports stands for a history, an event of an operation, whose exchanges are carried one
/// after another or lost, gives the machine's verdict, and leaves both ports' slots, the manager's state and the draws
/// as the machine does.
pub fn operations_join()
    ensures { OperationsJoin }
{
    calls_are_touches();
}

// The local calls of the host's port, and those that the exchanges make at the device's port, one after another, leave
// the stream as the touches of the event do, which the machine of ports makes at once.
fn calls_are_touches()
    ensures { CallsAreTouches }
{}

/// The same of an establish and a stop on a line that is keyed by messages at both ends.
pub fn pair_operations_join()
    ensures { PairOperationsJoin }
{}

/// On a line that is keyed by messages at both ends, the calls that the exchanges make at each end, one after another,
/// leave the stream there as the touches of the event do, which the machine of ports makes at once.
pub fn calls_are_told()
    ensures { CallsAreTold }
{}
