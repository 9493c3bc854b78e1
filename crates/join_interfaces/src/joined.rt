//! Operations on interfaces, and the machine.

ghost use Rattle.join_interfaces.specs.Joined.{InterfaceOperationsJoin};

use interface_ends::{keepers_walk, operations_are_stated, reports_are_read, reports_fit};

/// If manager and device keep of an interface what the machine keeps, an operation on it gives the verdict that the
/// machine gives, and afterwards they keep what the machine keeps after it.
pub fn interface_operations_join()
    ensures { InterfaceOperationsJoin }
{
    keepers_walk();
    operations_are_stated();
    reports_are_read();
    reports_fit();
}
