//! What the answers of a device's interfaces imply.

ghost use Rattle.interface_ends.specs.Laws.{ErrorsChangeNothing};

/// If a reply is an ERROR, no interface changed and no nonce was given.
pub fn errors_change_nothing()
    ensures { ErrorsChangeNothing }
{}
