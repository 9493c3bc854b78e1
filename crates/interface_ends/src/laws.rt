//! What the exchanges of both ends do.

ghost use Rattle.interface_ends.specs.Keepers.{KeepersWalk};

/// The exchanges of an operation that the manager carries are those of its interface alone: each other interface is as
/// before.
pub fn keepers_walk()
    ensures { KeepersWalk }
{}
