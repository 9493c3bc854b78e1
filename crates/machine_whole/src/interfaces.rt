//! The machine stands for the history.

ghost use Rattle.machine_whole.specs.InterfacesStand.{FacesFollowHistory};

/// What is kept of interfaces is what the history says of them, step by step; and so are the verdicts, T and the grants
/// that are read from it.
pub fn faces_stand()
    ensures { FacesFollowHistory }
{}
