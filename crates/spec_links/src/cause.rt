//! The cause of each verdict.

ghost use Rattle.spec_links.specs.Cause.{OneHistory};

/// Two histories of the same events, in which each verdict is the one that is due, are equal.
pub fn one_history()
    ensures { OneHistory }
{}
