//! What stands in trusted memory, from each history to the next.

ghost use Rattle.spec_links.specs.Memory.{ContentsFollow};

/// Contents that are what the writes of a history left are so again once a unit's packets led on from them and its
/// verdict is there, and stay so at any other verdict.
pub fn contents_follow()
    ensures { ContentsFollow }
{}
