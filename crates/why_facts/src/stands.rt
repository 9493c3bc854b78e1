//! The facts of a state are those of the history.

ghost use Rattle.why_facts.specs.Stands.{FactsStand};

/// If a state of the whole machine stands for a history, the facts of an event by that state are those by the history.
pub fn facts_stand()
    ensures { FactsStand }
{}
