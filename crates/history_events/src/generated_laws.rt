//! What is known of all generated events.

ghost use Rattle.std.specs.Prelude.{◌≤◌, ◌+◌, ◌*◌, ℕ, length};
ghost use Rattle.std.specs.List.{AllByRecursion};
ghost use Rattle.script_events.specs.Spells.{IsAllowed};
ghost use Rattle.history_events.specs.GeneratedEvents.{generated_events};
ghost use Rattle.history_events.specs.Forms.{IsForm};

/// Each event is one that a script may ask for, and of one of a few forms; a round has seven events at the most.
pub fn generated_are_allowed()
    ensures allowed { (seed count : ℕ) → AllByRecursion IsAllowed (generated_events seed count) }
    ensures forms { (seed count : ℕ) → count ≤ 100000 → AllByRecursion IsForm (generated_events seed count) }
    ensures few { (seed count : ℕ) → length (generated_events seed count) ≤ 4 + 7 * count }
{}
