//! Laws of what is counted.

ghost use Rattle.rule_counts.specs.Laws.{ForgeriesAreCounted, RulesAreListed};

/// Each rule that can answer an event, or an effect of a packet, stands once in the list of those that are counted.
pub fn rules_are_listed()
    ensures { RulesAreListed }
{}

/// No forgery is counted in a history exactly if no tag verified there on a unit that its partner had not sealed.
pub fn forgeries_are_counted()
    ensures { ForgeriesAreCounted }
{}
