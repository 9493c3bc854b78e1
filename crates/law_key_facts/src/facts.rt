//! What is used of keys.

ghost use Rattle.law_key_facts.specs.Facts.{DrawsHold, FactsHold, KeysHaveCauses};

/// If each verdict is the one that is due, it is so by the rules of keys.
pub fn keys_have_causes()
    ensures { KeysHaveCauses }
{}

/// All that the machine uses of keys holds of those that operations, resets, ends of units and accepted units leave.
pub fn facts_hold()
    ensures { FactsHold }
{}

/// All that the laws use of draws holds: one that becomes Live has sealed nothing, those of sealed packets and of
/// accepted units never fall, and each belongs to one key set of one stream.
pub fn draws_hold()
    ensures { DrawsHold }
{}
