//! What the keys of every history obey in which each verdict is the one that is due.

ghost use Rattle.spec_keys.specs.Places.{KeyPlan};
ghost use Rattle.spec_keys.specs.History.{History};
ghost use Rattle.spec_keys.specs.Laws.{KeyCauseLaw, KeyPlaceFacts};

/// A draw that is On is so in one key set and on one stream, and is at least each draw that was used there;
/// the draws of sealed packets and of accepted units never fall.
pub fn key_facts()
    ensures { (plan : KeyPlan) (h : History) → KeyCauseLaw plan h → KeyPlaceFacts h }
{}
