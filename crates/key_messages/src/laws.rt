//! What the definitions of objects imply.

ghost use Rattle.std.specs.Prelude.{◌≡◌, ◌<◌, ◌↔◌, ℕ, Bool, List, Ok, Some, All};
ghost use Rattle.key_messages.specs.declared.object.KmView.{KmView};
ghost use Rattle.key_messages.specs.Objects.{FitsObject, SpellsObject, object_spelling, object_reading};
ghost use Rattle.key_messages.specs.declared.place.Place.{Place};
ghost use Rattle.key_messages.specs.Calls.{SlotsShown};
ghost use Rattle.key_messages.specs.Replies.{call_of, HasKept, is_done, reply_object, IsAcknowledged};

/// `object_reading` reads exactly the bytes that spell an object, as that object, whatever the reserved bytes hold; so
/// bytes spell one object at most.
pub fn reading_is_grammar()
    ensures { (object : KmView) (bytes : List ℕ)
        → All (λ b. b < 256) bytes → (SpellsObject object bytes) ↔ (object_reading bytes ≡ Ok object) }
{}

/// What is written spells the object, and is read as it.
pub fn written_is_read()
    ensures spells { (object : KmView) → FitsObject object → SpellsObject object (object_spelling object) }
    ensures reads { (object : KmView) → FitsObject object → object_reading (object_spelling object) ≡ Ok object }
{}

/// A key that is acknowledged with status 0 is the one of the request, and stands in its slot under the draw given,
/// at every port.
pub fn acknowledged_key_stands()
    ensures { (before after : SlotsShown) (unfinished : Place → Bool) (rid draw stream selector index : ℕ)
        (request : List ℕ) → HasKept before unfinished (call_of request draw) after
        → reply_object rid request (is_done before (call_of request draw)) ≡ Some (KmView.KpAck stream 0 selector index)
        → IsAcknowledged request stream selector draw after }
{}
