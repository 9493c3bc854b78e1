//! What the states of streams say of their keys, in every history in which each verdict is the one that is due.

ghost use Rattle.spec_keys.specs.Places.{KeyPlan};
ghost use Rattle.spec_keys.specs.History.{History};
ghost use Rattle.spec_keys.specs.Laws.{KeyCauseLaw, SetGoFindsKey, NeverAgain, OperationsSettle, StaysSecure};
ghost use Rattle.spec_keys.specs.Laws.{KeysFollowOperations};

/// Before each GO that reaches a place, its key is kept there.
pub fn set_go_finds_key()
    ensures { (plan : KeyPlan) (h : History) → KeyCauseLaw plan h → SetGoFindsKey h }
{}

/// A draw that was On at a place and then kept in neither of its sets is never kept there again, and a draw whose GO
/// came there is kept only while it is On.
pub fn ended_keys_stay_out()
    ensures { (plan : KeyPlan) (h : History) → KeyCauseLaw plan h → NeverAgain h }
{}

/// On an idle stream no key is kept; an unfinished establish or refresh has its draw On at each place whose GO was
/// acknowledged, and while a stream is being established no other draw is kept; a stream that is up has its draw On
/// everywhere.
pub fn keys_follow_operations()
    ensures { (plan : KeyPlan) (h : History) → KeyCauseLaw plan h → KeysFollowOperations h }
{}

/// An operation that ends, whatever was lost before, ends in the key state of one without losses.
pub fn operations_settle()
    ensures { (plan : KeyPlan) (h : History) → KeyCauseLaw plan h → OperationsSettle h }
{}

/// No move of a refresh takes a port out of Secure: not at any moment of its event, between two exchanges or inside one,
/// and not at its end.
pub fn stream_stays_secure()
    ensures { (plan : KeyPlan) (h : History) → KeyCauseLaw plan h → StaysSecure h }
{}
