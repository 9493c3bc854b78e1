//! What the definitions of the walk imply.

ghost use Rattle.std.specs.Prelude.{◌≡◌, All, List, Some, true, ℕ};
ghost use Rattle.std.specs.Str.{IsUtf8};
ghost use Rattle.toml_walk.specs.Shown.{spelled_key};
ghost use Rattle.ide_types.specs.Names.{is_printable};
ghost use Rattle.toml_walk.specs.Walk.{Text, unknown_in, Ascend, IsLeastUnknown};

/// The unknown key that is refused is the least in byte order, since the keys of a table ascend.
pub fn unknown_is_least()
    ensures { (known keys : List Text) (key : Text) → Ascend keys
        → unknown_in known keys ≡ Some key → IsLeastUnknown known keys key }
{}

/// Keys that stand alike in a line are the same, and each stands in printable ASCII.
pub fn shown_keys_are_apart()
    ensures apart { (k l : List ℕ) → IsUtf8 k → IsUtf8 l → spelled_key k ≡ spelled_key l → k ≡ l }
    ensures printable { (k : List ℕ) → All (λ b. is_printable b ≡ true) (spelled_key k) }
{}
