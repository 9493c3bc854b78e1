//! What the definitions of units imply.

ghost use Rattle.std.specs.Prelude.{◌≡◌, ℕ, List, length};
ghost use Rattle.ide_prefix.specs.CollectedUnits.{Collected, body_of, KeepsLengths};

/// Bytes written over the bodies of a unit, as many as these have, are its new bodies, joined; its heads stay, and
/// every length.
pub fn written_keeps_lengths()
    ensures { (unit : Collected) (bytes : List ℕ) → length bytes ≡ length (body_of unit) → KeepsLengths unit bytes }
{}
