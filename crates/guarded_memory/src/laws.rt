//! What the definitions imply.

ghost use Rattle.std.specs.Prelude.{◌≡◌, ℕ, List, [], ◌∷◌, ◌++◌, false, Option, None};
ghost use Rattle.guarded_memory.specs.Happenings.{Happened, byte_shown, contents_after, clears, stored_write};
ghost use Rattle.guarded_memory.specs.Contents.{GuardedMemory, MmioLeads};
ghost use Rattle.guarded_memory.specs.Laws.{GuardedBytesStay};
ghost use Rattle.guarded_memory.specs.Cases.{ClosedCases, OpenCases, UnclaimedCases, CrossingCases, StoredCases};
ghost use Rattle.guarded_memory.specs.Cases.{ClearedCases};

/// The byte that a list of what happened shows at a place is what the newest in it makes of the bytes that the older
/// ones left, and 0 if nothing happened. Lists that lead on one after another do so as one.
pub fn happenings_in_turn()
    ensures first { (i b offset : ℕ) → byte_shown [] i b offset ≡ 0 }
    ensures next { (h : Happened) (older : List Happened) (i b offset : ℕ)
        → byte_shown (h ∷ older) i b offset ≡ contents_after h (byte_shown older) i b offset }
    ensures none { (m : GuardedMemory) → MmioLeads m [] m }
    ensures joined { (m n k : GuardedMemory) (hs gs : List (Option Happened)) → MmioLeads m hs n → MmioLeads n gs k
        → MmioLeads m (hs ++ gs) k }
{}

/// A byte changes only by a write that is stored in its range, and by what sets the range to 0. If the range is not
/// open, and its interface is in CONFIG_LOCKED or RUN, that write is trusted and comes in RUN, on a stream that
/// it is bound to, under a draw from its floor on (PCI Express Base 6.0 chapter 11, in this profile).
pub fn guarded_bytes_stay()
    ensures writes { GuardedBytesStay }
    ensures others { (h : Happened) (old : ℕ → ℕ → ℕ → ℕ) (i b offset : ℕ) → clears h i b ≡ false
        → stored_write h i b ≡ None → contents_after h old i b offset ≡ old i b offset }
{}

/// A write has the effect, and leaves the bytes, that were worked out by hand: of ranges that are open or are not,
/// in each state, claimed and unclaimed, across a boundary, and after a stop and a reset.
pub fn mmio_cases()
    ensures shut { ClosedCases }
    ensures opened { OpenCases }
    ensures unclaimed { UnclaimedCases }
    ensures crossing { CrossingCases }
    ensures stored { StoredCases }
    ensures cleared { ClearedCases }
{}
