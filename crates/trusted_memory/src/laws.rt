//! What the definitions of writes imply.

ghost use Rattle.std.specs.Prelude.{◌≡◌, ℕ, Bool, List, [], ◌∷◌, ◌++◌, Option, Some, is_some};
ghost use Rattle.ide_types.specs.declared.plan.Region.{Region};
ghost use Rattle.trusted_memory.specs.declared.grant.Grant.{Grant};
ghost use Rattle.trusted_memory.specs.Writes.{Write, byte_last_written, byte_written, written_in_turn};
ghost use Rattle.trusted_memory.specs.Causes.{block_cause, block_effect, is_applied};
ghost use Rattle.trusted_memory.specs.Admitted.{admitted_write};
ghost use Rattle.trusted_memory.specs.Memory.{MemoryContents, Leads};

/// What the last enabling write left at an address is what is there once each write was written over what the older
/// ones left.
pub fn writes_in_turn()
    ensures in_turn { (writes : List Write) (a : ℕ) → byte_last_written writes a ≡ written_in_turn writes a }
    ensures next { (w : Write) (older : List Write) (a : ℕ) → byte_last_written (w ∷ older) a ≡ byte_written w
        (byte_last_written older) a }
{}

/// A write is admitted exactly if no cause blocks it.
pub fn admitted_are_applied()
    ensures { (regions : List Region) (t : Bool) (grant : Grant) (w : Write)
        → is_applied (block_effect (block_cause regions w.span t grant))
        ≡ is_some (admitted_write regions t grant (Some w)) }
{}

/// Packets that come one after another: with no packet the contents stay, and if some packets lead from the first
/// contents to the second, and others from there to the third, all of them in turn lead from the first to the third.
pub fn packets_in_turn()
    ensures none { (m : MemoryContents) → Leads m [] m }
    ensures joined { (m n k : MemoryContents) (os ps : List (Option Write)) → Leads m os n → Leads n ps k → Leads m
        (os ++ ps)
        k }
{}
