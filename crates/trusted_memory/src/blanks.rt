//! Pages that are not in use yet.

ghost use Rattle.std.specs.Prelude.{◌≡◌, ◌+◌, ◌≤◌, ◌==◌, ◌++◌, ◌∷◌, [], ℕ, All, IsOk, OnOk, Some, is_ok, is_some};
ghost use Rattle.std.specs.Prelude.{if◌then◌else◌};
ghost use Rattle.std.specs.Prelude.{length, max, nat_eq, replicate};
ghost use Rattle.std.specs.HashMap as hash;
ghost use Rattle.trusted_memory.specs.Pages.{IsBlank};

use crate::page::Page;
use ide_types::OutOfMemory;
use std::alloc::Global;
use std::collections::HashMap;

fn add(alloc: Global, pages: &mut Vec<Page>) -> Result<(), OutOfMemory>
    ensures { pages.new.items ≡ (if is_ok result then pages.old.items ++ replicate 4096 0 ∷ [] else pages.old.items) }
{
    let page = Page::new(alloc)?;
    pages.push(page)?;
    Ok(())
}

/// Adds blank pages until there are `count` at least. For want of memory those that were added stay.
pub fn fill(alloc: Global, pages: &mut Vec<Page>, count: usize) -> Result<(), OutOfMemory>
    requires { All IsBlank pages.old.items }
    ensures blank { All IsBlank pages.new.items }
    ensures ok { OnOk result (length pages.new.items ≡ max (length pages.old.items) count) }
    ensures enough { count ≤ length pages.old.items → IsOk result }
    ensures least { length pages.old.items ≤ length pages.new.items }
    ensures most { length pages.new.items ≤ max (length pages.old.items) count }
{
    for i in pages.len()..count {
        add(alloc, pages)?;
    }
    Ok(())
}

/// Puts a page there, for which there is room.
pub fn put(pages: &mut HashMap<u64, Page>, number: u64, page: Page)
    requires { 1 ≤ hash.spare pages.old }
    ensures there { (q : ℕ) → hash.get nat_eq pages.new q ≡ (if number == q then Some page else hash.get nat_eq
        pages.old q) }
    ensures room { hash.spare pages.old ≤ hash.spare pages.new + 1 }
    ensures count { length pages.new.entries
        ≡ length pages.old.entries + (if is_some (hash.get nat_eq pages.old number) then 0 else 1) }
{
    let _ = pages.insert(number, page);
}
