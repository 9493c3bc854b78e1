//! What the definition of a completion implies.

ghost use Rattle.std.specs.Prelude.{◌≡◌, ◌^◌, ◌<◌, ℕ, true, Ok};
ghost use Rattle.tlp_layout.specs.Reading.{read_of};
ghost use Rattle.trusted_memory.specs.Spans.{enables};
ghost use Rattle.trusted_memory.specs.declared.read.MemReadView.{MemReadView};
ghost use Rattle.trusted_memory.specs.Requests.{FitsRead};
ghost use Rattle.trusted_memory.specs.Completions.{completion, completion_bytes};
ghost use Rattle.trusted_memory.specs.Cases.{AnswerCases, TableCases};

/// The bytes of a completion are read as that completion, if the fields of the read are in range and memory has bytes.
pub fn completions_are_read()
    ensures { (completer : ℕ) (byte : ℕ → ℕ) (read : MemReadView) → completer < 2 ^ 16 → FitsRead read
        → ((a : ℕ) → byte a < 256)
        → read_of (completion_bytes completer byte read) ≡ Ok (completion completer byte read) }
{}

/// Of memory a completion shows the bytes that its read enables, and nothing of any other.
pub fn completions_show_enabled_bytes()
    ensures { (completer : ℕ) (byte other : ℕ → ℕ) (read : MemReadView)
        → ((a : ℕ) → enables read.span a ≡ true → byte a ≡ other a)
        → completion_bytes completer byte read ≡ completion_bytes completer other read }
{}

/// Each of these reads has the completion that was worked out by hand, and each of these headers has what the tables of
/// the standard say (PCI Express Base 6.0 section 2.3.1.1).
pub fn answer_cases()
    ensures answers { AnswerCases }
    ensures tables { TableCases }
{}
