//! What the definitions of a TLP's spelling and of its reading imply.

ghost use Rattle.std.specs.Prelude.{◌≡◌, ◌≤◌, ◌<◌, ◌++◌, ◌↔◌, ℕ, List, Ok, Err, All, length, take, drop};
ghost use Rattle.tlp_layout.specs.declared.head.HeadView.{HeadView};
ghost use Rattle.tlp_layout.specs.declared.tlp.Tlp.{Tlp};
ghost use Rattle.tlp_layout.specs.declared.fault.TlpFault.{TlpFault};
ghost use Rattle.tlp_layout.specs.Head.{FitsHead, SpellsHead, head_bytes, head_length};
ghost use Rattle.tlp_layout.specs.Tlp.{SpellsTlp, FitsTlp, header, body, body_size, with_payload};
ghost use Rattle.tlp_layout.specs.Faults.{IsFault, IsHeadFault};
ghost use Rattle.tlp_layout.specs.Reading.{read_of, read_head_of};

/// Bytes spell one TLP at most, and a TLP has one spelling; so do headers.
pub fn one_spelling()
    ensures one_tlp { (t u : Tlp) (bytes : List ℕ) → SpellsTlp t bytes → SpellsTlp u bytes → t ≡ u }
    ensures one_list { (t : Tlp) (a b : List ℕ) → SpellsTlp t a → SpellsTlp t b → a ≡ b }
    ensures one_head { (h k : HeadView) (bytes : List ℕ)
        → SpellsHead h bytes → SpellsHead k bytes → h ≡ k }
    ensures one_head_list { (h : HeadView) (a b : List ℕ) → SpellsHead h a → SpellsHead h b → a ≡ b }
{}

/// `read_of` reads exactly what the grammar spells, and refuses all else at its first fault.
pub fn reading_is_grammar()
    ensures reads { (t : Tlp) (bytes : List ℕ) → (SpellsTlp t bytes) ↔ (read_of bytes ≡ Ok t) }
    ensures refuses { (fault : TlpFault) (bytes : List ℕ)
        → (IsFault bytes fault) ↔ (read_of bytes ≡ Err fault) }
{}

/// `read_head_of` reads exactly the headers, and refuses all else at its first fault.
pub fn head_reading_is_grammar()
    ensures reads { (h : HeadView) (bytes : List ℕ)
        → (SpellsHead h bytes) ↔ (read_head_of bytes ≡ Ok h) }
    ensures refuses { (fault : TlpFault) (bytes : List ℕ)
        → (IsHeadFault bytes fault) ↔ (read_head_of bytes ≡ Err fault) }
{}

/// The first 12 or 16 bytes of a TLP are its header, and the others its payload, up to 4,096; and a header
/// makes a TLP with each payload of the length that it wants.
pub fn parts_of_spelling()
    ensures head_size { (h : HeadView) (bytes : List ℕ)
        → SpellsHead h bytes → length bytes ≡ head_length h }
    ensures front { (t : Tlp) (bytes : List ℕ) → SpellsTlp t bytes
        → SpellsHead (header t) (take (head_length (header t)) bytes) }
    ensures sizes { (t : Tlp) → FitsTlp t → length (body t) ≤ 4096 }
    ensures whole { (h : HeadView) (payload : List ℕ) → FitsHead h
        → length payload ≡ body_size h.has_payload h.lead.length → All (λ b. b < 256) payload
        → SpellsTlp (with_payload h payload) (head_bytes h ++ payload)
        × (header (with_payload h payload) ≡ h) }
    ensures rest { (t : Tlp) (bytes : List ℕ) → SpellsTlp t bytes
        → drop (head_length (header t)) bytes ≡ body t }
{}
