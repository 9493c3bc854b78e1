//! What the definitions of packets, of their reading and of units imply.

ghost use Rattle.std.specs.Prelude.{◌≡◌, ◌≤◌, ◌↔◌, ℕ, true, false, List, Ok, Err, All, length, map};
ghost use Rattle.tlp_layout.specs.declared.head.HeadView.{HeadView};
ghost use Rattle.tlp_layout.specs.Class.{class_of};
ghost use Rattle.tlp_layout.specs.Tlp.{body_size};
ghost use Rattle.tlp_layout.specs.Reading.{read_head_of};
ghost use Rattle.ide_prefix.specs.declared.fault.PacketFault.{PacketFault};
ghost use Rattle.ide_prefix.specs.Packet.{Packet, FitsPacket, SpellsPacket, IsSync, is_sync_packet};
ghost use Rattle.ide_prefix.specs.Units.{authenticated_bytes, encrypted_bytes, packet_without_tag};
ghost use Rattle.ide_prefix.specs.Causes.{is_plain};
ghost use Rattle.ide_prefix.specs.Faults.{IsPacketFault};
ghost use Rattle.ide_prefix.specs.Reading.{cut_of, PlainTlp, IdePacket};

/// Bytes spell one packet at most, and a packet has one spelling.
pub fn one_packet()
    ensures one_value { (p q : Packet) (bytes : List ℕ)
        → SpellsPacket p bytes → SpellsPacket q bytes → p ≡ q }
    ensures one_list { (p : Packet) (a b : List ℕ) → SpellsPacket p a → SpellsPacket p b → a ≡ b }
{}

/// `cut_of` knows what is plain, cuts exactly what the grammar spells, and refuses all else at its first
/// fault.
pub fn cutting_is_grammar()
    ensures plain { (bytes : List ℕ) → (is_plain bytes ≡ true) ↔ (cut_of bytes ≡ Ok PlainTlp) }
    ensures cuts { (p : Packet) (bytes : List ℕ)
        → (SpellsPacket p bytes) ↔ (cut_of bytes ≡ Ok (IdePacket p)) }
    ensures refuses { (fault : PacketFault) (bytes : List ℕ)
        → (IsPacketFault bytes fault) ↔ (cut_of bytes ≡ Err fault) }
{}

/// A packet is a sync packet, or its header is one of the sub-stream's class that wants a payload as long
/// as its body.
pub fn carried_head()
    ensures lengths { (p : Packet) → FitsPacket p
        → (12 ≤ length p.head) × (length p.head ≤ 16) × (length p.body ≤ 4096) }
    ensures sync { (p : Packet) → FitsPacket p → (is_sync_packet p ≡ true) ↔ (IsSync p) }
    ensures carried { (p : Packet) → FitsPacket p → is_sync_packet p ≡ false
        → (h : HeadView) × (read_head_of p.head ≡ Ok h) × (class_of h ≡ p.prefix.sub)
        × (length p.body ≡ body_size h.has_payload h.lead.length) }
{}

/// The authenticated bytes and the ciphertext of a unit fix its packets, but for the tag.
pub fn one_unit()
    ensures { (x y : List Packet) → All FitsPacket x → All FitsPacket y
        → authenticated_bytes x ≡ authenticated_bytes y → encrypted_bytes x ≡ encrypted_bytes y
        → map packet_without_tag x ≡ map packet_without_tag y }
{}
