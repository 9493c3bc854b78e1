//! What is seen of the key slots of a sub-stream, and of what is counted beside them (this profile).

ghost use Rattle.std.specs.Prelude.{◌≡◌, List, length};
ghost use Rattle.ide_prefix.specs.Packet.{Packet};
ghost use Rattle.key_slots.specs.{slot_in, is_one};
ghost use Rattle.sub_stream.specs.Facts.{slot_facts};
ghost use Rattle.sub_stream.specs.Seen.{slot_as_seen};

use ide_types::{KeySet, StreamStatus, SubKind};
use key_slots::{SlotState, Slots};

/// A key slot as it is seen: without a key; with one that waits for its K_SET_GO; with one of a sender that waits for
/// the end of the older key's unit; with one in use. A draw is said by its number, and of a key in use how many units
/// were finished under it, and how many packets there are of the next (PCI Express Base 6.0 section 6.33).
#[derive(Clone, Copy, PartialEq, Eq)]
pub enum SlotFacts {
    Empty,
    Programmed { draw: u32 },
    Armed { draw: u32 },
    Live { draw: u32, units: u64, packets: u8 },
}

/// The slots of both key sets, of a sender or of a receiver of one sub-stream.
#[derive(Clone, Copy, PartialEq, Eq)]
pub struct SetFacts {
    pub zero: SlotFacts,
    pub one: SlotFacts,
}

/// What a sender keeps: its slots, the posted count of its next packet, and how many units it finished.
#[derive(Clone, Copy, PartialEq, Eq)]
pub struct SenderFacts {
    pub sets: SetFacts,
    pub posted: u8,
    pub total: u64,
}

/// What a receiver keeps: its slots, and of the units that it accepted the sum of the posted counts of their packets,
/// how many packets, and how many units.
#[derive(Clone, Copy, PartialEq, Eq)]
pub struct ReceiverFacts {
    pub sets: SetFacts,
    pub sum: u64,
    pub got: u64,
    pub total: u64,
}

/// What the sender and the receiver of a sub-stream keep.
#[derive(Clone, Copy, PartialEq, Eq)]
pub struct LaneFacts {
    pub sender: SenderFacts,
    pub receiver: ReceiverFacts,
}

/// What a stream keeps at a port: whether it is closed, whether it failed, its status, and its sub-streams.
#[derive(Clone, Copy, PartialEq, Eq)]
pub struct StreamFacts {
    pub closed: bool,
    pub failed: bool,
    pub status: StreamStatus,
    pub pr: LaneFacts,
    pub npr: LaneFacts,
    pub cpl: LaneFacts,
}

impl StreamFacts {
    ghost use Rattle.sub_stream.specs.Facts.{lane_seen};

    /// Those of a sub-stream.
    pub fn at(&self, sub: SubKind) -> LaneFacts
        ensures { result ≡ lane_seen self.now sub }
    {
        match sub {
            SubKind::Pr => self.pr,
            SubKind::Npr => self.npr,
            SubKind::Cpl => self.cpl,
        }
    }
}

// A slot, with the units and the packets of the next one that are counted if its key is Live.
pub(crate) fn slot_facts(slots: &Slots, set: KeySet, units: u64, packets: u8) -> SlotFacts
    ensures { (ps : List Packet) → length ps ≡ packets
        → result ≡ slot_facts (slot_as_seen units ps (slot_in slots.now (is_one set))) }
{
    match slots.slot(set) {
        (SlotState::Programmed, Some((_, draw))) => SlotFacts::Programmed { draw },
        (SlotState::Armed, Some((_, draw))) => SlotFacts::Armed { draw },
        (SlotState::Live, Some((_, draw))) => SlotFacts::Live {
            draw,
            units,
            packets,
        },
        _ => SlotFacts::Empty,
    }
}
