//! Both directions of a stream.

ghost use Rattle.std.specs.Prelude.{◌≡◌, not, is_ok, if◌then◌else◌};
ghost use Rattle.key_slots.specs.{is_one, is_empty, program_answer, slot_in, Program, Go, Stop};

use ide_types::{KeySet, SubKind};
use key_slots::{Key, OnlyLive, SlotEmpty};
use stream_lanes::{ReceiveLanes, SendLanes};

/// The senders and the receivers of a stream, and whether a check failed. In each call `sends` says that the senders
/// are meant.
#[derive(Drop)]
pub struct Directions {
    pub tx: SendLanes,
    pub rx: ReceiveLanes,
    pub failed: bool,
}

impl Directions {
    ghost use Rattle.ide_port.specs.Both.{slots_of_lane, called_directions, rested_directions};

    /// Puts a key of this draw into a slot. Returns `OnlyLive` exactly if this slot is Live and the other holds no
    /// newer Live key: then the key comes back.
    pub fn program(
        &mut self,
        sends: bool,
        sub: SubKind,
        set: KeySet,
        key: Key,
        draw: u32,
    ) -> Result<(), OnlyLive>
        ensures answer { result ≡ program_answer (slots_of_lane sends sub self.old) (is_one set) key }
        ensures directions { self.new ≡ called_directions sends sub (Program (is_one set) key draw) self.old }
    {
        if sends {
            self.tx.program(sub, set, key, draw)
        } else {
            self.rx.program(sub, set, key, draw)
        }
    }

    /// GO: takes a Programmed key into use. Returns `SlotEmpty` exactly if the slot is Empty.
    pub fn go(&mut self, sends: bool, sub: SubKind, set: KeySet) -> Result<(), SlotEmpty>
        ensures answer { is_ok result ≡ not (is_empty (slot_in (slots_of_lane sends sub self.old) (is_one set))) }
        ensures directions { self.new ≡ called_directions sends sub (Go (is_one set)) self.old }
    {
        if sends {
            self.tx.go(sub, set)
        } else {
            self.rx.go(sub, set)
        }
    }

    /// STOP: empties a slot, with the open unit or the held packets under its key.
    pub fn stop(&mut self, sends: bool, sub: SubKind, set: KeySet)
        ensures { self.new ≡ called_directions sends sub (Stop (is_one set)) self.old }
    {
        if sends {
            self.tx.stop(sub, set);
        } else {
            self.rx.stop(sub, set);
        }
    }

    /// Ends each call: a direction without a Live slot counts from 0 again, a failure of a stream without a Live slot
    /// is forgotten, and nothing is lent any more.
    pub fn settle(&mut self)
        ensures { self.new ≡ rested_directions self.old }
    {
        self.tx.settle();
        self.rx.settle();
        self.rx.unlend();
        self.failed = self.failed && (self.tx.any_live() || self.rx.any_live());
    }
}
