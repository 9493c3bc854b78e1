//! One sub-stream in one direction: its sender, which seals units, and its receiver, which accepts them, each over two
//! key slots and a buffer for the packets of one unit (PCI Express Base 6.0 section 6.33, in this profile). No call
//! takes memory.
#![tactic(auto)]

mod answer;
mod facts;
mod lent;
mod received;
mod receiver;
mod sender;
mod unit_packets;

pub use answer::{MeasuredPacket, Taken, TxRefusal};
pub use facts::{LaneFacts, ReceiverFacts, SenderFacts, SetFacts, SlotFacts, StreamFacts};
pub use lent::Delivered;
pub use receiver::Rx;
pub use sender::{PACKET_ROOM, PAYLOAD_BYTES, ReadyKey, SYNC_ROOM, TLP_HEAD_BYTES, Tx};
