//! Packets of an IDE stream: a prefix, a TLP's header in clear, its encrypted payload and a tag, cut into these parts
//! with the place of the first fault; and the words that stand for faults of packets and of TLPs (PCI Express Base 6.0
//! section 6.33; the layout and the words are this profile's).
//!
//! The packets of one unit are collected until its last: what is authenticated in clear and what is encrypted, each
//! joined. Only `UnitBuf::reserve` takes memory.
#![tactic(auto)]

mod cutting;
mod ends;
mod fault;
mod iv;
mod laws;
mod packet;
mod unit_buf;
mod unit_laws;
mod words;

pub use cutting::cut;
pub use fault::PacketFault;
pub use iv::unit_iv;
pub use laws::{carried_head, cutting_is_grammar, one_packet, one_unit};
pub use packet::{Cut, PACKET_FIRST, PacketView, Prefix, SYNC_FIRST, write_prefix};
pub use unit_buf::{AHEAD_BYTES, BODY_BYTES, HEAD_BYTES, MAX_PACKETS, UnitBuf, UnitFull};
pub use unit_laws::written_keeps_lengths;
pub use words::{packet_word, tlp_word};
