//! Packets by their numbers, joined.

ghost use Rattle.std.specs.Prelude.{◌≡◌, ◌+◌, ◌<◌, ◌≤◌, ◌^◌, ◌++◌, ◌∷◌, [], OnOk, length, map, option_map, sum_by};
ghost use Rattle.std.specs.Prelude.{Some, slice_get, slice_index, slice_range, vec_len, vec_capacity};
ghost use Rattle.machine_ports.specs.Machine.{LinkPacket, packet_numbered};
ghost use Rattle.sub_stream.specs.declared.answer.MeasuredPacket.{MeasuredPacket};
ghost use Rattle.all_ends.specs.Cuts.{cut_packets};
ghost use Rattle.all_ends.specs.Packets.{packet_ends_from, port_for_each};

use ide_types::{OutOfMemory, PortName};
use std::alloc::Global;
use std::marker::Model;
use sub_stream::MeasuredPacket;

/// The most packets that one send seals.
const MOST_PACKETS: usize = 3;

/// The most bytes that one send seals.
const MOST_BYTES: usize = 4184;

/// Packets by their numbers from 1, each with the port that sealed it. A packet costs its length and 10 bytes, and room
/// for as much again.
#[derive(Drop)]
pub struct Packets {
    bytes: Vec<u8>,
    ports: Vec<PortName>,
    // where each packet ends among the bytes of all; it begins where the one before it ends
    ends: Vec<usize>,
}

impl Model for Packets {
    ghost use Rattle.std.specs.Prelude.{◌-◌, length, min, vec_len, vec_capacity};
    ghost use Rattle.all_ends.specs.Packets.{KeptPackets, packets_ending, EndThere};

    ghost Value = { KeptPackets };

    ghost view = { λ p. record {
      packets = packets_ending 0 p.ports.items p.ends.items p.bytes.items;
      byte_room = vec_capacity p.bytes - vec_len p.bytes;
      mark_room = min (vec_capacity p.ports - vec_len p.ports) (vec_capacity p.ends - vec_len p.ends);
    } };

    ghost invariant = { λ p. EndThere 0 p.ports.items p.ends.items (length p.bytes.items) };
}

impl Packets {
    /// No packets, without room.
    pub fn new(alloc: Global) -> Packets
        ensures { result.packets ≡ [] }
    {
        Packets {
            bytes: Vec::new(alloc),
            ports: Vec::new(alloc),
            ends: Vec::new(alloc),
        }
    }

    /// How many packets there are.
    pub fn count(&self) -> usize
        ensures value { result ≡ length self.now.packets }
        ensures small { result < 2 ^ 63 }
    {
        self.ports.len()
    }

    /// Takes room for what one send seals. For want of memory no packet changes.
    pub fn reserve(&mut self) -> Result<(), OutOfMemory>
        ensures packets { self.new.packets ≡ self.old.packets }
        ensures marks { OnOk result (3 ≤ self.new.mark_room) }
        ensures bytes { OnOk result (4184 ≤ self.new.byte_room) }
    {
        self.ports.reserve(MOST_PACKETS)?;
        self.ends.reserve(MOST_PACKETS)?;
        self.bytes.reserve(MOST_BYTES)?;
        Ok(())
    }

    /// Keeps the packets that one send sealed at a port; `bytes` are theirs, joined. There is room for them.
    pub fn keep(&mut self, port: PortName, packets: &[MeasuredPacket], bytes: &[u8])
        requires marks { length packets.now ≤ self.old.mark_room }
        requires bytes { length bytes.now ≤ self.old.byte_room }
        requires lengths { sum_by (λ (p : MeasuredPacket). p.length) packets.now ≡ length bytes.now }
        ensures { self.new.packets ≡ self.old.packets ++ cut_packets port (map (λ (p : MeasuredPacket). p.length)
            packets.now) bytes.now }
    {
        let start = self.bytes.len();
        self.bytes.extend_from_slice(bytes).unwrap();
        add_ends(&mut self.ports, &mut self.ends, port, packets, start);
    }

    /// The packet of this number, counted from 1, with the port that sealed it; `None` if there is no such packet.
    pub fn get(&self, number: u64) -> Option<(PortName, &[u8])>
        ensures { option_map (λ p. record { port = p.0; bytes = p.1.now }) result ≡ packet_numbered
            self.now.packets number }
    {
        if number == 0 || number > self.count() as u64 {
            None
        } else {
            Some(self.at(number as usize - 1))
        }
    }

    // Packet `i`, counted from 0, with the port that sealed it.
    fn at(&self, i: usize) -> (PortName, &[u8])
        requires { i < length self.now.packets }
        ensures { slice_get self.now.packets i ≡ Some (record { port = result.0; bytes = result.1.now }) }
    {
        let start = start_of(&self.ends, i);
        let end = self.ends[i];
        (self.ports[i], part(&self.bytes, start, end))
    }
}

// The bytes from one place to another.
fn part(bytes: &[u8], start: usize, end: usize) -> &[u8]
    requires low { start ≤ end }
    requires high { end ≤ length bytes.now }
    ensures { result.now ≡ slice_range bytes.now start end }
{
    &bytes[start..end]
}

// Where packet `i` begins, counted from 0.
fn start_of(ends: &[usize], i: usize) -> usize
    requires { i < length ends.now }
    ensures { result ≡ slice_index (0 ∷ ends.now) i }
{
    if i == 0 { 0 } else { ends[i - 1] }
}

// Adds the port and the end of each of these packets, the first of which begins at byte `start`.
fn add_ends(
    ports: &mut Vec<PortName>,
    ends: &mut Vec<usize>,
    port: PortName,
    packets: &[MeasuredPacket],
    start: usize,
)
    requires ports_room { vec_len ports.old + length packets.now ≤ vec_capacity ports.old }
    requires ends_room { vec_len ends.old + length packets.now ≤ vec_capacity ends.old }
    requires fits { start + sum_by (λ (p : MeasuredPacket). p.length) packets.now < 2 ^ 63 }
    ensures ports { ports.new.items ≡ ports.old.items ++ port_for_each port (map (λ (p : MeasuredPacket). p.length)
        packets.now) }
    ensures ends { ends.new.items ≡ ends.old.items ++ packet_ends_from start (map (λ (p : MeasuredPacket). p.length)
        packets.now) }
{
    let mut end = start;
    for packet in packets {
        end += packet.length;
        ports.push(port).unwrap();
        ends.push(end).unwrap();
    }
}
