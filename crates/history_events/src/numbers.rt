//! The numbers that generated events are made of.

ghost use Rattle.std.specs.Prelude.{◌≡◌, ◌<◌, ◌≤◌, ◌+◌, ◌^◌};
ghost use Rattle.history_events.specs.GeneratedEvents.{following_number, value_of};
ghost use Rattle.history_events.specs.GeneratedEvents.{numbers_with_packet, without_packets};

/// What is kept between events.
#[derive(Clone, Copy, PartialEq, Eq)]
pub(crate) struct Numbers {
    /// The number of the recurrence.
    pub x: u32,
    /// How many packets were sealed, sync packets among them, provided that the keys last.
    pub packets: u64,
    /// The packet that arrives next.
    pub arriving: u64,
    /// How many posted packets were sealed since the last sync packet, up to 255.
    pub posted: u8,
}

/// The number after x in the recurrence.
pub(crate) fn following(x: u32) -> u32
    ensures { result ≡ following_number x }
{
    ((1664525 * (x as u64) + 1013904223) % 4294967296) as u32
}

/// The value of a number of the recurrence, in 16 bits.
pub(crate) fn value_of(x: u32) -> u32
    ensures value { result ≡ value_of x }
    ensures bits { result < 65536 }
{
    x / 65536
}

impl Numbers {
    /// With one packet more, and the sync packets that it takes.
    pub(crate) fn with_packet(self) -> Numbers
        requires { self.packets < 2 ^ 62 }
        ensures { result ≡ numbers_with_packet self }
    {
        if self.posted == 255 {
            let packets = self.packets + 3;
            return Numbers {
                packets,
                posted: 1,
                ..self
            };
        }
        Numbers {
            packets: self.packets + 1,
            posted: self.posted + 1,
            ..self
        }
    }

    /// With no packet that still arrives.
    pub(crate) fn without_packets(self) -> Numbers
        requires { self.packets < 2 ^ 62 }
        ensures { result ≡ without_packets self }
    {
        Numbers {
            arriving: self.packets + 1,
            posted: 0,
            ..self
        }
    }
}
