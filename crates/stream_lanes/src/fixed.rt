//! What never changes of a stream.

ghost use Rattle.std.specs.Prelude.{◌≡◌, if◌then◌else◌, []};
ghost use Rattle.sub_stream.specs.Gathered.{lent_totals};

/// The stream's ID, the most packets of a unit, the most units under one key, and whether the stream is closed: then
/// the total of units finished before is authenticated before the packets of a key's first unit.
#[derive(Clone, Copy)]
pub struct Fixed {
    pub stream: u8,
    pub aggregation: u8,
    pub limit: u64,
    pub closed: bool,
}

/// What is authenticated before the packets of a key's first unit: on a closed stream the total of units finished
/// before, 8 bytes; on an open one nothing.
pub fn lent_total(closed: bool, total: &[u8; 8]) -> Option<&[u8; 8]>
    ensures { lent_totals result ≡ (if closed then total.now else []) }
{
    if closed { Some(total) } else { None }
}
