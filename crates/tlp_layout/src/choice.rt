//! The stream that a TLP takes.

/// How a stream takes a TLP (PCI Express Base 6.0 section 6.33; the order is this profile's).
#[derive(Clone, Copy)]
pub enum Way {
    /// As a selective stream with a range that holds the TLP's address or ID.
    ByRange,
    /// As the selective stream that takes what no range holds.
    ByDefault,
    /// As the link stream that lists the TLP's traffic class.
    ByClass,
}

/// The stream of a table that takes a TLP.
#[derive(Clone, Copy)]
pub struct ChosenStream {
    /// How it takes the TLP.
    pub way: Way,
    /// Its stream ID.
    pub id: u8,
    /// The place of this ID in the table, the first if it stands there twice.
    pub place: usize,
}
