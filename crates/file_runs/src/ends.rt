//! How a part of the program ends (this profile).

/// How the program ends if nothing cuts it off.
#[derive(Clone, Copy, Debug, PartialEq, Eq)]
pub enum End {
    /// All input was read, and all lines were written.
    Done,
    /// A text is not the one that is due.
    Differs,
    /// The words ask for nothing.
    Usage,
    /// The topology is no plan.
    Topology,
    /// A line is not spelled.
    Script,
    /// The script has no event of the number that is asked for.
    NoEvent,
    /// A file is longer than its limit.
    TooLong,
}

/// What cuts the program off.
#[derive(Clone, Copy, Debug, PartialEq, Eq)]
pub enum Fault {
    /// A file could not be read.
    Read,
    /// Text could not be written.
    Write,
    /// Want of memory.
    Memory,
}
