//! What a call answers (this profile).

ghost use Rattle.std.specs.Prelude.{◌≡◌};

/// The answer of a call: the numbers are those of the program's exit codes, and four more.
#[derive(Clone, Copy, Debug, PartialEq, Eq)]
pub enum Answer {
    /// Done; a text is in the buffer.
    Done = 0,
    /// The topology is no plan; the line of its first fault is in the buffer, if that has room.
    Topology = 3,
    /// The line is not spelled; the line of its fault is in the buffer, if that has room.
    Script = 4,
    /// There was no memory.
    Memory = 7,
    /// The topology is longer than its limit, or the session has had as many lines as it takes.
    TooLong = 8,
    /// Done, but the buffer has no room for the text.
    Room = 9,
    /// The handle has no session.
    Closed = 10,
    /// The handle has a session already.
    Open = 11,
    /// There is no such packet, or what the last line came from was not kept.
    Absent = 12,
}

impl Answer {
    ghost use Rattle.ide_session.specs.Answers.{answer_code_of};

    /// The number of the answer, by the table of answers.
    pub fn code(self) -> u32
        ensures { result ≡ answer_code_of self }
    {
        self as u32
    }
}
