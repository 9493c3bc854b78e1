//! What became of a key (this profile).

ghost use Rattle.std.specs.Prelude.{◌≡◌};
ghost use Rattle.key_messages.specs.Replies.{status_code};

/// What became of a key, as KP_ACK says it.
#[derive(Clone, Copy, PartialEq, Eq)]
pub enum KeyStatus {
    Success,
    /// The request has another length than 48 bytes.
    Length,
    /// The port index is not 0.
    Port,
    /// No such stream or sub-stream, another initial counter than 1, or a slot that may not be programmed.
    Refused,
}

impl KeyStatus {
    /// Its number in KP_ACK.
    pub fn code(self) -> u8
        ensures { result ≡ status_code self }
    {
        match self {
            KeyStatus::Success => 0,
            KeyStatus::Length => 1,
            KeyStatus::Port => 2,
            KeyStatus::Refused => 3,
        }
    }
}
