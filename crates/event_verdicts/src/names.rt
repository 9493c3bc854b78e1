//! The words that stand for names in verdict lines.

ghost use Rattle.std.specs.Prelude.{Some};
ghost use Rattle.event_verdicts.specs.Lines.{block_word, effect_word, operation_word};

use crate::{BlockCause, Effect, Operation};
use std::fmt;

impl fmt::Display for BlockCause {
    ghost output = { λ c. Some (block_word c) };

    fn fmt<W: fmt::Write>(&self, f: &mut fmt::Formatter<W>) -> fmt::Result {
        f.write_str(match self {
            BlockCause::NotTrusted => "nottrusted",
            BlockCause::NotRunning => "notrunning",
            BlockCause::WrongStream => "wrongstream",
            BlockCause::Stale => "stale",
            BlockCause::Outside => "outside",
            BlockCause::Crosses => "crosses",
            BlockCause::Full => "full",
            BlockCause::Moved => "moved",
        })
    }
}

impl fmt::Display for Effect {
    ghost output = { λ e. Some (effect_word e) };

    fn fmt<W: fmt::Write>(&self, f: &mut fmt::Formatter<W>) -> fmt::Result {
        match self {
            Effect::Sync => f.write_str("sync"),
            Effect::Delivered => f.write_str("delivered"),
            Effect::Applied => f.write_str("applied"),
            Effect::Queued => f.write_str("queued"),
            Effect::Stored => f.write_str("stored"),
            Effect::Waiting => f.write_str("waiting"),
            Effect::Blocked(cause) => write!(f, "blocked:{cause}"),
        }
    }
}

impl fmt::Display for Operation {
    ghost output = { λ o. Some (operation_word o) };

    fn fmt<W: fmt::Write>(&self, f: &mut fmt::Formatter<W>) -> fmt::Result {
        f.write_str(match self {
            Operation::Establish => "establish",
            Operation::Refresh => "refresh",
            Operation::Stop => "stop",
        })
    }
}
