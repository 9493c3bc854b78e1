//! The line of the verdict of an event on a trusted read or on guarded memory.

ghost use Rattle.std.specs.Prelude.{◌≡◌, ◌++◌, IfOk, string_bytes};
ghost use Rattle.std.specs.Fmt.{decimal};
ghost use Rattle.ide_types.specs.Names.{joined_words};
ghost use Rattle.event_verdicts.specs.AccessLines.{access_words};

use crate::AccessVerdict;
use crate::interface_lines::bytes_text;
use std::alloc::{AllocError, Global};

pub(crate) fn access_text(
    alloc: Global,
    number: u64,
    verdict: &AccessVerdict,
) -> Result<String, AllocError>
    ensures { IfOk result (λ s. string_bytes s ≡ decimal number ++ joined_words (access_words verdict.now)) }
{
    match verdict {
        AccessVerdict::Empty { link } => format!(in alloc; "{number} empty {link}\n"),
        AccessVerdict::Dropped { interface, cause } => format!(in alloc;
            "{number} dropped {interface} {cause}\n"
        ),
        AccessVerdict::Mmio { bytes } => {
            let bytes = bytes_text(alloc, bytes)?;
            format!(in alloc; "{number} mmio {bytes}\n")
        }
    }
}
