//! Why a text is no plan (this profile).

ghost use Rattle.std.specs.Prelude.{◌≡◌};
ghost use Rattle.toml_walk.specs.declared.fault.PlanError.TheVariants.{Memory};

use ide_types::Bytes;
use std::alloc::{AllocError, AllocFailed};

/// Why a key is refused.
#[derive(Clone, Copy)]
pub enum KeyFault {
    /// The key is not there and has no default.
    Missing,
    /// The key's value is of another kind.
    Kind,
    /// The key's value is outside its bounds: the number, the length of a text in bytes or of a list in elements, or 1
    /// for `true`.
    Range(i64),
    /// Two elements of the list may not stand beside each other: their places, the least such pair.
    Repeated(usize, usize),
    /// No table has such a key.
    Unknown,
    /// The list has too many elements.
    Limit,
}

/// The first fault of a walk.
#[derive(Drop)]
pub enum PlanFault {
    /// The bytes are no TOML text.
    NotToml,
    /// A key is refused. Its path names it: keys, each as TOML writes it, and places in lists, joined by dots.
    At { path: Bytes, fault: KeyFault },
}

/// Why there is no plan: there was no memory, or the text has a fault.
#[derive(Drop)]
pub enum PlanError {
    Memory,
    Fault(PlanFault),
}

impl From<AllocError> for PlanError {
    ghost from_gives = { λ _ e. e ≡ Memory };

    fn from(_e: AllocError) -> PlanError {
        PlanError::Memory
    }
}

impl<T: Drop> From<AllocFailed<T>> for PlanError {
    ghost from_gives = { λ _ e. e ≡ Memory };

    fn from(_e: AllocFailed<T>) -> PlanError {
        PlanError::Memory
    }
}

impl From<ide_types::OutOfMemory> for PlanError {
    ghost from_gives = { λ _ e. e ≡ Memory };

    fn from(_e: ide_types::OutOfMemory) -> PlanError {
        PlanError::Memory
    }
}
