//! The states of a device interface.

ghost use Rattle.std.specs.Prelude.{◌≡◌};
ghost use Rattle.std.specs.Str.{bytes_eq};
ghost use Rattle.interface_state.specs.Machine.{after_change, bound_link_stream, after_failure, is_locked, is_unlocked};
ghost use Rattle.interface_state.specs.Machine.{lock_flags, start_answer, after_start, state_code};

use crate::error_codes::ErrorCode;
use crate::register_set::Registers;

/// What an accepted LOCK_INTERFACE keeps (TDISP section 11.3).
#[derive(Clone, Copy, PartialEq, Eq)]
pub struct Lock {
    /// Its flags: bit 0 no firmware update, 1 system cache line size, 2 lock MSI-X, 3
    /// bind P2P, 4 all request redirect.
    pub flags: u16,
    /// The stream of the link that it binds the interface to.
    pub stream: u8,
    /// Its MMIO reporting offset in bytes, a multiple of 4,096.
    pub offset: u64,
    /// The registers as they stood then.
    pub registers: Registers,
}

/// The state of a device interface (TDISP section 11.1), with what the lock that stands kept. The nonce of a lock is
/// there until START_INTERFACE, STOP_INTERFACE or an error uses it up.
#[derive(Clone, Copy, PartialEq, Eq)]
pub enum TdiState {
    /// The host may change what it likes.
    ConfigUnlocked,
    /// Locked, with the nonce that starts it.
    ConfigLocked { lock: Lock, nonce: [u8; 32] },
    /// Running under a lock: its requests are trusted on the bound stream.
    Run { lock: Lock },
    /// A lock was broken.
    Error,
}

fn is_same_nonce(nonce: &[u8; 32], held: &[u8; 32]) -> bool
    ensures { result ≡ bytes_eq nonce.now held.now }
{
    nonce.as_slice() == held.as_slice()
}

impl TdiState {
    /// Its code: CONFIG_UNLOCKED 0, CONFIG_LOCKED 1, RUN 2, ERROR 3.
    pub fn code(&self) -> u8
        ensures { result ≡ state_code self.now }
    {
        match self {
            TdiState::ConfigUnlocked => 0,
            TdiState::ConfigLocked { .. } => 1,
            TdiState::Run { .. } => 2,
            TdiState::Error => 3,
        }
    }

    pub(crate) fn is_unlocked(&self) -> bool
        ensures { result ≡ is_unlocked self.now }
    {
        matches!(self, TdiState::ConfigUnlocked)
    }

    /// Whether a lock stands.
    pub(crate) fn is_locked(&self) -> bool
        ensures { result ≡ is_locked self.now }
    {
        matches!(self, TdiState::ConfigLocked { .. } | TdiState::Run { .. })
    }

    /// The stream of the link that the interface is bound to.
    pub(crate) fn bound(&self) -> Option<u8>
        ensures { result ≡ bound_link_stream self.now }
    {
        match self {
            TdiState::ConfigLocked { lock, .. } => Some(lock.stream),
            TdiState::Run { lock } => Some(lock.stream),
            _ => None,
        }
    }

    /// The flags of the lock that stands, 0 without one.
    pub(crate) fn flags(&self) -> u16
        ensures { result ≡ lock_flags self.now }
    {
        match self {
            TdiState::ConfigLocked { lock, .. } => lock.flags,
            TdiState::Run { lock } => lock.flags,
            _ => 0,
        }
    }

    /// The answer to START_INTERFACE with this nonce.
    pub(crate) fn start_answer(&self, nonce: &[u8; 32]) -> Result<(), u32>
        ensures { result ≡ start_answer self.now nonce.now }
    {
        match self {
            TdiState::ConfigLocked { nonce: held, .. } => {
                if is_same_nonce(nonce, held) {
                    Ok(())
                } else {
                    Err(ErrorCode::InvalidNonce.code())
                }
            }
            _ => Err(ErrorCode::InvalidInterfaceState.code()),
        }
    }

    /// The state after START_INTERFACE with this nonce.
    pub(crate) fn started(self, nonce: &[u8; 32]) -> TdiState
        ensures { result ≡ after_start self nonce.now }
    {
        match self {
            TdiState::ConfigLocked { lock, nonce: held } => {
                if is_same_nonce(nonce, &held) {
                    TdiState::Run { lock }
                } else {
                    self
                }
            }
            _ => self,
        }
    }

    /// The state after what ends a lock.
    pub(crate) fn failed(self) -> TdiState
        ensures { result ≡ after_failure self }
    {
        match self {
            TdiState::ConfigLocked { .. } => TdiState::Error,
            TdiState::Run { .. } => TdiState::Error,
            _ => self,
        }
    }

    /// The state after a change that is listed or not.
    pub(crate) fn after_change(self, is_listed: bool) -> TdiState
        ensures { result ≡ after_change is_listed self }
    {
        if is_listed { self.failed() } else { self }
    }
}
