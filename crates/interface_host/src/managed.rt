//! The views of an interface, each as its own value.

ghost use Rattle.std.specs.Prelude.{◌≡◌};
ghost use Rattle.interface_host.specs.Facts.{reported_if_locked};
ghost use Rattle.interface_host.specs.Judging.{answer_shown};
ghost use Rattle.interface_host.specs.Views.{seen_of_managed, IsUnlocked, seen_after_lock, reported_view, started_view};
ghost use Rattle.interface_host.specs.Views.{compared_view, seen_after_step, broken_view};

use crate::judge::Answer;
use crate::step::Step;
use crate::tdi::{Broken, Doubt, Left, Locked, Running, Tdi, Unlocked};
use ide_types::View;

/// The manager's view of an interface, whichever it is. The device may leave a lock by itself, so this is the manager's
/// view alone.
#[derive(Drop)]
pub(crate) enum ManagedTdi {
    Unlocked(Tdi<Unlocked>),
    Locked(Tdi<Locked>),
    Running(Tdi<Running>),
    Doubt(Tdi<Doubt>),
    Broken(Tdi<Broken>),
}

impl ManagedTdi {
    ghost use Rattle.interface_host.specs.Views.{view_of, nonce_of, floor_of};

    /// As the manager begins.
    pub(crate) fn new() -> ManagedTdi
        ensures { seen_of_managed result ≡ IsUnlocked }
    {
        ManagedTdi::Unlocked(Tdi::new())
    }

    // What a move takes that can come from any view.
    fn leave(self) -> Tdi<Left> {
        match self {
            ManagedTdi::Unlocked(tdi) => tdi.leave(),
            ManagedTdi::Locked(tdi) => tdi.leave(),
            ManagedTdi::Running(tdi) => tdi.leave(),
            ManagedTdi::Doubt(tdi) => tdi.leave(),
            ManagedTdi::Broken(tdi) => tdi.leave(),
        }
    }

    /// Which it is.
    pub(crate) fn view(&self) -> View
        ensures { result ≡ view_of (seen_of_managed self.now) }
    {
        match self {
            ManagedTdi::Unlocked(_) => View::Unlocked,
            ManagedTdi::Locked(_) => View::Locked,
            ManagedTdi::Running(_) => View::Running,
            ManagedTdi::Doubt(_) => View::Doubt,
            ManagedTdi::Broken(_) => View::Broken,
        }
    }

    /// The draw that the stream of a run had as it was started.
    pub(crate) fn floor(&self) -> Option<u32>
        ensures { result ≡ floor_of (seen_of_managed self.now) }
    {
        match self {
            ManagedTdi::Running(tdi) => Some(tdi.floor()),
            _ => None,
        }
    }

    /// The nonce of a lock; 32 zero bytes stand for none.
    pub(crate) fn nonce(&self) -> [u8; 32]
        ensures { result ≡ nonce_of (seen_of_managed self.now) }
    {
        match self {
            ManagedTdi::Locked(tdi) => tdi.nonce(),
            _ => [0; 32],
        }
    }

    // The device locked it with this nonce.
    fn locked(self, nonce: [u8; 32]) -> ManagedTdi
        ensures { seen_of_managed result ≡ seen_after_lock nonce (seen_of_managed self) }
    {
        match self {
            ManagedTdi::Unlocked(tdi) => ManagedTdi::Locked(tdi.lock(nonce)),
            managed => managed,
        }
    }

    // Its report was read.
    fn reported(self) -> ManagedTdi
        ensures { seen_of_managed result ≡ reported_view (seen_of_managed self) }
    {
        match self {
            ManagedTdi::Locked(tdi) => ManagedTdi::Locked(tdi.report()),
            managed => managed,
        }
    }

    // The device started it, with its stream under this draw.
    fn started(self, draw: u32) -> ManagedTdi
        ensures { seen_of_managed result ≡ started_view draw (seen_of_managed self) }
    {
        match self {
            ManagedTdi::Locked(tdi) => ManagedTdi::Running(tdi.start(draw)),
            managed => managed,
        }
    }

    // The device is in the state of this code.
    fn compared(self, code: u8) -> ManagedTdi
        ensures { seen_of_managed result ≡ compared_view code (seen_of_managed self) }
    {
        match self {
            ManagedTdi::Locked(tdi) => {
                if code == 1 {
                    ManagedTdi::Locked(tdi)
                } else {
                    ManagedTdi::Broken(tdi.leave().break_lock())
                }
            }
            ManagedTdi::Running(tdi) => {
                if code == 2 {
                    ManagedTdi::Running(tdi)
                } else {
                    ManagedTdi::Broken(tdi.leave().break_lock())
                }
            }
            managed => managed,
        }
    }

    /// What ends a lock happened: a view of a lock, and one in doubt, breaks.
    pub(crate) fn broken(self) -> ManagedTdi
        ensures { seen_of_managed result ≡ broken_view (seen_of_managed self) }
    {
        match self {
            ManagedTdi::Unlocked(tdi) => ManagedTdi::Unlocked(tdi),
            managed => ManagedTdi::Broken(managed.leave().break_lock()),
        }
    }

    /// The view after an exchange; `draw` is that of the bound stream.
    pub(crate) fn after(self, step: Step, draw: u32, answer: Answer) -> ManagedTdi
        ensures { seen_of_managed result ≡ seen_after_step step draw (answer_shown answer.entry)
            (seen_of_managed self) }
    {
        match (step, answer) {
            (Step::Lock, Answer::Nonce(nonce)) => self.locked(nonce),
            (Step::Report, Answer::Portion { remainder: 0, .. }) => self.reported(),
            (Step::Start, Answer::Passed) => self.started(draw),
            (Step::Start, Answer::Refused(_)) => ManagedTdi::Broken(self.leave().break_lock()),
            (Step::Halt, Answer::Passed) => ManagedTdi::Unlocked(self.leave().halt()),
            (Step::State, Answer::State(code)) => self.compared(code),
            (Step::Lock | Step::Halt, Answer::Refused(_)) => self,
            (Step::Lock | Step::Start | Step::Halt, _) => ManagedTdi::Doubt(self.leave().doubt()),
            _ => self,
        }
    }
}

// ---- what is seen of it

impl ManagedTdi {
    /// Whether the report of a lock was read; `None` if it is no lock.
    pub(crate) fn reported_if_locked(&self) -> Option<bool>
        ensures { result ≡ reported_if_locked (seen_of_managed self.now) }
    {
        match self {
            ManagedTdi::Locked(tdi) => Some(tdi.is_reported()),
            ManagedTdi::Unlocked(_) | ManagedTdi::Running(_) => None,
            ManagedTdi::Doubt(_) | ManagedTdi::Broken(_) => None,
        }
    }
}
