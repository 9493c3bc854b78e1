//! The manager's view of an interface as a value that moves consume.

ghost use Rattle.std.specs.Prelude.{◌≡◌, true, false};

/// The manager's view of an interface (this profile). It is neither `Copy` nor `Clone`, and only `new` makes one from
/// nothing: each move takes the view that it leaves and gives the next one. So an interface has one view at a time, no
/// lock is started twice, and no nonce outlives its view.
#[derive(Drop)]
pub struct Tdi<S> {
    state: S,
}

/// Not locked, or halted.
#[derive(Drop)]
pub struct Unlocked {}

/// Locked, with the nonce that starts it; whether its report was read.
#[derive(Drop)]
pub struct Locked {
    nonce: [u8; 32],
    is_reported: bool,
}

/// Started while its stream had this draw.
#[derive(Drop)]
pub struct Running {
    floor: u32,
}

/// A message was lost that may have changed it.
#[derive(Drop)]
pub struct Doubt {}

/// It left its lock, or its stream was stopped.
#[derive(Drop)]
pub struct Broken {}

/// Between two of these: a move has taken the old view, whichever it was.
#[derive(Drop)]
pub struct Left {}

impl<S: Drop> Tdi<S> {
    /// A move takes it that can come from any view.
    pub(crate) fn leave(self) -> Tdi<Left> {
        Tdi { state: Left {} }
    }
}

impl Tdi<Left> {
    /// The device halted it.
    pub(crate) fn halt(self) -> Tdi<Unlocked> {
        Tdi { state: Unlocked {} }
    }

    /// A message was lost that may have changed it.
    pub(crate) fn doubt(self) -> Tdi<Doubt> {
        Tdi { state: Doubt {} }
    }

    /// What ends a lock happened.
    pub(crate) fn break_lock(self) -> Tdi<Broken> {
        Tdi { state: Broken {} }
    }
}

impl Tdi<Unlocked> {
    /// The view of an interface as the manager begins.
    pub(crate) fn new() -> Tdi<Unlocked> {
        Tdi { state: Unlocked {} }
    }

    /// The device locked it with this nonce.
    pub(crate) fn lock(self, nonce: [u8; 32]) -> Tdi<Locked>
        ensures { result ≡ record { state = record { nonce = nonce; is_reported = false } } }
    {
        Tdi {
            state: Locked {
                nonce,
                is_reported: false,
            },
        }
    }
}

impl Tdi<Locked> {
    /// Its report was read.
    pub(crate) fn report(self) -> Tdi<Locked>
        ensures { result ≡ record { state = record { nonce = self.state.nonce; is_reported = true } } }
    {
        let Tdi { state } = self;
        let Locked {
            nonce,
            is_reported: _,
        } = state;
        Tdi {
            state: Locked {
                nonce,
                is_reported: true,
            },
        }
    }

    /// The device started it, with its stream under this draw. The nonce goes.
    pub(crate) fn start(self, floor: u32) -> Tdi<Running>
        ensures { result ≡ record { state = record { floor = floor } } }
    {
        Tdi {
            state: Running { floor },
        }
    }

    /// The nonce of the lock.
    pub(crate) fn nonce(&self) -> [u8; 32]
        ensures { result ≡ self.now.state.nonce }
    {
        self.state.nonce
    }

    /// Whether its report was read.
    pub(crate) fn is_reported(&self) -> bool
        ensures { result ≡ self.now.state.is_reported }
    {
        self.state.is_reported
    }
}

impl Tdi<Running> {
    /// The draw that its stream had as it was started.
    pub(crate) fn floor(&self) -> u32
        ensures { result ≡ self.now.state.floor }
    {
        self.state.floor
    }
}
