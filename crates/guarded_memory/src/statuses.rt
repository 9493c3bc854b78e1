//! How the interfaces of a device stand when a write arrives.

ghost use Rattle.std.specs.Prelude.{◌≡◌, ◌<◌, List, Some, length, slice_get};
ghost use Rattle.guarded_memory.specs.declared.status.InterfaceStatus.{InterfaceStatus};

use crate::InterfaceStatus;

/// How the interfaces of a device stand (PCI Express Base 6.0 chapter 11, in this profile).
pub trait Statuses {
    /// How they stand, by their place.
    ghost stand: { Self → List InterfaceStatus };

    /// How many interfaces there are.
    fn count(&self) -> usize
        ensures { result ≡ length (stand self.now) };

    /// How the interface at this place stands.
    fn status(&self, place: usize) -> InterfaceStatus
        requires { place < length (stand self.now) }
        ensures { slice_get (stand self.now) place ≡ Some result };
}
