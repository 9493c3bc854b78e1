//! Memory that is shown.

ghost use Rattle.std.specs.Prelude.{◌≡◌, ℕ, Bool, true, length};
ghost use Rattle.trusted_memory.specs.Memory.{byte_at, bytes_from};

use crate::Trusted;

/// Memory whose bytes can be shown, by addresses (this profile).
pub trait ShownMemory {
    /// The byte at each address.
    ghost byte: { Self → ℕ → ℕ };

    /// Whether it shows as many bytes from an address on.
    ghost shows: { Self → ℕ → ℕ → Bool };

    /// Copies the bytes from an address on into `buf`. That it shows them is the caller's condition.
    fn show(&self, at: u64, buf: &mut [u8])
        requires { shows self.now at (length buf.old) ≡ true }
        ensures { buf.new ≡ bytes_from (byte self.now) at (length buf.old) };
}

/// It shows 0 of each byte that no region has.
impl ShownMemory for Trusted {
    ghost byte = { λ m. byte_at m.contents };

    ghost shows = { λ m at n. true };

    fn show(&self, at: u64, buf: &mut [u8]) {
        self.copy(at, buf);
    }
}
