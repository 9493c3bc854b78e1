//! The initialization vector of a unit.

ghost use Rattle.std.specs.Prelude.{◌≡◌};
ghost use Rattle.ide_prefix.specs.Iv.{iv_of};

use byteorder::{BigEndian, ByteOrder};
use ide_types::SubKind;

/// The initialization vector of a unit by its number, which is 1 for the first unit under a key: the
/// sub-stream's number in the highest 4 bits of 12 bytes, and the unit's number in the last 64 (this
/// profile, after PCI Express Base 6.0 section 6.33).
pub fn unit_iv(sub: SubKind, unit: u64) -> [u8; 12]
    ensures { result ≡ iv_of sub unit }
{
    let mut number = [0; 8];
    BigEndian::write_u64(&mut number, unit);
    let [a, b, c, d, e, f, g, h] = number;
    [0x10 * sub.number(), 0, 0, 0, a, b, c, d, e, f, g, h]
}
