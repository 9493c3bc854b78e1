//! The report of an interface (TDISP section 11.3, in this profile's layout).

ghost use Rattle.std.specs.Prelude.{◌≡◌, ◌%◌, length};
ghost use Rattle.std.specs.List.{flat_map};
ghost use Rattle.tdisp_codec.specs.Ranges.{range_bytes, ranges_in};

use byteorder::{ByteOrder, LittleEndian};

/// An MMIO range of an interface (TDISP section 11.3): the first page by its number, how many pages of 4,096 bytes, its
/// attributes (bit 0 MSI-X table, 1 MSI-X PBA, 2 memory outside the trusted domain, 3 updatable), and its ID, the BAR's
/// number.
#[derive(Clone, Copy, PartialEq, Eq)]
pub struct ReportRange {
    pub first_page: u64,
    pub pages: u32,
    pub attributes: u16,
    pub id: u16,
}

/// Ranges, lent as their bytes, 16 each (TDISP section 11.3).
#[derive(Clone, Copy)]
pub struct Ranges<'a> {
    pub bytes: &'a [u8],
    ghost whole: { length bytes.now % 16 ≡ 0 },
}

/// The report of an interface (TDISP section 11.3), with its lists lent. Of `info` bit 0 is
/// firmware updates not permitted, 1 DMA without PASID, 2 DMA with PASID, 3 ATS, 4 PRS; `msix`, `lnr` and `tph` are the
/// control registers; `device` is the device's own information. There are at most 2^32 - 1 ranges and bytes of it.
#[derive(Clone, Copy)]
pub struct ReportView<'a> {
    pub info: u16,
    pub msix: u16,
    pub lnr: u16,
    pub tph: u32,
    pub ranges: Ranges<'a>,
    pub device: &'a [u8],
}

/// The bytes, which are those of the ranges in them.
fn whole(bytes: &[u8]) -> &[u8]
    requires { length bytes.now % 16 ≡ 0 }
    ensures bytes { result.now ≡ bytes.now }
    ensures spelled { flat_map range_bytes (ranges_in bytes.now) ≡ bytes.now }
{
    bytes
}

impl ReportRange {
    ghost use Rattle.std.specs.Prelude.{◌≡◌};
    ghost use Rattle.tdisp_codec.specs.Ranges.{range_bytes};

    /// Its bytes, as a report has them.
    pub fn to_bytes(self) -> [u8; 16]
        ensures { result ≡ range_bytes self }
    {
        let mut bytes = [0; 16];
        LittleEndian::write_u64(&mut bytes, self.first_page);
        LittleEndian::write_u32(&mut bytes[8..], self.pages);
        LittleEndian::write_u16(&mut bytes[12..], self.attributes);
        LittleEndian::write_u16(&mut bytes[14..], self.id);
        bytes
    }
}

impl<'a> Ranges<'a> {
    ghost use Rattle.std.specs.Prelude.{◌≡◌, ◌%◌, length};
    ghost use Rattle.std.specs.List.{flat_map};
    ghost use Rattle.tdisp_codec.specs.Ranges.{range_bytes, ranges_in};

    /// The ranges in these bytes, 16 each.
    pub fn new(bytes: &'a [u8]) -> Ranges<'a>
        requires { length bytes.now % 16 ≡ 0 }
        ensures { result.bytes.now ≡ bytes.now }
    {
        Ranges { bytes }
    }

    /// Their bytes.
    pub fn as_bytes(&self) -> &'a [u8]
        ensures bytes { result.now ≡ self.now.bytes.now }
        ensures spelled { flat_map range_bytes (ranges_in self.now.bytes.now) ≡ result.now }
    {
        whole(self.bytes)
    }
}
