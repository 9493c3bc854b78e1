//! Pages by their names.

ghost use Rattle.std.specs.Prelude.{◌≡◌, ◌+◌, ◌≤◌, Some, if◌then◌else◌, not};
ghost use Rattle.std.specs.HashMap as hash;
ghost use Rattle.guarded_memory.specs.declared.names.PageName.{PageName};
ghost use Rattle.guarded_memory.specs.Happenings.{clears, InterfaceStopped};
ghost use Rattle.guarded_memory.specs.Contents.{is_page_name, name_at};

use crate::status::has_open_range;
use ide_types::BarPlan;
use std::collections::HashMap;
use trusted_memory::{PAGE_BYTES, Page};

/// Which page it is.
#[derive(Clone, Copy, PartialEq, Eq, Hash)]
pub struct PageName {
    /// The interface's number among those of the device.
    pub interface: usize,
    /// The BAR's number.
    pub bar: usize,
    /// The page's number in the BAR's range: the offset of its first byte is 4,096 times it.
    pub number: u64,
}

/// The name of the page that has the byte at an offset.
pub fn name_at(interface: usize, bar: usize, offset: u64) -> PageName
    ensures { result ≡ name_at interface bar offset }
{
    PageName {
        interface,
        bar,
        number: offset / PAGE_BYTES as u64,
    }
}

/// Whether the page stays if an interface with these BARs is stopped.
pub fn outlives_stop(name: &PageName, interface: usize, bars: &[BarPlan]) -> bool
    ensures { result ≡ not (clears (InterfaceStopped interface bars.now) name.now.interface name.now.bar) }
{
    interface != name.interface || has_open_range(bars, name.bar)
}

/// Puts a page there, for which there is room.
pub fn put(pages: &mut HashMap<PageName, Page>, name: PageName, page: Page)
    requires { 1 ≤ hash.spare pages.old }
    ensures there { (q : PageName) → hash.get is_page_name pages.new q
        ≡ (if is_page_name name q then Some page else hash.get is_page_name pages.old q) }
    ensures room { hash.spare pages.old ≤ hash.spare pages.new + 1 }
{
    let _ = pages.insert(name, page);
}
