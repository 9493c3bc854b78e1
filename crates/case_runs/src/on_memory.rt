//! Cases of trusted memory and of the memory of interfaces, whose verdicts were worked out by hand.

ghost use Rattle.case_runs.specs.MemoryCases.{MemoryCases};
ghost use Rattle.case_runs.specs.ReadCases.{ReadCases};
ghost use Rattle.case_runs.specs.MmioCases.{MmioCases};
ghost use Rattle.case_runs.specs.DeviceReadCases.{DeviceReadCases};

/// Each of these events has the verdict that was worked out by hand.
pub fn memory_cases()
    ensures { MemoryCases }
{}

/// Each of these events of trusted reads has the verdict that was worked out by hand, and the completion the bytes.
pub fn read_cases()
    ensures { ReadCases }
{}

/// Each of these events of guarded memory has the verdict that was worked out by hand.
pub fn mmio_cases()
    ensures { MmioCases }
{}

/// Each of these events of reads of a device's memory has the verdict that was worked out by hand, and the completion
/// the bytes.
pub fn device_read_cases()
    ensures { DeviceReadCases }
{}
