//! The machine stands for the whole history.

ghost use Rattle.machine_ports.specs.Stands.{PacketsStand};
ghost use Rattle.machine_ports.specs.Through.{ThroughStays};

/// If the ports and packets that are kept stand for a history, the machine answers each send, forward, arrival and dump
/// with the verdict that is due, and what it keeps after it stands for the history with that pair.
pub fn packets_stand()
    ensures { PacketsStand }
{}

/// Bytes that go through a switch leave all that is kept as it was.
pub fn through_stays()
    ensures { ThroughStays }
{}
