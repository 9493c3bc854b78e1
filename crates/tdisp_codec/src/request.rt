//! The requests of the host.

/// A request (TDISP section 11.3, in this profile's layout). `function` is the function ID of the interface: the
/// requester ID in bits 15:0, the segment in bits 23:16, bit 24 whether that is valid, and reserved bits that are kept
/// as they came.
#[derive(Clone, Copy, PartialEq, Eq)]
pub enum RequestView {
    /// 0x81: which versions the device speaks.
    GetVersion {
        function: u32,
    },
    /// 0x82: what the device can do.
    GetCapabilities {
        function: u32,
    },
    /// 0x83: locks the interface. Of `flags` bit 0 is no firmware update, 1 system cache line size, 2 lock MSI-X, 3
    /// bind P2P, 4 all request redirect; `stream` is the default stream's ID, `offset` the MMIO reporting offset in
    /// bytes, and `mask` the P2P mask.
    LockInterface {
        function: u32,
        flags: u16,
        stream: u8,
        offset: u64,
        mask: u64,
    },
    /// 0x84: a part of the interface's report, at most `length` bytes from byte `offset` on.
    GetDeviceInterfaceReport {
        function: u32,
        offset: u16,
        length: u16,
    },
    /// 0x85: the interface's state.
    GetDeviceInterfaceState {
        function: u32,
    },
    /// 0x86: starts the interface, by the nonce of its lock.
    StartInterface {
        function: u32,
        nonce: [u8; 32],
    },
    /// 0x87: stops and unlocks the interface.
    StopInterface {
        function: u32,
    },
    /// 0x88: binds the interface to the stream of this ID between its device and another.
    BindP2p {
        function: u32,
        stream: u8,
    },
    /// 0x89: ends that binding.
    UnbindP2p {
        function: u32,
        stream: u8,
    },
}
