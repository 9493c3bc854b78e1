//! The replies of the device.

/// A reply (TDISP section 11.3, in this profile's layout), with its lists lent; `function` is that of the request.
#[derive(Clone, Copy)]
pub enum ReplyView<'a> {
    /// 0x01: the versions that the device speaks, 0x10 being 1.0; at most 255.
    Version {
        function: u32,
        versions: &'a [u8],
    },
    /// 0x02: what the device can do. Bit n of `requests` stands for request 0x80 + n; `lock_flags` are those that it
    /// allows, `width` is that of its addresses in bits, and the last two are how many requests it may be sent at once,
    /// for this interface and for all.
    Capabilities {
        function: u32,
        device: u32,
        requests: [u8; 16],
        lock_flags: u16,
        width: u8,
        num_req_this: u8,
        num_req_all: u8,
    },
    /// 0x03: locked, with the nonce that starts it.
    LockInterface {
        function: u32,
        nonce: [u8; 32],
    },
    /// 0x04: a part of the report, at most 65,535 bytes, and how many bytes follow it.
    DeviceInterfaceReport {
        function: u32,
        remainder: u16,
        portion: &'a [u8],
    },
    /// 0x05: the interface's state: 0 unlocked, 1 locked, 2 run, 3 error.
    DeviceInterfaceState {
        function: u32,
        state: u8,
    },
    /// 0x06: started.
    StartInterface {
        function: u32,
    },
    /// 0x07: stopped.
    StopInterface {
        function: u32,
    },
    /// 0x08: bound to the stream.
    BindP2p {
        function: u32,
    },
    /// 0x09: no longer bound to the stream.
    UnbindP2p {
        function: u32,
    },
    /// 0x7f: refused, for the cause that the code says.
    Error {
        function: u32,
        code: u32,
        value: u32,
    },
}
