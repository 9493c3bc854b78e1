//! The objects of key management (this profile).

/// An object of key management (PCI Express Base 6.0 section 6.33). `port` is a port
/// index; `selector` has the key set in bit 0, the direction at the device in bit 1 (0 receives, 1 sends), and the
/// sub-stream in bits 7 to 4 (0 posted, 1 non-posted, 2 completions). It has no `Debug`, which would print keys.
#[derive(Clone, Copy, PartialEq, Eq)]
pub enum KmView {
    /// 00h: asks what the port is.
    Query {
        port: u8,
    },
    /// 01h: what the port is; bus, device and function are the requester ID of its first interface.
    QueryResp {
        port: u8,
        device_function: u8,
        bus: u8,
        segment: u8,
        highest: u8,
    },
    /// 02h: a key, with the initial counter of its units, which is 1.
    KeyProg {
        stream: u8,
        selector: u8,
        port: u8,
        key: [u8; 32],
        counter: u64,
    },
    /// 03h: what became of a key; status 0 is success.
    KpAck {
        stream: u8,
        status: u8,
        selector: u8,
        port: u8,
    },
    /// 04h: use the key of a slot.
    SetGo {
        stream: u8,
        selector: u8,
        port: u8,
    },
    /// 05h: drop the key of a slot.
    SetStop {
        stream: u8,
        selector: u8,
        port: u8,
    },
    /// 06h: done so.
    GoStopAck {
        stream: u8,
        selector: u8,
        port: u8,
    },
}

/// Why bytes are no object.
#[derive(Clone, Copy, PartialEq, Eq)]
pub enum KmFault {
    /// Too few bytes to know the object, or not as many as it has.
    Length,
    /// The first byte is not the protocol's.
    Protocol,
    /// There is no such object.
    Object,
}
