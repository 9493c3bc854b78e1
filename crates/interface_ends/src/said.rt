//! What a device says of a stream.

/// What a device says of the stream that a request names (this profile).
#[derive(Clone, Copy, PartialEq, Eq)]
pub struct StreamSaid {
    /// It is a stream of the device's link, and Secure at the device.
    pub secure: bool,
    /// If it is a stream between this device and another, and Secure at this one: the draw that is Live where the
    /// device receives posted requests on it.
    pub live: Option<u32>,
}
