//! By what right a request is made.

use ide_types::Binding;

/// What is said of the requester of a memory request, beside the packet that brought the request (this profile).
#[derive(Clone, Copy, PartialEq, Eq)]
pub struct Grant {
    /// If the requester is an interface in RUN: the stream that it is bound to. At a host's port it is the manager's
    /// view that says so.
    pub bound: Option<Binding>,
    /// The ID of the stream that the packet came on.
    pub stream: u8,
    /// The draw of the key of the packet's unit.
    pub draw: u32,
}
