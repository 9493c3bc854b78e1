//! The messages between a host's security manager and a device's interfaces, read and written, and the report of an
//! interface, written (TDISP, PCI Express Base 6.0 with the ECN's chapter 11, in this profile).
#![tactic(auto)]

mod fault;
mod laws;
mod numbers;
mod reading;
mod reply;
mod report;
mod request;
mod writing;

pub use fault::TdispFault;
pub use laws::{
    ranges_again, reply_is_grammar, reply_read_again, report_is_grammar, report_read_again,
    request_is_grammar, request_read_again,
};
pub use reading::{function_of, reply_read, request_read};
pub use reply::ReplyView;
pub use report::{Ranges, ReportRange, ReportView};
pub use request::RequestView;
pub use writing::{reply_write, report_write, request_write};
