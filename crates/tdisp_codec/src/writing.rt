//! Writing messages and reports. `out` has room for the bytes, so no writer takes memory (TDISP section 11.3, in this
//! profile's layout).

ghost use Rattle.std.specs.Prelude.{◌≡◌, ◌+◌, ◌/◌, ◌<◌, ◌≤◌, ◌^◌, [], ◌∷◌, ◌++◌, length, vec_len, vec_capacity};
ghost use Rattle.byteorder.specs.Endian.{little_bytes};
ghost use Rattle.tdisp_codec.specs.Messages.{message_spelling};
ghost use Rattle.tdisp_codec.specs.Requests.{request_spelling};
ghost use Rattle.tdisp_codec.specs.Replies.{reply_shown, reply_spelling, IsCountedReply};
ghost use Rattle.tdisp_codec.specs.Reports.{report_shown, report_spelling};

use crate::numbers::{append, append16, append32, append64};
use crate::reply::ReplyView;
use crate::report::ReportView;
use crate::request::RequestView;

/// Appends the header of a message of this type.
fn append_header(out: &mut Vec<u8>, kind: u8, function: u32)
    requires { vec_len out.old + 17 ≤ vec_capacity out.old }
    ensures items { out.new.items ≡ out.old.items ++ message_spelling kind function [] }
    ensures len { vec_len out.new ≡ vec_len out.old + 17 }
    ensures capacity { vec_capacity out.old ≤ vec_capacity out.new }
{
    append(out, &[0x01, 0x10, kind, 0, 0]);
    append32(out, function);
    append(out, &[0; 8]);
}

/// Appends the nonce.
fn append_nonce(out: &mut Vec<u8>, nonce: [u8; 32])
    requires { vec_len out.old + length nonce ≤ vec_capacity out.old }
    ensures items { out.new.items ≡ out.old.items ++ nonce }
    ensures capacity { vec_capacity out.old ≤ vec_capacity out.new }
{
    append(out, &nonce);
}

/// Appends the body of LOCK_INTERFACE, with 0 in the reserved byte.
fn append_lock(out: &mut Vec<u8>, flags: u16, stream: u8, offset: u64, mask: u64)
    requires { vec_len out.old + 20 ≤ vec_capacity out.old }
    ensures items { out.new.items ≡ out.old.items
        ++ (little_bytes 2 flags ++ (stream ∷ (0 ∷ (little_bytes 8 offset ++ little_bytes 8 mask)))) }
    ensures capacity { vec_capacity out.old ≤ vec_capacity out.new }
{
    append16(out, flags);
    append(out, &[stream, 0]);
    append64(out, offset);
    append64(out, mask);
}

/// Appends the request's bytes, with 0 in the reserved ones.
pub fn request_write(request: &RequestView, out: &mut Vec<u8>)
    requires { vec_len out.old + length (request_spelling request.now) ≤ vec_capacity out.old }
    ensures items { out.new.items ≡ out.old.items ++ request_spelling request.now }
    ensures capacity { vec_capacity out.old ≤ vec_capacity out.new }
{
    let request = *request;
    match request {
        RequestView::GetVersion { function } => append_header(out, 0x81, function),
        RequestView::GetCapabilities { function } => {
            append_header(out, 0x82, function);
            append(out, &[0; 4]);
        }
        RequestView::LockInterface {
            function,
            flags,
            stream,
            offset,
            mask,
        } => {
            append_header(out, 0x83, function);
            append_lock(out, flags, stream, offset, mask);
        }
        RequestView::GetDeviceInterfaceReport {
            function,
            offset,
            length,
        } => {
            append_header(out, 0x84, function);
            append16(out, offset);
            append16(out, length);
        }
        RequestView::GetDeviceInterfaceState { function } => append_header(out, 0x85, function),
        RequestView::StartInterface { function, nonce } => {
            append_header(out, 0x86, function);
            append_nonce(out, nonce);
        }
        RequestView::StopInterface { function } => append_header(out, 0x87, function),
        RequestView::BindP2p { function, stream } => {
            append_header(out, 0x88, function);
            append(out, &[stream]);
        }
        RequestView::UnbindP2p { function, stream } => {
            append_header(out, 0x89, function);
            append(out, &[stream]);
        }
    }
}

/// Appends the last fields of CAPABILITIES, with 0 in the reserved bytes.
fn append_limits(out: &mut Vec<u8>, lock_flags: u16, width: u8, num_req_this: u8, num_req_all: u8)
    requires { vec_len out.old + 8 ≤ vec_capacity out.old }
    ensures items { out.new.items ≡ out.old.items
        ++ (little_bytes 2 lock_flags ++ (0 ∷ (0 ∷ (0 ∷ (width ∷ (num_req_this ∷ (num_req_all ∷ []))))))) }
    ensures capacity { vec_capacity out.old ≤ vec_capacity out.new }
{
    append16(out, lock_flags);
    append(out, &[0, 0, 0, width, num_req_this, num_req_all]);
}

/// Appends the first fields of CAPABILITIES.
fn append_abilities(out: &mut Vec<u8>, device: u32, requests: [u8; 16])
    requires { vec_len out.old + 4 + length requests ≤ vec_capacity out.old }
    ensures items { out.new.items ≡ out.old.items ++ (little_bytes 4 device ++ requests) }
    ensures len { vec_len out.new ≡ vec_len out.old + 4 + length requests }
    ensures capacity { vec_capacity out.old ≤ vec_capacity out.new }
{
    append32(out, device);
    append(out, &requests);
}

/// Appends a part of a report, after its length and the remainder.
fn append_portion(out: &mut Vec<u8>, remainder: u16, portion: &[u8])
    requires room { vec_len out.old + 4 + length portion.now ≤ vec_capacity out.old }
    requires counted { length portion.now < 2 ^ 16 }
    ensures items { out.new.items ≡ out.old.items
        ++ (little_bytes 2 (length portion.now) ++ (little_bytes 2 remainder ++ portion.now)) }
    ensures capacity { vec_capacity out.old ≤ vec_capacity out.new }
{
    append16(out, portion.len() as u16);
    append16(out, remainder);
    append(out, portion);
}

/// Appends the reply's bytes, with 0 in the reserved ones.
pub fn reply_write(reply: &ReplyView<'_>, out: &mut Vec<u8>)
    requires counted { IsCountedReply (reply_shown reply.now) }
    requires room { vec_len out.old + length (reply_spelling (reply_shown reply.now)) ≤ vec_capacity out.old }
    ensures items { out.new.items ≡ out.old.items ++ reply_spelling (reply_shown reply.now) }
    ensures capacity { vec_capacity out.old ≤ vec_capacity out.new }
{
    let reply = *reply;
    match reply {
        ReplyView::Version { function, versions } => {
            append_header(out, 0x01, function);
            append(out, &[versions.len() as u8]);
            append(out, versions);
        }
        ReplyView::Capabilities {
            function,
            device,
            requests,
            lock_flags,
            width,
            num_req_this,
            num_req_all,
        } => {
            append_header(out, 0x02, function);
            append_abilities(out, device, requests);
            append_limits(out, lock_flags, width, num_req_this, num_req_all);
        }
        ReplyView::LockInterface { function, nonce } => {
            append_header(out, 0x03, function);
            append_nonce(out, nonce);
        }
        ReplyView::DeviceInterfaceReport {
            function,
            remainder,
            portion,
        } => {
            append_header(out, 0x04, function);
            append_portion(out, remainder, portion);
        }
        ReplyView::DeviceInterfaceState { function, state } => {
            append_header(out, 0x05, function);
            append(out, &[state]);
        }
        ReplyView::StartInterface { function } => append_header(out, 0x06, function),
        ReplyView::StopInterface { function } => append_header(out, 0x07, function),
        ReplyView::BindP2p { function } => append_header(out, 0x08, function),
        ReplyView::UnbindP2p { function } => append_header(out, 0x09, function),
        ReplyView::Error {
            function,
            code,
            value,
        } => {
            append_header(out, 0x7f, function);
            append32(out, code);
            append32(out, value);
        }
    }
}

/// Appends the report's first fields, up to the count of its ranges.
fn append_front(out: &mut Vec<u8>, report: &ReportView<'_>)
    requires counted { length report.now.ranges.bytes.now / 16 < 2 ^ 32 }
    requires room { vec_len out.old + 16 ≤ vec_capacity out.old }
    ensures items { out.new.items ≡ out.old.items ++ (little_bytes 2 report.now.info
        ++ (0 ∷ (0 ∷ (little_bytes 2 report.now.msix
        ++ (little_bytes 2 report.now.lnr ++ (little_bytes 4 report.now.tph
        ++ little_bytes 4 (length report.now.ranges.bytes.now / 16))))))) }
    ensures len { vec_len out.new ≡ vec_len out.old + 16 }
    ensures capacity { vec_capacity out.old ≤ vec_capacity out.new }
{
    append16(out, report.info);
    append(out, &[0, 0]);
    append16(out, report.msix);
    append16(out, report.lnr);
    append32(out, report.tph);
    append32(out, (report.ranges.bytes.len() / 16) as u32);
}

/// Appends the report's bytes, with 0 in the reserved ones: 20, those of its ranges, and the device's own.
pub fn report_write(report: &ReportView<'_>, out: &mut Vec<u8>)
    requires ranges { length report.now.ranges.bytes.now / 16 < 2 ^ 32 }
    requires device { length report.now.device.now < 2 ^ 32 }
    requires room { vec_len out.old + (20 + length report.now.ranges.bytes.now + length report.now.device.now)
        ≤ vec_capacity out.old }
    ensures items { out.new.items ≡ out.old.items ++ report_spelling (report_shown report.now) }
    ensures capacity { vec_capacity out.old ≤ vec_capacity out.new }
{
    let ranges = report.ranges.as_bytes();
    append_front(out, report);
    append(out, ranges);
    append32(out, report.device.len() as u32);
    append(out, report.device);
}
