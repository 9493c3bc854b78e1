//! What a device answers to requests of any bytes, key management and interfaces alike.

ghost use Rattle.std.specs.Prelude.{IfOk, All};
ghost use Rattle.ide_types.specs.Fits.{FitsStream};
ghost use Rattle.interface_state.specs.Held.{FitsTdi};

use ide_types::{BarPlan, Bytes, IdRange, InterfacePlan, Items, OutOfMemory, Selector, StreamPlan};
use link_ends::{Device, NoPeers};
use std::alloc::{AllocError, Global};
use std::process::Abort;
use std::test::Fail;

// Stream 5, which takes what the interface sends.
fn streams(alloc: Global) -> Result<Vec<StreamPlan>, OutOfMemory>
    ensures { IfOk result (λ plans. All FitsStream plans.items) }
{
    let mut plans = Vec::new(alloc);
    plans.push(StreamPlan {
        id: 5,
        aggregation: 1,
        closed: false,
        selector: Selector::Selective {
            ids: Some(IdRange {
                base: 0x0100,
                limit: 0x0100,
            }),
            addresses: Items::new(Vec::new(alloc)),
            default: false,
        },
    })?;
    Ok(plans)
}

// The interface 0100h, with 64 bytes of device information and one range of 16 pages.
fn interface(alloc: Global) -> Result<InterfacePlan, OutOfMemory>
    ensures { IfOk result FitsTdi }
{
    let mut bars = Vec::new(alloc);
    bars.push(BarPlan {
        base: 0x4000_0000,
        pages: 16,
        attributes: 0,
    })?;
    Ok(InterfacePlan {
        requester: 0x0100,
        stream: 5,
        flags: 0,
        offset: 0,
        command: 6,
        cache_line: 16,
        msix: 0,
        lnr: 0,
        tph: 0,
        pasid: 0,
        ats: 0,
        reads: false,
        info: Bytes::copied(alloc, &[0; 64])?,
        bars: Items::new(bars),
    })
}

fn interfaces(alloc: Global) -> Result<Items<InterfacePlan>, OutOfMemory>
    ensures { IfOk result (λ plans. All FitsTdi plans) }
{
    let mut plans = Vec::new(alloc);
    plans.push(interface(alloc)?)?;
    Ok(Items::new(plans))
}

fn device(alloc: Global) -> Result<Device, OutOfMemory> {
    let streams = streams(alloc)?;
    let interfaces = interfaces(alloc)?;
    let mut nonces = Vec::new(alloc);
    nonces.push([1; 32])?;
    Device::make(
        alloc,
        0,
        streams.as_slice(),
        1,
        0x0100,
        &interfaces,
        &Items::new(nonces),
    )
}

// The reply to a request.
fn check(
    rt: &impl Abort,
    alloc: Global,
    device: &mut Device,
    request: &[u8],
    reply: &[u8],
) -> Result<(), AllocError> {
    let mut got = Vec::with_capacity(alloc, 1200)?;
    device.answer(&NoPeers {}, request, 0, &mut got);
    assert_eq!(rt; got.as_slice(), reply);
    Ok(())
}

// Bytes in a buffer, so many of which are a message.
#[derive(Clone, Copy)]
struct Message {
    bytes: [u8; 128],
    length: usize,
}

impl Message {
    // Of TDISP 1.0, of this type, to or from the interface 0100h.
    fn new(kind: u8) -> Message {
        let mut bytes = [0; 128];
        bytes[0] = 0x01;
        bytes[1] = 0x10;
        bytes[2] = kind;
        bytes[6] = 0x01;
        Message { bytes, length: 17 }
    }

    fn with(mut self, bytes: &[u8]) -> Message {
        for byte in bytes {
            if self.length < 128 {
                self.bytes[self.length] = *byte;
                self.length += 1;
            }
        }
        self
    }

    fn as_slice(&self) -> &[u8] {
        &self.bytes[..self.length.min(128)]
    }
}

// An ERROR with this code.
fn error(code: u16) -> Message {
    let [low, high] = code.to_le_bytes();
    Message::new(0x7f).with(&[low, high, 0, 0, 0, 0, 0, 0])
}

// KEY_PROG of key set 0 of stream 5 with the selector's place, and the key of that byte.
fn key_prog(selector: u8) -> [u8; 48] {
    let mut request = [0; 48];
    request[1] = 2;
    request[4] = 5;
    request[6] = selector;
    request[39] = selector;
    request[40] = 1;
    request
}

// The six places of a stream at a device: what it receives, and what it sends.
const SELECTORS: [u8; 6] = [0x00, 0x10, 0x20, 0x02, 0x12, 0x22];

// Key management begins with 00h, interfaces with 01h; to anything else, and to nothing, there is no reply.
#[test]
fn first_bytes(rt: HostRuntime) -> Result<(), Fail> {
    let alloc = rt.alloc();
    let mut device = device(alloc).map_err(|_| AllocError)?;
    let unanswered: [&[u8]; 6] = [
        &[],
        &[0x05, 0, 0, 0, 0, 0, 0, 0, 0, 0, 0, 0, 0, 0, 0, 0, 0],
        &[0x02, 0x10, 0x81, 0, 0, 0, 1, 0, 0, 0, 0, 0, 0, 0, 0, 0, 0],
        &[0xff],
        &[0x00],
        &[0x00, 0x07],
    ];
    for request in unanswered {
        check(&rt, alloc, &mut device, request, &[])?;
    }
    check(
        &rt,
        alloc,
        &mut device,
        &[0, 0, 0, 0],
        &[0, 1, 0, 0, 0, 1, 0, 0],
    )?;
    Ok(())
}

// A message of TDISP whose header is cut off is an invalid request of function ID 0.
#[test]
fn cut_headers(rt: HostRuntime) -> Result<(), Fail> {
    let alloc = rt.alloc();
    let mut device = device(alloc).map_err(|_| AllocError)?;
    let mut reply = error(1);
    reply.bytes[6] = 0;
    let request = Message::new(0x81);
    for length in 1..17 {
        check(
            &rt,
            alloc,
            &mut device,
            &request.bytes[..length],
            reply.as_slice(),
        )?;
    }
    Ok(())
}

#[test]
fn version_and_capabilities(rt: HostRuntime) -> Result<(), Fail> {
    let alloc = rt.alloc();
    let mut device = device(alloc).map_err(|_| AllocError)?;
    let request = Message::new(0x81);
    let reply = Message::new(0x01).with(&[1, 0x10]);
    check(
        &rt,
        alloc,
        &mut device,
        request.as_slice(),
        reply.as_slice(),
    )?;
    let request = Message::new(0x82).with(&[0; 4]);
    // requests 81h to 89h; lock flags 0 to 4; addresses of 64 bits; one request at once
    let reply = Message::new(0x02)
        .with(&[0; 4])
        .with(&[0xfe, 0x03, 0, 0, 0, 0, 0, 0, 0, 0, 0, 0, 0, 0, 0, 0])
        .with(&[0x1f, 0, 0, 0, 0, 64, 1, 1]);
    check(
        &rt,
        alloc,
        &mut device,
        request.as_slice(),
        reply.as_slice(),
    )?;
    Ok(())
}

// Of a KEY_PROG that is cut off, what is there is given back, and 0 for the rest.
#[test]
fn fronts_of_a_key(rt: HostRuntime) -> Result<(), Fail> {
    let alloc = rt.alloc();
    let mut device = device(alloc).map_err(|_| AllocError)?;
    let request = key_prog(0x12);
    for length in 0..48 {
        let reply: &[u8] = match length {
            0 | 1 => &[],
            2..=4 => &[0, 3, 0, 0, 0, 1, 0, 0],
            5 | 6 => &[0, 3, 0, 0, 5, 1, 0, 0],
            _ => &[0, 3, 0, 0, 5, 1, 0x12, 0],
        };
        check(&rt, alloc, &mut device, &request[..length], reply)?;
    }
    check(
        &rt,
        alloc,
        &mut device,
        &request,
        &[0, 3, 0, 0, 5, 0, 0x12, 0],
    )?;
    Ok(())
}

// REPORT with this offset and length.
fn report(offset: u8, length: u8) -> Message {
    Message::new(0x84).with(&[offset, 0, length, 0])
}

// With its keys at work the device locks the interface; its report has 100 bytes, and is read in portions.
#[test]
fn keys_lock_and_report(rt: HostRuntime) -> Result<(), Fail> {
    let alloc = rt.alloc();
    let mut device = device(alloc).map_err(|_| AllocError)?;
    // on stream 5, with no flag, no offset and no mask
    let lock = Message::new(0x83).with(&[0, 0, 5, 0]).with(&[0; 16]);
    check(
        &rt,
        alloc,
        &mut device,
        lock.as_slice(),
        error(0x0104).as_slice(),
    )?;
    for selector in SELECTORS {
        let request = key_prog(selector);
        let reply = [0, 3, 0, 0, 5, 0, selector, 0];
        check(&rt, alloc, &mut device, &request, &reply)?;
    }
    for selector in SELECTORS {
        let request = [0, 4, 0, 0, 5, 0, selector, 0];
        let reply = [0, 6, 0, 0, 5, 0, selector, 0];
        check(&rt, alloc, &mut device, &request, &reply)?;
    }
    let locked = Message::new(0x03).with(&[1; 32]);
    check(&rt, alloc, &mut device, lock.as_slice(), locked.as_slice())?;
    // what it is and its registers; one range; the 64 bytes of device information
    let first = Message::new(0x04)
        .with(&[64, 0, 36, 0])
        .with(&[2, 0, 0, 0, 0, 0, 0, 0, 0, 0, 0, 0, 1, 0, 0, 0])
        .with(&[0, 0, 4, 0, 0, 0, 0, 0, 0x10, 0, 0, 0, 0, 0, 0, 0])
        .with(&[0x40, 0, 0, 0])
        .with(&[0; 28]);
    let rest = Message::new(0x04).with(&[36, 0, 0, 0]).with(&[0; 36]);
    let rows = [
        (report(0, 64), first),
        (report(64, 64), rest),
        (report(100, 64), error(1)),
        (report(0, 0), error(1)),
    ];
    for (request, reply) in rows {
        check(
            &rt,
            alloc,
            &mut device,
            request.as_slice(),
            reply.as_slice(),
        )?;
    }
    Ok(())
}
