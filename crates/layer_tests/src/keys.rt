//! Objects as bytes, and what the responder of a port of one place replies.

use ide_types::{Direction, KeySet};
use key_messages::{KmFault, KmView, Responder, km_read, km_write};
use key_slots::{SlotState, Slots};
use port::OnePort;
use std::alloc::{AllocError, Global};
use std::process::Abort;
use std::test::Fail;

mod port;

const KEY: [u8; 32] = [
    0, 0, 0, 0, 0, 0, 0, 0, 0, 0, 0, 0, 0, 0, 0, 0, 0, 0, 0, 0, 0, 0, 0, 0, 0, 0, 0, 0, 0, 0, 0, 4,
];

// The key of draw 0 for device to host, non-posted, of a pool whose keys count from 1.
const KEY_PROG: [u8; 48] = [
    0, 2, 0, 0, 5, 0, 0x12, 0, 0, 0, 0, 0, 0, 0, 0, 0, 0, 0, 0, 0, 0, 0, 0, 0, 0, 0, 0, 0, 0, 0, 0,
    0, 0, 0, 0, 0, 0, 0, 0, 4, 1, 0, 0, 0, 0, 0, 0, 0,
];

// KEY_PROG with another byte at a place.
fn with_byte(place: usize, byte: u8) -> [u8; 48] {
    let mut request = KEY_PROG;
    if place < 48 {
        request[place] = byte;
    }
    request
}

#[test]
fn objects(rt: HostRuntime) -> Result<(), Fail> {
    let object = KmView::KeyProg {
        stream: 5,
        selector: 0x12,
        port: 0,
        key: KEY,
        counter: 1,
    };
    let mut out = Vec::with_capacity(rt.alloc(), 48)?;
    km_write(&object, &mut out);
    assert_eq!(rt; out.as_slice(), KEY_PROG.as_slice());
    // Bytes 2, 3 and 5 are reserved, and ignored.
    for place in [2, 3, 5] {
        assert!(rt; km_read(&with_byte(place, 0xff)) == Ok(object));
    }
    let table: [(&[u8], Result<KmView, KmFault>); 8] = [
        (&[], Err(KmFault::Length)),
        (&[1], Err(KmFault::Protocol)),
        (&[1, 9], Err(KmFault::Protocol)),
        (&[0], Err(KmFault::Length)),
        (&[0, 7], Err(KmFault::Object)),
        (&[0, 0, 0], Err(KmFault::Length)),
        (&[0, 0, 9, 3], Ok(KmView::Query { port: 3 })),
        (&[0, 0, 0, 0, 0], Err(KmFault::Length)),
    ];
    for (bytes, object) in table {
        assert!(rt; km_read(bytes) == object);
    }
    Ok(())
}

// The reply to a request, and the state of the slot of set 0 then.
fn check(
    rt: &impl Abort,
    alloc: Global,
    port: &mut OnePort,
    request: &[u8],
    reply: &[u8],
    state: SlotState,
) -> Result<(), AllocError> {
    let mut responder = Responder::make(0x0123);
    let mut got = Vec::with_capacity(alloc, 8)?;
    responder.answer(port, request, 7, &mut got);
    assert_eq!(rt; got.as_slice(), reply);
    assert!(rt; port.slots.slot(KeySet::Zero).0 == state);
    Ok(())
}

// A port whose sender of stream 5's non-posted requests has no key.
fn empty_port(alloc: Global) -> Result<OnePort, AllocError> {
    let slots = Slots::make(alloc, true).map_err(|_| AllocError)?;
    Ok(OnePort {
        direction: Direction::Upstream,
        sub: 1,
        unfinished: false,
        slots,
    })
}

// A KEY_PROG that is refused, and its reply. A wrong length comes before a wrong port index, and that before a wrong
// counter.
#[test]
fn keys_refused(rt: HostRuntime) -> Result<(), Fail> {
    let alloc = rt.alloc();
    let mut port = empty_port(alloc)?;
    let rows = [
        (7, 1, [0, 3, 0, 0, 5, 2, 0x12, 1]),
        (4, 6, [0, 3, 0, 0, 6, 3, 0x12, 0]),
        (6, 0x32, [0, 3, 0, 0, 5, 3, 0x32, 0]),
        (40, 2, [0, 3, 0, 0, 5, 3, 0x12, 0]),
        (47, 1, [0, 3, 0, 0, 5, 3, 0x12, 0]),
    ];
    for (place, byte, reply) in rows {
        let request = with_byte(place, byte);
        check(&rt, alloc, &mut port, &request, &reply, SlotState::Empty)?;
    }
    let mut twice = with_byte(7, 1);
    twice[40] = 2;
    let reply = [0, 3, 0, 0, 5, 2, 0x12, 1];
    check(&rt, alloc, &mut port, &twice, &reply, SlotState::Empty)?;
    let short = [0, 2, 0, 0, 5, 0, 0x12, 1];
    let reply = [0, 3, 0, 0, 5, 1, 0x12, 1];
    check(&rt, alloc, &mut port, &short, &reply, SlotState::Empty)?;
    Ok(())
}

// Fields that a prefix of a KEY_PROG lacks are given back as 0.
#[test]
fn prefixes_of_a_key(rt: HostRuntime) -> Result<(), Fail> {
    let mut port = empty_port(rt.alloc())?;
    for length in 2..48 {
        let reply = match length {
            2..=4 => [0, 3, 0, 0, 0, 1, 0, 0],
            5 | 6 => [0, 3, 0, 0, 5, 1, 0, 0],
            _ => [0, 3, 0, 0, 5, 1, 0x12, 0],
        };
        let request = &KEY_PROG[..length];
        check(
            &rt,
            rt.alloc(),
            &mut port,
            request,
            &reply,
            SlotState::Empty,
        )?;
    }
    Ok(())
}

// What has no reply, and leaves a key as it is.
const UNANSWERED: [&[u8]; 21] = [
    &[],
    &[0],
    &[1, 2],
    &[2, 5, 0, 0, 5, 0, 0x12, 0],
    &[0, 7],
    &[0, 0xff, 0, 0, 5, 0, 0x12, 0],
    &[0, 0],
    &[0, 0, 0],
    &[0, 0, 0, 1],
    &[0, 1, 0, 0, 0, 0, 0, 0],
    &[0, 3, 0, 0, 5, 0, 0x12, 0],
    &[0, 6, 0, 0, 5, 0, 0x12, 0],
    &[0, 4, 0, 0, 5, 0, 0x12],
    &[0, 4, 0, 0, 5, 0, 0x12, 1],
    &[0, 4, 0, 0, 6, 0, 0x12, 0],
    &[0, 4, 0, 0, 5, 0, 0x32, 0],
    &[0, 4, 0, 0, 5, 0, 0x12, 0, 0],
    &[0, 5, 0, 0, 5, 0, 0x12, 0, 0],
    &[0, 5, 0, 0, 5, 0, 0x12, 1],
    &[0, 5, 0, 0, 6, 0, 0x12, 0],
    &[0, 5, 0, 0, 5, 0, 0x32, 0],
];

#[test]
fn nothing_to_answer(rt: HostRuntime) -> Result<(), Fail> {
    let alloc = rt.alloc();
    let mut port = empty_port(alloc)?;
    // Bits 3 and 2 of the selector are ignored, and given back.
    let reply = [0, 3, 0, 0, 5, 0, 0x1e, 0];
    let key_prog = with_byte(6, 0x1e);
    check(
        &rt,
        alloc,
        &mut port,
        &key_prog,
        &reply,
        SlotState::Programmed,
    )?;
    for request in UNANSWERED {
        check(&rt, alloc, &mut port, request, &[], SlotState::Programmed)?;
    }
    Ok(())
}

const SET_GO: [u8; 8] = [0, 4, 0, 0, 5, 0, 0x12, 0];

const SET_STOP: [u8; 8] = [0, 5, 0, 0, 5, 0, 0x12, 0];

const DONE: [u8; 8] = [0, 6, 0, 0, 5, 0, 0x12, 0];

// A key comes, is started twice, is not replaced while it is in use, and goes. SET_GO on an empty slot has no reply,
// SET_STOP has one.
#[test]
fn key_comes_and_goes(rt: HostRuntime) -> Result<(), Fail> {
    let alloc = rt.alloc();
    let mut port = empty_port(alloc)?;
    let (go, stop, done, key_prog) = (SET_GO, SET_STOP, DONE, KEY_PROG);
    let rows: [(&[u8], &[u8], SlotState); 8] = [
        (
            &[0, 0, 0, 0],
            &[0, 1, 0, 0, 0x23, 0x01, 0, 0],
            SlotState::Empty,
        ),
        (&go, &[], SlotState::Empty),
        (&stop, &done, SlotState::Empty),
        (
            &key_prog,
            &[0, 3, 0, 0, 5, 0, 0x12, 0],
            SlotState::Programmed,
        ),
        (&go, &done, SlotState::Live),
        (&go, &done, SlotState::Live),
        (&key_prog, &[0, 3, 0, 0, 5, 3, 0x12, 0], SlotState::Live),
        (&stop, &done, SlotState::Empty),
    ];
    for (request, reply, state) in rows {
        check(&rt, alloc, &mut port, request, reply, state)?;
    }
    Ok(())
}
