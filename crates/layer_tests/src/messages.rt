//! Messages by their bytes.

use tdisp_codec::{ReplyView, RequestView, TdispFault, reply_read, request_read};

// LOCK_INTERFACE of the interface 0100h on stream 5, without flags, offset or mask.
const LOCK: [u8; 37] = [
    0x01, 0x10, 0x83, 0, 0, 0x00, 0x01, 0, 0, 0, 0, 0, 0, 0, 0, 0, 0, 0, 0, 5, 0, 0, 0, 0, 0, 0, 0,
    0, 0, 0, 0, 0, 0, 0, 0, 0, 0,
];

const LOCK_REQUEST: RequestView = RequestView::LockInterface {
    function: 0x0100,
    flags: 0,
    stream: 5,
    offset: 0,
    mask: 0,
};

#[test]
fn requests(rt: HostRuntime) {
    let lock = LOCK;
    let table: [(&[u8], Result<RequestView, TdispFault>); 9] = [
        (lock.as_slice(), Ok(LOCK_REQUEST)),
        (
            b"\x01\x10\x81\0\0\0\x01\0\0\0\0\0\0\0\0\0\0",
            Ok(RequestView::GetVersion { function: 0x0100 }),
        ),
        (
            b"\x01\x10\x82\0\0\0\x01\0\0\0\0\0\0\0\0\0\0\0\0\0\0",
            Ok(RequestView::GetCapabilities { function: 0x0100 }),
        ),
        (
            b"\x01\x10\x84\0\0\0\x01\0\0\0\0\0\0\0\0\0\0\x40\x01\x24\x02",
            Ok(RequestView::GetDeviceInterfaceReport {
                function: 0x0100,
                offset: 0x0140,
                length: 0x0224,
            }),
        ),
        (
            b"\x01\x10\x85\0\0\0\x01\0\0\0\0\0\0\0\0\0\0",
            Ok(RequestView::GetDeviceInterfaceState { function: 0x0100 }),
        ),
        (
            b"\x01\x10\x87\0\0\x04\x03\x02\x01\0\0\0\0\0\0\0\0",
            Ok(RequestView::StopInterface {
                function: 0x01020304,
            }),
        ),
        (b"\x01\x10\x80", Err(TdispFault::Kind(2))),
        (b"\x01\x11\x80", Err(TdispFault::Version(1))),
        (b"\x00\x11\x80", Err(TdispFault::Kind(0))),
    ];
    for (bytes, request) in table {
        assert!(rt; request_read(bytes) == request);
    }
    let mut start = [0; 49];
    start[..7].copy_from_slice(b"\x01\x10\x86\0\0\0\x01");
    let request = RequestView::StartInterface {
        function: 0x0100,
        nonce: [0; 32],
    };
    assert!(rt; request_read(&start) == Ok(request));
}

// Reserved bytes may be any, each proper prefix is short, and nothing comes after.
#[test]
fn edges_of_a_request(rt: HostRuntime) {
    let mut reserved = LOCK;
    reserved[3] = 0xff;
    reserved[4] = 0xff;
    for place in 9..17 {
        reserved[place] = 0xff;
    }
    reserved[20] = 0xff;
    assert!(rt; request_read(&reserved) == Ok(LOCK_REQUEST));
    for size in 0..37 {
        assert!(rt; request_read(&LOCK[..size]) == Err(TdispFault::Short(size)));
    }
    let mut longer = [0; 38];
    longer[..37].copy_from_slice(&LOCK);
    assert!(rt; request_read(&longer) == Err(TdispFault::Trailing(37)));
}

#[test]
fn replies(rt: HostRuntime) {
    assert!(rt;
        matches!(
            reply_read(b"\x01\x10\x01\0\0\0\x01\0\0\0\0\0\0\0\0\0\0\x01\x10"),
            Ok(ReplyView::Version {
                function: 0x0100,
                versions: [0x10]
            })
        )
    );
    let capabilities = [
        0x01, 0x10, 0x02, 0, 0, 0, 1, 0, 0, 0, 0, 0, 0, 0, 0, 0, 0, 0, 0, 0, 0, 0xfe, 0, 0, 0, 0,
        0, 0, 0, 0, 0, 0, 0, 0, 0, 0, 0, 0x17, 0, 0, 0, 0, 64, 1, 1,
    ];
    assert!(rt;
        matches!(
            reply_read(&capabilities),
            Ok(ReplyView::Capabilities {
                function: 0x0100,
                device: 0,
                requests,
                lock_flags: 0x0017,
                width: 64,
                num_req_this: 1,
                num_req_all: 1
            }) if requests == [0xfe, 0, 0, 0, 0, 0, 0, 0, 0, 0, 0, 0, 0, 0, 0, 0]
        )
    );
    assert!(rt;
        matches!(
            reply_read(b"\x01\x10\x04\0\0\0\x01\0\0\0\0\0\0\0\0\0\0\x02\0\x24\x01\x07\x08"),
            Ok(ReplyView::DeviceInterfaceReport {
                function: 0x0100,
                remainder: 0x0124,
                portion: [7, 8]
            })
        )
    );
    assert!(rt;
        matches!(
            reply_read(b"\x01\x10\x05\0\0\0\x01\0\0\0\0\0\0\0\0\0\0\x02"),
            Ok(ReplyView::DeviceInterfaceState {
                function: 0x0100,
                state: 2
            })
        )
    );
    assert!(rt;
        matches!(
            reply_read(b"\x01\x10\x7f\0\0\0\x01\0\0\0\0\0\0\0\0\0\0\x04\0\0\0\0\0\0\0"),
            Ok(ReplyView::Error {
                function: 0x0100,
                code: 4,
                value: 0
            })
        )
    );
}

#[test]
fn replies_that_are_none(rt: HostRuntime) {
    let faults: [(&[u8], TdispFault); 3] = [
        (
            b"\x01\x10\x01\0\0\0\x01\0\0\0\0\0\0\0\0\0\0\x01",
            TdispFault::Short(18),
        ),
        (
            b"\x01\x10\x04\0\0\0\x01\0\0\0\0\0\0\0\0\0\0\x02\0\x24\x01\x07",
            TdispFault::Short(22),
        ),
        (
            b"\x01\x10\x81\0\0\0\x01\0\0\0\0\0\0\0\0\0\0",
            TdispFault::Kind(2),
        ),
    ];
    for (bytes, fault) in faults {
        assert!(rt; reply_read(bytes).err() == Some(fault));
    }
}
