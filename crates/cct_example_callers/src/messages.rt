//! Single messages, without a host and without a device: their checks, their bytes, and what they
//! ask and reply.

use arrayvec::ArrayVec;
use cct_check::{crc16, crc16_step, simple_sum};
use cct_frame::{FrameFault, FrameView, read, write};
use cct_model_lines::{CheckKind, MOST_SENT, Pair, Reply, ReplyForm, Request};
use cct_msg::{NotWanted, encode_request, read_reply};
use cct_wire::{Fed, Framer, Heard, hear};
use std::test::Fail;

#[test]
fn the_checks_of_bytes(rt: HostRuntime) -> Result<(), Fail> {
    // The sum of a message under the simple check is 0. Its last byte makes it so.
    assert_eq!(rt; simple_sum(b"\x02\x00\x01\xe5"), 0xe8);
    assert_eq!(rt; simple_sum(b"\x02\x00\x01\xe5\x18"), 0);

    // The value that catalogues of CRCs give for CRC-16/XMODEM; and the same, a byte at a time.
    assert_eq!(rt; crc16(b"123456789"), 0x31c3);
    assert_eq!(rt; crc16_step(crc16(b"12345678"), b'9'), 0x31c3);
    Ok(())
}

#[test]
fn a_message_and_its_bytes(rt: HostRuntime) -> Result<(), Fail> {
    // Header 231 sets the inhibit mask of the acceptor at address 2, low byte first.
    let mut bytes: ArrayVec<u8, MOST_SENT> = ArrayVec::new();
    write(CheckKind::Simple, 2, 1, 231, b"\x10\x00", &mut bytes);
    assert_eq!(rt;
        bytes.as_slice(),
        b"\x02\x02\x01\xe7\x10\x00\x04".as_slice()
    );

    // Under the CRC the low byte of the check is where the source was, and the high byte at the
    // end.
    write(CheckKind::Crc, 2, 1, 231, b"\x10\x00", &mut bytes);
    assert_eq!(rt;
        bytes.as_slice(),
        b"\x02\x02\x39\xe7\x10\x00\x8f".as_slice()
    );
    assert_eq!(rt; crc16(b"\x02\x02\xe7\x10\x00"), 0x8f39);

    // What is read is a view: its data stay in the bytes. Else the first thing that is wrong is
    // reported.
    let whole = FrameView {
        to: 2,
        from: None,
        header: 231,
        body: b"\x10\x00",
    };
    assert_eq!(rt; read(CheckKind::Crc, bytes.as_slice()), Ok(whole));
    assert_eq!(rt;
        read(CheckKind::Simple, b"\x02\x02\x01\xe7\x10\x01\x04"),
        Err(FrameFault::Check {
            want: 0x03,
            got: 0x04
        })
    );
    Ok(())
}

#[test]
fn a_request_and_its_reply(rt: HostRuntime) -> Result<(), Fail> {
    let mut sent: ArrayVec<u8, MOST_SENT> = ArrayVec::new();
    encode_request(CheckKind::Simple, 2, &Request::ReadCredits, &mut sent);
    assert_eq!(rt; sent.as_slice(), b"\x02\x00\x01\xe5\x18".as_slice());

    // On the wire the host hears its own bytes first. `hear` takes them off, and reads what
    // follows.
    let heard =
        b"\x02\x00\x01\xe5\x18\x01\x0b\x02\x00\x01\x05\x01\x00\x00\x00\x00\x00\x00\x00\x00\xeb";
    let Heard::Message(view) = hear(CheckKind::Simple, sent.as_slice(), heard) else {
        panic!(rt; "a message follows the echo");
    };
    let Ok(Reply::Credits(credits)) = read_reply(ReplyForm::Credits, 2, &view) else {
        panic!(rt; "the credits are wanted");
    };
    assert_eq!(rt;
        (credits.counter, credits.pairs[0]),
        (1, Pair { a: 5, b: 1 })
    );

    // The same message is no mask, and is nothing that the device at address 3 sent.
    assert!(rt; matches!(read_reply(ReplyForm::Mask, 2, &view), Err(NotWanted::Other)));
    assert!(rt;
        matches!(
            read_reply(ReplyForm::Credits, 3, &view),
            Err(NotWanted::Other)
        )
    );
    Ok(())
}

#[test]
fn a_message_that_comes_byte_by_byte(rt: HostRuntime) -> Result<(), Fail> {
    let mut framer = Framer::new(CheckKind::Simple);
    for byte in b"\x02\x00\x01\xe5" {
        assert_eq!(rt; framer.feed(*byte), Fed::More);
    }
    assert_eq!(rt; framer.feed(0x18), Fed::Whole);
    let request = FrameView {
        to: 2,
        from: Some(1),
        header: 229,
        body: b"",
    };
    assert_eq!(rt; framer.view(), Ok(request));

    // After a gap the next byte is the first of a message.
    framer.gap();
    assert!(rt; framer.is_empty());
    Ok(())
}
