//! A port over a line that is played: what it takes for the reply, and what it drops as a late one.
ghost use Rattle.std.specs.Prelude.{◌≤◌, length};
ghost use Rattle.cct_model_wire.specs.declared.wire.TheConstants.{MOST_SENT};

use arrayvec::ArrayVec;
use cct_live_port::{Options, Port, StdLine};
use cct_model_wire::{CheckKind, MOST_HEARD};
use cct_wire::Link;
use std::io;
use std::io::{ErrorKind, Read, Write};
use std::test::Fail;

/// A poll of device 2 by the host under the simple check, and its reply.
const POLL: &[u8] = b"\x02\x00\x01\xfe\xff";

const REPLY: &[u8] = b"\x01\x00\x02\x00\xfd";

/// Polls of devices 5 and 6 under the CRC. The replies are the same bytes.
const POLL_5: &[u8] = b"\x05\x00\x21\xfe\xe5";

const POLL_6: &[u8] = b"\x06\x00\x71\xfe\xbc";

const CRC_REPLY: &[u8] = b"\x01\x00\x30\x00\x37";

/// A poll of device 151 under the CRC, which is a message under the simple check too, and a reply to
/// it under that one.
const POLL_151: &[u8] = b"\x97\x00\x78\xfe\xf3";

const SIMPLE_REPLY_151: &[u8] = b"\x01\x00\x97\x00\x68";

/// The address poll by the host, and what devices 2 and 3 answer.
const ADDRESS_POLL: &[u8] = b"\x00\x00\x01\xfd\x02";

const ADDRESSES: &[u8] = b"\x02\x03";

/// Bytes that a device gives after a write, once so many reads were silent since then.
struct Part {
    write: usize,
    delay: u64,
    bytes: &'static [u8],
}

/// A line that is played. A read gives what is waiting, or is silent; time is the number of silent
/// reads.
#[derive(Drop)]
struct Played {
    echoes: bool,
    /// The most bytes that one read gives.
    most: usize,
    /// The numbers of the read and of the write that fail; the first is 1, and 0 is none.
    read_fails: u64,
    write_fails: usize,
    parts: &'static [Part],
    /// How much later the parts come than each one says.
    late: u64,
    given: usize,
    waiting: ArrayVec<u8, MOST_HEARD>,
    time: u64,
    reads: u64,
    written_at: ArrayVec<u64, 64>,
}

impl Played {
    /// A line that gives the echo, and these parts.
    fn new(parts: &'static [Part]) -> Played {
        Played {
            echoes: true,
            most: MOST_HEARD,
            read_fails: 0,
            write_fails: 0,
            parts,
            late: 0,
            given: 0,
            waiting: ArrayVec::new(),
            time: 0,
            reads: 0,
            written_at: ArrayVec::new(),
        }
    }

    /// The next part is waiting to be read, if its time has come.
    fn deliver(&mut self) {
        let Some(part) = self.parts.get(self.given) else {
            return;
        };
        if let Some(at) = self.written_at.as_slice().get(part.write) {
            if self.time >= at.saturating_add(part.delay).saturating_add(self.late) {
                let _ = self.waiting.try_extend_from_slice(part.bytes);
                self.given = self.given.saturating_add(1);
            }
        }
    }
}

impl Read for Played {
    fn read(&mut self, buf: &mut [u8]) -> io::Result<usize> {
        self.reads = self.reads.saturating_add(1);
        if self.reads == self.read_fails {
            return Err(io::Error::from(ErrorKind::TimedOut));
        }
        self.deliver();
        let came = self.waiting.take();
        if came.is_empty() {
            self.time = self.time.saturating_add(1);
        }
        let count = came.len().min(buf.len()).min(self.most);
        let (front, rest) = came.as_slice().split_at(count);
        buf[..count].copy_from_slice(front);
        let _ = self.waiting.try_extend_from_slice(rest);
        Ok(count)
    }
}

impl Write for Played {
    fn write(&mut self, buf: &[u8]) -> io::Result<usize> {
        if self.written_at.len() + 1 == self.write_fails {
            self.write_fails = 0;
            return Err(io::Error::from(ErrorKind::BrokenPipe));
        }
        let _ = self.written_at.try_push(self.time);
        if self.echoes {
            let _ = self.waiting.try_extend_from_slice(buf);
        }
        self.deliver();
        Ok(buf.len())
    }

    fn flush(&mut self) -> io::Result<()> {
        Ok(())
    }
}

/// A port over a played line: one silent read before a message, an answer within three, none after
/// thirty.
fn port(line: Played) -> Port<StdLine<Played>> {
    let options = Options {
        echoes: line.echoes,
        gap: 1,
        patience: 3,
        longest: 30,
    };
    Port::new(StdLine::new(line), options)
}

/// What is heard in one exchange.
fn heard<L: Link>(link: &mut L, sent: &[u8]) -> ArrayVec<u8, MOST_HEARD>
    requires { length sent.now ≤ MOST_SENT }
{
    let mut heard = ArrayVec::new();
    link.exchange(sent, &mut heard);
    heard
}

/// What is heard in one exchange under a check.
fn heard_under<L: Link>(link: &mut L, kind: CheckKind, sent: &[u8]) -> ArrayVec<u8, MOST_HEARD>
    requires { length sent.now ≤ MOST_SENT }
{
    let mut heard = ArrayVec::new();
    link.exchange_under(kind, sent, &mut heard);
    heard
}

/// Whether bytes are one run of bytes, and then another.
fn is_both(bytes: &ArrayVec<u8, MOST_HEARD>, first: &[u8], second: &[u8]) -> bool {
    match bytes.as_slice().strip_prefix(first) {
        Some(rest) => rest == second,
        None => false,
    }
}

#[test]
fn a_reply_is_heard_after_the_echo(rt: HostRuntime) {
    // At once; and in two parts, with two silent reads before each.
    const AT_ONCE: &[Part] = &[Part {
        write: 0,
        delay: 0,
        bytes: REPLY,
    }];
    const IN_PARTS: &[Part] = &[
        Part {
            write: 0,
            delay: 2,
            bytes: b"\x01\x00\x02",
        },
        Part {
            write: 0,
            delay: 4,
            bytes: b"\x00\xfd",
        },
    ];
    for parts in [AT_ONCE, IN_PARTS] {
        for echoes in [true, false] {
            for most in [MOST_HEARD, 1] {
                let mut line = Played::new(parts);
                line.echoes = echoes;
                line.most = most;
                let mut port = port(line);
                assert!(rt; is_both(&heard(&mut port, POLL), POLL, REPLY));
                assert!(rt; port.is_settled());
                assert_eq!(rt; port.faults(), 0);
            }
        }
    }
}

#[test]
fn silence_leaves_the_echo(rt: HostRuntime) {
    for echoes in [true, false] {
        let mut line = Played::new(&[]);
        line.echoes = echoes;
        let mut port = port(line);
        assert_eq!(rt; heard(&mut port, POLL).as_slice(), POLL);
        assert!(rt; !port.is_settled());
        assert_eq!(rt; port.faults(), 0);
    }
}

#[test]
fn what_came_before_is_dropped(rt: HostRuntime) {
    const REPLIES: &[Part] = &[
        Part {
            write: 0,
            delay: 0,
            bytes: REPLY,
        },
        Part {
            write: 1,
            delay: 0,
            bytes: REPLY,
        },
    ];
    let mut line = Played::new(REPLIES);
    let _ = line.waiting.try_extend_from_slice(REPLY);
    let mut line = Port::new(
        StdLine::new(line),
        Options {
            echoes: true,
            gap: 1,
            patience: 3,
            longest: 1,
        },
    );
    assert!(rt; is_both(&heard(&mut line, POLL), POLL, REPLY));
    assert!(rt; is_both(&heard(&mut line, POLL), POLL, REPLY));
}

/// A reply that comes twice, and then one to each of two further messages.
const TWICE: &[Part] = &[
    Part {
        write: 0,
        delay: 0,
        bytes: b"\x01\x00\x02\x00\xfd\x01\x00\x02\x00\xfd",
    },
    Part {
        write: 1,
        delay: 0,
        bytes: REPLY,
    },
    Part {
        write: 2,
        delay: 0,
        bytes: REPLY,
    },
];

/// A port over a line on which that reply comes twice, five bytes in each read.
fn port_twice(echoes: bool, gap: u16) -> Port<StdLine<Played>> {
    let mut line = Played::new(TWICE);
    line.echoes = echoes;
    line.most = 5;
    let options = Options {
        echoes,
        gap: 1,
        patience: 3,
        longest: 12,
    };
    let mut port = Port::new(StdLine::new(line), options);
    port.set_gap(gap);
    port
}

#[test]
fn a_reply_that_comes_twice_stands_before_the_next_echo(rt: HostRuntime) {
    let mut port = port_twice(true, 0);
    assert!(rt; is_both(&heard(&mut port, POLL), POLL, REPLY));
    assert!(rt; is_both(&heard(&mut port, POLL), REPLY, POLL));
    assert!(rt; !port.is_settled());
    assert!(rt; is_both(&heard(&mut port, POLL), POLL, REPLY));
    assert!(rt; port.is_settled());
}

#[test]
fn a_reply_that_comes_twice_is_dropped_by_a_silent_read(rt: HostRuntime) {
    let mut port = port_twice(false, 1);
    assert!(rt; is_both(&heard(&mut port, POLL), POLL, REPLY));
    assert!(rt; is_both(&heard(&mut port, POLL), POLL, REPLY));
    assert!(rt; port.is_settled());
}

/// Whether one of the next twenty exchanges with device 6, which is silent, takes the late reply of
/// device 5 for its own. That one comes so many silent reads after the exchange with device 5 gave
/// up.
fn takes_late(late: u16, longest: u16) -> bool {
    const LATE: &[Part] = &[Part {
        write: 0,
        delay: 3,
        bytes: CRC_REPLY,
    }];
    let mut line = Played::new(LATE);
    line.late = u64::from(late);
    let mut port = Port::new(
        StdLine::new(line),
        Options {
            echoes: true,
            gap: 0,
            patience: 3,
            longest,
        },
    );
    let _ = heard(&mut port, POLL_5);
    for _ in 0..20 {
        if is_both(&heard(&mut port, POLL_6), POLL_6, CRC_REPLY) {
            return true;
        }
    }
    false
}

#[test]
fn a_late_reply_is_dropped(rt: HostRuntime) {
    // Only a wait that is longer than the reply is late will do. The three silent reads before the
    // port gave up count.
    for late in 1..=20 {
        assert!(rt; takes_late(late, 0));
        assert!(rt; takes_late(late, late + 3));
        assert!(rt; !takes_late(late, late + 4));
    }
}

#[test]
fn a_failing_line_is_counted(rt: HostRuntime) {
    const REPLIES: &[Part] = &[Part {
        write: 0,
        delay: 0,
        bytes: REPLY,
    }];
    // The thirty silent reads before a message, and the first one after it.
    for number in [1, 30, 31] {
        let mut line = Played::new(&[]);
        line.read_fails = number;
        let mut port = port(line);
        assert!(rt; heard(&mut port, POLL).is_empty());
        assert_eq!(rt; port.faults(), 1);
        assert!(rt; !port.is_settled());
        assert_eq!(rt; heard(&mut port, POLL).as_slice(), POLL);
        assert_eq!(rt; port.faults(), 1);
    }
    let mut line = Played::new(REPLIES);
    line.write_fails = 1;
    let mut port = port(line);
    assert!(rt; heard(&mut port, POLL).is_empty());
    assert_eq!(rt; port.faults(), 1);
    assert!(rt; is_both(&heard(&mut port, POLL), POLL, REPLY));
    assert_eq!(rt; port.faults(), 1);
}

#[test]
fn two_messages_are_no_reply(rt: HostRuntime) {
    const BOTH: &[Part] = &[Part {
        write: 0,
        delay: 0,
        bytes: b"\x01\x00\x02\x00\xfd\x01\x00\x02\x00\xfd",
    }];
    let mut port = port(Played::new(BOTH));
    assert!(rt;
        is_both(
            &heard(&mut port, POLL),
            POLL,
            b"\x01\x00\x02\x00\xfd\x01\x00\x02\x00\xfd"
        )
    );
    assert!(rt; !port.is_settled());
}

/// A port over a line on which a reply under the simple check comes at once to a poll of device 151,
/// and a reply under the CRC soon after it.
fn port_at_151() -> Port<StdLine<Played>> {
    const REPLIES: &[Part] = &[
        Part {
            write: 0,
            delay: 0,
            bytes: SIMPLE_REPLY_151,
        },
        Part {
            write: 0,
            delay: 2,
            bytes: CRC_REPLY,
        },
    ];
    port(Played::new(REPLIES))
}

#[test]
fn a_reply_under_another_check_is_waited_out(rt: HostRuntime) {
    let mut asked = port_at_151();
    let first = heard_under(&mut asked, CheckKind::Crc, POLL_151);
    assert!(rt; is_both(&first, POLL_151, SIMPLE_REPLY_151));
    assert!(rt; !asked.is_settled());
    // In the silence before it is asked again the reply comes that was wanted, and is dropped.
    let second = heard_under(&mut asked, CheckKind::Crc, POLL_151);
    assert_eq!(rt; second.as_slice(), POLL_151);

    let mut other = port_at_151();
    let first = heard_under(&mut other, CheckKind::Simple, POLL_151);
    assert!(rt; is_both(&first, POLL_151, SIMPLE_REPLY_151));
    assert!(rt; other.is_settled());
    let second = heard_under(&mut other, CheckKind::Simple, POLL_151);
    assert!(rt; is_both(&second, POLL_151, CRC_REPLY));
}

#[test]
fn an_address_poll_is_listened_to_for_longest(rt: HostRuntime) {
    const ANSWERS: &[Part] = &[Part {
        write: 0,
        delay: 25,
        bytes: ADDRESSES,
    }];
    let mut port = port(Played::new(ANSWERS));
    assert!(rt; is_both(&heard(&mut port, ADDRESS_POLL), ADDRESS_POLL, ADDRESSES));
    assert!(rt; !port.is_settled());
}

#[test]
fn an_address_poll_finds_the_echo(rt: HostRuntime) {
    const ANSWERS: &[Part] = &[Part {
        write: 0,
        delay: 1,
        bytes: ADDRESSES,
    }];
    let mut given = port(Played::new(ANSWERS));
    assert_eq!(rt; given.find_echo(), Some(true));

    let mut line = Played::new(ANSWERS);
    line.echoes = false;
    let mut missing = port(line);
    assert_eq!(rt; missing.find_echo(), Some(false));
    assert_eq!(rt; heard(&mut missing, POLL).as_slice(), POLL);

    let mut line = Played::new(&[]);
    line.echoes = false;
    let mut silent = port(line);
    assert_eq!(rt; silent.find_echo(), None);
}
