//! The names of the ways, as loggers write them.

/// Which way bytes went.
#[derive(Clone, Copy, PartialEq, Eq)]
pub enum Way {
    Sent,
    Heard,
}

/// Names that say that bytes were sent, and nothing else.
const SENT: &[u8] = b"tx txd send sent sending transmit transmitted outgoing gesendet senden";

/// Names that say that bytes were heard, and nothing else.
const HEARD: &[u8] = b"rx rxd recv receive received receiving incoming empfangen empfang";

/// Names that may say that bytes were sent, beside those of the host.
const OUTWARD: &[u8] = b"out w wr write written req request cmd";

/// Names that may say that bytes were heard.
const INWARD: &[u8] = b"in r rd read resp rsp response reply answer device slave";

/// Names of the host.
const HOSTS: &[u8] = b"host pc master controller";

/// Whether a name in letters of either case is one of a list, in which spaces stand between them.
pub(crate) fn is_among(list: &[u8], name: &[u8]) -> bool {
    !name.is_empty()
        && list
            .split(|byte| *byte == b' ')
            .any(|known| known.eq_ignore_ascii_case(name))
}

/// The way that a name says, where that is all that it can say.
pub(crate) fn named_way(name: &[u8]) -> Option<Way> {
    if is_among(SENT, name) {
        Some(Way::Sent)
    } else if is_among(HEARD, name) {
        Some(Way::Heard)
    } else {
        None
    }
}

/// The way that a name may say, and may say something else.
pub(crate) fn maybe_way(name: &[u8]) -> Option<Way> {
    if is_among(OUTWARD, name) || is_host(name) {
        Some(Way::Sent)
    } else if is_among(INWARD, name) {
        Some(Way::Heard)
    } else {
        None
    }
}

/// Whether a name is the host's.
pub(crate) fn is_host(name: &[u8]) -> bool {
    is_among(HOSTS, name)
}

/// The way that an arrow points: from the host, or to it.
pub(crate) fn arrow_way(arrow: &[u8]) -> Option<Way> {
    match arrow {
        b"\xe2\x86\x92" => return Some(Way::Sent),
        b"\xe2\x86\x90" => return Some(Way::Heard),
        _ => {}
    }
    let is_plain = arrow.len() <= 3
        && arrow
            .iter()
            .all(|byte| matches!(*byte, b'-' | b'=' | b'>' | b'<'));
    match (arrow.first(), arrow.last()) {
        (Some(b'<'), Some(b'>')) => None,
        (_, Some(b'>')) if is_plain => Some(Way::Sent),
        (Some(b'<'), _) if is_plain => Some(Way::Heard),
        _ => None,
    }
}
