//! How a job ended, by the line that says it.

use crate::fields::{byte, one_byte, two_bytes};
use cct_model_lines::{BROADCAST, CheckKind, DeviceSet, End, Entry, HOST, Listed};

const STARTED: &[u8] = b"started";

const UNSURE: &[u8] = b"unsure";

const POSTED: &[u8] = b"posted";

const CLEAN: &[u8] = b"clean";

const BROKE: &[u8] = b"broke";

const MOVED: &[u8] = b"moved";

const STOPPED: &[u8] = b"stopped";

const CLOSED: &[u8] = b"closed";

const ODD_LIFE: &[u8] = b"oddlife";

const NO_ANSWER: &[u8] = b"noanswer";

const TOLD: &[u8] = b"told";

const ROUTED: &[u8] = b"routed";

const ROUTE_UNSURE: &[u8] = b"routeunsure";

const SOLD: &[u8] = b"sold";

const UNQUIET: &[u8] = b"unquiet";

const PATH_SET: &[u8] = b"pathset";

const LISTED: &[u8] = b"listed";

/// The entry of a line that says how a job ended.
pub(crate) fn end_line(word: &[u8], rest: &[&[u8]]) -> Option<Entry> {
    match word {
        _ if word == SOLD => sold_line(rest),
        _ if word == UNQUIET => unquiet_line(rest),
        _ if word == PATH_SET => path_line(rest),
        _ if word == LISTED => listed_line(rest),
        _ => bare_line(word, rest),
    }
}

/// A line that has nothing but an address after its word.
fn bare_line(word: &[u8], rest: &[&[u8]]) -> Option<Entry> {
    let end = epoch_end(word).or(other_end(word))?;
    Some(Entry::Ended {
        addr: one_byte(rest)?,
        end,
    })
}

/// The line `sold`; a sale is at the address of the host.
fn sold_line(rest: &[&[u8]]) -> Option<Entry> {
    match rest {
        [] => Some(Entry::Ended {
            addr: HOST,
            end: End::Sold,
        }),
        _ => None,
    }
}

/// The line `unquiet A COUNTER`.
fn unquiet_line(rest: &[&[u8]]) -> Option<Entry> {
    let (addr, counter) = two_bytes(rest)?;
    Some(Entry::Ended {
        addr,
        end: End::Unquiet { counter },
    })
}

/// The line `pathset A PLACE PATH`.
fn path_line(rest: &[&[u8]]) -> Option<Entry> {
    let (addr, rest) = rest.split_first()?;
    let addr = byte(addr)?;
    let (place, path) = two_bytes(rest)?;
    Some(Entry::Ended {
        addr,
        end: End::PathSet { place, path },
    })
}

/// The line `listed LIST`; a scan is at the address of all.
fn listed_line(rest: &[&[u8]]) -> Option<Entry> {
    let [list] = rest else {
        return None;
    };
    let mut listed = Listed {
        simple: DeviceSet::new(),
        crc: DeviceSet::new(),
    };
    if *list != b"-".as_slice() {
        for device in list.split(|byte| *byte == b',') {
            add_device(&mut listed, device)?;
        }
    }
    Some(Entry::Ended {
        addr: BROADCAST,
        end: End::Listed(listed),
    })
}

/// Adds a device that a text names.
fn add_device(listed: &mut Listed, text: &[u8]) -> Option<()> {
    let (addr, kind) = device_in(text)?;
    match kind {
        CheckKind::Simple => listed.simple.insert(addr),
        CheckKind::Crc => listed.crc.insert(addr),
    }
    Some(())
}

/// The address and the check that a text names, as `2/simple`.
fn device_in(text: &[u8]) -> Option<(u8, CheckKind)> {
    match text.strip_suffix(b"/simple") {
        Some(addr) => Some((byte(addr)?, CheckKind::Simple)),
        None => Some((byte(text.strip_suffix(b"/crc")?)?, CheckKind::Crc)),
    }
}

/// The end of a start, a round or a stop that a word names which has an address after it alone.
fn epoch_end(word: &[u8]) -> Option<End> {
    match word {
        _ if word == STARTED => Some(End::Started),
        _ if word == UNSURE => Some(End::StartUnsure),
        _ if word == POSTED => Some(End::Posted),
        _ if word == CLEAN => Some(End::Clean),
        _ if word == BROKE => Some(End::Broke),
        _ if word == MOVED => Some(End::Moved),
        _ if word == STOPPED => Some(End::Stopped),
        _ => None,
    }
}

/// Another end that a word names which has an address after it alone.
fn other_end(word: &[u8]) -> Option<End> {
    match word {
        _ if word == CLOSED => Some(End::Closed),
        _ if word == ODD_LIFE => Some(End::OddLife),
        _ if word == NO_ANSWER => Some(End::NoAnswer),
        _ if word == TOLD => Some(End::Told),
        _ if word == ROUTED => Some(End::Routed),
        _ if word == ROUTE_UNSURE => Some(End::RouteUnsure),
        _ => None,
    }
}
