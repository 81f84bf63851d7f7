//! What is written beside the signs of a picture.

use crate::element::push_numbered;
use crate::worth::Worths;
use crate::{FaultAt, Happening, Heard, Label, Verdict};
use cct_edge::Sink;
use cct_show_pen::Pen;

/// What happened in a device, in some words.
fn happening_name(what: Happening) -> &'static [u8] {
    match what {
        Happening::Accepted { .. } => b"coin in",
        Happening::Held { .. } => b"bill held",
        Happening::Inhibited { .. } => b"given back",
        Happening::Alien => b"alien object",
        Happening::Fell => b"coin out",
        Happening::NoFall => b"no coin left to fall",
        Happening::Jammed => b"jammed",
        Happening::NoJam => b"no coin left to jam",
        Happening::Reset => b"reset",
        Happening::Stacked => b"bill stacked",
        Happening::Returned => b"bill returned",
        Happening::Stock { .. } => b"counted by the operator: ",
    }
}

/// Writes what happened in the device at an address, and the place, the worth and the path of a
/// coin or a bill.
pub(crate) fn write_happening<K: Sink>(
    pen: &mut Pen<'_, K>,
    worths: &Worths,
    addr: u8,
    what: Happening,
) {
    pen.push(happening_name(what));
    match what {
        Happening::Accepted { place, path } => {
            push_numbered(pen, b": place ", place, b"");
            worths.write(pen, addr, place);
            push_numbered(pen, b", path ", path, b"");
        }
        Happening::Held { place } | Happening::Inhibited { place } => {
            push_numbered(pen, b": place ", place, b"");
            worths.write(pen, addr, place);
        }
        Happening::Stock { count } => pen.push_number(count),
        _ => {}
    }
}

/// What a monitor says, in a word.
pub(crate) fn verdict_name(verdict: Verdict) -> &'static [u8] {
    match verdict {
        Verdict::Sure => b"sure, ",
        Verdict::Quiet => b"quiet, ",
        Verdict::Doubt => b"doubt, ",
        Verdict::Fell => b"fell, ",
    }
}

/// What the host heard, in a word or two.
pub(crate) fn heard_name(heard: Heard) -> &'static [u8] {
    match heard {
        Heard::Answered => b"answered",
        Heard::Nak => b"NAK",
        Heard::Busy => b"busy",
        Heard::Other => b"another reply",
        Heard::Silence => b"silence",
        Heard::Damaged => b"damaged",
        Heard::DamagedEcho => b"damaged echo",
        Heard::NoReply => b"no reply",
    }
}

/// Writes what the host heard, and what the reply says.
pub(crate) fn write_heard<K: Sink>(pen: &mut Pen<'_, K>, heard: Heard, says: &Label) {
    pen.push(heard_name(heard));
    if !says.as_slice().is_empty() {
        pen.push(b": ");
        pen.push_label(says);
    }
}

/// What fault the wire has in the next exchange, up to the bytes that will be heard.
fn fault_name(at: FaultAt) -> &'static [u8] {
    match at {
        FaultAt::Nowhere => b"no fault in the next exchange",
        FaultAt::Devices => b"fault: the devices will hear ",
        FaultAt::Host => b"fault: as the reply the host will hear ",
        FaultAt::Whole => b"fault: as echo and reply the host will hear ",
    }
}

/// Writes what fault the wire has in the next exchange, and the bytes that will be heard.
pub(crate) fn write_fault<K: Sink>(pen: &mut Pen<'_, K>, at: FaultAt, bytes: &Label) {
    pen.push(fault_name(at));
    match at {
        FaultAt::Nowhere => {}
        FaultAt::Devices | FaultAt::Host | FaultAt::Whole => write_heard_bytes(pen, bytes),
    }
}

/// Writes the bytes of a fault, which may be none.
fn write_heard_bytes<K: Sink>(pen: &mut Pen<'_, K>, bytes: &Label) {
    match bytes.as_slice() {
        b"-" => pen.push(b"nothing"),
        _ => pen.push_label(bytes),
    }
}
