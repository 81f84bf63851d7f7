//! What an audit heard of each watched device, said on standard error: how many exchanges were for
//! it, and what may be wrong where it heard nothing.

use cct_bench::{Family, Heard, Money, Monitor};
use cct_model_lines::CheckKind;

/// Says of each watched device how many of the exchanges were for it, and what they showed.
pub(crate) fn tell_heard(rt: &HostRuntime, monitor: &Monitor) {
    let taps = monitor.taps();
    if monitor.watched() == 0 {
        let _ = eprintln!(rt;
            "no device is watched, so nothing is said of {taps} exchanges; write a line watch A CHECK KIND before the line begin (docs/AUDIT.md)"
        );
    }
    for place in 0..monitor.watched() {
        if let Some(heard) = monitor.heard(place) {
            tell_device(rt, taps, &heard);
        }
    }
}

/// Says it of one device.
fn tell_device(rt: &HostRuntime, taps: u32, heard: &Heard) {
    let Heard { addr, tally, .. } = *heard;
    let device = name_of(heard.family);
    let messages = tally.messages;
    if messages == 0 {
        let check = name_of_check(heard.kind);
        let _ = eprintln!(rt;
            "{device} {addr}: none of {taps} exchanges was a message to it under {check}. Is that its address and its check?"
        );
    } else {
        tell_readings(rt, taps, heard);
    }
}

/// Says what the exchanges showed that were for a device.
fn tell_readings(rt: &HostRuntime, taps: u32, heard: &Heard) {
    let Heard { addr, tally, .. } = *heard;
    let device = name_of(heard.family);
    let (messages, readings, masks) = (tally.messages, tally.readings, tally.masks);
    let _ = match heard.family {
        Family::Hopper if readings == 0 => eprintln!(rt;
            "{device} {addr}: {messages} of {taps} exchanges, no reply to 168. Is it a hopper, and are its replies in the log?"
        ),
        Family::Hopper | Family::HopperPremises => eprintln!(rt;
            "{device} {addr}: {messages} of {taps} exchanges, {readings} replies to 168"
        ),
        Family::QuietAcceptor(Money::Bills) if readings == 0 => eprintln!(rt;
            "{device} {addr}: {messages} of {taps} exchanges, no reply to 159. Is it a bill acceptor, and are its replies in the log?"
        ),
        Family::QuietAcceptor(Money::Bills) => eprintln!(rt;
            "{device} {addr}: {messages} of {taps} exchanges, {readings} replies to 159, {masks} to 230"
        ),
        Family::Premises(Money::Bills) => eprintln!(rt;
            "{device} {addr}: {messages} of {taps} exchanges, {readings} replies to 159, {masks} to 230"
        ),
        Family::Premises(Money::Coins) => eprintln!(rt;
            "{device} {addr}: {messages} of {taps} exchanges, {readings} replies to 229, {masks} to 230"
        ),
        _ if readings == 0 => eprintln!(rt;
            "{device} {addr}: {messages} of {taps} exchanges, no reply to 229. Is it an acceptor of coins, and are its replies in the log?"
        ),
        Family::Acceptor if masks == 0 => eprintln!(rt;
            "{device} {addr}: {messages} of {taps} exchanges, {readings} replies to 229, none to 230, so no span is sure. If it resets only where the log shows it, write quiet behind its watch line (docs/AUDIT.md)"
        ),
        _ => eprintln!(rt;
            "{device} {addr}: {messages} of {taps} exchanges, {readings} replies to 229, {masks} to 230"
        ),
    };
}

/// The word of a family.
fn name_of(family: Family) -> &'static str {
    match family {
        Family::Acceptor | Family::QuietAcceptor(Money::Coins) | Family::Premises(Money::Coins) =>
            "acceptor",
        Family::QuietAcceptor(Money::Bills) | Family::Premises(Money::Bills) => "bill acceptor",
        Family::Hopper | Family::HopperPremises => "hopper",
    }
}

/// The word of a check.
fn name_of_check(kind: CheckKind) -> &'static str {
    match kind {
        CheckKind::Simple => "simple",
        CheckKind::Crc => "crc",
    }
}
