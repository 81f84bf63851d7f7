//! The lines of a capture before its taps.
ghost use Rattle.std.specs.Prelude.{◌≡◌};
ghost use Rattle.cct_audit.specs.Capture.{bills_at, bills_line, bills_under, family_in};
ghost use Rattle.cct_audit.specs.Capture.{hopper_form, mannered_form, mannered_watch, plain_line};
ghost use Rattle.cct_audit.specs.Capture.{watch_line};

use cct_model::{CheckKind, LineKind};
use cct_monitor::{Family, Money};
use cct_script::{CaptureLine, ranged, read_capture_line};

/// The last word of a line that watches an acceptor for resets alone, after the space before it.
const QUIET: &[u8] = b" quiet";

/// That of a line that watches a device for premises that are broken.
const PREMISES: &[u8] = b" premises";

/// The word before it of a bill acceptor.
const BILLS: &[u8] = b" bills";

/// The words before that which name a check.
const SIMPLE: &[u8] = b" simple";

const CRC: &[u8] = b" crc";

/// The first word of such a line, with the space after it.
const WATCH: &[u8] = b"watch ";

/// How a device is watched that isn't watched plainly.
#[derive(Clone, Copy)]
pub(crate) enum Manner {
    /// For resets alone.
    Quiet,
    /// For premises that are broken.
    Premises,
}

/// What a line before `begin` says.
#[derive(Clone, Copy)]
pub(crate) enum WatchLine {
    /// `watch A CHECK KIND`, or with the word `quiet` or `premises` after it, where KIND may be
    /// `bills` too.
    Watch {
        addr: u8,
        kind: CheckKind,
        family: Family,
    },
    /// `begin`.
    Begin,
}

/// What a whole line before `begin` says.
pub(crate) fn read_watch_line(line: &[u8]) -> Result<WatchLine, LineKind>
    ensures { result ≡ watch_line line.now }
{
    let (front, last) = line.split_at(line.len().saturating_sub(QUIET.len()));
    if last == QUIET {
        return mannered_watch(Manner::Quiet, front);
    }
    let (front, last) = line.split_at(line.len().saturating_sub(PREMISES.len()));
    if last == PREMISES {
        return mannered_watch(Manner::Premises, front);
    }
    plain_line(read_capture_line(false, line))
}

/// The family of an acceptor of this money that is so watched.
fn family_in(manner: Manner, money: Money) -> Family
    ensures { result ≡ family_in manner money }
{
    match manner {
        Manner::Quiet => Family::QuietAcceptor(money),
        Manner::Premises => Family::Premises(money),
    }
}

/// What a line says whose last word names no manner.
fn plain_line(read: Result<CaptureLine, LineKind>) -> Result<WatchLine, LineKind>
    ensures { result ≡ plain_line read }
{
    match read {
        Ok(
            CaptureLine::Watch {
                addr,
                kind,
                acceptor,
            },
        ) => {
            let family = if acceptor {
                Family::Acceptor
            } else {
                Family::Hopper
            };
            Ok(WatchLine::Watch { addr, kind, family })
        }
        Ok(CaptureLine::Begin) => Ok(WatchLine::Begin),
        Ok(_) => Err(LineKind::Word),
        Err(why) => Err(why),
    }
}

/// What a line says whose last word is that of a manner, by what is before it.
fn mannered_watch(manner: Manner, front: &[u8]) -> Result<WatchLine, LineKind>
    ensures { result ≡ mannered_watch manner front.now }
{
    match bills_line(manner, front) {
        Some(watch) => Ok(watch),
        None => mannered_form(manner, read_capture_line(false, front)),
    }
}

/// `watch A CHECK bills`.
fn bills_line(manner: Manner, front: &[u8]) -> Option<WatchLine>
    ensures { result ≡ bills_line manner front.now }
{
    let (checked, last) = front.split_at(front.len().saturating_sub(BILLS.len()));
    if last == BILLS {
        bills_under(manner, checked)
    } else {
        None
    }
}

/// `watch A CHECK`, of a bill acceptor.
fn bills_under(manner: Manner, checked: &[u8]) -> Option<WatchLine>
    ensures { result ≡ bills_under manner checked.now }
{
    let (named, check) = checked.split_at(checked.len().saturating_sub(SIMPLE.len()));
    if check == SIMPLE {
        return bills_at(manner, CheckKind::Simple, named);
    }
    let (named, check) = checked.split_at(checked.len().saturating_sub(CRC.len()));
    if check == CRC {
        return bills_at(manner, CheckKind::Crc, named);
    }
    None
}

/// `watch A`, of a bill acceptor with this check.
fn bills_at(manner: Manner, kind: CheckKind, named: &[u8]) -> Option<WatchLine>
    ensures { result ≡ bills_at manner kind named.now }
{
    let (word, field) = named.split_at(named.len().min(WATCH.len()));
    if word != WATCH {
        return None;
    }
    let addr = ranged(2, 255, field)? as u8;
    Some(WatchLine::Watch {
        addr,
        kind,
        family: family_in(manner, Money::Bills),
    })
}

/// What a line says that watches no bill acceptor, by what is before its last word: an acceptor of
/// coins or a hopper is so watched.
fn mannered_form(manner: Manner, read: Result<CaptureLine, LineKind>) -> Result<WatchLine, LineKind>
    ensures { result ≡ mannered_form manner read }
{
    match read {
        Ok(
            CaptureLine::Watch {
                addr,
                kind,
                acceptor: true,
            },
        ) => Ok(WatchLine::Watch {
            addr,
            kind,
            family: family_in(manner, Money::Coins),
        }),
        Ok(
            CaptureLine::Watch {
                addr,
                kind,
                acceptor: false,
            },
        ) => hopper_form(manner, addr, kind),
        Ok(_) => Err(LineKind::Form),
        Err(why) => Err(why),
    }
}

/// A hopper, which is watched for premises alone.
fn hopper_form(manner: Manner, addr: u8, kind: CheckKind) -> Result<WatchLine, LineKind>
    ensures { result ≡ hopper_form manner addr kind }
{
    match manner {
        Manner::Quiet => Err(LineKind::Form),
        Manner::Premises => Ok(WatchLine::Watch {
            addr,
            kind,
            family: Family::HopperPremises,
        }),
    }
}
