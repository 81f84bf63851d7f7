//! The lines of a capture (`docs/AUDIT.md`).
ghost use Rattle.std.specs.Prelude.{◌≡◌, ◌≤◌, length, IfOk, MatchOption};
ghost use Rattle.cct_script.specs.Capture.{IsCaptureLine, acceptor_in, capture_line, sent_in};
ghost use Rattle.cct_script.specs.Capture.{tap_form, tap_word, watch_form, watch_word};
ghost use Rattle.cct_script.specs.Fields.{Reads, fields_after};

use crate::fields::{alone, first_field, three, two};
use crate::numbers::ranged_u8;
use crate::words::{check_in, piece_in};
use cct_model_lines::{CheckKind, LineKind, MOST_HEARD, MOST_SENT, Piece, Sent};

const WATCH: &[u8] = b"watch";

const BEGIN: &[u8] = b"begin";

const TAP: &[u8] = b"tap";

const END: &[u8] = b"end";

const ACCEPTOR: &[u8] = b"acceptor";

const HOPPER: &[u8] = b"hopper";

/// What a line of a capture says.
#[derive(Drop)]
pub enum CaptureLine {
    /// `watch A CHECK KIND`: an acceptor of coins or a hopper is at the address, 2 to 255, with
    /// this check.
    Watch {
        addr: u8,
        kind: CheckKind,
        acceptor: bool,
    },
    /// `begin`: all devices are named, and the taps follow.
    Begin,
    /// `tap SENT HEARD`: one exchange. A host sent these bytes, one at least; then the logger heard
    /// these, the echo first.
    Tap {
        sent: Sent,
        heard: Piece,
    },
    /// `end`: the capture ends.
    End,
}

/// What a line of a capture says, without its line feed: `watch` or `begin` before the line
/// `begin`, and after it, where `begun` is true, `tap` or `end`. `Word` where the first field is no
/// word of these, else `Form` where the line isn't in a form of its word. A line so read may still
/// name an address again, or one device too many; the caller has to find that out.
#[tactic(auto, unfolding(crate::specs::Capture::capture_line))]
pub fn read_capture_line(begun: bool, line: &[u8]) -> Result<CaptureLine, LineKind>
    ensures reads { result ≡ capture_line begun line.now }
    ensures ranged { IfOk result IsCaptureLine }
{
    let (word, rest) = first_field(line);
    if begun {
        read_tap_word(word, rest)
    } else {
        read_watch_word(word, rest)
    }
}

/// A line before `begin`.
fn read_watch_word(word: &[u8], rest: Option<&[u8]>) -> Result<CaptureLine, LineKind>
    ensures reads { result ≡ watch_word word.now (fields_after rest.entry) }
    ensures ranged { IfOk result IsCaptureLine }
{
    match word {
        _ if word == WATCH => watch_form(rest).ok_or(LineKind::Form),
        _ if word == BEGIN => alone(CaptureLine::Begin, rest).ok_or(LineKind::Form),
        _ => Err(LineKind::Word),
    }
}

/// A line after `begin`.
fn read_tap_word(word: &[u8], rest: Option<&[u8]>) -> Result<CaptureLine, LineKind>
    ensures reads { result ≡ tap_word word.now (fields_after rest.entry) }
    ensures ranged { IfOk result IsCaptureLine }
{
    match word {
        _ if word == TAP => tap_form(rest).ok_or(LineKind::Form),
        _ if word == END => alone(CaptureLine::End, rest).ok_or(LineKind::Form),
        _ => Err(LineKind::Word),
    }
}

/// `watch A CHECK KIND`
#[tactic(auto, using(crate::proofs::Forms::no_watch))]
fn watch_form(rest: Option<&[u8]>) -> Option<CaptureLine>
    ensures { Reads result (watch_form (fields_after rest.entry)) IsCaptureLine }
{
    let (addr, check, family) = three(rest)?;
    let addr = ranged_u8(2, 255, addr)?;
    let kind = check_in(check)?;
    let acceptor = acceptor_in(family)?;
    Some(CaptureLine::Watch {
        addr,
        kind,
        acceptor,
    })
}

/// Whether the family that a field names is that of the acceptors.
fn acceptor_in(field: &[u8]) -> Option<bool>
    ensures { result ≡ acceptor_in field.now }
{
    if field == ACCEPTOR {
        Some(true)
    } else if field == HOPPER {
        Some(false)
    } else {
        None
    }
}

/// `tap SENT HEARD`
#[tactic(auto, using(crate::proofs::Forms::no_tap))]
fn tap_form(rest: Option<&[u8]>) -> Option<CaptureLine>
    ensures { Reads result (tap_form (fields_after rest.entry)) IsCaptureLine }
{
    let (sent, heard) = two(rest)?;
    let sent = sent_in(sent)?;
    let heard = piece_in(MOST_HEARD, heard)?;
    Some(CaptureLine::Tap { sent, heard })
}

/// What was sent, as a field spells it: 1 to 260 bytes in hexadecimal of either case, two digits a
/// byte.
fn sent_in(field: &[u8]) -> Option<Sent>
    ensures { Reads result (sent_in field.now)
        (λ sent. (1 ≤ length sent) × (length sent ≤ MOST_SENT)) }
{
    let piece = piece_in(MOST_SENT, field)?;
    match piece.as_slice() {
        [] => None,
        bytes => {
            let mut sent = Sent::new();
            sent.extend_from_slice(bytes);
            Some(sent)
        }
    }
}
