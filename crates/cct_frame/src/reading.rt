//! A message is read where it stands.
ghost use Rattle.std.specs.Prelude.{◌≡◌, ◌≢◌, ◌↔◌, ◌+◌, ◌-◌, ◌<◌, ◌≤◌, IfOk, IfErr, OnOk, OnErr};
ghost use Rattle.std.specs.Prelude.{length, slice_index, slice_range, take};
ghost use Rattle.cct_model_wire.specs.Message.{closing_byte, crc, message};
ghost use Rattle.cct_frame.specs.Frame.{before_last, check_fault, crc_fault, crc_in, fault_in};
ghost use Rattle.cct_frame.specs.Frame.{message_of, run_over, source_in, sum_fault, under_crc};

use crate::check::check_of;
use cct_model_wire::CheckKind;
use thiserror::Error;

/// A view of a message in the piece that carries it.
#[derive(Clone, Copy, Debug, PartialEq, Eq)]
pub struct FrameView<'a> {
    /// The address that the message is for; 0 is for all.
    pub to: u8,
    /// The address that sent it, where the check leaves room for one: the simple check does.
    pub from: Option<u8>,
    /// What the message asks, or 0 in a reply.
    pub header: u8,
    /// The data, 0 to 255 bytes, which stay where they are in the piece.
    pub body: &'a [u8],
}

/// Why a piece is no message.
#[derive(Clone, Copy, Debug, Error, PartialEq, Eq)]
pub enum FrameFault {
    /// The piece has `have` bytes, and the shortest message has 5.
    #[error("{have} bytes are too few for a message")]
    Short { have: usize },
    /// The piece has `have` bytes, and a message with `said` data bytes has 5 more than it says.
    #[error("a message with {said} data bytes does not have {have} bytes")]
    Length { said: u8, have: usize },
    /// The last byte is `got`, and `want` would make the sum of all bytes 0 modulo 256.
    #[error("the check is {got}, and {want} was wanted")]
    Check { want: u8, got: u8 },
    /// The third byte and the last are the low and the high byte of `got`, and the CRC of all
    /// others is `want`.
    #[error("the CRC is {got}, and {want} was wanted")]
    CrcCheck { want: u16, got: u16 },
}

/// The bytes of a message without data: destination, number of data bytes, source, header, check.
const SHORTEST: usize = 5;

/// Reads the one message that a whole piece is. The tests come in the order of [`FrameFault`]'s
/// variants, and the first that fails is reported.
// Inlined: a view is wide, and to hand it over costs as much as to read a short message.
#[inline(always)]
pub fn read<'a>(kind: CheckKind, piece: &'a [u8]) -> Result<FrameView<'a>, FrameFault>
    // the view of a message
    ensures whole { IfOk result (λ view. message kind piece.now ≡ Some (message_of view)) }
    ensures body { IfOk result (λ view. view.body.now
        ≡ slice_range piece.now 4 (length piece.now - 1)) }
    // Nothing is copied: the data stay in the bytes that were read, from the fifth on.
    ensures in_place { IfOk result (λ view. view.body.ref_ptr
        ≡ (piece.entry.ref_ptr.0, piece.entry.ref_ptr.1 + 4)) }
    ensures faultless { OnOk result (fault_in kind piece.now ≡ None) }

    // why there is none: The first thing that is wrong is reported: too few bytes, then a wrong
    // length, then a wrong check.
    ensures first_fault { IfErr result (λ fault. fault_in kind piece.now ≡ Some fault) }
    ensures no_message { OnErr result (message kind piece.now ≡ None) }

    // when each fault is reported
    ensures short { (result ≡ Err (FrameFault.Short (length piece.now))) ↔ (length piece.now < 5) }
    ensures wrong_length { (result ≡ Err (FrameFault.Length (slice_index piece.now 1) (length piece.now)))
        ↔ ((5 ≤ length piece.now) × (slice_index piece.now 1 + 5 ≢ length piece.now)) }
    ensures wrong_check { let want = closing_byte (take (length piece.now - 1) piece.now) in
        let got = slice_index piece.now (length piece.now - 1) in
        (result ≡ Err (FrameFault.Check want got))
        ↔ ((kind ≡ CheckKind.Simple) × (5 ≤ length piece.now) × (slice_index piece.now 1 + 5 ≡ length piece.now)
        × (want ≢ got)) }
    ensures wrong_crc { let want = crc (under_crc piece.now) in
        let got = crc_in piece.now in
        (result ≡ Err (FrameFault.CrcCheck want got))
        ↔ ((kind ≡ CheckKind.Crc) × (5 ≤ length piece.now) × (slice_index piece.now 1 + 5 ≡ length piece.now)
        × (want ≢ got)) }
{
    let front = &piece[..piece.len().saturating_sub(1)];
    read_checked(kind, piece, check_of(kind, front))
}

/// The same, where `check` is what the check made of all bytes but the last.
#[inline(always)]
#[tactic(auto, using(crate::proofs::Places::none_short, crate::proofs::Places::none_length, crate::proofs::Places::none_check, crate::proofs::Places::some_whole))]
pub fn read_checked<'a>(
    kind: CheckKind,
    piece: &'a [u8],
    check: u16,
) -> Result<FrameView<'a>, FrameFault>
    requires { check ≡ run_over kind (before_last piece.now) }
    ensures whole { IfOk result (λ view. message kind piece.now ≡ Some (message_of view)) }
    ensures body { IfOk result (λ view. view.body.now
        ≡ slice_range piece.now 4 (length piece.now - 1)) }
    ensures in_place { IfOk result (λ view. view.body.ref_ptr
        ≡ (piece.entry.ref_ptr.0, piece.entry.ref_ptr.1 + 4)) }
    ensures faultless { OnOk result (fault_in kind piece.now ≡ None) }

    ensures first_fault { IfErr result (λ fault. fault_in kind piece.now ≡ Some fault) }
    ensures no_message { OnErr result (message kind piece.now ≡ None) }
    ensures short { (result ≡ Err (FrameFault.Short (length piece.now))) ↔ (length piece.now < 5) }
    ensures wrong_length { (result ≡ Err (FrameFault.Length (slice_index piece.now 1) (length piece.now)))
        ↔ ((5 ≤ length piece.now) × (slice_index piece.now 1 + 5 ≢ length piece.now)) }
    ensures wrong_check { let want = closing_byte (take (length piece.now - 1) piece.now) in
        let got = slice_index piece.now (length piece.now - 1) in
        (result ≡ Err (FrameFault.Check want got))
        ↔ ((kind ≡ CheckKind.Simple) × (5 ≤ length piece.now) × (slice_index piece.now 1 + 5 ≡ length piece.now)
        × (want ≢ got)) }
    ensures wrong_crc { let want = crc (under_crc piece.now) in
        let got = crc_in piece.now in
        (result ≡ Err (FrameFault.CrcCheck want got))
        ↔ ((kind ≡ CheckKind.Crc) × (5 ≤ length piece.now) × (slice_index piece.now 1 + 5 ≡ length piece.now)
        × (want ≢ got)) }
{
    let have = piece.len();
    if have < SHORTEST {
        return Err(FrameFault::Short { have });
    }
    let said = piece[1];
    if said as usize + SHORTEST != have {
        return Err(FrameFault::Length { said, have });
    }
    if let Some(fault) = check_fault(kind, piece, check) {
        return Err(fault);
    }
    Ok(FrameView {
        to: piece[0],
        from: source(kind, piece),
        header: piece[3],
        body: &piece[4..have - 1],
    })
}

/// The source that a piece names under a check.
fn source(kind: CheckKind, piece: &[u8]) -> Option<u8>
    requires { 5 ≤ length piece.now }
    ensures { result ≡ source_in kind piece.now }
{
    match kind {
        CheckKind::Simple => Some(piece[2]),
        CheckKind::Crc => None,
    }
}

/// What is wrong with the check of a piece, where it made `check` of all bytes but the last.
fn check_fault(kind: CheckKind, piece: &[u8], check: u16) -> Option<FrameFault>
    requires long { 5 ≤ length piece.now }
    requires check { check ≡ run_over kind (before_last piece.now) }
    ensures { result ≡ check_fault kind piece.now }
{
    match kind {
        CheckKind::Simple => sum_fault(piece, check),
        CheckKind::Crc => crc_fault(piece, check),
    }
}

/// Whether the last byte of a piece closes the sum of those before it.
#[tactic(auto, using(crate::proofs::Running::sum_closed))]
fn sum_fault(piece: &[u8], sum: u16) -> Option<FrameFault>
    requires long { 5 ≤ length piece.now }
    requires sum { sum ≡ run_over CheckKind.Simple (before_last piece.now) }
    ensures { result ≡ sum_fault piece.now }
{
    let want = ((256 - sum % 256) % 256) as u8;
    let got = piece[piece.len() - 1];
    if want == got {
        None
    } else {
        Some(FrameFault::Check { want, got })
    }
}

/// Whether the third byte of a piece and its last are the CRC of all others.
#[tactic(auto, using(crate::proofs::Running::crc_closed))]
fn crc_fault(piece: &[u8], want: u16) -> Option<FrameFault>
    requires long { 5 ≤ length piece.now }
    requires crc { want ≡ run_over CheckKind.Crc (before_last piece.now) }
    ensures { result ≡ crc_fault piece.now }
{
    let got = u16::from_le_bytes([piece[2], piece[piece.len() - 1]]);
    if want == got {
        None
    } else {
        Some(FrameFault::CrcCheck { want, got })
    }
}
