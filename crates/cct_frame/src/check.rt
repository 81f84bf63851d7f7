//! The bytes by which a message is checked.
ghost use Rattle.std.specs.Prelude.{◌≡◌, List, ℕ, [], ◌∷◌, ◌++◌, drop, length, take};
ghost use Rattle.cct_model_wire.specs.Message.{crc};
ghost use Rattle.cct_frame.specs.Frame.{run_over};

use cct_check::{crc16, crc16_step, simple_sum};
use cct_model_wire::CheckKind;

/// The place of the byte that the CRC passes over, since it is its own low byte.
const LOW_BYTE: usize = 2;

/// What a check makes of the first bytes of a message, and of `byte`, which is at `place` and comes
/// after them: it made `check` of those. Before the first byte that is 0.
#[inline]
#[tactic(auto, unfolding(crate::specs::Frame::run_over), using(crate::proofs::Running::sum_more, crate::proofs::Running::crc_passes))]
pub fn check_step(kind: CheckKind, check: u16, place: usize, byte: u8) -> u16
    ensures { (bytes : List ℕ) → length bytes ≡ place → check ≡ run_over kind bytes
        → result ≡ run_over kind (bytes ++ byte ∷ []) }
{
    match kind {
        CheckKind::Simple => check.wrapping_add(u16::from(byte)) % 256,
        CheckKind::Crc if place == LOW_BYTE => check,
        CheckKind::Crc => crc16_step(check, byte),
    }
}

/// What a check makes of the first bytes of a message.
#[tactic(auto, unfolding(crate::specs::Frame::run_over))]
pub(crate) fn check_of(kind: CheckKind, front: &[u8]) -> u16
    ensures { result ≡ run_over kind front.now }
{
    match kind {
        CheckKind::Simple => u16::from(simple_sum(front)),
        CheckKind::Crc => crc_without_low(front),
    }
}

/// The CRC of the first bytes of a message, without the byte that it passes over.
fn crc_without_low(front: &[u8]) -> u16
    ensures { result ≡ crc (take 2 front.now ++ drop 3 front.now) }
{
    if front.len() > LOW_BYTE {
        crc_of(&front[..LOW_BYTE], &front[LOW_BYTE + 1..])
    } else {
        crc_of(front, &[])
    }
}

/// The CRC of two runs of bytes, one after the other.
pub(crate) fn crc_of(front: &[u8], rest: &[u8]) -> u16
    ensures { result ≡ crc (front.now ++ rest.now) }
{
    let mut crc = crc16(front);
    for byte in rest {
        crc = crc16_step(crc, *byte);
    }
    crc
}
