//! A message is written into the bytes to be sent.
ghost use Rattle.std.specs.Prelude.{◌≡◌, ◌≤◌, Option, ℕ, length};
ghost use Rattle.cct_model_wire.specs.Message.{spelling};

use crate::check::crc_of;
use arrayvec::ArrayVec;
use cct_model_wire::{CheckKind, MOST_SENT};

/// Writes one message in the place of what `out` holds. Under the CRC a message has no source, and
/// `from` isn't used.
pub fn write(
    kind: CheckKind,
    to: u8,
    from: u8,
    header: u8,
    body: &[u8],
    out: &mut ArrayVec<u8, MOST_SENT>,
)
    requires { length body.now ≤ 255 }
    ensures { out.new.items ≡ spelling kind
        (record { to = to; from = Some from; header = header; body = body.now }) }
{
    match kind {
        CheckKind::Simple => write_simple(to, from, header, body, out),
        CheckKind::Crc => write_crc(to, header, body, out),
    }
}

/// Writes a message under the simple check. Its bytes are summed as they are written, and few as
/// they are, they are pushed one by one: a copy costs more.
#[tactic(auto, unfolding(cct_model_wire::specs::Message::spelling))]
fn write_simple(to: u8, from: u8, header: u8, body: &[u8], out: &mut ArrayVec<u8, MOST_SENT>)
    requires { length body.now ≤ 255 }
    ensures { out.new.items
        ≡ spelling CheckKind.Simple (record { to = to; from = Some from; header = header; body = body.now }) }
{
    let said = body.len() as u8;
    let mut sum = to
        .wrapping_add(said)
        .wrapping_add(from)
        .wrapping_add(header);
    out.clear();
    out.push(to);
    out.push(said);
    out.push(from);
    out.push(header);
    for byte in body {
        out.push(*byte);
        sum = sum.wrapping_add(*byte);
    }
    out.push(sum.wrapping_neg());
}

/// Writes a message under the CRC.
#[tactic(auto, unfolding(cct_model_wire::specs::Message::spelling))]
fn write_crc(to: u8, header: u8, body: &[u8], out: &mut ArrayVec<u8, MOST_SENT>)
    requires { length body.now ≤ 255 }
    ensures { (from : Option ℕ) → out.new.items
        ≡ spelling CheckKind.Crc (record { to = to; from = from; header = header; body = body.now }) }
{
    let said = body.len() as u8;
    let [low, high] = crc_of(&[to, said, header], body).to_le_bytes();
    out.clear();
    out.push(to);
    out.push(said);
    out.push(low);
    out.push(header);
    for byte in body {
        out.push(*byte);
    }
    out.push(high);
}
