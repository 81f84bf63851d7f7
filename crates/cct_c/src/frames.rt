//! Frames are written into the caller's bytes, and read where they stand.
ghost use Rattle.std.specs.Prelude.{◌≡◌, ◌≢◌, ◌-◌, ◌≤◌, Some, length, slice_range, take};
ghost use Rattle.cct_model_wire.specs.declared.wire.CheckKind.{CheckKind};
ghost use Rattle.cct_model_wire.specs.Message.{Message, message, spelling};
ghost use Rattle.cct_frame.specs.Frame.{message_of};
ghost use Rattle.cct_c.specs.Codes.{kind_of, read_under};
ghost use Rattle.cct_c.specs.Frames.{Shows, put_answer, write_answer};

use crate::codes::{BAD_CHECK, NO_ROOM, OK, TOO_LONG, fault_code, kind_of};
use arrayvec::ArrayVec;
use cct_frame::{FrameView, read, write};
use cct_model_wire::MOST_SENT;

/// A message that was read. Its data bytes are those of the piece from the fifth on.
#[repr(C)]
#[derive(Drop)]
pub struct LhFrame {
    pub to: u8,
    /// 1 where the message names its source, 0 under the CRC.
    pub named: u8,
    /// The source, 0 under the CRC.
    pub from: u8,
    pub header: u8,
    /// How many data bytes it has.
    pub count: u8,
}

/// Writes one message to the front of `out`.
#[unsafe(no_mangle)]
pub extern "C" fn lh_raw_frame_write(
    check: u8,
    to: u8,
    from: u8,
    header: u8,
    body: &[u8],
    out: &mut [u8],
    written: &mut usize,
) -> u32
    ensures answer { result ≡ write_answer (kind_of check) (length out.old)
        (record { to = to; from = Some from; header = header; body = body.now }) }
    ensures written { (kind : CheckKind) → kind_of check ≡ Some kind → result ≡ OK → take written.new out.new
        ≡ spelling kind (record { to = to; from = Some from; header = header; body = body.now }) }
    ensures refused { result ≢ OK → (out.new ≡ out.old) × (written.new ≡ written.old) }
{
    let Some(kind) = kind_of(check) else {
        return BAD_CHECK;
    };
    if body.len() > 255 {
        return TOO_LONG;
    }
    let mut piece: ArrayVec<u8, MOST_SENT> = ArrayVec::new();
    write(kind, to, from, header, body, &mut piece);
    put(piece.as_slice(), out, written)
}

/// Puts bytes to the front of a room, and says how many, where there is room for them.
pub(crate) fn put(bytes: &[u8], out: &mut [u8], written: &mut usize) -> u32
    ensures answer { result ≡ put_answer (length out.old) bytes.now }
    ensures put { result ≡ OK → take written.new out.new ≡ bytes.now }
    ensures refused { result ≢ OK → (out.new ≡ out.old) × (written.new ≡ written.old) }
{
    let count = bytes.len();
    if count <= out.len() {
        out[..count].copy_from_slice(bytes);
        *written = count;
        OK
    } else {
        NO_ROOM
    }
}

/// Reads the one message that a whole piece is.
#[unsafe(no_mangle)]
#[tactic(auto, using(cct_frame::proofs::Spellings::message_body))]
pub extern "C" fn lh_raw_frame_read(check: u8, piece: &[u8], frame: &mut LhFrame) -> u32
    ensures answer { result ≡ read_under (kind_of check) piece.now }
    ensures whole { (kind : CheckKind) (m : Message) → kind_of check ≡ Some kind → message kind piece.now ≡ Some m
        → (result ≡ OK) × Shows m frame.new }
    // The data stay where they are.
    ensures place { (kind : CheckKind) (m : Message) → kind_of check ≡ Some kind → message kind piece.now ≡ Some m
        → m.body ≡ slice_range piece.now 4 (length piece.now - 1) }
    ensures refused { result ≢ OK → frame.new ≡ frame.old }
{
    let Some(kind) = kind_of(check) else {
        return BAD_CHECK;
    };
    match read(kind, piece) {
        Ok(view) => {
            *frame = shown(&view);
            OK
        }
        Err(fault) => fault_code(fault),
    }
}

/// A message as the program has it.
fn shown(view: &FrameView<'_>) -> LhFrame
    requires { length view.now.body.now ≤ 255 }
    ensures { Shows (message_of view.now) result }
{
    let (named, from) = match view.from {
        Some(source) => (1, source),
        None => (0, 0),
    };
    LhFrame {
        to: view.to,
        named,
        from,
        header: view.header,
        count: view.body.len() as u8,
    }
}
