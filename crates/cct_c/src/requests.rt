//! Requests are written as the messages by which the host asks them.
ghost use Rattle.std.specs.Prelude.{◌≡◌, ◌≢◌, Some, length, take};
ghost use Rattle.cct_model_wire.specs.Exchange.{ask};
ghost use Rattle.cct_model_wire.specs.Request.{request_of};
ghost use Rattle.cct_model_wire.specs.declared.request.Request.{Request};
ghost use Rattle.cct_model_wire.specs.declared.wire.CheckKind.{CheckKind};
ghost use Rattle.cct_c.specs.Asking.{in_clear};
ghost use Rattle.cct_c.specs.Codes.{kind_of};
ghost use Rattle.cct_c.specs.Frames.{request_answer};

use crate::codes::{BAD_CHECK, NO_REQUEST, OK, kind_of};
use crate::frames::put;
use arrayvec::ArrayVec;
use cct_frame::FrameView;
use cct_model_wire::{MOST_SENT, Request};
use cct_msg::{encode_request, read_request};

/// Writes the request with a header and data bytes, from the host to an address, to the front of
/// `out`.
#[unsafe(no_mangle)]
pub extern "C" fn lh_raw_request_write(
    check: u8,
    to: u8,
    header: u8,
    body: &[u8],
    out: &mut [u8],
    written: &mut usize,
) -> u32
    ensures answer { result ≡ request_answer (kind_of check) to (length out.old)
        (in_clear (request_of header body.now)) }
    ensures written { (kind : CheckKind) (q : Request) → kind_of check ≡ Some kind
        → in_clear (request_of header body.now) ≡ Some q → result ≡ OK → take written.new out.new ≡ ask kind to q }
    ensures refused { result ≢ OK → (out.new ≡ out.old) × (written.new ≡ written.old) }
{
    let Some(kind) = kind_of(check) else {
        return BAD_CHECK;
    };
    let Some(request) = request_of(header, body) else {
        return NO_REQUEST;
    };
    let mut piece: ArrayVec<u8, MOST_SENT> = ArrayVec::new();
    encode_request(kind, to, &request, &mut piece);
    put(piece.as_slice(), out, written)
}

/// The request with a header and data bytes, but none whose data bytes are under a cipher: those
/// aren't kept.
fn request_of(header: u8, body: &[u8]) -> Option<Request>
    ensures { result ≡ in_clear (request_of header body.now) }
{
    let view = FrameView {
        to: 0,
        from: None,
        header,
        body,
    };
    match read_request(&view) {
        Some(Request::CipherDispense) => None,
        Some(Request::CipherKey) => None,
        Some(Request::PumpRng) => None,
        request => request,
    }
}
