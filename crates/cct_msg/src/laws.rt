//! What holds of requests and replies and the data bytes that say them.
ghost use Rattle.std.specs.Prelude.{◌≡◌, ◌≢◌, ◌<◌, List, ℕ, All, Some, length, option_and_then};
ghost use Rattle.cct_model_wire.specs.Exchange.{ask, asked, reply_from, replying};
ghost use Rattle.cct_model_wire.specs.Message.{message, spelling};
ghost use Rattle.cct_model_wire.specs.Reply.{IsSayable, Reply, nak, busy, reply_data, reply_in};
ghost use Rattle.cct_model_wire.specs.Request.{data_of, header_of, request_of};
ghost use Rattle.cct_model_wire.specs.declared.request.ReplyForm.{ReplyForm};
ghost use Rattle.cct_model_wire.specs.declared.request.Request.{Request};
ghost use Rattle.cct_model_wire.specs.declared.wire.CheckKind.{CheckKind};
ghost use Rattle.cct_msg.specs.Forms.{FitsItsBytes, IsWhole, form_shown};

use cct_model_wire::{CheckKind, ReplyForm, Request};

/// A request is read back from its header and data bytes, and from the piece by which the host asks
/// it, under either check. The serial number of a [`Request::Dispense`] has to fit three bytes.
pub fn a_request_is_read_back()
    ensures data { (q : Request) → FitsItsBytes q → request_of (header_of q) (data_of q) ≡ Some q }
    ensures whole { (kind : CheckKind) (addr : ℕ) (q : Request) → FitsItsBytes q →
        asked kind (ask kind addr q) ≡ Some q }
{}

/// What is read as a request has the header and the data bytes with which that request is sent. But
/// [`Request::PumpRng`] and [`Request::CipherKey`] come with any data bytes, and
/// [`Request::CipherDispense`] with any nine.
pub fn what_is_read_is_the_request()
    // the header and the data bytes are the request's
    ensures header { (header : ℕ) (body : List ℕ) (q : Request) → request_of header body ≡ Some q
        → header ≡ header_of q }
    ensures data { (header : ℕ) (body : List ℕ) (q : Request) → All (λ byte. byte < 256) body
        → request_of header body ≡ Some q
        → q ≢ Request.PumpRng → q ≢ Request.CipherKey → q ≢ Request.CipherDispense → body ≡ data_of q }

    // but those of three requests of a cipher
    ensures nine { (header : ℕ) (body : List ℕ) → request_of header body ≡ Some Request.CipherDispense
        → length body ≡ 9 }
    ensures any_nine { (body : List ℕ) → length body ≡ 9 → request_of 167 body
        ≡ Some Request.CipherDispense }
    ensures any_key { (body : List ℕ) → request_of 160 body ≡ Some Request.CipherKey }
    ensures any_rng { (body : List ℕ) → request_of 161 body ≡ Some Request.PumpRng }
{}

/// A reply is read back in its form from its data bytes, and by the host from the message by which
/// the device of an address gives it, under either check.
pub fn a_reply_is_read_back()
    ensures data { (form : ReplyForm) (y : Reply) → form_shown y ≡ Some form → IsWhole y → IsSayable y
        → reply_in form (reply_data y) ≡ Some y }
    ensures whole { (kind : CheckKind) (form : ReplyForm) (addr : ℕ) (y : Reply)
        → form_shown y ≡ Some form → IsWhole y → IsSayable y
        → option_and_then (reply_from form addr) (message kind (spelling kind (replying 1 addr y))) ≡ Some y }
{}

/// What is read in a form is a reply of that form with these data bytes.
pub fn what_is_read_is_the_reply()
    ensures form { (form : ReplyForm) (body : List ℕ) (y : Reply) → reply_in form body ≡ Some y
        → form_shown y ≡ Some form }
    ensures data { (form : ReplyForm) (body : List ℕ) (y : Reply) → All (λ byte. byte < 256) body
        → reply_in form body ≡ Some y → body ≡ reply_data y }
{}
