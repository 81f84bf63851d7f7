//! The requests and replies of ccTalk (Generic Specification 4, parts 2 and 3), written into
//! messages and read from them, without a copy of a text and without memory of their own.
#![tactic(auto)]

mod header;
mod hearing;
mod laws;
mod number;
mod reply_reading;
mod reply_writing;
mod request_reading;
mod request_writing;
mod wanted_form;

pub use cct_model_wire::{Reply, ReplyForm, Request};
pub use hearing::{asked_of, wanted_reply};
pub use laws::{
    a_reply_is_read_back, a_request_is_read_back, what_is_read_is_the_reply,
    what_is_read_is_the_request,
};
pub use reply_reading::{NotWanted, read_reply};
pub use reply_writing::encode_reply;
pub use request_reading::read_request;
pub use request_writing::encode_request;
pub use wanted_form::form_of;
