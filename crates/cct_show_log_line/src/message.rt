//! The messages among the bytes of a log.

use cct_frame::read;
use cct_model_wire::{BROADCAST, CheckKind, HOST};

/// The bytes of the shortest message.
pub(crate) const LEAST_MESSAGE: usize = 5;

/// More messages than the bytes of a line or of what is held can be.
const MOST_MESSAGES: usize = 400;

/// The first message of some bytes, by its length, and the bytes after it; `None` where it isn't
/// there whole.
pub fn first_message(bytes: &[u8]) -> Option<(&[u8], &[u8])> {
    let [_, count, ..] = bytes else {
        return None;
    };
    bytes.split_at_checked(usize::from(*count) + LEAST_MESSAGE)
}

/// How many bytes the message has that these begin, by its length; `None` where they don't show it.
pub fn wanted_len(bytes: &[u8]) -> Option<usize> {
    let [_, count, ..] = bytes else {
        return None;
    };
    Some(usize::from(*count) + LEAST_MESSAGE)
}

/// Whether bytes are a message under either check.
pub fn is_message(bytes: &[u8]) -> bool {
    read(CheckKind::Simple, bytes).is_ok() || read(CheckKind::Crc, bytes).is_ok()
}

/// Whether bytes are a message under either check that the host sent or heard, as far as they name
/// it. Only a reply has header 0.
pub fn is_good(bytes: &[u8]) -> bool {
    match read(CheckKind::Simple, bytes) {
        Ok(view) if view.to == HOST => true,
        Ok(view) if view.from.unwrap_or(0) == HOST && view.header != 0 => true,
        _ => match read(CheckKind::Crc, bytes) {
            Ok(view) => view.to == HOST || view.header != 0,
            Err(_) => false,
        },
    }
}

/// Whether a good message begins bytes.
pub fn begins_good(bytes: &[u8]) -> bool {
    match first_message(bytes) {
        Some((message, _)) => is_good(message),
        None => false,
    }
}

/// Whether bytes are good messages, one or more, and nothing else.
pub fn are_whole(bytes: &[u8]) -> bool {
    let mut rest = bytes;
    for _ in 0..MOST_MESSAGES {
        match first_message(rest) {
            Some((message, after)) if is_good(message) => rest = after,
            _ => return false,
        }
        if rest.is_empty() {
            return true;
        }
    }
    false
}

/// The bytes of some that begin a message and don't end it, by their lengths alone.
pub fn unfinished(bytes: &[u8]) -> &[u8] {
    let mut rest = bytes;
    for _ in 0..MOST_MESSAGES {
        match first_message(rest) {
            Some((_, after)) => rest = after,
            None => return rest,
        }
    }
    rest
}

/// How many bytes stand before the first good message among some bytes that isn't at their
/// beginning. One to all doesn't count: a byte 0 before another message looks like it.
pub fn before_good(bytes: &[u8]) -> Option<usize> {
    for skipped in 1..bytes.len() {
        let (_, rest) = bytes.split_at_checked(skipped)?;
        if rest.first() != Some(&BROADCAST) && begins_good(rest) {
            return Some(skipped);
        }
    }
    None
}
