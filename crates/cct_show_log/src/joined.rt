//! Messages of the bytes of several lines.

use cct_model_wire::{BROADCAST, HOST, MOST_SENT};
use cct_show_log_line::{
    Guess, Has, LogBytes, Way, are_whole, before_good, begins_good, bytes_of, first_message,
    is_good, unfinished, wanted_len,
};

/// The headers whose replies are bare addresses: an address poll, and an address clash (ccTalk
/// Generic Specification 4, part 2).
const ADDRESS_POLL: u8 = 253;

const ADDRESS_CLASH: u8 = 252;

/// How many replies without an echo show that a log has none.
const LEAST_BARE: u32 = 2;

/// What a line says.
#[derive(Drop)]
pub enum Said {
    /// What was sent, and what was then heard.
    Exchange { sent: LogBytes, heard: LogBytes },
    /// The same as a capture has it (`docs/SCRIPT.md`): what was heard begins with the echo, where
    /// that was heard.
    Tap { sent: LogBytes, heard: LogBytes },
    /// What was sent.
    Sent(LogBytes),
    /// What was heard.
    Heard(LogBytes),
    /// Bytes of which the log doesn't say which way they went.
    Either(LogBytes),
    /// So many bytes of a message, which a later line may end, and has then so many, as far as they
    /// show it.
    Part { count: usize, len: Option<usize> },
    /// What was heard in lines before, and no line ended.
    Late(LogBytes),
    /// So many bytes, of this line and of those before, that are no part of a message.
    Stray(usize),
    /// So many bytes of lines before that began a message which the host may have sent, and no line
    /// ended.
    Cut(usize),
    /// What was taken for granted to read the line.
    Guessed(Guess),
}

/// What a line has that isn't said yet.
#[derive(Drop)]
enum Todo {
    Whole(Said),
    Bytes { way: Option<Way>, bytes: LogBytes },
    /// The log is over, or goes on elsewhere.
    Over,
}

/// The bytes of messages that lines began and later ones may end, and what the last line has.
#[derive(Drop)]
pub(crate) struct Joined {
    /// Of a message that the host sends.
    sent: LogBytes,
    /// Of what it hears.
    heard: LogBytes,
    /// Of which no line shows the way.
    free: LogBytes,
    /// What was sent last, and whether anything was heard after it.
    asked: LogBytes,
    is_answered: bool,
    /// Whether an echo was heard, and how many replies without one came before it.
    has_echo: bool,
    bare_replies: u32,
    /// Whether what comes next is after a whole message that was sent in the same line, and whether
    /// what is held of a sent message is.
    is_behind: bool,
    is_tail: bool,
    /// Whether the last bytes of which no line shows the way were a good message.
    is_synced: bool,
    /// Whether such a message was in more than one line, so that the lines are no exchanges.
    is_stream: bool,
    /// Whether the bytes of the last line don't follow those before it.
    is_anew: bool,
    /// Whether a line said that bytes were sent. Before that its word for what was heard shows
    /// nothing: a logger that listens on the one wire of the bus has that word in each line.
    has_sent: bool,
    /// Whether a line said that bytes were heard.
    has_heard: bool,
    /// Whether a message for the host was logged as sent, so that the log's words for the ways are
    /// others than they are taken for.
    has_other_ways: bool,
    todo: Option<Todo>,
}

impl Joined {
    /// No byte.
    pub(crate) fn new() -> Joined {
        Joined {
            sent: LogBytes::new(),
            heard: LogBytes::new(),
            free: LogBytes::new(),
            asked: LogBytes::new(),
            is_answered: false,
            has_echo: false,
            bare_replies: 0,
            is_behind: false,
            is_tail: false,
            is_synced: false,
            is_stream: false,
            is_anew: false,
            has_sent: false,
            has_heard: false,
            has_other_ways: false,
            todo: None,
        }
    }

    /// Takes what the next line has, whose bytes follow those before it or don't.
    pub(crate) fn take(&mut self, has: Has, is_anew: bool) {
        self.is_anew = is_anew;
        self.is_behind = false;
        self.has_sent |= matches!(has, Has::Tap { .. } | Has::Exchange { .. });
        self.todo = match has {
            Has::Tap { sent, heard } => Some(Todo::Whole(Said::Tap { sent, heard })),
            Has::Exchange { sent, heard } => Some(Todo::Whole(Said::Exchange { sent, heard })),
            Has::Bytes { way, bytes } => Some(Todo::Bytes {
                way: self.known_way(way),
                bytes,
            }),
            Has::Heading(_) => None,
        };
    }

    /// The way of the bytes of a line, as far as its word for it says.
    fn known_way(&mut self, way: Option<Way>) -> Option<Way> {
        self.has_sent |= way == Some(Way::Sent);
        self.has_heard |= way == Some(Way::Heard);
        if self.has_sent && !self.has_other_ways {
            way
        } else {
            None
        }
    }

    /// Whether a message is begun that isn't at its end.
    pub(crate) fn is_open(&self) -> bool {
        !self.sent.is_empty() || !self.heard.is_empty() || !self.free.is_empty()
    }

    /// Takes the end of the log.
    pub(crate) fn end(&mut self) {
        self.todo = Some(Todo::Over);
    }

    /// The next thing that the last line says, or the end of the log.
    pub(crate) fn next(&mut self) -> Option<Said> {
        if self.is_anew
            && let Some(said) = self.break_off()
        {
            return Some(said);
        }
        self.is_anew = false;
        match self.todo.take()? {
            Todo::Whole(said) => self.whole(said),
            Todo::Bytes { way, bytes } => match way {
                Some(Way::Sent) => self.take_sent(bytes),
                Some(Way::Heard) => self.take_heard(bytes),
                None => self.take_free(bytes),
            },
            Todo::Over => {
                let said = self.break_off()?;
                self.todo = Some(Todo::Over);
                Some(said)
            }
        }
    }

    /// Gives up a message that isn't at its end, if there is one.
    fn break_off(&mut self) -> Option<Said> {
        if !self.sent.is_empty() {
            return Some(Said::Cut(self.sent.take().len()));
        }
        if !self.heard.is_empty() {
            return Some(Said::Late(self.heard.take()));
        }
        if self.free.is_empty() {
            return None;
        }
        self.break_free()
    }

    /// Gives up the first of the bytes of which no line shows the way: up to the next good message,
    /// or that one.
    fn break_free(&mut self) -> Option<Said> {
        let free = self.free.take();
        let len = match first_message(free.as_slice()) {
            Some((message, _)) if is_good(message) => message.len(),
            _ => before_good(free.as_slice()).unwrap_or(free.len()),
        };
        let (first, rest) = free.as_slice().split_at_checked(len)?;
        self.free = bytes_of(rest);
        if is_good(first) {
            return Some(Said::Either(bytes_of(first)));
        }
        Some(match self.stray(bytes_of(first)) {
            Said::Stray(count) => Said::Cut(count),
            said => said,
        })
    }

    /// Bytes that are no message: heard where they may be a reply, or the beginning of the echo.
    fn stray(&self, bytes: LogBytes) -> Said {
        let is_reply = self.is_synced && is_reply(bytes.as_slice());
        if is_reply || is_bare(self.asked.as_slice()) {
            Said::Late(bytes)
        } else {
            Said::Stray(bytes.len())
        }
    }

    /// A whole exchange, which ends what was before it.
    fn whole(&mut self, said: Said) -> Option<Said> {
        if let Some(before) = self.break_off() {
            self.todo = Some(Todo::Whole(said));
            return Some(before);
        }
        if let Said::Exchange { sent, .. } | Said::Tap { sent, .. } = &said {
            self.asked = bytes_of(sent.as_slice());
            self.is_answered = true;
        }
        Some(said)
    }

    /// Leaves bytes to be taken again, after what is said first.
    fn again(&mut self, way: Option<Way>, bytes: &[u8], said: Option<Said>) -> Option<Said> {
        if !bytes.is_empty() {
            self.todo = Some(Todo::Bytes {
                way,
                bytes: bytes_of(bytes),
            });
        }
        said
    }

    /// Takes bytes that were sent.
    fn take_sent(&mut self, bytes: LogBytes) -> Option<Said> {
        self.is_answered = false;
        let is_other = !self.free.is_empty() || self.sent.is_empty() && !self.heard.is_empty();
        let whole = put_behind(&self.sent, bytes.as_slice());
        let is_own = are_whole(bytes.as_slice()) && !begins_good(whole.as_slice());
        if is_other || is_own && !self.sent.is_empty() {
            let before = self.break_off();
            return self.again(Some(Way::Sent), bytes.as_slice(), before);
        }
        let is_joined = !self.sent.is_empty();
        self.sent.clear();
        if has_reply(whole.as_slice()) {
            self.has_other_ways = true;
            return self.again(None, whole.as_slice(), Some(Said::Guessed(Guess::Ways)));
        }
        match first_message(whole.as_slice()) {
            None if !whole.is_empty() => {
                let part = part_of(whole.as_slice());
                self.sent = whole;
                self.is_tail = self.is_behind;
                Some(part)
            }
            Some((message, _)) if is_joined && !is_good(message) => self.unsure(whole),
            Some((message, rest)) if !rest.is_empty() && is_good(message) => {
                self.asked = bytes_of(message);
                self.is_behind = true;
                let said = Said::Sent(bytes_of(message));
                self.again(Some(Way::Sent), rest, Some(said))
            }
            _ => {
                self.asked = bytes_of(whole.as_slice());
                Some(Said::Sent(whole))
            }
        }
    }

    /// Takes bytes that lines sent one after the other, and that are no good message together: one
    /// of them didn't end it.
    fn unsure(&mut self, whole: LogBytes) -> Option<Said> {
        match before_good(whole.as_slice()) {
            Some(skipped) => {
                let (_, rest) = whole.as_slice().split_at_checked(skipped)?;
                self.again(Some(Way::Sent), rest, Some(Said::Cut(skipped)))
            }
            None if whole.len() > MOST_SENT => Some(Said::Cut(whole.len())),
            None => {
                let part = part_of(whole.as_slice());
                self.sent = whole;
                Some(part)
            }
        }
    }

    /// Takes bytes that were heard. An echo may be heard while the message is sent.
    fn take_heard(&mut self, bytes: LogBytes) -> Option<Said> {
        let whole = put_behind(&self.heard, bytes.as_slice());
        let sent = self.sent.as_slice();
        let is_echo = sent.starts_with(whole.as_slice()) || whole.as_slice().starts_with(sent);
        let is_own = are_whole(bytes.as_slice()) && !are_whole(whole.as_slice());
        if self.is_tail && !self.sent.is_empty() && !is_echo {
            // The message before it is answered.
            let stray = Said::Stray(self.sent.take().len());
            return self.again(Some(Way::Heard), bytes.as_slice(), Some(stray));
        }
        let is_other = !self.free.is_empty() || !self.sent.is_empty() && !is_echo;
        if is_other || is_own && !self.heard.is_empty() && self.sent.is_empty() {
            let before = self.break_off();
            return self.again(Some(Way::Heard), bytes.as_slice(), before);
        }
        let tail = unfinished(whole.as_slice());
        let is_over = tail.is_empty() || is_bare(self.asked.as_slice());
        if is_over && self.sent.is_empty() {
            self.is_answered = true;
            self.heard.clear();
            return Some(Said::Heard(whole));
        }
        let part = part_of(tail);
        self.heard = whole;
        Some(part)
    }

    /// Takes bytes of which no line shows the way: messages are separated by their lengths, and by
    /// their checksums.
    fn take_free(&mut self, bytes: LogBytes) -> Option<Said> {
        if self.goes_on(bytes.as_slice()) {
            return if self.heard.is_empty() {
                self.take_sent(bytes)
            } else {
                self.take_heard(bytes)
            };
        }
        if self.is_remark(bytes.as_slice()) {
            return Some(Said::Stray(bytes.len()));
        }
        let is_other = !self.sent.is_empty() || !self.heard.is_empty();
        let whole = put_behind(&self.free, bytes.as_slice());
        let is_own = are_whole(bytes.as_slice()) && !begins_good(whole.as_slice());
        if is_other || is_own && !self.free.is_empty() {
            let before = self.break_off();
            return self.again(None, bytes.as_slice(), before);
        }
        let is_joined = !self.free.is_empty();
        self.free.clear();
        match first_message(whole.as_slice()) {
            Some((message, rest)) if is_good(message) => self.good(message, rest, is_joined),
            Some((message, rest)) if !is_joined && self.may_be_damaged(rest) => {
                Some(self.damaged(message, rest))
            }
            Some(_) => self.bad(whole.as_slice()),
            None => self.begun(whole),
        }
    }

    /// Whether bytes of a line without a way go on with the message that a line with one began: they
    /// are no more than it lacks, and where they end it, it is a good one.
    fn goes_on(&self, bytes: &[u8]) -> bool {
        let held = if self.heard.is_empty() {
            &self.sent
        } else {
            &self.heard
        };
        if held.is_empty() || are_whole(bytes) {
            return false;
        }
        let whole = put_behind(held, bytes);
        let begun = unfinished(held.as_slice());
        let is_within = match wanted_len(begun) {
            Some(len) => begun.len().saturating_add(bytes.len()) < len,
            None => true,
        };
        is_within || are_whole(whole.as_slice())
    }

    /// Whether bytes of a line without a way are none of the bus: no message, where each line says
    /// its way, and none is unfinished.
    fn is_remark(&self, bytes: &[u8]) -> bool {
        let are_ways = self.has_sent && self.has_heard && !self.has_other_ways;
        are_ways && !self.is_open() && !begins_good(bytes) && before_good(bytes).is_none()
    }

    /// Takes a good message, and what is after it: where it begins an exchange, with all that is
    /// heard of that.
    fn good(&mut self, message: &[u8], rest: &[u8], is_joined: bool) -> Option<Said> {
        self.is_synced = true;
        self.is_stream |= is_joined;
        let may_be_echo = !self.is_answered
            && !self.is_bare_log()
            && message == self.asked.as_slice();
        if is_reply(message) || may_be_echo {
            self.learn(may_be_echo);
            self.is_answered = true;
            let said = Said::Either(bytes_of(message));
            return self.again(None, rest, Some(said));
        }
        self.asked = bytes_of(message);
        let echo = if self.is_bare_log() {
            b"".as_slice()
        } else {
            message
        };
        let (heard, tail) = heard_after(echo, rest);
        self.is_answered = false;
        if !heard.is_empty() {
            self.learn(heard.starts_with(message));
            self.is_answered = true;
        }
        let is_damaged = !self.is_stream && first_message(tail).is_some() && !begins_good(tail);
        if is_damaged || is_bare(message) && !rest.is_empty() {
            self.is_answered = true;
            return Some(exchange(message, rest));
        }
        if heard.is_empty() {
            let said = Said::Either(bytes_of(message));
            return self.again(None, tail, Some(said));
        }
        let said = exchange(message, heard);
        self.again(None, tail, Some(said))
    }

    /// Learns from what follows a request whether the log has echoes.
    fn learn(&mut self, is_echo: bool) {
        if is_echo {
            self.has_echo = true;
        } else if !self.has_echo && !self.is_answered {
            self.bare_replies = self.bare_replies.saturating_add(1);
        }
    }

    /// Whether the log has no echo, as replies show.
    fn is_bare_log(&self) -> bool {
        !self.has_echo && self.bare_replies >= LEAST_BARE
    }

    /// Takes a message of a line by itself that is damaged, and what is after it.
    fn damaged(&mut self, message: &[u8], rest: &[u8]) -> Said {
        if rest.is_empty() {
            return Said::Either(bytes_of(message));
        }
        self.asked = bytes_of(message);
        exchange(message, rest)
    }

    /// Whether a message of a line by itself may be taken for a damaged one, by what is after it.
    fn may_be_damaged(&self, rest: &[u8]) -> bool {
        !self.is_stream && (are_whole(rest) || rest.is_empty() && self.is_synced)
    }

    /// Takes bytes that begin with no good message, though it has its length: the next good one
    /// begins later.
    fn bad(&mut self, whole: &[u8]) -> Option<Said> {
        self.is_synced = false;
        match before_good(whole) {
            Some(skipped) => self.skip(whole, skipped),
            None => {
                self.free = bytes_of(whole);
                Some(part_of(whole))
            }
        }
    }

    /// Leaves out bytes before a good message.
    fn skip(&mut self, whole: &[u8], skipped: usize) -> Option<Said> {
        let (before, after) = whole.split_at_checked(skipped)?;
        let said = self.stray(bytes_of(before));
        self.again(None, after, Some(said))
    }

    /// Holds bytes that begin a message, unless there is a good one among them that isn't looked
    /// for.
    fn begun(&mut self, whole: LogBytes) -> Option<Said> {
        if !self.is_synced
            && let Some(skipped) = before_good(whole.as_slice())
        {
            return self.skip(whole.as_slice(), skipped);
        }
        let part = part_of(whole.as_slice());
        self.free = whole;
        Some(part)
    }
}

/// Bytes that are held, and more after them, as many as there is room for.
fn put_behind(held: &LogBytes, more: &[u8]) -> LogBytes {
    let mut bytes = bytes_of(held.as_slice());
    for byte in more {
        if bytes.try_push(*byte).is_err() {
            break;
        }
    }
    bytes
}

/// A message that isn't at its end.
fn part_of(bytes: &[u8]) -> Said {
    Said::Part {
        count: bytes.len(),
        len: wanted_len(bytes),
    }
}

/// An exchange.
fn exchange(sent: &[u8], heard: &[u8]) -> Said {
    Said::Exchange {
        sent: bytes_of(sent),
        heard: bytes_of(heard),
    }
}

/// Whether bytes are for the host, as far as they are a message.
fn is_reply(bytes: &[u8]) -> bool {
    bytes.first() == Some(&HOST)
}

/// Whether bytes are good messages of which one is for the host, as far as they are good.
fn has_reply(bytes: &[u8]) -> bool {
    let mut rest = bytes;
    for _ in bytes {
        match first_message(rest) {
            Some((message, _)) if is_good(message) && is_reply(message) => return true,
            Some((message, after)) if is_good(message) => rest = after,
            _ => return false,
        }
    }
    false
}

/// Whether bare addresses answer a message.
fn is_bare(message: &[u8]) -> bool {
    matches!(
        message,
        [BROADCAST, _, _, ADDRESS_POLL, ..] | [_, _, _, ADDRESS_CLASH, ..]
    )
}

/// The bytes of some that are heard after a message: this echo, and good messages to the host; and
/// the others.
fn heard_after<'b>(echo: &[u8], bytes: &'b [u8]) -> (&'b [u8], &'b [u8]) {
    let mut rest = bytes.strip_prefix(echo).unwrap_or(bytes);
    for _ in bytes {
        match first_message(rest) {
            Some((reply, after)) if is_good(reply) && is_reply(reply) => rest = after,
            _ => break,
        }
    }
    let len = bytes.len().saturating_sub(rest.len());
    bytes.split_at_checked(len).unwrap_or((b"", bytes))
}
