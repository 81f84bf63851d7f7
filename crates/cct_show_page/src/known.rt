//! What the last reply to each request was, to find polls that say nothing new.

use std::alloc::{AllocError, Global};

/// How many requests are known at once.
const MOST_KNOWN: usize = 64;

/// What was heard last after a request.
#[derive(Drop)]
struct Reply {
    sent: Vec<u8>,
    heard: Vec<u8>,
}

/// What was heard last after each of the last requests that differ.
#[derive(Drop)]
pub(crate) struct Known {
    list: Vec<Reply>,
    /// The place of the one that is forgotten next.
    oldest: usize,
}

impl Known {
    /// Nothing is known.
    pub(crate) fn new(alloc: Global) -> Known {
        Known {
            list: Vec::new(alloc),
            oldest: 0,
        }
    }

    /// Takes an exchange, and says whether its request had just this reply the last time.
    pub(crate) fn is_again(
        &mut self,
        alloc: Global,
        sent: &[u8],
        heard: &[u8],
    ) -> Result<bool, AllocError> {
        for reply in self.list.iter_mut() {
            if reply.sent.as_slice() == sent {
                if reply.heard.as_slice() == heard {
                    return Ok(true);
                }
                reply.heard = heard.to_vec(alloc)?;
                return Ok(false);
            }
        }
        self.learn(Reply {
            sent: sent.to_vec(alloc)?,
            heard: heard.to_vec(alloc)?,
        })?;
        Ok(false)
    }

    /// Keeps a reply, and forgets the oldest one where there are too many.
    fn learn(&mut self, reply: Reply) -> Result<(), AllocError> {
        if self.list.len() < MOST_KNOWN {
            self.list.push(reply)?;
        } else if let Some(place) = self.list.get_mut(self.oldest) {
            *place = reply;
            self.oldest = self.oldest.saturating_add(1) % MOST_KNOWN;
        }
        Ok(())
    }
}

/// Whether a header is that of a poll: it asks how a device is, and changes nothing (ccTalk Generic
/// Specification 4, part 2).
pub(crate) fn is_poll(header: u8) -> bool {
    match header {
        152 | 153 | 159 | 163 | 166 | 168 => true,
        193 | 194 | 225..=227 | 229 | 230 | 236 | 248 | 254 => true,
        _ => false,
    }
}
