//! The room for the exchanges of a survey.
ghost use Rattle.std.specs.Prelude.{◌≡◌, ◌&&◌};
ghost use Rattle.std.specs.Option.{option_map};
ghost use Rattle.cct_model_wire.specs.Exchange.{got};
ghost use Rattle.cct_model_wire.specs.Reply.{reply_shown};
ghost use Rattle.cct_live_survey.specs.Room.{is_bare};

use arrayvec::ArrayVec;
use cct_model_wire::{CheckKind, MOST_HEARD, MOST_SENT, Reply, ReplyForm};
use cct_msg::wanted_reply;
use cct_wire::Link;

/// What was sent last, and what was heard then.
#[derive(Drop)]
pub struct Room {
    pub sent: ArrayVec<u8, MOST_SENT>,
    pub heard: ArrayVec<u8, MOST_HEARD>,
    /// Whether nothing was heard in any exchange but the echo of what was sent.
    pub is_silent: bool,
}

impl Room {
    /// Nothing was sent.
    pub fn new() -> Room {
        Room {
            sent: ArrayVec::new(),
            heard: ArrayVec::new(),
            is_silent: true,
        }
    }

    /// Sends what is in the room; the reply is under this check.
    pub(crate) fn exchange<L: Link>(&mut self, kind: CheckKind, link: &mut L)
        ensures gives { L.gives link.old self.old.sent.items self.new.heard.items link.new }
        ensures sent { self.new.sent.items ≡ self.old.sent.items }
        ensures silent { self.new.is_silent
            ≡ (self.old.is_silent && is_bare self.new.sent.items self.new.heard.items) }
    {
        link.exchange_under(kind, self.sent.as_slice(), &mut self.heard);
        self.is_silent = self.is_silent && is_bare(self.sent.as_slice(), self.heard.as_slice());
    }

    /// The reply of an address in this form to what was sent, if that was heard.
    pub(crate) fn reply(&self, kind: CheckKind, addr: u8, form: ReplyForm) -> Option<Reply<'_>>
        ensures { option_map reply_shown result
            ≡ got kind addr form self.now.sent.items self.now.heard.items }
    {
        wanted_reply(
            kind,
            addr,
            form,
            self.sent.as_slice(),
            self.heard.as_slice(),
        )
    }
}

/// Whether nothing was heard, or just the echo of what was sent.
fn is_bare(sent: &[u8], heard: &[u8]) -> bool
    ensures { result ≡ is_bare sent.now heard.now }
{
    heard.is_empty() || heard == sent
}
