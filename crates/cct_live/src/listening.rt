//! A link that knows whether the line gave an echo.
ghost use Rattle.std.specs.Prelude.{◌≡◌};
ghost use Rattle.cct_live.specs.Edges.{link_of};

use arrayvec::ArrayVec;
use cct_model_lines::{CheckKind, MOST_HEARD};
use cct_wire::Link;

/// A link over another one that knows whether a message came back whole before its reply, since it
/// was made.
#[derive(Drop)]
pub(crate) struct Listening<L> {
    link: L,
    has_echoed: bool,
}

impl<L: Link> Listening<L> {
    /// Over `link`; no message was sent yet.
    pub(crate) fn new(link: L) -> Listening<L> {
        Listening {
            link,
            has_echoed: false,
        }
    }

    /// Whether a message came back whole.
    pub(crate) fn has_echoed(&self) -> bool {
        self.has_echoed
    }

    /// Bytes were sent, and these were heard then.
    fn note(&mut self, sent: &[u8], heard: &[u8])
        ensures { link_of self.new ≡ link_of self.old }
    {
        if heard.starts_with(sent) {
            self.has_echoed = true;
        }
    }

    /// The link.
    pub(crate) fn into_link(self) -> L {
        let Listening {
            link,
            has_echoed: _,
        } = self;
        link
    }
}

impl<L: Link> Link for Listening<L> {
    ghost gives = { λ before sent heard now. L.gives (link_of before) sent heard (link_of now) };

    fn exchange(&mut self, sent: &[u8], heard: &mut ArrayVec<u8, MOST_HEARD>) {
        self.link.exchange(sent, heard);
        self.note(sent, heard.as_slice());
    }

    fn exchange_under(
        &mut self,
        kind: CheckKind,
        sent: &[u8],
        heard: &mut ArrayVec<u8, MOST_HEARD>,
    ) {
        self.link.exchange_under(kind, sent, heard);
        self.note(sent, heard.as_slice());
    }
}
