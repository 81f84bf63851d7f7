//! A wire that gives what the caller heard.
ghost use Rattle.std.specs.Prelude.{◌≡◌};
ghost use Rattle.cct_poll.specs.Canned.{Gave};

use arrayvec::ArrayVec;
use cct_model::MOST_HEARD;
use cct_wire::Link;

/// What the caller heard after the piece that he sent.
#[derive(Drop)]
pub(crate) struct Canned<'b> {
    heard: &'b [u8],
}

impl<'b> Canned<'b> {
    pub(crate) fn new(heard: &'b [u8]) -> Self
        ensures { result.heard.now ≡ heard.now }
    {
        Canned { heard }
    }
}

impl Link for Canned<'_> {
    ghost gives = { λ before _ heard _. Gave before.heard.now heard };

    fn exchange(&mut self, _sent: &[u8], heard: &mut ArrayVec<u8, MOST_HEARD>) {
        heard.clear();
        let _whole = heard.try_extend_from_slice(self.heard);
    }
}
