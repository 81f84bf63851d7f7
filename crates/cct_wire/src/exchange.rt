//! One exchange of the host with whatever is at the other end of the wire.
ghost use Rattle.std.specs.Prelude.{◌≤◌, ℕ, List, length};

use arrayvec::ArrayVec;
use cct_model_wire::{CheckKind, MOST_HEARD, MOST_SENT};

/// The wire with whatever is at its other end.
pub trait Link {
    /// What an exchange may do: the link before it, the piece sent, the piece heard, the link after
    /// it.
    ghost gives: { Self → List ℕ → List ℕ → Self → Type 0 };

    /// Sends a piece, and puts all that the host then hears, its own echo first, in the place of
    /// what `heard` holds. An exchange can't fail: where nothing is heard, `heard` is empty.
    fn exchange(&mut self, sent: &[u8], heard: &mut ArrayVec<u8, MOST_HEARD>)
        requires { length sent.now ≤ MOST_SENT }
        // A link may do whatever its `gives` allows; what the host promises holds for any.
        ensures { gives self.old sent.now heard.new.items self.new };

    /// An exchange by a host that knows under which check the device replies. A link that tells a
    /// whole reply from another one needs to look for no other check; to any other link it is an
    /// exchange.
    fn exchange_under(
        &mut self,
        _kind: CheckKind,
        sent: &[u8],
        heard: &mut ArrayVec<u8, MOST_HEARD>,
    )
        requires { length sent.now ≤ MOST_SENT }
        ensures { gives self.old sent.now heard.new.items self.new }
    {
        self.exchange(sent, heard);
    }
}
