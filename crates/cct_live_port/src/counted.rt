//! A link that says how its last exchange went, and how often it failed.
ghost use Rattle.std.specs.Prelude.{◌≡◌, ◌≤◌, ℕ, Bool, false, List, [], Option, length};
ghost use Rattle.cct_live_port.specs.Answer.{answered_by as is_whole_reply};
ghost use Rattle.cct_model_wire.specs.declared.wire.CheckKind.{CheckKind};
ghost use Rattle.cct_model_wire.specs.declared.wire.TheConstants.{MOST_HEARD};

use crate::{Line, Port};
use cct_wire::Link;

/// A link of which exchanges may fail, by a fault of what is below it and not by the silence of a
/// device.
pub trait CountedLink: Link {
    /// How many exchanges failed, as far as a number goes.
    ghost failures: { Self → ℕ };

    /// Whether all bytes of the last exchange's message were written.
    ghost sent: { Self → Bool };

    /// Whether the last exchange brought the whole reply.
    ghost answered: { Self → Bool };

    /// How many exchanges failed, as far as a number goes.
    fn faults(&self) -> u64
        ensures { result ≡ failures self.now };

    /// Whether all bytes of the last exchange's message were written. Where they weren't, nothing
    /// was heard, and no device was asked anything. It is no before the first exchange.
    fn was_sent(&self) -> bool
        ensures { result ≡ sent self.now };

    /// Whether the last exchange brought the whole reply to its message, as far as its form shows:
    /// after the echo one message under the same check, to the host, from the device or from nobody
    /// named. So it is no after an address poll, and before the first exchange.
    fn was_answered(&self) -> bool
        ensures { result ≡ answered self.now };

    /// An exchange hears no more than a message has room for.
    ghost few: { (old : Self) (message heard : List ℕ) (new : Self) → Self.gives old message heard new
        → length heard ≤ MOST_HEARD };

    /// Of a message that wasn't written nothing is heard.
    ghost unsent: { (old : Self) (message heard : List ℕ) (new : Self) → Self.gives old message heard new
        → Self.sent new ≡ false → heard ≡ [] };

    /// An exchange is answered exactly if what is heard is the whole reply, under the check that was
    /// known for it, or under either where none was.
    ghost replied: { (old : Self) (message heard : List ℕ) (new : Self) → Self.gives old message heard new
        → (known : Option CheckKind) × (Self.answered new ≡ is_whole_reply known message heard) };
}

impl<L: Line> CountedLink for Port<L> {
    ghost use Rattle.cct_live_port.specs.Port.{faults_of, settled, was_sent};
    ghost use Rattle.cct_live_port.specs.Counted.{nothing_unsent, settled_by_reply};

    ghost failures = { faults_of };

    ghost sent = { was_sent };

    ghost answered = { settled };

    ghost few = { λ old message heard new given. given.few };

    ghost unsent = { nothing_unsent L.reads L.writes };

    ghost replied = { settled_by_reply L.reads L.writes };

    fn faults(&self) -> u64 {
        Port::faults(self)
    }

    fn was_sent(&self) -> bool {
        Port::was_sent(self)
    }

    fn was_answered(&self) -> bool {
        Port::is_settled(self)
    }
}
