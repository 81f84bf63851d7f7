//! What becomes of what happens to a device.
ghost use Rattle.std.specs.Prelude.{◌≡◌};
ghost use Rattle.cct_bus.specs.Outcome.{inserted_of, is_done, of_effect, of_inserted};

use cct_acceptor::Inserted;
use cct_model::Coin;

/// What became of something that happened to a device.
#[derive(Clone, Copy, PartialEq, Eq)]
pub enum Outcome {
    /// The coin was taken, by the sorter path of its place.
    Accepted(Coin),
    /// The bill is held, the coin that fell is paid, the jam ended a payout, or the device started
    /// again.
    Done,
    /// The piece or the bill was given back, or the hopper wasn't paying.
    Nothing,
}

impl Outcome {
    /// What became of a coin that fell in.
    pub(crate) fn inserted(self) -> Inserted
        ensures { result ≡ inserted_of self }
    {
        match self {
            Outcome::Accepted(coin) => Inserted::Accepted(coin),
            Outcome::Done => Inserted::Inhibited,
            Outcome::Nothing => Inserted::Inhibited,
        }
    }

    /// Whether a bill is held, or a hopper was paying.
    pub(crate) fn is_done(self) -> bool
        ensures { result ≡ is_done self }
    {
        match self {
            Outcome::Accepted(_) => false,
            Outcome::Done => true,
            Outcome::Nothing => false,
        }
    }
}

/// What became of a coin that fell in.
pub(crate) fn of_inserted(inserted: Inserted) -> Outcome
    ensures { result ≡ of_inserted inserted }
{
    match inserted {
        Inserted::Accepted(coin) => Outcome::Accepted(coin),
        Inserted::Inhibited => Outcome::Nothing,
    }
}

/// What became of a bill that was put in, by whether it is held; or of a coin that fell out of a
/// hopper or got stuck there, by whether that was paying.
pub(crate) fn of_effect(had_effect: bool) -> Outcome
    ensures { result ≡ of_effect had_effect }
{
    if had_effect {
        Outcome::Done
    } else {
        Outcome::Nothing
    }
}
