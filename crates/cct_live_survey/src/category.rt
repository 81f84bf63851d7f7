//! The equipment category by which a device says what it is.
ghost use Rattle.std.specs.Prelude.{◌≡◌, ◌≤◌, length, take};
ghost use Rattle.cct_live_survey.specs.Category.{family_told};

use cct_model_wire::{Bytes, Family};
use std::marker::Model;

/// The most bytes of a category: as many as a message has.
pub const MOST_CATEGORY: usize = 255;

/// The category of a coin acceptor (ccTalk Generic Specification 4, part 3).
const ACCEPTOR: &[u8] = b"Coin Acceptor";

/// The category of a hopper (ccTalk Generic Specification 4, part 3).
const PAYOUT: &[u8] = b"Payout";

/// The category of a bill acceptor (ccTalk Generic Specification 4, part 3).
const BILLS: &[u8] = b"Bill Validator";

/// The text by which a device says what it is.
#[derive(Clone, Default, Drop, PartialEq, Eq)]
pub struct Category {
    text: Bytes<MOST_CATEGORY>,
}

impl Model for Category {
    ghost use Rattle.std.specs.Prelude.{List, ℕ};

    ghost Value = { List ℕ };

    ghost view = { λ c. c.text };

    ghost inverse = { λ text. record { text = text } };
}

impl Category {
    /// The category of a text, of which 255 bytes are kept.
    #[tactic(auto, using(std::proofs::lemmas::List::take_min))]
    pub fn of(text: &[u8]) -> Category
        ensures { result ≡ take MOST_CATEGORY text.now }
    {
        let kept = MOST_CATEGORY.min(text.len());
        let mut bytes = Bytes::new();
        bytes.extend_from_slice(&text[..kept]);
        Category { text: bytes }
    }

    /// Its bytes, as the device gave them.
    pub fn as_slice(&self) -> &[u8]
        ensures value { result.now ≡ self.now }
        ensures fits { length result.now ≤ MOST_CATEGORY }
    {
        self.text.as_slice()
    }

    /// The family that has this category: `Coin Acceptor`, `Payout` or `Bill Validator`, letter by
    /// letter. No other text is one of a family.
    pub fn family(&self) -> Option<Family>
        ensures { result ≡ family_told self.now }
    {
        let text = self.text.as_slice();
        if text == ACCEPTOR {
            Some(Family::Acceptor)
        } else if text == PAYOUT {
            Some(Family::Hopper)
        } else if text == BILLS {
            Some(Family::Bill)
        } else {
            None
        }
    }
}
