//! How many taps were for a watched device, and what they showed.
ghost use Rattle.std.specs.Prelude.{◌≡◌, false};
ghost use Rattle.cct_monitor.specs.Tallies.{is_counted, is_events, is_life, is_mask, is_masked};
ghost use Rattle.cct_monitor.specs.Tallies.{is_reading, no_tally, one_more, tally_more};

use cct_audit_taps::{Deed, Shown, Sign};

/// How many taps were for a watched device, and what they showed. Each number stands still at its
/// type's end.
#[derive(Clone, Copy, PartialEq, Eq)]
pub struct Tally {
    /// Taps in which a message was sent to it, under its check.
    pub messages: u32,
    /// Taps that showed a reading of its credits (header 229, or 159 of a bill acceptor), or the
    /// life count (168) of a hopper.
    pub readings: u32,
    /// Taps that showed its inhibit mask (230); of a hopper none.
    pub masks: u32,
}

impl Tally {
    /// The tally before any tap.
    pub(crate) fn new() -> Tally
        ensures { result ≡ no_tally }
    {
        Tally {
            messages: 0,
            readings: 0,
            masks: 0,
        }
    }

    /// The tally of an acceptor after a tap: whether it was a message to it, and what it showed.
    pub(crate) fn after_shown(self, is_message: bool, shown: &Shown) -> Tally
        ensures { result ≡ tally_more is_message (is_reading shown.now) (is_masked shown.now) self }
    {
        self.more(is_message, is_reading(shown), is_masked(shown))
    }

    /// The tally of an acceptor of which premises are tried after a tap.
    pub(crate) fn after_sign(self, is_message: bool, sign: &Sign) -> Tally
        ensures { result ≡ tally_more is_message (is_events sign.now) (is_mask sign.now) self }
    {
        self.more(is_message, is_events(sign), is_mask(sign))
    }

    /// The tally of a hopper after a tap: whether it was a message to it, and the life count that
    /// it showed.
    pub(crate) fn after_life(self, is_message: bool, count: Option<u32>) -> Tally
        ensures { result ≡ tally_more is_message (is_life count) false self }
    {
        self.more(is_message, count.is_some(), false)
    }

    /// The tally of a hopper of which premises are tried after a tap.
    pub(crate) fn after_deed(self, is_message: bool, deed: &Deed) -> Tally
        ensures { result ≡ tally_more is_message (is_counted deed.now) false self }
    {
        self.more(is_message, is_counted(deed), false)
    }

    /// The tally with one tap more.
    fn more(self, is_message: bool, is_reading: bool, is_mask: bool) -> Tally
        ensures { result ≡ tally_more is_message is_reading is_mask self }
    {
        Tally {
            messages: one_more(is_message, self.messages),
            readings: one_more(is_reading, self.readings),
            masks: one_more(is_mask, self.masks),
        }
    }
}

/// A count with one more, where there is one.
fn one_more(is_one: bool, count: u32) -> u32
    ensures { result ≡ one_more is_one count }
{
    if is_one {
        count.saturating_add(1)
    } else {
        count
    }
}

/// Whether a tap shows a reading.
fn is_reading(shown: &Shown) -> bool
    ensures { result ≡ is_reading shown.now }
{
    match shown {
        Shown::Read(_) => true,
        Shown::Masked { .. } | Shown::Set | Shown::Nothing => false,
    }
}

/// Whether a tap shows an inhibit mask.
fn is_masked(shown: &Shown) -> bool
    ensures { result ≡ is_masked shown.now }
{
    match shown {
        Shown::Masked { .. } => true,
        Shown::Read(_) | Shown::Set | Shown::Nothing => false,
    }
}

/// Whether a tap shows events.
fn is_events(sign: &Sign) -> bool
    ensures { result ≡ is_events sign.now }
{
    match sign {
        Sign::Events(_) => true,
        Sign::Mask { .. } => false,
        Sign::MaskTaken { .. } => false,
        Sign::MaskLost => false,
        Sign::ResetTaken => false,
        Sign::OtherAnswers => false,
        Sign::Nothing => false,
    }
}

/// Whether it shows an inhibit mask.
fn is_mask(sign: &Sign) -> bool
    ensures { result ≡ is_mask sign.now }
{
    match sign {
        Sign::Mask { .. } => true,
        Sign::Events(_) => false,
        Sign::MaskTaken { .. } => false,
        Sign::MaskLost => false,
        Sign::ResetTaken => false,
        Sign::OtherAnswers => false,
        Sign::Nothing => false,
    }
}

/// Whether it shows a life count.
fn is_counted(deed: &Deed) -> bool
    ensures { result ≡ is_counted deed.now }
{
    match deed {
        Deed::Life { .. } => true,
        Deed::Serial { .. } => false,
        Deed::Enabled => false,
        Deed::Shut => false,
        Deed::ResetTaken => false,
        Deed::Dispensed { .. } => false,
        Deed::Asked { .. } => false,
        Deed::Status { .. } => false,
        Deed::OtherAnswers => false,
        Deed::Nothing => false,
    }
}
