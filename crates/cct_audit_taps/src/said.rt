//! What a monitor says of a watched device.
ghost use Rattle.std.specs.Prelude.{◌≡◌};
ghost use Rattle.cct_audit_taps.specs.declared.said.Said.TheVariants.{Broken};

use cct_model::Coins;

/// What is taken for granted of an acceptor or of a hopper, and taps can show broken.
#[derive(Clone, Copy, PartialEq, Eq)]
pub enum Premise {
    /// With event counter 0 its buffer is empty.
    Buffer,
    /// Its inhibit mask stays until another one is asked for, or until a reset, after which it is
    /// 0.
    Mask,
    /// A reset clears its events, and lets nothing in.
    Reset,
    /// A hopper has one serial number, and takes no dispense request under another.
    Serial,
    /// After a reset, or disabled, it takes none before it is enabled.
    Enable,
    /// Its life count rises by one with each coin that falls, and else stays.
    Life,
    /// Its event counter rises by one with each dispense request that it takes, from 255 to 1, and
    /// else stays; a reset clears it.
    Counter,
    /// No other device answers what is sent to it.
    Alone,
}

/// What a monitor says of the watched device at `addr`: `first` and `last` are the numbers of two
/// taps, from 1. All but the last are of a span: two readings of an acceptor's credits with none
/// between them, or two life counts of a hopper.
#[derive(Clone, Drop, PartialEq, Eq)]
pub enum Said {
    /// The acceptor accepted these coins between its two readings, oldest first: those among as
    /// many of the newest events as the two event counters show, at most five (ccTalk Generic
    /// Specification 4, part 2, header 229).
    Sure {
        addr: u8,
        first: u32,
        last: u32,
        coins: Coins,
    },
    /// The same of an acceptor that is taken to reset only where the taps show it: these are the
    /// coins if no reset came between its two readings.
    Quiet {
        addr: u8,
        first: u32,
        last: u32,
        coins: Coins,
    },
    /// Which coins the acceptor accepted between its two readings isn't sure.
    Doubt {
        addr: u8,
        first: u32,
        last: u32,
    },
    /// So many coins fell out of the hopper between its two life counts, where fewer than 2^24 fell
    /// (ccTalk Generic Specification 4, part 3, header 168).
    Fell {
        addr: u8,
        first: u32,
        last: u32,
        count: u32,
    },
    /// The exchanges of its two taps, or of the one tap that both are, show that the device isn't
    /// as it is taken to be.
    Broken {
        addr: u8,
        premise: Premise,
        first: u32,
        last: u32,
    },
}

/// That the taps with these numbers show a premise about the device at an address broken.
pub(crate) fn broken(addr: u8, premise: Premise, first: u32, last: u32) -> Said
    ensures { result ≡ Broken addr premise first last }
{
    Said::Broken {
        addr,
        premise,
        first,
        last,
    }
}

impl Default for Said {
    ghost use Rattle.cct_audit_taps.specs.declared.said.Said.TheVariants.{Doubt};

    ghost is_default = { λ said. said ≡ Doubt 0 0 0 };

    fn default() -> Self {
        Said::Doubt {
            addr: 0,
            first: 0,
            last: 0,
        }
    }
}
