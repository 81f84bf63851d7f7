//! The test register of a hopper, which header 163 reads (ccTalk Generic Specification 4, part 3).
ghost use Rattle.std.specs.Prelude.{◌≡◌, ⊤, ◌+◌, ◌^◌, [], ◌∷◌, codes, if◌then◌else◌};

use bitflags::{Flag, Flags};

/// The test register of a hopper, as a set of named bits.
#[derive(Clone, Copy, PartialEq, Eq)]
pub struct Register(u8);

impl Register {
    /// Bit 1: a jam ended the last payout.
    pub const TIMEOUT: Register = Register(2);
    /// Bit 6: the register wasn't read since power-up.
    pub const POWER_UP: Register = Register(64);
    /// Bit 7: the hopper may not pay.
    pub const DISABLED: Register = Register(128);

    const FLAGS: &'static [Flag<Register>] = &[
        Flag {
            name: "TIMEOUT",
            value: Register::TIMEOUT,
        },
        Flag {
            name: "POWER_UP",
            value: Register::POWER_UP,
        },
        Flag {
            name: "DISABLED",
            value: Register::DISABLED,
        },
    ];

    /// The register in which these bits are set, and no other.
    pub(crate) fn with(timeout: bool, power_up: bool, disabled: bool) -> Register
        ensures { result.0 ≡ (if timeout then 2 ^ 1 else 0) + (if power_up then 2 ^ 6 else 0)
            + (if disabled then 2 ^ 7 else 0) }
    {
        let mut register = Register::empty();
        register.set(Register::TIMEOUT, timeout);
        register.set(Register::POWER_UP, power_up);
        register.set(Register::DISABLED, disabled);
        register
    }
}

impl Flags for Register {
    type Bits = u8;

    ghost exact = { ⊤ };

    ghost table = { (codes "TIMEOUT", 2) ∷ (codes "POWER_UP", 64) ∷ (codes "DISABLED", 128) ∷ [] };

    ghost set_of = { λ register. register.0 };

    fn flags<'a>() -> &'a [Flag<Register>] {
        Register::FLAGS
    }

    fn bits(&self) -> u8 {
        self.0
    }

    fn from_bits_retain(bits: u8) -> Register {
        Register(bits)
    }
}
