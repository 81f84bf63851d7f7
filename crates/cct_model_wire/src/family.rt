//! The families of devices, and what happens to a device.
ghost use Rattle.std.specs.Prelude.{◌≡◌};
ghost use Rattle.cct_model_wire.specs.declared.family.Family.TheVariants as family;
ghost use Rattle.cct_model_wire.specs.Family.{is_same, known_to, takes_money};

/// What happens to a device besides the bytes that it hears.
#[derive(Clone, Copy, PartialEq, Eq)]
pub enum Happening {
    /// A coin of this coin place, 1 to 16, falls in.
    Coin { place: u8 },
    /// An object that is no coin falls in.
    Alien,
    /// A bill of this place, 1 to 16, is put in.
    Bill { place: u8 },
    /// A coin falls out, where the device pays.
    Fall,
    /// A coin gets stuck, where the device pays.
    Jam,
    /// The device starts again as after power-up.
    Reset,
}

/// A family of devices: they have the same requests of their own, and the same things happen to
/// them.
#[derive(Clone, Copy, PartialEq, Eq)]
pub enum Family {
    /// Coin acceptors (ccTalk Generic Specification 4, part 2).
    Acceptor,
    /// Hoppers (ccTalk Generic Specification 4, part 3).
    Hopper,
    /// Bill acceptors with an escrow (ccTalk Generic Specification 4, part 3).
    Bill,
}

impl Family {
    /// Whether the family knows this, so that it can happen to a device of it. A place is not
    /// looked at.
    pub fn knows(self, what: Happening) -> bool
        ensures { result ≡ known_to what self }
    {
        match what {
            Happening::Coin { .. } | Happening::Alien => self.is_acceptor(),
            Happening::Bill { .. } => self.is_bill(),
            Happening::Fall | Happening::Jam => self.is_hopper(),
            Happening::Reset => true,
        }
    }

    /// Whether its devices are coin acceptors.
    pub fn is_acceptor(self) -> bool
        ensures { result ≡ is_same family.Acceptor self }
    {
        matches!(self, Family::Acceptor)
    }

    /// Whether its devices are hoppers.
    pub fn is_hopper(self) -> bool
        ensures { result ≡ is_same family.Hopper self }
    {
        matches!(self, Family::Hopper)
    }

    /// Whether its devices are bill acceptors.
    pub fn is_bill(self) -> bool
        ensures { result ≡ is_same family.Bill self }
    {
        matches!(self, Family::Bill)
    }

    /// Whether its devices take money in: coins or bills. They have epochs.
    pub fn takes_money(self) -> bool
        ensures { result ≡ takes_money self }
    {
        match self {
            Family::Acceptor | Family::Bill => true,
            Family::Hopper => false,
        }
    }
}
