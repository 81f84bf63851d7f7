//! What is kept of a watched device.
ghost use Rattle.std.specs.Prelude.{◌≡◌, ◌+◌, ◌<◌, ◌≤◌, ◌++◌, [], length};
ghost use Rattle.cct_monitor.specs.Machine.{ends_on, family_of, heard_as, kept_first, life_on};
ghost use Rattle.cct_monitor.specs.Machine.{new_watched, says_on, watched_on};
ghost use Rattle.cct_audit_taps.specs.Taps.{tap_of};

use crate::acceptor::{AcceptorWatch, LastReading};
use crate::hopper::{LastLife, fell};
use crate::quiet::{last_on, say_quietly};
use crate::tally::Tally;
use arrayvec::ArrayVec;
use cct_audit_taps::{
    KnownHopper, KnownMask, Money, Said, deed_at, hopper_on, is_message, known_on, life_at,
    no_hopper, quiet_shown_at, shown_at, sign_at, tell_broken, tell_hopper,
};
use cct_model::CheckKind;

/// What a watched device is, and what is taken for granted of it.
#[derive(Clone, Copy, PartialEq, Eq)]
pub enum Family {
    /// An acceptor of coins. Its spans are sure where its inhibit mask shows that it didn't reset.
    Acceptor,
    /// An acceptor of this money that is taken to reset only where the taps show it: it is asked
    /// to, or its event counter falls to 0.
    QuietAcceptor(Money),
    /// An acceptor of this money of which it is reported what it isn't as it is taken to be.
    Premises(Money),
    /// A hopper.
    Hopper,
    /// A hopper of which it is reported what it isn't as it is taken to be.
    HopperPremises,
}

/// What is kept of a watched device, by its family.
#[derive(Clone, Copy, PartialEq, Eq)]
pub(crate) enum Kept {
    Acceptor(AcceptorWatch),
    QuietAcceptor(Money, Option<LastReading>),
    Premises(Money, Option<KnownMask>),
    Hopper(Option<LastLife>),
    HopperPremises(KnownHopper),
}

/// A watched device.
#[derive(Clone, Copy, PartialEq, Eq)]
pub(crate) struct Watched {
    pub addr: u8,
    pub kind: CheckKind,
    pub tally: Tally,
    pub kept: Kept,
}

/// A watched device, and how many taps were for it.
#[derive(Clone, Copy, PartialEq, Eq)]
pub struct Heard {
    pub addr: u8,
    pub kind: CheckKind,
    pub family: Family,
    pub tally: Tally,
}

impl Default for Watched {
    ghost use Rattle.std.specs.Prelude.{None};
    ghost use Rattle.cct_model.specs.terms.wire.CheckKind.TheVariants.{Simple};
    ghost use Rattle.cct_monitor.specs.declared.watched.Kept.TheVariants.{Hopper};
    ghost use Rattle.cct_monitor.specs.Tallies.{no_tally};

    ghost is_default = { λ w. w ≡ record { addr = 0; kind = Simple; tally = no_tally; kept = Hopper None } };

    fn default() -> Self {
        Watched {
            addr: 0,
            kind: CheckKind::Simple,
            tally: Tally::new(),
            kept: Kept::Hopper(None),
        }
    }
}

impl Kept {
    /// What is kept of a device of a family of which no tap came.
    fn new(family: Family) -> Kept
        ensures { result ≡ kept_first family }
    {
        match family {
            Family::Acceptor => Kept::Acceptor(AcceptorWatch::new()),
            Family::QuietAcceptor(money) => Kept::QuietAcceptor(money, None),
            Family::Premises(money) => Kept::Premises(money, None),
            Family::Hopper => Kept::Hopper(None),
            Family::HopperPremises => Kept::HopperPremises(no_hopper()),
        }
    }

    /// The family of the device.
    fn family(&self) -> Family
        ensures { result ≡ family_of self.now }
    {
        match self {
            Kept::Acceptor(_) => Family::Acceptor,
            Kept::QuietAcceptor(money, _) => Family::QuietAcceptor(*money),
            Kept::Premises(money, _) => Family::Premises(*money),
            Kept::Hopper(_) => Family::Hopper,
            Kept::HopperPremises(_) => Family::HopperPremises,
        }
    }
}

impl Watched {
    /// A device of which no tap came.
    pub(crate) fn new(addr: u8, kind: CheckKind, family: Family) -> Watched
        ensures { result ≡ new_watched addr kind family }
    {
        Watched {
            addr,
            kind,
            tally: Tally::new(),
            kept: Kept::new(family),
        }
    }

    /// What is reported of the device.
    pub(crate) fn heard(&self) -> Heard
        ensures { result ≡ heard_as self.now }
    {
        Heard {
            addr: self.addr,
            kind: self.kind,
            family: self.kept.family(),
            tally: self.tally,
        }
    }

    /// The device after a tap of a number, and in the report what that makes said.
    pub(crate) fn tap(
        self,
        number: u32,
        sent: &[u8],
        heard: &[u8],
        report: &mut ArrayVec<Said, 4>,
    ) -> Watched
        requires { report.old.items ≡ [] }
        ensures kept { result ≡ watched_on (tap_of sent.now heard.now) number self }
        ensures says { report.new.items ≡ says_on (tap_of sent.now heard.now) number self }
    {
        let Watched {
            addr,
            kind,
            tally,
            kept,
        } = self;
        let to_it = is_message(kind, addr, sent);
        match kept {
            Kept::Acceptor(mut acceptor) => {
                let shown = shown_at(kind, addr, sent, heard);
                acceptor.tap(addr, number, shown, report);
                Watched {
                    addr,
                    kind,
                    tally: tally.after_shown(to_it, &shown),
                    kept: Kept::Acceptor(acceptor),
                }
            }
            Kept::QuietAcceptor(money, last) => {
                let shown = quiet_shown_at(money, kind, addr, sent, heard);
                say_quietly(addr, number, shown, last, report);
                Watched {
                    addr,
                    kind,
                    tally: tally.after_shown(to_it, &shown),
                    kept: Kept::QuietAcceptor(money, last_on(shown, number, last)),
                }
            }
            Kept::Premises(money, known) => {
                let sign = sign_at(money, kind, addr, sent, heard);
                tell_broken(addr, number, sign, known, report);
                Watched {
                    addr,
                    kind,
                    tally: tally.after_sign(to_it, &sign),
                    kept: Kept::Premises(money, known_on(number, sign, known)),
                }
            }
            Kept::Hopper(last) => {
                let count = life_at(kind, addr, sent, heard);
                fell(addr, number, count, last, report);
                Watched {
                    addr,
                    kind,
                    tally: tally.after_life(to_it, count),
                    kept: Kept::Hopper(life_on(count, number, last)),
                }
            }
            Kept::HopperPremises(known) => {
                let deed = deed_at(kind, addr, sent, heard);
                tell_hopper(addr, number, deed, &known, report);
                Watched {
                    addr,
                    kind,
                    tally: tally.after_deed(to_it, &deed),
                    kept: Kept::HopperPremises(hopper_on(number, deed, known)),
                }
            }
        }
    }

    /// Adds to the report what is in doubt at the end of the taps.
    pub(crate) fn finish(&self, report: &mut ArrayVec<Said, 32>)
        requires { length report.old.items < 32 }
        ensures says { report.new.items ≡ report.old.items ++ ends_on self.now }
        ensures few { length report.new.items ≤ length report.old.items + 1 }
    {
        match self.kept {
            Kept::Acceptor(acceptor) => acceptor.finish(self.addr, report),
            Kept::QuietAcceptor(_, _) => {}
            Kept::Premises(_, _) => {}
            Kept::Hopper(_) => {}
            Kept::HopperPremises(_) => {}
        }
    }
}

/// The last life count after a tap of a number.
fn life_on(count: Option<u32>, number: u32, last: Option<LastLife>) -> Option<LastLife>
    ensures { result ≡ life_on count number last }
{
    match count {
        Some(count) => Some(LastLife { number, count }),
        None => last,
    }
}
