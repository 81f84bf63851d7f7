//! Whether a hopper does what is taken for granted of it, as far as taps show that: it pays under
//! its own serial number alone, and not before it is enabled; its life count rises by the coins
//! that fall, also over a reset and over a power cut; and its event counter by the dispense
//! requests that it takes, since its last reset.
ghost use Rattle.std.specs.Prelude.{◌≡◌, ◌≤◌, ◌++◌, [], length};
ghost use Rattle.cct_model.specs.Order.{life_between};
ghost use Rattle.cct_audit_taps.specs.Deeds.{asked_since, broken_counter, broken_enable};
ghost use Rattle.cct_audit_taps.specs.Deeds.{broken_life, broken_serial, counted_from};
ghost use Rattle.cct_audit_taps.specs.Deeds.{counter_fits, counter_known, greater};
ghost use Rattle.cct_audit_taps.specs.Deeds.{hopper_broken_by, hopper_on, least_of, life_known};
ghost use Rattle.cct_audit_taps.specs.Deeds.{more_coins, no_hopper, one_more, paid_since};
ghost use Rattle.cct_audit_taps.specs.Deeds.{request_since, rest_on, rise_fits, serial_first};
ghost use Rattle.cct_audit_taps.specs.Deeds.{serial_on, shut_on};

use crate::deeds::Deed;
use crate::said::{Premise, Said, broken};
use crate::signs::alone_broken;
use arrayvec::ArrayVec;
use cct_epoch::distance;

/// How many values the life count has, which is three bytes long.
const COUNTS: u32 = 1 << 24;

/// The serial number that a hopper showed first.
#[derive(Clone, Copy, PartialEq, Eq)]
pub struct KnownSerial {
    /// The number of the tap.
    pub number: u32,
    pub serial: u32,
}

/// The last life count of a hopper, and what came since.
#[derive(Clone, Copy, PartialEq, Eq)]
pub struct KnownLife {
    /// The number of the tap.
    pub number: u32,
    pub count: u32,
    /// How many coins may have fallen since, with those that may yet fall. From 2^24 on it says
    /// nothing.
    pub most: u32,
    /// How many fell at least.
    pub least: u8,
    /// Whether a payout has begun since, so that what is reported as paid fell since.
    pub has_begun: bool,
}

/// The last event counter of a hopper, or 0 at a reset, and what came since.
#[derive(Clone, Copy, PartialEq, Eq)]
pub struct KnownCounter {
    /// The number of the tap.
    pub number: u32,
    pub counter: u8,
    /// How many dispense requests it acknowledged since; 255 is 255 or more.
    pub least: u8,
    /// How many it was sent since; 255 is 255 or more.
    pub most: u8,
}

/// What is known of a hopper.
#[derive(Clone, Copy, PartialEq, Eq)]
pub struct KnownHopper {
    pub serial: Option<KnownSerial>,
    /// The tap since which it may not pay, where there is one.
    pub shut: Option<u32>,
    /// How many coins it has left to pay, at most.
    pub rest: u8,
    pub life: Option<KnownLife>,
    pub counter: Option<KnownCounter>,
}

/// What is known before any tap: no payout is of more than 255 coins.
pub fn no_hopper() -> KnownHopper
    ensures { result ≡ no_hopper }
{
    KnownHopper {
        serial: None,
        shut: None,
        rest: 255,
        life: None,
        counter: None,
    }
}

/// What is known of a hopper after a tap of a number.
pub fn hopper_on(number: u32, deed: Deed, known: KnownHopper) -> KnownHopper
    ensures { result ≡ hopper_on number deed known }
{
    KnownHopper {
        serial: serial_on(number, deed, known.serial),
        shut: shut_on(number, deed, known.shut),
        rest: rest_on(deed, known.rest),
        life: life_known(number, deed, known.rest, known.life),
        counter: counter_known(number, deed, known.counter),
    }
}

/// The serial number that is known after it.
fn serial_on(number: u32, deed: Deed, known: Option<KnownSerial>) -> Option<KnownSerial>
    ensures { result ≡ serial_on number deed known }
{
    match deed {
        Deed::Serial { serial } => serial_first(number, serial, known),
        Deed::Dispensed { serial, .. } => serial_first(number, serial, known),
        Deed::Enabled => known,
        Deed::Shut => known,
        Deed::ResetTaken => known,
        Deed::Asked { .. } => known,
        Deed::Status { .. } => known,
        Deed::Life { .. } => known,
        Deed::OtherAnswers => known,
        Deed::Nothing => known,
    }
}

/// The first serial number that was shown.
fn serial_first(number: u32, serial: u32, known: Option<KnownSerial>) -> Option<KnownSerial>
    ensures { result ≡ serial_first number serial known }
{
    match known {
        Some(first) => Some(first),
        None => Some(KnownSerial { number, serial }),
    }
}

/// The tap since which the hopper may not pay.
fn shut_on(number: u32, deed: Deed, known: Option<u32>) -> Option<u32>
    ensures { result ≡ shut_on number deed known }
{
    match deed {
        Deed::Enabled => None,
        Deed::Shut => Some(number),
        Deed::ResetTaken => Some(number),
        Deed::OtherAnswers => None,
        Deed::Serial { .. } => known,
        Deed::Dispensed { .. } => known,
        Deed::Asked { .. } => known,
        Deed::Status { .. } => known,
        Deed::Life { .. } => known,
        Deed::Nothing => known,
    }
}

/// How many coins it has left to pay at most.
fn rest_on(deed: Deed, rest: u8) -> u8
    ensures { result ≡ rest_on deed rest }
{
    match deed {
        Deed::Shut => 0,
        Deed::ResetTaken => 0,
        Deed::Dispensed { count, .. } => count,
        Deed::Asked { count } => greater(rest, count),
        Deed::Status { remaining, .. } => remaining,
        Deed::OtherAnswers => u8::MAX,
        Deed::Serial { .. } => rest,
        Deed::Enabled => rest,
        Deed::Life { .. } => rest,
        Deed::Nothing => rest,
    }
}

/// The greater of two counts.
fn greater(first: u8, second: u8) -> u8
    ensures { result ≡ greater first second }
{
    if first <= second { second } else { first }
}

/// The last life count, and what came since.
fn life_known(number: u32, deed: Deed, rest: u8, known: Option<KnownLife>) -> Option<KnownLife>
    ensures { result ≡ life_known number deed rest known }
{
    match deed {
        Deed::Life { count } => Some(KnownLife {
            number,
            count,
            most: u32::from(rest),
            least: 0,
            has_begun: false,
        }),
        Deed::Dispensed { count, .. } => asked_since(true, count, known),
        Deed::Asked { count } => asked_since(false, count, known),
        Deed::Status { paid, .. } => paid_since(paid, known),
        Deed::OtherAnswers => None,
        Deed::Serial { .. } => known,
        Deed::Enabled => known,
        Deed::Shut => known,
        Deed::ResetTaken => known,
        Deed::Nothing => known,
    }
}

/// A life count after which so many coins were asked for; and whether the hopper took that.
fn asked_since(taken: bool, count: u8, known: Option<KnownLife>) -> Option<KnownLife>
    ensures { result ≡ asked_since taken count known }
{
    let life = known?;
    Some(KnownLife {
        number: life.number,
        count: life.count,
        most: more_coins(life.most, count),
        least: life.least,
        has_begun: if taken { true } else { life.has_begun },
    })
}

/// How many coins may have fallen and may yet fall, with this many more.
fn more_coins(most: u32, count: u8) -> u32
    ensures { result ≡ more_coins most count }
{
    if COUNTS <= most {
        most
    } else {
        most + u32::from(count)
    }
}

/// A life count after which it was reported how many coins were paid.
fn paid_since(paid: u8, known: Option<KnownLife>) -> Option<KnownLife>
    ensures { result ≡ paid_since paid known }
{
    let life = known?;
    Some(KnownLife {
        number: life.number,
        count: life.count,
        most: life.most,
        least: least_of(life.has_begun, paid, life.least),
        has_begun: life.has_begun,
    })
}

/// How many coins fell at least, where so many are reported as paid.
fn least_of(begun: bool, paid: u8, least: u8) -> u8
    ensures { result ≡ least_of begun paid least }
{
    if begun { greater(least, paid) } else { least }
}

/// The last event counter, and what came since.
fn counter_known(number: u32, deed: Deed, known: Option<KnownCounter>) -> Option<KnownCounter>
    ensures { result ≡ counter_known number deed known }
{
    match deed {
        Deed::Status { counter, .. } => Some(counted_from(number, counter)),
        Deed::ResetTaken => Some(counted_from(number, 0)),
        Deed::Dispensed { .. } => request_since(true, known),
        Deed::Asked { .. } => request_since(false, known),
        Deed::OtherAnswers => None,
        Deed::Serial { .. } => known,
        Deed::Enabled => known,
        Deed::Shut => known,
        Deed::Life { .. } => known,
        Deed::Nothing => known,
    }
}

/// An event counter that is known at a tap of a number.
fn counted_from(number: u32, counter: u8) -> KnownCounter
    ensures { result ≡ counted_from number counter }
{
    KnownCounter {
        number,
        counter,
        least: 0,
        most: 0,
    }
}

/// An event counter after which a dispense request was sent; and whether the hopper took that.
fn request_since(taken: bool, known: Option<KnownCounter>) -> Option<KnownCounter>
    ensures { result ≡ request_since taken known }
{
    let counted = known?;
    Some(KnownCounter {
        number: counted.number,
        counter: counted.counter,
        least: if taken {
            one_more(counted.least)
        } else {
            counted.least
        },
        most: one_more(counted.most),
    })
}

/// One request more, 255 at most.
fn one_more(requests: u8) -> u8
    ensures { result ≡ one_more requests }
{
    if requests == 255 { 255 } else { requests + 1 }
}

/// Reports which premises about the hopper at an address a tap of a number shows broken.
pub fn tell_hopper(
    addr: u8,
    number: u32,
    deed: Deed,
    known: &KnownHopper,
    report: &mut ArrayVec<Said, 4>,
)
    requires { report.old.items ≡ [] }
    ensures { report.new.items ≡ hopper_broken_by addr number deed known.now }
{
    match deed {
        Deed::Serial { serial } => tell_serial(addr, number, serial, known.serial, report),
        Deed::Dispensed { serial, .. } => {
            tell_serial(addr, number, serial, known.serial, report);
            tell_enable(addr, number, known.shut, report);
        }
        Deed::Life { count } => tell_life(addr, number, count, known.life, report),
        Deed::Status { counter, .. } => tell_counter(addr, number, counter, known.counter, report),
        Deed::OtherAnswers => report.push(alone_broken(addr, number)),
        Deed::Enabled => {}
        Deed::Shut => {}
        Deed::ResetTaken => {}
        Deed::Asked { .. } => {}
        Deed::Nothing => {}
    }
}

/// Reports another serial number than the first one.
fn tell_serial(
    addr: u8,
    number: u32,
    serial: u32,
    known: Option<KnownSerial>,
    report: &mut ArrayVec<Said, 4>,
)
    requires { report.old.items ≡ [] }
    ensures tells { report.new.items ≡ broken_serial addr number serial known }
    ensures few { length report.new.items ≤ 1 }
{
    if let Some(first) = known {
        if serial != first.serial {
            report.push(broken(addr, Premise::Serial, first.number, number));
        }
    }
}

/// Reports a dispense request that was taken where the hopper may not pay.
fn tell_enable(addr: u8, number: u32, shut: Option<u32>, report: &mut ArrayVec<Said, 4>)
    requires { length report.old.items ≤ 1 }
    ensures { report.new.items ≡ report.old.items ++ broken_enable addr number shut }
{
    if let Some(first) = shut {
        report.push(broken(addr, Premise::Enable, first, number));
    }
}

/// Reports a life count that rose by more than could fall, or by less than was reported to have
/// fallen.
fn tell_life(
    addr: u8,
    number: u32,
    count: u32,
    known: Option<KnownLife>,
    report: &mut ArrayVec<Said, 4>,
)
    requires { report.old.items ≡ [] }
    ensures { report.new.items ≡ broken_life addr number count known }
{
    if let Some(before) = known {
        if before.most < COUNTS && !rise_fits(fallen_between(before.count, count), &before) {
            report.push(broken(addr, Premise::Life, before.number, number));
        }
    }
}

/// Whether a rise of the life count fits what could fall, and what was reported to have fallen.
fn rise_fits(rise: u32, life: &KnownLife) -> bool
    ensures { result ≡ rise_fits rise life.now }
{
    rise <= life.most && u32::from(life.least) <= rise
}

/// How many coins fell between two life counts, which go from 2^24 - 1 to 0.
#[tactic(auto, unfolding(cct_model::specs::Order::life_between))]
pub fn fallen_between(before: u32, now: u32) -> u32
    ensures { result ≡ life_between before now }
{
    let counts = u64::from(COUNTS);
    ((u64::from(now) + counts).saturating_sub(u64::from(before)) % counts) as u32
}

/// Reports an event counter that counts other requests than the hopper may have taken.
fn tell_counter(
    addr: u8,
    number: u32,
    counter: u8,
    known: Option<KnownCounter>,
    report: &mut ArrayVec<Said, 4>,
)
    requires { report.old.items ≡ [] }
    ensures { report.new.items ≡ broken_counter addr number counter known }
{
    if let Some(before) = known {
        if !counter_fits(counter, &before) {
            report.push(broken(addr, Premise::Counter, before.number, number));
        }
    }
}

/// Whether an event counter fits the dispense requests since: those since a reset that nobody saw,
/// or all of them.
fn counter_fits(counter: u8, known: &KnownCounter) -> bool
    ensures { result ≡ counter_fits counter known.now }
{
    let taken = distance(known.counter, counter);
    counter <= known.most || (known.least <= taken && taken <= known.most)
}
