//! The roll of a setup: which devices are still to be asked who they are, and what was found so
//! far.
ghost use Rattle.std.specs.Prelude.{◌≡◌, ◌<◌, ◌≤◌, ◌+◌, ◌++◌, List, Some, None, IfSome, is_some};
ghost use Rattle.std.specs.Prelude.{length, not, slice_get};
ghost use Rattle.std.specs.List.{position, sum_by};
ghost use Rattle.std.specs.Option.{option_to_list};
ghost use Rattle.cct_live_survey.specs.declared.finding.Finding.{Finding};
ghost use Rattle.cct_live_survey.specs.Asking.{Inquires};
ghost use Rattle.cct_live_survey.specs.Roll.{AsksRoll, CallsAt, coin_from, first_roll, found_from};
ghost use Rattle.cct_live_survey.specs.Roll.{given_up, gone_on, is_meant, most_found, moved};
ghost use Rattle.cct_live_survey.specs.Roll.{next_about, next_turn, once_more, passed_over};

use crate::calling::{About, Called, call};
use crate::coins::next_coin;
use crate::finding::Finding;
use crate::question::TRIES;
use crate::room::Room;
use arrayvec::ArrayVec;
use cct_model_lines::{DEVICES, DeviceBody, DeviceSetup, Setup};
use cct_wire::Link;
use std::marker::Model;

/// The most findings: nineteen of each device, that it is absent, one of its serial number, one of
/// its category, and one of each coin place.
pub const MOST_FINDINGS: usize = 608;

/// A device that is still to be asked: what it is asked next, and how often it was silent to that.
#[derive(Clone, Copy, Default)]
pub(crate) struct Turn {
    pub(crate) addr: u8,
    pub(crate) about: About,
    pub(crate) silent: u8,
}

/// How a call of the roll ended.
#[derive(Clone, Copy, PartialEq, Eq)]
pub enum Answered {
    /// Each question that was asked was answered. So it is too where nothing was left to ask.
    All,
    /// The last question that was asked wasn't answered. Those before it were.
    Silent,
}

/// The roll of a setup: which of its devices are still to be asked who they are, and all that was
/// found so far, oldest first.
///
/// A device is asked for its serial number (header 242), then for its category (245), and a coin
/// acceptor then for each coin that the setup names (184), unless the coins are trusted. It is
/// asked the next question once it answered the last one. The devices take turns in the order of
/// the setup, a question each: whoever was asked stands last from then on. So the serial numbers of
/// all come first, then the categories, then the coins; and a device that is silent is asked again
/// only after all others that are left.
///
/// After three silent turns at a question it is given up. Without a serial number the device is
/// absent, and without a category it is of another kind; of coins that it doesn't name nothing is
/// found. A device that is absent, or doesn't name its coins, rests: it is asked the same again
/// only by [`Roll::ask_at`], as before a start.
#[derive(Drop)]
pub struct Roll {
    trusts_coins: bool,
    left: ArrayVec<Turn, DEVICES>,
    findings: ArrayVec<Finding, MOST_FINDINGS>,
}

impl Model for Roll {
    ghost use Rattle.cct_live_survey.specs.Roll.{IsRoomy, Rolled};

    ghost Value = { Rolled };

    ghost view = { λ r. record { trusts_coins = r.trusts_coins; left = r.left.items; findings = r.findings.items } };

    ghost invariant = { λ r. IsRoomy r.left.items r.findings.items };
}

impl Roll {
    /// The roll of a setup before any device was asked. Where the coins are trusted, no acceptor is
    /// asked for one.
    pub fn new(setup: &Setup, trusts_coins: bool) -> Roll
        ensures { result ≡ first_roll trusts_coins setup.now.devices }
    {
        let devices = setup.devices.as_slice();
        let mut left = ArrayVec::new();
        for device in devices {
            left.push(Turn {
                addr: device.addr,
                about: About::Serial,
                silent: 0,
            });
        }
        Roll {
            trusts_coins,
            left,
            findings: ArrayVec::new(),
        }
    }

    /// All that was found so far, oldest first.
    pub fn findings(&self) -> &[Finding]
        ensures { result.now ≡ self.now.findings }
    {
        self.findings.as_slice()
    }

    /// Whether nothing is left to ask but of devices that rest.
    pub fn is_done(&self) -> bool
        ensures { result ≡ not (is_some (position (is_meant None) self.now.left)) }
    {
        self.first_of(None).is_none()
    }

    /// Asks what is left, at most so many questions, up to the first that isn't answered. Each is
    /// one exchange. The setup is that of the roll; of a device that it doesn't have nothing is
    /// asked.
    pub fn ask<L: Link>(&mut self, setup: &Setup, most: u32, link: &mut L) -> Answered
        // Just these questions were asked, in this order, and what is found was heard.
        ensures asks { AsksRoll L.gives setup.now.devices None most self.old link.old result
            self.new link.new }
        // Only who a device is was asked, and which coins it knows.
        ensures inquires { Inquires L.gives link.old link.new }
        // Nothing that was found before changes.
        ensures grows { (added : List Finding) × (self.new.findings ≡ self.old.findings ++ added) }
    {
        self.ask_those(setup, None, most, link)
    }

    /// Asks what is left at one address, up to the first question that isn't answered. Each is one
    /// exchange.
    pub fn ask_at<L: Link>(&mut self, setup: &Setup, addr: u8, link: &mut L) -> Answered
        ensures asks { AsksRoll L.gives setup.now.devices (Some addr) MOST_FINDINGS self.old
            link.old result self.new link.new }
        ensures inquires { Inquires L.gives link.old link.new }
        ensures grows { (added : List Finding) × (self.new.findings ≡ self.old.findings ++ added) }
    {
        self.ask_those(setup, Some(addr), MOST_FINDINGS as u32, link)
    }

    /// Asks what is left at one address, or at all, at most so many questions, up to the first that
    /// isn't answered.
    fn ask_those<L: Link>(
        &mut self,
        setup: &Setup,
        whom: Option<u8>,
        most: u32,
        link: &mut L,
    ) -> Answered
        ensures { AsksRoll L.gives setup.now.devices whom most self.old link.old result self.new
            link.new }
    {
        let mut room = Room::new();
        for _ in 0..most {
            match self.first_of(whom) {
                None => return Answered::All,
                Some(index) => match self.call_at(index, setup, link, &mut room) {
                    Answered::All => {}
                    Answered::Silent => return Answered::Silent,
                },
            }
        }
        Answered::All
    }

    /// The index of the first turn at one address, or at any.
    fn first_of(&self, whom: Option<u8>) -> Option<usize>
        ensures first { result ≡ position (is_meant whom) self.now.left }
        ensures within { IfSome result (λ index. index < length self.now.left) }
    {
        self.left.iter().position(|turn| is_meant(whom, turn))
    }

    /// The turn at an index.
    fn turn_at(&self, index: usize) -> Turn
        requires { index < length self.now.left }
        ensures { slice_get self.now.left index ≡ Some result }
    {
        self.left[index]
    }

    /// Asks the question of a turn once.
    fn call_at<L: Link>(
        &mut self,
        index: usize,
        setup: &Setup,
        link: &mut L,
        room: &mut Room,
    ) -> Answered
        requires { index < length self.old.left }
        ensures { CallsAt L.gives setup.now.devices index self.old link.old result self.new link.new }
    {
        let turn = self.turn_at(index);
        match setup.device_at(turn.addr) {
            None => {
                self.move_on(index, turn, None, None);
                Answered::All
            }
            Some(device) => match call(turn.about, device, link, room) {
                Called::Silent => {
                    self.pass_over(index, turn, &device.body);
                    Answered::Silent
                }
                Called::Told(found) => {
                    self.go_on(index, turn, &device.body, found);
                    Answered::All
                }
            },
        }
    }

    /// A turn was answered, or its question is given up: the device is asked the next one when its
    /// turn comes.
    fn go_on(&mut self, index: usize, turn: Turn, body: &DeviceBody, found: Option<Finding>)
        requires { slice_get self.old.left index ≡ Some turn }
        ensures { self.new ≡ gone_on index body.now turn found self.old }
    {
        let next = next_turn(self.trusts_coins, body, turn);
        self.move_on(index, turn, next, found);
    }

    /// A turn wasn't answered.
    fn pass_over(&mut self, index: usize, turn: Turn, body: &DeviceBody)
        requires { slice_get self.old.left index ≡ Some turn }
        ensures { self.new ≡ passed_over index body.now turn self.old }
    {
        if turn.silent >= TRIES {
            self.move_on(index, turn, Some(turn), None);
        } else if turn.silent + 1 >= TRIES {
            self.give_up(index, turn, body);
        } else {
            self.move_on(index, turn, Some(once_more(turn)), None);
        }
    }

    /// A turn wasn't answered for the third time.
    fn give_up(&mut self, index: usize, turn: Turn, body: &DeviceBody)
        requires turn { slice_get self.old.left index ≡ Some turn }
        requires last { turn.silent ≡ 2 }
        ensures { self.new ≡ given_up index body.now turn turn.about self.old }
    {
        match turn.about {
            About::Serial => {
                let absent = Finding::Absent { addr: turn.addr };
                self.move_on(index, turn, Some(once_more(turn)), Some(absent));
            }
            About::Category => {
                let none_told = Finding::Kind {
                    addr: turn.addr,
                    category: None,
                };
                self.go_on(index, turn, body, Some(none_told));
            }
            About::Coin { .. } => self.move_on(index, turn, Some(once_more(turn)), None),
        }
    }

    /// The turn at an index is over: this one, if any, comes last, and this is found, if anything.
    fn move_on(&mut self, index: usize, turn: Turn, next: Option<Turn>, found: Option<Finding>)
        requires turn { slice_get self.old.left index ≡ Some turn }
        requires room { length (option_to_list found) + sum_by most_found (option_to_list next)
            ≤ most_found turn }
        ensures { self.new ≡ moved index next found self.old }
    {
        self.left.remove(index);
        push_turn(&mut self.left, next);
        push_finding(&mut self.findings, found);
    }
}

/// Adds a turn, if there is one.
fn push_turn(left: &mut ArrayVec<Turn, DEVICES>, next: Option<Turn>)
    requires { length left.old.items < DEVICES }
    ensures { left.new.items ≡ left.old.items ++ option_to_list next }
{
    if let Some(next) = next {
        left.push(next);
    }
}

/// Adds a finding, if there is one.
fn push_finding(findings: &mut ArrayVec<Finding, MOST_FINDINGS>, found: Option<Finding>)
    requires { length findings.old.items + length (option_to_list found) ≤ MOST_FINDINGS }
    ensures { findings.new.items ≡ findings.old.items ++ option_to_list found }
{
    if let Some(found) = found {
        findings.push(found);
    }
}

/// Whether a turn is one at this address, or any that doesn't rest.
fn is_meant(whom: Option<u8>, turn: &Turn) -> bool
    ensures { result ≡ is_meant whom turn.now }
{
    match whom {
        Some(addr) => turn.addr == addr,
        None => turn.silent < TRIES,
    }
}

/// The same turn after one silence more.
fn once_more(turn: Turn) -> Turn
    requires { turn.silent ≤ 2 }
    ensures { result ≡ once_more turn }
{
    Turn {
        silent: turn.silent + 1,
        ..turn
    }
}

/// The next turn of a device after this one, or none.
fn next_turn(trusts_coins: bool, body: &DeviceBody, turn: Turn) -> Option<Turn>
    ensures next { result ≡ next_turn trusts_coins body.now turn }
    ensures less { 1 + sum_by most_found (option_to_list result) ≤ most_found turn }
{
    match next_about(trusts_coins, body, turn.about) {
        None => None,
        Some(about) => Some(Turn {
            addr: turn.addr,
            about,
            silent: 0,
        }),
    }
}

/// What a device is asked about after this, or none.
fn next_about(trusts_coins: bool, body: &DeviceBody, about: About) -> Option<About>
    ensures next { result ≡ next_about trusts_coins body.now about }
    ensures less { IfSome result (λ next. 1 + found_from next 0 ≤ found_from about 3) }
{
    match about {
        About::Serial => Some(About::Category),
        About::Category => {
            if trusts_coins {
                None
            } else {
                coin_from(body, 1)
            }
        }
        About::Coin { place } => coin_from(body, place.saturating_add(1)),
    }
}

/// The question of the first coin from a place on, or none.
fn coin_from(body: &DeviceBody, from: u8) -> Option<About>
    ensures coin { result ≡ coin_from body.now from }
    ensures less { IfSome result (λ next. found_from next 0 + from ≤ 17) }
{
    Some(About::Coin {
        place: next_coin(body, from)?,
    })
}
