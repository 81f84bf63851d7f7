//! The bus: devices on one wire, and the host's end of it.
ghost use Rattle.std.specs.Prelude.{◌≡◌, ◌==◌, nat_le, ◌+◌, ◌<◌, ◌≤◌, not, ℕ, List, ◌∷◌, [], ◌++◌};
ghost use Rattle.std.specs.Prelude.{take, IfOk, IfSome, IsTrue, Option, map, is_some, length, Some};
ghost use Rattle.std.specs.Prelude.{unwrap_or};
ghost use Rattle.std.specs.List.{All, flat_map, position};
ghost use Rattle.cct_model.specs.terms.wire.TheConstants.{MOST_SENT};
ghost use Rattle.cct_model.specs.terms.device.DeviceSetup.{DeviceSetup};
ghost use Rattle.cct_model.specs.lines.command.WireFault.TheVariants.{HostHears};
ghost use Rattle.cct_model.specs.lines.entry.Entry.{Entry};
ghost use Rattle.cct_model.specs.lines.entry.Entry.TheVariants as entry;
ghost use Rattle.cct_model.specs.Bill.{holds};
ghost use Rattle.cct_model.specs.Device.{IsSound};
ghost use Rattle.cct_model.specs.terms.family.Happening.TheVariants as happening;
ghost use Rattle.cct_model.specs.Exchange.{acceptor_there, bill_there, by_address, device_at};
ghost use Rattle.cct_model.specs.Exchange.{hopper_there, known_there};
ghost use Rattle.cct_model.specs.Family.{IsPlaced};
ghost use Rattle.cct_model.specs.Honest.{was_forged};
ghost use Rattle.cct_model.specs.Hopper.{remaining};
ghost use Rattle.cct_model.specs.Legal.{OfKnowing, bill_entry, coin_entry, fall_entry, jam_entry};
ghost use Rattle.cct_model.specs.Setup.{IsSoundSetup};
ghost use Rattle.cct_model.specs.Transcript.{met};
ghost use Rattle.cct_acceptor.specs.Acceptor.{inserted};
ghost use Rattle.cct_bus.specs.Device.{Stands, setup_in, setups_in};
ghost use Rattle.cct_bus.specs.Fault.{IsShort};
ghost use Rattle.cct_bus.specs.Room.{most_answered};
ghost use Rattle.cct_model_wire.specs.Places.{places_of};

use crate::device::Device;
use crate::fault::{heard_by_devices, heard_by_host, use_up};
use crate::hearing::all_hear;
use crate::honesty::is_honest;
use crate::outcome::Outcome;
use crate::table::{ADDRESSES, place_of, places_of};
use arrayvec::ArrayVec;
use cct_acceptor::Inserted;
use cct_model::{COIN_PLACES, DeviceSetup, Happening, MOST_HEARD, MOST_SENT, Setup, WireFault};
use cct_wire::Link;
use std::alloc::{AllocError, Global};

/// Up to `DEVICES` devices on one wire: coin acceptors, bill acceptors and hoppers (ccTalk Generic
/// Specification 4, part 1). Its contracts describe it by the transcript of all that happened on
/// it, newest entry first.
#[derive(Drop)]
pub struct Bus<'s> {
    setup: &'s Setup,
    /// The devices in rising order of address.
    devices: Vec<Device<'s>>,
    /// For each address the index of the device there, or none.
    places: [Option<u8>; ADDRESSES],
    /// What is wrong in the next exchange.
    fault: WireFault,
    /// Whether the last exchange was forged.
    forged: bool,
    /// The room for one answer.
    frame: ArrayVec<u8, MOST_SENT>,
    ghost order: { setups_in devices.items ≡ by_address setup.now.devices },
    ghost table: { places ≡ places_of (setups_in devices.items) },
    ghost room: { (piece : List ℕ) → most_answered piece setup.now.devices ≤ MOST_SENT },
    ghost short: { (piece : List ℕ) → fault ≡ HostHears piece → length piece ≤ MOST_SENT },
}

impl<'s> Bus<'s> {
    ghost use Rattle.cct_bus.specs.Bus.{Befalls, StandsFor, setup_of};

    /// A bus with the devices of a setup as after power-up, on which nothing has happened. This
    /// takes all memory that the bus ever has.
    ///
    /// Fails only where there is no memory for it.
    pub fn new(alloc: Global, setup: &'s Setup) -> Result<Bus<'s>, AllocError>
        requires sound { IsSoundSetup setup.now }
        ensures setup { IfOk result (λ bus. setup_of bus ≡ setup.now) }
        ensures fresh { IfOk result (λ bus. StandsFor bus []) }
    {
        let devices = devices_of(alloc, setup.devices.as_slice())?;
        let places = places_of(&devices);
        Ok(Bus {
            setup,
            devices,
            places,
            fault: WireFault::Clear,
            forged: false,
            frame: ArrayVec::new(),
        })
    }

    /// Whether a coin acceptor is at an address.
    pub fn is_acceptor(&self, addr: u8) -> bool
        ensures { result ≡ acceptor_there (device_at (setup_of self.now).devices addr) }
    {
        match self.setup.device_at(addr) {
            Some(device) => device.body.is_acceptor(),
            None => false,
        }
    }

    /// Whether a hopper is at an address.
    pub fn is_hopper(&self, addr: u8) -> bool
        ensures { result ≡ hopper_there (device_at (setup_of self.now).devices addr) }
    {
        match self.setup.device_at(addr) {
            Some(device) => device.body.is_hopper(),
            None => false,
        }
    }

    /// Whether a bill acceptor is at an address.
    pub fn is_bills(&self, addr: u8) -> bool
        ensures { result ≡ bill_there (device_at (setup_of self.now).devices addr) }
    {
        match self.setup.device_at(addr) {
            Some(device) => device.body.is_bill(),
            None => false,
        }
    }

    /// Whether a device is at an address.
    pub fn has_device(&self, addr: u8) -> bool
        ensures { result ≡ is_some (device_at (setup_of self.now).devices addr) }
    {
        self.setup.device_at(addr).is_some()
    }

    /// Whether this can happen to the device at an address: there is one, and its family knows it.
    /// A place is not looked at.
    pub fn knows(&self, addr: u8, what: Happening) -> bool
        ensures { result ≡ known_there what (device_at (setup_of self.now).devices addr) }
    {
        match self.setup.device_at(addr) {
            Some(device) => device.body.family().knows(what),
            None => false,
        }
    }

    /// Something happens to the device at an address that its family knows.
    #[tactic(auto, using(cct_model::proofs::Knowing::is_there))]
    pub fn befall(&mut self, addr: u8, what: Happening) -> Outcome
        requires there { IsTrue (known_there what (device_at (setup_of self.old).devices addr)) }
        requires placed { IsPlaced what }
        ensures setup { setup_of self.new ≡ setup_of self.old }
        ensures stands { (past : List Entry) → StandsFor self.old past
            → Befalls (setup_of self.old) past addr what result self.new }
    {
        let index = self.index_of(addr);
        self.devices[index].befall(what)
    }

    /// A coin of a place, 1 to 16, falls into the acceptor at an address.
    #[tactic(auto, using(crate::proofs::Buses::told_as, crate::proofs::Buses::inserted_back))]
    pub fn coin(&mut self, addr: u8, place: u8) -> Inserted
        requires there { IsTrue (known_there (happening.Coin place)
            (device_at (setup_of self.old).devices addr)) }
        requires low { 1 ≤ place }
        requires high { place ≤ COIN_PLACES }
        ensures setup { setup_of self.new ≡ setup_of self.old }
        ensures stands { (past : List Entry) → StandsFor self.old past
            → OfKnowing (happening.Coin place) (device_at (setup_of self.old).devices addr)
            (λ d. (result ≡ inserted (met d past) place) × StandsFor self.new (coin_entry d past place ∷ past)) }
    {
        self.befall(addr, Happening::Coin { place }).inserted()
    }

    /// A piece that is no coin falls into the acceptor at an address.
    #[tactic(auto, using(crate::proofs::Buses::stands_by))]
    pub fn alien(&mut self, addr: u8)
        requires there { IsTrue (known_there happening.Alien
            (device_at (setup_of self.old).devices addr)) }
        ensures setup { setup_of self.new ≡ setup_of self.old }
        ensures stands { (past : List Entry) → StandsFor self.old past →
            StandsFor self.new (entry.Alien addr ∷ past) }
    {
        self.befall(addr, Happening::Alien);
    }

    /// A bill of a place, 1 to 16, is put into the bill acceptor at an address: true where it is
    /// held, and false where it is given back at once.
    #[tactic(auto, using(crate::proofs::Buses::told_as, crate::proofs::Buses::effect_back))]
    pub fn bill(&mut self, addr: u8, place: u8) -> bool
        requires there { IsTrue (known_there (happening.Bill place)
            (device_at (setup_of self.old).devices addr)) }
        requires low { 1 ≤ place }
        requires high { place ≤ COIN_PLACES }
        ensures setup { setup_of self.new ≡ setup_of self.old }
        ensures stands { (past : List Entry) → StandsFor self.old past
            → OfKnowing (happening.Bill place) (device_at (setup_of self.old).devices addr)
            (λ d. (result ≡ holds (met d past) place) × StandsFor self.new (bill_entry d past place ∷ past)) }
    {
        self.befall(addr, Happening::Bill { place }).is_done()
    }

    /// A coin falls out of the hopper at an address, and is paid where that is paying: true then,
    /// and false where it is nothing to it.
    #[tactic(auto, using(crate::proofs::Buses::told_as, crate::proofs::Buses::effect_back))]
    pub fn fall(&mut self, addr: u8) -> bool
        requires there { IsTrue (known_there happening.Fall
            (device_at (setup_of self.old).devices addr)) }
        ensures setup { setup_of self.new ≡ setup_of self.old }
        // True exactly if that hopper had coins left to pay.
        ensures stands { (past : List Entry) → StandsFor self.old past
            → OfKnowing happening.Fall (device_at (setup_of self.old).devices addr)
            (λ d. (result ≡ not (remaining d.serial (met d past) == 0))
            × StandsFor self.new (fall_entry d past ∷ past)) }
    {
        self.befall(addr, Happening::Fall).is_done()
    }

    /// A coin is stuck in the hopper at an address, and ends the payout where that is paying: true
    /// then, and false where it is nothing to it.
    #[tactic(auto, using(crate::proofs::Buses::told_as, crate::proofs::Buses::effect_back))]
    pub fn jam(&mut self, addr: u8) -> bool
        requires there { IsTrue (known_there happening.Jam
            (device_at (setup_of self.old).devices addr)) }
        ensures setup { setup_of self.new ≡ setup_of self.old }
        ensures stands { (past : List Entry) → StandsFor self.old past
            → OfKnowing happening.Jam (device_at (setup_of self.old).devices addr)
            (λ d. (result ≡ not (remaining d.serial (met d past) == 0))
            × StandsFor self.new (jam_entry d past ∷ past)) }
    {
        self.befall(addr, Happening::Jam).is_done()
    }

    /// The device at an address starts again as after power-up.
    #[tactic(auto, using(crate::proofs::Buses::stands_by))]
    pub fn reset(&mut self, addr: u8)
        requires there { IsTrue (known_there happening.Reset
            (device_at (setup_of self.old).devices addr)) }
        ensures setup { setup_of self.new ≡ setup_of self.old }
        ensures stands { (past : List Entry) → StandsFor self.old past →
            StandsFor self.new (entry.Reset addr ∷ past) }
    {
        self.befall(addr, Happening::Reset);
    }

    /// Sets what is wrong in the next exchange, in the place of what was set before.
    pub fn set_fault(&mut self, fault: WireFault)
        requires short { IsShort fault }
        ensures setup { setup_of self.new ≡ setup_of self.old }
        ensures stands { (past : List Entry) → StandsFor self.old past →
            StandsFor self.new (entry.Fault fault ∷ past) }
    {
        self.fault = fault;
    }

    /// Whether the last exchange was forged: the fault that was set for it did another damage than
    /// an honest one. False before the first exchange.
    #[inline]
    pub fn last_forged(&self) -> bool
        ensures { (past : List Entry) → StandsFor self.now past → result ≡ was_forged past }
    {
        self.forged
    }

    /// The index of the device at an address.
    fn index_of(&self, addr: u8) -> usize
        requires { IsTrue (is_some (device_at (setup_of self.now).devices addr)) }
        ensures first { position (λ device. (setup_in device).addr == addr) self.now.devices.items
            ≡ Some result }
        ensures within { result < length self.now.devices.items }
    {
        place_of(&self.places, &self.devices, addr).unwrap()
    }
}

impl Link for Bus<'_> {
    ghost use Rattle.cct_bus.specs.Bus.{Exchanges};

    ghost gives = { Exchanges };

    /// Every device hears what is sent, or what the fault that is set has reach it, and acts on it.
    /// The host hears its echo and the answers in rising order of address, or what the fault makes
    /// of that. The fault is then used up.
    fn exchange(&mut self, sent: &[u8], heard: &mut ArrayVec<u8, MOST_HEARD>) {
        heard.clear();
        heard.try_extend_from_slice(sent).unwrap();
        let piece = heard_by_devices(&self.fault, sent);
        all_hear(
            &mut self.devices,
            &self.places,
            piece,
            &mut self.frame,
            heard,
        );
        heard_by_host(&self.fault, sent, heard);
        self.forged = !is_honest(&self.fault, sent);
        use_up(&mut self.fault);
    }
}

/// The devices of setups, in rising order of address. Each is put where it belongs among those that
/// come after it.
fn devices_of<'s>(alloc: Global, setups: &'s [DeviceSetup]) -> Result<Vec<Device<'s>>, AllocError>
    requires sound { All IsSound setups.now }
    ensures order { IfOk result (λ devices. setups_in devices.items ≡ by_address setups.now) }
    ensures fresh { IfOk result (λ devices. All (Stands (λ d. [])) devices.items) }
{
    match setups {
        [] => Ok(Vec::new(alloc)),
        [first, rest @ ..] => {
            let mut devices = devices_of(alloc, rest)?;
            let device = Device::new(alloc, first)?;
            let place = rank_of(&devices, first.addr);
            devices.insert(place, device)?;
            Ok(devices)
        }
    }
}

/// How many devices stand before the first whose address isn't below this one.
fn rank_of(devices: &[Device<'_>], addr: u8) -> usize
    ensures rank { result ≡ unwrap_or (position (λ device. nat_le addr (setup_in device).addr)
        devices.now) (length devices.now) }
    ensures within { result ≤ length devices.now }
{
    place_not_below(devices, addr).unwrap_or(devices.len())
}

/// The index of the first device whose address isn't below this one, or none.
fn place_not_below(devices: &[Device<'_>], addr: u8) -> Option<usize>
    ensures first { result ≡ position (λ device. nat_le addr (setup_in device).addr) devices.now }
    ensures within { IfSome result (λ place. place < length devices.now) }
{
    devices.iter().position(|device| addr <= device.setup.addr)
}
