//! The devices of a machine, as the setup lines of a script give them.
ghost use Rattle.std.specs.Prelude.{◌≡◌, ◌<◌, ◌≤◌, ◌==◌, List, [], ◌∷◌, ◌++◌, length, map};
ghost use Rattle.std.specs.Prelude.{if◌then◌else◌, IfSome};
ghost use Rattle.std.specs.List.{position};
ghost use Rattle.std.specs.Option.{option_map};
ghost use Rattle.cct_model_wire.specs.Device.{is_acceptor, is_bill, is_hopper, is_taker, value_at};
ghost use Rattle.cct_model_wire.specs.Exchange.{device_at};
ghost use Rattle.cct_model_wire.specs.Family.{family_of};

use crate::{COIN_PLACES, CheckKind, Family, Name};
use arrayvec::ArrayVec;
use std::alloc::AllocError;
use std::marker::Model;

/// The texts by which a device names itself: 1 to 24 printing characters each.
#[derive(Clone, Default, Drop, PartialEq, Eq)]
pub struct Texts {
    pub maker: Name,
    pub product: Name,
    pub software: Name,
    pub build: Name,
}

/// What kind of device it is, with what its kind needs.
#[derive(Clone, Copy, PartialEq, Eq)]
pub enum DeviceBody {
    /// A coin acceptor. Its accept counter starts at `accepts`, below 2^24. For each coin place,
    /// place 1 first, it has the value of its coin, 1 to 1,000,000 or 0 for none, and the six
    /// characters that identify it.
    Acceptor {
        accepts: u32,
        values: [u32; COIN_PLACES],
        ids: [[u8; 6]; COIN_PLACES],
    },
    /// A hopper. It has paid `life` coins before, modulo 2^24, and each of its coins has this
    /// value, 1 to 1,000,000.
    Hopper {
        life: u32,
        value: u32,
    },
    /// A bill acceptor. Its accept counter starts at `accepts`, below 2^24. For each bill place,
    /// place 1 first, it has the value of its bill, 1 to 1,000,000 or 0 for none, and the six
    /// characters that identify it.
    Bill {
        accepts: u32,
        values: [u32; COIN_PLACES],
        ids: [[u8; 6]; COIN_PLACES],
    },
}

impl Default for DeviceBody {
    ghost use Rattle.cct_model_wire.specs.declared.device.DeviceBody.TheVariants.{Hopper};

    ghost is_default = { λ body. body ≡ Hopper 0 0 };

    fn default() -> Self {
        DeviceBody::Hopper { life: 0, value: 0 }
    }
}

impl DeviceBody {
    /// Its family.
    pub fn family(&self) -> Family
        ensures { result ≡ family_of self.now }
    {
        match self {
            DeviceBody::Acceptor { .. } => Family::Acceptor,
            DeviceBody::Hopper { .. } => Family::Hopper,
            DeviceBody::Bill { .. } => Family::Bill,
        }
    }

    /// Whether it is a coin acceptor.
    pub fn is_acceptor(&self) -> bool
        ensures { result ≡ is_acceptor self.now }
    {
        self.family().is_acceptor()
    }

    /// Whether it is a hopper.
    pub fn is_hopper(&self) -> bool
        ensures { result ≡ is_hopper self.now }
    {
        self.family().is_hopper()
    }

    /// Whether it is a bill acceptor.
    pub fn is_bill(&self) -> bool
        ensures { result ≡ is_bill self.now }
    {
        self.family().is_bill()
    }

    /// Whether it takes money in: a coin acceptor or a bill acceptor. Such a device has epochs.
    pub fn takes_money(&self) -> bool
        ensures { result ≡ is_taker self.now }
    {
        self.family().takes_money()
    }

    /// The value of the coin or the bill of a place, 1 to 16, or 0 where it has none; a hopper has
    /// no place.
    pub fn value_at(&self, place: u8) -> u32
        requires low { 1 ≤ place }
        requires high { place ≤ COIN_PLACES }
        ensures { result ≡ value_at self.now place }
    {
        match self {
            DeviceBody::Acceptor { values, .. } | DeviceBody::Bill { values, .. } => {
                values[place as usize - 1]
            }
            DeviceBody::Hopper { .. } => 0,
        }
    }
}

/// One device of a setup: its address, 2 to 255, its check, its serial number, below 2^24, and its
/// texts, which a script says by a line of their own or not at all.
#[derive(Clone, Default, Drop, PartialEq, Eq)]
pub struct DeviceSetup {
    pub addr: u8,
    pub kind: CheckKind,
    pub serial: u32,
    pub texts: Texts,
    /// Whether a line of the script said the texts.
    pub named: bool,
    pub body: DeviceBody,
}

impl DeviceSetup {
    /// The same device once more. It takes no memory, so it can't fail as `clone` could.
    pub fn copied(&self) -> DeviceSetup
        ensures { result ≡ self.now }
    {
        let copy: Result<DeviceSetup, AllocError> = self.clone();
        copy.unwrap()
    }
}

/// The most devices of a setup.
pub const DEVICES: usize = 32;

/// How many addresses there are.
const ADDRESSES: usize = 256;

/// The devices of a setup, in the order of the script.
#[derive(Clone, Drop, PartialEq, Eq)]
pub struct Devices {
    devices: ArrayVec<DeviceSetup, DEVICES>,
    /// The place of the first device at each address.
    places: [Option<u8>; ADDRESSES],
}

impl Model for Devices {
    ghost use Rattle.std.specs.Prelude.{◌≡◌, ◌≤◌, List, length};
    ghost use Rattle.std.proofs.Common.{sym};
    ghost use Rattle.cct_model_wire.specs.declared.device.DeviceSetup.{DeviceSetup};
    ghost use Rattle.cct_model_wire.specs.declared.device.TheConstants.{DEVICES};
    ghost use Rattle.cct_model_wire.specs.Places.{places_of};

    ghost Value = { List DeviceSetup };

    ghost view = { λ d. d.devices.items };

    ghost invariant = { λ d. (length d.devices.items ≤ DEVICES) × (d.places ≡ places_of d.devices.items) };

    ghost inverse = { λ xs. record { devices = record { items = xs }; places = places_of xs } };

    ghost inverse_ok = { λ d h i. record { devices = d.devices; places = sym h.1 i } };
}

impl Default for Devices {
    ghost is_default = { λ devices. devices ≡ [] };

    fn default() -> Self {
        Devices::new()
    }
}

impl Devices {
    /// No device.
    pub fn new() -> Self
        ensures { result ≡ [] }
    {
        Devices {
            devices: ArrayVec::new(),
            places: [None; ADDRESSES],
        }
    }

    /// Adds a device after the others.
    pub fn push(&mut self, device: DeviceSetup)
        requires { length self.old < DEVICES }
        ensures { self.new ≡ self.old ++ device ∷ [] }
    {
        let place = self.devices.len() as u8;
        let addr = device.addr as usize;
        self.places[addr] = self.places[addr].or(Some(place));
        self.devices.push(device);
    }

    /// Puts a device in the place of the one at its address.
    pub fn replace(&mut self, device: &DeviceSetup)
        // Those at that address change, and no others.
        ensures { self.new ≡ map (λ d. if d.addr == device.now.addr then device.now else d) self.old }
    {
        replace_in(self.devices.as_mut_slice(), device);
    }

    /// Removes every device.
    pub fn clear(&mut self)
        ensures { self.new ≡ [] }
    {
        *self = Devices::new();
    }

    /// The place of the first device at an address, or none.
    #[inline]
    pub fn place_of(&self, addr: u8) -> Option<usize>
        ensures first { result ≡ position (λ d. d.addr == addr) self.now }
        ensures within { IfSome result (λ place. place < length self.now) }
    {
        match self.places[addr as usize] {
            Some(place) => Some(usize::from(place)),
            None => None,
        }
    }

    /// The devices in the order of the script.
    pub fn as_slice(&self) -> &[DeviceSetup]
        ensures value { result.now ≡ self.now }
        ensures fits { length result.now ≤ DEVICES }
    {
        self.devices.as_slice()
    }
}

/// Puts a device in the place of each at its address.
fn replace_in(devices: &mut [DeviceSetup], device: &DeviceSetup)
    ensures { devices.new ≡ map (λ d. if d.addr == device.now.addr then device.now else d)
        devices.old }
{
    for place in devices.iter_mut() {
        if place.addr == device.addr {
            *place = device.copied();
        }
    }
}

/// The machine that a script plays on.
#[derive(Clone, Default, Drop, PartialEq, Eq)]
pub struct Setup {
    pub devices: Devices,
}

impl Setup {
    /// The device at an address, or none.
    pub fn device_at(&self, addr: u8) -> Option<&DeviceSetup>
        ensures { option_map (λ d. d.now) result ≡ device_at self.now.devices addr }
    {
        let place = self.devices.place_of(addr)?;
        Some(&self.devices.as_slice()[place])
    }
}
