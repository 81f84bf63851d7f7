//! The monitor.
ghost use Rattle.std.specs.Prelude.{◌≡◌, ◌+◌, ◌-◌, ◌^◌, ◌<◌, ◌==◌, ◌||◌, ℕ, true, false, List, []};
ghost use Rattle.std.specs.Prelude.{◌∷◌, map, slice_get};
ghost use Rattle.cct_monitor.specs.Places.{are_apart};
ghost use Rattle.cct_audit_taps.specs.Taps.{tap_of};
ghost use Rattle.cct_monitor.specs.Watches.{Came, Watch, accounts, finally_of_all, made_tap};
ghost use Rattle.cct_monitor.specs.Watches.{made_watch, said_of_all};

use crate::places::{WATCHED, finish_devices, has_device, heard_at, put_device, tap_devices};
use crate::watched::{Family, Heard, Watched};
use arrayvec::ArrayVec;
use cct_audit_taps::Said;
use cct_model::CheckKind;

/// A monitor of a wire, whoever is its host. It takes no memory, and keeps as much after each tap
/// as before it.
///
/// A contract shows it by all that came to it, newest first: the devices that it was to watch, and
/// the taps. A device is watched from the next tap on.
#[derive(Drop)]
pub struct Monitor {
    taps: u32,
    devices: ArrayVec<Watched, WATCHED>,
    ghost apart: { are_apart devices.items ≡ true },
}

impl Monitor {
    ghost use Rattle.cct_monitor.specs.Monitor.{StandsFor, heard_of, is_watched, tap_count};
    ghost use Rattle.cct_monitor.specs.Monitor.{watch_count};

    /// A monitor that watches no device.
    pub fn new() -> Monitor
        ensures stands { StandsFor result [] }
        ensures taps { tap_count result ≡ 0 }
        ensures devices { watch_count result ≡ 0 }
        ensures addresses { (addr : ℕ) → is_watched result addr ≡ false }
    {
        Monitor {
            taps: 0,
            devices: ArrayVec::new(),
        }
    }

    /// Watches the device at an address from the next tap on, by the check of its messages and its
    /// family. There must be room, and the address must be new.
    pub fn watch(&mut self, addr: u8, kind: CheckKind, family: Family)
        requires room { watch_count self.old < WATCHED }
        requires new_address { is_watched self.old addr ≡ false }
        ensures taps { tap_count self.new ≡ tap_count self.old }
        ensures devices { watch_count self.new ≡ watch_count self.old + 1 }
        ensures addresses { (other : ℕ) → is_watched self.new other
            ≡ ((addr == other) || is_watched self.old other) }
        ensures stands { (past : List Came) → StandsFor self.old past
            → StandsFor self.new (made_watch (record { addr = addr; kind = kind; family = family }) ∷ past) }
    {
        put_device(&mut self.devices, Watched::new(addr, kind, family));
    }

    /// How many taps came to it.
    pub fn taps(&self) -> u32
        ensures { result ≡ tap_count self.now }
    {
        self.taps
    }

    /// How many devices it watches, 32 at most.
    pub fn watched(&self) -> usize
        ensures { result ≡ watch_count self.now }
    {
        self.devices.len()
    }

    /// What is reported of the watched device of a place, from 0 and in rising order of address:
    /// how many taps were for it. None where there is none.
    pub fn heard(&self, place: usize) -> Option<Heard>
        ensures { (past : List Came) → StandsFor self.now past → result
            ≡ slice_get (map heard_of (accounts past)) place }
    {
        heard_at(self.devices.as_slice(), place)
    }

    /// Whether it watches a device at an address.
    pub fn is_watched(&self, addr: u8) -> bool
        ensures { result ≡ is_watched self.now addr }
    {
        has_device(self.devices.as_slice(), addr)
    }

    /// Takes a tap: what was sent, and all that was then heard, the echo first. What it makes said
    /// takes the place of what the report holds; that is at most two, the older span first. Taps
    /// are numbered from 1, whether they are for a watched device or not.
    pub fn tap(&mut self, sent: &[u8], heard: &[u8], report: &mut ArrayVec<Said, 4>)
        requires few { tap_count self.old < 2 ^ 32 - 1 }
        ensures taps { tap_count self.new ≡ tap_count self.old + 1 }
        ensures devices { watch_count self.new ≡ watch_count self.old }
        ensures addresses { (addr : ℕ) → is_watched self.new addr ≡ is_watched self.old addr }
        ensures stands { (past : List Came) → StandsFor self.old past
            → StandsFor self.new (made_tap (tap_of sent.now heard.now) ∷ past) }
        ensures says { (past : List Came) → StandsFor self.old past
            → report.new.items ≡ said_of_all (tap_of sent.now heard.now) past }
    {
        report.clear();
        self.taps += 1;
        tap_devices(&mut self.devices, self.taps, sent, heard, report);
    }

    /// Ends the taps: what is then said takes the place of what the report holds. Of each acceptor
    /// whose last span still waits, that span is in doubt, in rising order of address.
    pub fn finish(&mut self, report: &mut ArrayVec<Said, WATCHED>)
        ensures same { self.new ≡ self.old }
        ensures says { (past : List Came) → StandsFor self.old past → report.new.items
            ≡ finally_of_all past }
    {
        report.clear();
        finish_devices(self.devices.as_slice(), report);
    }
}
