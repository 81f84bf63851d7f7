//! How a host stands: the job of each address, what is recorded of each device, and how many
//! records its journal has and still takes.
ghost use Rattle.std.specs.Prelude.{◌≡◌, ℕ, List, is_some, length, true};
ghost use Rattle.cct_model.specs.lines.entry.Entry.{Entry};
ghost use Rattle.cct_model.specs.Exchange.{device_at};
ghost use Rattle.cct_model.specs.Following.{Known};
ghost use Rattle.cct_model.specs.Records.{records};
ghost use Rattle.cct_model.specs.Refusal.{last_id};
ghost use Rattle.cct_jobs.specs.Jobs.{order_of};
ghost use Rattle.cct_journal.specs.Journal as journals;
ghost use Rattle.cct_host.specs.Desks.{StandsFor};
ghost use Rattle.cct_host.specs.Desks as all_desks;
ghost use Rattle.cct_host.specs.Replayed.{BeginsWith};
ghost use Rattle.cct_host.specs.Standing.{bare_command, command_at, epoch_at, order_at, room_after};

use crate::{Desks, Host};
use cct_disk::Disk;
use cct_jobs::Owed;
use cct_model::{BROADCAST, Command, EpochState, HOST, OpenOrder, Setup};

impl Desks<'_> {
    /// The command whose job is at an address, if one is. A halt is none: the job stays that of the
    /// payment or the settlement.
    pub fn begun_at(&self, addr: u8) -> Option<Command>
        ensures { (past : List Entry) → StandsFor self.now past
            → result ≡ command_at (all_desks.setup_of self.now) past addr }
    {
        match self.find(addr) {
            Some(index) => self.devices[index].orders.begun,
            None => self.bare_command(addr),
        }
    }

    /// The command whose job is at an address without a device, if one is.
    fn bare_command(&self, addr: u8) -> Option<Command>
        ensures { (past : List Entry) → StandsFor self.now past → result ≡ bare_command past addr }
    {
        if addr == BROADCAST {
            self.scan.orders.begun
        } else if addr == HOST {
            self.sale.orders.begun
        } else {
            None
        }
    }

    /// The epoch of the acceptor at an address, by its records. At any other address none runs.
    pub fn epoch_at(&self, addr: u8) -> EpochState
        ensures stands { (past : List Entry) → StandsFor self.now past
            → result ≡ epoch_at (all_desks.setup_of self.now) past addr }
        ensures begins { (k : Known) (last : ℕ) → BeginsWith self.now k last
            → is_some (device_at (all_desks.setup_of self.now).devices addr) ≡ true → result ≡ k.epoch_at addr }
    {
        match self.find(addr) {
            Some(index) => self.devices[index].epoch,
            None => EpochState::Idle,
        }
    }

    /// The open order of the hopper at an address, by its records. At any other address none is
    /// open.
    pub fn order_at(&self, addr: u8) -> Option<OpenOrder>
        ensures stands { (past : List Entry) → StandsFor self.now past
            → result ≡ order_at (all_desks.setup_of self.now) past addr }
        ensures begins { (k : Known) (last : ℕ) → BeginsWith self.now k last
            → is_some (device_at (all_desks.setup_of self.now).devices addr) ≡ true → result ≡ k.order_at addr }
    {
        match self.find(addr) {
            Some(index) => order_in(&self.devices[index].orders.order),
            None => None,
        }
    }
}

/// The order that is open where one is owed.
fn order_in(owed: &Option<Owed>) -> Option<OpenOrder>
    ensures { result ≡ order_of owed.now }
{
    owed.as_ref().map(|owed| owed.order)
}

impl<'s, D: Disk> Host<'s, D> {
    ghost use Rattle.cct_host.specs.Host.{Keeps, capacity_in, journal_of, setup_of};
    ghost use Rattle.cct_host.specs.Starting.{BeginsAs};

    /// The setup.
    pub fn setup(&self) -> &'s Setup
        ensures { result.now ≡ setup_of self.now }
    {
        self.desks.setup()
    }

    /// The command whose job is at an address, if one is: a scan is at address 0, and a sale at
    /// address 1. A halt is none: the job stays that of the payment or the settlement.
    pub fn command_at(&self, addr: u8) -> Option<Command>
        // Also after a put that failed.
        ensures { (past : List Entry) → Keeps self.now past → result
            ≡ command_at (setup_of self.now) past addr }
    {
        self.desks.begun_at(addr)
    }

    /// The epoch that is recorded of the acceptor at an address, with its inhibit mask and what was
    /// counted at its last record. At any other address none runs.
    pub fn epoch_at(&self, addr: u8) -> EpochState
        // Also after a put that failed.
        ensures stands { (past : List Entry) → Keeps self.now past → result
            ≡ epoch_at (setup_of self.now) past addr }
        // At the address of a device, where no job has begun since the start.
        ensures begins { (k : Known) (last : ℕ) → BeginsAs self.now k last
            → is_some (device_at (setup_of self.now).devices addr) ≡ true → result ≡ k.epoch_at addr }
    {
        self.desks.epoch_at(addr)
    }

    /// The order that is open at the hopper at an address. At any other address none is open.
    pub fn order_at(&self, addr: u8) -> Option<OpenOrder>
        // Also after a put that failed.
        ensures stands { (past : List Entry) → Keeps self.now past → result
            ≡ order_at (setup_of self.now) past addr }
        // At the address of a device, where no job has begun since the start.
        ensures begins { (k : Known) (last : ℕ) → BeginsAs self.now k last
            → is_some (device_at (setup_of self.now).devices addr) ≡ true → result ≡ k.order_at addr }
    {
        self.desks.order_at(addr)
    }

    /// The greatest id that was used: of the payments and sales in the records, and of those that
    /// are running; 0 where there is none. A new id has to be above it (`docs/SCRIPT.md`).
    pub fn last_id(&self) -> u32
        // Also after a put that failed.
        ensures { (past : List Entry) → Keeps self.now past → result
            ≡ last_id (setup_of self.now) past }
    {
        self.desks.last_id()
    }

    /// How many records were put.
    pub fn records(&self) -> u32
        ensures value { result ≡ journals.used_of (journal_of self.now) }
        // Also after a put that failed.
        ensures stands { (past : List Entry) → Keeps self.now past → result
            ≡ length (records past) }
    {
        self.journal.used()
    }

    /// How many records the journal takes beside those that were put and those that are held for
    /// running jobs and open orders, 0 at least.
    pub fn room(&self) -> u32
        // Also after a put that failed.
        ensures { (past : List Entry) → Keeps self.now past
            → result ≡ room_after (capacity_in self.now) (setup_of self.now) past }
    {
        let free = self.journal.capacity() - self.journal.used();
        free.saturating_sub(self.desks.held())
    }
}
