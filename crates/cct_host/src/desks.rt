//! The host's desks: a job at each address, the epochs of its acceptors, and the open orders of its
//! hoppers.
ghost use Rattle.std.specs.Prelude.{◌≡◌, ◌<◌, ◌≤◌, ℕ, List, [], ◌∷◌, ◌+◌, ◌-◌, ◌*◌, ◌^◌, IfSome};
ghost use Rattle.std.specs.Prelude.{OnErr, OnOk, Option, Some, None, false, is_some, length, max};
ghost use Rattle.std.specs.Prelude.{true};
ghost use Rattle.std.specs.List.{All};
ghost use Rattle.arrayvec.specs.ArrayVec.{array_vec_len};
ghost use Rattle.cct_model.specs.Exchange.{device_at};
ghost use Rattle.cct_model.specs.Carried.{IsRightly};
ghost use Rattle.cct_model.specs.Job.{address_of};
ghost use Rattle.cct_model.specs.lines.entry.Entry.{Entry};
ghost use Rattle.cct_model.specs.Legal.{due_at};
ghost use Rattle.cct_model.specs.Money as money;
ghost use Rattle.cct_model.specs.Money.{freed_by};
ghost use Rattle.cct_model.specs.Refusal.{held, last_id};
ghost use Rattle.cct_model.specs.Setup.{IsSoundSetup};
ghost use Rattle.cct_record.specs.Body.{Encodable};
ghost use Rattle.cct_jobs.specs.Jobs.{is_of_device};
ghost use Rattle.cct_host.specs.Desk.{IsFree, puts_at, reserved_over, sum_in};
ghost use Rattle.cct_host.specs.Held.{sells_only};
ghost use Rattle.cct_host.specs.Report.{kept};
ghost use Rattle.cct_host.specs.Running.{begins_id};
ghost use Rattle.cct_journal_carry.specs.Sound.{IsSoundSetup-prop};

use crate::desk::JobDesk;
use crate::exchange::tell_over;
use crate::recorded::resumed_desks;
use arrayvec::ArrayVec;
use cct_jobs::Sending;
use cct_journal_carry::coins_of;
use cct_model::{
    BROADCAST, Carry, Command, CommandNo, DEVICES, DeviceSetup, Entry, HOST, Record, Setup,
};
use cct_wire::Link;

/// The desks of a host: the jobs at all addresses, the epochs of the acceptors, and the open orders
/// of the hoppers. They represent a transcript, newest entry first, by themselves; what is at the
/// other end of the wire is any [`Link`]. They take no memory.
#[derive(Drop)]
pub struct Desks<'s> {
    setup: &'s Setup,
    /// The desk of each device, at the index of the device in the setup.
    pub(crate) devices: ArrayVec<JobDesk, DEVICES>,
    /// The desk of scans.
    pub(crate) scan: JobDesk,
    /// The desk of sales.
    pub(crate) sale: JobDesk,
    /// The greatest id of the records.
    last: u32,
    ghost sound: { IsSoundSetup setup.now } by { IsSoundSetup-prop setup.now },
    ghost many: { length devices.items ≡ length setup.now.devices },
    ghost sells: { sells_only sale.job ≡ true },
    ghost scans: { puts_at scan ≡ 0 },
}

impl<'s> Desks<'s> {
    ghost use Rattle.cct_host.specs.Desks.{Answers, FindsDesk, FreesIn, Nexts, Refuses, StandsFor};
    ghost use Rattle.cct_host.specs.Desks.{Stays, TakesIn, amount_at_desk, amount_on, desk_there};
    ghost use Rattle.cct_host.specs.Desks.{due_at_desk, due_on, held_of, puts_of, reserved_of};
    ghost use Rattle.cct_host.specs.Desks.{sending_on, setup_of, working_id};
    ghost use Rattle.cct_host.specs.Replayed.{Replays, Resumes};

    /// The desks of a host to which nothing has happened: there is no job, and no epoch runs.
    pub fn new(setup: &'s Setup) -> Self
        requires sound { IsSoundSetup setup.now }
        ensures setup { setup_of result ≡ setup.now }
        ensures replays { Replays result [] }
        ensures fresh { StandsFor result [] }
    {
        Desks {
            setup,
            devices: free_desks(setup.devices.as_slice()),
            scan: JobDesk::default(),
            sale: JobDesk::default(),
            last: 0,
        }
    }

    /// The desks of a host that starts after the records of a carry: there is no job, and there are
    /// the epochs that run and the orders that are open by the carry.
    pub fn resume(setup: &'s Setup, carry: &Carry) -> Self
        requires sound { IsSoundSetup setup.now }
        requires rightly { (many : ℕ) × IsRightly many carry.now }
        ensures setup { setup_of result ≡ setup.now }
        ensures resumes { Resumes result carry.now }
    {
        Desks {
            setup,
            devices: resumed_desks(setup.devices.as_slice(), carry),
            scan: JobDesk::default(),
            sale: JobDesk::default(),
            last: carry.last_id,
        }
    }

    /// The setup.
    pub fn setup(&self) -> &'s Setup
        ensures { result.now ≡ setup_of self.now }
    {
        self.setup
    }

    /// The operator gives a command. A refused one, for the first reason that holds, changes
    /// nothing.
    pub fn command(&mut self, command: &Command) -> Result<(), CommandNo>
        ensures setup { setup_of self.new ≡ setup_of self.old }
        ensures stays { OnErr result (Stays self.old self.new) }
        ensures takes { OnOk result (TakesIn command.now self.old self.new) }
        // The first reason that holds, whatever room and money there is: no device, another kind, a
        // job, the epoch, the least place of a mask without a value; of a hopper the open order,
        // then an id that isn't above the last one; a halt without a payout; of a sale another one
        // that is running, then its id. The last id is the greatest of the records, of the payments
        // and of the sale that runs.
        ensures answers { Answers self.old self.new command.now result }
    {
        match *command {
            Command::Scan => self.scan.scan(command, self.setup),
            Command::Vend { id, price } => {
                let last = self.last_id();
                self.sale.sell(id, price, self.setup, last)
            }
            _ => self.command_at(command.address(), command),
        }
    }

    /// The operator gives a command to the device at an address.
    fn command_at(&mut self, addr: u8, command: &Command) -> Result<(), CommandNo>
        requires of_device { is_of_device command.now ≡ true }
        requires address { address_of command.now ≡ addr }
        ensures setup { setup_of self.new ≡ setup_of self.old }
        ensures stays { OnErr result (Stays self.old self.new) }
        ensures takes { OnOk result (TakesIn command.now self.old self.new) }
        ensures answers { Answers self.old self.new command.now result }
    {
        let devices = self.setup.devices.as_slice();
        let last = self.last_before(command);
        match self.find(addr) {
            None => Err(CommandNo::NoDevice),
            Some(index) => self.devices[index].command(command, &devices[index], self.setup, last),
        }
    }

    /// Why a command is refused, if it is: the first reason that holds, whatever room there is for
    /// its records and whatever is available. This only asks: the command isn't taken.
    pub fn refusal(&self, command: &Command) -> Option<CommandNo>
        ensures { Refuses self.now command.now result }
    {
        match command {
            Command::Scan => self.scan.busy(),
            Command::Vend { id, .. } => self.sale.sale_refusal(*id, self.last_id()),
            _ => self.refusal_at(command.address(), command),
        }
    }

    /// Why a command to the device at an address is refused, if it is.
    fn refusal_at(&self, addr: u8, command: &Command) -> Option<CommandNo>
        requires of_device { is_of_device command.now ≡ true }
        requires address { address_of command.now ≡ addr }
        ensures { Refuses self.now command.now result }
    {
        let devices = self.setup.devices.as_slice();
        match self.find(addr) {
            None => Some(CommandNo::NoDevice),
            Some(index) => self.devices[index].command_refusal(
                command,
                &devices[index],
                self.last_before(command),
            ),
        }
    }

    /// Whether a device is at the address of a command.
    pub(crate) fn is_there(&self, command: &Command) -> bool
        ensures { result ≡ is_some (device_at (setup_of self.now).devices (address_of command.now)) }
    {
        self.setup.device_at(command.address()).is_some()
    }

    /// The last id: the greatest of the records, of the running payments and of the running sale, 0
    /// where there is none.
    #[tactic(auto, using(crate::proofs::Places::last_is))]
    pub(crate) fn last_id(&self) -> u32
        ensures value { result ≡ max self.now.last (working_id self.now) }
        ensures stands { (past : List Entry) → StandsFor self.now past → result
            ≡ last_id (setup_of self.now) past }
    {
        let running = JobDesk::greatest_paying(self.devices.as_slice()).max(self.sale.orders.id);
        self.last.max(running)
    }

    /// The last id, where a command to a device begins one; any other isn't judged by it.
    fn last_before(&self, command: &Command) -> u32
        requires of_device { is_of_device command.now ≡ true }
        ensures { begins_id command.now ≡ true → result ≡ max self.now.last (working_id self.now) }
    {
        match command {
            Command::Pay { .. } => self.last_id(),
            _ => 0,
        }
    }

    /// How many records are held: those that running jobs may still put, and one for each open
    /// order that no job is at work to close.
    pub fn held(&self) -> u32
        ensures value { result ≡ held_of self.now }
        ensures few { result ≤ 3 * (DEVICES + 1) }
        ensures stands { (past : List Entry) → StandsFor self.now past → result
            ≡ held (setup_of self.now) past }
    {
        JobDesk::held_in(self.devices.as_slice()) + self.sale.held()
    }

    /// A bound on how many records are held, known without a look at the desks: three for each
    /// device and for the sale.
    pub(crate) fn most_held(&self) -> u32
        ensures most { held_of self.now ≤ result }
        ensures few { result ≤ 3 * (DEVICES + 1) }
        ensures stands { (past : List Entry) → StandsFor self.now past →
            held (setup_of self.now) past ≤ result }
    {
        3 * (self.devices.len() as u32 + 1)
    }

    /// What the job at an address sends next, if it is about to send.
    pub fn sending(&self, addr: u8) -> Option<Sending>
        ensures value { result ≡ sending_on self.now addr }
    {
        match self.find(addr) {
            Some(index) => self.devices[index].sending(),
            None => {
                if addr == BROADCAST {
                    self.scan.sending()
                } else {
                    None
                }
            }
        }
    }

    /// The index of the desk of the device at an address, or none.
    pub(crate) fn find(&self, addr: u8) -> Option<usize>
        ensures { FindsDesk self.now addr result }
    {
        self.setup.devices.place_of(addr)
    }

    /// The record that the job at an address is about to put, if it is about to put one.
    pub fn due(&self, addr: u8) -> Option<Record>
        ensures value { result ≡ due_on self.now addr }
        ensures fits { IfSome result Encodable }
        ensures puts { IfSome result (λ r. 1 ≤ puts_of self.now) }
        ensures stands { (past : List Entry) → StandsFor self.now past
            → result ≡ due_at (setup_of self.now) past addr }
    {
        self.due_there(addr, self.find(addr))
    }

    /// The same, where the desk at the address is found.
    pub(crate) fn due_there(&self, addr: u8, found: Option<usize>) -> Option<Record>
        requires found { FindsDesk self.now addr found }
        ensures value { result ≡ due_on self.now addr }
        ensures fits { IfSome result Encodable }
        ensures puts { IfSome result (λ r. 1 ≤ puts_of self.now) }
        ensures stands { (past : List Entry) → StandsFor self.now past
            → result ≡ due_at (setup_of self.now) past addr }
    {
        match found {
            Some(index) => self.devices[index].due(),
            None => self.bare_due(addr),
        }
    }

    /// Whether the job at an address is about to put a record, where the desk at the address is
    /// found.
    pub(crate) fn puts_there(&self, addr: u8, found: Option<usize>) -> bool
        requires found { FindsDesk self.now addr found }
        ensures value { result ≡ is_some (due_on self.now addr) }
        ensures stands { (past : List Entry) → StandsFor self.now past
            → result ≡ is_some (due_at (setup_of self.now) past addr) }
    {
        match found {
            Some(index) => self.devices[index].puts(),
            None => self.bare_puts(addr),
        }
    }

    /// Whether the job at an address without a device is about to put a record: it is a sale.
    fn bare_puts(&self, addr: u8) -> bool
        ensures { result ≡ is_some (due_at_desk self.now.sale addr None) }
    {
        if addr == HOST {
            self.sale.puts()
        } else {
            false
        }
    }

    /// The record that the job at an address without a device is about to put, if it is about to
    /// put one: it is a sale.
    fn bare_due(&self, addr: u8) -> Option<Record>
        ensures value { result ≡ due_at_desk self.now.sale addr None }
        ensures fits { IfSome result Encodable }
        ensures puts { IfSome result (λ r. 1 ≤ puts_at self.now.sale) }
    {
        if addr == HOST { self.sale.due() } else { None }
    }

    /// What the job at an address reserves, in units of value: that of the coins of the order that
    /// a payment there is still to open, and the price of a sale that is still to be put. The
    /// record that the job is about to put, if it is about to put one, takes just that.
    pub fn reserved_at(&self, addr: u8) -> u64
        ensures value { result ≡ amount_on self.now addr }
        ensures frees { (past : List Entry) → StandsFor self.now past → IfSome (due_on self.now addr)
            (λ r. result ≡ freed_by (setup_of self.now) r) }
    {
        self.reserved_there(addr, self.find(addr))
    }

    /// The same, where the desk at the address is found.
    pub(crate) fn reserved_there(&self, addr: u8, found: Option<usize>) -> u64
        requires found { FindsDesk self.now addr found }
        ensures value { result ≡ amount_on self.now addr }
        ensures frees { (past : List Entry) → StandsFor self.now past → IfSome (due_on self.now addr)
            (λ r. result ≡ freed_by (setup_of self.now) r) }
    {
        match found {
            Some(index) => self.worth_of(addr, self.devices[index].coins_reserved()),
            None => self.bare_reserved(addr),
        }
    }

    /// What so many coins of the hopper at an address are worth. Without a coin it isn't looked
    /// for.
    fn worth_of(&self, addr: u8, coins: u8) -> u64
        ensures value { result ≡ money.coins_of (setup_of self.now) addr coins }
        ensures most { result ≤ 1000000 * coins }
    {
        if coins == 0 {
            0
        } else {
            coins_of(self.setup, addr, coins)
        }
    }

    /// What the job at an address without a device reserves: it is a sale.
    fn bare_reserved(&self, addr: u8) -> u64
        ensures { result ≡ amount_at_desk (setup_of self.now) self.now.sale addr None }
    {
        if addr == HOST {
            u64::from(self.sale.price_reserved())
        } else {
            0
        }
    }

    /// What all jobs reserve, in units of value: the sum of what [`Desks::reserved_at`] gives.
    pub(crate) fn reserved(&self) -> u64
        ensures value { result ≡ reserved_of self.now }
        ensures few { result < 2 ^ 32 * (puts_of self.now + 1) }
    {
        let devices = self.setup.devices.as_slice();
        self.reserved_over(devices, self.devices.as_slice()) + u64::from(self.sale.price_reserved())
    }

    /// What the jobs at the desks of these devices reserve. A job that reserves coins is still to
    /// put a record.
    fn reserved_over(&self, devices: &[DeviceSetup], desks: &[JobDesk]) -> u64
        requires { length desks.now ≤ DEVICES }
        ensures value { result ≡ reserved_over (setup_of self.now) devices.now desks.now }
        ensures few { result ≤ 2 ^ 32 * sum_in puts_at desks.now }
        ensures fits { result ≤ 2 ^ 32 * length desks.now }
    {
        match devices {
            [] => 0,
            [device, devices @ ..] => match desks {
                [] => 0,
                [desk, desks @ ..] => {
                    let here = self.worth_of(device.addr, desk.coins_reserved());
                    here + self.reserved_over(devices, desks)
                }
            },
        }
    }

    /// The job at an address makes one attempt of one row over a link, and adds its entries to the
    /// report: an exchange or a put, and where the job is then done its end, which frees the
    /// address. With no job the address is idle.
    pub fn next<L: Link>(&mut self, addr: u8, link: &mut L, report: &mut ArrayVec<Entry, 8>)
        requires room { array_vec_len report.old ≤ 6 }
        ensures frees { FreesIn addr self.old self.new }
        // Over any link: one attempt of one row, at most one exchange, whose bytes are those of its
        // entry, and the job stays until it ends. A put alone moves the epoch and the open order;
        // an order is closed at the hopper where it was opened.
        ensures nexts { Nexts L.gives link.old link.new addr self.old self.new report.old.items
            report.new.items }
    {
        let found = self.find(addr);
        let due = self.due_there(addr, found);
        report.push(Entry::Words);
        self.next_there(addr, found, &due, link, report);
    }

    /// The same, where the desk at the address is found, with the record that the job there is
    /// about to put. What is reported replaces the last entry of the report.
    pub(crate) fn next_there<L: Link>(
        &mut self,
        addr: u8,
        found: Option<usize>,
        due: &Option<Record>,
        link: &mut L,
        report: &mut ArrayVec<Entry, 8>,
    )
        requires last { 1 ≤ array_vec_len report.old }
        requires room { array_vec_len report.old ≤ 7 }
        requires found { FindsDesk self.old addr found }
        requires due { due.now ≡ due_on self.old addr }
        ensures found { FindsDesk self.new addr found }
        ensures frees { FreesIn addr self.old self.new }
        ensures nexts { Nexts L.gives link.old link.new addr self.old self.new
            (kept report.old.items) report.new.items }
    {
        match found {
            Some(index) => {
                let used = self.devices[index].next(addr, due, link, report);
                self.last = used.max(self.last);
            }
            None => self.bare_next(addr, due, link, report),
        }
    }

    /// The same, where the job there has no record to put.
    pub(crate) fn ask_there<L: Link>(
        &mut self,
        addr: u8,
        found: Option<usize>,
        link: &mut L,
        report: &mut ArrayVec<Entry, 8>,
    )
        requires last { 1 ≤ array_vec_len report.old }
        requires room { array_vec_len report.old ≤ 7 }
        requires found { FindsDesk self.old addr found }
        requires due { due_on self.old addr ≡ None }
        ensures found { FindsDesk self.new addr found }
        ensures frees { FreesIn addr self.old self.new }
        ensures nexts { Nexts L.gives link.old link.new addr self.old self.new
            (kept report.old.items) report.new.items }
    {
        match found {
            Some(index) => self.devices[index].ask(addr, link, report),
            None => self.bare_next(addr, &None, link, report),
        }
    }

    /// An address without a device is idle, but for a scan at the address of all devices, and a
    /// sale at the host's own.
    fn bare_next<L: Link>(
        &mut self,
        addr: u8,
        due: &Option<Record>,
        link: &mut L,
        report: &mut ArrayVec<Entry, 8>,
    )
        requires bare { device_at (setup_of self.old).devices addr ≡ None }
        requires nobody { desk_there self.old addr ≡ None }
        requires due { due.now ≡ due_on self.old addr }
        requires last { 1 ≤ array_vec_len report.old }
        requires room { array_vec_len report.old ≤ 7 }
        ensures frees { FreesIn addr self.old self.new }
        ensures nexts { Nexts L.gives link.old link.new addr self.old self.new
            (kept report.old.items) report.new.items }
    {
        if addr == BROADCAST {
            let used = self.scan.next(addr, due, link, report);
            self.last = used.max(self.last);
        } else if addr == HOST {
            let used = self.sale.next(addr, due, link, report);
            self.last = used.max(self.last);
        } else {
            tell_over(report, Entry::Idle { addr });
        }
    }
}

/// A desk for each device, at which nothing happened.
fn free_desks(devices: &[DeviceSetup]) -> ArrayVec<JobDesk, DEVICES>
    requires { length devices.now ≤ DEVICES }
    ensures many { length result.items ≡ length devices.now }
    ensures free { All IsFree result.items }
{
    let mut desks = ArrayVec::new();
    for _device in devices {
        desks.push(JobDesk::default());
    }
    desks
}
