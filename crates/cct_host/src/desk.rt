//! The host's desk for one place: a device, the address of all devices, where scans are, or that of
//! sales.
ghost use Rattle.std.specs.Prelude.{◌≡◌, ◌<◌, ◌≤◌, ◌^◌, [], Option, Some, None, true, false};
ghost use Rattle.std.specs.Prelude.{IfSome, OnErr, OnOk, is_some};
ghost use Rattle.std.specs.Option.{option_map};
ghost use Rattle.arrayvec.specs.ArrayVec.{array_vec_len};
ghost use Rattle.cct_model.specs.declared.judging.OpenOrder.{OpenOrder};
ghost use Rattle.cct_model.specs.lines.entry.Entry.{Entry};
ghost use Rattle.cct_model.specs.terms.device.Setup.{Setup};
ghost use Rattle.cct_model.specs.Exchange.{device_at};
ghost use Rattle.cct_model.specs.Job.{address_of, works};
ghost use Rattle.cct_model.specs.Refusal.{running_id};
ghost use Rattle.cct_jobs.specs.Jobs.{accepts_of, is_of_device, order_of, owed_after, is_halt};
ghost use Rattle.cct_host.specs.Held.{FitsIn, FitsIn-prop, due_by, price_by, sells_only};
ghost use Rattle.cct_host.specs.Held.{sending_by};
ghost use Rattle.cct_host.specs.Place as places;
ghost use Rattle.cct_host.specs.Report.{kept};
ghost use Rattle.cct_host.specs.Running.{is_running, orders_left};

use crate::exchange::{exchange, put, tell_over};
use crate::orders::OrderState;
use arrayvec::ArrayVec;
use cct_jobs::{Job, Need, Owed, Sending};
use cct_journal_carry::{epoch_by, id_of};
use cct_model::{Command, CommandNo, DeviceSetup, Entry, EpochState, OpenOrder, Record, Setup};
use cct_wire::Link;

/// The job at a place, and the epoch or the open order that is recorded of a device there.
#[derive(Drop)]
pub(crate) struct JobDesk {
    pub(crate) job: Option<Job>,
    pub(crate) epoch: EpochState,
    pub(crate) orders: OrderState,
    ghost runs: { is_running job ≡ true },
    ghost fits: { FitsIn job } by { FitsIn-prop job },
    ghost counts: { accepts_of epoch < 2 ^ 24 },
}

impl Default for JobDesk {
    ghost use Rattle.cct_host.specs.Desk.{IsFree};

    ghost is_default = { IsFree };

    fn default() -> Self {
        JobDesk {
            job: None,
            epoch: EpochState::Idle,
            orders: OrderState {
                order: None,
                id: 0,
                begun: None,
            },
        }
    }
}

impl JobDesk {
    ghost use Rattle.cct_host.specs.Desk.{Attempts, Commands, CommandsAbove, Frees, Takes};
    ghost use Rattle.cct_host.specs.Desk.{TakesFor, puts_at};

    /// What the job sends next, if it is about to send.
    pub(crate) fn sending(&self) -> Option<Sending>
        ensures { result ≡ sending_by self.now.job }
    {
        match &self.job {
            Some(job) => match job.needs() {
                Need::Exchange => Some(job.request()),
                _ => None,
            },
            None => None,
        }
    }

    /// A command to the device of this desk is taken, or refused for the first reason that holds; a
    /// refused one changes nothing.
    pub(crate) fn command(
        &mut self,
        command: &Command,
        device: &DeviceSetup,
        setup: &Setup,
        last: u32,
    ) -> Result<(), CommandNo>
        requires there { device_at setup.now.devices (address_of command.now) ≡ Some device.now }
        requires of_device { is_of_device command.now ≡ true }
        ensures stays { OnErr result (self.new ≡ self.old) }
        ensures takes { OnOk result (TakesFor setup.now command.now self.old self.new) }
        ensures commands { device.now.serial < 2 ^ 24
            → CommandsAbove setup.now last (places.device device.now) self.old self.new command.now result }
    {
        match command {
            Command::Halt { .. } => self.halt(command, device, setup),
            _ => self.begin(command, device, setup, last),
        }
    }

    /// A halt is taken, or refused where no payout could be stopped; a refused one changes nothing.
    fn halt(
        &mut self,
        command: &Command,
        device: &DeviceSetup,
        setup: &Setup,
    ) -> Result<(), CommandNo>
        requires there { device_at setup.now.devices (address_of command.now) ≡ Some device.now }
        requires halt { is_halt command.now ≡ true }
        ensures stays { OnErr result (self.new ≡ self.old) }
        ensures takes { OnOk result (TakesFor setup.now command.now self.old self.new) }
        ensures commands { Commands setup.now (places.device device.now) self.old self.new
            command.now result }
    {
        match self.halting_refusal(device) {
            Some(why) => Err(why),
            None => {
                match self.job.take() {
                    Some(job) => self.job = Some(job.halt()),
                    None => unreachable!(),
                }
                Ok(())
            }
        }
    }

    /// A command that begins a job is taken, or refused for the first reason that holds; a refused
    /// one changes nothing.
    fn begin(
        &mut self,
        command: &Command,
        device: &DeviceSetup,
        setup: &Setup,
        last: u32,
    ) -> Result<(), CommandNo>
        requires there { device_at setup.now.devices (address_of command.now) ≡ Some device.now }
        requires no_halt { is_halt command.now ≡ false }
        requires of_device { is_of_device command.now ≡ true }
        ensures stays { OnErr result (self.new ≡ self.old) }
        ensures takes { OnOk result (TakesFor setup.now command.now self.old self.new) }
        ensures commands { device.now.serial < 2 ^ 24
            → CommandsAbove setup.now last (places.device device.now) self.old self.new command.now result }
    {
        match self.refusal(command, device, last) {
            Some(why) => Err(why),
            None => {
                self.job = Some(Job::begin(command, setup, &self.epoch, self.order()));
                self.orders.id = id_begun(command);
                self.orders.begun = Some(*command);
                Ok(())
            }
        }
    }

    /// The open order, if there is one.
    fn order(&self) -> Option<&OpenOrder>
        ensures value { option_map (λ o. o.now) result ≡ order_of self.now.orders.order }
        ensures life { (o : OpenOrder) → option_map (λ o. o.now) result ≡ Some o → o.life < 2 ^ 24 }
    {
        match &self.orders.order {
            Some(owed) => Some(&owed.order),
            None => None,
        }
    }

    /// A scan is taken, or refused since one runs; a refused one changes nothing.
    pub(crate) fn scan(&mut self, command: &Command, setup: &Setup) -> Result<(), CommandNo>
        requires { command.now ≡ Command.Scan }
        ensures stays { OnErr result (self.new ≡ self.old) }
        ensures puts { OnOk result (puts_at self.new ≡ 0) }
        ensures commands { Commands setup.now places.scans self.old self.new command.now result }
    {
        match self.busy() {
            Some(why) => Err(why),
            None => {
                self.job = Some(Job::begin(command, setup, &self.epoch, None));
                self.orders.begun = Some(*command);
                Ok(())
            }
        }
    }

    /// A sale is taken, or refused since one runs or its id isn't above the last one; a refused one
    /// changes nothing.
    pub(crate) fn sell(
        &mut self,
        id: u32,
        price: u32,
        setup: &Setup,
        last: u32,
    ) -> Result<(), CommandNo>
        ensures stays { OnErr result (self.new ≡ self.old) }
        ensures takes { OnOk result (Takes 1 1 price_by price self.old self.new) }
        ensures sells { sells_only self.old.job ≡ true → sells_only self.new.job ≡ true }
        ensures commands { CommandsAbove setup.now last places.sales self.old self.new
            (Command.Vend id price) result }
    {
        match self.sale_refusal(id, last) {
            Some(why) => Err(why),
            None => {
                let command = Command::Vend { id, price };
                self.job = Some(Job::begin(&command, setup, &self.epoch, None));
                self.orders.id = id;
                self.orders.begun = Some(command);
                Ok(())
            }
        }
    }

    /// The job makes one attempt of one row over a link, with the record that it is about to put,
    /// if there is one; with no job the address is idle. What it reports replaces the last entry of
    /// the report. It gives the id that its put used, or 0.
    #[tactic(auto, using(crate::proofs::Counts::counted_by))]
    pub(crate) fn next<L: Link>(
        &mut self,
        addr: u8,
        due: &Option<Record>,
        link: &mut L,
        report: &mut ArrayVec<Entry, 8>,
    ) -> u32
        requires due { due.now ≡ due_by self.old.job }
        requires last { 1 ≤ array_vec_len report.old }
        requires room { array_vec_len report.old ≤ 7 }
        ensures attempts { Attempts L.gives link.old link.new addr self.old.job self.old.epoch self.old.orders
            self.new result (kept report.old.items) report.new.items }
        ensures frees { Frees self.old.job self.new }
    {
        match due {
            None => {
                self.ask(addr, link, report);
                0
            }
            Some(entry) => {
                let id = id_of(entry);
                self.epoch = epoch_by(entry, self.epoch);
                self.orders.order = self.order_after();
                put(&mut self.job, entry, addr, report);
                leave_orders(&self.job, &mut self.orders);
                id
            }
        }
    }

    /// The job, which has no record to put, makes one exchange over a link; with no job the address
    /// is idle.
    pub(crate) fn ask<L: Link>(&mut self, addr: u8, link: &mut L, report: &mut ArrayVec<Entry, 8>)
        requires due { due_by self.old.job ≡ None }
        requires last { 1 ≤ array_vec_len report.old }
        requires room { array_vec_len report.old ≤ 7 }
        ensures attempts { Attempts L.gives link.old link.new addr self.old.job self.old.epoch self.old.orders
            self.new 0 (kept report.old.items) report.new.items }
        ensures frees { Frees self.old.job self.new }
    {
        match self.job {
            None => tell_over(report, Entry::Idle { addr }),
            Some(_) => {
                exchange(&mut self.job, addr, link, report);
                leave_orders(&self.job, &mut self.orders);
            }
        }
    }

    /// Whether the job is about to put a record.
    pub(crate) fn puts(&self) -> bool
        ensures { result ≡ is_some (due_by self.now.job) }
    {
        match &self.job {
            Some(job) => job.puts(),
            None => false,
        }
    }

    /// The order that is open after the job's record was put.
    fn order_after(&self) -> Option<Owed>
        ensures { IfSome self.now.job (λ job. result ≡ owed_after job self.now.orders.order) }
    {
        match &self.job {
            Some(job) => job.order_after(self.orders.order),
            None => self.orders.order,
        }
    }
}

/// Without a job nothing is recorded of one any more.
fn leave_orders(job: &Option<Job>, orders: &mut OrderState)
    ensures { orders.new ≡ orders_left job.now orders.old }
{
    if job.is_none() {
        orders.id = 0;
        orders.begun = None;
    }
}

/// The id of the payment or the sale that a command begins, or 0.
#[tactic(auto, using(crate::proofs::Keeps::no_id_told))]
fn id_begun(command: &Command) -> u32
    ensures { (d : DeviceSetup) → is_of_device command.now ≡ true → result
        ≡ running_id d (works command.now []) }
{
    match *command {
        Command::Pay { id, .. } => id,
        Command::Vend { id, .. } => id,
        _ => 0,
    }
}
