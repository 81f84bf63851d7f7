//! The machine of a world: the host, the bus with its devices, and the operator's desk.
ghost use Rattle.std.specs.Prelude.{◌∷◌, ◌++◌, ◌≡◌, ◌<◌, [], IfErr, IsTrue, List, OnOk, Some};
ghost use Rattle.std.specs.Prelude.{false, is_some, length, reverse, true};
ghost use Rattle.cct_model.specs.lines.command.Step.TheVariants as step;
ghost use Rattle.cct_model.specs.Exchange.{device_at, known_there};
ghost use Rattle.cct_model.specs.Family.{IsPlaced};
ghost use Rattle.cct_model.specs.lines.entry.Entry.{Entry};
ghost use Rattle.cct_model.specs.lines.entry.Entry.TheVariants as entry;
ghost use Rattle.cct_model.specs.Legal.{due_at, is_played, step_of};
ghost use Rattle.cct_model.specs.Money.{totals};
ghost use Rattle.cct_model.specs.Script.{IsCrash, IsFault, IsInRange, is_known};
ghost use Rattle.cct_bus.specs.Bus as wires;
ghost use Rattle.cct_host.specs.Host as hosts;
ghost use Rattle.cct_host.specs.Restarting.{restart_news};
ghost use Rattle.cct_world.specs.Forged.{TellsForged, asked_at, forged_told};
ghost use Rattle.cct_host_change.specs.Serving.{change_told};
ghost use Rattle.cct_world.specs.Step.{crashes_of, entries_told, entry_told, is_next, is_of_desk};
ghost use Rattle.cct_model.specs.Change.{desk_after};
ghost use Rattle.arrayvec.specs.ArrayVec.{array_vec_len};
ghost use Rattle.std.specs.Option.{option_map};

use crate::WorldNo;
use arrayvec::ArrayVec;
use cct_bus::{Bus, Outcome};
use cct_disk::Disk;
use cct_edge::Failed;
use cct_host::{Crashed, Host};
use cct_host_change::{Desk, Serving, Shortfall};
use cct_model::{
    Coin, Command, CommandNo, CrashAt, Entry, Happening, Payment, Step, Totals, WireFault,
};

/// The host, the bus and the desk of a world. They stand in a box, so that a world that is moved
/// costs a pointer.
#[derive(Drop)]
pub(crate) struct Machine<'s, D: Disk> {
    pub host: Host<'s, D>,
    pub bus: Bus<'s>,
    pub desk: Desk,
    ghost same: { wires.setup_of bus ≡ hosts.setup_of host },
}

impl<D: Disk> Machine<'_, D> {
    ghost use Rattle.cct_world.specs.Machine.{PlayedTo, Pays, PlaysUndisturbed, StandsFor};
    ghost use Rattle.cct_world.specs.Machine.{StepPlayed, StepUnplayed, desk_of, disk_of};
    ghost use Rattle.cct_world.specs.Machine.{has_failed, setup_of};

    #[inline(always)]
    pub fn knows(&self, step: &Step) -> bool
        ensures { result ≡ is_known (setup_of self.now) step.now }
    {
        match step {
            Step::Coin { addr, place } => self.bus.knows(*addr, Happening::Coin { place: *place }),
            Step::Alien { addr } => self.bus.knows(*addr, Happening::Alien),
            Step::Bill { addr, place } => self.bus.knows(*addr, Happening::Bill { place: *place }),
            Step::Fall { addr } => self.bus.knows(*addr, Happening::Fall),
            Step::Jam { addr } => self.bus.knows(*addr, Happening::Jam),
            Step::Reset { addr } => self.bus.knows(*addr, Happening::Reset),
            Step::Fault(_) => true,
            Step::Next { .. } => true,
            Step::Command(_) => true,
            Step::Crash { .. } => true,
            Step::Balance => true,
            Step::Stock { addr, .. } => self.bus.is_hopper(*addr),
            Step::Change { .. } => true,
            Step::Serve => true,
            Step::End => true,
        }
    }

    #[inline(always)]
    pub fn step(&mut self, step: &Step, report: &mut ArrayVec<Entry, 8>) -> Result<(), WorldNo>
        requires known { IsTrue (is_known (setup_of self.old) step.now) }
        requires in_range { IsInRange step.now }
        requires played { IsTrue (is_played step.now) }
        requires whole { has_failed self.old ≡ false }
        ensures setup { setup_of self.new ≡ setup_of self.old }
        ensures played { OnOk result (StepPlayed self.old self.new step.now report.new.items) }
        ensures unplayed { IfErr result (λ why.
            StepUnplayed self.old (disk_of self.new) why step.now report.new.items) }
    {
        keep_one(report);
        match step {
            Step::Stock { addr, count } => self.stock(*addr, *count, report),
            Step::Change { first, amount } => self.change(*first, *amount, report),
            Step::Serve => self.serve(report),
            _ => {
                self.step_beside_desk(step, report)?;
                self.desk.see(report.as_slice());
            }
        }
        Ok(())
    }

    /// Plays a step that is none of the desk's, which stays as it is.
    #[inline(always)]
    fn step_beside_desk(
        &mut self,
        step: &Step,
        report: &mut ArrayVec<Entry, 8>,
    ) -> Result<(), WorldNo>
        requires known { IsTrue (is_known (setup_of self.old) step.now) }
        requires in_range { IsInRange step.now }
        requires played { IsTrue (is_played step.now) }
        requires beside { is_of_desk step.now ≡ false }
        requires whole { has_failed self.old ≡ false }
        requires one { array_vec_len report.old ≡ 1 }
        ensures setup { setup_of self.new ≡ setup_of self.old }
        ensures played { OnOk result (PlayedTo self.old self.new step.now report.new.items
            (desk_of self.old)) }
        ensures unplayed { IfErr result (λ why.
            StepUnplayed self.old (disk_of self.new) why step.now report.new.items) }
    {
        match step {
            Step::Next { addr } => self.next(*addr, report),
            Step::Crash { at, choice } => self.crash(*at, *choice, report),
            _ => {
                self.undisturbed_step(step, report);
                Ok(())
            }
        }
    }

    /// Plays a step that makes no call of the disk, and is none of the desk's: any other but a
    /// `next` and a power cut.
    fn undisturbed_step(&mut self, step: &Step, report: &mut ArrayVec<Entry, 8>)
        requires known { IsTrue (is_known (setup_of self.old) step.now) }
        requires in_range { IsInRange step.now }
        requires played { IsTrue (is_played step.now) }
        requires no_next { is_next step.now ≡ false }
        requires no_crash { crashes_of step.now ≡ 0 }
        requires beside { is_of_desk step.now ≡ false }
        requires one { array_vec_len report.old ≡ 1 }
        ensures { PlaysUndisturbed self.old self.new step.now report.new.items (desk_of self.old) }
    {
        match step {
            Step::Coin { addr, place } => {
                self.befall(*addr, Happening::Coin { place: *place }, report)
            }
            Step::Alien { addr } => self.befall(*addr, Happening::Alien, report),
            Step::Bill { addr, place } => {
                self.befall(*addr, Happening::Bill { place: *place }, report)
            }
            Step::Fall { addr } => self.befall(*addr, Happening::Fall, report),
            Step::Jam { addr } => self.befall(*addr, Happening::Jam, report),
            Step::Reset { addr } => self.befall(*addr, Happening::Reset, report),
            Step::Fault(fault) => self.fault(fault, report),
            Step::Command(command) => self.command(command, report),
            Step::Balance => self.balance(report),
            Step::Next { .. } => unreachable!(),
            Step::Crash { .. } => unreachable!(),
            Step::Stock { .. } => unreachable!(),
            Step::Change { .. } => unreachable!(),
            Step::Serve => unreachable!(),
            Step::End => unreachable!(),
        }
    }

    /// The power is cut, in a put of the job at an address or in none, and the host starts again
    /// over what its disk then keeps.
    fn crash(
        &mut self,
        at: Option<CrashAt>,
        choice: u64,
        report: &mut ArrayVec<Entry, 8>,
    ) -> Result<(), WorldNo>
        requires few { IsCrash at }
        requires whole { has_failed self.old ≡ false }
        requires one { array_vec_len report.old ≡ 1 }
        ensures setup { setup_of self.new ≡ setup_of self.old }
        ensures played { OnOk result (PlayedTo self.old self.new (step.Crash at choice) report.new.items
            (desk_of self.old)) }
        ensures unplayed { IfErr result (λ why.
            StepUnplayed self.old (disk_of self.new) why (step.Crash at choice) report.new.items) }
    {
        match self.host.restart(at, choice) {
            Ok(crashed) => {
                tell_crash(crashed, report);
                Ok(())
            }
            Err(why) => {
                report.clear();
                Err(why)
            }
        }
    }

    /// Something happens to a device of a family that knows it.
    fn befall(&mut self, addr: u8, what: Happening, report: &mut ArrayVec<Entry, 8>)
        requires known { IsTrue (known_there what (device_at (setup_of self.old).devices addr)) }
        requires placed { IsPlaced what }
        requires one { array_vec_len report.old ≡ 1 }
        ensures { PlaysUndisturbed self.old self.new (step_of addr what) report.new.items
            (desk_of self.old) }
    {
        let outcome = self.bus.befall(addr, what);
        tell(addr, what, outcome, report);
    }

    /// The wire has a fault in the next exchange.
    fn fault(&mut self, fault: &WireFault, report: &mut ArrayVec<Entry, 8>)
        requires in_range { IsFault fault.now }
        requires one { array_vec_len report.old ≡ 1 }
        ensures { PlaysUndisturbed self.old self.new (step.Fault fault.now) report.new.items
            (desk_of self.old) }
    {
        self.bus.set_fault(fault.copied());
        tell_alone(report, Entry::Fault(fault.copied()));
    }

    /// The operator gives the host a command. A refused one changes nothing.
    fn command(&mut self, command: &Command, report: &mut ArrayVec<Entry, 8>)
        requires one { array_vec_len report.old ≡ 1 }
        ensures { PlaysUndisturbed self.old self.new (step.Command command.now) report.new.items
            (desk_of self.old) }
    {
        match self.host.command(command) {
            Ok(()) => tell_taken(command, report),
            Err(why) => tell_refused(command, why, report),
        }
    }

    /// The operator is reported what is available, reserved, paid and sold.
    fn balance(&self, report: &mut ArrayVec<Entry, 8>)
        requires one { array_vec_len report.old ≡ 1 }
        ensures { PlaysUndisturbed self.now self.now step.Balance report.new.items
            (desk_of self.now) }
    {
        tell_alone(report, Entry::Balance(self.host.totals()));
    }

    /// The operator counted the coins in a hopper.
    fn stock(&mut self, addr: u8, count: u32, report: &mut ArrayVec<Entry, 8>)
        requires one { array_vec_len report.old ≡ 1 }
        ensures { PlaysUndisturbed self.old self.new (step.Stock addr count) report.new.items
            (desk_after (step.Stock addr count) (reverse report.new.items) (desk_of self.old)) }
    {
        self.desk.stock(addr, count);
        tell_stock(addr, count, report);
    }

    /// The operator wants change: a session begins where none runs.
    fn change(&mut self, first: u32, amount: u32, report: &mut ArrayVec<Entry, 8>)
        requires in_range { IsInRange (step.Change first amount) }
        requires one { array_vec_len report.old ≡ 1 }
        ensures { PlaysUndisturbed self.old self.new (step.Change first amount) report.new.items
            (desk_after (step.Change first amount) (reverse report.new.items) (desk_of self.old)) }
    {
        let began = self.desk.change(first, amount);
        tell_change(first, amount, began, report);
    }

    /// The session goes on, and the host is given its next payment, if it has one.
    fn serve(&mut self, report: &mut ArrayVec<Entry, 8>)
        requires one { array_vec_len report.old ≡ 1 }
        ensures { PlaysUndisturbed self.old self.new step.Serve report.new.items
            (desk_after step.Serve (reverse report.new.items) (desk_of self.old)) }
    {
        match self.desk.serve() {
            Serving::Pay(payment) => self.pay(payment, report),
            Serving::Idle => tell_serving(Serving::Idle, report),
            Serving::Wait { addr } => tell_serving(Serving::Wait { addr }, report),
            Serving::Odd { id } => tell_serving(Serving::Odd { id }, report),
            Serving::Served { amount } => tell_serving(Serving::Served { amount }, report),
            Serving::Short(shortfall) => tell_serving(Serving::Short(shortfall), report),
        }
    }

    /// The host is given a payment of the operator's session. Where it refuses it, the session ends
    /// short.
    fn pay(&mut self, payment: Payment, report: &mut ArrayVec<Entry, 8>)
        requires own { option_map (λ s. s.next) (desk_of self.old).session ≡ Some payment.id }
        requires one { array_vec_len report.old ≡ 1 }
        ensures { Pays self.old self.new payment report.new.items }
    {
        let command = Command::Pay {
            addr: payment.addr,
            id: payment.id,
            count: payment.count,
        };
        match self.host.command(&command) {
            Ok(()) => {
                self.desk.taken(payment);
                tell_taken(&command, report);
            }
            Err(why) => {
                let shortfall = self.desk.refused();
                tell_refused(&command, why, report);
                add_short(shortfall, report);
            }
        }
    }

    /// The host's job at an address makes one attempt of one row on the bus. After an exchange that
    /// was forged, that is reported.
    fn next(&mut self, addr: u8, report: &mut ArrayVec<Entry, 8>) -> Result<(), WorldNo>
        requires whole { has_failed self.old ≡ false }
        requires one { array_vec_len report.old ≡ 1 }
        ensures setup { setup_of self.new ≡ setup_of self.old }
        ensures played { OnOk result (PlayedTo self.old self.new (step.Next addr) report.new.items
            (desk_of self.old)) }
        ensures unplayed { IfErr result (λ why.
            StepUnplayed self.old (disk_of self.new) why (step.Next addr) report.new.items) }
    {
        match self.host.next_into(addr, &mut self.bus, report) {
            Ok(()) => {
                tell_forged(&self.bus, report);
                Ok(())
            }
            Err(Failed) => {
                report.clear();
                Err(WorldNo::Disk)
            }
        }
    }

    /// Whether the job at an address is about to put a record.
    pub fn puts(&self, addr: u8) -> bool
        ensures { (past : List Entry) → StandsFor self.now past → result
            ≡ is_some (due_at (setup_of self.now) past addr) }
    {
        self.host.puts(addr)
    }

    /// What is available, reserved, paid and sold, in units of value.
    pub fn totals(&self) -> Totals
        ensures { (past : List Entry) → StandsFor self.now past → result
            ≡ totals (setup_of self.now) past }
    {
        self.host.totals()
    }

    /// The disk.
    pub fn into_disk(self) -> D
        ensures { result ≡ disk_of self.entry }
    {
        let Machine {
            host,
            bus: _,
            desk: _,
        } = self;
        host.into_disk()
    }
}

/// Leaves one entry in a report: the first one of a step replaces it.
fn keep_one(report: &mut ArrayVec<Entry, 8>)
    ensures { array_vec_len report.new ≡ 1 }
{
    report.truncate(1);
    if report.is_empty() {
        report.push(Entry::Words);
    }
}

/// Replaces the one entry that a report has.
#[inline(always)]
#[tactic(auto, using(crate::proofs::Steps::set_alone))]
fn tell_alone(report: &mut ArrayVec<Entry, 8>, entry: Entry)
    requires { array_vec_len report.old ≡ 1 }
    ensures { report.new.items ≡ entry ∷ [] }
{
    match report.get_mut(0) {
        Some(told) => *told = entry,
        None => unreachable!(),
    }
}

/// Says that the exchange which entries begin with was forged, where that is so: the bus says it of
/// its last exchange.
fn tell_forged(bus: &Bus<'_>, report: &mut ArrayVec<Entry, 8>)
    requires room { length report.old.items < 8 }
    ensures { TellsForged bus.now report.old.items report.new.items }
{
    if bus.last_forged() {
        add_forged(report);
    }
}

/// Reports that the exchange which entries begin with was forged. Without one nothing is reported.
/// An entry is wide: in a function of its own it is made where it is reported.
#[inline(never)]
fn add_forged(report: &mut ArrayVec<Entry, 8>)
    requires room { length report.old.items < 8 }
    ensures { report.new.items ≡ report.old.items ++ forged_told true (asked_at report.old.items) }
{
    match asked_at(report.as_slice()) {
        Some(addr) => report.push(Entry::Forged { addr }),
        None => {}
    }
}

/// The address of the exchange which entries begin with, or none.
fn asked_at(report: &[Entry]) -> Option<u8>
    ensures { result ≡ asked_at report.now }
{
    match report {
        [Entry::Wire { addr, .. }, ..] => Some(*addr),
        _ => None,
    }
}

/// Says what a power cut left.
fn tell_crash(crashed: Crashed, report: &mut ArrayVec<Entry, 8>)
    requires { array_vec_len report.old ≡ 1 }
    ensures { reverse report.new.items ≡ restart_news crashed }
{
    let Crashed { records, kept } = crashed;
    tell_alone(report, Entry::Crash { records });
    if let Some(entry) = kept {
        report.push(Entry::Kept(entry));
    }
}

/// Says that a command was taken. An entry is wide: in a function of its own it is made where it is
/// reported.
#[inline(never)]
#[tactic(auto, using(crate::proofs::Steps::set_alone))]
fn tell_taken(command: &Command, report: &mut ArrayVec<Entry, 8>)
    requires { array_vec_len report.old ≡ 1 }
    ensures { report.new.items ≡ entry.Taken command.now ∷ [] }
{
    match report.get_mut(0) {
        Some(told) => set_taken(told, command),
        None => unreachable!(),
    }
}

/// Makes an entry that of a command that was taken: that of another one only takes this one in.
fn set_taken(told: &mut Entry, command: &Command)
    ensures { told.new ≡ entry.Taken command.now }
{
    match told {
        Entry::Taken(taken) => *taken = *command,
        _ => *told = Entry::Taken(*command),
    }
}

/// Says that a command was refused, and why.
#[inline(never)]
fn tell_refused(command: &Command, why: CommandNo, report: &mut ArrayVec<Entry, 8>)
    requires { array_vec_len report.old ≡ 1 }
    ensures { report.new.items ≡ entry.No command.now why ∷ [] }
{
    tell_alone(
        report,
        Entry::No {
            command: *command,
            why,
        },
    );
}

/// Says that the operator counted the coins in a hopper.
#[inline(never)]
fn tell_stock(addr: u8, count: u32, report: &mut ArrayVec<Entry, 8>)
    requires { array_vec_len report.old ≡ 1 }
    ensures { report.new.items ≡ entry.Stock addr count ∷ [] }
{
    tell_alone(report, Entry::Stock { addr, count });
}

/// Says whether a session of change began.
#[inline(never)]
fn tell_change(first: u32, amount: u32, began: bool, report: &mut ArrayVec<Entry, 8>)
    requires { array_vec_len report.old ≡ 1 }
    ensures { report.new.items ≡ change_told first amount began ∷ [] }
{
    if began {
        tell_alone(report, Entry::ChangeOk { first, amount });
    } else {
        tell_alone(report, Entry::ChangeNo);
    }
}

/// Says what a `serve` came to, where no payment is given to the host.
#[inline(never)]
fn tell_serving(serving: Serving, report: &mut ArrayVec<Entry, 8>)
    requires { array_vec_len report.old ≡ 1 }
    ensures { report.new.items ≡ entries_told serving }
{
    match serving {
        Serving::Idle => tell_alone(report, Entry::ServeIdle),
        Serving::Wait { addr } => tell_alone(report, Entry::ServeWait { addr }),
        Serving::Odd { id } => tell_alone(report, Entry::ServeOdd { id }),
        Serving::Served { amount } => tell_alone(report, Entry::Served { amount }),
        Serving::Short(shortfall) => tell_alone(
            report,
            Entry::Short {
                paid: shortfall.paid,
                rest: shortfall.rest,
            },
        ),
        Serving::Pay(_) => report.clear(),
    }
}

/// Adds that a session ended short.
#[inline(never)]
fn add_short(shortfall: Shortfall, report: &mut ArrayVec<Entry, 8>)
    requires { length report.old.items < 8 }
    ensures { report.new.items ≡ report.old.items ++ entry.Short shortfall.paid shortfall.rest
        ∷ [] }
{
    report.push(Entry::Short {
        paid: shortfall.paid,
        rest: shortfall.rest,
    });
}

/// Says what happened to the device at an address, by what became of it.
#[tactic(auto, using(crate::proofs::Steps::set_alone))]
fn tell(addr: u8, what: Happening, outcome: Outcome, report: &mut ArrayVec<Entry, 8>)
    requires { array_vec_len report.old ≡ 1 }
    ensures { report.new.items ≡ entry_told addr what outcome ∷ [] }
{
    match report.get_mut(0) {
        Some(told) => set_told(told, addr, what, outcome),
        None => unreachable!(),
    }
}

/// Makes an entry that of what happened to the device at an address, by what became of it. An entry
/// is wide, so it is made where it is reported.
fn set_told(told: &mut Entry, addr: u8, what: Happening, outcome: Outcome)
    ensures { told.new ≡ entry_told addr what outcome }
{
    match what {
        Happening::Coin { place } => match outcome {
            Outcome::Accepted(coin) => set_accepted(told, addr, coin),
            Outcome::Done => *told = Entry::Inhibited { addr, place },
            Outcome::Nothing => *told = Entry::Inhibited { addr, place },
        },
        Happening::Alien => *told = Entry::Alien { addr },
        Happening::Bill { place } => match outcome {
            Outcome::Done => *told = Entry::Held { addr, place },
            Outcome::Accepted(_) => *told = Entry::Inhibited { addr, place },
            Outcome::Nothing => *told = Entry::Inhibited { addr, place },
        },
        Happening::Fall => match outcome {
            Outcome::Done => set_fell(told, addr),
            Outcome::Accepted(_) => *told = Entry::NoFall { addr },
            Outcome::Nothing => *told = Entry::NoFall { addr },
        },
        Happening::Jam => match outcome {
            Outcome::Done => *told = Entry::Jammed { addr },
            Outcome::Accepted(_) => *told = Entry::NoJam { addr },
            Outcome::Nothing => *told = Entry::NoJam { addr },
        },
        Happening::Reset => *told = Entry::Reset { addr },
    }
}

/// Makes an entry that of a coin that was accepted: that of another one only takes this one in.
fn set_accepted(told: &mut Entry, addr: u8, coin: Coin)
    ensures { told.new ≡ entry.Accepted addr coin }
{
    match told {
        Entry::Accepted {
            addr: at,
            coin: last,
        } => {
            *at = addr;
            *last = coin;
        }
        _ => *told = Entry::Accepted { addr, coin },
    }
}

/// Makes an entry that of a coin that fell out of a hopper: that of another one only takes its
/// address in.
fn set_fell(told: &mut Entry, addr: u8)
    ensures { told.new ≡ entry.Fell addr }
{
    match told {
        Entry::Fell { addr: at } => *at = addr,
        _ => *told = Entry::Fell { addr },
    }
}
