//! Why a command to a desk is refused: the first reason that holds.
ghost use Rattle.std.specs.Prelude.{◌≡◌, Option, Some, true};
ghost use Rattle.cct_model.specs.terms.device.Setup.{Setup};
ghost use Rattle.cct_model.specs.Exchange.{device_at};
ghost use Rattle.cct_model.specs.Job.{address_of};
ghost use Rattle.cct_model.specs.Refusal.{epoch_refusal, first_of, id_refusal, listed};
ghost use Rattle.cct_model.specs.Refusal.{order_refusal, running_refusal, settle_refusal};
ghost use Rattle.cct_model.specs.Refusal.{state_fails, unless, value_refusal};
ghost use Rattle.cct_model.specs.lines.command.CommandNo.TheVariants.{NoPayout, WrongKind};
ghost use Rattle.cct_jobs.specs.Jobs.{is_of_device, order_of};
ghost use Rattle.cct_host.specs.Desk.{RefusesAbove};
ghost use Rattle.cct_host.specs.Place as places;
ghost use Rattle.cct_host.specs.Running.{busy_by, halting_refusal, halts_in, refusal_beside};
ghost use Rattle.cct_host.specs.Running.{sale_refusal, seen_at};

use crate::desk::JobDesk;
use cct_journal_carry::valueless;
use cct_model::{Command, CommandNo, DeviceSetup, EpochState, Test, state_tests};

impl JobDesk {
    /// Why a command to the device of this desk is refused, if it is: the first reason that holds,
    /// whatever room there is for its records.
    pub(crate) fn command_refusal(
        &self,
        command: &Command,
        device: &DeviceSetup,
        last: u32,
    ) -> Option<CommandNo>
        requires of_device { is_of_device command.now ≡ true }
        ensures { (setup : Setup) → device_at setup.devices (address_of command.now) ≡ Some device.now
            → RefusesAbove setup last (places.device device.now) self.now command.now result }
    {
        self.refusal(command, device, last)
    }

    /// Why a halt is refused, if it is.
    pub(crate) fn halting_refusal(&self, device: &DeviceSetup) -> Option<CommandNo>
        ensures { result ≡ halting_refusal device.now self.now.job }
    {
        if !device.body.is_hopper() {
            Some(CommandNo::WrongKind)
        } else if self.can_halt() {
            None
        } else {
            Some(CommandNo::NoPayout)
        }
    }

    /// Whether there is a job that can be halted.
    fn can_halt(&self) -> bool
        ensures { result ≡ halts_in self.now.job }
    {
        match &self.job {
            Some(job) => job.can_halt(),
            None => false,
        }
    }

    /// Why a sale is refused, if it is: one runs, or its id isn't new.
    pub(crate) fn sale_refusal(&self, id: u32, last: u32) -> Option<CommandNo>
        ensures { result ≡ sale_refusal self.now.job id last }
    {
        self.busy().or(id_refusal(id, last))
    }

    /// Why a command is refused, if it is.
    pub(crate) fn refusal(
        &self,
        command: &Command,
        device: &DeviceSetup,
        last: u32,
    ) -> Option<CommandNo>
        ensures { result ≡ refusal_beside device.now self.now.job self.now.epoch self.now.orders
            last command.now }
    {
        self.first_failing(&state_tests(command), device, last)
    }

    /// Why the first of these tests of the state fails, if one does.
    #[tactic(auto, using(crate::proofs::Testing::first_more))]
    fn first_failing(
        &self,
        tests: &[Option<Test>],
        device: &DeviceSetup,
        last: u32,
    ) -> Option<CommandNo>
        ensures { result ≡ first_of (state_fails (seen_at device.now self.now.job self.now.epoch self.now.orders last))
            (listed tests.now) }
    {
        for slot in tests {
            match slot {
                None => {}
                Some(test) => match self.fails(test, device, last) {
                    Some(why) => return Some(why),
                    None => {}
                },
            }
        }
        None
    }

    /// Why a test of the state fails, if it does.
    fn fails(&self, test: &Test, device: &DeviceSetup, last: u32) -> Option<CommandNo>
        ensures { result ≡ state_fails (seen_at device.now self.now.job self.now.epoch self.now.orders last)
            test.now }
    {
        let body = &device.body;
        match *test {
            Test::AtADevice => None,
            Test::AtATaker => of_kind(body.takes_money()),
            Test::AtAnAcceptor => of_kind(body.is_acceptor()),
            Test::AtABillAcceptor => of_kind(body.is_bill()),
            Test::AtAHopper => of_kind(body.is_hopper()),
            Test::WithNoJob => self.busy(),
            Test::WithNoEpoch => self.epoch_refusal(),
            Test::WithAnEpoch => self.running_refusal(),
            Test::WithValues { mask } => value_refusal(device, mask),
            Test::WithNoOrder => self.order_refusal(),
            Test::WithAnOrder => self.settle_refusal(),
            Test::WithAPayout => self.payout_refusal(),
            Test::WithNewId { id } => id_refusal(id, last),
            Test::WithCoins { .. } => None,
            Test::WithPrice { .. } => None,
            Test::WithRoom => None,
        }
    }

    /// Why a halt is refused because of the job: it can't be halted.
    fn payout_refusal(&self) -> Option<CommandNo>
        ensures { result ≡ unless (halts_in self.now.job) NoPayout }
    {
        if self.can_halt() {
            None
        } else {
            Some(CommandNo::NoPayout)
        }
    }

    /// Why a payment is refused beside the open order: there is one.
    fn order_refusal(&self) -> Option<CommandNo>
        ensures { result ≡ order_refusal (order_of self.now.orders.order) }
    {
        match &self.orders.order {
            None => None,
            Some(owed) => Some(CommandNo::OrderOpen { id: owed.order.id }),
        }
    }

    /// Why a settlement is refused beside the open order: there is none.
    fn settle_refusal(&self) -> Option<CommandNo>
        ensures { result ≡ settle_refusal (order_of self.now.orders.order) }
    {
        match &self.orders.order {
            None => Some(CommandNo::NoOrder),
            Some(_) => None,
        }
    }

    /// Why a start is refused beside the epoch: one runs.
    fn epoch_refusal(&self) -> Option<CommandNo>
        ensures { result ≡ epoch_refusal self.now.epoch }
    {
        match self.epoch {
            EpochState::Idle => None,
            EpochState::Running { .. } => Some(CommandNo::EpochRuns),
        }
    }

    /// Why a round, a stop or the routing of a bill is refused beside the epoch: none runs.
    fn running_refusal(&self) -> Option<CommandNo>
        ensures { result ≡ running_refusal self.now.epoch }
    {
        match self.epoch {
            EpochState::Idle => Some(CommandNo::NoEpoch),
            EpochState::Running { .. } => None,
        }
    }

    /// Why a command is refused because of the job: there is one.
    pub(crate) fn busy(&self) -> Option<CommandNo>
        ensures { result ≡ busy_by self.now.job }
    {
        match self.job {
            None => None,
            Some(_) => Some(CommandNo::Busy),
        }
    }
}

/// Why a command is refused because of the kind of its device: it isn't of a kind that knows the
/// command.
fn of_kind(knows: bool) -> Option<CommandNo>
    ensures { result ≡ unless knows WrongKind }
{
    if knows {
        None
    } else {
        Some(CommandNo::WrongKind)
    }
}

/// Why a start with a mask is refused beside its device: a place of the mask has no value.
fn value_refusal(device: &DeviceSetup, mask: u16) -> Option<CommandNo>
    ensures { result ≡ value_refusal mask (Some device.now) }
{
    match valueless(&device.body, mask) {
        None => None,
        Some(place) => Some(CommandNo::NoValue { place }),
    }
}

/// Why an id is refused: it isn't above the last one.
fn id_refusal(id: u32, last: u32) -> Option<CommandNo>
    ensures { result ≡ id_refusal id last }
{
    if id <= last {
        Some(CommandNo::OldId { last })
    } else {
        None
    }
}
