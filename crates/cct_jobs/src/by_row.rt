//! What each row of a job gives: the answer to a question that is put to the job, and the row after
//! it.
ghost use Rattle.std.specs.Prelude.{◌≡◌, Option, Some, true};
ghost use Rattle.cct_model.specs.Rows.{has_closes, has_waits, puts_in};
ghost use Rattle.cct_jobs.specs.Ahead.{ahead, coins_in};
ghost use Rattle.cct_jobs.specs.declared.job.Job.TheVariants.{OrderOpens};
ghost use Rattle.cct_jobs.specs.Jobs.{IsPut, after_halt, after_put, end_of_job, need_of, opened_by};
ghost use Rattle.cct_jobs.specs.Jobs.{owed_after, put_in, sending_of};

use crate::asks::first_try;
use crate::job::{Job, Need, Sending};
use crate::owed::Owed;
use crate::payout::Payout;
use crate::stage::Stage;
use crate::target::Target;
use crate::{payment, scan};
use cct_model::{BROADCAST, CheckKind, End, OpenOrder, Record};

impl Job {
    /// What the job needs next, by its row.
    #[tactic(auto, using(crate::proofs::Needs::done_is, crate::proofs::Needs::put_is, crate::proofs::Needs::exchange_is))]
    pub(crate) fn need(&self) -> Need
        ensures { result ≡ need_of self.now }
    {
        match self.told_end() {
            Some(end) => Need::Done(end),
            None => match self.record() {
                Some(entry) => Need::Put(entry),
                None => Need::Exchange,
            },
        }
    }

    /// The record that the job is about to put, by its row.
    pub(crate) fn record(&self) -> Option<Record>
        ensures { result ≡ put_in (need_of self.now) }
    {
        match self {
            Job::StartPuts {
                device,
                mask,
                counted,
            } => Some(Record::Epoch {
                addr: device.addr,
                mask: *mask,
                accepts: counted.accepts,
            }),
            Job::RoundPuts { entry, .. } => Some(entry.copied()),
            Job::StopPuts { entry, .. } => Some(entry.copied()),
            Job::StopEnds { device } => Some(Record::EpochEnd { addr: device.addr }),
            Job::OrderOpens { owed, .. } => Some(opened(&owed.order)),
            Job::OrderCloses { entry, .. } => Some(entry.copied()),
            Job::SalePuts { id, price } => Some(Record::Sold {
                id: *id,
                price: *price,
            }),
            _ => None,
        }
    }

    /// The end that a job says which is done.
    pub(crate) fn told_end(&self) -> Option<End>
        ensures { result ≡ end_of_job self.now }
    {
        match self {
            Job::Done(end) => Some(*end),
            _ => None,
        }
    }

    /// How many records the job may still put, by its row.
    pub(crate) fn records(&self) -> u32
        ensures { result ≡ puts_in (ahead self.now) }
    {
        match self {
            Job::Asks { stage, .. } => stage.may_put(),
            Job::StartPuts { .. } => 1,
            Job::RoundPuts { .. } => 1,
            Job::StopPuts { .. } => 2,
            Job::StopEnds { .. } => 1,
            Job::OrderOpens { .. } => 2,
            Job::OrderCloses { .. } => 1,
            Job::SalePuts { .. } => 1,
            _ => 0,
        }
    }

    /// Whether the job is running to close an order, by its row.
    pub(crate) fn closes(&self) -> bool
        ensures { result ≡ has_closes (ahead self.now) }
    {
        match self {
            Job::Asks { stage, .. } => stage.closes_order(),
            Job::OrderOpens { .. } => true,
            Job::OrderCloses { .. } => true,
            _ => false,
        }
    }

    /// How many coins the job reserves, by its row.
    pub(crate) fn coins(&self) -> u8
        ensures { result ≡ coins_in (ahead self.now) }
    {
        match self {
            Job::Asks { stage, .. } => stage.coins_reserved(),
            Job::OrderOpens { owed, .. } => owed.order.count,
            _ => 0,
        }
    }

    /// The request that the job sends next, by its row.
    pub(crate) fn own_request(&self) -> Sending
        requires { need_of self.now ≡ Need.Exchange }
        ensures { Some result ≡ sending_of self.now }
    {
        match self {
            Job::Asks { device, stage, .. } => Sending {
                to: device.addr,
                kind: device.kind,
                request: stage.request(device.family),
            },
            Job::ScanCallsSimple { .. } => scan::poll(CheckKind::Simple, BROADCAST),
            Job::ScanCallsCrc { .. } => scan::poll(CheckKind::Crc, BROADCAST),
            Job::ScanPollsSimple { addr, .. } => scan::poll(CheckKind::Simple, *addr),
            Job::ScanPollsCrc { addr, .. } => scan::poll(CheckKind::Crc, *addr),
            _ => unreachable!(),
        }
    }

    /// The job goes on after its record was put, by its row: it comes to the next one where it
    /// stands.
    pub(crate) fn pass_put(&mut self)
        requires { IsPut (need_of self.old) }
        ensures { self.new ≡ after_put self.old }
    {
        match self {
            Job::StartPuts { device, mask, .. } => {
                let (device, mask) = (*device, *mask);
                *self = first_try(device, Stage::StartSets { mask });
            }
            Job::RoundPuts { end, .. } => {
                let end = *end;
                *self = Job::Done(end);
            }
            Job::StopPuts { device, end, .. } => match end {
                Some(end) => {
                    let end = *end;
                    *self = Job::Done(end);
                }
                None => {
                    let device = *device;
                    *self = Job::StopEnds { device };
                }
            },
            Job::StopEnds { .. } => *self = Job::Done(End::Stopped),
            Job::OrderOpens {
                device,
                owed,
                halted,
            } => {
                let (device, owed, halted) = (*device, *owed, *halted);
                *self = dispenses(device, owed, halted);
            }
            Job::OrderCloses { end, .. } => {
                let end = *end;
                *self = Job::Done(end);
            }
            Job::SalePuts { .. } => *self = Job::Done(End::Sold),
            _ => unreachable!(),
        }
    }

    /// The order that is owed after the job's record was put, by its row.
    pub(crate) fn owed_after(&self, before: Option<Owed>) -> Option<Owed>
        ensures { result ≡ owed_after self.now before }
    {
        match self {
            Job::OrderOpens { owed, .. } => Some(*owed),
            Job::OrderCloses { .. } => None,
            _ => before,
        }
    }

    /// Whether the job can be halted, by its row.
    pub(crate) fn may_halt(&self) -> bool
        ensures { result ≡ has_waits (ahead self.now) }
    {
        match self {
            Job::Asks { stage, .. } => stage.can_halt(),
            Job::OrderOpens { .. } => true,
            _ => false,
        }
    }

    /// The job after it was halted, by its row.
    pub(crate) fn halted(self) -> Job
        requires { has_waits (ahead self) ≡ true }
        ensures { result ≡ after_halt self }
    {
        match self {
            Job::Asks {
                device,
                stage,
                failed,
            } => match stage {
                Stage::Pays { row } => payment::halted(device, row, failed),
                _ => unreachable!(),
            },
            Job::OrderOpens { device, owed, .. } => Job::OrderOpens {
                device,
                owed,
                halted: true,
            },
            _ => unreachable!(),
        }
    }
}

/// The record that opens an order.
fn opened(order: &OpenOrder) -> Record
    ensures { result ≡ opened_by order.now }
{
    Record::Opened {
        id: order.id,
        addr: order.addr,
        count: order.count,
        life: order.life,
    }
}

/// A payment after it put that its order is opened: its coins are dispensed.
fn dispenses(device: Target, owed: Owed, halted: bool) -> Job
    ensures { result ≡ after_put (OrderOpens device owed halted) }
{
    let row = Payout::Dispenses {
        serial: device.serial,
        owed,
        halted,
    };
    first_try(device, Stage::Pays { row })
}
