//! What a desk holds and reserves: records of the journal, coins, units of value, and an id.
ghost use Rattle.std.specs.Prelude.{◌≡◌, ◌≤◌, ◌*◌, Option, length, IfSome};
ghost use Rattle.cct_record.specs.Body.{Encodable};
ghost use Rattle.cct_jobs.specs.Jobs.{order_of};
ghost use Rattle.cct_host.specs.Desk.{greatest_paying, held_at, held_in};
ghost use Rattle.cct_host.specs.Held.{coins_by, due_by, order_left, price_by, puts_left};

use crate::desk::JobDesk;
use cct_model::{DEVICES, Record};

impl JobDesk {
    /// How many records are held for this place: those that its job may still put, and one for an
    /// open order that no job is running to close.
    pub(crate) fn held(&self) -> u32
        ensures value { result ≡ held_at self.now }
        ensures few { result ≤ 3 }
    {
        self.puts_left() + self.order_left()
    }

    /// How many records are held for the places of desks.
    pub(crate) fn held_in(desks: &[JobDesk]) -> u32
        requires { length desks.now ≤ DEVICES }
        ensures value { result ≡ held_in desks.now }
        ensures few { result ≤ 3 * length desks.now }
    {
        match desks {
            [] => 0,
            [desk, rest @ ..] => desk.held() + JobDesk::held_in(rest),
        }
    }

    /// How many records the job may still put.
    #[tactic(auto, using(crate::proofs::Held::few_left))]
    fn puts_left(&self) -> u32
        ensures value { result ≡ puts_left self.now.job }
        ensures few { result ≤ 2 }
    {
        match &self.job {
            Some(job) => job.may_put(),
            None => 0,
        }
    }

    /// One record for the open order that no job is running to close, if there is one.
    fn order_left(&self) -> u32
        ensures value { result ≡ order_left self.now.job (order_of self.now.orders.order) }
        ensures few { result ≤ 1 }
    {
        match (&self.orders.order, &self.job) {
            (None, _) => 0,
            (Some(_), None) => 1,
            (Some(_), Some(job)) => u32::from(!job.closes_order()),
        }
    }

    /// The record that the job is about to put, if it is about to put one.
    pub(crate) fn due(&self) -> Option<Record>
        ensures value { result ≡ due_by self.now.job }
        ensures fits { IfSome result Encodable }
    {
        match &self.job {
            Some(job) => job.due(),
            None => None,
        }
    }

    /// How many coins the job reserves: none where it has no record to put.
    #[tactic(auto, using(crate::proofs::Held::coins_left))]
    pub(crate) fn coins_reserved(&self) -> u8
        ensures value { result ≡ coins_by self.now.job }
        ensures few { result ≤ 255 * puts_left self.now.job }
    {
        match &self.job {
            Some(job) => job.coins_reserved(),
            None => 0,
        }
    }

    /// What the job reserves besides coins, in units of value.
    pub(crate) fn price_reserved(&self) -> u32
        ensures { result ≡ price_by self.now.job }
    {
        match &self.job {
            Some(job) => job.price_reserved(),
            None => 0,
        }
    }

    /// The greatest id of the running payments at desks.
    pub(crate) fn greatest_paying(desks: &[JobDesk]) -> u32
        ensures { result ≡ greatest_paying desks.now }
    {
        match desks {
            [] => 0,
            [desk, rest @ ..] => desk.orders.id.max(JobDesk::greatest_paying(rest)),
        }
    }
}
