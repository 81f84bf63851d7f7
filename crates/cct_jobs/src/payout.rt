//! The rows of a payment and of a settlement at which a hopper is asked (ccTalk Generic
//! Specification 4, part 3, headers 164, 166, 167, 168 and 172).
ghost use Rattle.std.specs.Prelude.{◌≡◌, Some};
ghost use Rattle.cct_model.specs.Request.{form_of};
ghost use Rattle.cct_model.specs.Rows.{has_waits, puts_in};
ghost use Rattle.cct_jobs.specs.declared.target.Target.{Target};
ghost use Rattle.cct_jobs.specs.Ahead.{coins_in, payout_ahead};
ghost use Rattle.cct_jobs.specs.Jobs.{payout_request};

use crate::owed::Owed;
use cct_model::{ENABLE_CODE, OpenOrder, ReplyForm, Request};
use cct_order::DispenseTicket;

/// By which job an order is closed.
#[derive(Clone, Copy, PartialEq, Eq)]
pub enum Closing {
    /// By the payment that opened it.
    Payment,
    /// By a settlement, since it stayed open.
    Settlement,
}

/// A row of a payment or a settlement that asks the hopper, and what the job knows there.
#[derive(Clone, Copy, PartialEq, Eq)]
pub enum Payout {
    /// A payment enables its hopper.
    Enables {
        id: u32,
        count: u8,
        halted: bool,
    },
    /// It reads the life count of the hopper.
    Counts {
        id: u32,
        count: u8,
        halted: bool,
    },
    /// It lets the hopper of this serial number dispense the order's coins, once.
    Dispenses {
        serial: u32,
        owed: Owed,
        halted: bool,
    },
    /// The hopper is asked how the payout goes, until nothing is left to pay.
    Waits {
        closing: Closing,
        owed: Owed,
    },
    /// The hopper is stopped, since the payout was halted.
    Stops {
        closing: Closing,
        owed: Owed,
    },
    /// Its life count is read again.
    Recounts {
        closing: Closing,
        owed: Owed,
    },
}

impl Payout {
    /// The request that is sent there.
    pub(crate) fn request(&self) -> Request
        ensures { result ≡ payout_request self.now }
    {
        match self {
            Payout::Enables { .. } => Request::Enable { code: ENABLE_CODE },
            Payout::Counts { .. } => Request::GetLife,
            Payout::Dispenses { serial, owed, .. } => dispense(&owed.order, *serial),
            Payout::Waits { .. } => Request::GetStatus,
            Payout::Stops { .. } => Request::StopNow,
            Payout::Recounts { .. } => Request::GetLife,
        }
    }

    /// The form of the reply that is wanted to it.
    #[tactic(auto, unfolding(cct_model_wire::specs::Request::form_of))]
    pub(crate) fn wanted(&self) -> ReplyForm
        ensures { Some result ≡ form_of (payout_request self.now) }
    {
        match self {
            Payout::Enables { .. } => ReplyForm::Ack,
            Payout::Counts { .. } => ReplyForm::Life,
            Payout::Dispenses { .. } => ReplyForm::Ack,
            Payout::Waits { .. } => ReplyForm::Status,
            Payout::Stops { .. } => ReplyForm::Remaining,
            Payout::Recounts { .. } => ReplyForm::Life,
        }
    }

    /// How many records the job may still put that is there.
    pub(crate) fn may_put(&self) -> u32
        ensures { (device : Target) → result ≡ puts_in (payout_ahead device self.now) }
    {
        match self {
            Payout::Enables { .. } => 2,
            Payout::Counts { .. } => 2,
            _ => 1,
        }
    }

    /// How many coins are reserved there for an order that is still to be opened.
    pub(crate) fn coins_reserved(&self) -> u8
        ensures { (device : Target) → result ≡ coins_in (payout_ahead device self.now) }
    {
        match self {
            Payout::Enables { count, .. } => *count,
            Payout::Counts { count, .. } => *count,
            _ => 0,
        }
    }

    /// Whether the job can be halted there.
    pub(crate) fn can_halt(&self) -> bool
        ensures { (device : Target) → result ≡ has_waits (payout_ahead device self.now) }
    {
        match self {
            Payout::Recounts { .. } => false,
            _ => true,
        }
    }
}

/// The one request that spends the ticket of an order.
fn dispense(order: &OpenOrder, serial: u32) -> Request
    ensures { result ≡ Request.Dispense serial order.now.count }
{
    let (serial, count) = DispenseTicket::new(order, serial).spend();
    Request::Dispense { serial, count }
}
