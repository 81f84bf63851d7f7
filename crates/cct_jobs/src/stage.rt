//! The rows of jobs at which a device is asked.
ghost use Rattle.std.specs.Prelude.{◌≡◌};
ghost use Rattle.cct_model.specs.Request.{form_of};
ghost use Rattle.cct_model.specs.Rows.{has_closes, has_waits, puts_in};
ghost use Rattle.cct_jobs.specs.declared.target.Target.{Target};
ghost use Rattle.cct_jobs.specs.Ahead.{coins_in, stage_ahead, reading_ahead};
ghost use Rattle.cct_jobs.specs.Jobs.{request_of};

use crate::counted::Counted;
use crate::credits::credits_request;
use crate::path;
use crate::payout::Payout;
use cct_model::{Credits, Family, ReplyForm, Request};
use cct_msg::form_of;

/// The request that inhibits every coin or bill.
const INHIBIT: Request = Request::SetMaster { value: 0 };

/// What is recorded of an epoch that runs: its inhibit mask, the event counter of its last recorded
/// reading, or 0, and what its acceptor counted at its last record.
#[derive(Clone, Copy, PartialEq, Eq)]
pub struct Recorded {
    pub mask: u16,
    pub counter: u8,
    pub counted: Counted,
}

/// By which job an acceptor is read.
#[derive(Clone, Copy, PartialEq, Eq)]
pub enum ReadBy {
    /// By a round.
    Round,
    /// By the stop of its epoch.
    Stop,
}

/// A row of a job that asks a device, and what the job knows there.
#[derive(Clone, Copy, PartialEq, Eq)]
pub enum Stage {
    /// A start resets its acceptor.
    StartResets {
        mask: u16,
    },
    /// It reads the credits, whose event counter has to be 0.
    StartReads {
        mask: u16,
    },
    /// It reads the accept counter, with which the epoch begins.
    StartCounts {
        mask: u16,
    },
    /// It sets the inhibit mask, once.
    StartSets {
        mask: u16,
    },
    /// A stop inhibits every coin or bill of its acceptor.
    StopInhibits {
        recorded: Recorded,
    },
    /// A round or a stop reads the accept counter before its reading, beside what is recorded of
    /// the epoch.
    CountsBefore {
        read_by: ReadBy,
        recorded: Recorded,
    },
    /// It reads the credits.
    Reads {
        read_by: ReadBy,
        recorded: Recorded,
        before: Counted,
    },
    /// It looks at the inhibit mask after these credits were read, which are as they are judged.
    Looks {
        read_by: ReadBy,
        recorded: Recorded,
        before: Counted,
        credits: Credits,
    },
    /// It reads the accept counter again after it saw this mask.
    CountsAfter {
        read_by: ReadBy,
        recorded: Recorded,
        before: Counted,
        credits: Credits,
        mask_seen: u16,
    },
    /// An identification asks a device for one of the things that it says of itself.
    IdentAsks {
        question: Request,
    },
    /// The sorter path of a coin place is set, or with place 0 the default path.
    PathSets {
        place: u8,
        path: u8,
    },
    /// It is read back.
    PathReads {
        place: u8,
        path: u8,
    },
    /// The held bill of a bill acceptor is sent its way, once.
    Routes {
        way: u8,
    },
    /// A payment or a settlement asks its hopper.
    Pays {
        row: Payout,
    },
}

impl Stage {
    /// The request that is sent there to a device of a family.
    pub(crate) fn request(&self, family: Family) -> Request
        ensures { result ≡ request_of family self.now }
    {
        match self {
            Stage::StartResets { .. } => Request::ResetDevice,
            Stage::StartReads { .. } => credits_request(family),
            Stage::StartCounts { .. } => Request::AcceptCount,
            Stage::StartSets { mask } => Request::SetMask { mask: *mask },
            Stage::StopInhibits { .. } => INHIBIT,
            Stage::CountsBefore { .. } => Request::AcceptCount,
            Stage::Reads { .. } => credits_request(family),
            Stage::Looks { .. } => Request::GetMask,
            Stage::CountsAfter { .. } => Request::AcceptCount,
            Stage::IdentAsks { question } => *question,
            Stage::PathSets { place, path } => path::setting(*place, *path),
            Stage::PathReads { place, .. } => path::reading(*place),
            Stage::Routes { way } => Request::RouteBill { way: *way },
            Stage::Pays { row } => row.request(),
        }
    }

    /// The form of the reply that is wanted to it.
    pub(crate) fn wanted(&self, family: Family) -> Option<ReplyForm>
        ensures { result ≡ form_of (request_of family self.now) }
    {
        match self {
            Stage::Pays { row } => Some(row.wanted()),
            _ => form_of(self.request(family)),
        }
    }

    /// How many records a job may still put that is there.
    pub(crate) fn may_put(&self) -> u32
        ensures { (device : Target) → result ≡ puts_in (stage_ahead device self.now) }
    {
        match self {
            Stage::StartResets { .. } | Stage::StartReads { .. } | Stage::StartCounts { .. } => 1,
            Stage::StopInhibits { .. } => 2,
            Stage::CountsBefore { read_by, .. }
            | Stage::Reads { read_by, .. }
            | Stage::Looks { read_by, .. }
            | Stage::CountsAfter { read_by, .. } => read_by.may_put(),
            Stage::Pays { row } => row.may_put(),
            _ => 0,
        }
    }

    /// Whether the job is running there to close an order.
    pub(crate) fn closes_order(&self) -> bool
        ensures { (device : Target) → result ≡ has_closes (stage_ahead device self.now) }
    {
        match self {
            Stage::Pays { .. } => true,
            _ => false,
        }
    }

    /// How many coins are reserved there for an order that is still to be opened.
    pub(crate) fn coins_reserved(&self) -> u8
        ensures { (device : Target) → result ≡ coins_in (stage_ahead device self.now) }
    {
        match self {
            Stage::Pays { row } => row.coins_reserved(),
            _ => 0,
        }
    }

    /// Whether the job can be halted there.
    pub(crate) fn can_halt(&self) -> bool
        ensures { (device : Target) → result ≡ has_waits (stage_ahead device self.now) }
    {
        match self {
            Stage::Pays { row } => row.can_halt(),
            _ => false,
        }
    }
}

impl ReadBy {
    /// How many records that job may still put: a stop puts the epoch's end too.
    fn may_put(&self) -> u32
        ensures { (device : Target) → result ≡ puts_in (reading_ahead device self.now) }
    {
        match self {
            ReadBy::Round => 1,
            ReadBy::Stop => 2,
        }
    }
}
