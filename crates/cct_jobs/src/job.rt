//! A job, by the row at which it stands.
ghost use Rattle.std.specs.Prelude.{◌≡◌, ◌≤◌, ◌<◌, List, ℕ, ◌∷◌, Option, Some, None, IfSome};
ghost use Rattle.std.specs.Prelude.{is_some, true, false};
ghost use Rattle.cct_model.specs.lines.command.Command.{Command};
ghost use Rattle.cct_model.specs.lines.command.Command.TheVariants as command;
ghost use Rattle.cct_model.specs.terms.device.DeviceSetup.{DeviceSetup};
ghost use Rattle.cct_model.specs.terms.device.Setup.{Setup};
ghost use Rattle.cct_model.specs.declared.judging.EpochState.{EpochState};
ghost use Rattle.cct_model.specs.lines.record.Record.{Record};
ghost use Rattle.cct_model.specs.declared.judging.OpenOrder.{OpenOrder};
ghost use Rattle.cct_model.specs.Job.{works};
ghost use Rattle.cct_model.specs.Rows.{can_halt, closes_order, has_closes, has_waits, left};
ghost use Rattle.cct_model.specs.Rows.{left_of_sale, puts_in};
ghost use Rattle.cct_model.specs.Line.{Line, taken};
ghost use Rattle.cct_model.specs.Money.{coins_of, reserved_by, reserved_by_sale};
ghost use Rattle.cct_model.specs.Order.{order_by};
ghost use Rattle.cct_model.specs.Scan.{end_of_scan};
ghost use Rattle.cct_record.specs.Body.{Encodable};
ghost use Rattle.cct_jobs.specs.Ahead.{ahead, coins_in, price_in};
ghost use Rattle.cct_jobs.specs.Jobs.{IsPut, Needs, PutsFit, Stands, after_halt, after_put};
ghost use Rattle.cct_jobs.specs.Jobs.{asks_device, end_of_job, need_of, newest_end, order_of};
ghost use Rattle.cct_jobs.specs.Jobs.{owed_after, put_in, sending_of};
ghost use Rattle.cct_jobs.specs.Sales.{NeedsSale, StandsSale, newest_sale_end};
ghost use Rattle.cct_jobs.specs.Scans.{NeedsScan, StandsScan};
ghost use Rattle.cct_jobs.specs.Onward.{GoesOnAfterPut, GoesOnAfterSale, HearsDevice, HearsPolled};
ghost use Rattle.cct_jobs.specs.Onward.{KeepsTo, SendsPoll, SendsToDevice};

use crate::counted::Counted;
use crate::owed::Owed;
use crate::stage::Stage;
use crate::target::Target;
use crate::{asks, scan};
use cct_model::{CheckKind, DeviceSet, End, Listed, Record, Request};

/// A job of the host, by the row at which it stands.
#[derive(Drop)]
pub enum Job {
    /// A row that asks the job's device is tried three times in succession at most: `failed` of its
    /// tries got no wanted reply so far.
    Asks {
        device: Target,
        stage: Stage,
        failed: u8,
    },
    /// A start puts that an epoch begins, beside what its acceptor counted.
    StartPuts {
        device: Target,
        mask: u16,
        counted: Counted,
    },
    /// A round puts what it judged, and then ends so.
    RoundPuts {
        entry: Record,
        end: End,
    },
    /// A stop puts what it judged, and then ends so, or else puts that the epoch ends.
    StopPuts {
        device: Target,
        entry: Record,
        end: Option<End>,
    },
    /// A stop puts that the epoch ends.
    StopEnds {
        device: Target,
    },
    /// A payment puts that this order is opened; it may be halted already.
    OrderOpens {
        device: Target,
        owed: Owed,
        halted: bool,
    },
    /// A payment or a settlement puts how its order is closed, and then ends so.
    OrderCloses {
        entry: Record,
        end: End,
    },
    /// A sale puts that something was sold.
    SalePuts {
        id: u32,
        price: u32,
    },
    /// A scan polls all devices under the simple check.
    ScanCallsSimple {
        failed: u8,
    },
    /// A scan polls all devices under the CRC; these addresses were noted before.
    ScanCallsCrc {
        failed: u8,
        due: DeviceSet,
    },
    /// A scan polls an address under the simple check; these are noted and not polled yet, this one
    /// among them, and these devices answered.
    ScanPollsSimple {
        addr: u8,
        due: DeviceSet,
        listed: Listed,
    },
    /// A scan polls the same address under the CRC, since nobody acknowledged its poll under the
    /// simple check.
    ScanPollsCrc {
        addr: u8,
        due: DeviceSet,
        listed: Listed,
    },
    /// The job is done, and ended so.
    Done(End),
}

/// What a job needs next.
#[derive(Drop)]
pub enum Need {
    /// An exchange on the wire.
    Exchange,
    /// This record is to be put.
    Put(Record),
    /// Nothing: it ended so.
    Done(End),
}

/// A request that a job sends: to whom, and under which check.
#[derive(Clone, Copy, PartialEq, Eq)]
pub struct Sending {
    pub to: u8,
    pub kind: CheckKind,
    pub request: Request,
}

impl Job {
    /// What the job needs next.
    #[tactic(auto, using(crate::proofs::Needs::need_known, crate::proofs::Needs::scan_need_known, crate::proofs::Needs::put_allowed, crate::proofs::Fits::put_fits, crate::proofs::Sales::sale_need_known))]
    pub fn needs(&self) -> Need
        ensures value { result ≡ need_of self.now }

        // a record that it puts:
        // If a record is to be put, it is at least one of those that the job may still put.
        ensures may_put { (entry : Record) → result ≡ Need.Put entry → 1
            ≤ puts_in (ahead self.now) }
        ensures fits { PutsFit self.now → (entry : Record) → result ≡ Need.Put entry →
            Encodable entry }

        // by the lines of a device, of a scan and of a sale:
        // An exchange, this record to be put, or nothing: its newest line ended it so.
        ensures row { (d : DeviceSetup) (c : Command) (since : List Line) (state : EpochState)
            (owed : Option OpenOrder) → Stands d self.now c since state owed → Needs result d c since state owed }
        ensures scan { (since : List Line) → StandsScan self.now since → NeedsScan result since }
        ensures sale { (c : Command) (since : List Line) → StandsSale self.now c since →
            NeedsSale result c since }
    {
        self.need()
    }

    /// The record that the job is about to put, if it is about to put one: what it needs, where
    /// that is a put.
    #[tactic(auto, using(crate::proofs::Needs::due_allowed, crate::proofs::Fits::due_fits))]
    pub fn due(&self) -> Option<Record>
        ensures value { result ≡ put_in (need_of self.now) }
        ensures may_put { IfSome result (λ r. 1 ≤ puts_in (ahead self.now)) }
        ensures fits { PutsFit self.now → IfSome result Encodable }
    {
        self.record()
    }

    /// Whether the job is about to put a record.
    #[inline]
    pub fn puts(&self) -> bool
        ensures value { result ≡ is_some (put_in (need_of self.now)) }
    {
        matches!(
            self,
            Job::StartPuts { .. }
                | Job::RoundPuts { .. }
                | Job::StopPuts { .. }
                | Job::StopEnds { .. }
                | Job::OrderOpens { .. }
                | Job::OrderCloses { .. }
                | Job::SalePuts { .. }
        )
    }

    /// Whether the job is done.
    #[inline]
    pub fn is_done(&self) -> bool
        ensures value { result ≡ is_some (end_of_job self.now) }
    {
        matches!(self, Job::Done(_))
    }

    /// The end of a job that is done, or none while it runs.
    #[tactic(auto, using(crate::proofs::Needs::end_known, crate::proofs::Needs::scan_end_known, crate::proofs::Sales::sale_end_known))]
    pub fn end(&self) -> Option<End>
        ensures value { result ≡ end_of_job self.now }
        ensures row { (d : DeviceSetup) (c : Command) (since : List Line) (state : EpochState)
            (owed : Option OpenOrder) → Stands d self.now c since state owed → result ≡ newest_end d c since state }
        ensures scan { (since : List Line) → StandsScan self.now since → result
            ≡ end_of_scan since }
        ensures sale { (c : Command) (since : List Line) → StandsSale self.now c since
            → result ≡ newest_sale_end c since }
    {
        self.told_end()
    }

    /// How many records the job may still put. A put that ends a stop with a break leaves none of
    /// its two.
    #[tactic(auto, using(crate::proofs::Sales::sale_may_put))]
    pub fn may_put(&self) -> u32
        ensures value { result ≡ puts_in (ahead self.now) }
        // As many as the rows that are left put.
        ensures row { (d : DeviceSetup) (c : Command) (since : List Line) (state : EpochState)
            (owed : Option OpenOrder) → Stands d self.now c since state owed → newest_end d c since state ≡ None
            → result ≡ puts_in (left d c since state) }
        ensures sale { (c : Command) (since : List Line) → StandsSale self.now c since → newest_sale_end c since ≡ None
            → result ≡ puts_in (left_of_sale c since) }
    {
        self.records()
    }

    /// Whether the job is a payment or a settlement, which is running to close an order.
    #[tactic(auto, using(crate::proofs::Reserves::closes_known, crate::proofs::Sales::sale_never_closes))]
    pub fn closes_order(&self) -> bool
        ensures value { result ≡ has_closes (ahead self.now) }
        ensures row { (d : DeviceSetup) (c : Command) (since : List Line) (state : EpochState)
            (owed : Option OpenOrder) → Stands d self.now c since state owed → newest_end d c since state ≡ None
            → result ≡ closes_order d (works c since) }
        ensures sale { (c : Command) (since : List Line) → StandsSale self.now c since → result
            ≡ false }
    {
        self.closes()
    }

    /// What the job reserves besides coins, in units of value: the price of a sale that is still to
    /// be put.
    #[tactic(auto, using(crate::proofs::Sales::sale_price, crate::proofs::Sales::no_price))]
    pub fn price_reserved(&self) -> u32
        ensures value { result ≡ price_in (ahead self.now) }
        ensures row { (d : DeviceSetup) (c : Command) (since : List Line) (state : EpochState)
            (owed : Option OpenOrder) → Stands d self.now c since state owed → result ≡ 0 }
        ensures sale { (setup : Setup) (c : Command) (since : List Line) → StandsSale self.now c since
            → newest_sale_end c since ≡ None → result ≡ reserved_by_sale setup (works c since) }
    {
        match self {
            Job::SalePuts { price, .. } => *price,
            _ => 0,
        }
    }

    /// How many coins the job reserves: those of the order that a payment is still to open.
    #[tactic(auto, using(crate::proofs::Reserves::reserves_known, crate::proofs::Sales::no_coins))]
    pub fn coins_reserved(&self) -> u8
        ensures value { result ≡ coins_in (ahead self.now) }
        ensures row { (setup : Setup) (d : DeviceSetup) (c : Command) (since : List Line) (state : EpochState)
            (owed : Option OpenOrder) → Stands d self.now c since state owed → newest_end d c since state ≡ None
            → coins_of setup d.addr result ≡ reserved_by setup d (works c since) }
        ensures sale { (c : Command) (since : List Line) → StandsSale self.now c since → result
            ≡ 0 }
    {
        self.coins()
    }

    /// The request that the job sends next. The job stays at its row until it has heard what
    /// follows.
    pub fn request(&self) -> Sending
        requires asks { need_of self.now ≡ Need.Exchange }
        ensures request { Some result ≡ sending_of self.now }
        // The request of its row, to its device, under that device's check.
        ensures row { SendsToDevice self.now result }
        ensures scan { SendsPoll self.now result }
    {
        self.own_request()
    }

    /// The job's request was sent, and it hears this. A row whose reply isn't the wanted one is
    /// tried again, and after the third such try in succession the job ends with [`End::NoAnswer`].
    /// The mask of a start is never sent again: it ends the job with [`End::Started`], or with
    /// [`End::StartUnsure`] where it isn't acknowledged. Nor is the way of a held bill, which ends
    /// it with [`End::Routed`] or with [`End::RouteUnsure`].
    pub fn hear(&mut self, sent: &[u8], heard: &[u8])
        requires asks { need_of self.old ≡ Need.Exchange }
        // It goes on only by the wanted reply; a row without it is tried again. But a start sends
        // its mask once, and goes on only from event counter 0; a payment sends its dispense once
        // and goes on whatever is heard. A reading is judged beside the accept counters that were
        // read before it and after it. An order is closed by the life count alone, under its own
        // id.
        ensures device { HearsDevice self.old sent.now heard.now self.new }
        // An address is listed by its acknowledgement.
        ensures scan { HearsPolled self.old sent.now heard.now self.new }
        ensures keeps { KeepsTo (ahead self.old) self.new }
    {
        match self {
            Job::Asks { .. } => asks::heard(self, sent, heard),
            _ => self.hear_polled(sent, heard),
        }
    }

    /// A scan's request was sent, and it hears this. Scans are rare, and their sets wide: in a
    /// function of its own they take no room where a device answers.
    #[inline(never)]
    fn hear_polled(&mut self, sent: &[u8], heard: &[u8])
        requires asks { need_of self.old ≡ Need.Exchange }
        requires polls { asks_device self.old ≡ false }
        ensures device { HearsDevice self.old sent.now heard.now self.new }
        ensures scan { HearsPolled self.old sent.now heard.now self.new }
        ensures keeps { KeepsTo (ahead self.old) self.new }
    {
        match self {
            Job::ScanCallsSimple { failed } => {
                *self = scan::simple_call_heard(*failed, sent, heard);
            }
            Job::ScanCallsCrc { failed, due } => {
                *self = scan::crc_call_heard(*failed, *due, sent, heard);
            }
            Job::ScanPollsSimple { addr, due, listed } => {
                *self = scan::simple_poll_heard(*addr, *due, *listed, sent, heard);
            }
            Job::ScanPollsCrc { addr, due, listed } => {
                *self = scan::crc_poll_heard(*addr, *due, *listed, sent, heard);
            }
            _ => unreachable!(),
        }
    }

    /// The job's record was put, and the job goes on.
    #[tactic(auto, using(crate::proofs::Epochs::put_leaves, crate::proofs::Needs::fewer_after, crate::proofs::Fits::after_put_fits, crate::proofs::Sales::put_sells))]
    pub fn go_on_after_put(&mut self)
        requires puts { IsPut (need_of self.old) }
        // It goes on to the next row, wherever the record moves the epoch and the open order. So a
        // hopper is asked to dispense only after the record of its order, and a start sends its
        // mask only after that of its epoch.
        ensures put { GoesOnAfterPut self.old self.new }
        ensures sale { GoesOnAfterSale self.old self.new }
        ensures may_put { puts_in (ahead self.new) < puts_in (ahead self.old) }
        ensures fits { PutsFit self.new }
        ensures value { self.new ≡ after_put self.old }
    {
        self.pass_put();
    }

    /// The order that is open at the job's device after its record was put, where this one was open
    /// before.
    #[tactic(auto, using(crate::proofs::Orders::put_owes, crate::proofs::Sales::sale_owes))]
    pub fn order_after(&self, before: Option<Owed>) -> Option<Owed>
        ensures put { (d : DeviceSetup) (c : Command) (since : List Line) (state : EpochState) (entry : Record)
            → need_of self.now ≡ Need.Put entry → Stands d self.now c since state (order_of before)
            → order_of result ≡ order_by entry (order_of before) }
        ensures sale { (c : Command) (since : List Line) → StandsSale self.now c since → result
            ≡ before }
        ensures value { result ≡ owed_after self.now before }
    {
        self.owed_after(before)
    }

    /// Whether the job can be halted: a payment up to the row that waits for the last coin, and a
    /// settlement at that row.
    #[tactic(auto, using(crate::proofs::Halts::halts_known, crate::proofs::Halts::scan_never_halts, crate::proofs::Sales::sale_never_halts))]
    pub fn can_halt(&self) -> bool
        ensures value { result ≡ has_waits (ahead self.now) }
        ensures row { (d : DeviceSetup) (c : Command) (since : List Line) (state : EpochState)
            (owed : Option OpenOrder) → Stands d self.now c since state owed → newest_end d c since state ≡ None
            → result ≡ can_halt d (works c since) }
        ensures scan { (since : List Line) → StandsScan self.now since → result ≡ false }
        ensures sale { (c : Command) (since : List Line) → StandsSale self.now c since → result
            ≡ false }
    {
        self.may_halt()
    }

    /// The job after it was halted: before its hopper is next asked how the payout goes, it is
    /// stopped. A job that is halted already stays as it is.
    #[tactic(auto, using(crate::proofs::Halts::halt_leaves, crate::proofs::Halts::halt_again, crate::proofs::Halts::halt_runs, crate::proofs::Halts::halt_ahead, crate::proofs::Fits::halt_fits))]
    pub fn halt(self) -> Job
        requires { has_waits (ahead self) ≡ true }
        // The hopper is then stopped if it might pay. The halt is remembered over failed tries and
        // over a put, and the tries of the stop are counted by themselves.
        ensures row { (d : DeviceSetup) (c : Command) (since : List Line) (state : EpochState)
            (owed : Option OpenOrder) (addr : ℕ) → Stands d self c since state owed
            → Stands d result c (taken (command.Halt addr) ∷ since) state owed }
        // A further halt changes nothing.
        ensures again { after_halt result ≡ result }
        ensures runs { end_of_job result ≡ None }
        ensures ahead { ahead result ≡ ahead self }
        ensures fits { PutsFit result }
    {
        self.halted()
    }
}
