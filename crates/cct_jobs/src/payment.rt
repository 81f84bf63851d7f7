//! The payment of an order, and the settlement of one that stayed open: the hopper is enabled, its
//! life count read, the order opened and its coins dispensed once; when nothing is left to pay, the
//! life count says how many coins fell (ccTalk Generic Specification 4, part 3, headers 164, 166,
//! 167, 168 and 172).
ghost use Rattle.std.specs.Prelude.{◌≡◌, ◌<◌, ◌^◌, ℕ, Option, Some, false, true};
ghost use Rattle.cct_model.specs.declared.judging.OpenOrder.{OpenOrder};
ghost use Rattle.cct_model.specs.terms.request.ReplyForm.TheVariants as form;
ghost use Rattle.cct_model.specs.Reply as shown;
ghost use Rattle.cct_model.specs.Reply.{reply_shown};
ghost use Rattle.cct_model.specs.Request.{form_of};
ghost use Rattle.cct_msg.specs.Forms.{form_shown};
ghost use Rattle.cct_jobs.specs.declared.stage.Stage.TheVariants.{Pays};
ghost use Rattle.cct_jobs.specs.declared.payout.Payout.TheVariants.{Counts, Dispenses, Recounts};
ghost use Rattle.cct_jobs.specs.declared.payout.Payout.TheVariants.{Waits};
ghost use Rattle.cct_jobs.specs.Ahead.{nothing_left, payout_ahead};
ghost use Rattle.cct_jobs.specs.Jobs.{FitsLife, closing_end, halted_row, halted_tries, pays_on};
ghost use Rattle.cct_jobs.specs.Jobs.{payout_request, settling};
ghost use Rattle.cct_jobs.specs.declared.payout.Closing.{Closing};
ghost use Rattle.cct_jobs.specs.declared.target.Target.{Target};
ghost use Rattle.cct_model.specs.Rows as rows;
ghost use Rattle.cct_jobs.specs.Onward.{KeepsClosing, LeadsTo};

use crate::asks::first_try;
use crate::job::Job;
use crate::owed::Owed;
use crate::payout::{Closing, Payout};
use crate::stage::Stage;
use crate::target::Target;
use cct_model::{End, OpenOrder, Record, Reply};
use cct_order::close;

/// The payment or the settlement got the wanted reply to a row that another question follows, and
/// comes to that one where it stands. The answer is whether its row is one of these.
pub(crate) fn pays_on(row: &mut Payout, reply: &Reply<'_>) -> bool
    requires wanted { form_shown (reply_shown reply.now) ≡ form_of (payout_request row.old) }
    ensures which { result ≡ pays_on row.old }
    ensures stays { result ≡ false → row.new ≡ row.old }
    ensures device { result ≡ true → (device : Target) (failed : ℕ)
        → LeadsTo device (Pays row.old) failed (Some (reply_shown reply.now)) (Job.Asks device (Pays row.new) 0) }
    ensures keeps { result ≡ true → (device : Target)
        → KeepsClosing (payout_ahead device row.old) (Job.Asks device (Pays row.new) 0) }
{
    match row {
        Payout::Enables { id, count, halted } => {
            let (id, count, halted) = (*id, *count, *halted);
            *row = Payout::Counts { id, count, halted };
            true
        }
        Payout::Dispenses { owed, halted, .. } => {
            let next = settling(Closing::Payment, *owed, *halted);
            *row = next;
            true
        }
        Payout::Waits { closing, owed } => {
            let next = waited(*closing, *owed, is_paid_out(reply));
            *row = next;
            true
        }
        _ => false,
    }
}

/// The row of the payment or the settlement got the wanted reply, and the job goes on to a row that
/// is none of these.
pub(crate) fn answered(job: &mut Job, device: Target, row: Payout, reply: &Reply<'_>)
    requires last { pays_on row ≡ false }
    requires wanted { form_shown (reply_shown reply.now) ≡ form_of (payout_request row) }
    requires life { FitsLife (reply_shown reply.now) }
    ensures device { (failed : ℕ) → LeadsTo device (Pays row) failed (Some (reply_shown reply.now))
        job.new }
    ensures keeps { KeepsClosing (payout_ahead device row) job.new }
{
    match row {
        Payout::Counts { id, count, halted } => {
            *job = opens(device, id, count, halted, life_in(reply));
        }
        Payout::Stops { closing, owed } => *job = settles(device, closing, owed, false),
        Payout::Recounts { owed, .. } => *job = closes(owed, life_in(reply)),
        _ => unreachable!(),
    }
}

/// The payment or the settlement at the row that waits for the last coin, or that stops the hopper
/// before.
fn settles(device: Target, closing: Closing, owed: Owed, halted: bool) -> Job
    ensures { result ≡ Job.Asks device (Pays (settling closing owed halted)) 0 }
{
    let row = settling(closing, owed, halted);
    first_try(device, Stage::Pays { row })
}

/// The row that waits for the last coin, or that stops the hopper before.
fn settling(closing: Closing, owed: Owed, halted: bool) -> Payout
    ensures { result ≡ settling closing owed halted }
{
    if halted {
        Payout::Stops { closing, owed }
    } else {
        Payout::Waits { closing, owed }
    }
}

/// The payment after its dispense was sent, whatever was heard of it.
#[tactic(auto, using(crate::proofs::Payments::dispense_leaves))]
pub(crate) fn dispensed(device: Target, owed: Owed, halted: bool) -> Job
    ensures device { (serial failed : ℕ) (got : Option shown.Reply)
        → LeadsTo device (Pays (Dispenses serial owed halted)) failed got result }
    ensures keeps { KeepsClosing rows.settling result }
{
    settles(device, Closing::Payment, owed, halted)
}

/// The row of the payment or the settlement after it was reported whether nothing is left to pay.
#[tactic(auto, using(crate::proofs::Payments::status_paid, crate::proofs::Payments::status_goes_on))]
fn waited(closing: Closing, owed: Owed, is_paid_out: bool) -> Payout
    ensures device { (device : Target) (failed : ℕ) (y : shown.Reply) → is_paid_out ≡ nothing_left y
        → LeadsTo device (Pays (Waits closing owed)) failed (Some y) (Job.Asks device (Pays result) 0) }
    ensures keeps { (device : Target) → KeepsClosing rows.settling (Job.Asks device (Pays result) 0) }
{
    if is_paid_out {
        Payout::Recounts { closing, owed }
    } else {
        Payout::Waits { closing, owed }
    }
}

/// The payment after it read the life count of its hopper: its order is to be opened.
#[tactic(auto, using(crate::proofs::Payments::count_opens))]
fn opens(device: Target, id: u32, count: u8, halted: bool, life: u32) -> Job
    requires { life < 2 ^ 24 }
    ensures device { (failed : ℕ) → LeadsTo device (Pays (Counts id count halted)) failed
        (Some (shown.life life)) result }
    ensures keeps { KeepsClosing (payout_ahead device (Counts id count halted)) result }
{
    let owed = Owed {
        order: OpenOrder {
            id,
            addr: device.addr,
            count,
            life,
        },
    };
    Job::OrderOpens {
        device,
        owed,
        halted,
    }
}

/// The payment or the settlement after it read the life count of its hopper again: its order is to
/// be closed.
#[tactic(auto, using(crate::proofs::Payments::recount_closes, crate::proofs::Fits::closed_fits))]
fn closes(owed: Owed, life: u32) -> Job
    requires { life < 2 ^ 24 }
    ensures device { (device : Target) (closing : Closing) (failed : ℕ)
        → LeadsTo device (Pays (Recounts closing owed)) failed (Some (shown.life life)) result }
    ensures keeps { KeepsClosing rows.settling result }
{
    let entry = close(&owed.order, life);
    let end = end_of(&entry);
    Job::OrderCloses { entry, end }
}

/// How a job ends that closes an order by this record.
fn end_of(entry: &Record) -> End
    ensures { result ≡ closing_end entry.now }
{
    match entry {
        Record::Closed { .. } => End::Closed,
        _ => End::OddLife,
    }
}

/// The life count that the reply to the question for it is.
fn life_in(reply: &Reply<'_>) -> u32
    requires wanted { form_shown (reply_shown reply.now) ≡ Some form.Life }
    requires life { FitsLife (reply_shown reply.now) }
    ensures value { reply_shown reply.now ≡ shown.life result }
    ensures fits { result < 2 ^ 24 }
{
    match reply {
        Reply::Life { count } => *count,
        _ => unreachable!(),
    }
}

/// Whether the reply to the question how a payout goes says that nothing is left to pay.
fn is_paid_out(reply: &Reply<'_>) -> bool
    requires { form_shown (reply_shown reply.now) ≡ Some form.Status }
    ensures { result ≡ nothing_left (reply_shown reply.now) }
{
    match reply {
        Reply::Status { remaining, .. } => *remaining == 0,
        _ => unreachable!(),
    }
}

/// The payment or the settlement after a halt, where it can be halted: what is halted already stays
/// as it is.
pub(crate) fn halted(device: Target, row: Payout, failed: u8) -> Job
    ensures { result ≡ Job.Asks device (Pays (halted_row row)) (halted_tries row failed) }
{
    match row {
        Payout::Enables { id, count, .. } => asks(
            device,
            Payout::Enables {
                id,
                count,
                halted: true,
            },
            failed,
        ),
        Payout::Counts { id, count, .. } => asks(
            device,
            Payout::Counts {
                id,
                count,
                halted: true,
            },
            failed,
        ),
        Payout::Dispenses { serial, owed, .. } => {
            asks(
                device,
                Payout::Dispenses {
                    serial,
                    owed,
                    halted: true,
                },
                failed,
            )
        }
        Payout::Waits { closing, owed } => asks(device, Payout::Stops { closing, owed }, 0),
        _ => asks(device, row, failed),
    }
}

/// The job at a row after so many failed tries.
fn asks(device: Target, row: Payout, failed: u8) -> Job
    ensures { result ≡ Job.Asks device (Pays row) failed }
{
    Job::Asks {
        device,
        stage: Stage::Pays { row },
        failed,
    }
}
