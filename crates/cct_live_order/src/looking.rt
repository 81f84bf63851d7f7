//! An order is looked up in the journal on a disk.
ghost use Rattle.std.specs.Prelude.{◌≡◌, ◌≤◌, ◌<◌, ℕ, List, Err, IfErr, IfOk, Some};
ghost use Rattle.cct_disk.specs.Disk.{OnlyReads};
ghost use Rattle.cct_edge.specs.Faults.{Caused};
ghost use Rattle.cct_journal.specs.Journal as journals;
ghost use Rattle.cct_model.specs.lines.record.Record.{Record};
ghost use Rattle.cct_live_order.specs.Looking.{IsKnownBy, Looks, ReadsNext};

use crate::told::{OrderTold, told_after};
use cct_disk::Disk;
use cct_journal::{Journal, OpenNo};
use cct_model::Record;

/// What the records since the last turn of the journal on a disk say of the order of an id; or why
/// they can't be read. The disk is only read, and given back.
///
/// An order that an earlier record opened or closed is unknown then, and so is one that was never
/// opened.
pub fn order_on<D: Disk>(disk: D, id: u32) -> (Result<OrderTold, OpenNo>, D)
    ensures looks { (image : List ℕ) → D.seen disk ≡ Some image → Looks image id result.0 }

    // the disk
    ensures reads { OnlyReads D.size D.honest D.seen D.may_leave D.moment D.left_since D.cuts disk
        result.1 }
    ensures disk_cause { Caused (D.faults disk) (D.faults result.1) (result.0 ≡ Err OpenNo.Disk) }
{
    match Journal::reopen(disk) {
        Ok((mut journal, _)) => {
            let told = look(&mut journal, id);
            (told, journal.into_disk())
        }
        Err((disk, why)) => (Err(why), disk),
    }
}

/// What the records that a journal keeps one by one say of the order of an id.
fn look<D: Disk>(journal: &mut Journal<D>, id: u32) -> Result<OrderTold, OpenNo>
    ensures all { IfOk result (IsKnownBy (journals.JournalReadsFrom journal.old) id) }
    ensures refused { IfErr result (λ why. (rest : List Record) → journals.JournalReadsFrom journal.old rest
        → why ≡ OpenNo.Disk) }
    ensures reads { OnlyReads D.size D.honest D.seen D.may_leave D.moment D.left_since D.cuts
        (journals.disk_of journal.old) (journals.disk_of journal.new) }
    ensures disk_cause { Caused (D.faults (journals.disk_of journal.old)) (D.faults (journals.disk_of journal.new))
        (result ≡ Err OpenNo.Disk) }
{
    let mut told = OrderTold::Unknown;
    for index in journal.base()..journal.used() {
        told = match look_next(journal, index, told, id) {
            Ok(told) => told,
            Err(why) => return Err(why),
        };
    }
    Ok(told)
}

/// What is known of the order of an id after the record of an index.
fn look_next<D: Disk>(
    journal: &mut Journal<D>,
    index: u32,
    told: OrderTold,
    id: u32,
) -> Result<OrderTold, OpenNo>
    requires from { journals.base_of journal.old ≤ index }
    requires within { index < journals.used_of journal.old }
    ensures one { IfOk result (ReadsNext (journals.JournalReadsFrom journal.old)
        (journals.base_of journal.old) index id told) }
    ensures refused { IfErr result (λ why. (rest : List Record) → journals.JournalReadsFrom journal.old rest
        → why ≡ OpenNo.Disk) }

    // the journal stays as it is
    ensures told { (rest : List Record) → journals.JournalReadsFrom journal.old rest
        → journals.JournalReadsFrom journal.new rest }
    ensures place { journals.place_of journal.new ≡ journals.place_of journal.old }
    ensures reads { OnlyReads D.size D.honest D.seen D.may_leave D.moment D.left_since D.cuts
        (journals.disk_of journal.old) (journals.disk_of journal.new) }
    ensures disk_cause { Caused (D.faults (journals.disk_of journal.old)) (D.faults (journals.disk_of journal.new))
        (result ≡ Err OpenNo.Disk) }
{
    match journal.read_at(index) {
        Ok(entry) => Ok(told_after(told, &entry, id)),
        Err(why) => Err(OpenNo::from(why)),
    }
}
