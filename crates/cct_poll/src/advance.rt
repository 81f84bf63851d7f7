//! One step of a host whose caller has the wire.
ghost use Rattle.std.specs.Prelude.{◌≡◌, ◌≤◌, ℕ, List, [], Some, false, true};
ghost use Rattle.std.specs.Prelude.{is_some, length};
ghost use Rattle.cct_disk.specs.Disk.{IsReady};
ghost use Rattle.cct_disk_queue.specs.Queue.{Spent};
ghost use Rattle.cct_model.specs.terms.wire.TheConstants.{MOST_HEARD};
ghost use Rattle.cct_host.specs.Desks.{due_on, sending_on};
ghost use Rattle.cct_host.specs.Held.{piece_of};
ghost use Rattle.cct_host.specs.Host.{disk_of, has_failed, setup_of};
ghost use Rattle.cct_poll.specs.Steps.{Steps};

use crate::canned::Canned;
use arrayvec::ArrayVec;
use cct_disk_queue::QueueDisk;
use cct_edge::Failed;
use cct_host::Host;
use cct_model::Entry;

/// The host, which was about to send a request at an address, has sent it and hears this. It puts
/// nothing then, so it doesn't fail.
pub(crate) fn hear(
    host: &mut Host<'_, QueueDisk>,
    addr: u8,
    heard: &[u8],
    report: &mut ArrayVec<Entry, 8>,
)
    requires few { length heard.now ≤ MOST_HEARD }
    requires empty { report.old.items ≡ [] }
    requires whole { has_failed host.old ≡ false }
    requires ready { IsReady Spent (disk_of host.old) }
    requires sends { is_some (sending_on host.old.desks addr) ≡ true }
    ensures setup { setup_of host.new ≡ setup_of host.old }
    ensures whole { has_failed host.new ≡ false }
    ensures unfailed { (disk_of host.new).faults ≡ 0 }
    ensures steps { (piece : List ℕ) → piece_of (sending_on host.old.desks addr) ≡ Some piece
        → Steps piece heard.now addr host.old host.new report.new.items }
{
    let mut link = Canned::new(heard);
    match host.next(addr, &mut link, report) {
        Ok(()) => {}
        Err(Failed) => unreachable!(),
    }
}

/// The host puts the record that is due at an address, and sends nothing. Its disk takes the calls,
/// so it doesn't fail.
pub(crate) fn put(host: &mut Host<'_, QueueDisk>, addr: u8, report: &mut ArrayVec<Entry, 8>)
    requires empty { report.old.items ≡ [] }
    requires whole { has_failed host.old ≡ false }
    requires ready { IsReady Spent (disk_of host.old) }
    requires due { is_some (due_on host.old.desks addr) ≡ true }
    ensures setup { setup_of host.new ≡ setup_of host.old }
    ensures whole { has_failed host.new ≡ false }
    ensures unfailed { (disk_of host.new).faults ≡ 0 }
    ensures steps { Steps [] [] addr host.old host.new report.new.items }
{
    let mut link = Canned::new(&[]);
    match host.next(addr, &mut link, report) {
        Ok(()) => {}
        Err(Failed) => unreachable!(),
    }
}
