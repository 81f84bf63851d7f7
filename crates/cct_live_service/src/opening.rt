//! The host over the journal of a disk: one that is there is gone on with, and a blank one is made
//! new.
ghost use Rattle.std.specs.Prelude.{◌≡◌, [], List, false, IfErr, IfOk};
ghost use Rattle.cct_disk.specs.declared.file.TheConstants as files;
ghost use Rattle.cct_host.specs.Host as hosts;
ghost use Rattle.cct_journal.specs.Journal as journals;
ghost use Rattle.cct_model.specs.lines.record.Record.{Record};
ghost use Rattle.cct_model.specs.Setup.{IsSoundSetup};
ghost use Rattle.cct_model.specs.terms.device.Setup.{Setup};
ghost use Rattle.cct_journal.specs.declared.refusal.CreateNo.{CreateNo};
ghost use Rattle.cct_live_service.specs.Causes.{DiskServes, Refuses, RefusesMaking, WasOpened};
ghost use Rattle.cct_live_service.specs.Ending.{unmade_by};
ghost use Rattle.cct_live_service.specs.Found.{Opens, ToldOn};
ghost use Rattle.cct_live_service.specs.Opening.{Opened};

use crate::served::{Served, unmade, unstarted};
use cct_disk::{Disk, MADE_LEN};
use cct_host::Host;
use cct_journal::{Journal, OpenNo};
use cct_model::Setup;

/// A host over the journal of a disk, and whether the journal was there: else the disk was blank.
pub(crate) fn open_host<'s, D: Disk>(
    setup: &'s Setup,
    disk: D,
) -> Result<(Host<'s, D>, bool), (Served, D)>
    requires sound { IsSoundSetup setup.now }
    ensures whole { IfOk result (λ opened. hosts.has_failed opened.0 ≡ false) }
    ensures setup { IfOk result (λ opened. hosts.setup_of opened.0 ≡ setup.now) }
    // It begins with what the disk had. A journal is made only where no byte but 0 is.
    ensures opened { IfOk result (λ opened. Opened disk setup.now opened.0 opened.1) }
    ensures sized { IfOk result (λ opened. D.size disk ≡ files.MADE_LEN) }
    ensures serves { IfOk result (λ opened. DiskServes D.size D.honest D.seen D.cuts D.faults disk
        (hosts.disk_of opened.0) ⊥) }
    ensures refuses { IfErr result (λ e. Refuses D.size D.honest D.seen D.may_leave D.moment D.left_since D.cuts D.faults
        disk e.1 setup.now e.0) }
{
    let (journal, was_there) = match open_journal(disk) {
        Ok(opened) => opened,
        Err(ended) => return Err(ended),
    };
    match Host::start(setup, journal) {
        Ok(host) => Ok((host, was_there)),
        Err((disk, why)) => Err((unstarted(why), disk)),
    }
}

/// The journal of a disk, and whether it was there.
fn open_journal<D: Disk>(disk: D) -> Result<(Journal<D>, bool), (Served, D)>
    ensures whole { IfOk result (λ opened. journals.has_failed opened.0 ≡ false) }
    ensures opens { IfOk result (λ opened. (setup : Setup) (found : List Record) → IsSoundSetup setup
        → ToldOn D.honest D.seen D.may_leave disk setup opened.1 found → Opens opened.0 setup opened.1 found) }
    ensures opened { IfOk result (λ opened. WasOpened disk opened.0 opened.1) }
    ensures sized { IfOk result (λ opened. D.size disk ≡ files.MADE_LEN) }
    ensures serves { IfOk result (λ opened. DiskServes D.size D.honest D.seen D.cuts D.faults disk
        (journals.disk_of opened.0) ⊥) }
    ensures refuses { IfErr result (λ e. (setup : Setup) → Refuses D.size D.honest D.seen D.may_leave D.moment D.left_since
        D.cuts D.faults disk e.1 setup e.0) }
{
    let len = disk.len();
    if len != MADE_LEN {
        return Err((Served::OtherSize { len }, disk));
    }
    match Journal::reopen(disk) {
        Ok((journal, _)) => Ok((journal, true)),
        Err((disk, why)) => match why {
            OpenNo::Alien => match make_journal(disk) {
                Ok(journal) => Ok((journal, false)),
                Err(ended) => Err(ended),
            },
            OpenNo::Disk => Err((Served::Disk, disk)),
            OpenNo::BadRecord { index } => Err((Served::BadRecord { index }, disk)),
        },
    }
}

/// A new journal on a blank disk.
fn make_journal<D: Disk>(disk: D) -> Result<Journal<D>, (Served, D)>
    ensures whole { IfOk result (λ journal. journals.has_failed journal ≡ false) }
    ensures opens { IfOk result (λ journal. (setup : Setup) (found : List Record) → found ≡ []
        → Opens journal setup false found) }
    ensures made { IfOk result (λ journal. WasOpened disk journal false) }
    ensures serves { IfOk result (λ journal. DiskServes D.size D.honest D.seen D.cuts D.faults disk
        (journals.disk_of journal) ⊥) }
    ensures refuses { IfErr result (λ e. (why : CreateNo) × (e.0 ≡ unmade_by why) × RefusesMaking D.size D.honest D.seen
        D.may_leave D.moment D.left_since D.cuts D.faults disk e.1 why) }
{
    match Journal::create(disk) {
        Ok(journal) => Ok(journal),
        Err((disk, why)) => Err((unmade(why), disk)),
    }
}
