//! A journal belongs to a setup: the setup beside it is compared with the one given, or taken
//! along.
ghost use Rattle.std.specs.Prelude.{◌≡◌, ◌≤◌, ◌+◌};
ghost use Rattle.cct_model_lines.specs.Setup.{IsSoundSetup};

use crate::ending::Stop;
use cct_disk::{Disk, FileDisk, MADE_LEN};
use cct_host::{Host, StartNo};
use cct_journal::{Journal, OpenNo};
use cct_live_service::Served;
use cct_live_setup_copy::{CopyNames, CopyNo, first_difference};
use cct_model::Totals;
use cct_model_lines::Setup;
use std::fs::Files;

/// How many bytes are read at once.
const BLOCK: usize = 4096;

/// What a disk has.
#[derive(Clone, Copy)]
enum Standing {
    /// Nothing: every byte is 0.
    Blank,
    /// A journal that was made.
    Made,
    /// Anything else, of which the service says what it is; or it couldn't be read.
    Other,
}

/// Sees to it that the journal on a disk and the setup given belong together, and says whether the
/// setup was taken along beside an older journal. Where nothing was recorded yet, the setup is kept
/// for the journal that is to be made. The disk is only read.
pub(crate) fn keep_setup<R: Files>(
    rt: &R,
    names: &CopyNames,
    setup: &Setup,
    disk: FileDisk<R>,
) -> Result<(FileDisk<R>, bool), Stop>
    requires sound { IsSoundSetup setup.now }
{
    let (standing, disk) = standing_of(disk);
    match standing {
        Standing::Blank => {
            names.keep(rt, setup)?;
            Ok((disk, false))
        }
        Standing::Made => match names.find(rt)? {
            Some(kept) => {
                compare(&kept, setup)?;
                Ok((disk, false))
            }
            None => take_along(rt, names, setup, disk),
        },
        Standing::Other => Ok((disk, false)),
    }
}

/// What a disk has, which is only read.
fn standing_of<D: Disk>(disk: D) -> (Standing, D) {
    if disk.len() != MADE_LEN {
        return (Standing::Other, disk);
    }
    match Journal::reopen(disk) {
        Ok((journal, _)) => (Standing::Made, journal.into_disk()),
        Err((disk, OpenNo::Alien)) => {
            let mut disk = disk;
            let standing = if is_blank(&mut disk) {
                Standing::Blank
            } else {
                Standing::Other
            };
            (standing, disk)
        }
        Err((disk, _)) => (Standing::Other, disk),
    }
}

/// Whether every byte of a disk of a journal's length is 0.
fn is_blank<D: Disk>(disk: &mut D) -> bool
    requires { D.size disk.old ≡ MADE_LEN }
{
    let mut room = [0; BLOCK];
    for block in 0..MADE_LEN / BLOCK as u64 {
        if !is_blank_at(disk, block * BLOCK as u64, &mut room) {
            return false;
        }
    }
    true
}

/// Whether a block of a disk could be read, and every byte of it is 0.
fn is_blank_at<D: Disk>(disk: &mut D, at: u64, room: &mut [u8; BLOCK]) -> bool
    requires { at + BLOCK ≤ D.size disk.old }
    ensures { D.size disk.new ≡ D.size disk.old }
{
    disk.read(at, room).is_ok() && room.iter().all(|byte| *byte == 0)
}

/// That no record and no money differs by a setup from what they are by the one that is kept.
fn compare(kept: &Setup, setup: &Setup) -> Result<(), Stop> {
    match first_difference(kept, setup) {
        None => Ok(()),
        Some((addr, what)) => Err(Stop::OtherSetup { addr, what }),
    }
}

/// Keeps the setup for a journal that has none, if the records follow by it. If they don't, the
/// service shows so.
fn take_along<R: Files>(
    rt: &R,
    names: &CopyNames,
    setup: &Setup,
    disk: FileDisk<R>,
) -> Result<(FileDisk<R>, bool), Stop>
    requires sound { IsSoundSetup setup.now }
{
    match totals_by(setup, disk) {
        Ok((_, disk)) => {
            names.keep(rt, setup)?;
            Ok((disk, true))
        }
        Err((disk, _)) => Ok((disk, false)),
    }
}

/// What the operator has by a setup and the journal on a disk, which is only read; or why no host
/// starts over it.
pub(crate) fn totals_by<D: Disk>(setup: &Setup, disk: D) -> Result<(Totals, D), (D, Served)>
    requires sound { IsSoundSetup setup.now }
{
    let len = disk.len();
    if len != MADE_LEN {
        return Err((disk, Served::OtherSize { len }));
    }
    let journal = match Journal::reopen(disk) {
        Ok((journal, _)) => journal,
        Err((disk, why)) => return Err((disk, unopened(why))),
    };
    match Host::start(setup, journal) {
        Ok(host) => {
            let totals = host.totals();
            Ok((totals, host.into_disk()))
        }
        Err((disk, why)) => Err((disk, unstarted(why))),
    }
}

/// How a service would end over a disk without such a journal.
fn unopened(why: OpenNo) -> Served {
    match why {
        OpenNo::Disk => Served::Disk,
        OpenNo::Alien => Served::Alien,
        OpenNo::BadRecord { index } => Served::BadRecord { index },
    }
}

/// How it would end over a journal whose records don't follow by the setup.
fn unstarted(why: StartNo) -> Served {
    match why {
        StartNo::Disk => Served::Disk,
        StartNo::BadRecord { index } => Served::BadRecord { index },
    }
}

impl From<CopyNo> for Stop {
    fn from(why: CopyNo) -> Stop {
        match why {
            CopyNo::Unread => Stop::CopyUnread,
            CopyNo::Torn { number, kind } => Stop::CopyTorn { number, kind },
            CopyNo::Unwritten => Stop::CopyUnwritten,
        }
    }
}
