//! The operator takes a changed setup over for a journal, on purpose.
ghost use Rattle.std.specs.Prelude.{IfOk, IfSome};
ghost use Rattle.cct_model_lines.specs.Setup.{IsSoundSetup};

use crate::ending::{DONE, Stop, code_after};
use crate::keeping::totals_by;
use cct_disk::Disk;
use cct_edge::Sink;
use cct_live_service::Served;
use cct_live_setup_copy::{CopyNames, CopyNo};
use cct_model::Totals;
use cct_model_lines::{Entry, Setup};
use cct_text::put_entry;
use std::fs::Files;

/// Keeps a setup for a journal in the place of the one that is kept, and shows the balance by both.
/// Where the records don't follow by it nothing is kept, and what is wrong with the journal is
/// reported. The journal isn't changed.
pub(crate) fn adopt<R: Files, D: Disk + Drop, K: Sink>(
    rt: &R,
    names: &CopyNames,
    setup: &Setup,
    disk: D,
    out: &mut K,
) -> Result<u8, Stop>
    requires sound { IsSoundSetup setup.now }
{
    let kept = kept_setup(rt, names)?;
    let (before, disk) = balance_kept(&kept, disk);
    let after = match totals_by(setup, disk) {
        Ok((after, _)) => after,
        Err((_, why)) => return tell_refusal(&why, out),
    };
    if let Some(before) = before {
        put_entry(out, &Entry::Balance(before))?;
    }
    names.keep(rt, setup)?;
    out.put(b"adopted\n")?;
    put_entry(out, &Entry::Balance(after))?;
    Ok(DONE)
}

/// The setup that is kept; none where there is none, or one that wasn't written whole.
fn kept_setup<R: Files>(rt: &R, names: &CopyNames) -> Result<Option<Setup>, Stop>
    ensures sound { IfOk result (λ found. IfSome found IsSoundSetup) }
{
    match names.find(rt) {
        Ok(kept) => Ok(kept),
        Err(CopyNo::Torn { .. }) => Ok(None),
        Err(why) => Err(why.into()),
    }
}

/// What the operator has by the setup that is kept, where there is one by which the records follow.
fn balance_kept<D: Disk>(kept: &Option<Setup>, disk: D) -> (Option<Totals>, D)
    requires sound { IfSome kept.now IsSoundSetup }
{
    match kept {
        None => (None, disk),
        Some(kept) => match totals_by(kept, disk) {
            Ok((totals, disk)) => (Some(totals), disk),
            Err((disk, _)) => (None, disk),
        },
    }
}

/// Says why no host starts over a journal, and answers with the exit status.
fn tell_refusal<K: Sink>(why: &Served, out: &mut K) -> Result<u8, Stop> {
    if let Some(entry) = last_entry(why) {
        put_entry(out, &entry)?;
    }
    Ok(code_after(why))
}

/// The last line of a service that ends so over a journal.
fn last_entry(why: &Served) -> Option<Entry> {
    match why {
        Served::Disk => Some(Entry::DiskFault),
        Served::OtherSize { len } => Some(Entry::DiskSize { len: *len }),
        Served::Alien => Some(Entry::JournalAlien),
        Served::BadRecord { index } => Some(Entry::JournalBad { index: *index }),
        _ => None,
    }
}
