//! Calls that are noted: where each write goes, and its bytes, all in one buffer.
ghost use Rattle.std.specs.Prelude.{◌≡◌, ◌+◌, ◌<◌, ◌≤◌, ◌∷◌, [], length, map, reverse};
ghost use Rattle.std.specs.Prelude.{slice_get, IsOk, OnOk, OnErr};
ghost use Rattle.std.specs.Option.{option_map};
ghost use Rattle.cct_disk_queue.specs.Calls.{AreIn, AreWithin, Write, act_of, after, called};

use arrayvec::ArrayVec;
use cct_edge::Failed;

/// The most calls that are noted at once: a put makes four, and a turn before it six more.
pub const MOST_CALLS: usize = 12;

/// The most bytes of the writes that are noted at once: a put with a turn before it writes 1,187.
pub const MOST_BYTES: usize = 1280;

/// A call that a caller has still to make on his part.
#[derive(Clone, Copy)]
pub enum Call<'q> {
    /// These bytes are to be put in place of those from `at` on.
    Write { at: u64, bytes: &'q [u8] },
    /// All that was written is to be kept, from here on.
    Sync,
}

/// The same, where the bytes of all writes are one after the other: those of this one are `len`
/// from `from` on.
#[derive(Clone, Copy, Default)]
pub(crate) enum Note {
    Write { at: u64, from: usize, len: usize },
    #[default]
    Sync,
}

/// Notes a write, if there is room.
#[tactic(auto, using(crate::proofs::Noted::noted_is, crate::proofs::Noted::noted_in))]
pub(crate) fn note_write(
    notes: &mut ArrayVec<Note, MOST_CALLS>,
    kept: &mut ArrayVec<u8, MOST_BYTES>,
    at: u64,
    bytes: &[u8],
) -> Result<(), Failed>
    requires there { AreIn (length kept.old.items) (reverse notes.old.items) }
    ensures there { AreIn (length kept.new.items) (reverse notes.new.items) }
    ensures noted { OnOk result (map (called kept.new.items) (reverse notes.new.items)
        ≡ Write at bytes.now ∷ map (called kept.old.items) (reverse notes.old.items)) }
    ensures counted { OnOk result (length kept.new.items
        ≡ length kept.old.items + length bytes.now) }
    ensures failed { OnErr result ((notes.new.items ≡ notes.old.items)
        × (kept.new.items ≡ kept.old.items)) }
    // It fails only where there is no room.
    ensures sure { length notes.old.items < MOST_CALLS
        → length kept.old.items + length bytes.now ≤ MOST_BYTES → IsOk result }
{
    let from = kept.len();
    if notes.is_full() || kept.try_extend_from_slice(bytes).is_err() {
        return Err(Failed);
    }
    notes.push(Note::Write {
        at,
        from,
        len: bytes.len(),
    });
    Ok(())
}

/// The call that is noted.
pub(crate) fn call_of(note: Note, kept: &[u8]) -> Call<'_>
    requires { AreIn (length kept.now) (note ∷ []) }
    ensures { act_of result ≡ called kept.now note }
{
    match note {
        Note::Write { at, from, len } => Call::Write {
            at,
            bytes: &kept[from..from + len],
        },
        Note::Sync => Call::Sync,
    }
}

/// The call of an index, the first that was noted at 0.
#[tactic(auto, using(crate::proofs::Noted::in_at, crate::proofs::Noted::act_at, crate::proofs::Noted::no_act_at))]
pub(crate) fn call_at<'q>(notes: &[Note], kept: &'q [u8], index: usize) -> Option<Call<'q>>
    requires { AreIn (length kept.now) (reverse notes.now) }
    ensures { option_map act_of result ≡ slice_get
        (reverse (map (called kept.now) (reverse notes.now))) index }
{
    if index < notes.len() {
        Some(call_of(notes[index], kept))
    } else {
        None
    }
}

/// Makes noted calls on bytes, in their order.
#[tactic(auto, using(crate::proofs::Noted::acts_last, crate::proofs::Noted::in_last, crate::proofs::Noted::after_one))]
pub(crate) fn make_all(bytes: &mut Vec<u8>, notes: &[Note], kept: &[u8])
    requires there { AreIn (length kept.now) (reverse notes.now) }
    requires within { AreWithin (length bytes.old.items) (map (called kept.now) (reverse notes.now)) }
    ensures { bytes.new.items ≡ after bytes.old.items (map (called kept.now) (reverse notes.now)) }
{
    if let [before @ .., last] = notes {
        make_all(bytes, before, kept);
        make(bytes, *last, kept);
    }
}

/// Makes a noted call on bytes.
fn make(bytes: &mut Vec<u8>, note: Note, kept: &[u8])
    requires there { AreIn (length kept.now) (note ∷ []) }
    requires within { AreWithin (length bytes.old.items) (called kept.now note ∷ []) }
    ensures { bytes.new.items ≡ after bytes.old.items (called kept.now note ∷ []) }
{
    match note {
        Note::Write { at, from, len } => {
            let at = at as usize;
            bytes[at..at + len].copy_from_slice(&kept[from..from + len]);
        }
        Note::Sync => {}
    }
}
