//! What the last line of a transcript means, where no line of the script is refused.

use crate::fields::first_field;

/// What is said where words are refused, and where somebody asks.
pub(crate) const USAGE: &str =
    "usage: cct_main run < SCRIPT, cct_main check < SCRIPT, cct_main report [--journal FILE], cct_main state [--journal FILE] < SETUP, cct_main upgrade < SCRIPT, cct_main audit < CAPTURE, cct_main load SEED N, with SEED 0 to 18446744073709551615 and N 1 to 10000 (docs/OPERATING.md, \"Exit statuses\")";

/// What is said where there was no memory.
pub const MEMORY: &str =
    "there was no memory, and nothing was written (docs/OPERATING.md, \"Exit statuses\")";

/// What is said where writing failed.
pub const UNWRITTEN: &str =
    "standard output couldn't be written; a report tells what was put (docs/OPERATING.md, \"Exit statuses\")";

/// What is said where writing failed in a check.
pub const UNCHECKED: &str =
    "standard output couldn't be written; give the script to check again (docs/OPERATING.md, \"Exit statuses\")";

/// What is said where writing failed in an audit.
pub const UNTOLD: &str =
    "standard output couldn't be written; give the capture to audit again (docs/OPERATING.md, \"Exit statuses\")";

/// What stands for the name of the journal's file in the sentences below.
pub(crate) const FILE: char = '@';

const UNREAD: &str =
    "standard input couldn't be read; the lines before were played (docs/OPERATING.md, \"Exit statuses\")";

const DISK_FAULT: &str =
    "@ couldn't be opened, made, read, written or synced; the disk may be full (docs/OPERATING.md, \"A full disk\", \"After a disk fault\")";

const IN_USE: &str =
    "another process uses @, so nothing was done; wait until it ends, or end it (docs/OPERATING.md, \"Exit statuses\")";

const NOT_BLANK: &str =
    "@ is used, mostly by an earlier run; report it, move it away, and run again (docs/OPERATING.md, \"Exit statuses\")";

const EMPTY: &str =
    "@ is empty, since its making was broken off; remove it (docs/OPERATING.md, \"Exit statuses\")";

const OTHER_SIZE: &str =
    "@ hasn't 2097152 bytes, so it is no journal of this program; move it away (docs/OPERATING.md, \"Exit statuses\")";

const ALIEN: &str =
    "@ is blank, or another file than a journal (docs/OPERATING.md, \"A journal that isn't right\")";

const BAD: &str =
    "a record of @ can't be read, or doesn't follow those before it; keep the file as it is (docs/OPERATING.md, \"A journal that isn't right\")";

const LOST: &str =
    "after a power cut @ has another number of records than were put; keep the file as it is (docs/OPERATING.md, \"A journal that isn't right\")";

const CURRENT: &str =
    "@ is a journal of this version, so there is nothing to do (docs/OPERATING.md, \"An older journal\")";

const NO_ROOM: &str =
    "@ has too many records to be brought forward, and is as it was; begin a new journal (docs/OPERATING.md, \"An older journal\")";

const EPOCH_RUNS: &str =
    "the acceptor named is started in @, which is as it was; stop it with the older program first (docs/OPERATING.md, \"An older journal\")";

/// The last lines that refuse no line of a script: the word, the field after it, or none where the
/// word says it all, and the meaning. The first that fits counts.
static ENDINGS: [(&str, &str, &str); 13] = [
    ("words", "", USAGE),
    ("readfault", "", UNREAD),
    ("diskfault", "", DISK_FAULT),
    ("notblank", "", NOT_BLANK),
    ("disksize", "0", EMPTY),
    ("disksize", "", OTHER_SIZE),
    ("inuse", "journal", IN_USE),
    ("journal", "alien", ALIEN),
    ("journal", "bad", BAD),
    ("journal", "lost", LOST),
    ("upgrade", "current", CURRENT),
    ("upgrade", "room", NO_ROOM),
    ("upgrade", "epoch", EPOCH_RUNS),
];

/// What a last line means that is no refusal of a script's line, by its word and what is after it:
/// a sentence in which [`FILE`] may stand for the name of the journal's file.
pub(crate) fn meaning_of(word: &[u8], rest: &[u8]) -> Option<&'static str> {
    let (field, _) = first_field(rest);
    for (first, second, meaning) in &ENDINGS {
        if first.as_bytes() == word && (second.is_empty() || second.as_bytes() == field) {
            return Some(*meaning);
        }
    }
    None
}
