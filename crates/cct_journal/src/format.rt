//! The format of a journal (`docs/JOURNAL.md`).

/// The bytes of a slot: a gate and a body.
pub(crate) const SLOT: u64 = 32;

/// The gate of a slot that counts.
pub(crate) const OPEN: u8 = 0xa5;

/// The first bytes of an open half: its gate and the title. The version follows.
pub(crate) const TITLE: [u8; 15] = [
    OPEN, b'C', b'C', b'T', b'A', b'L', b'K', b' ', b'J', b'O', b'U', b'R', b'N', b'A', b'L',
];

/// The version that had no halves.
pub(crate) const FIRST_VERSION: u8 = 1;

/// The version that had no accept counters.
pub(crate) const SECOND_VERSION: u8 = 2;

/// The version of the journals that are written today.
pub(crate) const VERSION: u8 = 3;

/// The bodies of a carry at most: three of sums, and one each of 32 epochs and orders.
pub(crate) const CARRY_BODIES: usize = 35;

/// The slots of a half before its records: its header, and those of the carry.
pub(crate) const FIRST_SLOT: u64 = 36;

/// The bytes of a half before its records.
pub(crate) const START: usize = 1152;

/// The least number of bytes on which a journal stands: two halves with one record each.
pub(crate) const LEAST: u64 = 2368;

/// The most records of a journal.
pub const MOST_RECORDS: u64 = 4_294_967_295;

/// The bytes that are read at once where all are read.
pub(crate) const BLOCK: usize = 4096;
