//! The numbers of the kinds of bodies, and the limits of a body.

/// The bytes of a body.
pub(crate) const BODY: usize = 31;

/// The bodies of a carry at most: three of sums, and one for each of 32 epochs and orders.
pub(crate) const BODIES: usize = 35;

/// The epochs and the orders of a carry at most.
pub(crate) const ENTRIES: usize = 32;

/// A life count, an accept counter and a number of lost coins are below this.
pub(crate) const COUNTS: u32 = 1 << 24;

pub(crate) const EPOCH: u8 = 1;

pub(crate) const READING: u8 = 2;

pub(crate) const BROKEN: u8 = 3;

pub(crate) const EPOCH_END: u8 = 4;

pub(crate) const OPENED: u8 = 5;

pub(crate) const CLOSED: u8 = 6;

pub(crate) const ODD: u8 = 7;

pub(crate) const SOLD: u8 = 8;

/// The last id of a carry, and three of its sums.
pub(crate) const FIRST_SUMS: u8 = 9;

/// Three more sums.
pub(crate) const SECOND_SUMS: u8 = 10;

/// The last two sums.
pub(crate) const THIRD_SUMS: u8 = 11;

/// An epoch that runs.
pub(crate) const RUNNING: u8 = 12;
