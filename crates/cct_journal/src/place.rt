//! Where a journal is on its disk.
use cct_model_lines::Carry;

/// Where a journal is on its disk: in which half, and what that half begins with.
#[derive(Clone, Drop)]
pub(crate) struct Place {
    /// How many records there are, with those before the half.
    pub(crate) used: u32,
    /// Whether the current half is the second one.
    pub(crate) second: bool,
    /// The generation of the current half: how often the journal turned.
    pub(crate) generation: u32,
    /// How many records stood before the current half.
    pub(crate) base: u32,
    /// The carry of these.
    pub(crate) carry: Carry,
    /// Whether the gate of the other half is open.
    pub(crate) other_open: bool,
}
