//! What a handle keeps: a device core or its settings, a machine, or a host. A host borrows its
//! machine for as long as it is there.

use crate::held::Held;
use crate::hosted::Hosted;
use crate::machine::Machine;

/// Settings or a device core, the devices of a machine, or a host. The two that are large lie in a
/// block of their own, so a core takes no more memory than it needs.
#[derive(Drop)]
pub enum Kept {
    Device(Held),
    Machine(Box<Machine>),
    Host(Box<Hosted>),
}
