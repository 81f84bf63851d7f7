//! What is recorded of the payments or the sales at a place, and which job runs there.
use cct_jobs::Owed;
use cct_model::Command;

/// The open order, if there is one, the id of the payment or the sale that is running, or 0, and
/// the command whose job is running, if one is.
#[derive(Clone, Copy)]
pub(crate) struct OrderState {
    pub order: Option<Owed>,
    pub id: u32,
    pub begun: Option<Command>,
}
