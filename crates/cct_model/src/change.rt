//! Sessions of change: what the operator's desk knows of one.

/// The coins of one hopper, as the operator counted them.
#[derive(Clone, Copy, Default, PartialEq, Eq)]
pub struct Tray {
    /// The address of the hopper.
    pub addr: u8,
    /// What one coin is worth.
    pub value: u32,
    /// How many coins are in it.
    pub stock: u32,
}

/// A payment that a session of change gave the host: hopper `addr` is to pay `count` coins, and the
/// order has this id.
#[derive(Clone, Copy, PartialEq, Eq)]
pub struct Payment {
    pub addr: u8,
    pub id: u32,
    pub count: u8,
}

/// What became of a payment.
#[derive(Clone, Copy, PartialEq, Eq)]
pub enum Phase {
    /// Its job is to open its order.
    Begun,
    /// Its order is open.
    Opened,
    /// Its order was closed: so many coins were paid, and so many were not.
    Closed { paid: u8, unpaid: u8 },
    /// Its order was closed, and the life counts don't fit it.
    Odd,
    /// Its job ended, or the power was cut, and its order was never opened.
    Lost,
}

/// The last payment of a session, which isn't settled yet.
#[derive(Clone, Copy, PartialEq, Eq)]
pub struct Due {
    pub payment: Payment,
    pub phase: Phase,
}

/// A session of change (`docs/SCRIPT.md`). Its amounts are in units of the setup's values.
#[derive(Clone, Copy, PartialEq, Eq)]
pub struct Session {
    /// What is to be paid, 1 to 10,000.
    pub amount: u32,
    /// What of it isn't paid yet, as far as its payments are settled.
    pub rest: u32,
    /// The id of its next payment: an id is below 2^32.
    pub next: u64,
    /// Its last payment, where that isn't settled yet.
    pub due: Option<Due>,
}
