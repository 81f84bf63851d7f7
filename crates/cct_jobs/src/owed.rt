//! The order that a payment or a settlement is for.
ghost use Rattle.std.specs.Prelude.{◌<◌, ◌^◌};

use cct_model::OpenOrder;

/// An order whose life count is one that a hopper gives, in three bytes.
#[derive(Clone, Copy, PartialEq, Eq)]
pub struct Owed {
    pub order: OpenOrder,
    pub ghost fits: { order.life < 2 ^ 24 },
}
