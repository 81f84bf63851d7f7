//! The ticket of a dispense (ccTalk Generic Specification 4, part 3, header 167).
ghost use Rattle.std.specs.Prelude.{◌≡◌};

use cct_model::OpenOrder;

/// Lets a hopper dispense the coins of an order once: the hopper's serial number and the count of
/// the order. It can't be copied, and what holds it has to spend it.
pub struct DispenseTicket {
    serial: u32,
    count: u8,
}

impl DispenseTicket {
    /// The ticket of an order at the hopper with this serial number.
    pub fn new(order: &OpenOrder, serial: u32) -> DispenseTicket
        ensures serial { result.serial ≡ serial }
        ensures count { result.count ≡ order.now.count }
    {
        DispenseTicket {
            serial,
            count: order.count,
        }
    }

    /// The serial number and the count of the one dispense that it is for.
    pub fn spend(self) -> (u32, u8)
        // The ticket is gone then, so an order is dispensed once.
        ensures { result ≡ (self.serial, self.count) }
    {
        let DispenseTicket { serial, count } = self;
        (serial, count)
    }
}
