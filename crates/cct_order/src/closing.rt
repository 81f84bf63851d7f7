//! How an order is closed: by the hopper's life count, which no reset clears (ccTalk Generic
//! Specification 4, part 3, header 168).
ghost use Rattle.std.specs.Prelude.{◌≡◌, ◌<◌, ◌^◌};
ghost use Rattle.cct_model.specs.Order.{close};

use cct_life::since;
use cct_model::{OpenOrder, Record};

/// The record that closes an order whose hopper then has this life count. As many coins as the life
/// count shows were paid, and the others of the order were not; where it shows more than were
/// ordered, both life counts are recorded.
#[tactic(auto, unfolding(cct_model::specs::Order::close, cct_model::specs::Order::life_between))]
pub fn close(order: &OpenOrder, life_after: u32) -> Record
    requires before { order.now.life < 2 ^ 24 }
    requires after { life_after < 2 ^ 24 }
    // The life count alone decides how many coins were paid; what the hopper's status says doesn't
    // count.
    ensures { result ≡ close order.now life_after }
{
    let paid = since(order.life, life_after);
    if paid <= u32::from(order.count) {
        let paid = paid as u8;
        Record::Closed {
            id: order.id,
            paid,
            unpaid: order.count - paid,
        }
    } else {
        Record::Odd {
            id: order.id,
            life_before: order.life,
            life_after,
        }
    }
}
