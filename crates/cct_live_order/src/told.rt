//! What is reported of an order.
ghost use Rattle.std.specs.Prelude.{◌≡◌};
ghost use Rattle.cct_record.specs.Body.{Encodable};
ghost use Rattle.cct_live_order.specs.Told.{told_after};

use cct_life::since;
use cct_model::Record;

/// What is known of an order.
#[derive(Clone, Copy, Debug, PartialEq, Eq)]
pub enum OrderTold {
    /// `open ADDRESS COUNT`: it is open at this hopper, for so many coins.
    Open { addr: u8, count: u8 },
    /// `closed PAID UNPAID`: it is closed, and so many of its coins were paid and so many not.
    Closed { paid: u8, unpaid: u8 },
    /// `odd PAID`: it is closed, and its life counts say that so many coins were paid, which are
    /// more than were ordered.
    Odd { paid: u32 },
    /// `unknown`: the journal has no record of it since its last turn.
    Unknown,
    /// `unread`: the journal couldn't be read.
    Unread,
}

/// What is known of the order of an id after one record more.
pub(crate) fn told_after(told: OrderTold, entry: &Record, id: u32) -> OrderTold
    requires { Encodable entry.now }
    ensures { result ≡ told_after id entry.now told }
{
    match entry {
        Record::Opened {
            id: opened,
            addr,
            count,
            ..
        } => {
            if *opened == id {
                OrderTold::Open {
                    addr: *addr,
                    count: *count,
                }
            } else {
                told
            }
        }
        Record::Closed {
            id: closed,
            paid,
            unpaid,
        } => {
            if *closed == id {
                OrderTold::Closed {
                    paid: *paid,
                    unpaid: *unpaid,
                }
            } else {
                told
            }
        }
        Record::Odd {
            id: closed,
            life_before,
            life_after,
        } => {
            if *closed == id {
                OrderTold::Odd {
                    paid: since(*life_before, *life_after),
                }
            } else {
                told
            }
        }
        _ => told,
    }
}
