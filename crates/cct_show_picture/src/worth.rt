//! What the places of acceptors are worth, where the input says so.

use cct_edge::Sink;
use cct_show_pen::Pen;
use std::alloc::{AllocError, Global};

/// What a coin or a bill of a place of an acceptor is worth.
#[derive(Clone, Copy)]
struct Worth {
    addr: u8,
    place: u8,
    amount: u32,
}

/// What places are worth, as far as the input says: at most one entry for a place.
#[derive(Drop)]
pub(crate) struct Worths {
    list: Vec<Worth>,
}

impl Worths {
    /// Nothing is reported yet.
    pub(crate) fn new(alloc: Global) -> Worths {
        Worths {
            list: Vec::new(alloc),
        }
    }

    /// Learns what a place is worth, the newest time it is reported.
    pub(crate) fn learn(&mut self, addr: u8, place: u8, amount: u32) -> Result<(), AllocError> {
        for worth in self.list.iter_mut() {
            if worth.addr == addr && worth.place == place {
                worth.amount = amount;
                return Ok(());
            }
        }
        self.list.push(Worth {
            addr,
            place,
            amount,
        })?;
        Ok(())
    }

    /// Writes what a place is worth, in brackets after a space; nothing where that isn't reported.
    pub(crate) fn write<K: Sink>(&self, pen: &mut Pen<'_, K>, addr: u8, place: u8) {
        for worth in &self.list {
            if worth.addr == addr && worth.place == place {
                pen.push(b" (");
                pen.push_number(worth.amount);
                pen.push(b")");
            }
        }
    }
}
