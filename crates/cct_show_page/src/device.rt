//! The devices of a page, and what the rows show of each.

use cct_model_lines::{Coins, Record, Said};
use cct_show_picture::LaneKind;

/// An order that is open.
#[derive(Clone, Copy)]
pub(crate) struct Order {
    pub(crate) id: u32,
    pub(crate) count: u8,
}

/// What the rows show of one device.
#[derive(Clone, Copy)]
pub(crate) struct Device {
    pub(crate) addr: u8,
    /// Whether any row names it.
    pub(crate) is_there: bool,
    pub(crate) kind: LaneKind,
    /// Whether it, or the host, had a job.
    pub(crate) has_job: bool,
    pub(crate) exchanges: u64,
    /// The exchanges without a wanted reply.
    pub(crate) bad: u64,
    /// Coins or bills that the records post, and report as lost.
    pub(crate) posted: u64,
    pub(crate) lost: u64,
    /// Coins of closed orders.
    pub(crate) paid: u64,
    pub(crate) unpaid: u64,
    pub(crate) has_epoch: bool,
    pub(crate) order: Option<Order>,
    /// What a monitor says: coins, with those under the premise of `quiet`, and spans in doubt.
    pub(crate) sure: u64,
    pub(crate) doubts: u64,
    pub(crate) fell: u64,
}

/// The devices, and what the rows show of all of them.
#[derive(Drop)]
pub(crate) struct Devices {
    /// The device at each address.
    list: [Device; 256],
    /// Sales, and the sum of their prices.
    pub(crate) sales: u64,
    pub(crate) sold: u64,
    /// Whether any record was put; those of a report count only where none was.
    has_puts: bool,
}

impl Device {
    /// A device of which nothing is reported yet.
    fn new() -> Device {
        Device {
            addr: 0,
            is_there: false,
            kind: LaneKind::Unknown,
            has_job: false,
            exchanges: 0,
            bad: 0,
            posted: 0,
            lost: 0,
            paid: 0,
            unpaid: 0,
            has_epoch: false,
            order: None,
            sure: 0,
            doubts: 0,
            fell: 0,
        }
    }

    /// Whether its order that is open has this id.
    fn has_order(&self, id: u32) -> bool {
        match &self.order {
            Some(order) => order.id == id,
            None => false,
        }
    }

    /// Whether it had a job or has a sum; not if rows only name it.
    pub(crate) fn is_busy(&self) -> bool {
        self.is_there && (self.has_job || self.has_sum())
    }

    /// Counts what a reading posts.
    fn post(&mut self, posted: &Coins, lost: u32) {
        self.posted = self.posted.saturating_add(count_of(posted));
        self.lost = self.lost.saturating_add(u64::from(lost));
    }
}

impl Devices {
    /// No device.
    pub(crate) fn new() -> Devices {
        Devices {
            list: [Device::new(); 256],
            sales: 0,
            sold: 0,
            has_puts: false,
        }
    }

    /// Learns that a row names a device, and what it is, where that is known. Address 0 is none.
    pub(crate) fn learn(&mut self, addr: u8, kind: LaneKind) {
        let device = &mut self.list[usize::from(addr)];
        device.addr = addr;
        device.is_there = addr != 0;
        device.kind.learn(kind);
    }

    /// The device at an address, if a row names it.
    pub(crate) fn there(&self, addr: u8) -> Option<&Device> {
        let device = &self.list[usize::from(addr)];
        if device.is_there { Some(device) } else { None }
    }

    /// How many devices had a job, or have a sum.
    pub(crate) fn count(&self) -> usize {
        self.list.iter().filter(|device| device.is_busy()).count()
    }

    /// Learns that a job begins at an address.
    pub(crate) fn begin_job(&mut self, addr: u8) {
        self.learn(addr, LaneKind::Unknown);
        self.list[usize::from(addr)].has_job = true;
    }

    /// Counts an exchange with a device.
    pub(crate) fn exchange(&mut self, addr: u8, is_bad: bool) {
        let device = &mut self.list[usize::from(addr)];
        device.exchanges = device.exchanges.saturating_add(1);
        device.bad = device.bad.saturating_add(u64::from(is_bad));
    }

    /// The address of the device that has this order open.
    pub(crate) fn of_order(&self, id: u32) -> Option<u8> {
        self.list
            .iter()
            .find(|device| device.has_order(id))
            .map(|device| device.addr)
    }

    /// Counts a record that was put or kept, of the device at an address.
    pub(crate) fn put(&mut self, addr: u8, record: &Record) {
        self.has_puts = true;
        self.add(addr, record);
    }

    /// Counts a record of a report, where no record was put.
    pub(crate) fn listed(&mut self, addr: u8, record: &Record) {
        if !self.has_puts {
            self.add(addr, record);
        }
    }

    /// Counts a record of the device at an address.
    fn add(&mut self, addr: u8, record: &Record) {
        if let Record::Sold { price, .. } = record {
            self.sales = self.sales.saturating_add(1);
            self.sold = self.sold.saturating_add(u64::from(*price));
        }
        let device = &mut self.list[usize::from(addr)];
        match record {
            Record::Epoch { .. } => device.has_epoch = true,
            Record::EpochEnd { .. } => device.has_epoch = false,
            Record::Reading { posted, lost, .. } => device.post(posted, *lost),
            Record::Broken { posted, lost, .. } => {
                device.has_epoch = false;
                device.post(posted, *lost);
            }
            _ => count_order(device, record),
        }
    }

    /// Counts what a monitor says.
    pub(crate) fn say(&mut self, said: &Said) {
        let device = &mut self.list[usize::from(addr_said(said))];
        match said {
            Said::Sure { coins, .. } => {
                device.sure = device.sure.saturating_add(count_of(coins));
            }
            Said::Doubt { .. } => device.doubts = device.doubts.saturating_add(1),
            Said::Fell { count, .. } => device.fell = device.fell.saturating_add(u64::from(*count)),
        }
    }
}

/// Counts the record of an order at its hopper.
fn count_order(device: &mut Device, record: &Record) {
    match record {
        Record::Opened { id, count, .. } => {
            device.order = Some(Order {
                id: *id,
                count: *count,
            });
        }
        Record::Closed { paid, unpaid, .. } => {
            device.order = None;
            device.paid = device.paid.saturating_add(u64::from(*paid));
            device.unpaid = device.unpaid.saturating_add(u64::from(*unpaid));
        }
        Record::Odd { .. } => device.order = None,
        _ => {}
    }
}

/// The device of which a monitor says something.
pub(crate) fn addr_said(said: &Said) -> u8 {
    match said {
        Said::Sure { addr, .. } | Said::Doubt { addr, .. } | Said::Fell { addr, .. } => *addr,
    }
}

/// How many coins there are.
pub(crate) fn count_of(coins: &Coins) -> u64 {
    coins.as_slice().len() as u64
}
