//! The columns of the table on top of a page.

use crate::device::{Device, Devices};

/// A column: a sum of each device.
#[derive(Clone, Copy, PartialEq, Eq)]
pub(crate) enum Column {
    Exchanges,
    Errors,
    Posted,
    Lost,
    Paid,
    Unpaid,
    Open,
    Sure,
    Doubts,
    Fell,
}

impl Column {
    /// All columns, in their order.
    pub(crate) const ALL: [Column; 10] = [
        Column::Exchanges,
        Column::Errors,
        Column::Posted,
        Column::Lost,
        Column::Paid,
        Column::Unpaid,
        Column::Open,
        Column::Sure,
        Column::Doubts,
        Column::Fell,
    ];

    /// What is above a column.
    pub(crate) fn head(self) -> &'static [u8] {
        match self {
            Column::Exchanges => b"exchanges",
            Column::Errors => b"errors",
            Column::Posted => b"posted",
            Column::Lost => b"lost",
            Column::Paid => b"paid",
            Column::Unpaid => b"unpaid",
            Column::Open => b"open",
            Column::Sure => b"surely in",
            Column::Doubts => b"in doubt",
            Column::Fell => b"fell",
        }
    }

    /// Whether somebody is to look at the sum of a device in a column.
    pub(crate) fn is_bad(self, device: &Device) -> bool {
        match self {
            Column::Errors | Column::Lost | Column::Doubts => device.sum(self) > 0,
            Column::Open => device.order.is_some(),
            _ => false,
        }
    }
}

impl Device {
    /// Its sum in a column; how many orders and epochs are open.
    pub(crate) fn sum(&self, column: Column) -> u64 {
        match column {
            Column::Exchanges => self.exchanges,
            Column::Errors => self.bad,
            Column::Posted => self.posted,
            Column::Lost => self.lost,
            Column::Paid => self.paid,
            Column::Unpaid => self.unpaid,
            Column::Open => u64::from(self.has_epoch || self.order.is_some()),
            Column::Sure => self.sure,
            Column::Doubts => self.doubts,
            Column::Fell => self.fell,
        }
    }

    /// Whether it has a sum in any column.
    pub(crate) fn has_sum(&self) -> bool {
        Column::ALL.iter().any(|column| self.sum(*column) > 0)
    }
}

impl Devices {
    /// Whether any device has a sum in a column.
    pub(crate) fn has_column(&self, column: Column) -> bool {
        for addr in 1..=u8::MAX {
            if let Some(device) = self.there(addr)
                && device.sum(column) > 0
            {
                return true;
            }
        }
        false
    }

    /// How many columns have a sum of any device.
    pub(crate) fn column_count(&self) -> usize {
        Column::ALL
            .iter()
            .filter(|column| self.has_column(**column))
            .count()
    }
}
