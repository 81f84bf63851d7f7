//! What the records of a journal sum up to.
ghost use Rattle.std.specs.Prelude.{◌≡◌, ◌+◌, ◌-◌, ◌^◌, ℕ};
ghost use Rattle.cct_bench_report.specs.Sums.{AreWithin, sums_in, with_record};
ghost use Rattle.cct_bench_report.specs.Listing.{total_in};

use cct_model_lines::{Carry, Entry, Record};

/// Sums over records: coins posted, coins lost, coins paid and unpaid, and prices.
#[derive(Clone, Copy, PartialEq, Eq)]
pub struct Sums {
    pub posted: u64,
    pub lost: u64,
    pub paid: u64,
    pub unpaid: u64,
    pub sold: u64,
}

impl Sums {
    /// The sums over the records of a carry.
    pub fn of(carry: &Carry) -> Sums
        ensures { result ≡ sums_in carry.now }
    {
        Sums {
            posted: carry.posted,
            lost: carry.lost,
            paid: carry.paid,
            unpaid: carry.unpaid,
            sold: carry.sold,
        }
    }

    /// One record more, by which no sum grows by more than 2^32.
    pub fn add(&mut self, entry: &Record)
        requires room { AreWithin (2 ^ 32 - 1) self.old }
        ensures added { self.new ≡ with_record entry.now self.old }
        ensures within { (many : ℕ) → AreWithin many self.old → AreWithin (many + 1) self.new }
    {
        self.posted += entry.posted().len() as u64;
        self.lost += u64::from(entry.lost());
        match entry {
            Record::Closed { paid, unpaid, .. } => {
                self.paid += u64::from(*paid);
                self.unpaid += u64::from(*unpaid);
            }
            Record::Sold { price, .. } => self.sold += u64::from(*price),
            _ => {}
        }
    }

    /// The line of the sums.
    pub fn total(&self) -> Entry
        ensures { result ≡ total_in self.now }
    {
        Entry::Total {
            posted: self.posted,
            lost: self.lost,
            paid: self.paid,
            unpaid: self.unpaid,
            sold: self.sold,
        }
    }
}
