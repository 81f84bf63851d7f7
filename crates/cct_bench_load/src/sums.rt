//! What a load's transcript sums up to.
ghost use Rattle.std.specs.Prelude.{◌≡◌, ◌+◌, ◌*◌, ◌^◌, ◌<◌, ◌≤◌, List, [], ◌∷◌, ◌++◌, length};
ghost use Rattle.std.specs.Prelude.{reverse};
ghost use Rattle.cct_model.specs.lines.command.Step.{Step};
ghost use Rattle.cct_model.specs.lines.entry.Entry.{Entry};
ghost use Rattle.cct_model.specs.lines.entry.Entry.TheVariants.{Sum};

use arrayvec::ArrayVec;
use cct_model::{Entry, Record, SumOf};

/// Sums over a transcript: steps, coins accepted, coins posted, coins lost, coins that fell, and
/// orders closed.
///
/// A step has eight entries at most, and an entry adds fewer than 2^33 to all sums together, so the
/// number of the steps bounds each of them.
#[derive(Clone, Copy)]
pub struct LoadSums {
    steps: u64,
    accepted: u64,
    posted: u64,
    lost: u64,
    fell: u64,
    closed: u64,
    ghost few: { accepted + posted + lost + fell + closed ≤ 2 ^ 36 * steps },
}

impl LoadSums {
    ghost use Rattle.cct_model.specs.Sums.{coins_posted, coins_lost, orders_closed};
    ghost use Rattle.cct_bench_load.specs.Sums.{Counts, SumsUp, sums_of, together};

    /// The sums before the first step.
    pub fn new() -> Self
        ensures { SumsUp result [] [] }
    {
        LoadSums {
            steps: 0,
            accepted: 0,
            posted: 0,
            lost: 0,
            fell: 0,
            closed: 0,
        }
    }

    /// One step more, with these entries, the oldest first. Fewer than 2^24 steps may have been
    /// added before.
    pub fn add_step(&mut self, report: &[Entry])
        requires steps { self.old.steps < 2 ^ 24 }
        requires entries { length report.now ≤ 8 }
        ensures { (played : List Step) (past : List Entry) (step : Step) → SumsUp self.old played past
            → SumsUp self.new (played ++ step ∷ []) (reverse report.now ++ past) }
    {
        self.steps += 1;
        for entry in report {
            self.add(entry);
        }
    }

    /// One entry more.
    fn add(&mut self, entry: &Entry)
        requires few { together self.old + 2 ^ 33 ≤ 2 ^ 36 * self.old.steps }
        requires steps { self.old.steps ≤ 2 ^ 24 }
        ensures counts { (past : List Entry) → Counts self.old past →
            Counts self.new (entry.now ∷ past) }
        ensures steps { self.new.steps ≡ self.old.steps }
        ensures few { together self.new ≤ together self.old + 2 ^ 33 }
    {
        match entry {
            Entry::Accepted { .. } => self.accepted += 1,
            Entry::Fell { .. } => self.fell += 1,
            Entry::Put(entry) => self.add_record(entry),
            Entry::Kept(entry) => self.add_record(entry),
            _ => {}
        }
    }

    /// One record more.
    fn add_record(&mut self, entry: &Record)
        requires few { together self.old + 2 ^ 33 ≤ 2 ^ 36 * self.old.steps }
        requires steps { self.old.steps ≤ 2 ^ 24 }
        ensures posted { self.new.posted ≡ coins_posted entry.now + self.old.posted }
        ensures lost { self.new.lost ≡ coins_lost entry.now + self.old.lost }
        ensures closed { self.new.closed ≡ orders_closed entry.now + self.old.closed }
        ensures accepted { self.new.accepted ≡ self.old.accepted }
        ensures fell { self.new.fell ≡ self.old.fell }
        ensures steps { self.new.steps ≡ self.old.steps }
        ensures few { together self.new ≤ together self.old + 2 ^ 33 }
    {
        self.posted += entry.posted().len() as u64;
        self.lost += u64::from(entry.lost());
        if let Record::Closed { .. } = entry {
            self.closed += 1;
        }
    }

    /// The entries of the sums, in their order.
    pub fn told(&self) -> ArrayVec<Entry, 8>
        ensures sums { (played : List Step) (past : List Entry) → SumsUp self.now played past
            → result.items ≡ sums_of played past }
        ensures six { length result.items ≡ 6 }
    {
        let mut told = ArrayVec::new();
        told.push(sum(SumOf::Steps, self.steps));
        told.push(sum(SumOf::Accepted, self.accepted));
        told.push(sum(SumOf::Posted, self.posted));
        told.push(sum(SumOf::Lost, self.lost));
        told.push(sum(SumOf::Fell, self.fell));
        told.push(sum(SumOf::Closed, self.closed));
        told
    }
}

/// The entry of one sum.
fn sum(what: SumOf, amount: u64) -> Entry
    ensures { result ≡ Sum what amount }
{
    Entry::Sum { what, amount }
}
