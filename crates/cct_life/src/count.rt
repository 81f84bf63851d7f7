//! The life count, which header 168 reads (ccTalk Generic Specification 4, part 3).
ghost use Rattle.std.specs.Prelude.{◌≡◌, ℕ, ◌+◌, ◌-◌, ◌%◌, ◌^◌, ◌<◌};

/// The life count has three bytes, and starts again at 0 after its last number.
const COUNTS: u32 = 1 << 24;

/// How many coins a hopper ever paid, modulo 2^24. No reset clears it.
#[derive(Clone, Copy, PartialEq, Eq)]
pub struct LifeCount {
    count: u32,
    ghost fits: { count < 2 ^ 24 },
}

impl LifeCount {
    ghost use Rattle.cct_life.specs.Life.{count_of};

    /// A life count that starts at a number below 2^24.
    pub fn new(start: u32) -> LifeCount
        requires { start < 2 ^ 24 }
        ensures { count_of result ≡ start }
    {
        LifeCount { count: start }
    }

    /// One more coin was paid. The number after 2^24 - 1 is 0.
    pub fn rise(&mut self)
        ensures { count_of self.new ≡ (count_of self.old + 1) % 2 ^ 24 }
    {
        self.count = (self.count + 1) % COUNTS;
    }

    /// The count as header 168 reads it.
    pub fn now(&self) -> u32
        ensures value { result ≡ count_of self.now }
        ensures fits { result < 2 ^ 24 }
    {
        self.count
    }
}

/// How many coins were paid between two life counts, both below 2^24, where fewer than 2^24 were:
/// `after` may be the smaller one, since the count goes from 2^24 - 1 to 0.
pub fn since(before: u32, after: u32) -> u32
    requires before { before < 2 ^ 24 }
    requires after { after < 2 ^ 24 }
    ensures difference { result ≡ (after + 2 ^ 24 - before) % 2 ^ 24 }
    // Exactly so many coins lead from the one count to the other.
    ensures rises { (coins : ℕ) → coins < 2 ^ 24 → after ≡ (before + coins) % 2 ^ 24 → result
        ≡ coins }
{
    (after + COUNTS - before) % COUNTS
}
