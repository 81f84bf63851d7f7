//! Sets of addresses.
ghost use Rattle.std.specs.Prelude.{◌≡◌, ℕ, ◌==◌, ◌&&◌, ◌||◌, [], length, not, false, find};

use std::marker::Model;

/// A set of addresses, 0 to 255. Contracts see which address is a member, in rising order of the
/// addresses, and the members as one list in that order, `addresses_in`.
#[derive(Clone, Copy, PartialEq, Eq)]
pub struct DeviceSet {
    /// Address `a` is bit `a % 64` of word `a / 64`.
    words: [u64; 4],
}

impl Model for DeviceSet {
    ghost use Rattle.cct_model_lines.specs.Members.{AreWords, Members, set_in, words_back};
    ghost use Rattle.cct_model_lines.specs.Members.{words_of};

    ghost Value = { Members };

    ghost view = { λ s. set_in s.words };

    ghost invariant = { λ s. AreWords s.words };

    ghost inverse = { λ set. record { words = words_of set } };

    ghost inverse_ok = { λ s h i. record { words = words_back s.words h i } };
}

impl DeviceSet {
    ghost use Rattle.cct_model_lines.specs.DeviceSet.{addresses_in, all_addresses, first_address};
    ghost use Rattle.cct_model_lines.specs.DeviceSet.{has, is_address_in};
    ghost use Rattle.cct_model_lines.specs.DeviceSet.{with_address, without_address};

    /// No address.
    pub fn new() -> Self
        ensures none { (addr : ℕ) → has result addr ≡ false }
        ensures whole { length result.members ≡ 256 }
        ensures empty { addresses_in result ≡ [] }
    {
        DeviceSet { words: [0; 4] }
    }

    /// Adds an address, where it isn't in the set yet.
    pub fn insert(&mut self, addr: u8)
        ensures one_more { (other : ℕ) → has self.new other
            ≡ ((other == addr) || has self.old other) }
        ensures whole { length self.new.members ≡ 256 }
        ensures placed { addresses_in self.new ≡ with_address addr (addresses_in self.old) }
    {
        self.words[addr as usize / 64] |= 1 << (addr % 64);
    }

    /// Takes an address out, where it is in the set.
    pub fn remove(&mut self, addr: u8)
        ensures one_less { (other : ℕ) → has self.new other
            ≡ (not (other == addr) && has self.old other) }
        ensures whole { length self.new.members ≡ 256 }
        ensures left_out { addresses_in self.new ≡ without_address addr (addresses_in self.old) }
    {
        self.words[addr as usize / 64] &= !(1 << (addr % 64));
    }

    /// The least address of the set, if it has any.
    pub fn first(&self) -> Option<u8>
        ensures least { result ≡ find (has self.now) all_addresses }
        ensures head { result ≡ first_address (addresses_in self.now) }
    {
        for (index, word) in self.words.iter().enumerate() {
            if *word != 0 {
                return Some(index as u8 * 64 + word.trailing_zeros() as u8);
            }
        }
        None
    }

    /// Whether an address is in the set.
    pub fn has(&self, addr: u8) -> bool
        ensures member { result ≡ has self.now addr }
        ensures listed { result ≡ is_address_in (addresses_in self.now) addr }
    {
        (self.words[addr as usize / 64] >> (addr % 64)) & 1 == 1
    }
}
