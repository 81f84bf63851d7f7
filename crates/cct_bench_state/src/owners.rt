//! All accounts, and whose a record is.
ghost use Rattle.std.specs.Prelude.{◌≡◌, ◌+◌, ◌-◌, ◌<◌, ◌^◌, ℕ, All, IfSome, length, map};
ghost use Rattle.std.specs.Prelude.{slice_index_or, slice_set};
ghost use Rattle.std.specs.List.{position};
ghost use Rattle.cct_model.specs.DeviceSet.{all_addresses};
ghost use Rattle.cct_bench_state.specs.declared.account.Account.{Account};
ghost use Rattle.cct_bench_state.specs.Account.{IsWithin, account_in, changed, has_order, place_of};

use crate::account::Account;
use arrayvec::ArrayVec;
use cct_model::{Carry, HOST, Record};

/// How many addresses there are.
pub(crate) const ADDRESSES: usize = 256;

/// What a carry says of all addresses.
pub(crate) fn accounts_of(carry: &Carry) -> ArrayVec<Account, ADDRESSES>
    ensures { result.items ≡ map (account_in carry.now) all_addresses }
{
    let mut accounts = ArrayVec::new();
    for addr in 0..=u8::MAX {
        accounts.push(Account::of(carry, addr));
    }
    accounts
}

/// The account that a record belongs to goes on by it, if there is one.
pub(crate) fn change(accounts: &mut ArrayVec<Account, ADDRESSES>, entry: &Record)
    requires all { length accounts.old.items ≡ 256 }
    requires within { All (IsWithin (2 ^ 32 - 2)) accounts.old.items }
    ensures changes { accounts.new.items
        ≡ changed entry.now accounts.old.items (place_of accounts.old.items entry.now) }
    ensures within { (many : ℕ) → All (IsWithin many) accounts.old.items
        → All (IsWithin (many + 1)) accounts.new.items }
{
    if let Some(place) = place_of(accounts.as_slice(), entry) {
        let account = account_at(accounts, place).with(entry);
        put_account(accounts, place, account);
    }
}

/// The account at a place.
fn account_at(accounts: &ArrayVec<Account, ADDRESSES>, place: usize) -> Account
    requires { place < length accounts.now.items }
    ensures { (other : Account) → result ≡ slice_index_or accounts.now.items place other }
{
    accounts[place]
}

/// Puts an account in the place of what is there.
fn put_account(accounts: &mut ArrayVec<Account, ADDRESSES>, place: usize, account: Account)
    requires { place < length accounts.old.items }
    ensures { accounts.new.items ≡ slice_set accounts.old.items place account }
{
    accounts[place] = account;
}

/// The place of the account that a record belongs to, or none.
fn place_of(accounts: &[Account], entry: &Record) -> Option<usize>
    requires { length accounts.now ≡ 256 }
    ensures first { result ≡ place_of accounts.now entry.now }
    ensures within { IfSome result (λ place. place < length accounts.now) }
{
    match entry {
        Record::Epoch { addr, .. } => Some(usize::from(*addr)),
        Record::Reading { addr, .. } => Some(usize::from(*addr)),
        Record::Broken { addr, .. } => Some(usize::from(*addr)),
        Record::EpochEnd { addr } => Some(usize::from(*addr)),
        Record::Opened { addr, .. } => Some(usize::from(*addr)),
        Record::Closed { id, .. } => order_place(accounts, *id),
        Record::Odd { id, .. } => order_place(accounts, *id),
        Record::Sold { .. } => Some(usize::from(HOST)),
    }
}

/// The place of the account in which the order with an id is open, or none.
fn order_place(accounts: &[Account], id: u32) -> Option<usize>
    ensures first { result ≡ position (has_order id) accounts.now }
    ensures within { IfSome result (λ place. place < length accounts.now) }
{
    accounts.iter().position(|account| account.has_order(id))
}
