//! The lines of a state are written.
ghost use Rattle.std.specs.Prelude.{◌≡◌, ◌∷◌, ◌++◌, [], IsErr, flat_map};
ghost use Rattle.cct_audit.specs.Writing.{WritesLines};
ghost use Rattle.cct_journal_carry.specs.Tally as tallies;
ghost use Rattle.cct_edge.specs.Bytes.{Serves};
ghost use Rattle.cct_model.specs.Text.{line_of};
ghost use Rattle.cct_bench_report.specs.Listing.{total_in};
ghost use Rattle.cct_bench_state.specs.Books.{tally_lines};
ghost use Rattle.cct_bench_state.specs.Lines.{account_lines, epoch_lines, is_still, last_line};
ghost use Rattle.cct_bench_state.specs.Lines.{open_lines, since_lines};

use crate::account::Account;
use crate::books::Books;
use crate::lines::{say_epoch, say_last, say_open, say_since};
use crate::money::money_of;
use cct_edge::{Failed, Sink};
use cct_journal_carry::Tally;
use cct_model::{Entry, EpochState, OpenOrder};
use cct_text::{TextLine, write_entry};

/// Writes what books show, a line by each put.
pub(crate) fn write_state<K: Sink>(
    out: &mut K,
    line: &mut TextLine,
    books: &Books<'_>,
) -> Result<(), Failed>
    ensures writes { WritesLines K.written K.puts out.old
        (flat_map account_lines books.now.accounts.items
        ++ last_line books.now.last_id ∷ line_of (total_in books.now.sums) ∷ tally_lines books.now.tally) result out.new }
    ensures serves { Serves K.written K.faults out.old out.new (IsErr result) }
{
    write_accounts(out, line, books.accounts.as_slice())?;
    write_last(out, line, books.last_id)?;
    put_entry(out, line, &books.sums.total())?;
    write_money(out, line, &books.tally)
}

/// Writes the lines of all addresses.
fn write_accounts<K: Sink>(
    out: &mut K,
    line: &mut TextLine,
    accounts: &[Account],
) -> Result<(), Failed>
    ensures writes { WritesLines K.written K.puts out.old (flat_map account_lines accounts.now)
        result out.new }
    ensures serves { Serves K.written K.faults out.old out.new (IsErr result) }
{
    for account in accounts {
        write_account(out, line, account)?;
    }
    Ok(())
}

/// Writes the lines of an address.
fn write_account<K: Sink>(out: &mut K, line: &mut TextLine, account: &Account) -> Result<(), Failed>
    ensures writes { WritesLines K.written K.puts out.old (account_lines account.now) result out.new }
    ensures serves { Serves K.written K.faults out.old out.new (IsErr result) }
{
    write_epoch(out, line, account.addr, account.epoch)?;
    write_open(out, line, account.order)?;
    write_since(out, line, account)
}

/// Writes the line of an epoch, if one runs.
fn write_epoch<K: Sink>(
    out: &mut K,
    line: &mut TextLine,
    addr: u8,
    epoch: EpochState,
) -> Result<(), Failed>
    ensures writes { WritesLines K.written K.puts out.old (epoch_lines addr epoch) result out.new }
    ensures serves { Serves K.written K.faults out.old out.new (IsErr result) }
{
    match epoch {
        EpochState::Idle => Ok(()),
        EpochState::Running {
            mask,
            counter,
            accepts,
        } => {
            say_epoch(line, addr, mask, counter, accepts);
            put_line(out, line)
        }
    }
}

/// Writes the line of an order, if one is open.
fn write_open<K: Sink>(
    out: &mut K,
    line: &mut TextLine,
    order: Option<OpenOrder>,
) -> Result<(), Failed>
    ensures writes { WritesLines K.written K.puts out.old (open_lines order) result out.new }
    ensures serves { Serves K.written K.faults out.old out.new (IsErr result) }
{
    match order {
        None => Ok(()),
        Some(order) => {
            say_open(line, &order);
            put_line(out, line)
        }
    }
}

/// Writes the line of what came to an address since the last turn, if anything did.
fn write_since<K: Sink>(out: &mut K, line: &mut TextLine, account: &Account) -> Result<(), Failed>
    ensures writes { WritesLines K.written K.puts out.old (since_lines account.now) result out.new }
    ensures serves { Serves K.written K.faults out.old out.new (IsErr result) }
{
    if is_still(account) {
        return Ok(());
    }
    say_since(line, account);
    put_line(out, line)
}

/// Whether nothing came to an address since the last turn.
fn is_still(account: &Account) -> bool
    ensures { result ≡ is_still account.now }
{
    account.posted == 0 && account.lost == 0 && account.paid == 0
}

/// Writes the line of the greatest id.
fn write_last<K: Sink>(out: &mut K, line: &mut TextLine, id: u32) -> Result<(), Failed>
    ensures writes { WritesLines K.written K.puts out.old (last_line id ∷ []) result out.new }
    ensures serves { Serves K.written K.faults out.old out.new (IsErr result) }
{
    say_last(line, id);
    put_line(out, line)
}

/// Writes the line of the money, where there is a tally.
fn write_money<K: Sink>(
    out: &mut K,
    line: &mut TextLine,
    tally: &Option<Tally<'_>>,
) -> Result<(), Failed>
    ensures writes { WritesLines K.written K.puts out.old (tally_lines tally.now) result out.new }
    ensures serves { Serves K.written K.faults out.old out.new (IsErr result) }
{
    match tally {
        None => Ok(()),
        Some(tally) => put_entry(out, line, &Entry::Balance(money_of(tally))),
    }
}

/// Puts the line of an entry.
#[tactic(auto, using(crate::proofs::Chains::writes_one))]
fn put_entry<K: Sink>(out: &mut K, line: &mut TextLine, entry: &Entry) -> Result<(), Failed>
    ensures writes { WritesLines K.written K.puts out.old (line_of entry.now ∷ []) result out.new }
    ensures serves { Serves K.written K.faults out.old out.new (IsErr result) }
{
    write_entry(out, line, entry)
}

/// Puts what the line holds.
#[tactic(auto, using(crate::proofs::Chains::writes_put))]
fn put_line<K: Sink>(out: &mut K, line: &TextLine) -> Result<(), Failed>
    ensures writes { WritesLines K.written K.puts out.old (line.now ∷ []) result out.new }
    ensures serves { Serves K.written K.faults out.old out.new (IsErr result) }
{
    out.put(line.as_slice())
}
