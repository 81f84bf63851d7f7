//! The line of each entry.
ghost use Rattle.std.specs.Prelude.{◌≡◌, ℕ, ◌+◌, ◌<◌, ◌≤◌, List, [], ◌∷◌, ◌++◌, length};
ghost use Rattle.cct_model_lines.specs.declared.entry.Entry.TheVariants.{Accepted, Taken, No, Wire};
ghost use Rattle.cct_model_lines.specs.declared.entry.Entry.TheVariants.{Balance, Line};
ghost use Rattle.cct_model_lines.specs.declared.entry.Entry.TheVariants.{JournalLost, Listing};
ghost use Rattle.cct_model_lines.specs.Text.{record_fields, fields_of, line_of, kind_field};
ghost use Rattle.cct_model_lines.specs.Text.{sum_field};
ghost use Rattle.cct_text.specs.Joined.{each_after};
ghost use Rattle.cct_text.specs.Adding.{Adds, HasFields};

use crate::commands::{write_command, write_fault, write_reason};
use crate::ends::write_end;
use crate::fields::{write_address, write_number, write_numbers, write_pair, write_piece};
use crate::records::write_record;
use crate::said::write_said;
use crate::text::TextLine;
use cct_model_lines::{
    Coin, Command, CommandNo, Entry, LineKind, MOST_HEARD, MOST_SENT, MOST_TEXT, Record, SumOf,
    Totals,
};

/// Makes the line buffer the line of an entry.
#[tactic(auto, using(crate::proofs::Texts::joined_is), unfolding(cct_model_lines::specs::Text::line_of))]
pub(crate) fn write_line(line: &mut TextLine, entry: &Entry)
    ensures line { line.new ≡ line_of entry.now }
    ensures short { length line.new < MOST_TEXT }
{
    line.clear();
    write_fields(line, entry);
    line.push(b"\n");
}

/// Writes the fields of an entry.
fn write_fields(line: &mut TextLine, entry: &Entry)
    requires { line.old ≡ [] }
    ensures { HasFields line.new (fields_of entry.now) }
{
    match entry {
        Entry::Accepted { addr, coin } => write_accepted(line, *addr, *coin),
        Entry::Held { addr, place } => write_pair(line, b"held", *addr, *place),
        Entry::Inhibited { addr, place } => write_pair(line, b"inhibited", *addr, *place),
        Entry::Alien { addr } => write_address(line, b"alien", *addr),
        Entry::Fell { addr } => write_address(line, b"fell", *addr),
        Entry::NoFall { addr } => write_address(line, b"nofall", *addr),
        Entry::Jammed { addr } => write_address(line, b"jammed", *addr),
        Entry::NoJam { addr } => write_address(line, b"nojam", *addr),
        Entry::Reset { addr } => write_address(line, b"reset", *addr),
        Entry::Fault(fault) => write_fault(line, fault),
        Entry::Taken(command) => write_taken(line, command),
        Entry::No { command, why } => write_refusal(line, command, why),
        Entry::Idle { addr } => write_address(line, b"idle", *addr),
        Entry::Wire { addr, sent, heard } => {
            write_exchange(line, *addr, sent.as_slice(), heard.as_slice())
        }
        Entry::Forged { addr } => write_address(line, b"forged", *addr),
        Entry::Put(entry) => write_journal(line, b"put", entry),
        Entry::Kept(entry) => write_journal(line, b"kept", entry),
        Entry::Crash { records } => write_numbers(line, b"crash", &[u64::from(*records)]),
        Entry::Ended { addr, end } => write_end(line, *addr, end),
        Entry::Balance(totals) => write_balance(line, *totals),
        Entry::Stock { addr, count } => {
            write_numbers(line, b"stock", &[u64::from(*addr), u64::from(*count)])
        }
        Entry::ChangeOk { first, amount } => {
            write_numbers(line, b"change ok", &[u64::from(*first), u64::from(*amount)])
        }
        Entry::ChangeNo => line.push(b"change no busy"),
        Entry::ServeIdle => line.push(b"serve idle"),
        Entry::ServeWait { addr } => write_address(line, b"serve wait", *addr),
        Entry::ServeOdd { id } => write_numbers(line, b"serve odd", &[u64::from(*id)]),
        Entry::Served { amount } => write_numbers(line, b"served", &[u64::from(*amount)]),
        Entry::Short { paid, rest } => {
            write_numbers(line, b"short", &[u64::from(*paid), u64::from(*rest)])
        }
        Entry::Said(said) => write_said(line, said),
        Entry::Line { number, kind } => write_refused(line, *number, *kind),
        Entry::Words => line.push(b"words"),
        Entry::DiskSize { len } => write_numbers(line, b"disksize", &[*len]),
        Entry::NotBlank { at } => write_numbers(line, b"notblank", &[*at]),
        Entry::ReadFault => line.push(b"readfault"),
        Entry::DiskFault => line.push(b"diskfault"),
        Entry::JournalAlien => line.push(b"journal alien"),
        Entry::JournalBad { index } => write_numbers(line, b"journal bad", &[u64::from(*index)]),
        Entry::JournalLost { found, put } => write_lost(line, *found, *put),
        Entry::Upgraded { records } => write_numbers(line, b"upgraded", &[u64::from(*records)]),
        Entry::UpgradeCurrent => line.push(b"upgrade current"),
        Entry::UpgradeRoom { used } => write_numbers(line, b"upgrade room", &[u64::from(*used)]),
        Entry::UpgradeEpoch { addr } => write_address(line, b"upgrade epoch", *addr),
        Entry::Listing { index, entry } => write_listing(line, *index, entry),
        Entry::Total {
            posted,
            lost,
            paid,
            unpaid,
            sold,
        } => write_numbers(line, b"total", &[*posted, *lost, *paid, *unpaid, *sold]),
        Entry::Load { seed, rounds } => write_numbers(line, b"load", &[*seed, u64::from(*rounds)]),
        Entry::Sum { what, amount } => write_numbers(line, sum_word(*what), &[*amount]),
    }
}

/// Writes the fields of an accepted coin.
fn write_accepted(line: &mut TextLine, addr: u8, coin: Coin)
    requires { line.old ≡ [] }
    ensures { HasFields line.new (fields_of (Accepted addr coin)) }
{
    write_pair(line, b"accepted", addr, coin.place);
    write_number(line, u64::from(coin.path));
}

/// Writes the fields of a command that was taken.
fn write_taken(line: &mut TextLine, command: &Command)
    requires { line.old ≡ [] }
    ensures { HasFields line.new (fields_of (Taken command.now)) }
{
    line.push(b"ok");
    write_command(line, command);
}

/// Writes the fields of a command that was refused.
fn write_refusal(line: &mut TextLine, command: &Command, why: &CommandNo)
    requires { line.old ≡ [] }
    ensures { HasFields line.new (fields_of (No command.now why.now)) }
{
    line.push(b"no");
    write_command(line, command);
    write_reason(line, why);
}

/// Writes the fields of an exchange.
fn write_exchange(line: &mut TextLine, addr: u8, sent: &[u8], heard: &[u8])
    requires line { line.old ≡ [] }
    requires sent { length sent.now ≤ MOST_SENT }
    requires heard { length heard.now ≤ MOST_HEARD }
    ensures { HasFields line.new (fields_of (Wire addr sent.now heard.now)) }
{
    write_address(line, b"wire", addr);
    write_piece(line, sent);
    write_piece(line, heard);
}

/// Writes a word, and a record as the fields after it.
fn write_journal(line: &mut TextLine, word: &[u8], entry: &Record)
    requires { length line.old + length word.now + 200 ≤ MOST_TEXT }
    ensures { Adds line.old line.new (word.now ++ each_after 32 (record_fields entry.now))
        (length word.now + 200) }
{
    line.push(word);
    write_record(line, entry);
}

/// Writes the fields of what the operator has.
fn write_balance(line: &mut TextLine, totals: Totals)
    requires { line.old ≡ [] }
    ensures { HasFields line.new (fields_of (Balance totals)) }
{
    write_numbers(
        line,
        b"balance",
        &[totals.available, totals.reserved, totals.paid, totals.sold],
    );
}

/// Writes the fields of a refused line.
fn write_refused(line: &mut TextLine, number: u32, kind: LineKind)
    requires { line.old ≡ [] }
    ensures { HasFields line.new (fields_of (Line number kind)) }
{
    write_numbers(line, b"refused", &[u64::from(number)]);
    line.push(kind_word(kind));
}

/// Writes the fields of a journal that has another number of records than were put.
fn write_lost(line: &mut TextLine, found: u32, put: u32)
    requires { line.old ≡ [] }
    ensures { HasFields line.new (fields_of (JournalLost found put)) }
{
    write_numbers(line, b"journal lost", &[u64::from(found), u64::from(put)]);
}

/// Writes the fields of a record that is listed.
fn write_listing(line: &mut TextLine, index: u32, entry: &Record)
    requires { line.old ≡ [] }
    ensures { HasFields line.new (fields_of (Listing index entry.now)) }
{
    write_numbers(line, b"record", &[u64::from(index)]);
    write_record(line, entry);
}

/// The word of a refused line's kind, after a space.
fn kind_word(kind: LineKind) -> &'static [u8]
    ensures text { result.now ≡ 32 ∷ kind_field kind }
    ensures len { length result.now ≤ 9 }
{
    match kind {
        LineKind::Trailing => b" trailing",
        LineKind::Lines => b" lines",
        LineKind::Long => b" long",
        LineKind::Cut => b" cut",
        LineKind::Word => b" word",
        LineKind::Form => b" form",
        LineKind::Device => b" device",
        LineKind::Again => b" again",
    }
}

/// The word of what a sum counts.
fn sum_word(what: SumOf) -> &'static [u8]
    ensures text { result.now ≡ sum_field what }
    ensures len { length result.now ≤ 8 }
{
    match what {
        SumOf::Steps => b"steps",
        SumOf::Accepted => b"accepted",
        SumOf::Posted => b"posted",
        SumOf::Lost => b"lost",
        SumOf::Fell => b"fell",
        SumOf::Closed => b"closed",
    }
}
