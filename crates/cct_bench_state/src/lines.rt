//! The text of a state's own lines.
ghost use Rattle.std.specs.Prelude.{◌≡◌, ◌+◌, ◌≤◌, ◌∷◌, length};
ghost use Rattle.cct_model.specs.Text.{mask_field, number_text};
ghost use Rattle.cct_text.specs.Adding.{Adds};
ghost use Rattle.cct_bench_state.specs.Lines.{epoch_line, last_line, open_line, since_line};

use crate::account::Account;
use cct_model::{MOST_TEXT, OpenOrder};
use cct_text::TextLine;

/// Puts the line of a running epoch in the place of what the line holds.
#[tactic(auto, unfolding(crate::specs::Lines::epoch_line))]
pub(crate) fn say_epoch(line: &mut TextLine, addr: u8, mask: u16, counter: u8, accepts: u32)
    ensures { line.new ≡ epoch_line addr mask counter accepts }
{
    line.clear();
    line.push(b"epoch");
    add_number(line, u64::from(addr));
    add_mask(line, mask);
    add_number(line, u64::from(counter));
    add_number(line, u64::from(accepts));
    line.push(b"\n");
}

/// Puts the line of an open order in the place of what the line holds.
#[tactic(auto, unfolding(crate::specs::Lines::open_line))]
pub(crate) fn say_open(line: &mut TextLine, order: &OpenOrder)
    ensures { line.new ≡ open_line order.now }
{
    line.clear();
    line.push(b"order");
    add_number(line, u64::from(order.id));
    line.push(b" open");
    add_number(line, u64::from(order.addr));
    add_number(line, u64::from(order.count));
    add_number(line, u64::from(order.life));
    line.push(b"\n");
}

/// Puts the line of what came to an address in the place of what the line holds.
#[tactic(auto, unfolding(crate::specs::Lines::since_line))]
pub(crate) fn say_since(line: &mut TextLine, account: &Account)
    ensures { line.new ≡ since_line account.now }
{
    line.clear();
    line.push(b"since");
    add_number(line, u64::from(account.addr));
    add_number(line, account.posted);
    add_number(line, account.lost);
    add_number(line, account.paid);
    line.push(b"\n");
}

/// Puts the line of the greatest id in the place of what the line holds.
#[tactic(auto, unfolding(crate::specs::Lines::last_line))]
pub(crate) fn say_last(line: &mut TextLine, id: u32)
    ensures { line.new ≡ last_line id }
{
    line.clear();
    line.push(b"last");
    add_number(line, u64::from(id));
    line.push(b"\n");
}

/// Adds a number as the next field.
fn add_number(line: &mut TextLine, number: u64)
    requires { length line.old + 21 ≤ MOST_TEXT }
    ensures { Adds line.old line.new (32 ∷ number_text number) 21 }
{
    line.push(b" ");
    line.push_number(number);
}

/// Adds an inhibit mask as the next field: four hexadecimal digits.
fn add_mask(line: &mut TextLine, mask: u16)
    requires { length line.old + 5 ≤ MOST_TEXT }
    ensures { Adds line.old line.new (32 ∷ mask_field mask) 5 }
{
    line.push(b" ");
    line.push_hex(&mask.to_be_bytes());
}
