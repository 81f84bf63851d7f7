//! The lines that are reported.
ghost use Rattle.std.specs.Prelude.{◌≡◌, ◌≤◌, ◌+◌, ◌*◌, ◌∷◌, ◌++◌, length, true};
ghost use Rattle.cct_model_lines.specs.Text.{piece_field};
ghost use Rattle.cct_model_wire.specs.declared.wire.TheConstants.{MOST_HEARD, MOST_SENT};
ghost use Rattle.cct_probe_run.specs.Plays.{Begun, IsOther, begins_broken, broken_text, holds_text};
ghost use Rattle.cct_probe_run.specs.Plays.{wire_text};

use cct_model_lines::MOST_TEXT;
use cct_probe_plan::{Act, Premise, Promise};
use cct_text::TextLine;

/// The most bytes before the exchange in a line `broken`.
const MOST_FRONT: usize = 1000;

/// The most bytes of a trial's name that is reported there.
const MOST_NAME: usize = 100;

/// Adds bytes, if there is room.
pub(crate) fn add(line: &mut TextLine, bytes: &[u8])
    ensures begun { Begun line.old → Begun line.new }
{
    if bytes.len() <= MOST_TEXT && line.as_slice().len() <= MOST_TEXT - bytes.len() {
        line.push(bytes);
    }
}

/// Adds a space and a word.
pub(crate) fn add_word(line: &mut TextLine, word: &[u8])
    ensures begun { Begun line.old → Begun line.new }
{
    add(line, b" ");
    add(line, word);
}

/// Adds a space and a number.
pub(crate) fn add_number(line: &mut TextLine, number: u64)
    ensures begun { Begun line.old → Begun line.new }
{
    add(line, b" ");
    if line.as_slice().len() <= MOST_TEXT - 20 {
        line.push_number(number);
    }
}

/// A line that begins with a word which isn't `broken`.
fn begun(word: &[u8]) -> TextLine
    requires other { IsOther word.now }
    ensures { Begun result }
{
    let mut line = TextLine::new();
    line.push(word);
    line
}

/// A line of a word, an address and more words.
pub(crate) fn line_of(word: &[u8], addr: u8, words: &[&[u8]]) -> TextLine
    requires other { IsOther word.now }
    ensures { Begun result }
{
    let mut line = begun(word);
    add_number(&mut line, u64::from(addr));
    for word in words {
        add_word(&mut line, word);
    }
    add(&mut line, b"\n");
    line
}

/// A line of a word, an address and numbers.
pub(crate) fn numbers_of(word: &[u8], addr: u8, numbers: &[u64]) -> TextLine
    requires other { IsOther word.now }
    ensures { Begun result }
{
    let mut line = begun(word);
    add_number(&mut line, u64::from(addr));
    for number in numbers {
        add_number(&mut line, *number);
    }
    add(&mut line, b"\n");
    line
}

/// A prompt: what a person is to do at a device, with what place.
pub(crate) fn prompt_of(act: Act, addr: u8, is_bill: bool, place: u8) -> TextLine
    ensures { Begun result }
{
    let (word, text) = prompt_words(act, is_bill);
    let mut line = begun(b"do");
    add_number(&mut line, u64::from(addr));
    add_word(&mut line, word);
    add_number(
        &mut line,
        u64::from(if act == Act::Power { 0 } else { place }),
    );
    add_word(&mut line, text);
    add(&mut line, b", then enter done, or skip\n");
    line
}

/// The word of what a person is to do, and the words for it.
fn prompt_words(act: Act, is_bill: bool) -> (&'static [u8], &'static [u8]) {
    match act {
        Act::Puts if is_bill => (b"bill", b"put one bill of this place into the acceptor"),
        Act::Puts => (b"coin", b"put one coin of this place into the acceptor"),
        Act::PutsSix => (
            b"coins",
            b"put six coins of this place into the acceptor one after the other",
        ),
        Act::PutsMany if is_bill => (
            b"bills",
            b"put 256 bills of this place into the acceptor, which gives each back",
        ),
        Act::PutsMany => (
            b"many",
            b"put 256 coins of this place into the acceptor, which gives each back",
        ),
        Act::Power => (
            b"power",
            b"switch the device off and on again and wait until it is up",
        ),
    }
}

/// A line of a promise that doesn't hold, or not surely: by which premise at which device.
pub(crate) fn promise_of(word: &[u8], promise: Promise, addr: u8, premise: Premise) -> TextLine
    requires other { IsOther word.now }
    ensures { Begun result }
{
    let mut line = begun(word);
    add_word(&mut line, promise_word(promise));
    add_number(&mut line, u64::from(addr));
    add_word(&mut line, premise.word());
    add(&mut line, b"\n");
    line
}

/// The line that says that a promise holds.
pub(crate) fn holds_line(promise: Promise) -> &'static [u8]
    ensures { result.now ≡ holds_text promise }
{
    match promise {
        Promise::Coins => b"holds coins\n",
        Promise::Orders => b"holds orders\n",
        Promise::Disk => b"holds disk\n",
    }
}

/// The word of a promise.
fn promise_word(promise: Promise) -> &'static [u8] {
    match promise {
        Promise::Coins => b"coins",
        Promise::Orders => b"orders",
        Promise::Disk => b"disk",
    }
}

/// The front of what says that a premise is broken: a line, in the place of what the line holds.
pub(crate) fn begin_broken(line: &mut TextLine, addr: u8, premise: Premise, name: &[u8])
    ensures names { length name.now ≤ MOST_NAME → line.new ≡ broken_text addr premise name.now }
    ensures short { length line.new ≤ MOST_FRONT }
    ensures begins { begins_broken line.new ≡ true }
{
    line.clear();
    line.push(b"broken ");
    line.push_byte(addr);
    line.push(b" ");
    line.push(premise.word());
    line.push(b" ");
    if name.len() <= MOST_NAME {
        line.push(name);
    }
    line.push(b"\n");
}

/// Adds the line of an exchange.
pub(crate) fn push_wire(line: &mut TextLine, addr: u8, sent: &[u8], heard: &[u8])
    requires room { length line.old ≤ MOST_FRONT }
    requires sent { length sent.now ≤ MOST_SENT }
    requires heard { length heard.now ≤ MOST_HEARD }
    ensures { line.new ≡ line.old ++ wire_text addr sent.now heard.now }
{
    line.push(b"wire ");
    line.push_byte(addr);
    push_piece(line, sent);
    push_piece(line, heard);
    line.push(b"\n");
}

/// Adds a space and bytes in hexadecimal, or a hyphen where there are none.
fn push_piece(line: &mut TextLine, piece: &[u8])
    requires room { length line.old + 2 * length piece.now + 2 ≤ MOST_TEXT }
    ensures piece { line.new ≡ line.old ++ 32 ∷ piece_field piece.now }
    ensures short { length line.new ≤ length line.old + 2 * length piece.now + 2 }
{
    line.push(b" ");
    match piece {
        [] => line.push(b"-"),
        _ => line.push_hex(piece),
    }
}
