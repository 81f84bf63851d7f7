//! A line of a bus log, by itself.

use crate::byte::{Base, LogBytes, bytes_of};
use crate::column::column_at;
use crate::escape::{Spelling, escaped_in};
use crate::heading::{head_in, is_head_of_ways, is_known, is_rule, is_ruler, is_table_head};
use crate::message::{LEAST_MESSAGE, are_whole};
use crate::name::{Way, is_among};
use crate::run::{Run, run_in};
use crate::time::{Time, number_in, time_at, time_in};
use crate::way::{WayAt, first_way};
use crate::word::next_word;
use cct_model_wire::HOST;

/// The word of a line of a capture, and its space.
const TAP: &[u8] = b"tap ";

/// Words that say that there are no bytes.
const NOTHING: &[u8] = b"b no none null nothing empty reply response answer timeout timed out";

/// How many fields may stand before bytes that are messages.
const MOST_FIELDS: usize = 3;

/// What was taken for granted of bytes that can be read in another way. The checksum of a message
/// decided.
#[derive(Clone, Copy, PartialEq, Eq)]
pub enum Guess {
    /// That the numbers are decimal, or that a hexadecimal number may have one digit.
    Decimal,
    ShortHex,
    /// That the first number counts the bytes after it.
    Count,
    /// That numbers before the bytes or after them are none of them.
    Fields,
    /// That the log's words for the ways say something else, so that the messages show the ways.
    Ways,
    /// That characters of a text are bytes of the same numbers.
    Characters,
}

/// The spellings of texts that aren't that of most languages, and what is taken for granted by them.
const SPELLINGS: &[(Spelling, Guess)] = &[
    (Spelling::Decimal, Guess::Decimal),
    (Spelling::Characters, Guess::Characters),
];

/// What a line has.
#[derive(Drop)]
pub enum Has {
    /// A whole exchange of a capture: what was heard begins with the echo, where that was heard.
    Tap { sent: LogBytes, heard: LogBytes },
    /// What was sent, and what was then heard.
    Exchange { sent: LogBytes, heard: LogBytes },
    /// Bytes, which went this way, where that is reported.
    Bytes { way: Option<Way>, bytes: LogBytes },
    /// None, but the way of the bytes in the next lines, where it is reported.
    Heading(Option<Way>),
}

/// What the lines before show of how a log is written.
#[derive(Clone, Copy)]
pub struct Habit {
    /// How the bytes are written, where that is known.
    pub(crate) base: Option<Base>,
    /// Where the last line of a dump ended.
    pub(crate) offset: Option<u64>,
    /// Whether the bytes of this line don't follow those of the last one in a dump.
    pub is_anew: bool,
    /// Whether the number of the bytes is before them.
    pub(crate) has_counts: bool,
    /// Whether there are other numbers beside the bytes.
    pub(crate) has_fields: bool,
    /// Whether a message that lines before began isn't at its end.
    pub is_open: bool,
    /// Whether the bytes are texts with escapes, as those of a program's calls.
    pub(crate) has_texts: bool,
    /// How such texts write them.
    pub(crate) spelling: Spelling,
    /// The way that a line without bytes gave.
    pub way: Option<Way>,
    /// What was taken for granted in this line, and could be read in another way.
    pub guess: Option<Guess>,
}

impl Habit {
    /// Nothing is known.
    pub fn new() -> Habit {
        Habit {
            base: None,
            offset: None,
            is_anew: false,
            has_counts: false,
            has_fields: false,
            is_open: false,
            has_texts: false,
            spelling: Spelling::Octal,
            way: None,
            guess: None,
        }
    }
}

/// What a line has, and the time in it; `None` where it isn't understood.
pub fn read_has<'l>(line: &'l [u8], habit: &mut Habit) -> Option<(Has, Option<Time<'l>>)> {
    habit.guess = None;
    habit.is_anew = false;
    if let Some(fields) = line.strip_prefix(TAP) {
        return Some((tap_in(fields)?, None));
    }
    if is_rule(line) || habit.has_texts && line.trim_ascii().starts_with(b"|") {
        return if line.is_empty() {
            None
        } else {
            Some((Has::Heading(habit.way), None))
        };
    }
    if is_head_of_ways(line) {
        return Some((Has::Heading(None), None));
    }
    if is_table_head(line) && has_no_bytes(line) {
        let base = head_in(line).unwrap_or(None);
        habit.base = base.or(habit.base);
        return Some((Has::Heading(None), None));
    }
    if is_comment(line) {
        return None;
    }
    let line = without_number(line);
    let line = line.get(..column_at(line, habit.offset)).unwrap_or(line);
    match first_way(line, 0) {
        Some(way) => match way_line(line, way, habit) {
            Some(has) => {
                let is_number_time = !matches!(has, Has::Heading(_));
                Some((has, time_at(line, way.from, is_number_time)))
            }
            None => None,
        },
        None => free_line(line, habit),
    }
}

/// Whether a line is a comment: nobody sent or heard what stands in it.
fn is_comment(line: &[u8]) -> bool {
    let text = line.trim_ascii_start();
    text.starts_with(b"# ") || text.starts_with(b"//")
}

/// Whether no word of a line spells bytes, in hexadecimal or decimal.
fn has_no_bytes(line: &[u8]) -> bool {
    run_in(line, Base::Hex, None).words == 0 && run_in(line, Base::Decimal, None).words == 0
}

/// What the line `tap SENT HEARD` has, by what is after its word.
fn tap_in(fields: &[u8]) -> Option<Has> {
    let mut fields = fields.split(|byte| *byte == b' ');
    let sent = field_in(fields.next()?)?;
    let heard = field_in(fields.next()?)?;
    match fields.next() {
        None => Some(Has::Tap { sent, heard }),
        Some(_) => None,
    }
}

/// The bytes of a field of a capture: two digits each, or a hyphen for none.
fn field_in(field: &[u8]) -> Option<LogBytes> {
    if let b"-" = field {
        return Some(LogBytes::new());
    }
    let mut bytes = LogBytes::new();
    if crate::byte::add_word(&mut bytes, field, Base::Hex) {
        Some(bytes)
    } else {
        None
    }
}

/// What a line has that says a way; it says another one after the bytes where it is an exchange.
fn way_line(line: &[u8], way: WayAt, habit: &mut Habit) -> Option<Has> {
    let (front, _) = line.split_at_checked(way.from)?;
    let after = line.get(way.to..)?;
    match told_way(line, front, &way, after, habit) {
        Told::Has(has) => return Some(has),
        Told::Nothing => return None,
        Told::Other => {}
    }
    let Some(next) = first_way(after, 0) else {
        return one_way(front, way, after, habit);
    };
    let first = after.get(..next.from)?;
    let second = after.get(next.to..)?;
    let earlier = chosen(first, habit);
    let later = chosen(second, habit);
    let are_both = are_whole(earlier.bytes.as_slice()) && are_whole(later.bytes.as_slice());
    let has_second = later.words != 0 || is_none(second);
    if !has_second || next.is_weak && !are_both {
        return one_way(front, way, after, habit);
    }
    if earlier.bytes.is_empty() {
        let from = way.to.saturating_add(next.from);
        let to = way.to.saturating_add(next.to);
        return one_way(front, WayAt { from, to, ..next }, second, habit);
    }
    match (way.way, next.way) {
        (Way::Sent, Way::Heard) if first_way(second, 0).is_none() => Some(Has::Exchange {
            sent: earlier.bytes,
            heard: later.bytes,
        }),
        (Way::Heard, Way::Heard) if are_both && first_way(second, 0).is_none() => {
            let mut bytes = earlier.bytes;
            // Both are parts of a line, so there is room but in a line of noise.
            let _ = bytes.try_extend_from_slice(later.bytes.as_slice());
            Some(ways_bytes(Way::Heard, bytes, habit))
        }
        _ => None,
    }
}

/// What a line is in which a word may say a way.
#[derive(Drop)]
enum Told {
    /// One with bytes in a text with escapes, or whose word is none of a way.
    Has(Has),
    /// One with such a text that is no message.
    Nothing,
    /// Another one.
    Other,
}

/// What a line has whose bytes stand after a way in a text with escapes, or whose way is none.
fn told_way(line: &[u8], front: &[u8], way: &WayAt, after: &[u8], habit: &mut Habit) -> Told {
    let mut tried = *habit;
    let plain = chosen(after, &mut tried);
    if is_character(line, way, &plain) {
        return Told::Has(free_bytes(plain.bytes, habit));
    }
    if way.is_weak {
        let before = chosen(front, &mut tried);
        if is_character(line, way, &before) {
            return Told::Has(free_bytes(before.bytes, habit));
        }
    }
    if plain.is_marked || are_whole(plain.bytes.as_slice()) {
        return Told::Other;
    }
    let Some(bytes) = text_bytes(after, habit.has_texts, habit) else {
        return Told::Other;
    };
    habit.has_texts |= after.contains(&b'\\');
    if is_sure(front, way) || are_whole(bytes.as_slice()) {
        Told::Has(ways_bytes(way.way, bytes, habit))
    } else {
        Told::Nothing
    }
}

/// The bytes of a text with escapes, in the spelling in which they are messages, or else in that of
/// the lines before.
fn text_bytes(text: &[u8], has_texts: bool, habit: &mut Habit) -> Option<LogBytes> {
    let plain = escaped_in(text, has_texts, habit.spelling);
    if let Some(bytes) = &plain
        && are_whole(bytes.as_slice())
    {
        return plain;
    }
    for (spelling, guess) in SPELLINGS {
        if let Some(bytes) = escaped_in(text, has_texts, *spelling)
            && are_whole(bytes.as_slice())
        {
            if habit.spelling != *spelling {
                habit.spelling = *spelling;
                habit.guess = Some(*guess);
            }
            return Some(bytes);
        }
    }
    plain
}

/// Whether what may be a way is the character of the byte beside it.
fn is_character(line: &[u8], way: &WayAt, run: &Run) -> bool {
    way.is_weak && run.len() == 1 && line.get(way.from..way.to) == Some(run.bytes.as_slice())
}

/// What a line has that says one way; the bytes stand after it, or before it.
fn one_way(front: &[u8], way: WayAt, after: &[u8], habit: &mut Habit) -> Option<Has> {
    let run = chosen(after, habit);
    let before = chosen(front, habit);
    let is_whole = are_whole(before.bytes.as_slice());
    if run.words != 0 && is_whole {
        return between(before, run);
    }
    if run.words != 0 {
        return behind_way(front, &way, run, habit);
    }
    if is_none(after) {
        return if is_whole {
            between(before, run)
        } else {
            Some(ways_bytes(way.way, run.bytes, habit))
        };
    }
    if before.words != 0 && !way.is_weak && !has_remark(front) {
        return if is_whole || before.strange == 0 && before.is_last {
            Some(ways_bytes(way.way, before.bytes, habit))
        } else {
            None
        };
    }
    if is_whole {
        return Some(free_bytes(before.bytes, habit));
    }
    if run.strange == 0 && is_bare(front) {
        return Some(Has::Heading(Some(way.way)));
    }
    None
}

/// The exchange of a line in which an arrow or the like is between whole messages and other bytes:
/// a reply may stand first.
fn between(before: Run, behind: Run) -> Option<Has> {
    if behind.other >= LEAST_MESSAGE {
        return None;
    }
    let (sent, heard) = match before.bytes.as_slice() {
        [HOST, ..] => (behind.bytes, before.bytes),
        _ => (before.bytes, behind.bytes),
    };
    Some(Has::Exchange { sent, heard })
}

/// What a line has whose bytes stand after a way. Where that may say something else, only whole
/// messages are taken, and without a way.
fn behind_way(front: &[u8], way: &WayAt, run: Run, habit: &mut Habit) -> Option<Has> {
    let is_whole = are_whole(run.bytes.as_slice()) && run.other < LEAST_MESSAGE;
    let is_plain = run.strange == 0 && run.is_last;
    if is_sure(front, way) && (is_plain || is_whole) {
        Some(ways_bytes(way.way, run.bytes, habit))
    } else if is_whole {
        Some(free_bytes(run.bytes, habit))
    } else {
        None
    }
}

/// Whether a remark begins in a text.
fn has_remark(text: &[u8]) -> bool {
    text.contains(&b'#') || text.windows(2).any(|pair| pair == b"//".as_slice())
}

/// Whether a way is meant as one: by a word that can be nothing else, or that is where only a time
/// and the like may.
fn is_sure(front: &[u8], way: &WayAt) -> bool {
    !way.is_weak || !way.is_part && is_bare(front)
}

/// Bytes that went a way which their line gives.
fn ways_bytes(way: Way, bytes: LogBytes, habit: &mut Habit) -> Has {
    habit.way = None;
    Has::Bytes {
        way: Some(way),
        bytes,
    }
}

/// Whether nothing but a time and other words of no weight is in a text.
fn is_bare(text: &[u8]) -> bool {
    let mut at = 0;
    for _ in text {
        let Some(word) = next_word(text, at) else {
            break;
        };
        if !is_known(word.text) {
            return false;
        }
        at = word.to;
    }
    true
}

/// Whether a text says that there are no bytes: a hyphen, or words such as `no reply`.
fn is_none(text: &[u8]) -> bool {
    if text.trim_ascii() == b"-".as_slice() {
        return true;
    }
    let mut words = 0u32;
    for part in text.split(|byte| !byte.is_ascii_alphanumeric()) {
        if !part.is_empty() && !is_among(NOTHING, part) {
            return false;
        }
        words = words.saturating_add(u32::from(!part.is_empty()));
    }
    words != 0
}

/// A line without a number right before its time: it counts lines or bytes.
fn without_number(line: &[u8]) -> &[u8] {
    let Some(first) = next_word(line, 0) else {
        return line;
    };
    let Some(second) = next_word(line, first.to) else {
        return line;
    };
    let has_more = next_word(line, second.to).is_some();
    if has_more && number_in(first.text).is_some() && time_in(second.text).is_some() {
        line.get(first.to..).unwrap_or(line)
    } else {
        line
    }
}

/// What a line has that says no way.
fn free_line<'l>(line: &'l [u8], habit: &mut Habit) -> Option<(Has, Option<Time<'l>>)> {
    let run = chosen(line, habit);
    if !run.is_marked
        && !are_whole(run.bytes.as_slice())
        && let Some(bytes) = text_bytes(line, false, habit)
    {
        return if are_whole(bytes.as_slice()) {
            Some((free_bytes(bytes, habit), time_at(line, line.len(), false)))
        } else {
            None
        };
    }
    let front = if run.words == 0 { line.len() } else { run.from };
    let time = time_at(line, front, false);
    if is_transcript(line) {
        return None;
    }
    if let Some(has) = two_words(line, &run) {
        return Some((has, time));
    }
    if run.words == 0 || is_ruler(run.bytes.as_slice()) {
        return headed(line, &run, time, habit);
    }
    let is_long = run.len() >= LEAST_MESSAGE;
    let has_front = time.is_some() || run.offset.is_some() || run.is_marked || habit.way.is_some();
    let is_plain = match run.strange {
        0 => run.is_last && run.is_spelt || has_front || is_long,
        1 => run.is_last && run.is_labelled || run.is_marked && time.is_some(),
        _ => run.is_marked && time.is_some(),
    };
    let is_whole = are_whole(run.bytes.as_slice());
    if (is_plain || is_whole) && run.other < LEAST_MESSAGE {
        Some((free_bytes(run.bytes, habit), time))
    } else {
        None
    }
}

/// What a line without bytes has: the head of columns, an offset, or a time alone.
fn headed<'l>(
    line: &[u8],
    run: &Run,
    time: Option<Time<'l>>,
    habit: &mut Habit,
) -> Option<(Has, Option<Time<'l>>)> {
    match head_in(line) {
        Some(base) => {
            habit.base = base.or(habit.base);
            Some((Has::Heading(None), None))
        }
        None if run.offset.is_some() || run.words != 0 => Some((Has::Heading(habit.way), None)),
        None if time.is_some() && is_bare(line) => Some((Has::Heading(habit.way), time)),
        None => None,
    }
}

/// Whether a line has the word of an exchange in a transcript: one that is spelt wrongly is none of
/// a log.
fn is_transcript(line: &[u8]) -> bool {
    match next_word(line, 0) {
        Some(word) => word.text == b"wire".as_slice(),
        None => false,
    }
}

/// The exchange of a line that has two words alone, of a message each: what was sent and what was
/// then heard, or a hyphen where nothing was.
fn two_words(line: &[u8], run: &Run) -> Option<Has> {
    if run.strange != 0 || run.offset.is_some() || run.first < LEAST_MESSAGE || !run.is_last {
        return None;
    }
    if line.starts_with(b"- ") && run.words == 1 {
        return Some(Has::Exchange {
            sent: LogBytes::new(),
            heard: bytes_of(run.bytes.as_slice()),
        });
    }
    let (first, second) = run.bytes.as_slice().split_at_checked(run.first)?;
    let has_second = second.len() >= LEAST_MESSAGE || line.ends_with(b" -");
    if run.words <= 2 && has_second {
        Some(Has::Exchange {
            sent: bytes_of(first),
            heard: bytes_of(second),
        })
    } else {
        None
    }
}

/// Bytes of which the line doesn't say which way they went; a line before may.
fn free_bytes(bytes: LogBytes, habit: &Habit) -> Has {
    Has::Bytes {
        way: habit.way,
        bytes,
    }
}

/// The bytes of a text, in the base in which they are messages, or else in that of the lines
/// before.
fn chosen(text: &[u8], habit: &mut Habit) -> Run {
    let hex = run_in(text, Base::Hex, habit.offset);
    if hex.offset.is_some() && hex.is_double && !text.contains(&b':') {
        return placed(run_in(text, Base::Swapped, habit.offset), habit);
    }
    let decimal = run_in(text, Base::Decimal, None);
    let may_be_decimal = are_whole(decimal.bytes.as_slice());
    if are_whole(hex.bytes.as_slice()) && habit.base != Some(Base::Decimal) {
        if !may_be_decimal {
            habit.base = Some(Base::Hex);
        }
        return placed(hex, habit);
    }
    if may_be_decimal && habit.base != Some(Base::Hex) {
        return guessed(decimal, Base::Decimal, Guess::Decimal, habit);
    }
    let short = run_in(text, Base::ShortHex, habit.offset);
    if are_whole(short.bytes.as_slice()) {
        return if are_whole(hex.bytes.as_slice()) {
            placed(hex, habit)
        } else {
            guessed(short, Base::ShortHex, Guess::ShortHex, habit)
        };
    }
    let run = match habit.base {
        Some(Base::Decimal) if decimal.words >= hex.words => decimal,
        Some(Base::ShortHex) => counted(short, habit),
        _ if decimal.words > hex.words && decimal.is_spelt => decimal,
        _ => counted(hex, habit),
    };
    without_fields(text, run, habit)
}

/// Bytes without the numbers beside them, where they are messages only so. In a message that lines
/// before began nothing is left out.
fn without_fields(text: &[u8], run: Run, habit: &mut Habit) -> Run {
    if are_whole(run.bytes.as_slice()) || run.other > 1 || habit.is_open {
        return run;
    }
    match within(text, habit.base) {
        Some(inner) => {
            if !habit.has_fields {
                habit.has_fields = true;
                habit.guess = Some(Guess::Fields);
            }
            inner
        }
        None => run,
    }
}

/// The bytes of a text that are messages where numbers before them are left out, and the number
/// after them; `None` where they are none.
fn within(text: &[u8], base: Option<Base>) -> Option<Run> {
    let base = base.unwrap_or(Base::Hex);
    let mut cut = 0usize;
    for _ in 0..=MOST_FIELDS {
        let rest = text.get(cut..)?;
        let mut run = run_in(rest, base, None);
        let second = run.second;
        let words = run.words;
        if let Some((count, bytes)) = run.bytes.as_slice().split_last()
            && counts(*count, bytes.len())
        {
            run = run_in(rest.get(..run.last)?, base, None);
        }
        if are_whole(run.bytes.as_slice()) {
            run.from = run.from.saturating_add(cut);
            return Some(run);
        }
        if words < 2 {
            return None;
        }
        cut = cut.saturating_add(second);
    }
    None
}

/// Bytes that are messages in another base than the usual one, which the next lines have too.
fn guessed(run: Run, base: Base, guess: Guess, habit: &mut Habit) -> Run {
    if habit.base != Some(base) {
        habit.guess = Some(guess);
        habit.base = Some(base);
    }
    run
}

/// Bytes in hexadecimal, of which the first may be their number, where the others are messages.
fn counted(run: Run, habit: &mut Habit) -> Run {
    let mut run = run;
    let bytes = run.bytes.as_slice();
    if let Some((count, rest)) = bytes.split_first()
        && counts(*count, rest.len())
        && (habit.has_counts || are_whole(rest))
    {
        run.bytes = bytes_of(rest);
        if !habit.has_counts {
            habit.has_counts = true;
            habit.guess = Some(Guess::Count);
        }
    }
    placed(run, habit)
}

/// Whether the digits of a byte are this number, in hexadecimal or decimal.
fn counts(digits: u8, number: usize) -> bool {
    let tens = usize::from(digits >> 4).saturating_mul(10);
    let ones = usize::from(digits & 15);
    usize::from(digits) == number || ones < 10 && tens.saturating_add(ones) == number
}

/// Bytes with the offset in a dump that is before them.
fn placed(run: Run, habit: &mut Habit) -> Run {
    if let Some(offset) = run.offset {
        habit.is_anew = habit.offset != Some(offset);
        let count = u64::try_from(run.len()).unwrap_or(0);
        habit.offset = Some(offset.saturating_add(count));
    }
    run
}
