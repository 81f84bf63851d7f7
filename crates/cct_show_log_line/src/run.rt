//! The bytes that stand together in a line.

use crate::byte::{Base, LogBytes, add_word, without_angles};
use crate::column::is_column;
use crate::heading::{is_known, is_remark, offset_in};
use crate::message::LEAST_MESSAGE;
use crate::name::is_among;
use crate::time::number_in;
use crate::word::{Word, next_word};

/// Keys of bytes.
const KEYS: &[u8] = b"data hex bytes raw msg message frame payload";

/// What may stand before each byte as a word of its own.
const TYPES: &[u8] = b"byte bytes char x";

/// What is counted where a number is before it.
const COUNTED: &[u8] = b"bytes byte octets chars ms us s sec";

/// The signs of a line's end, from the last one on.
const LINE_ENDS: &[&str] = &["\\n", "<LF>", "\\r", "<CR>"];

/// Bytes in words that stand one after the other.
#[derive(Drop)]
pub(crate) struct Run {
    pub(crate) bytes: LogBytes,
    /// How many words they are.
    pub(crate) words: u32,
    /// How many bytes the first word has.
    pub(crate) first: usize,
    /// Where they begin in the line, and where their second word and their last one do.
    pub(crate) from: usize,
    pub(crate) second: usize,
    pub(crate) last: usize,
    /// How many words of no known meaning stand before them.
    pub(crate) strange: u32,
    /// Whether they stand after a name with a colon.
    pub(crate) is_labelled: bool,
    /// Whether the first of them says that it is hexadecimal.
    pub(crate) is_marked: bool,
    /// Whether their spelling says the base: two digits in hexadecimal, or three in a decimal
    /// number.
    pub(crate) is_spelt: bool,
    /// How many bytes the longest of the other runs of the line has.
    pub(crate) other: usize,
    /// The offset in a dump that is before them.
    pub(crate) offset: Option<u64>,
    /// Whether the first word has two bytes.
    pub(crate) is_double: bool,
    /// Whether each word is one of eight bits.
    are_bits: bool,
    /// Whether the first word is in brackets of its own.
    is_framed: bool,
    /// Whether nothing but a column of characters or a remark is after them.
    pub(crate) is_last: bool,
}

impl Run {
    /// No byte.
    fn new(strange: u32, is_labelled: bool) -> Run {
        Run {
            bytes: LogBytes::new(),
            words: 0,
            first: 0,
            from: 0,
            second: 0,
            last: 0,
            strange,
            is_labelled,
            is_marked: false,
            is_spelt: false,
            other: 0,
            offset: None,
            is_double: false,
            are_bits: true,
            is_framed: false,
            is_last: true,
        }
    }

    /// Adds the bytes of a word, if it spells any.
    fn add(&mut self, line: &[u8], word: &Word<'_>, base: Base) -> bool {
        if !add_word(&mut self.bytes, word.text, base)
            && !add_word(&mut self.bytes, value_in(word.text), base)
            && !add_word(&mut self.bytes, without_angles(word.text), base)
            && !add_word(&mut self.bytes, without_line_end(word.text), base)
        {
            return false;
        }
        self.are_bits &= is_bits(word.text);
        if self.words == 0 {
            self.first = self.len();
            self.is_framed = word.is_framed(line);
            self.from = word.from;
            self.is_marked = is_marked(word.text);
            self.is_double = word.text.len() == 4;
        }
        if self.words == 1 {
            self.second = word.from;
        }
        self.last = word.from;
        self.is_spelt |= word.text.len() >= 3 || base != Base::Decimal;
        self.words = self.words.saturating_add(1);
        true
    }

    /// Whether it says that it is hexadecimal, and the other one doesn't, and is no message.
    fn is_clearer(&self, other: &Run) -> bool {
        self.is_marked && !other.is_marked && other.len() < LEAST_MESSAGE
    }

    /// How many bytes there are.
    pub(crate) fn len(&self) -> usize {
        self.bytes.as_slice().len()
    }
}

/// The longest run of bytes in a line, and of those as long the first one. `expected` is where the
/// last line of a dump ended.
pub(crate) fn run_in(line: &[u8], base: Base, expected: Option<u64>) -> Run {
    let mut best = Run::new(0, false);
    let mut run = Run::new(0, false);
    let mut strange = 0u32;
    let mut offset = None;
    let mut at = 0;
    for _ in line {
        let Some(word) = next_word(line, at) else {
            break;
        };
        if run.words != 0 && (is_remark(word.text) || is_column_at(line, at, &word, &run)) {
            break;
        }
        if at == 0 && base != Base::Decimal {
            offset = offset_in(line, &word, expected);
        }
        let is_offset = at == 0 && offset.is_some();
        at = word.to;
        let is_again = best.len().max(run.len()) == 1 && is_bits(word.text);
        if is_offset || is_again || is_passed(line, &word, &run) {
            continue;
        }
        if let Some(other) = unlike(line, &word, base, &run) {
            best = longer(best, run);
            run = other;
            continue;
        }
        if run.add(line, &word, base) || run.words != 0 && is_framed_apart(line, &word, &run) {
            continue;
        }
        let is_strange = !is_known(word.text);
        if is_strange {
            strange = strange.saturating_add(1);
        }
        best = longer(best, run);
        best.is_last &= best.is_marked && is_gloss(word.text);
        run = Run::new(strange, is_strange && word.text.ends_with(b":"));
    }
    ended(longer(best, run), strange, offset)
}

/// A run as the one of its line, in which so many words have no known meaning.
fn ended(found: Run, strange: u32, offset: Option<u64>) -> Run {
    let mut found = found;
    if found.words >= 2 && found.are_bits {
        // They are no hexadecimal digits.
        return Run::new(strange.saturating_add(1), false);
    }
    found.offset = offset;
    if found.words == 0 {
        found.strange = strange;
    }
    found
}

/// The longer of two runs, and the earlier one where both are as long; one that says that it is
/// hexadecimal before one that doesn't, and that is shorter than a message.
fn longer(earlier: Run, later: Run) -> Run {
    let is_later = if later.is_clearer(&earlier) {
        true
    } else if earlier.is_clearer(&later) {
        false
    } else {
        later.len() > earlier.len()
    };
    let (mut best, less) = if is_later {
        (later, earlier)
    } else {
        (earlier, later)
    };
    best.other = best.other.max(less.len()).max(less.other);
    best
}

/// What is after a key that says that it is bytes, or after a sign without one; nothing where there
/// is none.
fn value_in(word: &[u8]) -> &[u8] {
    match word.iter().position(|byte| matches!(*byte, b'=' | b':')) {
        Some(place) if place == 0 || is_among(KEYS, word.get(..place).unwrap_or(b"")) => {
            word.get(place.saturating_add(1)..).unwrap_or(b"")
        }
        _ => b"",
    }
}

/// A word without the signs of a line's end after it, as they stand in a text of JSON, or in that of
/// a terminal.
fn without_line_end(word: &[u8]) -> &[u8] {
    let mut word = word;
    for end in LINE_ENDS {
        word = word.strip_suffix(end.as_bytes()).unwrap_or(word);
    }
    word
}

/// Whether a word has marks alone, as an arrow or a stroke between a request and its reply.
fn is_mark(word: &[u8]) -> bool {
    !word.iter().any(|byte| byte.is_ascii_alphanumeric())
}

/// Whether a word says that it is hexadecimal.
fn is_marked(word: &[u8]) -> bool {
    matches!(word, [b'0', b'x' | b'X', _, ..])
}

/// Whether a word is none of the bytes, and doesn't end them.
fn is_passed(line: &[u8], word: &Word<'_>, run: &Run) -> bool {
    run.words != 0 && is_between(line, word, run) || is_count(line, word, run)
}

/// The run that a word begins, where it says that it is hexadecimal and those before it don't, or
/// the other way round: such numbers don't belong together.
fn unlike(line: &[u8], word: &Word<'_>, base: Base, run: &Run) -> Option<Run> {
    if run.words == 0 || run.is_marked == is_marked(word.text) {
        return None;
    }
    let mut other = Run::new(run.strange, false);
    if other.add(line, word, base) {
        Some(other)
    } else {
        None
    }
}

/// Whether a word among the bytes is none of them: marks alone, what may stand before each, their
/// number in brackets, or one in brackets that doesn't say that it is hexadecimal as they do.
fn is_between(line: &[u8], word: &Word<'_>, run: &Run) -> bool {
    if is_mark(word.text) || is_among(TYPES, word.text) {
        return true;
    }
    let is_unlike = run.is_marked && !is_marked(word.text);
    is_framed_apart(line, word, run) && (is_unlike || is_number_of(word.text, run.len()))
}

/// Whether a word is in brackets of its own, and the first of the bytes isn't.
fn is_framed_apart(line: &[u8], word: &Word<'_>, run: &Run) -> bool {
    !run.is_framed && word.is_framed(line)
}

/// Whether a word is this number.
fn is_number_of(word: &[u8], count: usize) -> bool {
    number_in(word) == u64::try_from(count).ok()
}

/// Whether a word is eight bits.
fn is_bits(word: &[u8]) -> bool {
    word.len() == 8 && word.iter().all(|digit| matches!(*digit, b'0' | b'1'))
}

/// Whether a word may show a byte once more, which says by itself that it is hexadecimal: a number,
/// or a character.
fn is_gloss(word: &[u8]) -> bool {
    word.len() == 1 || word.starts_with(b"^") || number_in(word).is_some()
}

/// Whether a word counts the bytes: a number before their name, one in parentheses or brackets of
/// its own before them, or one in parentheses where they are in later lines.
fn is_count(line: &[u8], word: &Word<'_>, run: &Run) -> bool {
    let is_number = word.text.len() <= 3 && number_in(word.text).is_some();
    match next_word(line, word.to) {
        Some(next) if is_number => {
            let is_framed = word.is_framed(line) && !next.is_framed(line);
            is_counted(next.text) || run.words == 0 && is_framed
        }
        None if is_number => run.words == 0 && word.is_in_parentheses(line),
        _ => false,
    }
}

/// Whether a word names what is counted.
fn is_counted(word: &[u8]) -> bool {
    is_among(COUNTED, word.strip_suffix(b":").unwrap_or(word))
}

/// Whether a column of the characters of the bytes begins at a word, after a gap that ends at it.
fn is_column_at(line: &[u8], at: usize, word: &Word<'_>, run: &Run) -> bool {
    let is_wide = word.from > at.saturating_add(1) || line.get(at) == Some(&b'\t');
    match line.get(at..) {
        Some(rest) if is_wide => is_column(rest, run.bytes.as_slice()),
        _ => false,
    }
}
