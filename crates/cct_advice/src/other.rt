//! Lines of other texts than the one that is wanted, and other words for what a word says.

/// How many bytes in hexadecimal a line of a log has at least.
const LEAST_BYTES: usize = 5;

/// Words of transcripts, of reports and of audits.
const OF_TRANSCRIPT: &[&[u8]] = &[
    b"ok",
    b"no",
    b"wire",
    b"put",
    b"kept",
    b"posted",
    b"started",
    b"stopped",
    b"clean",
    b"closed",
    b"accepted",
    b"inhibited",
    b"fell",
    b"held",
    b"record",
    b"total",
    b"sure",
    b"doubt",
    b"quiet",
    b"refused",
];

/// Words, each with the word of a line that says the same.
const SAME: &[(&str, &str)] = &[
    ("insert", "coin"),
    ("payout", "pay"),
    ("dispense", "pay"),
    ("validator", "acceptor"),
    ("coin_acceptor", "acceptor"),
    ("bill_acceptor", "bills"),
    ("enable", "start"),
    ("disable", "stop"),
    ("inhibit", "stop"),
    ("exit", "end"),
    ("quit", "end"),
    ("step", "next"),
    ("sale", "vend"),
    ("power", "crash"),
    ("refill", "stock"),
];

/// Whether a word is one of a transcript, a report or an audit.
pub(crate) fn is_of_transcript(word: &[u8]) -> bool {
    OF_TRANSCRIPT.contains(&word)
}

/// The word of a line that says the same as another one.
pub(crate) fn meant_by(word: &[u8]) -> Option<&'static [u8]> {
    for (other, meant) in SAME {
        if other.as_bytes().eq_ignore_ascii_case(word) {
            return Some(meant.as_bytes());
        }
    }
    None
}

/// Whether a line looks like one of a bus log: it has bytes in hexadecimal, one by one or together.
pub(crate) fn is_of_log(line: &[u8]) -> bool {
    let mut count: usize = 0;
    for word in line.split(|byte| matches!(*byte, b' ' | b'\t' | b',' | b';' | b'-' | b':')) {
        let digits = word.strip_prefix(b"0x").unwrap_or(word);
        let is_hex = digits.iter().all(|digit| digit.is_ascii_hexdigit());
        if is_hex && digits.len().is_multiple_of(2) {
            count = count.saturating_add(digits.len() / 2);
        }
    }
    count >= LEAST_BYTES
}
