//! What stands wrong between the fields of a line, or around them.

/// The bytes that some editors write before a text in UTF-8.
const ORDER_MARK: &[u8] = b"\xef\xbb\xbf";

/// Those before a text in UTF-16, low bytes first.
const WIDE_MARK: &[u8] = b"\xff\xfe";

const TWO_SPACES: &[u8] = b"  ";

/// What is wrong between the fields of a line or around them, and what to do, if anything is.
pub(crate) fn gap_in(line: &[u8]) -> Option<&'static str> {
    if line.starts_with(ORDER_MARK) {
        return Some("a byte order mark stands before the word; save the file without it");
    }
    if line.starts_with(WIDE_MARK) {
        return Some("the text is in UTF-16; save it as plain text of one byte a character");
    }
    if line.ends_with(b"\r") {
        return Some("a carriage return ends the line; take it out, as by tr -d '\\r'");
    }
    if line.contains(&b'\t') {
        return Some("a tab stands in the line; write exactly one space, as by tr '\\t' ' '");
    }
    if line.starts_with(b" ") {
        return Some("a space stands before the word; take it out");
    }
    if line.ends_with(b" ") {
        return Some("a space ends the line; take it out");
    }
    if line.windows(2).any(|pair| pair == TWO_SPACES) {
        return Some("two spaces stand side by side; write exactly one");
    }
    None
}

/// Whether a text begins as a remark does in other languages.
pub(crate) fn is_remark(text: &[u8]) -> bool {
    text.starts_with(b"#") || text.starts_with(b"//") || text.starts_with(b";")
}
