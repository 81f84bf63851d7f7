//! The fields of a line.

/// The first field of a text, and what is after its space, if there is one.
pub(crate) fn first_field(text: &[u8]) -> (&[u8], Option<&[u8]>) {
    match text.iter().position(|byte| *byte == b' ') {
        Some(at) => (&text[..at], Some(&text[at + 1..])),
        None => (text, None),
    }
}

/// How many fields stand after a word.
pub(crate) fn fields_behind(rest: Option<&[u8]>) -> usize {
    let mut count: usize = 0;
    if let Some(text) = rest {
        for _ in text.split(|byte| *byte == b' ') {
            count = count.saturating_add(1);
        }
    }
    count
}
