//! The words of a line.

/// A word of a line: no byte of it is between words.
#[derive(Clone, Copy)]
pub(crate) struct Word<'l> {
    pub(crate) text: &'l [u8],
    /// The place in the line at which it begins, and the place after it.
    pub(crate) from: usize,
    pub(crate) to: usize,
}

/// The first word of a line that begins at a place or after it.
pub(crate) fn next_word(line: &[u8], place: usize) -> Option<Word<'_>> {
    let rest = line.get(place..)?;
    let gap = rest.iter().position(|byte| !is_gap(*byte))?;
    let rest = rest.get(gap..)?;
    let len = match rest.iter().position(|byte| is_gap(*byte)) {
        Some(len) => len,
        None => rest.len(),
    };
    let from = place.saturating_add(gap);
    Some(Word {
        text: rest.get(..len)?,
        from,
        to: from.saturating_add(len),
    })
}

/// Whether a byte is between words.
fn is_gap(byte: u8) -> bool {
    match byte {
        b' ' | b'\t' | b',' | b';' | b'|' => true,
        b'[' | b']' | b'{' | b'}' | b'(' | b')' => true,
        b'"' | b'\'' | b'`' => true,
        _ => false,
    }
}

impl Word<'_> {
    /// Whether it is in brackets or parentheses of its own.
    pub(crate) fn is_framed(&self, line: &[u8]) -> bool {
        let before = match self.from.checked_sub(1) {
            Some(place) => line.get(place),
            None => None,
        };
        matches!(
            (before, line.get(self.to)),
            (Some(b'('), Some(b')')) | (Some(b'['), Some(b']'))
        )
    }

    /// Whether it is in parentheses of its own.
    pub(crate) fn is_in_parentheses(&self, line: &[u8]) -> bool {
        self.is_framed(line) && line.get(self.to) == Some(&b')')
    }
}
