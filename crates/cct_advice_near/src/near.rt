//! Words that differ by a letter or two.

/// The letters of the shortest word in which two may be wrong.
const LONG: usize = 5;

/// The first of these words that differs from a word by one letter, or by two where it has five or
/// more: a letter that is missing, one too many or another one, or two that changed places.
pub fn near_word<'w>(word: &[u8], words: &[&'w str]) -> Option<&'w str> {
    let one = words
        .iter()
        .find(|known| is_near(word, known.as_bytes(), false));
    match one {
        Some(known) => Some(*known),
        None => words
            .iter()
            .find(|known| is_near(word, known.as_bytes(), true))
            .copied(),
    }
}

/// Whether two words differ by one letter, or where two are allowed by two.
pub fn is_near(word: &[u8], known: &[u8], are_two: bool) -> bool {
    if are_two {
        word.len() >= LONG && known.len() >= LONG && differ_by_two(word, known)
    } else {
        differ_by_one(word, known)
    }
}

/// Whether two words differ by one letter at most.
fn differ_by_one(word: &[u8], known: &[u8]) -> bool {
    let (word, known) = after_common(word, known);
    let word_after = after_first(word);
    let known_after = after_first(known);
    word_after == known_after
        || word_after == known
        || word == known_after
        || is_turned(word, known) && after_first(word_after) == after_first(known_after)
}

/// Whether two words differ by two letters at most.
fn differ_by_two(word: &[u8], known: &[u8]) -> bool {
    let (word, known) = after_common(word, known);
    let word_after = after_first(word);
    let known_after = after_first(known);
    differ_by_one(word_after, known_after)
        || differ_by_one(word_after, known)
        || differ_by_one(word, known_after)
        || is_turned(word, known)
            && differ_by_one(after_first(word_after), after_first(known_after))
}

/// Two words without the letters with which both begin.
fn after_common<'w, 'k>(word: &'w [u8], known: &'k [u8]) -> (&'w [u8], &'k [u8]) {
    let mut word = word;
    let mut known = known;
    for _ in 0..word.len() {
        match (word, known) {
            ([first, word_after @ ..], [other, known_after @ ..]) if *first == *other => {
                word = word_after;
                known = known_after;
            }
            _ => break,
        }
    }
    (word, known)
}

/// A word without its first letter, if it has one.
fn after_first(word: &[u8]) -> &[u8] {
    match word {
        [_, after @ ..] => after,
        [] => word,
    }
}

/// Whether the first two letters of two words changed places.
fn is_turned(word: &[u8], known: &[u8]) -> bool {
    match (word, known) {
        ([first, second, ..], [third, fourth, ..]) => *first == *fourth && *second == *third,
        _ => false,
    }
}
