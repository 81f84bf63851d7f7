//! The front of a last line.

/// How many bytes of one put are kept. The last lines that say how a run ended are shorter.
const ROOM: usize = 64;

/// The front of the last put that may have been a last line.
#[derive(Drop)]
pub(crate) struct Front {
    bytes: [u8; ROOM],
    len: usize,
}

impl Front {
    /// No byte.
    pub(crate) fn new() -> Self {
        Front {
            bytes: [0; ROOM],
            len: 0,
        }
    }

    /// Keeps the front of these bytes in place of the ones before, if they may be a last line.
    pub(crate) fn note(&mut self, bytes: &[u8]) {
        if may_be_last(bytes) {
            self.keep(bytes);
        }
    }

    /// Keeps the front of these bytes in place of the ones before.
    #[inline(never)]
    fn keep(&mut self, bytes: &[u8]) {
        let len = bytes.len().min(ROOM);
        self.bytes[..len].copy_from_slice(&bytes[..len]);
        self.len = len;
    }

    /// The bytes kept.
    pub(crate) fn bytes(&self) -> &[u8] {
        &self.bytes[..self.len.min(ROOM)]
    }
}

/// Whether a line may be the last one of a run that went wrong, by its first letters. Few lines of
/// steps may be, so that few are kept.
fn may_be_last(line: &[u8]) -> bool {
    match line.first() {
        Some(b'w') => line.get(1) == Some(&b'o'),
        Some(b'u') => line.get(1) == Some(&b'p'),
        Some(b'i') => line.get(1) == Some(&b'n'),
        Some(first) => matches!(*first, b'd' | b'j' | b'n' | b'r'),
        None => false,
    }
}
