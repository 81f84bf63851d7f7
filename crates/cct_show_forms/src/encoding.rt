//! How the characters of the input are written: as bytes, or in UTF-16, as some programs of Windows
//! write them.

use arrayvec::ArrayVec;

/// The bytes of a character of UTF-16 that is one unit, in UTF-8.
pub(crate) type Utf8 = ArrayVec<u8, 3>;

/// How the characters are written.
#[derive(Clone, Copy)]
pub(crate) enum Encoding {
    /// Each byte is taken as it is.
    Bytes,
    /// Two bytes are a unit of UTF-16: the lower one first, or the higher one.
    Little(Option<u8>),
    Big(Option<u8>),
}

impl Encoding {
    /// The encoding of an input that begins with these bytes, by the mark of the order of bytes.
    pub(crate) fn of(front: &[u8]) -> Encoding {
        match front {
            [0xff, 0xfe, ..] => Encoding::Little(None),
            [0xfe, 0xff, ..] => Encoding::Big(None),
            _ => Encoding::Bytes,
        }
    }

    /// Takes a byte of UTF-16. With the second one of a unit the bytes of its character come; of a
    /// character of two units a question mark for each.
    pub(crate) fn take(&mut self, byte: u8) -> Option<Utf8> {
        match *self {
            Encoding::Bytes => None,
            Encoding::Little(None) => {
                *self = Encoding::Little(Some(byte));
                None
            }
            Encoding::Big(None) => {
                *self = Encoding::Big(Some(byte));
                None
            }
            Encoding::Little(Some(low)) => {
                *self = Encoding::Little(None);
                Some(utf8_of(byte, low))
            }
            Encoding::Big(Some(high)) => {
                *self = Encoding::Big(None);
                Some(utf8_of(high, byte))
            }
        }
    }
}

/// The bytes of a character whose unit has these bytes, in UTF-8.
fn utf8_of(high: u8, low: u8) -> Utf8 {
    let mut bytes = Utf8::new();
    // There is room for three.
    match high {
        0 if low < 0x80 => {
            let _ = bytes.try_push(low);
        }
        0..=7 => {
            let _ = bytes.try_push(0xc0 | (high & 7) << 2 | low >> 6);
            let _ = bytes.try_push(0x80 | low & 63);
        }
        0xd8..=0xdf => {
            let _ = bytes.try_push(b'?');
        }
        // The mark of the order of bytes.
        0xfe if low == 0xff => {}
        _ => {
            let _ = bytes.try_push(0xe0 | high >> 4);
            let _ = bytes.try_push(0x80 | (high & 15) << 2 | low >> 6);
            let _ = bytes.try_push(0x80 | low & 63);
        }
    }
    bytes
}
