//! Bytes of a script, as people read them.

use std::fmt;

/// How many bytes are shown at most.
const SHOWN: usize = 24;

/// The first 24 of these bytes: a printing character or a space as it is, any other byte in
/// hexadecimal.
#[derive(Drop)]
pub(crate) struct Shown<'b>(pub &'b [u8]);

impl fmt::Display for Shown<'_> {
    fn fmt<W: fmt::Write>(&self, f: &mut fmt::Formatter<W>) -> fmt::Result {
        let len = self.0.len().min(SHOWN);
        for byte in &self.0[..len] {
            write_byte(*byte, f)?;
        }
        f.write_str(if len < self.0.len() { ".." } else { "" })
    }
}

/// Writes one byte.
fn write_byte<W: fmt::Write>(byte: u8, f: &mut fmt::Formatter<W>) -> fmt::Result {
    match byte {
        0x20..=0x7e => {
            let letter = char::from(byte);
            write!(f, "{letter}")
        }
        _ => write!(f, "\\x{byte:02x}"),
    }
}
