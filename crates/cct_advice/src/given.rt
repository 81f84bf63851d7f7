//! Which devices the lines of a setup or of a capture gave.

use cct_script::ranged;

/// As many bytes as the longest word of such a line, its address and two spaces have.
const HEAD: usize = 13;

/// The addresses that lines gave to devices, each with the number of the first line that did.
#[derive(Drop)]
pub(crate) struct Given {
    /// The first bytes of the line that isn't at its end.
    head: [u8; HEAD],
    len: usize,
    lines: [u64; 256],
}

impl Given {
    /// No device.
    pub(crate) fn new() -> Given {
        Given {
            head: [0; HEAD],
            len: 0,
            lines: [0; 256],
        }
    }

    /// Adds a byte of a line.
    pub(crate) fn add(&mut self, byte: u8) {
        if let Some(place) = self.head.get_mut(self.len) {
            *place = byte;
            self.len = self.len.saturating_add(1);
        }
    }

    /// The line of this number is at its end.
    pub(crate) fn end_line(&mut self, number: u64) {
        if let Some(addr) = self.addr()
            && let Some(line) = self.lines.get_mut(usize::from(addr))
            && *line == 0
        {
            *line = number;
        }
        self.len = 0;
    }

    /// The address that the line gives to a device, if it does.
    fn addr(&self) -> Option<u8> {
        let mut fields = self.head.get(..self.len)?.split(|byte| *byte == b' ');
        match fields.next()? {
            b"acceptor" | b"hopper" | b"bills" | b"watch" => {}
            _ => return None,
        }
        let addr = ranged(2, 255, fields.next()?)?;
        u8::try_from(addr).ok()
    }

    /// Whether a line before the one of this number gave an address to a device.
    pub(crate) fn has(&self, addr: &[u8], number: u64) -> bool {
        let Some(addr) = ranged(0, 255, addr) else {
            return false;
        };
        match usize::try_from(addr) {
            Ok(place) => match self.lines.get(place) {
                Some(line) => *line != 0 && *line < number,
                None => false,
            },
            Err(_) => false,
        }
    }
}
