//! The lines of a capture on their way to a sink.

use crate::put_buffer::PutBuffer;
use crate::status::Stop;
use cct_edge::Sink;
use cct_edge_slices::Page;
use cct_show_captured::Watches;
use std::fmt::Write;

/// Memory in which bytes are held for a while.
pub trait Held: Drop {
    /// Holds more bytes.
    fn hold(&mut self, bytes: &[u8]) -> Result<(), Stop>;

    /// The bytes that are held.
    fn held(&self) -> &[u8];
}

impl Held for Vec<u8> {
    fn hold(&mut self, bytes: &[u8]) -> Result<(), Stop> {
        self.extend_from_slice(bytes)?;
        Ok(())
    }

    fn held(&self) -> &[u8] {
        self.as_slice()
    }
}

impl Held for Page<'_> {
    fn hold(&mut self, bytes: &[u8]) -> Result<(), Stop> {
        self.put(bytes)?;
        Ok(())
    }

    fn held(&self) -> &[u8] {
        self.written()
    }
}

/// The lines of a capture. The lines `watch` stand first, and how a device is watched hangs on what
/// it is asked later: so the lines `tap` are held until that is settled for each device, or to the
/// end.
#[derive(Drop)]
pub(crate) struct Taps<'k, K, H> {
    out: PutBuffer<'k, K>,
    watches: Watches,
    /// The lines `tap` that are held; `None` where the lines `watch` are written.
    held: Option<H>,
}

impl<'k, K: Sink, H: Held> Taps<'k, K, H> {
    /// No line yet, and these devices; `held` holds nothing.
    pub(crate) fn new(watches: Watches, held: H, out: &'k mut K) -> Taps<'k, K, H> {
        Taps {
            out: PutBuffer::new(out),
            watches,
            held: Some(held),
        }
    }

    /// The devices that are watched.
    pub(crate) fn watches(&self) -> &Watches {
        &self.watches
    }

    /// Adds the line of an exchange, and writes all that is settled.
    pub(crate) fn tap(&mut self, sent: &[u8], echo: &[u8], heard: &[u8]) -> Result<(), Stop> {
        for watch in self.watches.iter_mut() {
            watch.count(sent);
        }
        self.add(b"tap ")?;
        self.add_hex(sent)?;
        self.add(b" ")?;
        self.add_hex(echo)?;
        self.add_hex(heard)?;
        if echo.is_empty() && heard.is_empty() {
            self.add(b"-")?;
        }
        self.add(b"\n")?;
        if self.watches.iter().all(|watch| watch.is_settled()) {
            self.begin()?;
        }
        self.out.write_out()?;
        Ok(())
    }

    /// Writes the lines `watch` and what is held, if that isn't done.
    pub(crate) fn begin(&mut self) -> Result<(), Stop> {
        let Some(held) = self.held.take() else {
            return Ok(());
        };
        for watch in self.watches.as_slice() {
            write!(self.out, "{watch}\n")?;
        }
        self.out.add(b"begin\n")?;
        self.out.add(held.held())?;
        self.out.write_out()?;
        Ok(())
    }

    /// Writes the last line.
    pub(crate) fn end(&mut self) -> Result<(), Stop> {
        self.out.add(b"end\n")?;
        self.out.write_out()?;
        Ok(())
    }

    /// Adds bytes in hexadecimal.
    fn add_hex(&mut self, bytes: &[u8]) -> Result<(), Stop> {
        for byte in bytes {
            self.add(&[digit(*byte >> 4), digit(*byte & 15)])?;
        }
        Ok(())
    }

    /// Adds bytes of a line `tap`.
    fn add(&mut self, bytes: &[u8]) -> Result<(), Stop> {
        match &mut self.held {
            Some(held) => held.hold(bytes)?,
            None => self.out.add(bytes)?,
        }
        Ok(())
    }
}

/// The hexadecimal digit of a value below 16.
fn digit(value: u8) -> u8 {
    b"0123456789abcdef"
        .get(usize::from(value))
        .copied()
        .unwrap_or(b'?')
}
