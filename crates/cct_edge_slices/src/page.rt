//! A sink into a slice.
ghost use Rattle.std.specs.Prelude.{◌≡◌, ◌+◌, ◌≤◌, ◌++◌, [], IsErr, OnOk, OnErr, drop, length};
ghost use Rattle.std.specs.Prelude.{take};
ghost use Rattle.std.specs.Io.KnownBytes.{Appends};
ghost use Rattle.cct_edge.specs.Bytes.{AppendsFront, Serves};
ghost use Rattle.cct_edge_slices.specs.Slices.{page_bytes, page_faults, page_name, page_puts};
ghost use Rattle.cct_edge_slices.specs.Slices.{page_written, written_count, written_on};

use cct_edge::{Failed, Sink};

/// A sink into a slice, from its front on. A piece that doesn't fit into what is left is a fault,
/// and nothing of it is written.
#[derive(Drop)]
pub struct Page<'p> {
    bytes: &'p mut [u8],
    used: usize,
    faults: u64,
}

impl<'p> Page<'p> {
    /// A page of these bytes, with nothing written.
    pub fn new(bytes: &'p mut [u8]) -> Page<'p>
        ensures same { page_name result ≡ bytes.entry.ghost_name }
        ensures written { written_on result ≡ [] }
        ensures count { written_count result ≡ 0 }
        ensures all { page_bytes result ≡ bytes.old }
        ensures faults { page_faults result ≡ 0 }
    {
        Page {
            bytes,
            used: 0,
            faults: 0,
        }
    }

    /// What has been written.
    pub fn written(&self) -> &[u8]
        ensures { result.now ≡ written_on self.now }
    {
        match self.bytes.get(..self.used) {
            Some(written) => written,
            None => self.bytes,
        }
    }

    /// How many bytes have been written.
    pub fn used(&self) -> usize
        ensures { result ≡ written_count self.now }
    {
        self.used
    }

    /// How often a piece didn't fit.
    pub fn faults(&self) -> u64
        ensures { result ≡ page_faults self.now }
    {
        self.faults
    }
}

impl Sink for Page<'_> {
    ghost written = { page_written };

    ghost faults = { page_faults };

    ghost puts = { page_puts };

    fn put(&mut self, piece: &[u8]) -> Result<(), Failed>
        ensures one { page_puts self.old piece.now result self.new }
        ensures ok { OnOk result (Appends (page_written self.old) (page_written self.new) piece.now) }
        ensures err { OnErr result (AppendsFront (page_written self.old) (page_written self.new)
            piece.now) }
        ensures serves { Serves page_written page_faults self.old self.new (IsErr result) }
    {
        match self.bytes.len().checked_sub(self.used) {
            Some(room) if piece.len() <= room => {}
            _ => {
                self.faults = self.faults.saturating_add(1);
                return Err(Failed);
            }
        }
        put_at(self.bytes, self.used, piece);
        self.used += piece.len();
        Ok(())
    }
}

/// Puts a piece into bytes, from this place on.
fn put_at(bytes: &mut [u8], place: usize, piece: &[u8])
    requires { place + length piece.now ≤ length bytes.old }
    ensures written { take (place + length piece.now) bytes.new ≡ take place bytes.old
        ++ piece.now }
    ensures rest { drop (place + length piece.now) bytes.new
        ≡ drop (place + length piece.now) bytes.old }
    ensures room { length bytes.new ≡ length bytes.old }
{
    bytes[place..place + piece.len()].copy_from_slice(piece);
}
