// A line over std's readers and writers.
ghost use Rattle.std.specs.Prelude.{◌≡◌, OnOk};
ghost use Rattle.std.specs.Io.{ReadsAtMost};
ghost use Rattle.std.specs.Io.KnownBytes.{Appends, ReadConsumes};
ghost use Rattle.cct_live_port.specs.Standard.{port_of};

use crate::Line;
use cct_edge::Failed;
use std::io::{Read, Write};

/// A line over anything that reads and writes, as an opened serial port does. A read that gives no
/// byte is silence: so gives a terminal that is set to wait at most so long for a byte
/// (`stty raw min 0 time 1`).
#[derive(Drop)]
pub struct StdLine<P> {
    port: P,
}

impl<P: Read + Write> StdLine<P> {
    /// The line of an opened port.
    pub fn new(port: P) -> StdLine<P>
        ensures { port_of result ≡ port }
    {
        StdLine { port }
    }
}

impl<P: Read + Write> Line for StdLine<P> {
    // As a line it shows nothing. Its own clauses say what the port gave and took, where its bytes
    // are known.
    ghost reads = { λ _ _ _. Unit {0} };

    ghost writes = { λ _ _ _ _. Unit {0} };

    fn read(&mut self, room: &mut [u8]) -> Result<usize, Failed>
        ensures bound { ReadsAtMost result room.new }
        ensures bytes { ReadConsumes (P.remaining (port_of self.old))
            (P.remaining (port_of self.new)) result room.new }
    {
        match self.port.read(room) {
            Ok(count) => Ok(count),
            Err(_) => Err(Failed),
        }
    }

    fn write(&mut self, bytes: &[u8]) -> Result<(), Failed>
        ensures ok { OnOk result (Appends (P.contents (port_of self.old))
            (P.contents (port_of self.new)) bytes.now) }
    {
        if self.port.write_all(bytes).is_err() || self.port.flush().is_err() {
            return Err(Failed);
        }
        Ok(())
    }
}
