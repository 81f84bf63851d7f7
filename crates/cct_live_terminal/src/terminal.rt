// A line over a terminal.
ghost use Rattle.std.specs.Io.{ReadsAtMost};

use crate::opening::{TerminalNo, open_port};
use crate::timed::read_timed;
use cct_edge::Failed;
use cct_live_port::Line;
use std::fs::File;
use std::io::Write;
use std::thread::sleep;
use std::time::Duration;

/// After how many tenths of a second a port that failed is opened again.
const TENTHS_BETWEEN: u8 = 10;

/// A line over a terminal that is set up so that a read which finds nothing waits for a tenth of a
/// second (`stty raw -echo min 0 time 1`), and which is locked while it is open. Such a read is a
/// silent one. Where reads bring nothing at once, ten in a row, it fails, as after the terminal was
/// hung up. A read or a write that fails closes the terminal. It is opened again after a second of
/// such reads and writes, each of which takes its tenth and fails, and so on; each time it is
/// locked and looked at anew.
///
/// A read of a terminal that isn't set up so may never come back: no call of the library ends it.
#[derive(Drop)]
pub struct Terminal<'r> {
    rt: &'r HostRuntime,
    path: &'r str,
    port: Option<File>,
    /// For how many tenths it has been closed, or since it was last tried to open it.
    closed_for: u8,
}

impl<'r> Terminal<'r> {
    /// Opens the terminal at a path, locks it, and looks at it. Nothing is written.
    pub fn open(rt: &'r HostRuntime, path: &'r str) -> Result<Terminal<'r>, TerminalNo> {
        match open_port(rt, path) {
            Ok(port) => Ok(Terminal {
                rt,
                path,
                port: Some(port),
                closed_for: 0,
            }),
            Err(why) => Err(why),
        }
    }

    /// Where the terminal is closed, a tenth of a second goes by, and after so many of them it is
    /// opened again.
    fn wait_where_closed(&mut self) {
        if self.port.is_some() {
            return;
        }
        sleep(self.rt, Duration::from_millis(100));
        self.closed_for = self.closed_for.saturating_add(1);
        if self.closed_for >= TENTHS_BETWEEN {
            self.closed_for = 0;
            self.port = open_port(self.rt, self.path).ok();
        }
    }

    /// The terminal has failed, so it is closed.
    fn close(&mut self) {
        self.port = None;
        self.closed_for = 0;
    }
}

/// What a terminal brings. Nothing that comes at once is a failure.
fn read_from(rt: &HostRuntime, port: &mut File, room: &mut [u8]) -> Result<usize, Failed>
    ensures bound { ReadsAtMost result room.new }
{
    match read_timed(rt, port, room) {
        (Ok(0), false) => Err(Failed),
        (Ok(count), _) => Ok(count),
        (Err(_), _) => Err(Failed),
    }
}

/// All of the bytes are written to a terminal.
fn write_to(port: &mut File, bytes: &[u8]) -> Result<(), Failed> {
    if port.write_all(bytes).is_err() || port.flush().is_err() {
        return Err(Failed);
    }
    Ok(())
}

impl Line for Terminal<'_> {
    // As a line it shows nothing.
    ghost reads = { λ _ _ _. Unit {0} };

    ghost writes = { λ _ _ _ _. Unit {0} };

    fn read(&mut self, room: &mut [u8]) -> Result<usize, Failed> {
        self.wait_where_closed();
        let came = match &mut self.port {
            Some(port) => read_from(self.rt, port, room),
            None => return Err(Failed),
        };
        if came.is_err() {
            self.close();
        }
        came
    }

    fn write(&mut self, bytes: &[u8]) -> Result<(), Failed> {
        let put = match &mut self.port {
            Some(port) => write_to(port, bytes),
            None => {
                self.wait_where_closed();
                return Err(Failed);
            }
        };
        if put.is_err() {
            self.close();
        }
        put
    }
}
