// A port is opened, locked and looked at.

use crate::timed::read_timed;
use std::fs::{File, OpenOptions, TryLockError};
use std::io::IsTerminal;

/// Why a port isn't used. Nothing was written into it.
#[derive(Clone, Copy, Debug, PartialEq, Eq)]
pub enum TerminalNo {
    /// It can't be opened for reading and writing, or it is hung up.
    Unopened,
    /// It is no terminal.
    NoTerminal,
    /// Another process has locked it.
    InUse,
    /// It isn't set up: reads that find nothing come back at once, ten in a row, as after
    /// `stty min 0 time 0`.
    Unset,
}

/// How often at most what waits in a port is dropped before it is looked at.
const MOST_DROPPED: u32 = 64;

/// Opens the port at a path, locks it, and looks at it.
pub(crate) fn open_port(rt: &HostRuntime, path: &str) -> Result<File, TerminalNo> {
    let opened = OpenOptions::new().read(true).write(true).open(rt, path);
    let mut port = match opened {
        Ok(port) => port,
        Err(_) => return Err(TerminalNo::Unopened),
    };
    if !port.is_terminal() {
        return Err(TerminalNo::NoTerminal);
    }
    match port.try_lock() {
        Ok(()) => {}
        Err(TryLockError::WouldBlock) => return Err(TerminalNo::InUse),
        Err(TryLockError::Error(_)) => return Err(TerminalNo::Unopened),
    }
    look_at(rt, &mut port)?;
    Ok(port)
}

/// Drops what waits in a port, up to the first silent read, which has to take its time.
fn look_at(rt: &HostRuntime, port: &mut File) -> Result<(), TerminalNo> {
    let mut room = [0; 256];
    for _ in 0..MOST_DROPPED {
        match read_timed(rt, port, &mut room) {
            (Ok(0), true) => return Ok(()),
            (Ok(0), false) => return Err(TerminalNo::Unset),
            (Ok(_), _) => {}
            (Err(_), _) => return Err(TerminalNo::Unopened),
        }
    }
    Ok(())
}
