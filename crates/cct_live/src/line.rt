//! The port of the line is opened, and it is found out whether the line gives the echo.

use crate::ending::Stop;
use crate::words::{Echo, LineWords};
use cct_live_port::{Options, Port};
use cct_live_terminal::{Terminal, TerminalNo};

/// How many silent reads an answer is waited for before it is given up.
const PATIENCE: u16 = 4;

/// Opens the port of the line, locks it and looks at it, and finds out whether the line gives the
/// echo, if that is asked for. The answer also says whether it is known: it isn't where nothing at
/// all was heard, and then the echo is waited for.
pub(crate) fn open_line<'r>(
    rt: &'r HostRuntime,
    words: LineWords<'r>,
) -> Result<(Port<Terminal<'r>>, bool), Stop> {
    let terminal = match Terminal::open(rt, words.port) {
        Ok(terminal) => terminal,
        Err(why) => return Err(unusable(why)),
    };
    let options = Options {
        echoes: words.echo != Echo::No,
        gap: words.gap,
        patience: PATIENCE,
        longest: words.longest,
    };
    let mut port = Port::new(terminal, options);
    let is_known = words.echo != Echo::Find || port.find_echo().is_some();
    Ok((port, is_known))
}

/// Why the program stops over a port that isn't used.
fn unusable(why: TerminalNo) -> Stop {
    match why {
        TerminalNo::Unopened => Stop::NoPort,
        TerminalNo::NoTerminal => Stop::NoTerminal,
        TerminalNo::InUse => Stop::PortInUse,
        TerminalNo::Unset => Stop::Unset,
    }
}
