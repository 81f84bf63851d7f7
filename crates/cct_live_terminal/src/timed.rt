// Reads of a terminal, and whether they waited.
ghost use Rattle.std.specs.Io.{ReadsAtMost};

use std::fs::File;
use std::io;
use std::io::Read;
use std::time::{Duration, Instant};

/// A read that finds nothing waits for a tenth of a second, as `stty min 0 time 1` sets it. One
/// that comes back in fewer milliseconds didn't wait.
const LEAST_WAIT: u64 = 50;

/// Where so many reads in a row found nothing and didn't wait, the terminal doesn't wait. A single
/// one may come back too early: a machine that stood still for a moment, as a virtual one does,
/// counts that time in.
const MOST_EARLY: u32 = 10;

/// Reads, again where a read came back too early with nothing, and says whether the last one took
/// the time of a silent read. Where the clock can't be read, it did.
pub(crate) fn read_timed(
    rt: &HostRuntime,
    port: &mut File,
    room: &mut [u8],
) -> (io::Result<usize>, bool)
    ensures bound { ReadsAtMost result.0 room.new }
{
    for _ in 0..MOST_EARLY {
        match read_once(rt, port, room) {
            (Ok(0), false) => {}
            came => return came,
        }
    }
    (Ok(0), false)
}

/// Reads once, and says whether it took the time of a silent read.
fn read_once(rt: &HostRuntime, port: &mut File, room: &mut [u8]) -> (io::Result<usize>, bool)
    ensures bound { ReadsAtMost result.0 room.new }
{
    let begun = Instant::now(rt);
    let came = port.read(room);
    (came, has_waited(rt, begun))
}

/// Whether the time of a silent read has gone by since then.
fn has_waited(rt: &HostRuntime, begun: io::Result<Instant>) -> bool {
    match begun {
        Ok(begun) => match begun.elapsed(rt) {
            Ok(spent) => spent >= Duration::from_millis(LEAST_WAIT),
            Err(_) => true,
        },
        Err(_) => true,
    }
}
