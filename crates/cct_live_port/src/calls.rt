// The reads of an exchange: those before it is sent, and those after it.
ghost use Rattle.std.specs.Prelude.{◌≡◌, ◌<◌, ◌++◌, ℕ, List, [], Some, None, length, OnOk, OnErr};
ghost use Rattle.std.specs.Prelude.{IfOk, drop};
ghost use Rattle.cct_model_wire.specs.declared.wire.TheConstants.{MOST_HEARD};
ghost use Rattle.cct_live_port.specs.Calls.{Waits, Unquiet, Listens, Breaks, Sends, FailsToSend};
ghost use Rattle.cct_live_port.specs.Answer.{is_over};

use crate::Line;
use crate::answer::{is_complete, is_to_all};
use arrayvec::ArrayVec;
use cct_edge::Failed;
use cct_model_wire::MOST_HEARD;

/// Reads until so many reads in a row were silent, and drops what comes. So many are silent
/// already, which count up to the first byte that comes. It fails if a read fails, or if the line
/// isn't silent within so many reads and `MOST_HEARD` more.
fn wait<L: Line>(line: &mut L, already: u16, reads: u16) -> Result<(), Failed>
    ensures quiet { OnOk result (Waits L.reads L.writes already reads line.old line.new) }
    ensures unquiet { OnErr result (Unquiet L.reads L.writes already reads line.old line.new) }
{
    let mut room = [0; MOST_HEARD];
    let mut silent = already;
    for _ in 0..usize::from(reads) + MOST_HEARD {
        if silent >= reads {
            return Ok(());
        }
        if line.read(&mut room)? == 0 {
            silent += 1;
        } else {
            silent = 0;
        }
    }
    Err(Failed)
}

/// Writes a message once, after so many silent reads in a row, of which so many are made already.
pub(crate) fn send<L: Line>(
    line: &mut L,
    already: u16,
    wanted: u16,
    sent: &[u8],
) -> Result<(), Failed>
    ensures sends { OnOk result (Sends L.reads L.writes already wanted sent.now line.old line.new) }
    ensures fails { OnErr result (FailsToSend L.reads L.writes already wanted sent.now line.old
        line.new) }
{
    wait(line, already, wanted)?;
    line.write(sent)
}

/// Reads what comes after a message was sent: until a reply is there by its length, so many reads
/// in a row were silent, or there is no room for more; at most so many reads and `MOST_HEARD` more.
/// It answers how many of the last were silent.
pub(crate) fn listen<L: Line>(
    line: &mut L,
    reads: u16,
    sent: &[u8],
    heard: &mut ArrayVec<u8, MOST_HEARD>,
) -> Result<u16, Failed>
    ensures brings { IfOk result (λ silent. (bytes : List ℕ)
        × Listens L.reads L.writes reads sent.now heard.old.items line.old bytes silent line.new
        × (heard.new.items ≡ heard.old.items ++ bytes)) }
    ensures breaks { OnErr result (Breaks L.reads L.writes reads sent.now heard.old.items line.old
        line.new) }
{
    let mut silent = 0;
    for _ in 0..usize::from(reads) + MOST_HEARD {
        if silent == reads || is_over(sent, heard.as_slice()) {
            return Ok(silent);
        }
        if read_more(line, heard)? == 0 {
            silent += 1;
        } else {
            silent = 0;
        }
    }
    Ok(silent)
}

/// Whether nothing more is wanted: the reply to what was sent is whole by its length, or there is
/// no room.
fn is_over(sent: &[u8], heard: &[u8]) -> bool
    ensures { result ≡ is_over sent.now heard.now }
{
    heard.len() >= MOST_HEARD || (!is_to_all(sent) && is_complete(after(sent.len(), heard)))
}

/// The bytes from a place on, or none where they end before it.
fn after(place: usize, bytes: &[u8]) -> &[u8]
    ensures { result.now ≡ drop place bytes.now }
{
    bytes.get(place..).unwrap_or(&[])
}

/// One read, into the room that is left.
fn read_more<L: Line>(line: &mut L, heard: &mut ArrayVec<u8, MOST_HEARD>) -> Result<usize, Failed>
    requires { length heard.old.items < MOST_HEARD }
    ensures more { IfOk result (λ count. (bytes : List ℕ) × L.reads line.old (Some bytes) line.new
        × (heard.new.items ≡ heard.old.items ++ bytes) × (length bytes ≡ count)) }
    ensures failed { OnErr result (L.reads line.old None line.new
        × (heard.new.items ≡ heard.old.items)) }
{
    let mut room = [0; MOST_HEARD];
    let free = MOST_HEARD - heard.len();
    let count = line.read(&mut room[..free])?;
    heard.try_extend_from_slice(&room[..count]).unwrap();
    Ok(count)
}
