//! What is wrong on the wire in an exchange.
ghost use Rattle.std.specs.Prelude.{◌≡◌, ◌+◌, ◌≤◌, List, ℕ, ◌++◌, length, take};
ghost use Rattle.cct_model.specs.Transcript.{heard_by_devices, heard_by_host};

use arrayvec::ArrayVec;
use cct_model::{MOST_HEARD, MOST_SENT, WireFault};

/// What the devices hear under a fault where the host sends a piece.
pub(crate) fn heard_by_devices<'a>(fault: &'a WireFault, sent: &'a [u8]) -> &'a [u8]
    ensures { result.now ≡ heard_by_devices fault.entry.now sent.entry.now }
{
    match fault {
        WireFault::DevicesHear(piece) => piece.as_slice(),
        WireFault::Clear => sent,
        WireFault::HostHears(_) => sent,
        WireFault::WholeHeard(_) => sent,
    }
}

/// Makes of its echo and the answers after it what the host hears under a fault.
pub(crate) fn heard_by_host(fault: &WireFault, sent: &[u8], heard: &mut ArrayVec<u8, MOST_HEARD>)
    requires sent { length sent.now ≤ MOST_SENT }
    requires short { (piece : List ℕ) → fault.now ≡ WireFault.HostHears piece → length piece
        ≤ MOST_SENT }
    ensures { (answered : List ℕ) → heard.old.items ≡ sent.now ++ answered
        → heard.new.items ≡ heard_by_host fault.now sent.now answered }
{
    match fault {
        WireFault::Clear => {}
        WireFault::DevicesHear(_) => {}
        WireFault::HostHears(piece) => put_from(sent.len(), piece.as_slice(), heard),
        WireFault::WholeHeard(piece) => put_from(0, piece.as_slice(), heard),
    }
}

/// An exchange uses up the fault that is set. Mostly none is, and then nothing is written: a fault
/// has room for a piece.
pub(crate) fn use_up(fault: &mut WireFault)
    ensures { fault.new ≡ WireFault.Clear }
{
    match fault {
        WireFault::Clear => {}
        _ => *fault = WireFault::Clear,
    }
}

/// Puts a piece in the place of what stands from an index on.
fn put_from(index: usize, piece: &[u8], heard: &mut ArrayVec<u8, MOST_HEARD>)
    requires { index + length piece.now ≤ MOST_HEARD }
    ensures { heard.new.items ≡ take index heard.old.items ++ piece.now }
{
    heard.truncate(index);
    heard.try_extend_from_slice(piece).unwrap();
}
