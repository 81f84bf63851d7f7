//! How a host stands, written in notices.
ghost use Rattle.std.specs.Prelude.{◌≡◌, ◌∷◌, ℕ, [], IsErr};
ghost use Rattle.cct_edge.specs.Bytes.{Serves};
ghost use Rattle.cct_host.specs.Host.{setup_of};
ghost use Rattle.cct_host.specs.Starting.{BeginsAs};
ghost use Rattle.cct_model.specs.Following.{Known};
ghost use Rattle.cct_live_service.specs.Opening.{IsOpening, TellsOpening, epochs_known, is_running};
ghost use Rattle.cct_live_service.specs.Opening.{orders_known};
ghost use Rattle.cct_live_service.specs.Reported.{TellsDevice, TellsStatus};
ghost use Rattle.cct_live_service.specs.Told as lines;
ghost use Rattle.cct_live_service.specs.Told.{WritesTold};

use crate::notice::{Notice, tell};
use crate::page::Page;
use cct_disk::Disk;
use cct_edge::{Failed, Sink};
use cct_host::Host;
use cct_model::EpochState;
use cct_text::TextLine;

/// Says what a host that has just started found.
pub(crate) fn tell_found<K: Sink, D: Disk>(
    host: &Host<'_, D>,
    was_there: bool,
    out: &mut K,
    line: &mut TextLine,
) -> Result<(), Failed>
    ensures tells { TellsOpening K.written K.puts host.now was_there out.old result out.new }
    ensures serves { Serves K.written K.faults out.old out.new (IsErr result) }
{
    tell(out, line, &opening_notice(host, was_there))
}

/// What a host that has just started found.
fn opening_notice<D: Disk>(host: &Host<'_, D>, was_there: bool) -> Notice
    ensures { IsOpening host.now was_there result }
{
    if was_there {
        Notice::Found {
            records: host.records(),
            orders: open_orders(host),
            epochs: running_epochs(host),
        }
    } else {
        Notice::Made
    }
}

/// How many orders are open.
fn open_orders<D: Disk>(host: &Host<'_, D>) -> u32
    ensures { (k : Known) (last : ℕ) → BeginsAs host.now k last → result
        ≡ orders_known k (setup_of host.now).devices }
{
    let mut count = 0;
    for device in host.setup().devices.as_slice() {
        if host.order_at(device.addr).is_some() {
            count += 1;
        }
    }
    count
}

/// How many epochs run.
fn running_epochs<D: Disk>(host: &Host<'_, D>) -> u32
    ensures { (k : Known) (last : ℕ) → BeginsAs host.now k last → result
        ≡ epochs_known k (setup_of host.now).devices }
{
    let mut count = 0;
    for device in host.setup().devices.as_slice() {
        if runs(host.epoch_at(device.addr)) {
            count += 1;
        }
    }
    count
}

/// Whether an epoch runs.
pub(crate) fn runs(epoch: EpochState) -> bool
    ensures { result ≡ is_running epoch }
{
    match epoch {
        EpochState::Idle => false,
        EpochState::Running { .. } => true,
    }
}

/// Says how each device stands, in the order of the setup, then the last id, and then how much room
/// the journal has.
pub(crate) fn tell_status<K: Sink, D: Disk>(
    host: &Host<'_, D>,
    out: &mut K,
    page: &mut Page,
) -> Result<(), Failed>
    ensures tells { TellsStatus K.written K.puts host.now page.old.watch out.old result out.new }
    ensures watch { page.new.watch ≡ page.old.watch }
    ensures serves { Serves K.written K.faults out.old out.new (IsErr result) }
{
    for device in host.setup().devices.as_slice() {
        match tell_device(host, device.addr, out, page) {
            Ok(()) => {}
            Err(failed) => return Err(failed),
        }
    }
    let last = Notice::Last { id: host.last_id() };
    let room = Notice::Room {
        records: host.room(),
    };
    tell_two(&last, &room, out, &mut page.line)
}

/// Says how the device at an address stands, and the bill that it holds.
fn tell_device<K: Sink, D: Disk>(
    host: &Host<'_, D>,
    addr: u8,
    out: &mut K,
    page: &mut Page,
) -> Result<(), Failed>
    ensures tells { TellsDevice K.written K.puts host.now page.old.watch addr out.old result out.new }
    ensures watch { page.new.watch ≡ page.old.watch }
    ensures serves { Serves K.written K.faults out.old out.new (IsErr result) }
{
    let stands = Notice::Device {
        addr,
        job: host.command_at(addr),
        epoch: host.epoch_at(addr),
        order: host.order_at(addr),
    };
    match page.held_at(addr) {
        Some(place) => tell_two(&stands, &Notice::Held { addr, place }, out, &mut page.line),
        None => tell_one(&stands, out, &mut page.line),
    }
}

/// Writes one notice.
fn tell_one<K: Sink>(notice: &Notice, out: &mut K, line: &mut TextLine) -> Result<(), Failed>
    ensures tells { WritesTold K.written K.puts out.old (lines.notice notice.now ∷ []) result
        out.new }
    ensures serves { Serves K.written K.faults out.old out.new (IsErr result) }
{
    tell(out, line, notice)
}

/// Writes two notices.
fn tell_two<K: Sink>(
    first: &Notice,
    second: &Notice,
    out: &mut K,
    line: &mut TextLine,
) -> Result<(), Failed>
    ensures tells { WritesTold K.written K.puts out.old
        (lines.notice first.now ∷ lines.notice second.now ∷ []) result out.new }
    ensures serves { Serves K.written K.faults out.old out.new (IsErr result) }
{
    match tell_one(first, out, line) {
        Ok(()) => tell_one(second, out, line),
        Err(failed) => Err(failed),
    }
}
