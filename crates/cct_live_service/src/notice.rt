//! Lines that are no entry of a transcript.
ghost use Rattle.std.specs.Prelude.{◌≡◌, ◌<◌, ◌++◌, ◌∷◌, [], length, IsErr};
ghost use Rattle.cct_edge.specs.Bytes.{Serves};
ghost use Rattle.cct_text.specs.Writing.{PutsLine};
ghost use Rattle.cct_live_service.specs.Notice.{notice_line, notice_text};

use crate::fields::{
    write_epoch, write_job, write_number, write_open_order, write_order_told, write_withheld,
};
use cct_edge::{Failed, Sink};
use cct_live_order::OrderTold;
use cct_live_survey::Withheld;
use cct_model::{Command, EpochState, MOST_TEXT, OpenOrder};
use cct_text::TextLine;

/// What a host on a real line writes beside the entries of its transcript and what its devices say
/// of themselves: a line each.
#[derive(Clone, Copy, PartialEq, Eq)]
pub enum Notice {
    /// `made 0 0 0`: the disk was blank, and a journal without records was made on it.
    Made,
    /// `found RECORDS ORDERS EPOCHS`: the journal was there. It has so many records, so many orders
    /// are open by them, and so many epochs run.
    Found {
        records: u32,
        orders: u32,
        epochs: u32,
    },
    /// `device ADDRESS JOB EPOCH ORDER`: the word of the command whose job is at the device; the
    /// inhibit mask of its running epoch, in hexadecimal; the id of its open order. Each is `-`
    /// where there is none.
    Device {
        addr: u8,
        job: Option<Command>,
        epoch: EpochState,
        order: Option<OpenOrder>,
    },
    /// `held ADDRESS PLACE`: the bill acceptor there holds a bill of this place, by the newest
    /// event of its last reading.
    Held {
        addr: u8,
        place: u8,
    },
    /// `last ID`: the greatest id that was used in this journal, or 0.
    Last {
        id: u32,
    },
    /// `room RECORDS`: so many records more than are put and held find room in the journal.
    Room {
        records: u32,
    },
    /// `order ID ..`: what is known of an order.
    Order {
        id: u32,
        told: OrderTold,
    },
    /// `no pay ADDRESS ID COUNT otherserial` or `no start ADDRESS MASK othercoin`: this command
    /// wasn't given to the host, since the device that answers there has another serial number than
    /// the setup names, or another coin at a place of the mask.
    Withheld {
        command: Command,
        why: Withheld,
    },
    /// `state unread`: the journal couldn't be read beside the host.
    StateUnread,
    /// `linefault`: an exchange failed, and not for want of an answer. It is reported again only
    /// after one that went through.
    LineFault,
    /// `lineback`: the first exchange after a `linefault` went through.
    LineBack,
}

/// Writes the line of a notice by one put.
pub(crate) fn tell<K: Sink>(out: &mut K, line: &mut TextLine, notice: &Notice) -> Result<(), Failed>
    ensures puts { PutsLine K.written K.puts out.old (notice_line notice.now) result out.new }
    ensures serves { Serves K.written K.faults out.old out.new (IsErr result) }
{
    line.clear();
    write_notice(line, notice);
    line.push(b"\n");
    out.put(line.as_slice())
}

/// Writes what a notice says, without a line feed.
#[tactic(auto, unfolding(crate::specs::Notice::notice_text))]
fn write_notice(line: &mut TextLine, notice: &Notice)
    requires { line.old ≡ [] }
    ensures text { line.new ≡ notice_text notice.now }
    ensures room { length line.new < MOST_TEXT }
{
    match notice {
        Notice::Made => line.push(b"made 0 0 0"),
        Notice::Found {
            records,
            orders,
            epochs,
        } => {
            line.push(b"found");
            write_number(line, *records);
            write_number(line, *orders);
            write_number(line, *epochs);
        }
        Notice::Device {
            addr,
            job,
            epoch,
            order,
        } => {
            line.push(b"device");
            write_number(line, u32::from(*addr));
            write_job(line, job);
            write_epoch(line, *epoch);
            write_open_order(line, *order);
        }
        Notice::Held { addr, place } => {
            line.push(b"held");
            write_number(line, u32::from(*addr));
            write_number(line, u32::from(*place));
        }
        Notice::Last { id } => {
            line.push(b"last");
            write_number(line, *id);
        }
        Notice::Room { records } => {
            line.push(b"room");
            write_number(line, *records);
        }
        Notice::Order { id, told } => {
            line.push(b"order");
            write_number(line, *id);
            write_order_told(line, told);
        }
        Notice::Withheld { command, why } => {
            line.push(b"no");
            write_withheld(line, command, why);
        }
        Notice::StateUnread => line.push(b"state unread"),
        Notice::LineFault => line.push(b"linefault"),
        Notice::LineBack => line.push(b"lineback"),
    }
}
