//! A host, step by step, as a program in another language meets it.
ghost use Rattle.std.specs.Prelude.{◌≡◌, ◌⊎◌, ◌↔◌, ◌<◌, [], Err, IfOk, IsOk, None, length};
ghost use Rattle.std.specs.Prelude.{take, true};
ghost use Rattle.cct_host.specs.Host.{disk_of};
ghost use Rattle.cct_poll.specs.Starts.{RefusesStart, Starts};
ghost use Rattle.cct_poll.specs.Steps.{Tells};

use crate::codes::{
    BAD_COMMAND, BAD_PART, BAD_RECORD, NO_MEMORY, NO_ROOM, NOT_NOW, OK, SMALL_PART, TOO_LONG,
};
use crate::frames::put;
use crate::machine::Machine;
use cct_disk_queue::Call;
use cct_edge::{Failed, Sink};
use cct_model_lines::{MOST_HEARD, MOST_TEXT};
use cct_poll::{Ask, NotNow, Poll, PollNo};
use cct_script::{LiveLine, read_live_line};
use cct_text::{TextLine, write_entry};
use std::alloc::Global;

const IDLE: u8 = 0;

const SEND: u8 = 1;

const HEAR: u8 = 2;

const WRITE: u8 = 3;

const SYNC: u8 = 4;

const TAKE: u8 = 5;

const ENDED: u8 = 6;

/// What the program is to do.
#[repr(C)]
#[derive(Drop)]
pub struct LhAsk {
    /// Where the bytes of a write go on the part.
    pub at: u64,
    /// How many bytes there are of a message, of a write or of a line.
    pub count: usize,
    pub what: u8,
}

/// What the operator has, in units of value.
#[repr(C)]
#[derive(Drop)]
pub struct LhTotals {
    pub available: u64,
    pub reserved: u64,
    pub paid: u64,
    pub sold: u64,
}

/// A host, and the line of the entry that is reported.
#[derive(Drop)]
pub struct Hosted {
    poll: Poll<'static>,
    line: TextLine,
}

/// Takes bytes, and keeps none.
#[derive(Drop)]
struct Nowhere;

impl Sink for Nowhere {
    ghost written = { λ _. None };

    ghost faults = { λ _. 0 };

    ghost puts = { λ _ _ _ _. Unit {0} };

    fn put(&mut self, _piece: &[u8]) -> Result<(), Failed> {
        Ok(())
    }
}

impl Hosted {
    /// A host of a machine, over what its part holds; else what a call answers, with the index of a
    /// record that is bad.
    pub(crate) fn start(
        alloc: Global,
        machine: &'static Machine,
        part: &[u8],
        index: &mut u32,
    ) -> Result<Hosted, u32>
        ensures starts { IfOk result (λ hosted.
            Starts machine.now.setup part.now hosted.poll.host) }
        // Why none is started is in the bytes.
        ensures small { result ≡ Err SMALL_PART
            → RefusesStart machine.now.setup part.now PollNo.Small }
        ensures alien { result ≡ Err BAD_PART
            → RefusesStart machine.now.setup part.now PollNo.Alien }
        ensures bad { result ≡ Err BAD_RECORD → RefusesStart machine.now.setup part.now
            (PollNo.BadRecord index.new) }
    {
        let Ok(part) = part.to_vec(alloc) else {
            return Err(NO_MEMORY);
        };
        match Poll::start(&machine.setup, part) {
            Ok(poll) => Ok(Hosted {
                poll,
                line: TextLine::new(),
            }),
            Err(PollNo::Small) => Err(SMALL_PART),
            Err(PollNo::Alien) => Err(BAD_PART),
            Err(PollNo::BadRecord { index: bad }) => {
                *index = bad;
                Err(BAD_RECORD)
            }
        }
    }

    /// What the program is to do next at an address. A record that is due there is put: its calls
    /// are the next.
    pub(crate) fn ask(&mut self, address: u8, ask: &mut LhAsk, out: &mut [u8]) -> u32
        // Nothing is to be sent, and no line to be taken, while a call on the part is noted.
        ensures settled { result ≡ OK → (ask.new.what ≡ SEND) ⊎ (ask.new.what ≡ TAKE)
            → (disk_of self.new.poll.host).calls ≡ [] }
        // The message is the one that the host then heard a reply to.
        ensures sends { result ≡ OK → ask.new.what ≡ SEND → take ask.new.count out.new
            ≡ self.new.poll.piece.items }
        // It has ended only where it is over, and it isn't over by what it is asked.
        ensures ends { result ≡ OK → ask.new.what ≡ ENDED → self.new.poll.over ≡ true }
        ensures over { self.new.poll.over ≡ self.old.poll.over }
    {
        if out.len() < MOST_TEXT {
            return NO_ROOM;
        }
        ask.at = 0;
        ask.count = 0;
        match self.next(address) {
            Ask::Make => self.tell_call(ask, out),
            Ask::Take => self.tell_entry(ask, out),
            Ask::Send => {
                ask.what = SEND;
                put(self.poll.piece(), out, &mut ask.count)
            }
            Ask::Hear => tell(ask, HEAR),
            Ask::Put => tell(ask, IDLE),
            Ask::Idle => tell(ask, IDLE),
            Ask::Over => tell(ask, ENDED),
        }
    }

    /// What is next, once a record that is due is put.
    fn next(&mut self, address: u8) -> Ask
        ensures settled { Tells result → (disk_of self.new.poll.host).calls ≡ [] }
        ensures call { result ≡ Ask.Make
            → self.new.poll.made < length (disk_of self.new.poll.host).calls }
        ensures entry { result ≡ Ask.Take → self.new.poll.told < length self.new.poll.report.items }
        ensures ends { result ≡ Ask.Over → self.new.poll.over ≡ true }
        ensures over { self.new.poll.over ≡ self.old.poll.over }
    {
        match self.poll.ask(address) {
            Ask::Put => match self.poll.put(address) {
                Ok(()) => self.poll.ask(address),
                Err(NotNow) => unreachable!(),
            },
            what => what,
        }
    }

    /// The call that is to be made on the part.
    fn tell_call(&mut self, ask: &mut LhAsk, out: &mut [u8]) -> u32
        requires { self.old.poll.made < length (disk_of self.old.poll.host).calls }
        ensures call { (ask.new.what ≡ WRITE) ⊎ (ask.new.what ≡ SYNC) }
        ensures poll { self.new.poll ≡ self.old.poll }
    {
        match self.poll.call() {
            Some(Call::Write { at, bytes }) => {
                ask.what = WRITE;
                ask.at = at;
                put(bytes, out, &mut ask.count)
            }
            Some(Call::Sync) => tell(ask, SYNC),
            None => unreachable!(),
        }
    }

    /// The line of the entry that is to be taken, with its line feed.
    fn tell_entry(&mut self, ask: &mut LhAsk, out: &mut [u8]) -> u32
        requires { self.old.poll.told < length self.old.poll.report.items }
        ensures line { ask.new.what ≡ TAKE }
        ensures poll { self.new.poll ≡ self.old.poll }
    {
        match self.poll.entry() {
            Some(entry) => {
                ask.what = TAKE;
                let _told = write_entry(&mut Nowhere, &mut self.line, entry);
                put(self.line.as_slice(), out, &mut ask.count)
            }
            None => unreachable!(),
        }
    }

    /// The operator gives a command, as a line without its line feed.
    pub(crate) fn command(&mut self, line: &[u8]) -> u32
        ensures over { self.new.poll.over ≡ self.old.poll.over }
    {
        match read_live_line(line) {
            Ok(LiveLine::Command(command)) => code_of(self.poll.command(&command)),
            _ => BAD_COMMAND,
        }
    }

    /// This was heard after the message that was sent.
    pub(crate) fn heard(&mut self, bytes: &[u8]) -> u32
        // A reply is heard once, after a message that was sent.
        ensures once { result ≡ OK → self.new.poll.asked ≡ None }
        // Whatever is heard, the host isn't over by it.
        ensures over { self.new.poll.over ≡ self.old.poll.over }
    {
        if bytes.len() > MOST_HEARD {
            return TOO_LONG;
        }
        code_of(self.poll.heard(bytes))
    }

    /// The call on the part was made.
    pub(crate) fn done(&mut self) -> u32
        ensures over { self.new.poll.over ≡ self.old.poll.over }
    {
        code_of(self.poll.done())
    }

    /// A call on the part failed.
    pub(crate) fn lost(&mut self) -> u32 {
        self.poll.lost();
        OK
    }

    /// The entry was taken.
    pub(crate) fn taken(&mut self) -> u32
        ensures over { self.new.poll.over ≡ self.old.poll.over }
    {
        code_of(self.poll.taken())
    }

    /// What the operator has.
    pub(crate) fn totals(&mut self, told: &mut LhTotals) -> u32 {
        let totals = self.poll.totals();
        told.available = totals.available;
        told.reserved = totals.reserved;
        told.paid = totals.paid;
        told.sold = totals.sold;
        OK
    }
}

/// Something without bytes is to be done.
fn tell(ask: &mut LhAsk, what: u8) -> u32
    ensures { ask.new.what ≡ what }
{
    ask.what = what;
    OK
}

/// What a call answers to something that was due, or wasn't.
fn code_of(done: Result<(), NotNow>) -> u32
    ensures { (result ≡ OK) ↔ IsOk done }
{
    match done {
        Ok(()) => OK,
        Err(NotNow) => NOT_NOW,
    }
}
