//! A line to the devices of the bench, of which one reply comes late.
ghost use Rattle.std.specs.Prelude.{◌≤◌, ◌<◌, length};
ghost use Rattle.std.specs.Io.{ReadsAtMost};
ghost use Rattle.cct_model.specs.Setup.{IsSoundSetup};

use arrayvec::ArrayVec;
use cct_acceptor::Inserted;
use cct_bus::Bus;
use cct_edge::Failed;
use cct_live_port::Line;
use cct_model::{Happening, MOST_HEARD, MOST_SENT, Setup};
use cct_wire::Link;
use std::alloc::{AllocError, Global};
use std::cell::RefCell;

/// Bytes that come at a time.
#[derive(Drop)]
struct Part {
    due: u64,
    bytes: ArrayVec<u8, 64>,
}

/// Which reply is late, and by how much.
#[derive(Clone, Copy)]
pub(crate) struct Late {
    /// The number of its exchange; the first is 0.
    pub(crate) exchange: u64,
    /// How many silent reads later than another reply it comes.
    pub(crate) by: u16,
}

/// Devices that answer each message once. A reply comes one silent read after its message, but for
/// the one that is late. Time is counted in silent reads.
#[derive(Drop)]
pub(crate) struct Wire<'s> {
    bus: Bus<'s>,
    late: Option<Late>,
    /// Whether what is sent is heard too.
    echoes: bool,
    /// What comes, in the order in which it does.
    parts: Vec<Part>,
    time: u64,
    /// How many messages were sent.
    sent: u64,
    /// The last message, and what the devices answer it.
    answered: ArrayVec<u8, MOST_HEARD>,
    /// The message whose reply is late, once it was sent and answered; and whether the next one to
    /// its device was the same.
    late_message: Option<ArrayVec<u8, 64>>,
    is_again: Option<bool>,
}

impl<'s> Wire<'s> {
    /// The devices of a setup as after power-up, and nothing on the line.
    pub(crate) fn new(
        alloc: Global,
        setup: &'s Setup,
        late: Option<Late>,
        echoes: bool,
    ) -> Result<Wire<'s>, AllocError>
        requires { IsSoundSetup setup.now }
    {
        Ok(Wire {
            bus: Bus::new(alloc, setup)?,
            late,
            echoes,
            parts: Vec::new(alloc),
            time: 0,
            sent: 0,
            answered: ArrayVec::new(),
            late_message: None,
            is_again: None,
        })
    }

    /// A coin of place 1 falls into the acceptor at an address. Whether it is accepted.
    pub(crate) fn coin(&mut self, addr: u8) -> bool {
        if self.bus.knows(addr, Happening::Coin { place: 1 }) {
            matches!(self.bus.coin(addr, 1), Inserted::Accepted(_))
        } else {
            false
        }
    }

    /// A coin falls out of the hopper at an address, if that is paying. Whether it does.
    pub(crate) fn fall(&mut self, addr: u8) -> bool {
        self.bus.knows(addr, Happening::Fall) && self.bus.fall(addr)
    }

    /// The last message, and what the devices answer it.
    pub(crate) fn answered(&self) -> &[u8] {
        self.answered.as_slice()
    }

    /// How many messages were sent.
    pub(crate) fn sent(&self) -> u64 {
        self.sent
    }

    /// The header of the message whose reply is late, once it was sent and answered.
    pub(crate) fn late_header(&self) -> Option<u8> {
        match &self.late_message {
            Some(message) => message.as_slice().get(3).copied(),
            None => None,
        }
    }

    /// Whether that message was the next one to its device, too.
    pub(crate) fn is_again(&self) -> bool {
        self.is_again == Some(true)
    }

    /// The part that comes next is read, or there is silence.
    fn read(&mut self, room: &mut [u8]) -> Result<usize, Failed>
        requires { 0 < length room.old }
        ensures bound { ReadsAtMost result room.new }
    {
        let is_there = match self.parts.first() {
            Some(part) => part.due <= self.time,
            None => false,
        };
        if !is_there {
            self.time = self.time.saturating_add(1);
            return Ok(0);
        }
        let part = self.parts.remove(0);
        let bytes = part.bytes.as_slice();
        let count = bytes.len().min(room.len());
        room[..count].copy_from_slice(&bytes[..count]);
        Ok(count)
    }

    /// The devices hear a message, and what they answer comes later.
    fn write(&mut self, bytes: &[u8]) -> Result<(), Failed> {
        if bytes.len() > MOST_SENT {
            return Err(Failed);
        }
        if self.echoes {
            self.put(self.time, bytes)?;
        }
        self.look_for_another_try(bytes);
        let mut heard = ArrayVec::new();
        self.bus.exchange(bytes, &mut heard);
        if bytes.len() < heard.len() {
            let due = self.due(bytes)?;
            let answer = heard.as_slice().get(bytes.len()..).unwrap_or(&[]);
            self.put(due, answer)?;
        }
        self.answered = heard;
        self.sent = self.sent.saturating_add(1);
        Ok(())
    }

    /// Whether this is the late message once more, if it is the first one to its device after it.
    fn look_for_another_try(&mut self, bytes: &[u8]) {
        if let Some(message) = &self.late_message {
            let message = message.as_slice();
            if self.is_again.is_none() && message.first() == bytes.first() {
                self.is_again = Some(message == bytes);
            }
        }
    }

    /// When the reply to a message comes that is sent now.
    fn due(&mut self, bytes: &[u8]) -> Result<u64, Failed> {
        let due = self.time.saturating_add(1);
        match self.late {
            Some(late) if late.exchange == self.sent => {
                self.late_message = Some(part_of(bytes)?);
                Ok(due.saturating_add(u64::from(late.by)))
            }
            _ => Ok(due),
        }
    }

    /// Bytes come at a time, after those that come at the same time and were put before.
    fn put(&mut self, due: u64, bytes: &[u8]) -> Result<(), Failed> {
        let part = Part {
            due,
            bytes: part_of(bytes)?,
        };
        let place = place_of(self.parts.as_slice(), due);
        match self.parts.insert(place, part) {
            Ok(()) => Ok(()),
            Err(_) => Err(Failed),
        }
    }
}

/// Bytes as a part of what comes. It fails if they are too many.
fn part_of(bytes: &[u8]) -> Result<ArrayVec<u8, 64>, Failed> {
    let mut part = ArrayVec::new();
    match part.try_extend_from_slice(bytes) {
        Ok(()) => Ok(part),
        Err(_) => Err(Failed),
    }
}

/// How many parts come up to a time.
fn place_of(parts: &[Part], due: u64) -> usize
    ensures { result ≤ length parts.now }
{
    parts
        .iter()
        .position(|part| due < part.due)
        .unwrap_or(parts.len())
}

/// The host's end of a wire.
#[derive(Drop)]
pub(crate) struct HostEnd<'w, 's> {
    pub(crate) wire: &'w RefCell<Wire<'s>>,
}

impl Line for HostEnd<'_, '_> {
    // The tests look at the wire.
    ghost reads = { λ _ _ _. Unit {0} };

    ghost writes = { λ _ _ _ _. Unit {0} };

    fn read(&mut self, room: &mut [u8]) -> Result<usize, Failed> {
        match self.wire.try_borrow_mut() {
            Ok(mut wire) => wire.read(room),
            Err(_) => Err(Failed),
        }
    }

    fn write(&mut self, bytes: &[u8]) -> Result<(), Failed> {
        match self.wire.try_borrow_mut() {
            Ok(mut wire) => wire.write(bytes),
            Err(_) => Err(Failed),
        }
    }
}
