//! Which devices are doubtful, which are left alone, and where a poll goes on.

use cct_live_survey::Answered;
use cct_model::DeviceSet;

/// For how many polls a device is left alone, the one counted in which its job ended for want of an
/// answer.
const REST: u8 = 17;

/// What the last try at a device was.
#[derive(Clone, Copy)]
pub(crate) enum Tried {
    /// No exchange was made.
    Nothing,
    /// An exchange brought the whole reply.
    Answered,
    /// An exchange brought no whole reply.
    Failed,
}

/// How the devices of a line went in the last polls, by address.
///
/// A device is doubtful from a failed try to the next one that is answered. After a job there ended
/// for want of an answer it is left alone for sixteen polls.
#[derive(Drop)]
pub(crate) struct Rests {
    doubtful: DeviceSet,
    /// For how many polls more each address is left alone, this one counted.
    left: [u8; 256],
    /// The address at which the next poll begins.
    first: u8,
    /// The address of the doubtful device that had its turn last.
    turn: u8,
    /// In this poll a try wasn't answered.
    has_failed: bool,
    /// In this poll an acceptor took coins faster than it was read out.
    has_moved: bool,
    /// The identities are asked for before the doubtful devices in this poll.
    asks_first: bool,
    /// The device at this address didn't say who it is before a command was decided, so the next
    /// poll asks it first.
    asked: Option<u8>,
}

impl Rests {
    /// No device is doubtful, and none is left alone.
    pub(crate) fn new() -> Rests {
        Rests {
            doubtful: DeviceSet::new(),
            left: [0; 256],
            first: 0,
            turn: 0,
            has_failed: false,
            has_moved: false,
            asks_first: false,
            asked: None,
        }
    }

    /// A poll begins.
    pub(crate) fn begin_poll(&mut self) {
        for left in self.left.as_mut_slice() {
            *left = left.saturating_sub(1);
        }
        self.has_failed = false;
        self.has_moved = false;
        self.asks_first = !self.asks_first;
    }

    /// The address at which this poll begins.
    pub(crate) fn first(&self) -> u8 {
        self.first
    }

    /// The next poll begins after this address.
    pub(crate) fn begin_after(&mut self, addr: u8) {
        self.first = addr.wrapping_add(1);
    }

    /// Whether a try of this poll wasn't answered.
    pub(crate) fn has_failed(&self) -> bool {
        self.has_failed
    }

    /// Whether only devices that aren't doubtful are visited in this poll.
    pub(crate) fn is_spent(&self) -> bool {
        self.has_failed || self.has_moved
    }

    /// The address of the device that is asked first who it is, if it is one alone.
    pub(crate) fn next_asked(&self) -> Option<u8> {
        self.asked
    }

    /// Questions of this poll were answered, or the last of them wasn't.
    pub(crate) fn note_questions(&mut self, answered: Answered) {
        self.asked = None;
        match answered {
            Answered::All => {}
            Answered::Silent => self.has_failed = true,
        }
    }

    /// Questions to a device before a command were answered, or the last of them wasn't.
    pub(crate) fn note_asked(&mut self, addr: u8, answered: Answered) {
        match answered {
            Answered::All => {}
            Answered::Silent => self.asked = Some(addr),
        }
    }

    /// An acceptor took coins faster than it was read out.
    pub(crate) fn note_moved(&mut self) {
        self.has_moved = true;
    }

    /// Whether the identities are asked for before the doubtful devices in this poll.
    pub(crate) fn asks_first(&self) -> bool {
        self.asks_first
    }

    /// Whether the device at an address is neither doubtful nor left alone.
    pub(crate) fn is_sound(&self, addr: u8) -> bool {
        !self.doubtful.has(addr) && !self.is_left(addr)
    }

    /// Whether the device at an address is doubtful and isn't left alone.
    pub(crate) fn is_due(&self, addr: u8) -> bool {
        self.doubtful.has(addr) && !self.is_left(addr)
    }

    /// Whether the device at an address is left alone.
    fn is_left(&self, addr: u8) -> bool {
        self.left[usize::from(addr)] != 0
    }

    /// The address after that of the doubtful device that had its turn last.
    pub(crate) fn next_turn(&self) -> u8 {
        self.turn.wrapping_add(1)
    }

    /// The doubtful device at an address has its turn.
    pub(crate) fn take_turn(&mut self, addr: u8) {
        self.turn = addr;
    }

    /// A try at an address went so.
    pub(crate) fn note(&mut self, addr: u8, tried: Tried) {
        match tried {
            Tried::Nothing => {}
            Tried::Answered => self.doubtful.remove(addr),
            Tried::Failed => {
                self.doubtful.insert(addr);
                self.has_failed = true;
            }
        }
    }

    /// A job at an address ended for want of an answer.
    pub(crate) fn leave_alone(&mut self, addr: u8) {
        self.left[usize::from(addr)] = REST;
    }

    /// The device at an address is asked at once.
    pub(crate) fn wake(&mut self, addr: u8) {
        self.doubtful.remove(addr);
        self.left[usize::from(addr)] = 0;
    }
}
