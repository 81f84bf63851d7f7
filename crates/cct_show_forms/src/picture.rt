//! The form `svg`: a sequence picture of all lines, or of a part; and its marks, with the page of
//! them, for the form `html`.

use crate::lines::{LineSink, read_lines};
use crate::log::{Half, Log, MOST_SAID, copy};
use crate::status::{Status, Stop};
use arrayvec::{ArrayString, ArrayVec};
use cct_edge::{Sink, Source};
use cct_model_lines::{Command, DeviceSet, End, Entry, MOST_TEXT};
use cct_show_captured::Note;
use cct_show_log::LogLine;
use cct_show_log_line::{LogBytes, Time, after_time};
use cct_show_marks::{
    PlaceWorth, Wire, exchange_mark, kind_told, mark_of, place_of, worth_in_exchange, worth_in_line,
};
use cct_show_page::Page;
use cct_show_pen::Label;
use cct_show_picture::{FaultAt, Happening, Mark, Picture, Place};
use cct_show_words::read_line;
use std::alloc::{AllocError, Global};
use std::fmt::Write;

/// More bytes than a note has.
const MOST_NOTE: usize = 200;

/// The most lines that stand between a request and its reply.
const MOST_NOTES: usize = 64;

/// The way of a route into the stacker.
const STACK: u8 = 1;

/// The lines that a picture is of, by the first and the last one, counted from 1.
#[derive(Clone, Copy)]
pub struct Part {
    pub from: u64,
    pub to: u64,
}

impl Part {
    /// All lines.
    pub(crate) const WHOLE: Part = Part {
        from: 1,
        to: u64::MAX,
    };
}

/// A request of a log whose reply may stand in a later line.
#[derive(Drop)]
struct Waiting {
    place: Place,
    /// Where its echo stands, or itself.
    last: Place,
    sent: LogBytes,
    is_echoed: bool,
    /// The lines so far that are no exchange.
    notes: Vec<LineNote>,
}

/// A line that is no exchange and no entry.
#[derive(Drop)]
struct LineNote {
    place: Place,
    line: Vec<u8>,
}

/// The marks of the lines so far, and the page of them where one is wanted.
#[derive(Drop)]
pub(crate) struct Marks {
    alloc: Global,
    pub(crate) picture: Picture,
    pub(crate) page: Option<Page>,
    part: Part,
    /// How many rows the picture has at most, and whether it has no more of them.
    most: usize,
    pub(crate) is_full: bool,
    /// How many lines there were.
    pub(crate) count: u64,
    /// The last line of the part, where a line equal to it has the same mark.
    last: Option<ArrayVec<u8, MOST_TEXT>>,
    log: Log,
    waiting: Option<Waiting>,
    /// The fault that the wire has in the next exchange.
    fault: FaultAt,
    /// The bill acceptors whose last route is into the stacker.
    stacking: DeviceSet,
    /// Whether the line that isn't at its end yet has its mark already.
    is_marked: bool,
}

/// Draws the lines of a part of a source, and writes the picture after the last one.
pub fn show_picture<S: Source, K: Sink>(
    alloc: Global,
    part: Part,
    source: &mut S,
    out: &mut K,
) -> Status {
    let mut marks = Marks::new(alloc, part, usize::MAX, None);
    Status::of(marks.write_picture(source, out)).or_empty(marks.count)
}

impl Marks {
    /// No mark yet.
    pub(crate) fn new(alloc: Global, part: Part, most: usize, page: Option<Page>) -> Marks {
        Marks {
            alloc,
            picture: Picture::new(alloc),
            page,
            part,
            most,
            is_full: false,
            count: 0,
            last: None,
            log: Log::new(),
            waiting: None,
            fault: FaultAt::Nowhere,
            stacking: DeviceSet::new(),
            is_marked: false,
        }
    }

    /// Reads all lines, and writes their picture.
    fn write_picture<S: Source, K: Sink>(
        &mut self,
        source: &mut S,
        out: &mut K,
    ) -> Result<(), Stop> {
        read_lines(source, self)?;
        self.finish()?;
        self.picture.write(out)?;
        Ok(())
    }

    /// After the last line takes what stays without an end.
    pub(crate) fn finish(&mut self) -> Result<(), Stop> {
        self.log.end();
        let is_of_part = self.is_of_part();
        self.take_said(Label::empty(), is_of_part)?;
        self.settle()?;
        Ok(())
    }

    /// Counts one more line, and says whether it is of the part.
    fn count_line(&mut self) -> bool {
        self.count = self.count.saturating_add(1);
        self.is_of_part()
    }

    /// Whether the line that was counted last is of the part.
    fn is_of_part(&self) -> bool {
        self.part.from <= self.count && self.count <= self.part.to
    }

    /// Whether the picture has room for another row.
    fn has_room(&mut self) -> bool {
        self.is_full |= self.picture.row_count() >= self.most;
        !self.is_full
    }

    /// The place of the line that was counted last.
    fn place(&self, tap: Option<u64>, time: Label) -> Place {
        Place {
            line: self.count,
            tap,
            time,
        }
    }

    /// Takes a line of a bus log.
    fn logged(&mut self, logged: &LogLine<'_>) -> Result<(), AllocError> {
        let time = self.time_label(&logged.time);
        let is_of_part = self.count_line();
        self.take_said(time, is_of_part)
    }

    /// Takes all that the last line of a bus log says.
    fn take_said(&mut self, time: Label, is_of_part: bool) -> Result<(), AllocError> {
        for _ in 0..MOST_SAID {
            if !self.log.next() {
                break;
            }
            if is_of_part {
                let tap = self.log.tap;
                let place = self.place(tap, time);
                self.said(place)?;
            }
        }
        Ok(())
    }

    /// Takes what the log said last, at this place.
    fn said(&mut self, place: Place) -> Result<(), AllocError> {
        match self.log.note {
            None | Some(Note::Late) => self.half(place),
            Some(Note::Part { .. }) => Ok(()),
            Some(note) => self.noted(place, note),
        }
    }

    /// Takes what is said of the log itself. A message that was cut off ends the wait for a reply
    /// to the one before it.
    fn noted(&mut self, place: Place, note: Note) -> Result<(), AllocError> {
        if let Note::Cut(_) = note {
            self.settle()?;
        }
        let mut words = ArrayString::<MOST_NOTE>::new();
        // There is room for any note.
        let _ = write!(words, "{note}");
        self.note(place, words.as_bytes())
    }

    /// Takes what the log said last of an exchange, at this place.
    fn half(&mut self, place: Place) -> Result<(), AllocError> {
        match self.log.half {
            Half::Both => {
                self.settle()?;
                self.heard(place, Some(place))
            }
            Half::Sent | Half::Echoed => {
                let is_echoed = self.log.half == Half::Echoed;
                self.settle()?;
                self.wait(place, is_echoed);
                Ok(())
            }
            Half::Echo => {
                if let Some(waiting) = &mut self.waiting {
                    waiting.last = place;
                    waiting.is_echoed = true;
                }
                Ok(())
            }
            Half::Heard => {
                let Some(waiting) = self.waiting.take() else {
                    return self.heard(place, None);
                };
                self.heard(place, Some(waiting.place))?;
                self.tell_notes(&waiting)
            }
        }
    }

    /// Keeps the request of the last line, whose echo that line may have, until its reply comes.
    fn wait(&mut self, place: Place, is_echoed: bool) {
        let mut sent = LogBytes::new();
        copy(&mut sent, self.log.sent.as_slice());
        self.waiting = Some(Waiting {
            place,
            last: place,
            sent,
            is_echoed,
            notes: Vec::new(self.alloc),
        });
    }

    /// Takes a line that is no exchange and no entry. While a request waits for its reply it is
    /// kept, to stand below them.
    fn note(&mut self, place: Place, line: &[u8]) -> Result<(), AllocError> {
        let Some(waiting) = &mut self.waiting else {
            return self.other(place, line, None);
        };
        if waiting.notes.len() >= MOST_NOTES {
            self.settle()?;
            return self.other(place, line, None);
        }
        let line = line.to_vec(self.alloc)?;
        waiting.notes.push(LineNote { place, line })?;
        Ok(())
    }

    /// Takes the lines that stood between a request and its reply.
    fn tell_notes(&mut self, waiting: &Waiting) -> Result<(), AllocError> {
        for note in &waiting.notes {
            self.other(note.place, note.line.as_slice(), None)?;
        }
        Ok(())
    }

    /// Takes the exchange that ends at a place, and whose request is at another, or nowhere.
    fn heard(&mut self, place: Place, request: Option<Place>) -> Result<(), AllocError> {
        let mut sent = LogBytes::new();
        copy(&mut sent, self.log.sent.as_slice());
        let mut heard = LogBytes::new();
        copy(&mut heard, self.log.heard.as_slice());
        let wire = Wire {
            sent: sent.as_slice(),
            heard: heard.as_slice(),
            has_sent: request.is_some(),
            has_heard: true,
        };
        let first = request.unwrap_or(place);
        self.exchange(first, place, None, &wire, FaultAt::Nowhere)
    }

    /// Takes the request that waits for its reply, if any does: it gets none.
    fn settle(&mut self) -> Result<(), AllocError> {
        let Some(waiting) = self.waiting.take() else {
            return Ok(());
        };
        let sent = waiting.sent.as_slice();
        let wire = Wire {
            sent,
            heard: if waiting.is_echoed { sent } else { b"" },
            has_sent: true,
            has_heard: waiting.is_echoed,
        };
        self.exchange(waiting.place, waiting.last, None, &wire, FaultAt::Nowhere)?;
        self.tell_notes(&waiting)
    }

    /// Takes an exchange from one place to another, of the job at an address, where that is
    /// reported.
    fn exchange(
        &mut self,
        first: Place,
        last: Place,
        job: Option<u8>,
        wire: &Wire<'_>,
        fault: FaultAt,
    ) -> Result<(), AllocError> {
        if let Some(worth) = worth_in_exchange(wire) {
            self.learn_worth(&worth)?;
        }
        if let Some(page) = &mut self.page {
            page.exchange(first, last, job, wire)?;
        }
        self.last = None;
        if self.has_room() {
            let mark = exchange_mark(self.alloc, wire, fault)?;
            self.picture.add(first, last.line, mark)?;
        }
        Ok(())
    }

    /// Learns what a place of an acceptor is worth.
    fn learn_worth(&mut self, worth: &PlaceWorth) -> Result<(), AllocError> {
        self.picture
            .learn_worth(worth.addr, worth.place, worth.amount)
    }

    /// Takes a line that is no exchange, without the time before it.
    fn other(
        &mut self,
        place: Place,
        line: &[u8],
        entry: Option<&Entry>,
    ) -> Result<(), AllocError> {
        if let Some(worth) = worth_in_line(line) {
            self.learn_worth(&worth)?;
        }
        if let Some(page) = &mut self.page {
            page.line(place, line, entry)?;
        }
        if !self.has_room() {
            return Ok(());
        }
        if self.is_equal(line) {
            self.picture.add_equal(place.line);
            return Ok(());
        }
        if let Some(entry) = entry {
            self.learn(place, entry)?;
        }
        self.picture.add(place, place.line, mark_of(line, entry))?;
        self.keep(line);
        Ok(())
    }

    /// Learns what an entry says of its device; and where a route ended adds what became of the
    /// bill.
    fn learn(&mut self, place: Place, entry: &Entry) -> Result<(), AllocError> {
        if let Some((addr, kind)) = kind_told(entry) {
            self.picture.learn(addr, kind);
        }
        match entry {
            Entry::Taken(Command::Route { addr, way: STACK }) => self.stacking.insert(*addr),
            Entry::Taken(Command::Route { addr, .. }) => self.stacking.remove(*addr),
            Entry::Ended {
                addr,
                end: End::Routed,
            } => {
                let what = if self.stacking.has(*addr) {
                    Happening::Stacked
                } else {
                    Happening::Returned
                };
                self.picture
                    .add(place, place.line, Mark::Happened { addr: *addr, what })?;
            }
            _ => {}
        }
        Ok(())
    }

    /// The words for the time of a line, if it has one: the time, and how long it is after the line
    /// before, where that has one too.
    fn time_label(&mut self, time: &Option<Time<'_>>) -> Label {
        let Some(time) = time else {
            return Label::empty();
        };
        let mut label = Label::new(time.text);
        if let Some(micros) = self.log.since(time) {
            let seconds = micros / 1_000_000;
            let millis = micros / 1000 % 1000;
            // A label takes any text.
            let _ = write!(label, " +{seconds}.{millis:03}");
        }
        label
    }

    /// The fault that this entry has, if it is an exchange, and is then over.
    fn fault_in(&mut self, entry: &Option<Entry>) -> FaultAt {
        let fault = self.fault;
        match entry {
            Some(Entry::Fault(next)) => self.fault = place_of(next),
            Some(Entry::Wire { .. }) => self.fault = FaultAt::Nowhere,
            _ => {}
        }
        fault
    }

    /// Whether a line is equal to the last one of the part.
    fn is_equal(&self, line: &[u8]) -> bool {
        match &self.last {
            Some(last) => last.as_slice() == line,
            None => false,
        }
    }

    /// Keeps a line as the last one.
    fn keep(&mut self, line: &[u8]) {
        let mut last = ArrayVec::new();
        self.last = match last.try_extend_from_slice(line) {
            Ok(()) => Some(last),
            Err(_) => None,
        };
    }
}

impl LineSink for Marks {
    fn line(&mut self, line: &[u8]) -> Result<(), Stop> {
        let line = line.strip_suffix(b"\r").unwrap_or(line);
        let (time, rest) = after_time(line);
        let entry = read_line(rest);
        if entry.is_none()
            && let Some(logged) = self.log.read(line)
        {
            self.logged(&logged)?;
            return Ok(());
        }
        let time = self.time_label(&time);
        let fault = self.fault_in(&entry);
        if !self.count_line() {
            return Ok(());
        }
        let place = self.place(None, time);
        let Some(entry) = entry else {
            if !rest.is_empty() {
                self.note(place, rest)?;
            }
            return Ok(());
        };
        self.settle()?;
        match &entry {
            Entry::Wire { addr, sent, heard } => {
                let wire = Wire {
                    sent: sent.as_slice(),
                    heard: heard.as_slice(),
                    has_sent: true,
                    has_heard: true,
                };
                self.exchange(place, place, Some(*addr), &wire, fault)?;
            }
            entry => self.other(place, rest, Some(entry))?,
        }
        Ok(())
    }

    fn part(&mut self, bytes: &[u8]) -> Result<(), Stop> {
        if self.is_marked || bytes.is_empty() {
            return Ok(());
        }
        self.is_marked = true;
        self.settle()?;
        if self.count_line() {
            let place = self.place(None, Label::empty());
            self.other(place, bytes, None)?;
            self.last = None;
        }
        Ok(())
    }

    fn end(&mut self) -> Result<(), Stop> {
        self.is_marked = false;
        Ok(())
    }
}
