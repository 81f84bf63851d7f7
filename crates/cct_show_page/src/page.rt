//! A page, from its exchanges and its other lines.

use crate::device::Devices;
use crate::entry::{addr_of_command, addr_of_entry, is_record, tone_of_entry, tone_of_note};
use crate::form::PageForm;
use crate::frame::write_page;
use crate::job::{Ending, Job};
use crate::known::{Known, is_poll};
use crate::row::{Body, Poll, Row, Talk, Tone};
use crate::words::{answer_words, asked_words, told_words};
use cct_edge::{Failed, Sink};
use cct_model_lines::{Command, Entry, Record, Totals};
use cct_show_marks::{Wire, heard_in, kind_told, lane_of, quiet_said};
use cct_show_picture::{Heard, Label, LaneKind, MOST_ROWS, Picture, Place};
use cct_show_words::{Asked, Exchange};
use std::alloc::{AllocError, Global};

/// What is written in place of an answer where nothing was heard.
const NO_REPLY: &[u8] = b"no reply before the next request";

/// The exchanges and lines of a run or a log, with what is shown of them together. Its memory grows
/// with its rows.
#[derive(Drop)]
pub struct Page {
    alloc: Global,
    pub(crate) rows: Vec<Row>,
    pub(crate) jobs: Vec<Job>,
    pub(crate) devices: Devices,
    /// By its address the job that is there.
    running: [Option<usize>; 256],
    /// The row of a fault that the next exchange will have.
    fault: Option<usize>,
    known: Known,
    /// The last sums that the host reported.
    pub(crate) balance: Option<Totals>,
    /// The number of the last line, and what the lines have.
    pub(crate) lines: u64,
    pub(crate) has_taps: bool,
    /// Rows for which there was no room.
    pub(crate) left_out: u64,
}

impl Page {
    /// A page without a row.
    pub fn new(alloc: Global) -> Page {
        Page {
            alloc,
            rows: Vec::new(alloc),
            jobs: Vec::new(alloc),
            devices: Devices::new(),
            running: [None; 256],
            fault: None,
            known: Known::new(alloc),
            balance: None,
            lines: 0,
            has_taps: false,
            left_out: 0,
        }
    }

    /// Adds an exchange, which begins and ends at these places, and is of the job at an address,
    /// where the line names one. The error comes where there is no memory for it.
    pub fn exchange(
        &mut self,
        place: Place,
        last: Place,
        job: Option<u8>,
        wire: &Wire<'_>,
    ) -> Result<(), AllocError> {
        let exchange = Exchange::new(wire.sent, wire.heard);
        let (addr, kind) = lane_of(&exchange, wire.sent);
        let tone = tone_of_exchange(&exchange, wire, addr == 0 || job == Some(0));
        self.devices.learn(addr, kind);
        self.devices.exchange(addr, tone == Tone::Red);
        let index = self.job_at(job);
        self.place_fault(index);
        let poll = self.poll_in(addr, &exchange, wire)?;
        if index.is_none()
            && let Some(poll) = &poll
            && self.add_poll(&last, tone, poll)?
        {
            return Ok(());
        }
        let mut row = self.row_of(
            place,
            Some(addr),
            tone,
            Body::Talk(self.talk(&exchange, wire)?),
        );
        row.job = index;
        row.last = last.tap.unwrap_or(last.line);
        row.until = last.time;
        if let Some(poll) = poll {
            row.polls.push(poll)?;
        }
        self.lines = last.line;
        self.push(row)
    }

    /// Adds a line that is no exchange, without its line feed: this entry, where it is one. The
    /// error comes where there is no memory for it.
    pub fn line(
        &mut self,
        place: Place,
        line: &[u8],
        entry: Option<&Entry>,
    ) -> Result<(), AllocError> {
        match entry {
            Some(Entry::Taken(command)) if !matches!(command, Command::Halt { .. }) => {
                self.begin_job(place, line, addr_of_command(command))
            }
            Some(entry) => self.entry(place, line, entry),
            None => self.note(place, line),
        }
    }

    /// Writes the page in a form. The full one has this picture folded into it: of the first lines,
    /// where it isn't of all.
    pub fn write<K: Sink>(
        &self,
        form: PageForm,
        picture: &Picture,
        is_part: bool,
        out: &mut K,
    ) -> Result<(), Failed> {
        write_page(self, form, picture, is_part, out)
    }

    /// The job at an address, where one is given.
    fn job_at(&self, addr: Option<u8>) -> Option<usize> {
        self.running[usize::from(addr?)]
    }

    /// Puts the fault that the exchange of a job has into the fold of that job, where it is after
    /// its command.
    fn place_fault(&mut self, index: Option<usize>) {
        if let Some(place) = self.fault.take()
            && let Some(index) = index
            && let Some(job) = self.jobs.get(index)
            && job.first < place
            && let Some(row) = self.rows.get_mut(place)
        {
            row.job = Some(index);
            row.addr = Some(job.addr);
        }
    }

    /// What was sent and heard, as a row has it.
    fn talk(&self, exchange: &Exchange<'_>, wire: &Wire<'_>) -> Result<Talk, AllocError> {
        let asked = if wire.has_sent {
            asked_words(self.alloc, &exchange.asked)?
        } else {
            Vec::new(self.alloc)
        };
        let answer = if wire.has_heard {
            answer_words(self.alloc, &exchange.answer)?
        } else {
            NO_REPLY.to_vec(self.alloc)?
        };
        let sent = if wire.has_sent { wire.sent } else { b"" };
        let heard = wire.heard.strip_prefix(wire.sent).unwrap_or(wire.heard);
        Ok(Talk {
            sent: sent.to_vec(self.alloc)?,
            heard: heard.to_vec(self.alloc)?,
            asked,
            answer,
        })
    }

    /// The poll that an exchange is, where it says just what it said before.
    fn poll_in(
        &mut self,
        addr: u8,
        exchange: &Exchange<'_>,
        wire: &Wire<'_>,
    ) -> Result<Option<Poll>, AllocError> {
        let header = match exchange.asked {
            Asked::Request { header, .. } => header,
            Asked::Message { view, .. } => view.header,
            Asked::Nothing | Asked::Broken(_) => return Ok(None),
        };
        if !wire.has_sent || !is_poll(header) {
            return Ok(None);
        }
        if !self.known.is_again(self.alloc, wire.sent, wire.heard)? {
            return Ok(None);
        }
        Ok(Some(Poll {
            addr,
            header,
            times: 1,
        }))
    }

    /// Adds a poll that says nothing new to the last row, where that has such ones and is to be
    /// looked at just so.
    fn add_poll(&mut self, last: &Place, tone: Tone, poll: &Poll) -> Result<bool, AllocError> {
        let Some(row) = self.rows.last_mut() else {
            return Ok(false);
        };
        if row.polls.is_empty() || row.job.is_some() || row.tone != tone || self.left_out > 0 {
            return Ok(false);
        }
        row.last = last.tap.unwrap_or(last.line);
        row.until = last.time;
        self.lines = last.line;
        for other in row.polls.iter_mut() {
            if other.addr == poll.addr && other.header == poll.header {
                other.times = other.times.saturating_add(1);
                return Ok(true);
            }
        }
        row.polls.push(Poll {
            addr: poll.addr,
            header: poll.header,
            times: 1,
        })?;
        Ok(true)
    }

    /// A row of one line.
    fn row_of(&self, place: Place, addr: Option<u8>, tone: Tone, body: Body) -> Row {
        Row {
            place,
            last: place.tap.unwrap_or(place.line),
            until: Label::empty(),
            addr,
            tone,
            is_record: false,
            job: None,
            polls: Vec::new(self.alloc),
            body,
        }
    }

    /// Adds a row, and shows its job, where it has one.
    fn push(&mut self, row: Row) -> Result<(), AllocError> {
        if self.rows.len() >= MOST_ROWS {
            self.left_out = self.left_out.saturating_add(1);
            return Ok(());
        }
        self.has_taps |= row.place.tap.is_some();
        if let Some(index) = row.job {
            let place = self.rows.len();
            if let Some(job) = self.jobs.get_mut(index) {
                job.last = place;
                job.until = row.place.line;
                job.reds = job.reds.saturating_add(u64::from(row.tone == Tone::Red));
            }
        }
        self.rows.push(row)?;
        Ok(())
    }

    /// Begins the job at an address with the line of its command.
    fn begin_job(&mut self, place: Place, line: &[u8], addr: u8) -> Result<(), AllocError> {
        self.lines = place.line;
        self.devices.begin_job(addr);
        let index = self.jobs.len();
        let first = self.rows.len();
        let row = self.row_of(place, Some(addr), Tone::Plain, Body::Job(index));
        self.push(row)?;
        self.jobs.push(Job {
            command: line
                .strip_prefix(b"ok ")
                .unwrap_or(line)
                .to_vec(self.alloc)?,
            place,
            first,
            last: first,
            addr,
            ending: Ending::Open,
            reds: 0,
            posted: 0,
            lost: 0,
            closed: None,
            times: 1,
            until: place.line,
        })?;
        self.running[usize::from(addr)] = Some(index);
        Ok(())
    }

    /// Adds the line of an entry.
    fn entry(&mut self, place: Place, line: &[u8], entry: &Entry) -> Result<(), AllocError> {
        let addr = addr_of_entry(&self.devices, entry);
        if let Some(addr) = addr {
            self.devices.learn(addr, kind_of(addr, entry));
        }
        let told = told_words(self.alloc, entry)?;
        let mut row = self.row_of(
            place,
            addr,
            tone_of_entry(entry),
            Body::Line {
                line: line.to_vec(self.alloc)?,
                told,
            },
        );
        row.is_record = is_record(entry);
        row.job = self.job_at(addr);
        if let Entry::Fault(_) = entry {
            self.fault = Some(self.rows.len());
        }
        let index = row.job;
        self.lines = place.line;
        self.push(row)?;
        self.take(addr, index, line, entry);
        Ok(())
    }

    /// Takes what the entry of the last row says of its device and its job.
    fn take(&mut self, addr: Option<u8>, index: Option<usize>, line: &[u8], entry: &Entry) {
        match entry {
            Entry::Put(record) | Entry::Kept(record) => self.put(addr, index, record),
            Entry::Listing { entry, .. } => self.devices.listed(addr.unwrap_or(0), entry),
            Entry::Said(said) => self.devices.say(said),
            Entry::Balance(totals) => self.balance = Some(*totals),
            Entry::Crash { .. } => self.cut_jobs(),
            Entry::Ended { addr, end } => {
                let word = line.split(|byte| *byte == b' ').next().unwrap_or(line);
                self.end_job(
                    *addr,
                    Ending::Told {
                        word: Label::new(word),
                        end: *end,
                    },
                );
            }
            _ => {}
        }
    }

    /// Takes a record of a device and a job.
    fn put(&mut self, addr: Option<u8>, index: Option<usize>, record: &Record) {
        self.devices.put(addr.unwrap_or(0), record);
        if let Some(index) = index
            && let Some(job) = self.jobs.get_mut(index)
        {
            job.put(record);
        }
    }

    /// Ends the job at an address.
    fn end_job(&mut self, addr: u8, ending: Ending) {
        let Some(index) = self.running[usize::from(addr)].take() else {
            return;
        };
        if let Some(job) = self.jobs.get_mut(index) {
            job.ending = ending;
        }
        self.join_idle(index);
    }

    /// Ends all jobs, by a power cut.
    fn cut_jobs(&mut self) {
        for place in self.running.iter_mut() {
            if let Some(index) = place.take()
                && let Some(job) = self.jobs.get_mut(index)
            {
                job.ending = Ending::Cut;
            }
        }
    }

    /// Joins a round that found nothing new to the one right before it, if that is such a one at
    /// the same device.
    fn join_idle(&mut self, index: usize) {
        let Some(job) = self.jobs.get(index) else {
            return;
        };
        let Some(before) = index.checked_sub(1).and_then(|index| self.jobs.get(index)) else {
            return;
        };
        let first = job.first;
        let until = job.until;
        let is_next = before.last.saturating_add(1) == first
            && job.last.saturating_add(1) == self.rows.len();
        let is_same = before.addr == job.addr && before.command == job.command;
        if !is_next
            || !is_same
            || !before.is_idle()
            || !job.is_idle()
            || !self.is_whole(index, first)
        {
            return;
        }
        self.rows.truncate(first);
        let _ = self.jobs.pop();
        if let Some(before) = self.jobs.last_mut() {
            before.times = before.times.saturating_add(1);
            before.until = until;
        }
    }

    /// Whether all rows after that of a job's command are of this job, and so is that command the
    /// last one.
    fn is_whole(&self, index: usize, first: usize) -> bool {
        let (_, rows) = self
            .rows
            .split_at(self.rows.len().min(first.saturating_add(1)));
        index.saturating_add(1) == self.jobs.len() && rows.iter().all(|row| row.job == Some(index))
    }

    /// Adds a line that is no entry.
    fn note(&mut self, place: Place, line: &[u8]) -> Result<(), AllocError> {
        let said = quiet_said(line);
        let addr = said.as_ref().map(crate::device::addr_said);
        if let Some(said) = &said
            && let Some(addr) = addr
        {
            self.devices.learn(addr, LaneKind::Acceptor);
            self.devices.say(said);
        }
        let body = Body::Line {
            line: line.to_vec(self.alloc)?,
            told: Vec::new(self.alloc),
        };
        let row = self.row_of(place, addr, tone_of_note(line), body);
        self.lines = place.line;
        self.push(row)
    }
}

/// What an entry says of the device at its address.
fn kind_of(addr: u8, entry: &Entry) -> LaneKind {
    match kind_told(entry) {
        Some((told, kind)) if told == addr => kind,
        _ => LaneKind::Unknown,
    }
}

/// How an exchange is to be looked at; in a scan a device that doesn't answer is none.
fn tone_of_exchange(exchange: &Exchange<'_>, wire: &Wire<'_>, is_scan: bool) -> Tone {
    if let Asked::Broken(_) = exchange.asked
        && wire.has_sent
    {
        return Tone::Red;
    }
    if !wire.has_heard {
        return Tone::Red;
    }
    match heard_in(&exchange.answer) {
        Heard::Answered => Tone::Plain,
        Heard::Nak | Heard::Busy => Tone::Odd,
        Heard::Silence if is_scan => Tone::Plain,
        Heard::Silence | Heard::NoReply | Heard::Damaged | Heard::DamagedEcho | Heard::Other =>
            Tone::Red,
    }
}
