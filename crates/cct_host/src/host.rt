//! The host over its journal: a record is put before its entry is reported, and no put finds the
//! journal full.
ghost use Rattle.std.specs.Prelude.{◌≡◌, ◌≢◌, ◌≤◌, ◌+◌, List, [], Option, Some, None, Err, IfErr};
ghost use Rattle.std.specs.Prelude.{MatchResult, OnErr, OnOk, IsTrue, false, is_ok, is_some};
ghost use Rattle.std.specs.Prelude.{IfOk, reverse};
ghost use Rattle.std.specs.Option.{option_or};
ghost use Rattle.arrayvec.specs.ArrayVec.{array_vec_len};
ghost use Rattle.cct_edge.specs.Faults.{Caused, HasCause};
ghost use Rattle.cct_model.specs.lines.entry.Entry.{Entry};
ghost use Rattle.cct_model.specs.lines.record.Record.{Record};
ghost use Rattle.cct_model.specs.Legal.{due_at};
ghost use Rattle.cct_model.specs.Money.{available, totals};
ghost use Rattle.cct_model.specs.Records.{records};
ghost use Rattle.cct_model.specs.Refusal as refusals;
ghost use Rattle.cct_model.specs.Script.{IsCrash};
ghost use Rattle.cct_model.specs.Setup.{IsSoundSetup};
ghost use Rattle.cct_disk.specs.Disk.{IsReady, OnlyReads};
ghost use Rattle.cct_journal.specs.Journal as journals;
ghost use Rattle.cct_disk.specs.Disk.{GoesOn, Takes};
ghost use Rattle.cct_journal.specs.Turning.{put_bytes, put_calls};
ghost use Rattle.cct_disk.specs.Settle.{Settles};
ghost use Rattle.cct_host.specs.Desks as all_desks;
ghost use Rattle.cct_host.specs.Parts.{BelongTogether, BelongTogether-prop};
ghost use Rattle.cct_model.specs.Rows.{puts_in};
ghost use Rattle.cct_host.specs.Report.{kept};
ghost use Rattle.cct_host.specs.Running.{needed, rows_begun};
ghost use Rattle.std.specs.Prelude.{true};
ghost use Rattle.cct_model.specs.Refusal.{asks_room, listed};
ghost use Rattle.cct_host.specs.Running.{is_room};

use crate::Desks;
use crate::advance::advance;
use crate::refusal::{CrashNo, StartNo};
use crate::replay::replay_all;
use crate::restart::{Crashed, restart};
use arrayvec::ArrayVec;
use cct_disk::{Disk, Settle};
use cct_edge::Failed;
use cct_jobs::Sending;
use cct_journal::Journal;
use cct_journal_carry::{Tally, available, coins_of, owed};
use cct_model::{
    Command, CommandNo, CrashAt, Entry, Record, Setup, Test, Totals, need_of, room_tests,
};
use cct_wire::Link;

/// The host: the desks of its jobs, over a journal of its records, with the tally of what it needs
/// of them.
///
/// Each record is on the disk before the host goes on. Its contracts describe it by the transcript
/// of all that happened, newest entry first. It takes no memory.
#[derive(Drop)]
pub struct Host<'s, D: Disk> {
    pub(crate) desks: Desks<'s>,
    tally: Tally<'s>,
    pub(crate) journal: Journal<D>,
    ghost together: { BelongTogether desks tally journal } by { BelongTogether-prop desks tally journal },
}

impl<'s, D: Disk> Host<'s, D> {
    ghost use Rattle.cct_host.specs.OnDisk.{KeepsRecords, ReadsRecords, ReadsRest};
    ghost use Rattle.cct_host.specs.Host.{Answers, Fails, FailsBetween, FillsOn, Keeps, Nexts};
    ghost use Rattle.cct_host.specs.Host.{Stays};
    ghost use Rattle.cct_host.specs.Host.{capacity_in, disk_of, has_failed, journal_of, setup_of};
    ghost use Rattle.cct_host.specs.Restarting.{RestartFails, Restarts};
    ghost use Rattle.cct_host.specs.Starting.{FirstFollow, HasReplayed, HasResumed, HasResumedSome};
    ghost use Rattle.cct_host.specs.Starting.{RefusesResume, RefusesStart};

    /// The host over a journal: it begins with the carry of the records before the current half,
    /// and goes over those of the half, oldest first. It has no job, and the epochs, open orders
    /// and money that these show. The disk is only read.
    ///
    /// Over a journal without records it always starts. [`StartNo::Disk`] comes where a call of the
    /// disk fails, and [`StartNo::BadRecord`] at the first record of the half where the carry
    /// doesn't fit the setup, else at the first one there that can't be read or doesn't follow
    /// those before it.
    pub fn start(setup: &'s Setup, journal: Journal<D>) -> Result<Host<'s, D>, (D, StartNo)>
        requires sound { IsSoundSetup setup.now }
        requires whole { journals.has_failed journal ≡ false }
        ensures setup { IfOk result (λ host. setup_of host ≡ setup.now) }
        ensures whole { IfOk result (λ host. has_failed host ≡ false) }

        // what it knows, and why it isn't started: On any disk, also one that shows nothing, it
        // begins with the carry of its journal, which fits the setup, and went over some records
        // after that, each of which follows.
        ensures begins { IfOk result (λ host. HasResumedSome host (journals.base_of journal)
            (journals.carry_before journal)) }
        // On any disk that shows its bytes these are the ones that a read gives.
        ensures resumes { IfOk result (λ host. (rest : List Record)
            → ReadsRest D.seen (journals.disk_of journal) (journals.place_of journal) rest
            → HasResumed host (journals.base_of journal) (journals.carry_before journal) rest) }
        // Where the first ones of the records follow one another, it is as one that went over all
        // of them.
        ensures knows { IfOk result (λ host. (records : List Record)
            → (reads : ReadsRecords setup.now D.seen (journals.disk_of journal) (journals.place_of journal) records)
            → FirstFollow setup.now reads → HasReplayed host (reverse records)) }
        // Only where the carry doesn't fit the setup, by the index of the first record after it; or
        // at the first record that doesn't follow, by its index; or if the disk failed.
        ensures stops { IfErr result (λ e. (rest : List Record)
            → ReadsRest D.seen (journals.disk_of journal) (journals.place_of journal) rest
            → RefusesResume e.1 setup.now (journals.base_of journal) (journals.carry_before journal) rest) }
        // Where the first ones of the records follow one another, only at the first record that
        // doesn't follow those before it, by its index, or if the disk failed.
        ensures refused { IfErr result (λ e. (records : List Record)
            → (reads : ReadsRecords setup.now D.seen (journals.disk_of journal) (journals.place_of journal) records)
            → FirstFollow setup.now reads → RefusesStart e.1 setup.now records) }
        ensures cause { MatchResult result (λ host. D.faults (journals.disk_of journal) ≤ D.faults (disk_of host))
            (λ e. Caused (D.faults (journals.disk_of journal)) (D.faults e.0) (e.1 ≡ StartNo.Disk)) }
        ensures sure { IsReady D.spent (journals.disk_of journal) → MatchResult result
            (λ host. IsReady D.spent (disk_of host)) (λ e. e.1 ≢ StartNo.Disk) }

        // over a journal without records
        ensures starts { journals.used_of journal ≡ 0 → IsTrue (is_ok result) }
        ensures fresh { IfOk result (λ host. journals.used_of journal ≡ 0 → HasReplayed host []) }
        // No call of the disk is made then.
        ensures untouched { IfOk result (λ host. journals.used_of journal ≡ 0 → journal_of host
            ≡ journal) }

        // the journal and its disk
        ensures place { IfOk result (λ host. journals.place_of (journal_of host)
            ≡ journals.place_of journal) }
        ensures stands { IfOk result (λ host. (records : List Record)
            → KeepsRecords setup.now D.honest D.seen D.may_leave (journals.disk_of journal) (journals.place_of journal) records
            → KeepsRecords setup.now D.honest D.seen D.may_leave (disk_of host) (journals.place_of (journal_of host))
            records) }
        ensures reads { MatchResult result
            (λ host. OnlyReads D.size D.honest D.seen D.may_leave D.moment D.left_since D.cuts
            (journals.disk_of journal) (disk_of host))
            (λ e. OnlyReads D.size D.honest D.seen D.may_leave D.moment D.left_since D.cuts
            (journals.disk_of journal) e.0) }
    {
        let mut journal = journal;
        match replay_all(setup, &mut journal) {
            Ok(tally) => Ok(Host {
                desks: Desks::resume(setup, tally.carry()),
                tally,
                journal,
            }),
            Err(why) => Err((journal.into_disk(), why)),
        }
    }

    /// The operator gives a command. A refused one, for the first reason that holds, changes
    /// nothing.
    pub fn command(&mut self, command: &Command) -> Result<(), CommandNo>
        ensures setup { setup_of self.new ≡ setup_of self.old }
        ensures journal { journal_of self.new ≡ journal_of self.old }
        ensures stays { OnErr result (Stays self.old self.new) }
        // The first reason that holds: those of its desk, then the want of money, then that of room
        // in the journal, beside the records that are put and held.
        ensures answers { Answers self.old self.new command.now result }
    {
        match self.room_refusal(command) {
            None => self.desks.command(command),
            Some(why) => Err(self.desks.refusal(command).unwrap_or(why)),
        }
    }

    /// Why a command is refused beside the tests of its device, if it is: what it spends isn't
    /// available, or the journal has no room for the records that it may put.
    fn room_refusal(&self, command: &Command) -> Option<CommandNo>
        ensures fits { result ≡ None → 1 ≤ puts_in (rows_begun (setup_of self.now) command.now)
            → journals.used_of self.now.journal
            + all_desks.held_of self.now.desks + needed (setup_of self.now) command.now ≤ capacity_in self.now }
        ensures stands { (past : List Entry) → Keeps self.now past
            → option_or (refusals.state_refusal (setup_of self.now) past command.now) result
            ≡ refusals.refusal (capacity_in self.now) (setup_of self.now) past command.now }
    {
        let there = self.desks.is_there(command);
        self.room_failing(&room_tests(command), need_of(command, there))
    }

    /// Why the first of these tests of the money and the room fails, if one does, where so much
    /// room is wanted.
    #[tactic(auto, using(crate::proofs::Testing::first_more))]
    fn room_failing(&self, tests: &[Option<Test>; 2], need: u32) -> Option<CommandNo>
        ensures fits { result ≡ None → asks_room (listed tests.now) ≡ true
            → journals.used_of self.now.journal + all_desks.held_of self.now.desks + need ≤ capacity_in self.now }
        ensures stands { (past : List Entry) → Keeps self.now past
            → result ≡ refusals.first_of (refusals.room_fails (capacity_in self.now) (setup_of self.now) past need)
            (listed tests.now) }
    {
        match tests {
            [Some(first), Some(second)] => match self.room_fails(first, need) {
                Some(why) => Some(why),
                None => self.room_fails(second, need),
            },
            [Some(only), None] => self.room_fails(only, need),
            [None, Some(only)] => self.room_fails(only, need),
            [None, None] => None,
        }
    }

    /// Why a test of the money or of the room fails, if it does.
    fn room_fails(&self, test: &Test, need: u32) -> Option<CommandNo>
        ensures fits { result ≡ None → is_room test.now ≡ true
            → journals.used_of self.now.journal + all_desks.held_of self.now.desks + need ≤ capacity_in self.now }
        ensures stands { (past : List Entry) → Keeps self.now past
            → result ≡ refusals.room_fails (capacity_in self.now) (setup_of self.now) past need test.now }
    {
        match *test {
            Test::WithCoins { addr, count } => {
                self.short_refusal(coins_of(self.desks.setup(), addr, count))
            }
            Test::WithPrice { price } => self.short_refusal(u64::from(price)),
            Test::WithRoom => self.full_refusal(need),
            _ => None,
        }
    }

    /// Why a command is refused that spends so much, if it is: so much isn't available.
    fn short_refusal(&self, wanted: u64) -> Option<CommandNo>
        ensures { (past : List Entry) → Keeps self.now past
            → result ≡ refusals.short_refusal (setup_of self.now) past wanted }
    {
        let have = self.available();
        if wanted <= have {
            None
        } else {
            Some(CommandNo::Short { have })
        }
    }

    /// Why a command is refused that needs room for so many records, if it is: beside the records
    /// that are put, and those that are held for jobs and open orders, the journal has no such
    /// room.
    fn full_refusal(&self, need: u32) -> Option<CommandNo>
        ensures fits { result ≡ None → journals.used_of self.now.journal + all_desks.held_of self.now.desks + need
            ≤ capacity_in self.now }
        ensures stands { (past : List Entry) → Keeps self.now past
            → result ≡ refusals.full_refusal (setup_of self.now) past need (capacity_in self.now) }
    {
        let used = self.journal.used();
        let most = self.desks.most_held();
        let capacity = u64::from(self.journal.capacity());
        if u64::from(used) + u64::from(most) + u64::from(need) <= capacity {
            None
        } else {
            let held = self.desks.held();
            if u64::from(used) + u64::from(held) + u64::from(need) <= capacity {
                None
            } else {
                Some(CommandNo::JournalFull { used, held, need })
            }
        }
    }

    /// The job at an address makes one attempt of one row over a link, and adds its entries to the
    /// report: an exchange, or a put of a record that then is on the disk; and where the job is
    /// then done its end, which frees the address. With no job the address is idle.
    ///
    /// Fails only where a call of the disk fails. Then no entry is added, and whether the record is
    /// on the disk is open: only [`Host::totals`] and [`Host::into_disk`] may be called.
    pub fn next<L: Link>(
        &mut self,
        addr: u8,
        link: &mut L,
        report: &mut ArrayVec<Entry, 8>,
    ) -> Result<(), Failed>
        requires room { array_vec_len report.old ≤ 6 }
        requires whole { has_failed self.old ≡ false }
        ensures setup { setup_of self.new ≡ setup_of self.old }

        // the attempt
        ensures whole { OnOk result (has_failed self.new ≡ false) }
        // After any past: the entries of one attempt of one row, and a record that was due is on
        // the disk before its entry is reported. Whatever happened before, the journal counts only
        // the record that is reported.
        ensures nexts { OnOk result (Nexts L.gives link.old link.new addr self.old self.new report.old.items
            report.new.items) }
        // The current half of the journal has that record beside those before it, or it alone,
        // where the half was full.
        ensures fills { OnOk result (FillsOn (journal_of self.old) (journal_of self.new)) }

        // a put that failed
        ensures stays { OnErr result (report.new ≡ report.old) }
        ensures link { OnErr result (link.new ≡ link.old) }
        // Only with a record due.
        ensures due { OnErr result (is_some (all_desks.due_on self.old.desks addr) ≡ true) }
        // The host has all of the past as before, and whatever a power cut leaves on a trusted disk
        // represents the records of the past, or these and that one.
        ensures fails { OnErr result (Fails self.old self.new addr) }
        // And so does whatever one might have left at a moment of it.
        ensures between { OnErr result (FailsBetween self.old self.new addr) }

        // the disk
        ensures cause { HasCause (D.faults (disk_of self.old)) (D.faults (disk_of self.new)) result }
        ensures goes_on { GoesOn D.size D.honest D.seen D.cuts (disk_of self.old) (disk_of self.new) }
        ensures takes { Takes D.below D.spent put_calls put_bytes (disk_of self.old)
            (disk_of self.new) }
    {
        report.push(Entry::Words);
        match self.attempt(addr, link, report) {
            Ok(()) => Ok(()),
            Err(Failed) => {
                report.pop();
                Err(Failed)
            }
        }
    }

    /// As [`Host::next`], but the entries of the attempt are all that the report then has: they take
    /// the place of the one that it had. An exchange in the place of another one is written where
    /// that stands, and no other byte is.
    ///
    /// Where it fails, the report has the entry that it had.
    pub fn next_into<L: Link>(
        &mut self,
        addr: u8,
        link: &mut L,
        report: &mut ArrayVec<Entry, 8>,
    ) -> Result<(), Failed>
        requires one { array_vec_len report.old ≡ 1 }
        requires whole { has_failed self.old ≡ false }
        ensures setup { setup_of self.new ≡ setup_of self.old }

        // the attempt
        ensures whole { OnOk result (has_failed self.new ≡ false) }
        // After any past: the entries of one attempt of one row, and a record that was due is on
        // the disk before its entry is reported. Whatever happened before, the journal counts only
        // the record that is reported.
        ensures nexts { OnOk result (Nexts L.gives link.old link.new addr self.old self.new []
            report.new.items) }
        // The current half of the journal has that record beside those before it, or it alone,
        // where the half was full.
        ensures fills { OnOk result (FillsOn (journal_of self.old) (journal_of self.new)) }

        // a put that failed
        ensures stays { OnErr result (report.new ≡ report.old) }
        ensures link { OnErr result (link.new ≡ link.old) }
        // Only with a record due.
        ensures due { OnErr result (is_some (all_desks.due_on self.old.desks addr) ≡ true) }
        // The host has all of the past as before, and whatever a power cut leaves on a trusted disk
        // represents the records of the past, or these and that one.
        ensures fails { OnErr result (Fails self.old self.new addr) }
        // And so does whatever one might have left at a moment of it.
        ensures between { OnErr result (FailsBetween self.old self.new addr) }

        // the disk
        ensures cause { HasCause (D.faults (disk_of self.old)) (D.faults (disk_of self.new)) result }
        ensures goes_on { GoesOn D.size D.honest D.seen D.cuts (disk_of self.old) (disk_of self.new) }
        ensures takes { Takes D.below D.spent put_calls put_bytes (disk_of self.old)
            (disk_of self.new) }
    {
        self.attempt(addr, link, report)
    }

    /// One attempt, whose entries begin in the place of the last one of the report.
    fn attempt<L: Link>(
        &mut self,
        addr: u8,
        link: &mut L,
        report: &mut ArrayVec<Entry, 8>,
    ) -> Result<(), Failed>
        requires last { 1 ≤ array_vec_len report.old }
        requires room { array_vec_len report.old ≤ 7 }
        requires whole { has_failed self.old ≡ false }
        ensures setup { setup_of self.new ≡ setup_of self.old }

        // the attempt
        ensures whole { OnOk result (has_failed self.new ≡ false) }
        // After any past: the entries of one attempt of one row, and a record that was due is on
        // the disk before its entry is reported. Whatever happened before, the journal counts only
        // the record that is reported.
        ensures nexts { OnOk result (Nexts L.gives link.old link.new addr self.old self.new
            (kept report.old.items) report.new.items) }
        // The current half of the journal has that record beside those before it, or it alone,
        // where the half was full.
        ensures fills { OnOk result (FillsOn (journal_of self.old) (journal_of self.new)) }

        // a put that failed
        ensures stays { OnErr result (report.new ≡ report.old) }
        ensures link { OnErr result (link.new ≡ link.old) }
        // Only with a record due.
        ensures due { OnErr result (is_some (all_desks.due_on self.old.desks addr) ≡ true) }
        // The host has all of the past as before, and whatever a power cut leaves on a trusted disk
        // represents the records of the past, or these and that one.
        ensures fails { OnErr result (Fails self.old self.new addr) }
        // And so does whatever one might have left at a moment of it.
        ensures between { OnErr result (FailsBetween self.old self.new addr) }

        // the disk
        ensures cause { HasCause (D.faults (disk_of self.old)) (D.faults (disk_of self.new)) result }
        ensures goes_on { GoesOn D.size D.honest D.seen D.cuts (disk_of self.old) (disk_of self.new) }
        ensures takes { Takes D.below D.spent put_calls put_bytes (disk_of self.old)
            (disk_of self.new) }
    {
        advance(
            &mut self.desks,
            &mut self.tally,
            &mut self.journal,
            addr,
            link,
            report,
        )
    }

    /// The host has a power cut, in a put of the job at an address, after so many, 0 to 4, of its
    /// four disk calls, or in none; and it starts again over what its disk then keeps, which
    /// `choice` chooses as for [`Disk::power_cut`]. No job runs then.
    ///
    /// [`CrashNo::Disk`] comes where a call of the disk fails. Then come, in this order,
    /// [`CrashNo::Alien`] and [`CrashNo::BadRecord`] as the journal is opened again,
    /// [`CrashNo::Lost`], and [`CrashNo::BadRecord`] as from [`Host::start`]. After any of them
    /// only [`Host::into_disk`] may be called.
    pub fn restart(&mut self, at: Option<CrashAt>, choice: u64) -> Result<Crashed, CrashNo>
        requires whole { has_failed self.old ≡ false }
        requires few { IsCrash at }
        ensures setup { setup_of self.new ≡ setup_of self.old }
        ensures restarts { IfOk result (Restarts self.old at choice self.new) }
        ensures fails { IfErr result (RestartFails self.old at choice (disk_of self.new)) }
    {
        restart(
            &mut self.desks,
            &mut self.tally,
            &mut self.journal,
            at,
            choice,
        )
    }

    /// As [`Host::restart`], for a host that is given up where it isn't started again.
    pub fn crash(
        self,
        at: Option<CrashAt>,
        choice: u64,
    ) -> Result<(Host<'s, D>, Crashed), (D, CrashNo)>
        requires whole { has_failed self ≡ false }
        requires few { IsCrash at }
        ensures restarts { IfOk result (λ again. Restarts self.entry at choice again.0 again.1) }
        ensures fails { IfErr result (λ e. RestartFails self.entry at choice e.0 e.1) }
    {
        let mut host = self;
        match host.restart(at, choice) {
            Ok(crashed) => Ok((host, crashed)),
            Err(why) => Err((host.into_disk(), why)),
        }
    }

    /// What the job at an address sends next, if it is about to send.
    pub fn sending(&self, addr: u8) -> Option<Sending>
        ensures value { result ≡ all_desks.sending_on self.now.desks addr }
    {
        self.desks.sending(addr)
    }

    /// The record that the job at an address is about to put, if it is about to put one.
    pub fn due(&self, addr: u8) -> Option<Record>
        ensures value { result ≡ all_desks.due_on self.now.desks addr }
        // It is the record that [`Host::next`] puts there.
        ensures stands { (past : List Entry) → Keeps self.now past → result
            ≡ due_at (setup_of self.now) past addr }
    {
        self.desks.due(addr)
    }

    /// Whether the job at an address is about to put a record.
    pub fn puts(&self, addr: u8) -> bool
        ensures value { result ≡ is_some (all_desks.due_on self.now.desks addr) }
        ensures stands { (past : List Entry) → Keeps self.now past → result
            ≡ is_some (due_at (setup_of self.now) past addr) }
    {
        self.desks.puts_there(addr, self.desks.find(addr))
    }

    /// The disk, to be looked at.
    pub fn disk(&self) -> &D
        ensures { result.now ≡ disk_of self.now }
    {
        self.journal.disk()
    }

    /// What is available, reserved, paid and sold, in units of value.
    pub fn totals(&self) -> Totals
        // Also after a put that failed.
        ensures { (past : List Entry) → Keeps self.now past → result
            ≡ totals (setup_of self.now) past }
    {
        let carry = self.tally.carry();
        let owed = owed(self.tally.setup(), carry.orders.as_slice());
        Totals {
            available: self.available(),
            reserved: owed + carry.odd_value + self.desks.reserved(),
            paid: carry.paid_value,
            sold: carry.sold,
        }
    }

    /// What is available: what the records leave, less what the running jobs reserve.
    fn available(&self) -> u64
        ensures { (past : List Entry) → Keeps self.now past → result
            ≡ available (setup_of self.now) past }
    {
        available(self.tally.setup(), self.tally.carry()).saturating_sub(self.desks.reserved())
    }

    /// The disk.
    pub fn into_disk(self) -> D
        ensures { result ≡ disk_of self.entry }
    {
        let Host {
            desks: _,
            tally: _,
            journal,
        } = self;
        journal.into_disk()
    }
}

impl<'s, D: Settle> Host<'s, D> {
    ghost use Rattle.cct_host.specs.Host.{StandsFor, disk_of, has_failed, setup_of};

    /// The caller who makes the calls of the disk made all of them, and none failed.
    pub fn settle(&mut self)
        ensures setup { setup_of self.new ≡ setup_of self.old }
        ensures whole { has_failed self.new ≡ has_failed self.old }
        ensures desks { self.new.desks ≡ self.old.desks }
        ensures stands { (past : List Entry) → StandsFor self.old past → StandsFor self.new past }
        // No call of the disk is noted any more, and it is otherwise as before.
        ensures none { D.noted (disk_of self.new) ≡ 0 }
        ensures disk { Settles D.size D.honest D.seen D.may_leave D.cuts D.faults (disk_of self.old)
            (disk_of self.new) }
    {
        self.journal.settle();
    }
}
