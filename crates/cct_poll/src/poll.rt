//! The host, step by step.
ghost use Rattle.std.specs.Prelude.{◌≡◌, ◌<◌, ◌≤◌, ◌+◌, ℕ, [], false, true, length, IfErr, IfOk};
ghost use Rattle.std.specs.Prelude.{IsOk, IsTrue, is_some, ◌↔◌, ◌≢◌, ◌⊎◌, OnErr, OnOk, List, Some};
ghost use Rattle.std.specs.Prelude.{None, reverse, slice_get};
ghost use Rattle.std.specs.Option.{IfSome, option_map};
ghost use Rattle.cct_host.specs.Desks.{due_on, sending_on};
ghost use Rattle.cct_host.specs.Host.{Keeps, StandsFor, disk_of, has_failed, setup_of};
ghost use Rattle.cct_journal.specs.Image.{IsAlien};
ghost use Rattle.cct_journal.specs.Journal as journals;
ghost use Rattle.cct_model.specs.Exchange as exchanges;
ghost use Rattle.cct_model.specs.Money.{totals};
ghost use Rattle.cct_model.specs.Setup.{IsSoundSetup};
ghost use Rattle.cct_model.specs.terms.device.Setup.{Setup};
ghost use Rattle.cct_model.specs.lines.entry.Entry.{Entry};
ghost use Rattle.cct_model.specs.terms.wire.TheConstants.{MOST_HEARD};
ghost use Rattle.cct_disk.specs.Disk.{IsReady};
ghost use Rattle.cct_disk_queue.specs.Calls.{act_of};
ghost use Rattle.cct_disk_queue.specs.Queue.{Spent, bytes_of};
ghost use Rattle.cct_poll.specs.Starts.{RefusesStart, Starts, WasFound, WasMade, untouched};
ghost use Rattle.cct_poll.specs.Awaits.{Awaits, Awaits-prop};
ghost use Rattle.cct_poll.specs.Steps.{Says, Steps, Tells};

use crate::advance::{hear, put};
use crate::refusal::{NotNow, PollNo};
use arrayvec::ArrayVec;
use cct_disk_queue::{Call, QueueDisk};
use cct_host::{Host, StartNo};
use cct_journal::{CreateNo, Journal, OpenNo};
use cct_model::{Command, Entry, MOST_SENT, Setup, Totals};
use cct_msg::encode_request;

/// What the caller is to do next.
#[derive(Clone, Copy, Debug, PartialEq, Eq)]
pub enum Ask {
    /// To make [`Poll::call`] on his part, and to say [`Poll::done`] or [`Poll::lost`].
    Make,
    /// To take [`Poll::entry`], and to say [`Poll::taken`].
    Take,
    /// To send [`Poll::piece`], once, and to say by [`Poll::heard`] what he heard.
    Send,
    /// To say what he heard after the piece that he sent, no bytes where nothing came.
    Hear,
    /// To say [`Poll::put`]: a record is due.
    Put,
    /// Nothing, at this address.
    Idle,
    /// Nothing any more: a call was lost. A new host is to be started over what the part has.
    Over,
}

/// A host whose caller has the wire, and the part that keeps its journal. It calls nothing. Nothing
/// is sent and no entry is reported while a call on the part is noted: so what is reported as put
/// is on the part, where the caller makes the calls in their order.
#[derive(Drop)]
pub struct Poll<'s> {
    host: Host<'s, QueueDisk>,
    /// The entries of the last step, of which the first `told` were taken.
    report: ArrayVec<Entry, 8>,
    told: usize,
    /// So many of the noted calls were made.
    made: usize,
    /// The address at which the piece is sent of which it isn't reported yet what was heard.
    asked: Option<u8>,
    piece: ArrayVec<u8, MOST_SENT>,
    over: bool,
    ghost whole: { has_failed host ≡ false },
    ghost unfailed: { (disk_of host).faults ≡ 0 },
    ghost awaits: { Awaits asked host.desks piece.items } by { Awaits-prop asked host.desks piece.items },
    ghost counts: { 0 < made → made < length (disk_of host).calls },
}

impl<'s> Poll<'s> {
    ghost use Rattle.cct_poll.specs.Asks.{Asks, IsQuiet, IsSettled, IsTold};

    /// A host over what a part holds: the journal that is there, or a new one where each byte is 0.
    /// The calls that make a new one are the first that are to be made. Nothing is to be made where
    /// none is started.
    pub fn start(setup: &'s Setup, part: Vec<u8>) -> Result<Poll<'s>, PollNo>
        requires sound { IsSoundSetup setup.now }
        ensures setup { IfOk result (λ poll. setup_of poll.host ≡ setup.now) }
        ensures begins { IfOk result (λ poll. (poll.over ≡ false) × (poll.asked ≡ None) × (poll.report.items ≡ [])
            × (poll.told ≡ 0) × (poll.made ≡ 0)) }
        // It begins with the records that the part holds. A journal is made only where no byte but
        // 0 is.
        ensures starts { IfOk result (λ poll. Starts setup.now part.items poll.host) }
        ensures refused { IfErr result (RefusesStart setup.now part.items) }
    {
        let journal = journal_on(part)?;
        match Host::start(setup, journal) {
            Ok(host) => Ok(Poll {
                host,
                report: ArrayVec::new(),
                told: 0,
                made: 0,
                asked: None,
                piece: ArrayVec::new(),
                over: false,
            }),
            Err((_, StartNo::BadRecord { index })) => Err(PollNo::BadRecord { index }),
            Err((_, StartNo::Disk)) => unreachable!(),
        }
    }

    /// What the caller is to do next, at an address.
    pub fn ask(&mut self, addr: u8) -> Ask
        // Nothing is sent, reported or put while a call is noted.
        ensures settled { Tells result → (disk_of self.new.host).calls ≡ [] }
        ensures sends { result ≡ Ask.Send → self.new.asked ≡ Some addr }
        // A piece is sent once: then it is to be said what was heard.
        ensures once { result ≡ Ask.Send → self.old.asked ≡ None }
        ensures host { self.new.host ≡ self.old.host }
        ensures over { self.new.over ≡ self.old.over }
        ensures asks { Asks result self.old addr }
        // A call that is to be made is there.
        ensures there { result ≡ Ask.Make → self.new.made < length (disk_of self.new.host).calls }
        // It is the request that the job there sends next.
        ensures piece { result ≡ Ask.Send → IfSome (sending_on self.old.host.desks addr) (λ s. self.new.piece.items
            ≡ exchanges.ask s.kind s.to s.request) }
        ensures rest { (self.new.report ≡ self.old.report) × (self.new.told ≡ self.old.told)
            × (self.new.made ≡ self.old.made) }
        ensures stays { result ≢ Ask.Send → self.new ≡ self.old }
    {
        if self.over {
            return Ask::Over;
        }
        if !self.is_settled() {
            return Ask::Make;
        }
        if self.told < self.report.len() {
            return Ask::Take;
        }
        if self.asked.is_some() {
            return Ask::Hear;
        }
        match self.host.sending(addr) {
            Some(sending) => {
                encode_request(sending.kind, sending.to, &sending.request, &mut self.piece);
                self.asked = Some(addr);
                Ask::Send
            }
            None => match self.host.due(addr) {
                Some(_) => Ask::Put,
                None => Ask::Idle,
            },
        }
    }

    /// The call that is to be made on the part, where [`Poll::ask`] says so.
    pub fn call(&self) -> Option<Call<'_>>
        // The first that is noted, and that isn't done yet.
        ensures { option_map act_of result
            ≡ slice_get (reverse (disk_of self.now.host).calls) self.now.made }
    {
        self.host.disk().call(self.made)
    }

    /// The entry that is to be taken, where [`Poll::ask`] says so.
    pub fn entry(&self) -> Option<&Entry>
        // The first of the last step that wasn't taken yet.
        ensures { option_map (λ e. e.now) result ≡ slice_get self.now.report.items self.now.told }
    {
        self.report.get(self.told)
    }

    /// The piece that is to be sent, where [`Poll::ask`] says so.
    pub fn piece(&self) -> &[u8]
        ensures { result.now ≡ self.now.piece.items }
    {
        self.piece.as_slice()
    }

    /// A command of the operator, of which one entry is to be taken: it is taken, or refused for
    /// the first reason that holds.
    pub fn command(&mut self, command: &Command) -> Result<(), NotNow>
        ensures settled { OnOk result ((disk_of self.old.host).calls ≡ []) }
        ensures setup { setup_of self.new.host ≡ setup_of self.old.host }
        ensures said { OnOk result ((past : List Entry) → StandsFor self.old.host past
            → Says command.now past self.old.host self.new.host self.new.report.items) }
        // None of its entries was taken yet.
        ensures fresh { OnOk result ((self.new.told ≡ 0) × (self.new.asked ≡ None)
            × (self.new.made ≡ self.old.made)) }
        ensures over { self.new.over ≡ self.old.over }
        // Nothing is to be made on the part.
        ensures part { disk_of self.new.host ≡ disk_of self.old.host }
        ensures due { IsOk result ↔ IsQuiet self.old }
        ensures stays { OnErr result (self.new ≡ self.old) }
    {
        if !self.is_quiet() {
            return Err(NotNow);
        }
        let said = match self.host.command(command) {
            Ok(()) => Entry::Taken(*command),
            Err(why) => Entry::No {
                command: *command,
                why,
            },
        };
        self.report.clear();
        self.told = 0;
        self.report.push(said);
        Ok(())
    }

    /// This was heard after the piece was sent, its echo first where the line gives one; no bytes
    /// where nothing came.
    #[tactic(auto, using(crate::proofs::Stepping::settled_ready))]
    pub fn heard(&mut self, bytes: &[u8]) -> Result<(), NotNow>
        requires few { length bytes.now ≤ MOST_HEARD }
        ensures settled { OnOk result ((disk_of self.old.host).calls ≡ []) }
        ensures setup { setup_of self.new.host ≡ setup_of self.old.host }
        // A reply is heard once, after a piece that was sent.
        ensures once { OnOk result (self.new.asked ≡ None) }
        // One attempt of the host at the address, which sent just that piece and heard these bytes,
        // whatever happened before.
        ensures steps { OnOk result ((addr : ℕ) × (self.old.asked ≡ Some addr)
            × Steps self.old.piece.items bytes.now addr self.old.host self.new.host self.new.report.items) }
        // Whatever is heard, the host isn't over by it.
        ensures over { self.new.over ≡ self.old.over }
        // None of its entries was taken yet.
        ensures fresh { OnOk result ((self.new.told ≡ 0) × (self.new.asked ≡ None)
            × (self.new.made ≡ self.old.made)) }
        ensures due { IsOk result ↔ (IsTold self.old × (is_some self.old.asked ≡ true)) }
        ensures stays { OnErr result (self.new ≡ self.old) }
    {
        let Some(addr) = self.asked else {
            return Err(NotNow);
        };
        if !self.is_told() {
            return Err(NotNow);
        }
        self.asked = None;
        self.report.clear();
        self.told = 0;
        hear(&mut self.host, addr, bytes, &mut self.report);
        Ok(())
    }

    /// The record that is due at an address is put: its calls are then to be made.
    #[tactic(auto, using(crate::proofs::Stepping::settled_ready))]
    pub fn put(&mut self, addr: u8) -> Result<(), NotNow>
        ensures settled { OnOk result ((disk_of self.old.host).calls ≡ []) }
        ensures setup { setup_of self.new.host ≡ setup_of self.old.host }
        // One attempt of the host at the address, which sent nothing.
        ensures steps { OnOk result (Steps [] [] addr self.old.host self.new.host
            self.new.report.items) }
        // Its calls are noted whatever happened before, so the host isn't over by it.
        ensures over { self.new.over ≡ self.old.over }
        // None of its entries was taken yet.
        ensures fresh { OnOk result ((self.new.told ≡ 0) × (self.new.asked ≡ None)
            × (self.new.made ≡ self.old.made)) }
        ensures due { IsOk result
            ↔ (IsQuiet self.old × (is_some (due_on self.old.host.desks addr) ≡ true)) }
        ensures stays { OnErr result (self.new ≡ self.old) }
    {
        if !self.is_quiet() || self.host.due(addr).is_none() {
            return Err(NotNow);
        }
        self.report.clear();
        self.told = 0;
        put(&mut self.host, addr, &mut self.report);
        Ok(())
    }

    /// The caller made the call, and it was done.
    pub fn done(&mut self) -> Result<(), NotNow>
        ensures setup { setup_of self.new.host ≡ setup_of self.old.host }
        ensures stands { (past : List Entry) → StandsFor self.old.host past →
            StandsFor self.new.host past }
        ensures over { self.new.over ≡ self.old.over }
        // The next one is due; after the last one none is noted any more, and the part has what
        // they made of it.
        ensures next { OnOk result (((self.old.made + 1 < length (disk_of self.old.host).calls)
            × (self.new.made ≡ self.old.made + 1) × (self.new.host ≡ self.old.host))
            ⊎ ((self.old.made + 1 ≡ length (disk_of self.old.host).calls)
            × (self.new.made ≡ 0) × ((disk_of self.new.host).calls ≡ [])
            × ((disk_of self.new.host).base ≡ bytes_of (disk_of self.old.host)))) }
        // What is reported and heard stays.
        ensures rest { (self.new.report ≡ self.old.report) × (self.new.told ≡ self.old.told)
            × (self.new.asked ≡ self.old.asked) × (self.new.piece ≡ self.old.piece) }
        ensures due { IsOk result
            ↔ ((self.old.over ≡ false) × (self.old.made < length (disk_of self.old.host).calls)) }
        ensures stays { OnErr result (self.new ≡ self.old) }
    {
        let many = self.host.disk().count();
        if self.over || self.made >= many {
            return Err(NotNow);
        }
        self.made += 1;
        if self.made == many {
            self.host.settle();
            self.made = 0;
        }
        Ok(())
    }

    /// A call failed, or the caller can't say whether it was done: the host is over.
    pub fn lost(&mut self)
        ensures over { self.new.over ≡ true }
        ensures rest { (self.new.host ≡ self.old.host) × (self.new.report ≡ self.old.report)
            × (self.new.told ≡ self.old.told) × (self.new.made ≡ self.old.made) × (self.new.asked ≡ self.old.asked)
            × (self.new.piece ≡ self.old.piece) }
    {
        self.over = true;
    }

    /// The caller took the entry.
    pub fn taken(&mut self) -> Result<(), NotNow>
        ensures settled { OnOk result ((disk_of self.old.host).calls ≡ []) }
        ensures next { OnOk result (self.new.told ≡ self.old.told + 1) }
        ensures host { self.new.host ≡ self.old.host }
        ensures rest { (self.new.report ≡ self.old.report) × (self.new.made ≡ self.old.made)
            × (self.new.asked ≡ self.old.asked) × (self.new.piece ≡ self.old.piece) × (self.new.over ≡ self.old.over) }
        ensures due { IsOk result ↔ (IsSettled self.old
            × (self.old.told < length self.old.report.items)) }
        ensures stays { OnErr result (self.new ≡ self.old) }
    {
        if !self.is_settled() || self.told >= self.report.len() {
            return Err(NotNow);
        }
        self.told += 1;
        Ok(())
    }

    /// What is available, reserved, paid and sold, in units of value.
    pub fn totals(&self) -> Totals
        // Also after a call was lost.
        ensures { (past : List Entry) → Keeps self.now.host past → result
            ≡ totals (setup_of self.now.host) past }
    {
        self.host.totals()
    }

    /// Whether nothing is to be made, taken or heard, and no call was lost.
    fn is_quiet(&self) -> bool
        ensures { IsTrue result ↔ IsQuiet self.now }
    {
        self.is_told() && self.asked.is_none()
    }

    /// Whether nothing is to be made or taken, and no call was lost.
    fn is_told(&self) -> bool
        ensures { IsTrue result ↔ IsTold self.now }
    {
        self.is_settled() && self.told >= self.report.len()
    }

    /// Whether no call was lost, and none is noted.
    fn is_settled(&self) -> bool
        ensures { IsTrue result ↔ IsSettled self.now }
    {
        !self.over && self.has_made_all()
    }

    /// Whether no call is noted.
    fn has_made_all(&self) -> bool
        ensures { IsTrue result ↔ ((disk_of self.now.host).calls ≡ []) }
    {
        self.host.disk().count() == 0
    }
}

/// The journal on a part, or a new one where each byte is 0.
fn journal_on(part: Vec<u8>) -> Result<Journal<QueueDisk>, PollNo>
    ensures whole { IfOk result (λ journal. journals.has_failed journal ≡ false) }
    ensures opens { IfOk result (λ journal. WasFound journal (untouched part.items)
        ⊎ WasMade journal (untouched part.items)) }
    // No call of its disk fails while a host is started over it.
    ensures sure { IfOk result (λ journal.
        ((journals.used_of journal ≡ 0) × ((journals.disk_of journal).faults ≡ 0))
        ⊎ IsReady Spent (journals.disk_of journal)) }
    ensures refused { IfErr result (λ why. (setup : Setup) → RefusesStart setup part.items why) }
{
    match Journal::reopen(QueueDisk::new(part)) {
        Ok((journal, _)) => Ok(journal),
        Err((disk, OpenNo::Alien)) => make_journal(disk.into_part()),
        Err((_, OpenNo::BadRecord { index })) => Err(PollNo::BadRecord { index }),
        Err((_, OpenNo::Disk)) => unreachable!(),
    }
}

/// A new journal on a part that has none, if each of its bytes is 0.
fn make_journal(part: Vec<u8>) -> Result<Journal<QueueDisk>, PollNo>
    requires { IsAlien part.items }
    ensures whole { IfOk result (λ journal. journals.has_failed journal ≡ false) }
    ensures made { IfOk result (λ journal. WasMade journal (untouched part.items)) }
    ensures sure { IfOk result (λ journal. (journals.disk_of journal).faults ≡ 0) }
    ensures refused { IfErr result (λ why. (setup : Setup) → RefusesStart setup part.items why) }
{
    match Journal::create(QueueDisk::new(part)) {
        Ok(journal) => Ok(journal),
        Err((_, CreateNo::Small { .. })) => Err(PollNo::Small),
        Err((_, CreateNo::NotBlank { .. })) => Err(PollNo::Alien),
        Err((_, CreateNo::Disk)) => unreachable!(),
    }
}
