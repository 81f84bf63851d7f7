// The host's link over a line.
ghost use Rattle.std.specs.Prelude.{◌≡◌, ◌≤◌, ◌++◌, ℕ, List, true, false, length, IfNone, IfSome};
ghost use Rattle.std.specs.Prelude.{OnOk, OnErr};
ghost use Rattle.cct_model_wire.specs.declared.wire.TheConstants.{MOST_SENT};
ghost use Rattle.cct_live_port.specs.Port.{echo_in, echo_of};

use crate::Line;
use crate::answer::{is_answered_by, is_to_all};
use crate::calls::{listen, send};
use arrayvec::ArrayVec;
use cct_edge::Failed;
use cct_model_wire::{CheckKind, MOST_HEARD};
use cct_wire::{Link, bare_after_echo};

/// An address poll by the host, under the simple check.
const ADDRESS_POLL: [u8; 5] = [0, 0, 1, 253, 2];

/// How a port uses its line. Times are numbers of reads in a row that brought nothing.
#[derive(Clone, Copy, PartialEq, Eq)]
pub struct Options {
    /// Whether the line gives back what is sent. Where it doesn't, the port writes the echo itself.
    pub echoes: bool,
    /// How long the line has to be silent before a message is sent, if the last one was answered.
    /// After a whole reply no device owes anything. So 0 is right where no device sends a reply
    /// twice, with or without an echo. Where one does, 1 drops what came twice. At 0 it is before
    /// the echo of the next message, which then counts as not answered; and where the line gives no
    /// echo, it is taken for the reply to the next message.
    pub gap: u16,
    /// How long an answer is waited for, and how long it may pause.
    pub patience: u16,
    /// The longest time after which any device on the line may still answer. So long the line has
    /// to be silent before a message is sent, at the start and if the last one wasn't answered,
    /// whatever that silence was waited for: the silent reads in which its answer was waited for
    /// count. So long an address poll is listened to.
    pub longest: u16,
}

/// A link over a line. It sends nothing while a late reply to an earlier message may come.
#[derive(Drop)]
pub struct Port<L> {
    line: L,
    options: Options,
    settled: bool,
    /// How many reads in a row were silent at the end of the last exchange, since the last byte
    /// that came or was sent.
    silent: u16,
    /// Whether all bytes of the last message were written.
    is_sent: bool,
    faults: u64,
}

impl<L: Line> Port<L> {
    ghost use Rattle.cct_live_port.specs.Port.{line_of, options_of, settled, silent_of, was_sent};
    ghost use Rattle.cct_live_port.specs.Port.{faults_of, patience, wanted};
    ghost use Rattle.cct_live_port.specs.Port.{Gives, address_poll, echo_in, with_echo, with_gap};

    /// A port over a line of which nothing is known, so its first exchange waits.
    pub fn new(line: L, options: Options) -> Port<L>
        ensures line { line_of result ≡ line }
        ensures options { options_of result ≡ options }
        ensures unsettled { settled result ≡ false }
        ensures unheard { silent_of result ≡ 0 }
        ensures unsent { was_sent result ≡ false }
        ensures faultless { faults_of result ≡ 0 }
    {
        Port {
            line,
            options,
            settled: false,
            silent: 0,
            is_sent: false,
            faults: 0,
        }
    }

    /// How many exchanges failed: a read or a write failed, or the line was never silent.
    pub fn faults(&self) -> u64
        ensures { result ≡ faults_of self.now }
    {
        self.faults
    }

    /// Whether all bytes of the last exchange's message were written; not where the line was never
    /// silent, or the write failed, or before the first exchange.
    pub fn was_sent(&self) -> bool
        ensures { result ≡ was_sent self.now }
    {
        self.is_sent
    }

    /// Whether the last exchange brought the whole reply, so the next one needn't wait for late
    /// ones.
    pub fn is_settled(&self) -> bool
        ensures { result ≡ settled self.now }
    {
        self.settled
    }

    /// Finds out by an address poll whether the line gives back what is sent, and goes by that from
    /// now on. If nothing is heard, it isn't known, and nothing changes.
    pub fn find_echo(&mut self) -> Option<bool>
        // It is one exchange, as over a line that gives the echo.
        ensures asks { (heard : List ℕ) × (echo_in heard ≡ result)
            × Gives L.reads L.writes (with_echo true self.old) address_poll heard (with_echo true self.new) }
        ensures found { IfSome result (λ echoes. (options_of self.new).echoes ≡ echoes) }
        ensures unknown { IfNone result ((options_of self.new).echoes
            ≡ (options_of self.old).echoes) }
    {
        let told = self.options.echoes;
        let mut heard = ArrayVec::new();
        self.options.echoes = true;
        self.exchange_under(CheckKind::Simple, &ADDRESS_POLL, &mut heard);
        let found = echo_in(heard.as_slice());
        self.options.echoes = found.unwrap_or(told);
        found
    }

    /// From now on the line has to be silent for so long before a message is sent, if the last one
    /// was answered.
    pub fn set_gap(&mut self, gap: u16)
        ensures { self.new ≡ with_gap gap self.old }
    {
        self.options.gap = gap;
    }

    /// How many reads in a row have to be silent before the next message.
    fn wanted(&self) -> u16
        ensures { result ≡ wanted self.now }
    {
        if self.settled {
            self.options.gap
        } else {
            self.options.longest
        }
    }

    /// How many reads in a row are silent before the reply is given up.
    fn patience(&self, sent: &[u8]) -> u16
        ensures { result ≡ patience self.now sent.now }
    {
        if is_to_all(sent) {
            self.options.longest
        } else {
            self.options.patience
        }
    }
}

/// Whether what is heard of an address poll begins with it, or none if nothing is heard.
fn echo_in(heard: &[u8]) -> Option<bool>
    ensures { result ≡ echo_in heard.now }
{
    match heard {
        [] => None,
        heard => Some(bare_after_echo(&ADDRESS_POLL, heard).is_ok()),
    }
}

/// Nothing is heard yet, or what is sent, where the line gives no echo.
fn begin(echoes: bool, sent: &[u8], heard: &mut ArrayVec<u8, MOST_HEARD>)
    requires short { length sent.now ≤ MOST_SENT }
    ensures { heard.new.items ≡ echo_of echoes sent.now }
{
    heard.clear();
    if !echoes {
        heard.try_extend_from_slice(sent).unwrap();
    }
}

impl<L: Line> Port<L> {
    ghost use Rattle.cct_live_port.specs.Answer.{answered_by};
    ghost use Rattle.cct_live_port.specs.Port.{GaveUp, Gives, settled};

    /// An exchange whose reply is under the check that is known, or under either where none is.
    fn converse(
        &mut self,
        known: Option<CheckKind>,
        sent: &[u8],
        heard: &mut ArrayVec<u8, MOST_HEARD>,
    )
        requires { length sent.now ≤ MOST_SENT }
        ensures gives { Gives L.reads L.writes self.old sent.now heard.new.items self.new }
        ensures settles { settled self.new ≡ answered_by known sent.now heard.new.items }
    {
        let wanted = self.wanted();
        let patience = self.patience(sent);
        begin(self.options.echoes, sent, heard);
        match send(&mut self.line, self.silent, wanted, sent) {
            Ok(()) => {}
            Err(Failed) => {
                self.give_up(false, heard);
                return;
            }
        }
        match listen(&mut self.line, patience, sent, heard) {
            Ok(silent) => {
                self.settled = is_answered_by(known, sent, heard.as_slice());
                self.silent = silent;
                self.is_sent = true;
            }
            Err(Failed) => self.give_up(true, heard),
        }
    }

    /// An exchange has failed, and all of its message was written or not: nothing is heard, and the
    /// next one waits as long as the first.
    fn give_up(&mut self, is_sent: bool, heard: &mut ArrayVec<u8, MOST_HEARD>)
        ensures gave_up { GaveUp self.old is_sent heard.new.items self.new }
    {
        heard.clear();
        self.settled = false;
        self.silent = 0;
        self.is_sent = is_sent;
        self.faults = self.faults.saturating_add(1);
    }
}

impl<L: Line> Link for Port<L> {
    ghost use Rattle.cct_live_port.specs.Answer.{answered, answered_under};
    ghost use Rattle.cct_live_port.specs.Port.{Gives, settled};

    ghost gives = { Gives L.reads L.writes };

    fn exchange(&mut self, sent: &[u8], heard: &mut ArrayVec<u8, MOST_HEARD>)
        requires { length sent.now ≤ MOST_SENT }
        ensures gives { Gives L.reads L.writes self.old sent.now heard.new.items self.new }
        ensures settles { settled self.new ≡ answered sent.now heard.new.items }
    {
        self.converse(None, sent, heard);
    }

    fn exchange_under(&mut self, kind: CheckKind, sent: &[u8], heard: &mut ArrayVec<u8, MOST_HEARD>)
        requires { length sent.now ≤ MOST_SENT }
        ensures gives { Gives L.reads L.writes self.old sent.now heard.new.items self.new }
        ensures settles { settled self.new ≡ answered_under kind sent.now heard.new.items }
    {
        self.converse(Some(kind), sent, heard);
    }
}
